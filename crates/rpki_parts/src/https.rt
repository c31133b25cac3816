//! URIs of the scheme https.
ghost use Rattle.std.specs.Prelude.{◌≡◌, IfOk, Some, IsOk, OnOk, Err, IsTrue, ◌↔◌, codes};
ghost use Rattle.std.proofs.Common.{rules};
ghost use Rattle.std.specs.Cmp.Rules.{comparing};
ghost use Rattle.rpki_parts.specs.Uris.{IsHttps, AreEqual};
ghost use Rattle.rpki_parts.specs.Uris.Tests as parts;
ghost use Rattle.rpki_parts.specs.declared.uri.UriError.TheVariants as error;

use crate::uri::{BadUri, UriError, are_equal, is_https, text_of};
use bytes::Bytes;
use rpki_der::Piece;
use std::alloc::{AllocError, Global};
use std::fmt;
use std::marker::Model;

/// An https URI (RFC 9110 4.2.2), as its bytes.
#[derive(Drop)]
pub struct Https {
    octets: Piece,
}

impl Model for Https {
    ghost use Rattle.std.specs.Prelude.{◌≡◌, List, ℕ, true};
    ghost use Rattle.rpki_parts.specs.Uris.Tests.{is_https};

    ghost Value = { List ℕ };

    ghost view = { λ u. u.octets };

    ghost invariant = { λ u. is_https u.octets ≡ true };

    ghost inverse = { λ b. record { octets = b } };
}

impl Https {
    /// Makes the URI with these bytes (RFC 9110 4.2.2). Takes no memory.
    ///
    /// Each byte must be a visible ASCII character, `21` to `7E`. The form is `https://` in any
    /// case, an authority that isn't empty, and then nothing, or `/` and any more.
    ///
    /// # Errors
    ///
    /// Returns `BadUri` if the bytes aren't of this form.
    pub fn from_bytes(octets: Bytes) -> Result<Https, BadUri>
        ensures accepted { IsOk result ↔ IsHttps octets }
        ensures ok { IfOk result (λ u. u ≡ octets) }
    {
        Https::from_piece(Piece::from(octets))
    }

    /// Makes the URI with these bytes, as [`Https::from_bytes`] does.
    ///
    /// # Errors
    ///
    /// As [`Https::from_bytes`].
    pub fn from_piece(octets: Piece) -> Result<Https, BadUri>
        ensures accepted { IsOk result ↔ IsHttps octets }
        ensures ok { IfOk result (λ u. u ≡ octets) }
    {
        if is_https(octets.as_bytes()) {
            Ok(Https { octets })
        } else {
            Err(BadUri)
        }
    }

    /// Makes the URI with this text, which is copied.
    ///
    /// # Errors
    ///
    /// Returns `BadUri` if and only if the text isn't of the form that [`Https::from_bytes`]
    /// requires, or `Memory` if memory ran out.
    pub fn from_text(alloc: Global, text: &str) -> Result<Https, UriError>
        ensures ok { IfOk result (λ u. u ≡ text.now) }
        ensures accepted { OnOk result (IsHttps text.now) }
        ensures rejected { (result ≡ Err error.BadUri) ↔ ¬ (IsHttps text.now) }
    {
        if !is_https(text.as_bytes()) {
            return Err(UriError::BadUri);
        }
        let octets = Bytes::copy_from_slice(alloc, text.as_bytes())?;
        Ok(Https {
            octets: Piece::from(octets),
        })
    }

    /// Returns the bytes of the URI.
    pub fn as_bytes(&self) -> &[u8]
        ensures octets { result.now ≡ self.now }
        ensures valid { IsHttps self.now }
    {
        self.octets.as_bytes()
    }

    /// Returns the text of the URI.
    pub fn as_str(&self) -> &str
        ensures { result.now ≡ self.now }
    {
        text_of(self.as_bytes())
    }

    /// Clones the URI.
    ///
    /// # Errors
    ///
    /// Returns an error if memory ran out.
    pub fn try_clone(&self, alloc: Global) -> Result<Https, AllocError>
        ensures { IfOk result (λ u. u ≡ self.now) }
    {
        let octets = self.octets.try_clone(alloc)?;
        Ok(Https { octets })
    }
}

/// Writes the URI unchanged.
impl fmt::Display for Https {
    ghost output = { λ u. Some u };

    fn fmt<W: fmt::Write>(&self, f: &mut fmt::Formatter<W>) -> fmt::Result {
        f.write_str(self.as_str())
    }
}

/// Compares authorities without ASCII case, and what follows them byte by byte.
impl PartialEq for Https {
    ghost eq = { parts.are_equal };

    ghost laws = { Prim.search (comparing, rules) };

    fn eq(&self, other: &Https) -> bool
        ensures value { result ≡ parts.are_equal self.now other.now }
        ensures equal { IsTrue result ↔ AreEqual (codes "https://") self.now other.now }
    {
        are_equal(self.as_bytes(), other.as_bytes())
    }
}

impl Eq for Https {
    ghost laws = { Prim.search (comparing, rules) };
}
