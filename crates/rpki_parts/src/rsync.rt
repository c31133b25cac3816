//! URIs of the scheme rsync.
ghost use Rattle.std.specs.Prelude.{◌≡◌, IfOk, Some, IfSome, IsOk, IsNone, OnOk, Err, IsTrue, ◌↔◌, codes};
ghost use Rattle.std.proofs.Common.{rules};
ghost use Rattle.std.specs.Cmp.Rules.{comparing};
ghost use Rattle.rpki_parts.specs.Uris.{IsRsync, AreEqual, AreIdentical, HasNoPath, IsParent, HasParent};
ghost use Rattle.rpki_parts.specs.Uris.Tests as parts;
ghost use Rattle.rpki_parts.specs.declared.uri.UriError.TheVariants as error;

use crate::uri::{BadUri, UriError, are_equal, are_identical, is_rsync, parent_of, text_of};
use bytes::Bytes;
use rpki_der::Piece;
use std::alloc::{AllocError, Global};
use std::fmt;
use std::marker::Model;

/// An rsync URI (RFC 5781), as its bytes.
#[derive(Drop)]
pub struct Rsync {
    octets: Piece,
}

impl Model for Rsync {
    ghost use Rattle.std.specs.Prelude.{◌≡◌, List, ℕ, true};
    ghost use Rattle.rpki_parts.specs.Uris.Tests.{is_rsync};

    ghost Value = { List ℕ };

    ghost view = { λ u. u.octets };

    ghost invariant = { λ u. is_rsync u.octets ≡ true };

    ghost inverse = { λ b. record { octets = b } };
}

impl Rsync {
    /// Makes the URI with these bytes (RFC 5781). Takes no memory.
    ///
    /// Each byte must be a visible ASCII character, `21` to `7E`. The form is `rsync://` in any
    /// case, an authority, `/`, a module, and then nothing, or `/` and a path. Authority and module
    /// aren't empty. No segment of the path is `.` or `..` (own).
    ///
    /// # Errors
    ///
    /// Returns `BadUri` if the bytes aren't of this form.
    pub fn from_bytes(octets: Bytes) -> Result<Rsync, BadUri>
        ensures accepted { IsOk result ↔ IsRsync octets }
        ensures ok { IfOk result (λ u. u ≡ octets) }
    {
        Rsync::from_piece(Piece::from(octets))
    }

    /// Makes the URI with these bytes, as [`Rsync::from_bytes`] does.
    ///
    /// # Errors
    ///
    /// As [`Rsync::from_bytes`].
    pub fn from_piece(octets: Piece) -> Result<Rsync, BadUri>
        ensures accepted { IsOk result ↔ IsRsync octets }
        ensures ok { IfOk result (λ u. u ≡ octets) }
    {
        if is_rsync(octets.as_bytes()) {
            Ok(Rsync { octets })
        } else {
            Err(BadUri)
        }
    }

    /// Makes the URI with this text, which is copied.
    ///
    /// # Errors
    ///
    /// Returns `BadUri` if and only if the text isn't of the form that [`Rsync::from_bytes`]
    /// requires, or `Memory` if memory ran out.
    pub fn from_text(alloc: Global, text: &str) -> Result<Rsync, UriError>
        ensures ok { IfOk result (λ u. u ≡ text.now) }
        ensures accepted { OnOk result (IsRsync text.now) }
        ensures rejected { (result ≡ Err error.BadUri) ↔ ¬ (IsRsync text.now) }
    {
        if !is_rsync(text.as_bytes()) {
            return Err(UriError::BadUri);
        }
        let octets = Bytes::copy_from_slice(alloc, text.as_bytes())?;
        Ok(Rsync {
            octets: Piece::from(octets),
        })
    }

    /// Returns the bytes of the URI.
    pub fn as_bytes(&self) -> &[u8]
        ensures octets { result.now ≡ self.now }
        ensures valid { IsRsync self.now }
    {
        self.octets.as_bytes()
    }

    /// Returns the text of the URI.
    pub fn as_str(&self) -> &str
        ensures { result.now ≡ self.now }
    {
        text_of(self.as_bytes())
    }

    /// Returns the parent: without one slash at its end, the URI through its last slash (own).
    /// Returns `None` if the path is empty.
    ///
    /// # Errors
    ///
    /// Returns an error if memory ran out.
    pub fn parent(&self, alloc: Global) -> Result<Option<Rsync>, AllocError>
        ensures none { IfOk result (λ p. IsNone p ↔ HasNoPath self.now) }
        ensures some { IfOk result (λ p. IfSome p (IsParent self.now)) }
    {
        match parent_of(self.as_bytes()) {
            Some(parent) => {
                let octets = Bytes::copy_from_slice(alloc, parent)?;
                Ok(Some(Rsync {
                    octets: Piece::from(octets),
                }))
            }
            None => Ok(None),
        }
    }

    /// Returns whether the two URIs are equal without one slash at the end of each (own).
    pub fn is_identical_to(&self, other: &Rsync) -> bool
        ensures { IsTrue result ↔ AreIdentical self.now other.now }
    {
        are_identical(self.as_bytes(), other.as_bytes())
    }

    /// Returns whether the URI has a parent, and that is identical to the other URI
    /// ([`Rsync::is_identical_to`]; own). Takes no memory.
    pub fn parent_is(&self, other: &Rsync) -> bool
        ensures { IsTrue result ↔ HasParent self.now other.now }
    {
        match parent_of(self.as_bytes()) {
            Some(parent) => are_identical(parent, other.as_bytes()),
            None => false,
        }
    }

    /// Clones the URI.
    ///
    /// # Errors
    ///
    /// Returns an error if memory ran out.
    pub fn try_clone(&self, alloc: Global) -> Result<Rsync, AllocError>
        ensures { IfOk result (λ u. u ≡ self.now) }
    {
        let octets = self.octets.try_clone(alloc)?;
        Ok(Rsync { octets })
    }
}

/// Writes the URI unchanged.
impl fmt::Display for Rsync {
    ghost output = { λ u. Some u };

    fn fmt<W: fmt::Write>(&self, f: &mut fmt::Formatter<W>) -> fmt::Result {
        f.write_str(self.as_str())
    }
}

/// Compares authorities without ASCII case, and what follows them byte by byte.
impl PartialEq for Rsync {
    ghost eq = { parts.are_equal };

    ghost laws = { Prim.search (comparing, rules) };

    fn eq(&self, other: &Rsync) -> bool
        ensures value { result ≡ parts.are_equal self.now other.now }
        ensures equal { IsTrue result ↔ AreEqual (codes "rsync://") self.now other.now }
    {
        are_equal(self.as_bytes(), other.as_bytes())
    }
}

impl Eq for Rsync {
    ghost laws = { Prim.search (comparing, rules) };
}
