//! Reads TALs.
ghost use Rattle.std.specs.Prelude.{◌≡◌, ◌↔◌, ◌⊎◌, IsTrue, IfOk, IfErr, map};
ghost use Rattle.std.proofs.Common.{string_bytes, rc_value};
ghost use Rattle.std.specs.Str.Lines.{lines};
ghost use Rattle.rpki_parts.specs.Keys.{KeyFields};
ghost use Rattle.rpki_keys.specs.Locators.{HasKey, IsLocator, IsText, uri_text};
ghost use Rattle.rpki_keys.specs.LocatorFaults.{IsTalFault, RejectsTal};
ghost use Rattle.rpki_keys.specs.declared.tal.tal_error.TalError.TheVariants as error;

use crate::tal::digits::octets_of;
use crate::tal::sections::{behind_comments, digits_in, take_uris};
use crate::tal::tal_error::TalError;
use crate::tal::tal_uri::TalUri;
use bytes::Bytes;
use rpki_der::DecodeError;
use rpki_parts::{PublicKey, TalInfo};
use std::alloc::{AllocError, Global};
use std::marker::Model;
use std::rc::Rc;
use std::str;

/// A TAL: the URIs of a trust anchor's certificate, in their order, the key that the certificate
/// has to have, and the TAL's name (RFC 8630 2).
///
/// [`Tal::read_named`] reads one. The caller fetches the certificate; [`Tal::has_key`] compares its
/// key, and `rpki_path::validate_located` validates a path below it.
#[derive(Drop)]
pub struct Tal {
    uris: Vec<TalUri>,
    key_info: PublicKey,
    info: Rc<TalInfo>,
}

impl Model for Tal {
    ghost use Rattle.std.specs.Prelude.{map};
    ghost use Rattle.std.proofs.Common.{rc_value};
    ghost use Rattle.rpki_keys.specs.Locators.{NamedTal, uri_text};

    ghost Value = { NamedTal };

    ghost view = { λ t. record {
      name = rc_value t.info;
      tal = record { uris = map uri_text t.uris.items; key = t.key_info };
    } };
}

// Whether the file may be read so: as it is asked for strictly, it is UTF-8.
fn is_text(strict: bool, file: &[u8]) -> bool
    ensures { IsTrue result ↔ IsText strict file.now }
{
    !strict || str::from_utf8(file).is_ok()
}

// The key whose digits stand in these lines.
fn key_in(alloc: Global, text: &[u8]) -> Result<PublicKey, TalError>
    ensures ok { IfOk result (λ k. HasKey k (lines text.now)) }
    ensures rejected { IfErr result (λ e. (e ≡ error.Memory)
        ⊎ ((e ≡ error.BadKey) × ((k : KeyFields) → ¬ HasKey k (lines text.now)))) }
{
    let digits = digits_in(alloc, text)?;
    let Some(octets) = octets_of(alloc, &digits)? else {
        return Err(TalError::BadKey);
    };
    match PublicKey::from_bytes(alloc, Bytes::from_vec(octets).map_err(AllocError::from)?) {
        Ok(key) => Ok(key),
        Err(DecodeError::Memory) => Err(TalError::Memory),
        Err(other) => {
            drop(other);
            Err(TalError::BadKey)
        }
    }
}

impl Tal {
    /// Reads a file as a TAL, and gives it this name (RFC 8630 2.2).
    ///
    /// The file has lines of comments, which start with `#`; at least one line that is an rsync or
    /// https URI; an empty line; and a SubjectPublicKeyInfo in base64, whose digits may have white
    /// space between them. Lines end with LF or CRLF. In strict mode the file is UTF-8, else the
    /// comments may be any bytes (own).
    ///
    /// # Errors
    ///
    /// Returns the first error, from the start of the file on:
    ///
    /// - `NoText`: the file isn't UTF-8, in strict mode
    /// - `BadUri`: a line after the comments is neither an rsync nor an https URI, nor empty
    /// - `NoUri`: the empty line comes before any URI
    /// - `NoKey`: the file ends before the empty line
    /// - `BadKey`: the rest of the file isn't a public key in base64
    /// - `Memory`: memory ran out
    ///
    /// # Not checked
    ///
    /// Whether the RPKI uses such a key ([`crate::is_usable`] checks it), and whether the URIs lead
    /// to the trust anchor's certificate: nothing is fetched.
    pub fn read_named(
        alloc: Global,
        name: String,
        file: &[u8],
        strict: bool,
    ) -> Result<Tal, TalError>
        ensures ok { IfOk result (λ t. IsLocator strict t.tal file.now) }
        ensures name { IfOk result (λ t. t.name ≡ string_bytes name) }
        ensures rejected { IfErr result (λ e. RejectsTal strict e file.now) }
        ensures fault { IfErr result (λ e. IsTalFault strict e file.now) }
    {
        if !is_text(strict, file) {
            return Err(TalError::NoText);
        }
        let mut uris = Vec::new(alloc);
        let digits = take_uris(alloc, behind_comments(file), &mut uris)?;
        let key_info = key_in(alloc, digits)?;
        let info = TalInfo::from_name(name).into_rc(alloc)?;
        Ok(Tal {
            uris,
            key_info,
            info,
        })
    }

    /// Returns the URIs, in their order.
    pub fn uris(&self) -> &[TalUri]
        ensures { map uri_text result.now ≡ self.now.tal.uris }
    {
        &self.uris
    }

    /// Returns the key that the trust anchor's certificate has to have.
    pub fn key_info(&self) -> &PublicKey
        ensures { result.now ≡ self.now.tal.key }
    {
        &self.key_info
    }

    /// Returns the TAL's name.
    pub fn info(&self) -> &Rc<TalInfo>
        ensures { rc_value result.now ≡ self.now.name }
    {
        &self.info
    }

    /// Returns whether a certificate's key is the TAL's (RFC 8630 3): whether its algorithm and its
    /// bits are. The NULL after rsaEncryption doesn't count.
    ///
    /// # Not checked
    ///
    /// Whether the certificate is valid, and whether its key signed it.
    pub fn has_key(&self, key: &PublicKey) -> bool
        ensures { IsTrue result ↔ (key.now ≡ self.now.tal.key) }
    {
        key.algorithm() == self.key_info.algorithm() && key.bits() == self.key_info.bits()
    }
}
