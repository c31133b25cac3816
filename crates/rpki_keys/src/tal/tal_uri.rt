//! The URIs of a TAL.
ghost use Rattle.std.specs.Prelude.{◌≡◌, ◌⊎◌, Some, OnOk, IfOk, IfErr, ◌++◌, ◌∷◌, [], map};
ghost use Rattle.std.specs.List.{AllByRecursion};
ghost use Rattle.rpki_keys.specs.Locators.{IsTalUri, uri_text};
ghost use Rattle.rpki_keys.specs.declared.tal.tal_error.TalError.TheVariants.{BadUri, Memory};

use crate::tal::tal_error::TalError;
use bytes::Bytes;
use rpki_parts::{Https, Rsync};
use std::alloc::{AllocError, Global};
use std::fmt;

/// A URI of a trust anchor's certificate (RFC 8630 2.2).
#[derive(Drop)]
pub enum TalUri {
    /// An rsync URI.
    Rsync(Rsync),
    /// An https URI.
    Https(Https),
}

impl TalUri {
    // The URI that a line is.
    fn from_line(alloc: Global, line: &[u8]) -> Result<TalUri, TalError>
        ensures ok { IfOk result (λ u. uri_text u ≡ line.now) }
        ensures accepted { OnOk result (IsTalUri line.now) }
        ensures rejected { IfErr result (λ e. (e ≡ Memory)
            ⊎ ((e ≡ BadUri) × ¬ IsTalUri line.now)) }
    {
        let octets = Bytes::copy_from_slice(alloc, line)?;
        if let Ok(uri) = Rsync::from_bytes(octets.clone()?) {
            return Ok(TalUri::Rsync(uri));
        }
        match Https::from_bytes(octets) {
            Ok(uri) => Ok(TalUri::Https(uri)),
            Err(_) => Err(TalError::BadUri),
        }
    }

    /// Returns the text of the URI.
    pub fn as_str(&self) -> &str
        ensures { result.now ≡ uri_text self.now }
    {
        match self {
            TalUri::Rsync(uri) => uri.as_str(),
            TalUri::Https(uri) => uri.as_str(),
        }
    }
}

/// Displays the URI as it was read.
impl fmt::Display for TalUri {
    ghost output = { λ u. Some (uri_text u) };

    fn fmt<W: fmt::Write>(&self, f: &mut fmt::Formatter<W>) -> fmt::Result {
        f.write_str(self.as_str())
    }
}

// Appends the URI that a line is.
pub(crate) fn push_uri(alloc: Global, uris: &mut Vec<TalUri>, line: &[u8]) -> Result<(), TalError>
    ensures ok { OnOk result (map uri_text uris.new.items
        ≡ map uri_text uris.old.items ++ line.now ∷ []) }
    ensures accepted { OnOk result (IsTalUri line.now) }
    ensures rejected { IfErr result (λ e. (e ≡ Memory) ⊎ ((e ≡ BadUri) × ¬ IsTalUri line.now)) }
{
    let uri = TalUri::from_line(alloc, line)?;
    uris.push(uri).map_err(AllocError::from)?;
    Ok(())
}
