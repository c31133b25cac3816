//! Extensions that are added to a certificate's.
ghost use Rattle.std.specs.Prelude.{◌↔◌, IsTrue};
ghost use Rattle.rpki_cert.specs.Rearranging.{ArePlaced, AreUnknown};

use bytes::Bytes;
use rpki_der::Oid;
use rpki_ext::is_known;

/// An extension to add to a certificate, without the critical flag (RFC 5280 4.1).
#[derive(Drop)]
pub struct Extra {
    /// The index of the old extension before which it is added, from 0 on; the number of old
    /// extensions adds it after the last.
    pub at: usize,
    /// Its object identifier.
    pub oid: Oid,
    /// The content of its OCTET STRING.
    pub value: Bytes,
}

/// Returns whether readers know none of the kinds.
pub(crate) fn are_unknown(extras: &[Extra]) -> bool
    ensures { IsTrue result ↔ AreUnknown extras.now }
{
    for extra in extras {
        if is_known(extra.oid.as_bytes()) {
            return false;
        }
    }
    true
}

/// Returns whether each is placed before one of so many places, or after the last.
pub(crate) fn are_placed(extras: &[Extra], count: usize) -> bool
    ensures { IsTrue result ↔ ArePlaced count extras.now }
{
    for extra in extras {
        if extra.at > count {
            return false;
        }
    }
    true
}
