//! The TAL of the trust anchor.

use rpki_keys::tal::Tal;
use std::alloc::Global;
use std::process::Abort;

// A locator of the key with the bits `abc`, which is the anchor's: in base64 a SubjectPublicKeyInfo
// of rsaEncryption with NULL.
const OF_ANCHOR: &[u8] = b"rsync://example.com/ta.cer\n\nMBUwDQYJKoZIhvcNAQEBBQADBABhYmM=\n";

/// Returns the TAL of the anchor's key.
pub(crate) fn locator(rt: &impl Abort, alloc: Global) -> Tal {
    let name = String::from_str(alloc, "example").expect(rt, "memory");
    Tal::read_named(alloc, name, OF_ANCHOR, true).expect(rt, "a locator")
}
