//! Asks a path of certificates about an AS number, through the crate `rpki`.
ghost use Rattle.std.specs.Prelude.{true};
ghost use Rattle.rpki.specs.Asking.{by_uri};
ghost use Rattle.rpki.specs.RsaSignatures.{IsSignedByRsa};
ghost use Rattle.rpki.specs.Verification.{context};
ghost use Rattle.rpki_example.specs.Answers.{TellsHeld};

use bytes::Bytes;
use rpki::crypto::RsaVerifier;
use rpki::repository::crl::CrlStore;
use rpki::repository::path::{PathError, validate_path_with};
use rpki::repository::resources::Asn;
use rpki::repository::tal::TalInfo;
use rpki::repository::x509::Time;
use std::alloc::Global;
use std::rc::Rc;

/// Returns whether the last of these certificates, from the trust anchor down, holds the AS number
/// at this time.
///
/// # Errors
///
/// Returns an error if they aren't a valid path, or if the store's CRLs don't leave each of them
/// unrevoked.
pub fn holds_as(
    alloc: Global,
    store: &CrlStore,
    anchor: &Bytes,
    cas: &[Bytes],
    tal: Rc<TalInfo>,
    now: Time,
    asn: Asn,
) -> Result<bool, PathError>
    ensures held { let x = context IsSignedByRsa now true in
        TellsHeld x (by_uri x store.now.pairs) anchor.now cas.now asn result }
{
    let verifier = RsaVerifier;
    let holder = validate_path_with(alloc, store, anchor, cas, None, tal, true, now, &verifier)?;
    Ok(holder.as_resources().contains(asn))
}
