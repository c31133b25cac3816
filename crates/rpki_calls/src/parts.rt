//! Names and signed data.

use crate::asking::{Told, called};
use rpki_parts::{Name, RpkiSignatureAlgorithm, Signature, SignedData, Signer, StandIn};
use rpki_tests::samples::{self, rsa};
use std::alloc::Global;

// The CommonName of the identifier of the key of the bits `abc`.
const NAME: &str =
    "30333131302f0603550403132841393939334533363437303638313641424133453235373137383530433236433943443044383944";

fn signature(alloc: Global) -> Option<Signature> {
    let octets = samples::shared(alloc, "616263")?;
    Some(Signature::new(RpkiSignatureAlgorithm::without_parameter(), octets))
}

fn name_whole(alloc: Global) -> Option<Told> {
    let octets = samples::shared(alloc, NAME)?;
    called!(alloc, Name::from_bytes(alloc, octets))
}

fn signature_copied(alloc: Global) -> Option<Told> {
    let signature = signature(alloc)?;
    called!(alloc, signature.try_clone(alloc), copy => copy.value() == b"abc".as_slice())
}

fn signed(alloc: Global) -> Option<Told> {
    let octets = samples::shared(alloc, "0500")?;
    let key = rsa(b"abc");
    let algorithm = RpkiSignatureAlgorithm::default();
    called!(
        alloc,
        SignedData::sign(alloc, &StandIn, &key, algorithm, octets),
        signed => signed.signature().value() == b"abc\x05\x00".as_slice()
    )
}

fn signed_alone(alloc: Global) -> Option<Told> {
    let key = rsa(b"abc");
    let algorithm = RpkiSignatureAlgorithm::default();
    called!(
        alloc,
        StandIn.sign(alloc, &key, algorithm, b"message"),
        signature => signature.value() == b"abcmessage".as_slice()
    )
}

/// The calls of `rpki_parts`.
pub fn told(alloc: Global, path: &str) -> Option<Told> {
    match path {
        "rpki_parts::Name::from_bytes" => name_whole(alloc),
        "rpki_parts::Signature::try_clone" => signature_copied(alloc),
        "rpki_parts::SignedData::sign" => signed(alloc),
        "rpki_parts::StandIn::sign" => signed_alone(alloc),
        _ => None,
    }
}
