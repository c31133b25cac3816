//! Keys, URIs, and the data of certificates. What may run out of memory gives none where it does.

use bytes::Bytes;
use rpki_blocks::{Addr, AsBlock, Asn, IpBlock};
use rpki_cert::{Cert, ExtendedKeyUsage, KeyUsage, Overclaim, ResourceCert, TbsCert};
use rpki_der::{Serial, Time};
use rpki_parts::{Name, PublicKey, PublicKeyFormat, Rsync, StandIn, TalInfo, Validity};
use std::alloc::Global;

/// Makes the RSA key of these bits.
pub fn rsa(bits: &'static [u8]) -> PublicKey {
    PublicKey::new(PublicKeyFormat::Rsa, Bytes::from_static(bits))
}

/// Makes the rsync URI that the text is.
pub fn uri(alloc: Global, text: &str) -> Option<Rsync> {
    Rsync::from_text(alloc, text).ok()
}

/// Returns the first of May of the year.
pub fn day(year: i32) -> Option<Time> {
    Time::utc(year, 5, 1, 0, 0, 0)
}

// The name of the key `abc`.
fn issuer(alloc: Global) -> Option<Name> {
    let key = rsa(b"abc");
    let name = key.to_subject_name(alloc).ok();
    drop(key);
    name
}

// Ten years.
fn validity() -> Option<Validity> {
    let (since, until) = day(2019).zip(day(2029))?;
    Some(Validity::new(since, until))
}

/// Makes certificate data for ten years, named after its key, with nothing that may be left out.
/// The issuer is named after the key `abc`.
pub fn bare(alloc: Global, serial: u64, key: PublicKey, usage: KeyUsage) -> Option<TbsCert> {
    let Some((issuer, validity)) = issuer(alloc).zip(validity()) else {
        drop(key);
        return None;
    };
    let serial = Serial::from(serial);
    let mode = Overclaim::Trim;
    TbsCert::new(alloc, serial, issuer, validity, None, key, usage, mode).ok()
}

/// Sets where a CA publishes.
pub fn set_places(alloc: Global, tbs: &mut TbsCert) {
    tbs.set_ca_repository(uri(alloc, "rsync://example.com/m/p"));
    tbs.set_rpki_manifest(uri(alloc, "rsync://example.com/m/p/mft.mft"));
}

fn set_all_resources(alloc: Global, tbs: &mut TbsCert) -> Option<()> {
    let all = IpBlock::from((Addr::from(0), Addr::from(u128::MAX)));
    let numbers = AsBlock::from((Asn::MIN, Asn::MAX));
    let v4 = tbs.v4_resources_from_iter(alloc, [all]).ok();
    let v6 = tbs.v6_resources_from_iter(alloc, [all]).ok();
    let asns = tbs.as_resources_from_iter(alloc, [numbers]).ok();
    v4.and(v6).and(asns)
}

/// Makes the data of a trust anchor with the key `abc`, serial 12 and all resources.
pub fn anchor(alloc: Global) -> Option<TbsCert> {
    let mut tbs = bare(alloc, 12, rsa(b"abc"), KeyUsage::Ca)?;
    tbs.set_basic_ca(Some(true));
    set_places(alloc, &mut tbs);
    let set = set_all_resources(alloc, &mut tbs);
    set.and(Some(tbs))
}

/// Sets what names the issuer.
pub fn set_issuer(alloc: Global, tbs: &mut TbsCert) {
    tbs.set_authority_key_identifier(Some(rsa(b"abc").key_identifier()));
    tbs.set_crl_uri(uri(alloc, "rsync://example.com/m/p/x.crl"));
    tbs.set_ca_issuer(uri(alloc, "rsync://example.com/m/ta.cer"));
}

/// Sets resources of each kind to the issuer's.
pub fn inherit_all(tbs: &mut TbsCert) {
    tbs.set_v4_resources_inherit();
    tbs.set_v6_resources_inherit();
    tbs.set_as_resources_inherit();
}

/// Makes the data of an end entity under the trust anchor, with the key `a`, serial 9 and inherited
/// resources.
pub fn end_entity(alloc: Global) -> Option<TbsCert> {
    let mut tbs = bare(alloc, 9, rsa(b"a"), KeyUsage::Ee)?;
    inherit_all(&mut tbs);
    set_issuer(alloc, &mut tbs);
    Some(tbs)
}

/// Sets what an authority has under the trust anchor, but for resources.
pub fn set_authority(alloc: Global, tbs: &mut TbsCert) {
    tbs.set_basic_ca(Some(true));
    set_issuer(alloc, tbs);
    set_places(alloc, tbs);
}

/// Makes the data of an authority under the trust anchor, with the anchor's key, serial 13 and
/// inherited resources.
pub fn authority(alloc: Global) -> Option<TbsCert> {
    let mut tbs = bare(alloc, 13, rsa(b"abc"), KeyUsage::Ca)?;
    inherit_all(&mut tbs);
    set_authority(alloc, &mut tbs);
    Some(tbs)
}

/// Makes the data of a router under the trust anchor, with the key `a`, serial 10 and AS number 50.
pub fn router(alloc: Global) -> Option<TbsCert> {
    let key = PublicKey::new(PublicKeyFormat::EcdsaP256, Bytes::from_static(b"a"));
    let mut tbs = bare(alloc, 10, key, KeyUsage::Ee)?;
    set_issuer(alloc, &mut tbs);
    tbs.set_extended_key_usage(ExtendedKeyUsage::create_router(alloc).ok());
    let number = AsBlock::from((Asn::from(50), Asn::from(50)));
    let set = tbs.as_resources_from_iter(alloc, [number]).ok();
    set.and(Some(tbs))
}

/// Makes the octets of the certificate that the trust anchor's key signs.
pub fn signed(alloc: Global, tbs: TbsCert) -> Option<Bytes> {
    let made = tbs.into_cert(alloc, &StandIn, &rsa(b"abc")).ok()?;
    let octets = made.to_captured(alloc).ok();
    drop(made);
    octets
}

/// Makes the octets of the trust anchor's certificate.
pub fn anchor_octets(alloc: Global) -> Option<Bytes> {
    signed(alloc, anchor(alloc)?)
}

/// Makes the octets of the authority's certificate.
pub fn authority_octets(alloc: Global) -> Option<Bytes> {
    signed(alloc, authority(alloc)?)
}

/// Makes the octets of the end entity's certificate.
pub fn end_entity_octets(alloc: Global) -> Option<Bytes> {
    signed(alloc, end_entity(alloc)?)
}

/// Reads these octets as a trust anchor that is valid at the moment.
pub fn valid_anchor(alloc: Global, octets: Bytes, now: Time) -> Option<ResourceCert> {
    let cert = Cert::decode_shared(alloc, octets).ok();
    let tal = TalInfo::from_name(String::new(alloc)).into_rc(alloc).ok();
    let (cert, tal) = cert.zip(tal)?;
    cert.validate_ta_at(alloc, tal, true, now, &StandIn).ok()
}

/// Writes the octets of the data.
pub fn written(alloc: Global, tbs: &TbsCert) -> Option<Vec<u8>> {
    let mut out = Vec::new(alloc);
    let written = tbs.encode_ref(alloc, &mut out).ok();
    written.and(Some(out))
}
