//! Certificates and lists that are prepared, and completed by a signature from elsewhere; the next
//! list, and a signer whose signatures are verified.

use crate::asking::{Told, called};
use crate::inputs::{ANCHOR, anchor, certificate, new_year};
use crate::making::authority;
use crate::stores::list_by;
use rpki_cert::{Cert, ResourceCert, TbsCert};
use rpki_crl::{Crl, CrlEntry, RevokedCertificates, TbsCertList};
use rpki_der::{Serial, Time};
use rpki_issuing::{
    Checked, NextListError, Prepared, PreparedList, Role, complete, complete_list, next_list,
    prepare, prepare_list,
};
use rpki_parts::{RpkiSignatureAlgorithm, Signature, SignedData, Signer, StandIn};
use rpki_tests::samples::{self, day, rsa, written};
use std::alloc::Global;

// What the anchor's key signs.
fn signature(alloc: Global, octets: &[u8]) -> Option<Signature> {
    let key = rsa(b"abc");
    let algorithm = RpkiSignatureAlgorithm::default();
    StandIn.sign(alloc, &key, algorithm, octets).ok()
}

// ---- certificates

fn validated(alloc: Global, cert: &Cert, role: &Role<'_>) -> Option<Told> {
    let now = new_year()?;
    called!(alloc, role.validate(alloc, cert, true, now, &StandIn))
}

// The certificate that the anchor's key signs of these data.
fn validated_as(alloc: Global, tbs: Option<TbsCert>, role: &Role<'_>) -> Option<Told> {
    let octets = samples::signed(alloc, tbs?)?;
    let cert = Cert::decode_shared(alloc, octets).ok()?;
    let told = validated(alloc, &cert, role);
    drop(cert);
    told
}

fn anchor_validated(alloc: Global) -> Option<Told> {
    let cert = certificate(alloc, ANCHOR)?;
    let told = validated(alloc, &cert, &Role::Anchor);
    drop(cert);
    told
}

// The octets have to be those that are written of the data.
fn prepared(alloc: Global, tbs: &TbsCert, role: &Role<'_>) -> Option<Told> {
    let now = new_year()?;
    let wanted = written(alloc, tbs)?;
    called!(
        alloc,
        prepare(alloc, tbs, role, true, now),
        prepared => prepared.octets() == wanted.as_slice()
    )
}

// Whether this is what was prepared, and the signature.
fn is_completed(signed: &SignedData, octets: &[u8], value: &[u8]) -> bool {
    signed.data() == octets && signed.signature().value() == value
}

fn completed_of(alloc: Global, of: &Prepared, role: &Role<'_>, now: Time) -> Option<Told> {
    let signature = signature(alloc, of.octets())?;
    let value = signature.value();
    let told = called!(
        alloc,
        complete(alloc, of, value, role, true, now, &StandIn),
        cert => is_completed(cert.signed_data(), of.octets(), value)
    );
    drop(signature);
    told
}

fn completed(alloc: Global, tbs: &TbsCert, role: &Role<'_>) -> Option<Told> {
    let now = new_year()?;
    let prepared = prepare(alloc, tbs, role, true, now).ok()?;
    let told = completed_of(alloc, &prepared, role, now);
    drop(prepared);
    told
}

// Of the authority below the issuer: prepared, or completed too.
fn of_authority(alloc: Global, issuer: &ResourceCert, is_signed: bool) -> Option<Told> {
    let tbs = authority(alloc)?;
    let role = Role::Authority(issuer);
    let told = if is_signed {
        completed(alloc, &tbs, &role)
    } else {
        prepared(alloc, &tbs, &role)
    };
    drop(tbs);
    told
}

// ---- lists

type Fields = TbsCertList<RevokedCertificates>;

// The list's number is 12, and it revokes the numbers 1 to 8. One of them is gone, and 9 comes in.
fn next(alloc: Global, list: &Crl) -> Result<Fields, NextListError> {
    let (Some(since), Some(until)) = (day(2023), day(2025)) else {
        return Err(NextListError::UpdateOrder);
    };
    let number = Serial::from(13u64);
    let revoked = [CrlEntry::new(Serial::from(9u64), since)];
    let gone = [Serial::from(8u64)];
    next_list(alloc, list, number, &revoked, &gone, since, until)
}

fn is_next(fields: &Fields) -> bool {
    let revoked = fields.revoked_certs();
    let is_on = |number: u64| revoked.contains(Serial::from(number));
    fields.crl_number() == Serial::from(13u64) && is_on(1) && is_on(9) && !is_on(8)
}

fn next_made(alloc: Global) -> Option<Told> {
    let list = list_by(alloc, b"abc")?;
    let told = called!(alloc, next(alloc, &list), fields => is_next(fields));
    drop(list);
    told
}

fn list_prepared(alloc: Global, fields: &Fields, issuer: &ResourceCert) -> Option<Told> {
    let now = new_year()?;
    let mut wanted = Vec::new(alloc);
    fields.encode_ref(alloc, &mut wanted).ok()?;
    called!(
        alloc,
        prepare_list(alloc, fields, issuer, true, now),
        prepared => prepared.octets() == wanted.as_slice()
    )
}

fn list_completed_of(alloc: Global, of: &PreparedList, issuer: &ResourceCert) -> Option<Told> {
    let now = new_year()?;
    let signature = signature(alloc, of.octets())?;
    let value = signature.value();
    let told = called!(
        alloc,
        complete_list(alloc, of, value, issuer, true, now, &StandIn),
        list => is_completed(list.signed_data(), of.octets(), value)
    );
    drop(signature);
    told
}

fn list_completed(alloc: Global, fields: &Fields, issuer: &ResourceCert) -> Option<Told> {
    let prepared = prepare_list(alloc, fields, issuer, true, new_year()?).ok()?;
    let told = list_completed_of(alloc, &prepared, issuer);
    drop(prepared);
    told
}

// The next list: prepared, or completed too.
fn of_next(alloc: Global, issuer: &ResourceCert, is_signed: bool) -> Option<Told> {
    let list = list_by(alloc, b"abc")?;
    let next = next(alloc, &list);
    drop(list);
    let fields = next.ok()?;
    let told = if is_signed {
        list_completed(alloc, &fields, issuer)
    } else {
        list_prepared(alloc, &fields, issuer)
    };
    drop(fields);
    told
}

// ---- a checked signer

fn checked_signed(alloc: Global) -> Option<Told> {
    let key = rsa(b"abc");
    let checked = Checked {
        signer: StandIn,
        verifier: StandIn,
        public_key: rsa(b"abc"),
    };
    let algorithm = RpkiSignatureAlgorithm::default();
    let told = called!(
        alloc,
        checked.sign(alloc, &key, algorithm, b"message"),
        signature => signature.value() == b"abcmessage".as_slice()
    );
    drop(checked);
    told
}

fn below(alloc: Global, path: &str, issuer: &ResourceCert) -> Option<Told> {
    match path {
        "rpki_issuing::Role::validate" => {
            validated_as(alloc, authority(alloc), &Role::Authority(issuer))
        }
        "rpki_issuing::Role::validate/detached" => {
            validated_as(alloc, samples::end_entity(alloc), &Role::Detached(issuer))
        }
        "rpki_issuing::Role::validate/router" => {
            validated_as(alloc, samples::router(alloc), &Role::Router(issuer))
        }
        "rpki_issuing::prepare" => of_authority(alloc, issuer, false),
        "rpki_issuing::complete" => of_authority(alloc, issuer, true),
        "rpki_issuing::prepare_list" => of_next(alloc, issuer, false),
        "rpki_issuing::complete_list" => of_next(alloc, issuer, true),
        _ => None,
    }
}

fn below_anchor(alloc: Global, path: &str) -> Option<Told> {
    let issuer = anchor(alloc, ANCHOR, new_year()?)?;
    let told = below(alloc, path, &issuer);
    drop(issuer);
    told
}

/// The calls of `rpki_issuing`.
pub fn told(alloc: Global, path: &str) -> Option<Told> {
    match path {
        "rpki_issuing::Role::validate/anchor" => anchor_validated(alloc),
        "rpki_issuing::next_list" => next_made(alloc),
        "rpki_issuing::Checked::sign" => checked_signed(alloc),
        _ if path.starts_with("rpki_issuing::") => below_anchor(alloc, path),
        _ => None,
    }
}
