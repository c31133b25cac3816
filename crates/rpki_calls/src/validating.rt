//! Certificates that are verified, and copies of what was verified.

use crate::asking::{Told, called};
use crate::inputs::{
    ANCHOR, FIRST, NUMBERS, OTHER, SIGNING, anchor, certificate, december, locator, new_year,
};
use rpki_blocks::Asn;
use rpki_cert::ResourceCert;
use rpki_der::Time;
use rpki_parts::StandIn;
use std::alloc::Global;

fn holds(holder: &ResourceCert, number: Asn) -> bool {
    holder.as_resources().contains(number)
}

fn anchor_verified(alloc: Global) -> Option<Told> {
    let now = new_year()?;
    let (tal, cert) = locator(alloc).zip(certificate(alloc, ANCHOR))?;
    called!(
        alloc,
        cert.verify_ta_at(alloc, tal, true, now, &StandIn),
        holder => holds(holder, Asn::MAX)
    )
}

fn authority_verified(alloc: Global, issuer: &ResourceCert, now: Time) -> Option<Told> {
    let cert = certificate(alloc, FIRST)?;
    called!(
        alloc,
        cert.verify_ca_at(alloc, issuer, true, now, &StandIn),
        holder => holds(holder, Asn::from(10)) && !holds(holder, Asn::from(11))
    )
}

fn signing_verified(alloc: Global, issuer: &ResourceCert, now: Time) -> Option<Told> {
    let cert = certificate(alloc, SIGNING)?;
    called!(
        alloc,
        cert.verify_ee_at(alloc, issuer, true, now, &StandIn),
        holder => holds(holder, Asn::from(84)) && !holds(holder, Asn::from(85))
    )
}

fn authority_below(alloc: Global) -> Option<Told> {
    let now = new_year()?;
    let issuer = anchor(alloc, NUMBERS, now)?;
    let told = authority_verified(alloc, &issuer, now);
    drop(issuer);
    told
}

fn signing_below(alloc: Global) -> Option<Told> {
    let now = december()?;
    let issuer = anchor(alloc, OTHER, now)?;
    let told = signing_verified(alloc, &issuer, now);
    drop(issuer);
    told
}

fn copied(alloc: Global) -> Option<Told> {
    let now = new_year()?;
    let cert = anchor(alloc, ANCHOR, now)?;
    let told = called!(alloc, cert.try_clone(alloc), copy => holds(copy, Asn::MAX));
    drop(cert);
    told
}

/// The calls of `rpki_cert` that verify.
pub fn told(alloc: Global, path: &str) -> Option<Told> {
    match path {
        "rpki_cert::Cert::verify_ta_at" => anchor_verified(alloc),
        "rpki_cert::Cert::verify_ca_at" => authority_below(alloc),
        "rpki_cert::Cert::verify_ee_at" => signing_below(alloc),
        "rpki_cert::ResourceCert::try_clone" => copied(alloc),
        _ => None,
    }
}
