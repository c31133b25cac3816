//! The to-be-signed part of a certificate that a caller requests.
ghost use Rattle.std.specs.Prelude.{option_map};
ghost use Rattle.rpki_c.specs.WantedAnswers.{AnswersBelow, AnswersFields, AnswersWanted};

use crate::issuer::{asked_above, holder_above, issuer_of, strings_above};
use crate::judging::Accepted;
use crate::unissued::Unissued;
use crate::values::values_of;
use crate::wanted::{RpkiWanted, WantedTerms, wanted_terms_of};
use bytes::Bytes;
use rpki_cert::{ResourceCert, TbsCert};
use rpki_issuing::wanted::issuers::above;
use rpki_issuing::wanted::{fields, prepare_octets};
use std::alloc::Global;

// The fields of the certificate below the issuer.
fn fields_of(
    alloc: Global,
    w: &RpkiWanted<'_>,
    terms: WantedTerms,
    issuer: Option<&ResourceCert>,
) -> Result<TbsCert, Unissued>
    ensures { let issuer = option_map (λ r. r.now) issuer.entry in
        AnswersFields w.now terms issuer result }
{
    let (kind, trims) = (terms.kind, terms.trims);
    let (wanted, key) = values_of(alloc, w, terms)?;
    let Some(tbs) = fields(alloc, kind, trims, wanted, above(issuer), key)? else {
        return Err(Unissued::NoName);
    };
    // Called for what it ensures alone.
    let _octets = tbs.subject().as_bytes();
    Ok(tbs)
}

// What is to be signed below the issuer.
fn prepared_below(
    alloc: Global,
    w: &RpkiWanted<'_>,
    terms: WantedTerms,
    above: Option<&Accepted>,
) -> Result<Bytes, Unissued>
    ensures { let above = option_map (λ a. a.now) above.entry in
        AnswersBelow w.now terms above result }
{
    let (kind, asked) = (terms.kind, terms.asked);
    let (strict, now) = (asked.strict, asked.now);
    let (issuer, path) = (holder_above(above), strings_above(above));
    let source = asked_above(above, &asked);
    let tbs = fields_of(alloc, w, terms, issuer)?;
    let octets = prepare_octets(alloc, &tbs, kind, issuer, path, &source, strict, now)?;
    Ok(octets)
}

/// Prepares the requested certificate, and returns the TBSCertificate's bytes.
pub(crate) fn prepare(alloc: Global, w: &RpkiWanted<'_>) -> Result<Bytes, Unissued>
    ensures { AnswersWanted w.now result }
{
    let Some(terms) = wanted_terms_of(w) else {
        return Err(Unissued::BadCall);
    };
    let above = issuer_of(alloc, terms.kind, &w.issuer, &terms.asked)?;
    prepared_below(alloc, w, terms, above.as_ref())
}
