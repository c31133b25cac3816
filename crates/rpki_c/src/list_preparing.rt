//! The to-be-signed part of a CRL that a caller requests.
ghost use Rattle.std.specs.Prelude.{◌≡◌, ◌⊎◌, option_map, IfErr, IfOk};
ghost use Rattle.rpki_crl.specs.Lists.{IsCertificateList};
ghost use Rattle.rpki_c.specs.ListAnswers.{AnswersBehind, AnswersListBelow, AnswersListFields, AnswersWantedList, IsNoPrevious, IsPreviousCrl};
ghost use Rattle.rpki_c.specs.Verdicts.{AreNoList};
ghost use Rattle.rpki_c.specs.declared.unissued.Unissued.TheVariants.{Memory, OtherList};

use crate::issuer::authority_of;
use crate::lists::whole_list;
use crate::unissued::Unissued;
use crate::wanted_list::{ListTerms, RpkiWantedList, list_given, list_terms_of};
use bytes::Bytes;
use rpki_cert::ResourceCert;
use rpki_crl::{Crl, RevokedCertificates, TbsCertList};
use rpki_issuing::wanted::issuers::is_own;
use rpki_issuing::wanted::{list_fields, prepare_list_octets};
use std::alloc::Global;

// The list that the octets are.
fn read_list(alloc: Global, octets: &[u8]) -> Result<Crl, Unissued>
    ensures read { IfOk result (λ l. IsCertificateList l.list octets.now) }
    ensures none { IfErr result (λ e. (e ≡ Memory) ⊎ ((e ≡ OtherList) × AreNoList octets.now)) }
{
    let octets = Bytes::copy_from_slice(alloc, octets)?;
    let list = whole_list(alloc, &octets);
    drop(octets);
    match list {
        Ok(list) => Ok(list),
        Err(error) => {
            let is_memory = error.is_memory();
            drop(error);
            if is_memory {
                Err(Unissued::Memory)
            } else {
                Err(Unissued::OtherList)
            }
        }
    }
}

// The list before, which has to be one of the issuer. Without octets there was none.
fn previous_of(alloc: Global, octets: &[u8], issuer: &ResourceCert) -> Result<Option<Crl>, Unissued>
    ensures previous { IfOk result (IsPreviousCrl issuer.now.cert.fields octets.now) }
    ensures other { IfErr result (IsNoPrevious issuer.now.cert.fields octets.now) }
{
    if octets.is_empty() {
        return Ok(None);
    }
    let list = read_list(alloc, octets)?;
    if !is_own(&list, issuer, true) {
        return Err(Unissued::OtherList);
    }
    Ok(Some(list))
}

// The fields of the list below the issuer, behind the list before.
fn fields_behind(
    alloc: Global,
    list: &RpkiWantedList<'_>,
    terms: ListTerms,
    issuer: &ResourceCert,
    previous: Option<&Crl>,
) -> Result<TbsCertList<RevokedCertificates>, Unissued>
    ensures { let before = option_map (λ l. l.now) previous.entry in
        AnswersListFields list.now terms issuer.now.cert.fields before result }
{
    let wanted = list_given(alloc, list, terms)?;
    let fields = list_fields(alloc, issuer, previous, &wanted)?;
    Ok(fields)
}

// What is to be signed below the issuer, behind the list before.
fn prepared_behind(
    alloc: Global,
    list: &RpkiWantedList<'_>,
    terms: ListTerms,
    issuer: &ResourceCert,
    previous: Option<&Crl>,
) -> Result<Bytes, Unissued>
    ensures { let before = option_map (λ l. l.now) previous.entry in
        AnswersBehind list.now terms issuer.now.cert.fields before result }
{
    let asked = terms.asked;
    let fields = fields_behind(alloc, list, terms, issuer, previous)?;
    let octets = prepare_list_octets(alloc, &fields, issuer, asked.strict, asked.now)?;
    Ok(octets)
}

// What is to be signed below the issuer.
fn prepared_below(
    alloc: Global,
    list: &RpkiWantedList<'_>,
    terms: ListTerms,
    issuer: &ResourceCert,
) -> Result<Bytes, Unissued>
    ensures { AnswersListBelow list.now terms issuer.now.cert.fields result }
{
    let previous = previous_of(alloc, list.previous, issuer)?;
    prepared_behind(alloc, list, terms, issuer, previous.as_ref())
}

/// Prepares the requested CRL, and returns the TBSCertList's bytes.
pub(crate) fn prepare_list(alloc: Global, list: &RpkiWantedList<'_>) -> Result<Bytes, Unissued>
    ensures { AnswersWantedList list.now result }
{
    let Some(terms) = list_terms_of(list) else {
        return Err(Unissued::BadCall);
    };
    let above = authority_of(alloc, &list.issuer, &terms.asked)?;
    prepared_below(alloc, list, terms, &above.judged.holder)
}
