//! The completion of CRLs with their signatures.
ghost use Rattle.std.specs.Prelude.{◌↔◌, IfSome, IsNone, IsTrue};
ghost use Rattle.rpki_c.specs.ListAnswers.{AnswersListCompletedBelow, AnswersListCompletion, AnswersListNamed, AnswersListSigned, IsListNamed};
ghost use Rattle.rpki_c.specs.WantedLists.{HasListCompletionTerms, HasNoListCompletionTerms};

use crate::issuer::authority_of;
use crate::question::{RpkiQuestion, Terms, terms_of};
use crate::unissued::Unissued;
use bytes::Bytes;
use rpki_cert::{ResourceCert, TbsCert};
use rpki_crl::{RevokedCertificates, TbsCertList};
use rpki_der::Cursor;
use rpki_issuing::wanted::complete_list_octets;
use std::alloc::Global;

/// A prepared CRL with its signature.
#[repr(C)]
#[derive(Clone, Copy)]
pub struct RpkiListCompletion<'c> {
    /// The size of this struct in bytes, as the caller knows it.
    pub size: usize,
    /// The issuer's path, the time, and whether names may only have the profile's string types.
    pub issuer: RpkiQuestion<'c>,
    /// The prepared TBSCertList.
    pub prepared: &'c [u8],
    /// The bytes of its signature.
    pub signature: &'c [u8],
}

/// The size of a completion of a CRL in bytes.
pub(crate) const LIST_COMPLETION_SIZE: usize = size_of::<RpkiListCompletion<'_>>();

// The data of a list: all but its signature.
type Data = TbsCertList<RevokedCertificates>;

// How the list is completed. `None` where the path of the issuer has no terms, and where the caller
// knows another struct.
#[tactic(auto, using(crate::proofs::ListTermsGiven::no_list_completion_size, crate::proofs::ListTermsGiven::no_list_completion_path))]
fn completion_terms_of(completion: &RpkiListCompletion<'_>) -> Option<Terms>
    ensures terms { IfSome result (HasListCompletionTerms completion.now) }
    ensures none { IsNone result → HasNoListCompletionTerms completion.now }
{
    if completion.size != LIST_COMPLETION_SIZE {
        return None;
    }
    let terms = terms_of(&completion.issuer)?;
    Some(terms)
}

// The fields of the list that these octets begin with.
fn read_data(alloc: Global, octets: &Bytes) -> Result<Data, Unissued>
    ensures { AnswersListSigned octets.now result }
{
    let mut cursor = Cursor::new(octets);
    match TbsCertList::take_from(alloc, &mut cursor) {
        Ok(list) => Ok(list),
        Err(error) => {
            let is_memory = error.is_memory();
            drop(error);
            if is_memory {
                Err(Unissued::Memory)
            } else {
                Err(Unissued::NotToSign)
            }
        }
    }
}

// Whether the list is named as its issuer is.
fn is_named(list: &Data, issuer: &TbsCert) -> bool
    ensures { IsTrue result ↔ IsListNamed issuer.now list.now }
{
    list.issuer().as_bytes() == issuer.subject().as_bytes()
}

// The fields of what was signed, named as its issuer is.
fn signed_below(alloc: Global, octets: &[u8], issuer: &TbsCert) -> Result<Data, Unissued>
    ensures { AnswersListNamed issuer.now octets.now result }
{
    let octets = Bytes::copy_from_slice(alloc, octets)?;
    let list = read_data(alloc, &octets)?;
    if !is_named(&list, issuer) {
        return Err(Unissued::OtherName);
    }
    Ok(list)
}

// The list below the issuer.
fn completed_below(
    alloc: Global,
    completion: &RpkiListCompletion<'_>,
    terms: Terms,
    issuer: &ResourceCert,
) -> Result<Bytes, Unissued>
    ensures { AnswersListCompletedBelow completion.now terms issuer.now.cert.fields result }
{
    let (prepared, signature) = (completion.prepared, completion.signature);
    let (strict, now) = (terms.strict, terms.now);
    let list = signed_below(alloc, prepared, issuer.as_cert().as_tbs())?;
    let octets = complete_list_octets(alloc, &list, prepared, signature, issuer, strict, now)?;
    Ok(octets)
}

/// Completes a prepared CRL with its signature, and returns the CRL's bytes.
pub(crate) fn complete_list(
    alloc: Global,
    completion: &RpkiListCompletion<'_>,
) -> Result<Bytes, Unissued>
    ensures { AnswersListCompletion completion.now result }
{
    let Some(terms) = completion_terms_of(completion) else {
        return Err(Unissued::BadCall);
    };
    let above = authority_of(alloc, &completion.issuer, &terms)?;
    completed_below(alloc, completion, terms, &above.judged.holder)
}
