//! Issuing for C with a key that is elsewhere.
ghost use Rattle.std.specs.Prelude.{◌≡◌};
ghost use Rattle.rpki_c.specs.IssuedTelling.{AreOctetsPut, IsToldIssued, issued_of};
ghost use Rattle.rpki_c.specs.ListAnswers.{AnswersListCompletion, AnswersWantedList};
ghost use Rattle.rpki_c.specs.WantedAnswers.{AnswersCompletion, AnswersWanted};

use crate::completing::{RpkiCompletion, complete};
use crate::copying::put_octets;
use crate::faults::{NONE, of_unissued};
use crate::list_completing::{RpkiListCompletion, complete_list};
use crate::list_preparing::prepare_list;
use crate::preparing::prepare;
use crate::unissued::Unissued;
use crate::wanted::RpkiWanted;
use crate::wanted_list::RpkiWantedList;
use bytes::Bytes;
use std::alloc::Global;

/// The result of preparing or completing a certificate or a CRL.
#[repr(C)]
#[derive(Clone, Copy)]
pub struct RpkiIssued {
    /// 0 if there are bytes; else the number of the error.
    pub fault: u32,
    /// The path index of the certificate that is wrong.
    pub index: u32,
    /// How many bytes there are.
    pub count: u64,
}

// What is told of the answer below so many members, with its octets.
fn put(answer: Result<Bytes, Unissued>, members: usize, out: &mut [u8]) -> RpkiIssued
    ensures told { result ≡ issued_of members answer }
    ensures put { AreOctetsPut answer out.old out.new }
{
    match answer {
        Ok(octets) => {
            let count = put_octets(octets.as_slice(), out);
            drop(octets);
            RpkiIssued {
                fault: NONE,
                index: 0,
                count,
            }
        }
        Err(why) => {
            let (fault, index) = (of_unissued(&why), why.index(members));
            drop(why);
            RpkiIssued {
                fault,
                index,
                count: 0,
            }
        }
    }
}

/// Prepares a certificate for its signature: writes the TBSCertificate, as many bytes as fit.
///
/// # Errors
///
/// Returns the number of the error in `told`, or 0.
#[unsafe(no_mangle)]
pub extern "C" fn rpki_prepare(
    alloc: Global,
    wanted: &RpkiWanted<'_>,
    out: &mut [u8],
    told: &mut RpkiIssued,
) -> u32
    ensures told { let w = wanted.now in
        IsToldIssued (AnswersWanted w) w.issuer out.old out.new told.new }
    ensures answered { result ≡ told.new.fault }
{
    let answer = prepare(alloc, wanted);
    *told = put(answer, wanted.issuer.members.lengths.len(), out);
    told.fault
}

/// Completes a prepared certificate with its signature: writes the certificate, as many bytes as
/// fit.
///
/// # Errors
///
/// Returns the number of the error in `told`, or 0.
#[unsafe(no_mangle)]
pub extern "C" fn rpki_complete(
    alloc: Global,
    completion: &RpkiCompletion<'_>,
    out: &mut [u8],
    told: &mut RpkiIssued,
) -> u32
    ensures told { let c = completion.now in
        IsToldIssued (AnswersCompletion c) c.issuer out.old out.new told.new }
    ensures answered { result ≡ told.new.fault }
{
    let answer = complete(alloc, completion);
    *told = put(answer, completion.issuer.members.lengths.len(), out);
    told.fault
}

/// Prepares the issuer's next CRL, or its first one, for its signature: writes the TBSCertList, as
/// many bytes as fit.
///
/// # Errors
///
/// Returns the number of the error in `told`, or 0.
#[unsafe(no_mangle)]
pub extern "C" fn rpki_prepare_list(
    alloc: Global,
    list: &RpkiWantedList<'_>,
    out: &mut [u8],
    told: &mut RpkiIssued,
) -> u32
    ensures told { let w = list.now in
        IsToldIssued (AnswersWantedList w) w.issuer out.old out.new told.new }
    ensures answered { result ≡ told.new.fault }
{
    let answer = prepare_list(alloc, list);
    *told = put(answer, list.issuer.members.lengths.len(), out);
    told.fault
}

/// Completes a prepared CRL with its signature: writes the CRL, as many bytes as fit.
///
/// # Errors
///
/// Returns the number of the error in `told`, or 0.
#[unsafe(no_mangle)]
pub extern "C" fn rpki_complete_list(
    alloc: Global,
    completion: &RpkiListCompletion<'_>,
    out: &mut [u8],
    told: &mut RpkiIssued,
) -> u32
    ensures told { let c = completion.now in
        IsToldIssued (AnswersListCompletion c) c.issuer out.old out.new told.new }
    ensures answered { result ≡ told.new.fault }
{
    let answer = complete_list(alloc, completion);
    *told = put(answer, completion.issuer.members.lengths.len(), out);
    told.fault
}
