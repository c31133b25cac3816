//! A CRL that a caller requests, as bytes, lengths and numbers.
ghost use Rattle.std.specs.Prelude.{◌≡◌, map, IfErr, IfOk, IfSome, IsNone, MatchOption};
ghost use Rattle.rpki_crl.specs.RevokedEntries.Views.{entry_of};
ghost use Rattle.rpki_c.specs.ListAnswers.{GivesNoEntries};
ghost use Rattle.rpki_c.specs.WantedLists.{GivesWantedList, HasDate, HasListTerms, HasNoListTerms, HaveDates, IsNumberChosen, given_entry};

use crate::lists::{RpkiEntry, number_of};
use crate::moments::{RpkiTime, moment_of};
use crate::question::{RpkiQuestion, Terms, terms_of};
use crate::unissued::Unissued;
use rpki_crl::CrlEntry;
use rpki_der::{Serial, Time};
use rpki_issuing::wanted::WantedList;
use std::alloc::Global;

/// A requested CRL.
#[repr(C)]
#[derive(Clone, Copy)]
pub struct RpkiWantedList<'c> {
    /// The size of this struct in bytes, as the caller knows it.
    pub size: usize,
    /// The issuer's path, the time, and whether names may only have the profile's string types.
    pub issuer: RpkiQuestion<'c>,
    /// The issuer's previous CRL; empty if there is none.
    pub previous: &'c [u8],
    /// The entries to be added to those of the previous CRL.
    pub revoked: &'c [RpkiEntry],
    pub this_update: RpkiTime,
    pub next_update: RpkiTime,
    /// The CRL number. Zeros mean one more than the previous CRL's, and 1 for a first CRL.
    pub number: [u8; 20],
}

/// The size of a requested CRL in bytes.
pub(crate) const WANTED_LIST_SIZE: usize = size_of::<RpkiWantedList<'_>>();

/// The terms under which a CRL is prepared.
#[derive(Clone, Copy)]
pub(crate) struct ListTerms {
    /// The terms under which the issuer's path is validated, and the time.
    pub(crate) asked: Terms,
    pub(crate) this_update: Time,
    pub(crate) next_update: Time,
}

/// Returns the terms under which a CRL is prepared, or `None` if a time doesn't exist, if the
/// issuer's path has no terms, or if the caller knows another struct.
#[tactic(auto, using(crate::proofs::ListTermsGiven::no_list_size, crate::proofs::ListTermsGiven::no_list_path, crate::proofs::ListTermsGiven::no_this_update, crate::proofs::ListTermsGiven::no_next_update))]
pub(crate) fn list_terms_of(list: &RpkiWantedList<'_>) -> Option<ListTerms>
    ensures terms { IfSome result (HasListTerms list.now) }
    ensures none { IsNone result → HasNoListTerms list.now }
{
    if list.size != WANTED_LIST_SIZE {
        return None;
    }
    Some(ListTerms {
        asked: terms_of(&list.issuer)?,
        this_update: moment_of(&list.this_update)?,
        next_update: moment_of(&list.next_update)?,
    })
}

// The number that is chosen, if one is.
fn number_chosen(octets: &[u8; 20]) -> Option<Serial>
    ensures { IsNumberChosen octets.now result }
{
    let number = number_of(octets);
    if number == Serial::from(0u64) {
        return None;
    }
    Some(number)
}

// The entry that is given, if there is a moment since when it is revoked.
fn entry_given(it: &RpkiEntry) -> Option<CrlEntry>
    ensures { MatchOption result (HasDate it.now → ⊥)
        (λ e. (entry_of e ≡ given_entry it.now) × HasDate it.now) }
{
    Some(CrlEntry {
        user_certificate: number_of(&it.serial),
        revocation_date: moment_of(&it.date)?,
    })
}

// The entries that are given, if there are such moments.
fn entries_given(alloc: Global, revoked: &[RpkiEntry]) -> Result<Vec<CrlEntry>, Unissued>
    ensures given { IfOk result (λ all. map entry_of all.items ≡ map given_entry revoked.now) }
    ensures dates { IfOk result (λ _. HaveDates revoked.now) }
    ensures none { IfErr result (GivesNoEntries revoked.now) }
{
    let mut all = Vec::new(alloc);
    for it in revoked {
        let Some(entry) = entry_given(it) else {
            return Err(Unissued::BadCall);
        };
        if let Err(_) = all.push(entry) {
            return Err(Unissued::Memory);
        }
    }
    Ok(all)
}

/// Returns the values of the requested CRL.
pub(crate) fn list_given(
    alloc: Global,
    list: &RpkiWantedList<'_>,
    terms: ListTerms,
) -> Result<WantedList, Unissued>
    ensures given { IfOk result (GivesWantedList list.now terms) }
    ensures none { IfErr result (GivesNoEntries list.now.revoked.now) }
{
    Ok(WantedList {
        number: number_chosen(&list.number),
        revoked: entries_given(alloc, list.revoked)?,
        this_update: terms.this_update,
        next_update: terms.next_update,
    })
}
