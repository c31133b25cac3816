//! The next CRL of an issuer.
ghost use Rattle.std.specs.Prelude.{◌≡◌, ◌↔◌, ◌^◌, ◌<◌, length, IsTrue, IfOk, IfErr, map};
ghost use Rattle.std.specs.Int.Digits.{number_from_digits};
ghost use Rattle.std.specs.List.{filter};
ghost use Rattle.rpki_parts.specs.Conditions.{Tests};
ghost use Rattle.rpki_crl.specs.RevokedEntries.{IsRevoked};
ghost use Rattle.rpki_crl.specs.RevokedEntries.Views.{entry_of};
ghost use Rattle.rpki_issuing.specs.NextLists.{HasAtMostTwentyOctets, HasNextEntries, IsNext, NextCheck, next_checks, IsNoNext};
ghost use Rattle.rpki_issuing.specs.NextLists.Steps.{keeps};

use rpki_crl::{Crl, CrlEntry, RevokedCertificates, TbsCertList};
use rpki_der::{EncodeError, Serial, Time};
use std::alloc::{AllocError, Global};
use thiserror::Error;

/// The error of [`next_list`].
#[derive(Debug, Drop, Error)]
pub enum NextListError {
    /// The CRL number isn't greater than the previous CRL's (RFC 5280 5.2.3).
    #[error("the number isn't greater")]
    Number,
    /// The CRL number has more than 20 bytes as an INTEGER: it is 2^159 or more (RFC 5280 5.2.3).
    #[error("the number is too long")]
    LongNumber,
    /// nextUpdate is before thisUpdate (own).
    #[error("the next update is before this one")]
    UpdateOrder,
    /// Memory ran out.
    #[error("out of memory")]
    Memory,
}

impl NextListError {
    ghost use Rattle.rpki_issuing.specs.NextLists.{next_list_error_name};
    ghost use Rattle.rpki_issuing.specs.declared.next.NextListError.TheVariants.{Memory};

    /// Returns the variant's name.
    pub fn name(&self) -> &'static str
        ensures { result.now ≡ next_list_error_name self.now }
    {
        match self {
            NextListError::Number => "Number",
            NextListError::LongNumber => "LongNumber",
            NextListError::UpdateOrder => "UpdateOrder",
            NextListError::Memory => "Memory",
        }
    }

    /// Returns whether memory ran out.
    pub fn is_memory(&self) -> bool
        ensures { IsTrue result ↔ self.now ≡ Memory }
    {
        match self {
            NextListError::Memory => true,
            _ => false,
        }
    }
}

impl From<AllocError> for NextListError {
    ghost use Rattle.rpki_issuing.specs.declared.next.NextListError.TheVariants.{Memory};

    ghost from_gives = { λ _ e. e ≡ Memory };

    fn from(_error: AllocError) -> NextListError {
        NextListError::Memory
    }
}

impl From<EncodeError> for NextListError {
    ghost use Rattle.rpki_issuing.specs.declared.next.NextListError.TheVariants.{Memory};

    ghost from_gives = { λ _ e. e ≡ Memory };

    fn from(_error: EncodeError) -> NextListError {
        NextListError::Memory
    }
}

// Whether an entry has the number.
fn is_revoked(serial: Serial, entries: &[CrlEntry]) -> bool
    ensures { IsTrue result ↔ IsRevoked serial (map entry_of entries.now) }
{
    for entry in entries {
        if entry.user_certificate == serial {
            return true;
        }
    }
    false
}

// The entries of the list whose certificates aren't gone.
fn kept(alloc: Global, previous: &Crl, gone: &[Serial]) -> Result<Vec<CrlEntry>, AllocError>
    ensures { IfOk result (λ entries. map entry_of entries.items
        ≡ filter (keeps gone.now) previous.now.list.fields.revoked.entries) }
{
    let mut entries = Vec::new(alloc);
    for entry in previous.as_cert_list().revoked_certs().iter() {
        if !gone.contains(&entry.user_certificate) {
            entries.push(entry)?;
        }
    }
    Ok(entries)
}

// The entries of the next list.
fn next_entries(
    alloc: Global,
    previous: &Crl,
    revoked: &[CrlEntry],
    gone: &[Serial],
) -> Result<Vec<CrlEntry>, AllocError>
    ensures { IfOk result (λ entries. HasNextEntries previous.now.list.fields
        (map entry_of revoked.now) gone.now (map entry_of entries.items)) }
{
    let mut entries = kept(alloc, previous, gone)?;
    for entry in revoked {
        if !is_revoked(entry.user_certificate, &entries) {
            entries.push(*entry)?;
        }
    }
    Ok(entries)
}

// Whether the number of these 20 octets, the greatest first, is below 2^159: the first bit, which
// is the sign of an INTEGER, isn't set.
fn begins_low(octets: &[u8]) -> bool
    requires { length octets.now ≡ 20 }
    ensures { IsTrue result ↔ (number_from_digits 256 octets.now < 2 ^ 159) }
{
    octets[0] < 128
}

// Whether the number has at most 20 octets as an INTEGER.
fn is_short(number: Serial) -> bool
    ensures { IsTrue result ↔ HasAtMostTwentyOctets number }
{
    begins_low(&number.octets())
}

// Whether the number and the moments are those of a next list.
fn check(
    old: &TbsCertList<RevokedCertificates>,
    number: Serial,
    this_update: Time,
    next_update: Time,
) -> Result<(), NextListError>
    ensures { Tests (NextCheck old.now number this_update next_update) next_checks result }
{
    if number <= old.crl_number() {
        return Err(NextListError::Number);
    }
    if !is_short(number) {
        return Err(NextListError::LongNumber);
    }
    if next_update < this_update {
        return Err(NextListError::UpdateOrder);
    }
    Ok(())
}

/// Makes the to-be-signed part of the issuer's next CRL (RFC 5280 5.1).
///
/// - The CRL number is `number`.
/// - The times are `this_update` and `next_update`.
/// - The entries are those of the previous CRL whose serial numbers aren't in `gone`, and then
///   those of `revoked` whose serial numbers aren't there yet.
/// - The issuer's name, its key identifier and the algorithm are those of the previous CRL.
///
/// `gone` lists certificates that have expired: their entries may be removed (RFC 5280 5.1.2.6,
/// 3.3).
///
/// # Errors
///
/// Returns the first error:
///
/// - `Number` if `number` isn't greater than the previous CRL's (RFC 5280 5.2.3)
/// - `LongNumber` if `number` has more than 20 bytes as an INTEGER (RFC 5280 5.2.3)
/// - `UpdateOrder` if `next_update` is before `this_update`
/// - `Memory` if memory runs out
///
/// # Not checked
///
/// Whether the certificates of `gone` have expired, and whether `this_update` is after the previous
/// CRL's.
pub fn next_list(
    alloc: Global,
    previous: &Crl,
    number: Serial,
    revoked: &[CrlEntry],
    gone: &[Serial],
    this_update: Time,
    next_update: Time,
) -> Result<TbsCertList<RevokedCertificates>, NextListError>
    ensures next { IfOk result
        (IsNext previous.now.list.fields (map entry_of revoked.now) gone.now) }
    ensures number { IfOk result (λ f. f.extensions.crl_number ≡ number) }
    ensures this_update { IfOk result (λ f. f.this_update ≡ this_update) }
    ensures next_update { IfOk result (λ f. f.next_update ≡ next_update) }
    ensures fault { IfErr result
        (IsNoNext previous.now.list.fields number this_update next_update) }
{
    let old = previous.as_cert_list();
    check(old, number, this_update, next_update)?;
    let entries = next_entries(alloc, previous, revoked, gone)?;
    let issuer = old.issuer().try_clone(alloc)?;
    let list = TbsCertList::new(
        old.signature(),
        issuer,
        this_update,
        next_update,
        entries,
        *old.authority_key_identifier(),
        number,
    );
    Ok(list.to_revoked(alloc)?)
}
