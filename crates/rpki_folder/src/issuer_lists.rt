//! The CRLs of one issuer, each of which is verified once.
ghost use Rattle.std.specs.Prelude.{◌≡◌, ◌<◌, ◌↔◌, Bool, length, map, slice_index_or, IsTrue, IfOk, IfSome, option_copied};
ghost use Rattle.rpki_der.specs.Times.{Moment};
ghost use Rattle.rpki_cert.specs.Verification.{context};
ghost use Rattle.rpki_path.specs.AskedLists.{HaveNone};
ghost use Rattle.rpki_path.specs.AskedLists.Steps.{IsLatestIfAny};
ghost use Rattle.rpki_folder.specs.KeyTables.{list_places};
ghost use Rattle.rpki_folder.specs.IssuerLists.{ArePicked, HasName, HasSigned, IsCurrent, IsOfIssuer, FailsWithout, AreIssuerLists, IsAnswered};

use rpki_cert::{Cert, ResourceCert};
use rpki_crl::{Crl, RevocationError};
use rpki_der::Time;
use rpki_parts::Verifier;
use rpki_path::revocation::{goes_first, has_begun, is_named_by, is_signed_by, said_by};
use std::alloc::{AllocError, Global};
use std::marker::Model;

/// The given CRLs of one issuer. Each is verified once, and not once for each certificate below the
/// issuer. The answers for these certificates are those of [`rpki_path::revocation::GivenLists`]
/// with all CRLs.
#[derive(Drop)]
pub(crate) struct IssuerLists<'l> {
    // The eligible CRLs.
    eligible: Vec<&'l Crl>,
    // The error of a certificate if no CRL is eligible.
    otherwise: RevocationError,
}

impl<'l> Model for IssuerLists<'l> {
    ghost use Rattle.std.specs.Prelude.{map};
    ghost use Rattle.rpki_folder.specs.IssuerLists.{IssuerFields};

    ghost Value = { IssuerFields };

    ghost view = { λ kept. record {
      eligible = map (λ l. l.now) kept.eligible.items;
      otherwise = kept.otherwise;
    } };
}

// The CRL at a place.
fn list_at(lists: &[Crl], place: usize) -> &Crl
    requires { place < length lists.now }
    ensures { result.now ≡ slice_index_or lists.now place result.now }
{
    &lists[place]
}

// Whether the CRL has the issuer's name, if names are checked.
fn has_name(list: &Crl, issuer: &ResourceCert, names: bool) -> bool
    ensures { IsTrue result ↔ HasName names issuer.now.cert.fields list.now }
{
    if !names {
        return true;
    }
    is_named_by(list, issuer)
}

// Whether the issuer's key signed the CRL, and its time has come. The signature is verified last,
// as that takes longest.
fn is_current<V: Verifier>(list: &Crl, issuer: &ResourceCert, now: Time, verifier: &V) -> bool
    ensures { let current = IsCurrent (V.verifies verifier.now) now issuer.now.cert.fields in
        IsTrue result ↔ current list.now }
{
    has_begun(list, now) && is_signed_by(list, issuer, verifier)
}

// The issuer's CRLs: those that name its key, at the given places, and have its name, if names are
// checked.
fn named_lists<'l>(
    alloc: Global,
    lists: &'l [Crl],
    places: &[usize],
    issuer: &ResourceCert,
    names: bool,
) -> Result<Vec<&'l Crl>, AllocError>
    requires { let key = issuer.now.cert.fields.extensions.subject_key_identifier in
        places.now ≡ list_places key lists.now }
    ensures { let of_issuer = IsOfIssuer names issuer.now.cert.fields in
        IfOk result (λ named. ArePicked of_issuer lists.now (map (λ l. l.now) named.items)) }
{
    let mut named = Vec::new(alloc);
    for &place in places {
        let list = list_at(lists, place);
        if !has_name(list, issuer, names) {
            continue;
        }
        named.push(list)?;
    }
    Ok(named)
}

// The CRLs of the issuer that it signed, and whose time has come.
fn current_lists<'l, V: Verifier>(
    alloc: Global,
    named: &[&'l Crl],
    issuer: &ResourceCert,
    now: Time,
    verifier: &V,
) -> Result<Vec<&'l Crl>, AllocError>
    ensures { let current = IsCurrent (V.verifies verifier.now) now issuer.now.cert.fields in
        IfOk result (λ kept.
        ArePicked current (map (λ l. l.now) named.now) (map (λ l. l.now) kept.items)) }
{
    let mut kept = Vec::new(alloc);
    for list in named {
        if !is_current(list, issuer, now, verifier) {
            continue;
        }
        kept.push(*list)?;
    }
    Ok(kept)
}

/// Returns whether the issuer's key signed one of the CRLs at these places, which name the key.
pub(crate) fn has_signed<V: Verifier>(
    lists: &[Crl],
    places: &[usize],
    issuer: &ResourceCert,
    verifier: &V,
) -> bool
    requires { let key = issuer.now.cert.fields.extensions.subject_key_identifier in
        places.now ≡ list_places key lists.now }
    ensures { let verifies = V.verifies verifier.now in
        IsTrue result ↔ HasSigned verifies lists.now issuer.now.cert.fields }
{
    for &place in places {
        if is_signed_by(list_at(lists, place), issuer, verifier) {
            return true;
        }
    }
    false
}

// What `has_signed` returns, which may be known already.
fn has_signed_if_known<V: Verifier>(
    lists: &[Crl],
    places: &[usize],
    issuer: &ResourceCert,
    known: Option<bool>,
    verifier: &V,
) -> bool
    requires places { let key = issuer.now.cert.fields.extensions.subject_key_identifier in
        places.now ≡ list_places key lists.now }
    requires known { let verifies = V.verifies verifier.now in IfSome known (λ is.
        IsTrue is ↔ HasSigned verifies lists.now issuer.now.cert.fields) }
    ensures { let verifies = V.verifies verifier.now in
        IsTrue result ↔ HasSigned verifies lists.now issuer.now.cert.fields }
{
    match known {
        Some(is_signed) => is_signed,
        None => has_signed(lists, places, issuer, verifier),
    }
}

// The error of a certificate below the issuer if all CRLs that name its key have another name.
fn why_unnamed<V: Verifier>(
    lists: &[Crl],
    places: &[usize],
    issuer: &ResourceCert,
    known: Option<bool>,
    verifier: &V,
) -> RevocationError
    requires places { let key = issuer.now.cert.fields.extensions.subject_key_identifier in
        places.now ≡ list_places key lists.now }
    requires known { let verifies = V.verifies verifier.now in IfSome known (λ is.
        IsTrue is ↔ HasSigned verifies lists.now issuer.now.cert.fields) }
    ensures { (names : Bool) (now : Moment) (strict : Bool)
        → let x = context (V.verifies verifier.now) now strict in
        HaveNone (IsOfIssuer names issuer.now.cert.fields) lists.now
        → FailsWithout names x lists.now issuer.now.cert.fields result }
{
    if has_signed_if_known(lists, places, issuer, known, verifier) {
        return RevocationError::WrongIssuer;
    }
    RevocationError::NoCrl
}

// The error of a certificate below the issuer if none of the issuer's CRLs is eligible. A CRL whose
// time has come isn't signed by the issuer then, so no signature is verified twice.
fn why_none<V: Verifier>(
    lists: &[Crl],
    places: &[usize],
    named: &[&Crl],
    issuer: &ResourceCert,
    now: Time,
    known: Option<bool>,
    verifier: &V,
) -> RevocationError
    requires places { let key = issuer.now.cert.fields.extensions.subject_key_identifier in
        places.now ≡ list_places key lists.now }
    requires known { let verifies = V.verifies verifier.now in IfSome known (λ is.
        IsTrue is ↔ HasSigned verifies lists.now issuer.now.cert.fields) }
    ensures { (names strict : Bool) → let x = context (V.verifies verifier.now) now strict in
        let of_issuer = IsOfIssuer names issuer.now.cert.fields in
        ArePicked of_issuer lists.now (map (λ l. l.now) named.now)
        → FailsWithout names x lists.now issuer.now.cert.fields result }
{
    if named.is_empty() {
        return why_unnamed(lists, places, issuer, known, verifier);
    }
    for list in named {
        if has_begun(list, now) || !is_signed_by(list, issuer, verifier) {
            return RevocationError::BadSignature;
        }
    }
    RevocationError::Stale
}

// The newest of these CRLs for the certificate.
fn latest<'l>(lists: &[&'l Crl], cert: &Cert) -> Option<&'l Crl>
    ensures { let given = map (λ l. l.now) lists.entry.now in
        IsLatestIfAny (λ _. Unit {0}) cert.now given (option_copied result) }
{
    let mut kept: Option<&'l Crl> = None;
    for list in lists {
        if !goes_first(list, kept, cert) {
            continue;
        }
        kept = Some(*list);
    }
    kept
}

impl<'l> IssuerLists<'l> {
    /// Keeps the CRLs that are searched below the issuer: of those at `places`, which have its key
    /// identifier, the CRLs with its name if names are checked, and else all. No other CRL is read.
    /// Whether its key signed one of those at `places`, also one of another name, may be known.
    ///
    /// # Errors
    ///
    /// Returns an error only if memory runs out.
    pub(crate) fn new<V: Verifier>(
        alloc: Global,
        lists: &'l [Crl],
        places: &[usize],
        issuer: &ResourceCert,
        names: bool,
        now: Time,
        known: Option<bool>,
        verifier: &V,
    ) -> Result<IssuerLists<'l>, AllocError>
        requires places { let key = issuer.now.cert.fields.extensions.subject_key_identifier in
            places.now ≡ list_places key lists.now }
        requires known { let verifies = V.verifies verifier.now in IfSome known (λ is.
            IsTrue is ↔ HasSigned verifies lists.now issuer.now.cert.fields) }
        ensures { (strict : Bool) → let x = context (V.verifies verifier.now) now strict in
            IfOk result (AreIssuerLists names x lists.now issuer.now.cert.fields) }
    {
        let named = named_lists(alloc, lists, places, issuer, names)?;
        let eligible = current_lists(alloc, &named, issuer, now, verifier)?;
        let otherwise = why_none(lists, places, &named, issuer, now, known, verifier);
        Ok(IssuerLists {
            eligible,
            otherwise,
        })
    }

    /// Checks that the certificate, which is valid below the issuer, isn't revoked. Takes no
    /// memory, and verifies no signature.
    ///
    /// # Errors
    ///
    /// Returns the first check that fails, in the order of [`RevocationError`]'s variants.
    pub(crate) fn ask(&self, cert: &Cert, now: Time) -> Result<(), RevocationError>
        ensures { IsAnswered self.now now cert.now result }
    {
        let Some(list) = latest(&self.eligible, cert) else {
            return Err(self.otherwise);
        };
        said_by(list, cert, now)
    }
}
