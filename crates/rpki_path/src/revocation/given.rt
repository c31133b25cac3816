//! CRLs as a caller gives them, of which the issuer's newest is searched.
ghost use Rattle.std.specs.Prelude.{◌≡◌, ◌<◌, ◌↔◌, false, IsTrue, IfSome, option_copied};
ghost use Rattle.std.specs.Ordering.{MatchOrdering};
ghost use Rattle.rpki_der.specs.Times.{second_number};
ghost use Rattle.rpki_parts.specs.Conditions.{IsFirstFalse};
ghost use Rattle.rpki_cert.specs.Verification.{context, IsSignedBy};
ghost use Rattle.rpki_crl.specs.Revocation.{revocation_checks};
ghost use Rattle.rpki_path.specs.AskedLists.{IsFor, IsForBelow, IsNamedBy, HasBegun, IsEligibleNamed, Revokes, HaveNone, IsLater, SupersedesEqual, Supersedes, IsSaidBy, by_named_lists};
ghost use Rattle.rpki_path.specs.AskedLists.Steps.{IsLatestIfAny, IsOneIfAny, EachHas};

use crate::revocation::source::RevocationSource;
use rpki_cert::{Cert, ResourceCert};
use rpki_crl::{Crl, RevocationError};
use rpki_der::Time;
use rpki_parts::Verifier;
use std::cmp::Ordering;
use std::marker::Model;

/// CRLs as a caller gives them, in any order and of any issuers.
///
/// A certificate is searched in its issuer's newest CRL: the eligible CRL with the greatest CRL
/// number (RFC 6487 5). A CRL is eligible if
///
/// - its authority key identifier is that of the certificate (RFC 5280 5.2.1)
/// - the issuer's key signed it (RFC 5280 6.3.3)
/// - its thisUpdate is neither after the validation time nor after its own nextUpdate
/// - if names are checked, its issuer is the subject of the issuer's certificate (RFC 5280 6.3.3
///   (b) (1))
///
/// Two CRLs of one number are forbidden (RFC 5280 5.2.3). If there are such, a CRL that revokes the
/// certificate goes first, then the CRL of the later thisUpdate, then the CRL of the later
/// nextUpdate (own). A CRL that isn't eligible never hides an eligible CRL.
///
/// If no CRL is eligible, the error is
///
/// - `NoCrl` or `WrongIssuer` if no CRL has the key identifier (and, if names are checked, the
///   issuer's name): `WrongIssuer` if names are checked and the issuer's key signed a CRL with the
///   key identifier
/// - else `BadSignature` if another key signed one of these CRLs
/// - else `Stale`: the thisUpdate of each is after the validation time or after its own nextUpdate
///
/// The answer is the same for every order of the CRLs
/// ([`crate::revocation::laws::blind_to_order`]).
///
/// A search uses the CRL's table if its serial numbers are cached ([`Crl::cache_serials`]).
/// Otherwise it reads the entries one by one. Each signature is verified at most once per search. A
/// search takes no memory.
#[derive(Drop)]
pub struct GivenLists<'l> {
    lists: &'l [Crl],
    names: bool,
}

impl<'l> Model for GivenLists<'l> {
    ghost use Rattle.rpki_path.specs.AskedLists.{GivenFields};

    ghost Value = { GivenFields };

    ghost view = { λ given. record { lists = given.lists.now; names = given.names } };
}

impl<'l> GivenLists<'l> {
    /// Makes a source of these CRLs, whose issuer names aren't compared.
    pub fn new(lists: &'l [Crl]) -> GivenLists<'l>
        ensures { result ≡ record { lists = lists.now; names = false } }
    {
        GivenLists {
            lists,
            names: false,
        }
    }

    /// Makes a source of these CRLs, whose issuer names are compared with their issuers' subjects
    /// if `names` is true. Pass true if the names of certificates are checked.
    pub fn with_names(lists: &'l [Crl], names: bool) -> GivenLists<'l>
        ensures { result ≡ record { lists = lists.now; names = names } }
    {
        GivenLists { lists, names }
    }
}

// Whether the CRL's authority key identifier is that of the certificate.
fn is_for(list: &Crl, cert: &Cert) -> bool
    ensures { IsTrue result ↔ IsFor cert.now list.now }
{
    let named = *list.as_cert_list().authority_key_identifier();
    cert.as_tbs().authority_key_identifier() == Some(named)
}

/// Returns whether the CRL's issuer is the issuer's subject (RFC 5280 6.3.3 (b) (1)). Names are
/// compared byte by byte (own).
pub fn is_named_by(list: &Crl, issuer: &ResourceCert) -> bool
    ensures { IsTrue result ↔ IsNamedBy issuer.now.cert.fields list.now.list }
{
    let subject = issuer.as_cert().as_tbs().subject();
    list.as_cert_list().issuer().as_bytes() == subject.as_bytes()
}

// Whether the CRL is for the certificate, and has the issuer's name, if names are checked.
fn is_for_below(list: &Crl, cert: &Cert, issuer: &ResourceCert, names: bool) -> bool
    ensures { let fields = issuer.now.cert.fields in
        IsTrue result ↔ IsForBelow names fields cert.now list.now }
{
    if names {
        return is_for(list, cert) && is_named_by(list, issuer);
    }
    is_for(list, cert)
}

/// Returns whether the CRL's time has come: its thisUpdate is neither after this time nor after its
/// own nextUpdate (RFC 5280 5.1.2.4, 5.1.2.5, 6.3.3).
pub fn has_begun(list: &Crl, now: Time) -> bool
    ensures { IsTrue result ↔ HasBegun now list.now.list }
{
    let made = list.as_cert_list().this_update();
    made <= now && made <= list.as_cert_list().next_update()
}

/// Returns whether the issuer's key signed the CRL (RFC 5280 6.3.3).
pub fn is_signed_by<V: Verifier>(list: &Crl, issuer: &ResourceCert, verifier: &V) -> bool
    ensures { let key = issuer.now.cert.fields.key in
        IsTrue result ↔ IsSignedBy (V.verifies verifier.now) key list.now.list.signed_data }
{
    let key = issuer.as_cert().as_tbs().subject_public_key_info();
    list.verify_signature(key, verifier).is_ok()
}

// Whether the CRL has the serial number of the certificate.
fn revokes(list: &Crl, cert: &Cert) -> bool
    ensures { IsTrue result ↔ Revokes cert.now list.now }
{
    list.contains(cert.as_tbs().serial_number())
}

// How the numbers of two CRLs compare.
fn by_number(list: &Crl, other: &Crl) -> Ordering
    ensures { let number = list.now.list.fields.extensions.crl_number in
        let others = other.now.list.fields.extensions.crl_number in
        MatchOrdering result (number < others) (number ≡ others) (others < number) }
{
    let number = list.as_cert_list().crl_number();
    number.cmp(&other.as_cert_list().crl_number())
}

// How the times of thisUpdate of two CRLs compare.
fn by_this_update(list: &Crl, other: &Crl) -> Ordering
    ensures { let moment = second_number list.now.list.fields.this_update in
        let others = second_number other.now.list.fields.this_update in
        MatchOrdering result (moment < others) (moment ≡ others) (others < moment) }
{
    let moment = list.as_cert_list().this_update();
    moment.cmp(&other.as_cert_list().this_update())
}

// Whether the nextUpdate of one CRL is later than that of another.
fn is_due_later(list: &Crl, other: &Crl) -> bool
    ensures { let moment = list.now.list.fields.next_update in
        let others = other.now.list.fields.next_update in
        IsTrue result ↔ second_number others < second_number moment }
{
    list.as_cert_list().next_update() > other.as_cert_list().next_update()
}

// Whether one CRL is later than another: by its thisUpdate, and if these are equal, by its
// nextUpdate.
fn is_later(list: &Crl, other: &Crl) -> bool
    ensures { IsTrue result ↔ IsLater list.now other.now }
{
    match by_this_update(list, other) {
        Ordering::Less => false,
        Ordering::Equal => is_due_later(list, other),
        Ordering::Greater => true,
    }
}

// Whether one CRL supersedes another of the same number: a CRL that revokes the certificate goes
// first, and then the later CRL.
fn supersedes_equal(list: &Crl, kept: &Crl, cert: &Cert) -> bool
    ensures { IsTrue result ↔ SupersedesEqual cert.now list.now kept.now }
{
    let revoked = revokes(list, cert);
    if revoked != revokes(kept, cert) {
        return revoked;
    }
    is_later(list, kept)
}

/// Returns whether one CRL supersedes another of the same issuer for this certificate: the greater
/// number supersedes (RFC 6487 5). Two different CRLs never have one number (RFC 5280 5.2.3). If
/// they do, neither may hide that the other revokes the certificate (own).
pub fn supersedes(list: &Crl, kept: &Crl, cert: &Cert) -> bool
    ensures { IsTrue result ↔ Supersedes cert.now list.now kept.now }
{
    match by_number(list, kept) {
        Ordering::Less => false,
        Ordering::Equal => supersedes_equal(list, kept, cert),
        Ordering::Greater => true,
    }
}

/// Returns whether the CRL supersedes the kept CRL for this certificate; true if none is kept
/// (own).
pub fn goes_first(list: &Crl, kept: Option<&Crl>, cert: &Cert) -> bool
    ensures { let goes = Supersedes cert.now list.now in
        IsTrue result ↔ IfSome (option_copied kept.entry) goes }
{
    match kept {
        Some(kept) => supersedes(list, kept, cert),
        None => true,
    }
}

// Whether the CRL is eligible, and supersedes the kept CRL, if one is kept. The signature is
// verified last, as that takes longest.
fn is_next<V: Verifier>(
    list: &Crl,
    kept: Option<&Crl>,
    cert: &Cert,
    issuer: &ResourceCert,
    names: bool,
    now: Time,
    verifier: &V,
) -> bool
    ensures { let verifies = V.verifies verifier.now in
        let fields = issuer.now.cert.fields in
        IsTrue result ↔ (IsEligibleNamed names verifies now fields cert.now list.now
        × IfSome (option_copied kept.entry) (Supersedes cert.now list.now)) }
{
    is_for_below(list, cert, issuer, names)
        && has_begun(list, now)
        && goes_first(list, kept, cert)
        && is_signed_by(list, issuer, verifier)
}

// The newest of the eligible CRLs.
fn latest<'l, V: Verifier>(
    lists: &'l [Crl],
    cert: &Cert,
    issuer: &ResourceCert,
    names: bool,
    now: Time,
    verifier: &V,
) -> Option<&'l Crl>
    ensures { let verifies = V.verifies verifier.now in
        let fields = issuer.now.cert.fields in
        let eligible = IsEligibleNamed names verifies now fields cert.now in
        IsLatestIfAny eligible cert.now lists.now (option_copied result) }
{
    let mut kept: Option<&'l Crl> = None;
    for list in lists {
        if !is_next(list, kept, cert, issuer, names, now, verifier) {
            continue;
        }
        kept = Some(list);
    }
    kept
}

// A CRL for the certificate, with the issuer's name if names are checked, whoever signed it.
fn one_for<'l>(lists: &'l [Crl], cert: &Cert, issuer: &ResourceCert, names: bool) -> Option<&'l Crl>
    ensures { let is_for = IsForBelow names issuer.now.cert.fields cert.now in
        IsOneIfAny is_for lists.now (option_copied result) }
{
    for list in lists {
        if is_for_below(list, cert, issuer, names) {
            return Some(list);
        }
    }
    None
}

// A CRL for the certificate that the issuer's key signed, whatever its name.
fn signed_one<'l, V: Verifier>(
    lists: &'l [Crl],
    cert: &Cert,
    issuer: &ResourceCert,
    verifier: &V,
) -> Option<&'l Crl>
    ensures { let key = issuer.now.cert.fields.key in
        IsOneIfAny (λ l. IsFor cert.now l
        × IsSignedBy (V.verifies verifier.now) key l.list.signed_data) lists.now
        (option_copied result) }
{
    for list in lists {
        if is_for(list, cert) && is_signed_by(list, issuer, verifier) {
            return Some(list);
        }
    }
    None
}

// The error if no CRL is for the certificate, with the issuer's name if names are checked.
fn why_unasked<V: Verifier>(
    lists: &[Crl],
    cert: &Cert,
    issuer: &ResourceCert,
    names: bool,
    strict: bool,
    now: Time,
    verifier: &V,
) -> RevocationError
    requires { HaveNone (IsForBelow names issuer.now.cert.fields cert.now) lists.now }
    ensures { let x = context (V.verifies verifier.now) now strict in
        let checks = by_named_lists names x lists.now issuer.now.cert.fields cert.now in
        IsFirstFalse checks revocation_checks result }
{
    match signed_one(lists, cert, issuer, verifier) {
        Some(_) => RevocationError::WrongIssuer,
        None => RevocationError::NoCrl,
    }
}

// Whether the issuer's key signed a CRL that isn't eligible, if that is for the certificate. A CRL
// whose time has come isn't signed by it then, so no signature is verified twice.
fn is_signed_if_for<V: Verifier>(
    list: &Crl,
    cert: &Cert,
    issuer: &ResourceCert,
    names: bool,
    now: Time,
    verifier: &V,
) -> bool
    requires { let verifies = V.verifies verifier.now in
        let fields = issuer.now.cert.fields in
        IsEligibleNamed names verifies now fields cert.now list.now → ⊥ }
    ensures { let key = issuer.now.cert.fields.key in
        let signed = IsSignedBy (V.verifies verifier.now) key list.now.list.signed_data in
        let fields = issuer.now.cert.fields in
        IsTrue result ↔ (IsForBelow names fields cert.now list.now → signed) }
{
    if !is_for_below(list, cert, issuer, names) {
        return true;
    }
    !has_begun(list, now) && is_signed_by(list, issuer, verifier)
}

// Whether the issuer's key signed each CRL for the certificate, if none is eligible.
fn are_signed<V: Verifier>(
    lists: &[Crl],
    cert: &Cert,
    issuer: &ResourceCert,
    names: bool,
    now: Time,
    verifier: &V,
) -> bool
    requires { let verifies = V.verifies verifier.now in
        let fields = issuer.now.cert.fields in
        HaveNone (IsEligibleNamed names verifies now fields cert.now) lists.now }
    ensures { let key = issuer.now.cert.fields.key in
        IsTrue result ↔ EachHas (IsForBelow names issuer.now.cert.fields cert.now)
        (λ l. IsSignedBy (V.verifies verifier.now) key l.list.signed_data) lists.now }
{
    for list in lists {
        if !is_signed_if_for(list, cert, issuer, names, now, verifier) {
            return false;
        }
    }
    true
}

// The error of the certificate if no CRL is eligible.
fn why_none<V: Verifier>(
    lists: &[Crl],
    cert: &Cert,
    issuer: &ResourceCert,
    names: bool,
    strict: bool,
    now: Time,
    verifier: &V,
) -> RevocationError
    requires { let verifies = V.verifies verifier.now in
        let fields = issuer.now.cert.fields in
        HaveNone (IsEligibleNamed names verifies now fields cert.now) lists.now }
    ensures { let x = context (V.verifies verifier.now) now strict in
        let checks = by_named_lists names x lists.now issuer.now.cert.fields cert.now in
        IsFirstFalse checks revocation_checks result }
{
    let Some(list) = one_for(lists, cert, issuer, names) else {
        return why_unasked(lists, cert, issuer, names, strict, now, verifier);
    };
    if list.verify_issuer_claim(issuer, strict).is_err() {
        return RevocationError::WrongKeyId;
    }
    if !are_signed(lists, cert, issuer, names, now, verifier) {
        return RevocationError::BadSignature;
    }
    RevocationError::Stale
}

/// Checks a certificate against its issuer's newest CRL (RFC 5280 6.3.3).
///
/// # Errors
///
/// Returns `Stale` if the CRL's nextUpdate is before this time, else `Revoked` if the CRL has the
/// serial number.
///
/// # Not checked
///
/// Whether the CRL is the issuer's, and its signature.
pub fn said_by(list: &Crl, cert: &Cert, now: Time) -> Result<(), RevocationError>
    ensures { IsSaidBy now cert.now list.now result }
{
    if list.as_cert_list().is_stale(now) {
        return Err(RevocationError::Stale);
    }
    if revokes(list, cert) {
        return Err(RevocationError::Revoked);
    }
    Ok(())
}

impl<'l> RevocationSource for GivenLists<'l> {
    ghost use Rattle.rpki_path.specs.AskedLists.{by_named_lists};

    ghost asks = { λ given x. by_named_lists given.names x given.lists };

    fn ask<V: Verifier>(
        &self,
        cert: &Cert,
        issuer: &ResourceCert,
        strict: bool,
        now: Time,
        verifier: &V,
    ) -> Result<(), RevocationError> {
        let (lists, names) = (self.lists, self.names);
        let Some(list) = latest(lists, cert, issuer, names, now, verifier) else {
            return Err(why_none(lists, cert, issuer, names, strict, now, verifier));
        };
        if list.verify_issuer_claim(issuer, strict).is_err() {
            return Err(RevocationError::WrongKeyId);
        }
        said_by(list, cert, now)
    }
}
