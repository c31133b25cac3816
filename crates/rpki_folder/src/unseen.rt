//! Why there is no verdict on a certificate: the status of its issuer.
ghost use Rattle.std.specs.Prelude.{◌≡◌, ◌↔◌, ◌+◌, ◌<◌, ◌^◌, ℕ, List, length, IsTrue, OnOk, option_copied};
ghost use Rattle.std.specs.BTreeMap.{get};
ghost use Rattle.std.specs.Cmp.Lexicographic.{slice_cmp};
ghost use Rattle.std.specs.Ordering.{nat_cmp};
ghost use Rattle.rpki_cert.specs.SaidKinds.{BeginsWithSaid};
ghost use Rattle.rpki_folder.specs.Folders.{string_at};
ghost use Rattle.rpki_folder.specs.UnseenCertificates.{AreIssuersAmong, IsWhyUnseen, IsBetter, accepted_status, is_ca, looked_below, paths_by, status_rank, status_of, why_below};
ghost use Rattle.rpki_folder.specs.declared.unseen.IssuerStatus.{IssuerStatus};

use crate::bounds::Limit;
use crate::limits::Reached;
use crate::lines::Line;
use rpki_cert::{Said, laws};
use rpki_path::Judged;
use std::alloc::{AllocError, Global};
use std::collections::BTreeMap;

/// The status of a certificate as an issuer, the best first.
#[derive(Clone, Copy)]
pub enum IssuerStatus {
    /// It is the trust anchor or an accepted CA, at which a walk reached this limit on each path to
    /// it.
    Limited(Limit),
    /// It is the trust anchor or an accepted CA, below which a walk looked.
    LookedBelow,
    /// It is rejected.
    Rejected,
    /// It is accepted, and isn't a CA.
    NotCa,
    /// There is no verdict on it.
    Unseen,
}

/// Why there is no verdict on a certificate. A place is that of its issuer: of the certificate whose
/// key it names as its signer's.
#[derive(Clone, Copy, Debug, PartialEq, Eq)]
pub enum Unseen {
    /// It names no key, or no certificate here has the key.
    NoIssuer,
    /// The issuer is an accepted CA, and didn't issue it: it has another name, or its key didn't sign
    /// the certificate.
    NotBelow(usize),
    /// The issuer is accepted, and isn't a CA.
    NotCa(usize),
    /// The issuer is an accepted CA at which this limit was reached.
    NotLookedAt(usize, Limit),
    /// The issuer is rejected.
    BelowRejected(usize),
    /// There is no verdict on the issuer either.
    BelowUnseen(usize),
}

/// The place of a certificate, and its status as an issuer.
#[derive(Clone, Copy)]
pub struct KnownIssuer {
    pub place: usize,
    pub status: IssuerStatus,
}

/// The issuers among certificates, by the identifiers of their keys: of the certificates that have a
/// key one of the best status, and of several such the first.
#[derive(Drop)]
pub struct IssuersByKey {
    pub(crate) issuers: BTreeMap<[u8; 20], KnownIssuer>,
}

// Whether the certificate was accepted as a CA's.
fn is_ca(judged: &Judged) -> bool
    ensures { result ≡ is_ca judged.now }
{
    let is_ca = judged.holder.as_cert().as_tbs().basic_ca().unwrap_or(false);
    is_ca && judged.router.is_none()
}

// How many paths lead to a CA by its line: how many are kept, and how many are counted.
fn paths_by(line: Option<&Line>) -> (usize, usize)
    ensures paths { result.0 + result.1 ≡ paths_by (option_copied line.entry) }
    ensures kept { result.0 < 2 ^ 63 + 1 }
    ensures more { result.0 ≡ 0 → result.1 ≡ 0 }
{
    match line {
        Some(Line::Accepted(paths)) => {
            if is_ca(&paths.first.judged) {
                return (paths.others.len() + 1, paths.more);
            }
            (0, 0)
        }
        Some(Line::Rejected(..)) | Some(Line::Unseen) | None => (0, 0),
    }
}

/// Returns whether a walk looked below a CA on some path to it, by the CA's line and the limits that the
/// walk reached at it. One path more leads to the trust anchor than its line has.
pub fn is_looked_below(is_anchor: bool, line: Option<&Line>, reached: Reached) -> bool
    ensures { result ≡ looked_below is_anchor (option_copied line.entry) reached }
{
    let (kept, more) = paths_by(line);
    reached.paths.saturating_sub(more) < usize::from(is_anchor) + kept
}

impl IssuerStatus {
    /// Returns the status of the trust anchor or an accepted certificate, by whether a walk looked
    /// below it, and by the limit that was reached at it.
    pub fn of_accepted(is_looked_below: bool, limit: Option<Limit>) -> IssuerStatus
        ensures { result ≡ accepted_status is_looked_below limit }
    {
        match (is_looked_below, limit) {
            (true, _) => IssuerStatus::LookedBelow,
            (false, Some(limit)) => IssuerStatus::Limited(limit),
            (false, None) => IssuerStatus::NotCa,
        }
    }

    /// Returns the status of a certificate after a walk: of the trust anchor, or of another one by its
    /// line, and by the limits that the walk reached at it.
    pub fn of(is_anchor: bool, line: Option<&Line>, reached: Reached) -> IssuerStatus
        ensures { result ≡ status_of is_anchor (option_copied line.entry) reached }
    {
        let is_looked_below = is_looked_below(is_anchor, line, reached);
        if is_anchor {
            return IssuerStatus::of_accepted(is_looked_below, reached.least());
        }
        match line {
            Some(Line::Accepted(_)) => IssuerStatus::of_accepted(is_looked_below, reached.least()),
            Some(Line::Rejected(..)) => IssuerStatus::Rejected,
            Some(Line::Unseen) | None => IssuerStatus::Unseen,
        }
    }

    // The rank of the status; the least is best.
    fn rank(self) -> u8
        ensures { result ≡ status_rank self }
    {
        match self {
            IssuerStatus::Limited(_) => 0,
            IssuerStatus::LookedBelow => 1,
            IssuerStatus::Rejected => 2,
            IssuerStatus::NotCa => 3,
            IssuerStatus::Unseen => 4,
        }
    }
}

impl KnownIssuer {
    // Why there is no verdict on a certificate with this issuer.
    fn why(self) -> Unseen
        ensures { result ≡ why_below self }
    {
        match self.status {
            IssuerStatus::Limited(limit) => Unseen::NotLookedAt(self.place, limit),
            IssuerStatus::LookedBelow => Unseen::NotBelow(self.place),
            IssuerStatus::Rejected => Unseen::BelowRejected(self.place),
            IssuerStatus::NotCa => Unseen::NotCa(self.place),
            IssuerStatus::Unseen => Unseen::BelowUnseen(self.place),
        }
    }
}

// Whether the status is better than that of a certificate of the same key before.
fn is_better(before: Option<&KnownIssuer>, status: IssuerStatus) -> bool
    ensures { IsTrue result ↔ IsBetter (option_copied before.entry) status }
{
    match before {
        Some(before) => status.rank() < before.status.rank(),
        None => true,
    }
}

impl IssuersByKey {
    /// Makes a table of no certificates.
    pub fn new(alloc: Global) -> IssuersByKey
        ensures { (certs : List (List ℕ)) (statuses : ℕ → IssuerStatus)
            → AreIssuersAmong certs statuses 0 result }
    {
        IssuersByKey {
            issuers: BTreeMap::new(alloc),
        }
    }

    /// Adds a certificate, the next in the order of places, by what it says and by its status.
    ///
    /// # Errors
    ///
    /// Returns an error only if memory runs out.
    pub fn add(&mut self, place: usize, said: Said, status: IssuerStatus) -> Result<(), AllocError>
        ensures { OnOk result ((certs : List (List ℕ)) (statuses : ℕ → IssuerStatus)
            → BeginsWithSaid said (string_at certs place) → statuses place ≡ status
            → AreIssuersAmong certs statuses place self.old
            → AreIssuersAmong certs statuses (place + 1) self.new) }
    {
        laws::unambiguous();
        if is_better(self.issuers.get(said.key.as_octets()), status) {
            let issuer = KnownIssuer { place, status };
            return match self.issuers.insert(*said.key.as_octets(), issuer) {
                Ok(_) => Ok(()),
                Err(_) => Err(AllocError),
            };
        }
        Ok(())
    }

    /// Returns why there is no verdict on a certificate that says this.
    pub fn why_unseen(&self, said: Said) -> Unseen
        ensures { (certs : List (List ℕ)) (statuses : ℕ → IssuerStatus) (octets : List ℕ)
            → BeginsWithSaid said octets → AreIssuersAmong certs statuses (length certs) self.now
            → IsWhyUnseen certs statuses octets result }
    {
        laws::unambiguous();
        let Some(key) = said.signer else {
            return Unseen::NoIssuer;
        };
        match self.issuers.get(key.as_octets()) {
            Some(issuer) => issuer.why(),
            None => Unseen::NoIssuer,
        }
    }
}
