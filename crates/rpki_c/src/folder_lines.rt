//! The lines with the results for a directory's strings.
ghost use Rattle.std.specs.Prelude.{◌≡◌};
ghost use Rattle.rpki_c.specs.FolderLimits.{TellsReached, but_for_limits};
ghost use Rattle.rpki_c.specs.FolderTelling.{plain_line, rejected_line};
ghost use Rattle.rpki_c.specs.HeldRanges.{no_ranges_held};
ghost use Rattle.rpki_c.specs.Questions.{kind_number as number_of};

use crate::faults::{BAD_KEY, NONE, of_path};
use crate::judging::has_key_asked;
use crate::limits::{limits_number, needed_number};
use crate::ranges::{Ranges, RpkiHeld};
use crate::sorting::Sorted;
use rpki_cert::{Kind, Said};
use rpki_folder::{
    Added, Firsts, FoundPath, IssuerStatus, IssuersByKey, LimitTable, Line, Reached, Unseen,
};
use std::alloc::{AllocError, Global};

/// The result for a string.
#[repr(C)]
#[derive(Clone, Copy)]
pub struct RpkiLine {
    /// 1 the trust anchor, 2 accepted, 3 rejected, 4 a CRL, 5 neither. Without a verdict: 0 no issuer,
    /// 6 not issued by the issuer, 7 the issuer isn't a CA, 8 a limit was reached at the issuer, 9 the
    /// issuer is rejected, 10 it has no verdict either.
    pub what: u32,
    /// The number of the error, if the certificate is rejected.
    pub fault: u32,
    /// How many certificates of the path are above it, if it is accepted or rejected.
    pub step: u64,
    /// The index of the issuer's string, if it is accepted, or has an issuer and no verdict.
    pub issuer: u64,
    /// The kind as which it was judged, if it is accepted or rejected: 1 a CA, 2 an end entity, 3 a
    /// detached end entity, 4 a router.
    pub kind: u32,
    /// The limits that the walk reached at it, on any path to it: 1 the depth, 2 its share of the
    /// steps, 3 both.
    pub limits: u32,
    /// What it holds, if it is accepted; for a router, what the CA above it holds.
    pub held: RpkiHeld,
    /// The least number of steps with which its children are judged on a path on which its share was
    /// too small; 0 if there is no such path, or no number is known.
    pub needed: u64,
}

/// The lines of a folder's strings, and the ranges that the accepted certificates hold.
#[derive(Drop)]
pub(crate) struct ToldLines {
    pub(crate) lines: Vec<RpkiLine>,
    pub(crate) ranges: Ranges,
}

const NO_ISSUER: u32 = 0;

const ANCHOR: u32 = 1;

const ACCEPTED: u32 = 2;

const REJECTED: u32 = 3;

const LIST: u32 = 4;

const NEITHER: u32 = 5;

const NOT_ISSUED: u32 = 6;

const ISSUER_NOT_CA: u32 = 7;

const NOT_LOOKED_AT: u32 = 8;

const BELOW_REJECTED: u32 = 9;

const BELOW_UNSEEN: u32 = 10;

fn kind_number(kind: Kind) -> u32
    ensures { result ≡ number_of kind }
{
    match kind {
        Kind::Anchor => 0,
        Kind::Authority => 1,
        Kind::EndEntity => 2,
        Kind::Detached => 3,
        Kind::Router => 4,
    }
}

fn nothing() -> RpkiHeld
    ensures { result ≡ no_ranges_held }
{
    RpkiHeld {
        v4: 0,
        v6: 0,
        asn: 0,
        v4_at: 0,
        v6_at: 0,
        asn_at: 0,
    }
}

// The line of a certificate that is judged as one of the kind of this number, and rejected at a step,
// by a fault of this number.
fn rejected(kind: u32, step: usize, fault: u32) -> RpkiLine
    ensures { result ≡ rejected_line kind step fault }
{
    RpkiLine {
        what: REJECTED,
        fault,
        step: step as u64,
        issuer: 0,
        kind,
        limits: 0,
        held: nothing(),
        needed: 0,
    }
}

// A line of which no more is told than what it is.
fn plain(what: u32) -> RpkiLine
    ensures { result ≡ plain_line what }
{
    RpkiLine {
        what,
        fault: NONE,
        step: 0,
        issuer: 0,
        kind: 0,
        limits: 0,
        held: nothing(),
        needed: 0,
    }
}

// The line with the limits that were reached at its certificate.
fn with_limits(line: RpkiLine, reached: Reached) -> RpkiLine
    ensures line { but_for_limits result ≡ but_for_limits line }
    ensures limits { TellsReached reached result }
{
    RpkiLine {
        limits: limits_number(reached),
        needed: needed_number(reached),
        ..line
    }
}

/// The lines that a walk below a trust anchor kept, through each certificate of sorted strings at its
/// first place.
#[derive(Clone, Copy)]
pub(crate) struct WalkLines<'w, 's> {
    pub(crate) sorted: &'w Sorted<'s>,
    pub(crate) firsts: &'w Firsts,
    /// The line of each place.
    pub(crate) kept: &'w [Line],
    /// The limits that were reached at each first place.
    pub(crate) limits: &'w LimitTable,
    /// The place of the trust anchor.
    pub(crate) anchor: usize,
}

impl<'s> Sorted<'s> {
    ghost use Rattle.std.specs.Prelude.{◌≡◌, ◌<◌, length, map, IfOk, OnOk};
    ghost use Rattle.rpki_cert.specs.SaidKinds.{BeginsWithSaid};
    ghost use Rattle.rpki_folder.specs.Folders.{string_at};
    ghost use Rattle.rpki_c.specs.FolderFates.{moved, origin_of};
    ghost use Rattle.rpki_c.specs.FolderTelling.{issuer_of, unseen_line, IsAcceptedLine, IsKindSaid};
    ghost use Rattle.rpki_c.specs.HeldRanges.{HaveGrown};

    // The place of the issuer's string, below the CAs at these places of the folder.
    fn issuer(&self, above: &[usize], anchor: usize) -> usize
        ensures { result ≡ issuer_of anchor (map (origin_of self.now) above.now) }
    {
        match above.last() {
            Some(&place) => self.origin(place),
            None => anchor,
        }
    }

    // What the certificate at a place of the folder says.
    fn said(&self, at: usize) -> Said
        requires { at < length self.now.folder.certs }
        ensures { BeginsWithSaid result (string_at self.now.folder.certs at) }
    {
        self.folder.certs()[at].said()
    }

    // The number of the kind as which the certificate at a place of the folder is judged.
    fn kind(&self, at: usize) -> u32
        requires { at < length self.now.folder.certs }
        ensures { IsKindSaid (string_at self.now.folder.certs at) result }
    {
        kind_number(self.said(at).kind)
    }

    // The line of a certificate without a verdict.
    fn unseen(&self, why: Unseen) -> RpkiLine
        ensures { result ≡ unseen_line (moved (origin_of self.now) why) }
    {
        let (what, place) = match why {
            Unseen::NoIssuer => (NO_ISSUER, None),
            Unseen::NotBelow(place) => (NOT_ISSUED, Some(place)),
            Unseen::NotCa(place) => (ISSUER_NOT_CA, Some(place)),
            Unseen::NotLookedAt(place, _) => (NOT_LOOKED_AT, Some(place)),
            Unseen::BelowRejected(place) => (BELOW_REJECTED, Some(place)),
            Unseen::BelowUnseen(place) => (BELOW_UNSEEN, Some(place)),
        };
        let issuer = match place {
            Some(place) => self.origin(place),
            None => 0,
        };
        RpkiLine {
            issuer: issuer as u64,
            ..plain(what)
        }
    }

    // The line of a certificate that is judged as one of the kind of this number, and to which this
    // path leads; what it holds is added to the ranges.
    #[tactic(auto, using(crate::proofs::HeldLines::not_grown))]
    fn accepted(
        &self,
        kind: u32,
        path: &FoundPath,
        anchor: usize,
        asks_key: bool,
        ranges: &mut Ranges,
    ) -> Result<RpkiLine, AllocError>
        ensures line { let above = map (origin_of self.now) path.now.above.items in
            IfOk result (IsAcceptedLine asks_key kind anchor above path.now.judged ranges.new) }
        ensures grown { OnOk result (HaveGrown ranges.old ranges.new) }
    {
        let step = path.above.len() + 1;
        if !has_key_asked(&path.judged, asks_key) {
            return Ok(rejected(kind, step, BAD_KEY));
        }
        let held = ranges.add(&path.judged.holder)?;
        Ok(RpkiLine {
            what: ACCEPTED,
            fault: NONE,
            step: step as u64,
            issuer: self.issuer(&path.above, anchor) as u64,
            kind,
            limits: 0,
            held,
            needed: 0,
        })
    }
}

impl<'w, 's> WalkLines<'w, 's> {
    ghost use Rattle.std.specs.Prelude.{◌≡◌, ◌<◌, length, IfOk, IsTrue, OnOk};
    ghost use Rattle.rpki_folder.specs.Folders.{string_at};
    ghost use Rattle.rpki_folder.specs.UnseenCertificates.{AreIssuersAmong};
    ghost use Rattle.rpki_c.specs.FolderFates.{AreCertIssuers, IsCertWhy, IsSorted, cert_fate, cert_reached, cert_status, kept_fate, origin_of, seen};
    ghost use Rattle.rpki_c.specs.FolderTelling.{AreLinesOf, IsFateLine, IsLineAt, unseen_line};
    ghost use Rattle.rpki_folder.specs.declared.unseen.Unseen.{Unseen};
    ghost use Rattle.rpki_c.specs.HeldRanges.{HaveGrown};

    // The status of the certificate at a place of the folder as an issuer.
    fn status(&self, at: usize) -> IssuerStatus
        ensures { result ≡ cert_status (seen self.now) at }
    {
        let first = self.firsts.first_of(at);
        let is_anchor = first == self.firsts.first_of(self.anchor);
        IssuerStatus::of(is_anchor, self.kept.get(first), self.limits.at(first))
    }

    // The issuers among the certificates of the folder.
    fn issuers(&self, alloc: Global) -> Result<IssuersByKey, AllocError>
        ensures { IfOk result (AreCertIssuers (seen self.now)) }
    {
        let mut issuers = IssuersByKey::new(alloc);
        for at in 0..self.sorted.folder.certs().len() {
            issuers.add(at, self.sorted.said(at), self.status(at))?;
        }
        Ok(issuers)
    }

    // The line of the certificate at a place of the folder, on which there is no verdict.
    fn unseen(&self, issuers: &IssuersByKey, at: usize) -> RpkiLine
        requires issuers { AreCertIssuers (seen self.now) issuers.now }
        requires inside { at < length self.now.sorted.now.folder.certs }
        ensures { (why : Unseen) × IsCertWhy (seen self.now) at why × (result ≡ unseen_line why) }
    {
        let why = issuers.why_unseen(self.sorted.said(at));
        self.sorted.unseen(why)
    }

    // The line of the certificate at a place of the folder, of which this is kept.
    #[tactic(auto, using(crate::proofs::HeldLines::not_grown))]
    fn kept_line(
        &self,
        issuers: &IssuersByKey,
        at: usize,
        kept: &Line,
        asks_key: bool,
        ranges: &mut Ranges,
    ) -> Result<RpkiLine, AllocError>
        requires issuers { AreCertIssuers (seen self.now) issuers.now }
        requires inside { at < length self.now.sorted.now.folder.certs }
        ensures line { let sorted = self.now.sorted.now in
            let octets = string_at sorted.folder.certs at in
            let top = origin_of sorted self.now.anchor in
            IfOk result (IsFateLine asks_key top octets (IsCertWhy (seen self.now) at)
            (kept_fate (origin_of sorted) kept.now) ranges.new) }
        ensures grown { OnOk result (HaveGrown ranges.old ranges.new) }
    {
        let kind = self.sorted.kind(at);
        let top = self.sorted.origin(self.anchor);
        match kept {
            Line::Accepted(paths) => {
                self.sorted
                    .accepted(kind, &paths.first, top, asks_key, ranges)
            }
            Line::Rejected(step, fault) => Ok(rejected(kind, *step, of_path(fault))),
            Line::Unseen => Ok(self.unseen(issuers, at)),
        }
    }

    // The line of the certificate at a place of the folder: that of its first place.
    #[tactic(auto, using(crate::proofs::HeldLines::not_grown))]
    fn cert_line(
        &self,
        issuers: &IssuersByKey,
        at: usize,
        asks_key: bool,
        ranges: &mut Ranges,
    ) -> Result<RpkiLine, AllocError>
        requires issuers { AreCertIssuers (seen self.now) issuers.now }
        requires inside { at < length self.now.sorted.now.folder.certs }
        ensures line { let sorted = self.now.sorted.now in
            let octets = string_at sorted.folder.certs at in
            let top = origin_of sorted self.now.anchor in
            IfOk result (IsFateLine asks_key top octets (IsCertWhy (seen self.now) at)
            (cert_fate (seen self.now) at) ranges.new) }
        ensures grown { OnOk result (HaveGrown ranges.old ranges.new) }
    {
        let first = self.firsts.first_of(at);
        if first == self.firsts.first_of(self.anchor) {
            return Ok(plain(ANCHOR));
        }
        match self.kept.get(first) {
            Some(kept) => self.kept_line(issuers, at, kept, asks_key, ranges),
            None => Ok(self.unseen(issuers, at)),
        }
    }

    // The limits that were reached at the certificate at a place of the folder.
    fn reached(&self, at: usize) -> Reached
        ensures { result ≡ cert_reached (seen self.now) at }
    {
        self.limits.at(self.firsts.first_of(at))
    }

    // The line of the string at a place.
    #[tactic(auto, using(crate::proofs::HeldLines::not_grown))]
    fn line_at(
        &self,
        issuers: &IssuersByKey,
        asks_key: bool,
        place: usize,
        ranges: &mut Ranges,
    ) -> Result<RpkiLine, AllocError>
        requires sorted { IsSorted self.now.sorted.now }
        requires issuers { AreCertIssuers (seen self.now) issuers.now }
        requires inside { place < length self.now.sorted.now.strings.now }
        ensures line { IfOk result (IsLineAt asks_key (seen self.now) place ranges.new) }
        ensures grown { OnOk result (HaveGrown ranges.old ranges.new) }
    {
        match self.sorted.added[place] {
            Added::Certificate(at) => {
                let line = self.cert_line(issuers, at, asks_key, ranges)?;
                Ok(with_limits(line, self.reached(at)))
            }
            Added::List => Ok(plain(LIST)),
            Added::Neither => Ok(plain(NEITHER)),
        }
    }

    /// Returns the line of each string.
    pub(crate) fn told(&self, alloc: Global, asks_key: bool) -> Result<ToldLines, AllocError>
        requires { IsSorted self.now.sorted.now }
        ensures { let count = length self.now.sorted.now.strings.now in
            IfOk result (AreLinesOf asks_key (seen self.now) count) }
    {
        let issuers = self.issuers(alloc)?;
        let mut lines = Vec::new(alloc);
        let mut ranges = Ranges::new(alloc);
        for place in 0..self.sorted.strings.len() {
            let line = self.line_at(&issuers, asks_key, place, &mut ranges)?;
            lines.push(line)?;
        }
        Ok(ToldLines { lines, ranges })
    }
}
