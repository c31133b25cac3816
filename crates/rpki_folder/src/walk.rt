//! The walk down from a trust anchor.
ghost use Rattle.std.specs.Prelude.{◌≡◌, ◌+◌, ◌++◌, ◌∷◌, [], ◌<◌, ◌≤◌, ℕ, List, length, Contains, slice_index_or, Result, Ok, Err, IfOk, IfSome, IfErr, OnOk, IsTrue};
ghost use Rattle.std.specs.List.{AllByRecursion};
ghost use Rattle.std.proofs.Common.{rc_value};
ghost use Rattle.rpki_path.specs.LocatedPaths.{IsLocatedFault};
ghost use Rattle.rpki_path.specs.declared.path_fault.PathFault.TheVariants.{Memory};
ghost use Rattle.rpki_path.specs.NameChains.{IsSelfNamed};
ghost use Rattle.rpki_folder.specs.Folders.{IsOnce};
ghost use Rattle.rpki_folder.specs.IssuerLists.{AreIssuerLists};
ghost use Rattle.rpki_folder.specs.Walks.{Root, at_anchor, members_at, LeadsTo, IsValidAnchor, Told, told_at, StandsAt, IsLastOf, IsLookedAt, IsChildOf, TellsBelow, TellsFrom, IsWhyNone};
ghost use Rattle.rpki_folder.specs.Walks.Steps.{IsAtTop, AreJudged, IsNoChild, IsToldOf, WalksBelowEach, AreBelow};
ghost use Rattle.rpki_folder.specs.IssuerTables.{AreIssuersKept, IsKeptOf};
ghost use Rattle.rpki_folder.specs.LimitTables.{HasReached};
ghost use Rattle.rpki_folder.specs.ReachedLimits.{AreLimited, AreLimitedFrom, LimitedCa, ended_of, limited_ca};
ghost use Rattle.rpki_folder.specs.ReachedLimits.Steps.{AreCounted, KeepsBelow, KeepsBelowEach};
ghost use Rattle.rpki_folder.specs.WalkViews.{walk_view};
ghost use Rattle.rpki_folder.specs.declared.issuers.Issuer.{Issuer as Kept};
ghost use Rattle.rpki_folder.specs.declared.walk.Ca.{Ca};

use crate::admission::Admission;
use crate::bounds::{Bounds, Ended, Limit, Walked};
use crate::folder::Folder;
use crate::issuer_lists::IssuerLists;
use crate::issuers::Issuers;
use crate::limits::LimitTable;
use crate::share::Share;
use crate::visitor::Visitor;
use crate::walk_error::WalkError;
use rpki_cert::{ResourceCert, laws};
use rpki_der::Time;
use rpki_keys::tal::Tal;
use rpki_parts::{TalInfo, Verifier};
use rpki_path::revocation::NobodyAsked;
use rpki_path::{
    LocatedError, Member, PathError, PathFault, Validator, is_self_named, test_anchor,
};
use std::alloc::{AllocError, Global};
use std::rc::Rc;

/// A walk down through a folder: its files, its limits, its validation time and its checks.
#[derive(Drop)]
pub struct Walk<'w, A, V> {
    /// The allocator.
    pub alloc: Global,
    /// The certificates and the CRLs. Revocation is checked against these CRLs, as by
    /// [`rpki_path::revocation::GivenLists`].
    pub folder: &'w Folder,
    /// Decides which certificates the walk judges.
    pub admission: &'w A,
    /// The limits of depth and of steps.
    pub bounds: Bounds,
    /// Whether name chaining is checked (RFC 6487 7.2, RFC 5280 6.1.3 (a) (4)).
    pub names: bool,
    /// Whether the stricter profile is required; it affects only which string types names may have.
    pub strict: bool,
    /// The validation time.
    pub at: Time,
    /// The verifier of signatures.
    pub verifier: &'w V,
}

// Where a walk is: the places of the CAs above, from the top down; and the limits that it has reached.
#[derive(Drop)]
struct Trail {
    above: Vec<usize>,
    limits: LimitTable,
}

impl Trail {
    // Counts that the walk reached this limit at the last of the CAs above.
    fn reach(&mut self, limit: Limit)
        ensures above { self.new.above.items ≡ self.old.above.items }
        ensures counted { AreCounted self.old.limits (limited_ca self.old.above.items limit ∷ [])
            self.new.limits }
    {
        self.limits.reach(&self.above, limit);
    }

    // How the walk ended, with the limits that it reached.
    fn walked(self, ended: Result<Ended, AllocError>) -> Result<Walked, AllocError>
        ensures ended { ended_of result ≡ ended }
        ensures limits { IfOk result (λ walked. walked.limits ≡ self.limits) }
    {
        let Trail { above, limits } = self;
        drop(above);
        match ended {
            Ok(ended) => Ok(Walked { ended, limits }),
            Err(error) => {
                drop(limits);
                Err(error)
            }
        }
    }
}

// Children of an issuer, and the issuer's index in the table.
#[derive(Drop)]
struct Below {
    at: usize,
    children: Vec<usize>,
}

// A CA that was accepted, and its place.
#[derive(Drop)]
struct Ca {
    place: usize,
    holder: ResourceCert,
}

// An answer on the trust anchor, as one on the path.
fn at_top<T: Drop>(answer: Result<T, PathFault>) -> Result<T, LocatedError>
    ensures ok { IfOk result (λ r. answer ≡ Ok r) }
    ensures err { IfErr result (λ e. IsAtTop e answer) }
{
    match answer {
        Ok(value) => Ok(value),
        Err(fault) => Err(LocatedError::Path(PathError { index: 0, fault })),
    }
}

// The TAL's name, which is shared.
fn name_of(tal: &Tal) -> Result<Rc<TalInfo>, PathFault>
    ensures ok { IfOk result (λ info. rc_value info ≡ tal.now.name) }
    ensures memory { IfErr result (λ e. e ≡ Memory) }
{
    Ok(tal.info().clone()?)
}

impl<'w, A: Admission, V: Verifier> Walk<'w, A, V> {
    // Judges the issuer's children at these places, tells the verdicts, and returns the CAs that are
    // accepted.
    fn judge_children<W: Visitor>(
        &self,
        issuer: &ResourceCert,
        lists: &IssuerLists<'_>,
        above: &[usize],
        children: &[usize],
        visitor: &mut W,
    ) -> Result<Vec<Ca>, AllocError>
        requires inside { (place : ℕ) → Contains children.now place
            → place < length self.now.folder.now.certs }
        requires once { IsOnce children.now }
        requires children { let w = walk_view V.verifies A.admits self.now in
            (place : ℕ) → Contains children.now place
            → IsChildOf w.context.verifies issuer.now.cert w.folder.certs place }
        requires kept { let w = walk_view V.verifies A.admits self.now in
            AreIssuerLists w.names w.context w.folder.lists issuer.now.cert.fields lists.now }
        ensures { let w = walk_view V.verifies A.admits self.now in
            let certs = w.folder.certs in
            let among = λ (p : ℕ). Contains children.now p in
            (v : W) (ts : List Told) → W.became v ts visitor.old
            → (more : List Told) × W.became v (ts ++ more) visitor.new
            × (length more ≤ length children.now)
            × AllByRecursion (IsToldOf w.context w.asked issuer.now certs above.now among) more
            × IfOk result (λ cas.
            AreJudged w.context w.asked issuer.now certs above.now children.now cas.items more) }
    {
        laws::unambiguous();
        let mut cas = Vec::new(self.alloc);
        for &place in children {
            let next = self.judge(issuer, lists, above, place, true, visitor)?;
            let Some(holder) = next else {
                continue;
            };
            cas.push(Ca { place, holder })?;
        }
        Ok(cas)
    }

    // The issuer's children at which the walk looks, with the issuer's index in the table. The issuer
    // is the last of the CAs at these places. None if there is none: no certificate that is admitted
    // there is a child, or the issuer is of an entity that is above it already. What is wrong with
    // others that name its key is told. If no certificate names it, its CRLs aren't verified.
    fn look_below<W: Visitor>(
        &self,
        top: &ResourceCert,
        issuer: &ResourceCert,
        above: &[usize],
        issuers: &mut Issuers<'w>,
        visitor: &mut W,
    ) -> Result<Option<Below>, AllocError>
        requires inside { (place : ℕ) → Contains above.now place
            → place < length self.now.folder.now.certs }
        requires kept { let w = walk_view V.verifies A.admits self.now in
            AreIssuersKept w.names w.context w.folder issuers.old }
        requires last { let certs = self.now.folder.now.certs in
            IsLastOf top.now.cert certs above.now issuer.now.cert }
        ensures told { let w = walk_view V.verifies A.admits self.now in
            let certs = w.folder.certs in
            let looks = IsLookedAt w.names w.admits top.now.cert certs above.now in
            let others = IsNoChild w.context.verifies looks issuer.now.cert certs in
            (v : W) (ts : List Told) → W.became v ts visitor.old
            → (more : List Told) × W.became v (ts ++ more) visitor.new
            × AllByRecursion (IsToldOf w.context w.asked issuer.now certs above.now others) more }
        ensures kept { let w = walk_view V.verifies A.admits self.now in
            OnOk result (AreIssuersKept w.names w.context w.folder issuers.new) }
        ensures found { let w = walk_view V.verifies A.admits self.now in
            let certs = w.folder.certs in
            let looks = IsLookedAt w.names w.admits top.now.cert certs above.now in
            IfOk result (λ below. AreBelow w.context.verifies looks issuer.now.cert certs below) }
        ensures at { let w = walk_view V.verifies A.admits self.now in
            IfOk result (λ found. IfSome found (λ below. (below.at < length issuers.new.kept.items)
            × ((d : Kept) → IsKeptOf w.names w.context w.folder issuer.now.cert
            (slice_index_or issuers.new.kept.items below.at d)))) }
    {
        laws::unambiguous();
        let key = issuer.as_cert().as_tbs().subject_key_identifier();
        let places = self.folder.signed_by(&key);
        if places.is_empty() {
            return Ok(None);
        }
        let is_in_circle = self.is_in_circle(top, above, issuer)?;
        if is_in_circle {
            return Ok(None);
        }
        let at = self.enter(issuer, above, places, issuers, visitor)?;
        let kept = &issuers.kept[at];
        let children = self.admitted(above, &kept.children)?;
        if children.is_empty() {
            return Ok(None);
        }
        Ok(Some(Below { at, children }))
    }

    // The walk below each of these CAs, which stand below those on the trail, for this depth and
    // share. It began below the certificate at the top. The trail counts where it reached a limit.
    #[cycle(descend)]
    fn each_below<W: Visitor>(
        &self,
        top: &ResourceCert,
        cas: &[Ca],
        trail: &mut Trail,
        issuers: &mut Issuers<'w>,
        share: Share,
        depth: usize,
        visitor: &mut W,
    ) -> Result<Ended, AllocError>
        requires inside { (place : ℕ) → Contains trail.old.above.items place
            → place < length self.now.folder.now.certs }
        requires kept { let w = walk_view V.verifies A.admits self.now in
            AreIssuersKept w.names w.context w.folder issuers.old }
        requires stand { (ca : Ca) → Contains cas.now ca
            → StandsAt self.now.folder.now.certs ca.place ca.holder.cert }
        ensures tells { let w = walk_view V.verifies A.admits self.now in
            let certs = w.folder.certs in
            let admits = IsLookedAt w.names w.admits top.now.cert certs in
            (v : W) (ts : List Told) → W.became v ts visitor.old
            → (more : List Told) × W.became v (ts ++ more) visitor.new
            × WalksBelowEach w.context w.asked admits certs trail.old.above.items depth share.steps
            cas.now result more }
        ensures limits { let w = walk_view V.verifies A.admits self.now in
            let certs = w.folder.certs in
            let admits = IsLookedAt w.names w.admits top.now.cert certs in
            IfOk result (KeepsBelowEach w.context w.asked admits certs trail.old.above.items depth
            share cas.now trail.old.limits trail.new.limits) }
        ensures trail { OnOk result (trail.new.above.items ≡ trail.old.above.items) }
        ensures kept { let w = walk_view V.verifies A.admits self.now in
            OnOk result (AreIssuersKept w.names w.context w.folder issuers.new) }
    {
        laws::unambiguous();
        let mut ended = Ended::Whole;
        for ca in cas {
            trail.above.push(ca.place)?;
            let below = self.descend(top, &ca.holder, trail, issuers, share, depth, visitor);
            trail.above.pop();
            ended = ended.and(below?);
        }
        Ok(ended)
    }

    // The walk below an issuer, for this depth and share, which started below the certificate at
    // the top.
    #[cycle(descend)]
    fn descend<W: Visitor>(
        &self,
        top: &ResourceCert,
        issuer: &ResourceCert,
        trail: &mut Trail,
        issuers: &mut Issuers<'w>,
        share: Share,
        depth: usize,
        visitor: &mut W,
    ) -> Result<Ended, AllocError>
        requires inside { (place : ℕ) → Contains trail.old.above.items place
            → place < length self.now.folder.now.certs }
        requires kept { let w = walk_view V.verifies A.admits self.now in
            AreIssuersKept w.names w.context w.folder issuers.old }
        requires last { let certs = self.now.folder.now.certs in
            IsLastOf top.now.cert certs trail.old.above.items issuer.now.cert }
        ensures tells { let w = walk_view V.verifies A.admits self.now in
            let certs = w.folder.certs in
            let admits = IsLookedAt w.names w.admits top.now.cert certs in
            (v : W) (ts : List Told) → W.became v ts visitor.old
            → (more : List Told) × W.became v (ts ++ more) visitor.new
            × TellsBelow w.context w.asked admits issuer.now certs trail.old.above.items depth
            share.steps result more }
        ensures limits { let w = walk_view V.verifies A.admits self.now in
            let certs = w.folder.certs in
            let admits = IsLookedAt w.names w.admits top.now.cert certs in
            IfOk result (KeepsBelow w.context w.asked admits issuer.now certs trail.old.above.items
            depth share trail.old.limits trail.new.limits) }
        ensures trail { OnOk result (trail.new.above.items ≡ trail.old.above.items) }
        ensures kept { let w = walk_view V.verifies A.admits self.now in
            OnOk result (AreIssuersKept w.names w.context w.folder issuers.new) }
    {
        laws::unambiguous();
        let found = self.look_below(top, issuer, &trail.above, issuers, visitor)?;
        let Some(below) = found else {
            return Ok(Ended::Whole);
        };
        let Below { at, children } = below;
        if depth == 0 {
            trail.reach(Limit::Depth);
            return Ok(Ended::TooDeep);
        }
        if children.len() > share.steps {
            trail.reach(Limit::Steps(share.needed(children.len())));
            return Ok(Ended::OutOfSteps);
        }
        let lists = &issuers.kept[at].lists;
        let cas = self.judge_children(issuer, lists, &trail.above, &children, visitor)?;
        if cas.is_empty() {
            return Ok(Ended::Whole);
        }
        let next = share.below(children.len(), cas.len());
        self.each_below(top, &cas, trail, issuers, next, depth - 1, visitor)
    }

    /// Walks below an issuer that was validated before, and calls the visitor with each verdict.
    /// Returns how the walk ended: every certificate was judged, or which limit was reached; and the
    /// limits that it reached, by certificates. Those at the issuer itself are kept at the place
    /// `start`, which is its place in the folder. If the folder doesn't have it, `start` is the number
    /// of the folder's certificates.
    ///
    /// The walk judges a certificate of the folder below an accepted CA if
    ///
    /// - its authority key identifier is that of the CA's key (RFC 5280 4.2.1.1)
    /// - its issuer is the CA's subject, if names are checked
    /// - it is admitted there ([`Admission`])
    ///
    /// It is judged as the kind that it says ([`rpki_cert::said_kind`]). The verdict is that of
    /// [`rpki_path::judge`] on the path that leads to it, with the folder's CRLs. Certificates of
    /// one key, such as renewals, are each judged, and so are the certificates below each of them.
    /// The walk doesn't go below an entity a second time, because every such path would be a
    /// circle; nothing is lost by that ([`crate::laws::nothing_is_lost`]).
    ///
    /// # Errors
    ///
    /// Returns an error only if memory runs out. The verdicts before it are right.
    ///
    /// # Not checked
    ///
    /// Whether the issuer is valid, and manifests.
    pub fn below<W: Visitor>(
        &self,
        issuer: &ResourceCert,
        start: usize,
        visitor: &mut W,
    ) -> Result<Walked, AllocError>
        ensures tells { let w = walk_view V.verifies A.admits self.now in
            let certs = w.folder.certs in
            let admits = IsLookedAt w.names w.admits issuer.now.cert certs in
            (more : List Told) × W.became visitor.old more visitor.new
            × TellsBelow w.context w.asked admits issuer.now certs [] w.bounds.depth w.bounds.steps
            (ended_of result) more }
        // It counts each CA at which it reached a limit, and no other.
        ensures limits { let w = walk_view V.verifies A.admits self.now in
            let certs = w.folder.certs in
            let admits = IsLookedAt w.names w.admits issuer.now.cert certs in
            IfOk result (λ walked. (limited : List LimitedCa)
            × HasReached start (length certs) limited walked
            × ((root : Root) → LeadsTo w.context w.asked root (members_at root certs []) issuer.now
            → AreLimited w.context w.asked admits root certs w.bounds.depth w.bounds.steps
            limited)) }
    {
        let limits = LimitTable::new(self.alloc, start, self.folder.certs().len())?;
        let mut trail = Trail {
            above: Vec::new(self.alloc),
            limits,
        };
        let mut issuers = Issuers::new(self.alloc);
        let bounds = self.bounds;
        let ended = self.descend(
            issuer,
            issuer,
            &mut trail,
            &mut issuers,
            Share::whole(bounds.steps),
            bounds.depth,
            visitor,
        );
        drop(issuers);
        trail.walked(ended)
    }

    // The trust anchor with its resources; it has to have the TAL's key and to list a number.
    fn validated_anchor(&self, tal: &Tal, anchor: &Member<'_>) -> Result<ResourceCert, LocatedError>
        ensures ok { let w = walk_view V.verifies A.admits self.now in
            IfOk result (LeadsTo w.context w.asked (at_anchor tal.now anchor.now) []) }
        ensures fault { let w = walk_view V.verifies A.admits self.now in
            IfErr result (IsLocatedFault w.context w.asked tal.now.tal anchor.now []) }
    {
        laws::unambiguous();
        test_anchor(self.alloc, anchor, tal)?;
        let validator = Validator {
            alloc: self.alloc,
            asked: &NobodyAsked,
            strict: self.strict,
            at: self.at,
            verifier: self.verifier,
        };
        let name = at_top(name_of(tal))?;
        at_top(validator.trust_anchor(anchor, name))
    }

    /// Validates the trust anchor, and returns it with the resources that it holds. It has to have
    /// the TAL's key (RFC 8630 3) and to list an IP address or an AS number (RFC 8630 2.3). If
    /// names are checked, its issuer has to be its own subject (RFC 8630 2.3).
    ///
    /// # Errors
    ///
    /// Returns [`WalkError::Anchor`] or [`WalkError::OtherName`] if the trust anchor isn't valid,
    /// and [`WalkError::Memory`] if memory runs out.
    ///
    /// # Not checked
    ///
    /// Whether the trust anchor is revoked: no CRL is above it.
    pub fn trust_anchor(&self, tal: &Tal, anchor: &Member<'_>) -> Result<ResourceCert, WalkError>
        ensures ok { let w = walk_view V.verifies A.admits self.now in
            IfOk result (LeadsTo w.context w.asked (at_anchor tal.now anchor.now) []) }
        ensures named { IfOk result (λ r. IsTrue self.now.names → IsSelfNamed r.cert) }
        ensures fault { let w = walk_view V.verifies A.admits self.now in
            IfErr result (IsWhyNone w.context w.asked w.names tal.now anchor.now) }
    {
        let issuer = self.validated_anchor(tal, anchor)?;
        if self.names && !is_self_named(issuer.as_cert()) {
            drop(issuer);
            return Err(WalkError::OtherName);
        }
        Ok(issuer)
    }

    /// Walks down from the trust anchor of a TAL: validates it ([`Walk::trust_anchor`]), and walks
    /// below it ([`Walk::below`]). The visitor isn't called for the trust anchor itself. The limits at
    /// it are kept behind those at the folder's places ([`LimitTable::at_start`]).
    ///
    /// # Errors
    ///
    /// Returns [`WalkError::Anchor`] or [`WalkError::OtherName`] if the trust anchor isn't valid;
    /// the visitor wasn't called then. Returns [`WalkError::Memory`] if memory runs out; the
    /// verdicts before it are right.
    ///
    /// # Not checked
    ///
    /// Whether the folder has all certificates and CRLs of the repository, and whether manifests
    /// list them ([`Admission`] can restrict the walk to those that are listed).
    pub fn from_anchor<W: Visitor>(
        &self,
        tal: &Tal,
        anchor: &Member<'_>,
        visitor: &mut W,
    ) -> Result<Walked, WalkError>
        // Each verdict is right, and the walk judged each path that its end covers.
        ensures tells { let w = walk_view V.verifies A.admits self.now in
            (more : List Told) × W.became visitor.old more visitor.new
            × TellsFrom w.context w.asked w.names w.admits tal.now anchor.now w.folder.certs
            w.bounds.depth w.bounds.steps (ended_of result) more }
        // It counts each CA at which it reached a limit, and no other.
        ensures limits { let w = walk_view V.verifies A.admits self.now in
            let certs = w.folder.certs in
            IfOk result (λ walked. (limited : List LimitedCa)
            × HasReached (length certs) (length certs) limited walked
            × AreLimitedFrom w.context w.asked w.names w.admits tal.now anchor.now certs
            w.bounds.depth w.bounds.steps limited) }
        // It starts at a valid trust anchor.
        ensures anchor { let w = walk_view V.verifies A.admits self.now in
            IfOk result (λ _. IsValidAnchor w.context w.asked w.names tal.now anchor.now) }
        // The error is one of the trust anchor.
        ensures fault { let w = walk_view V.verifies A.admits self.now in
            IfErr result (IsWhyNone w.context w.asked w.names tal.now anchor.now) }
    {
        laws::unambiguous();
        let issuer = self.trust_anchor(tal, anchor)?;
        let walked = self.below(&issuer, self.folder.certs().len(), visitor);
        drop(issuer);
        Ok(walked?)
    }
}
