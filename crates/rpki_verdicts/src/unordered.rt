//! Files in any order: the trust anchor among them, and the verdict on every certificate below it,
//! with real signatures and with the CRLs among them.
ghost use Rattle.std.specs.List.{AllByRecursion, AllZip};
ghost use Rattle.std.specs.Prelude.{◌≡◌, ◌<◌, ◌++◌, ◌∷◌, [], true, List, length, map, option_copied, IfOk, Ok, OnOk};
ghost use Rattle.rpki_path.specs.AskedLists.{by_named_lists};
ghost use Rattle.rpki_folder.specs.FirstPlaces.{IsFirstIn};
ghost use Rattle.rpki_folder.specs.Folders.{with_cert, with_list};
ghost use Rattle.rpki_folder.specs.FoundAnchors.{IsFound};
ghost use Rattle.rpki_crl.specs.Lists.{CrlState, IsCertificateList};
ghost use Rattle.rpki_keys.specs.RsaSignatures.{IsSignedByRsa};
ghost use Rattle.rpki_folder.specs.LimitTables.{HasReached};
ghost use Rattle.rpki_folder.specs.ReachedLimits.{AreLimited, LimitedCa, ended_of};
ghost use Rattle.rpki_cert.specs.SaidKinds.{BeginsWithSaid};
ghost use Rattle.rpki_cert.specs.Verification.{context};
ghost use Rattle.rpki_folder.specs.Walks.{IsLookedAt, LeadsTo, Root, Told, TellsBelow, members_at};
ghost use Rattle.rpki_files.specs.Contents.{IsList};
ghost use Rattle.rpki_files.specs.Files.{FileFields};
ghost use Rattle.rpki_verdicts.specs.GivenLocators.{LocatorFields};
ghost use Rattle.rpki_verdicts.specs.NamedPaths.Steps.{BecameNamed};
ghost use Rattle.rpki_verdicts.specs.ShownPaths.{named_in};
ghost use Rattle.rpki_verdicts.specs.Trees.{asked_of, IsAnchorReason, IsFolderOf, IsTreeAnswer, is_anchor_at, line_at, reached_in};
ghost use Rattle.rpki_verdicts.specs.Trees.Steps.{IsCandidateTold};

use crate::locators::GivenLocator;
use crate::named_paths::NamedLines;
use crate::path::{Fault, no_resources, other_key, other_name, with_table};
use crate::reasons::of_path;
use rpki_cert::{ResourceCert, Said, laws};
use rpki_crl::Crl;
use rpki_der::Time;
use rpki_files::{BareObject, Front};
use rpki_folder::{
    Admission, AllAdmitted, Bounds, Ended, Firsts, Folder, FoundAnchor, FoundPath, LimitTable,
    Line, Lines, Reached, Walk, WalkError, Walked, WrongCandidate,
};
use rpki_keys::RsaVerifier;
use rpki_keys::tal::Tal;
use rpki_path::LocatedError;
use std::alloc::{AllocError, Global};
use std::collections::BTreeMap;

/// A question about files in any order: the files, the TALs, the directory that is named, whether
/// names are checked, the mode, the validation time, the most certificates of a path below the trust
/// anchor, and the most steps of a walk below each trust anchor.
#[derive(Drop)]
pub struct TreeQuestion<'q, 'n> {
    pub files: &'q [BareObject<'n>],
    pub locators: &'q [GivenLocator<'n>],
    /// The path with which the names of files in a cache begin, with a `/` at its end; empty if the
    /// whole names are compared with URIs.
    pub root: &'q [u8],
    pub names: bool,
    pub strict: bool,
    pub at: Time,
    pub depth: usize,
    pub steps: usize,
}

/// The verdicts on the certificates among files.
#[derive(Drop)]
pub struct Tree<'q, 'n> {
    /// The files that start with certificates, in their order. A place is an index among them.
    pub certs: Vec<&'q BareObject<'n>>,
    /// The place of the trust anchor.
    pub anchor: usize,
    // For each place, the first place of its certificate. The others are copies.
    pub(crate) firsts: Firsts,
    // The line of each certificate at its first place, with what its verdicts came to.
    pub(crate) lines: Lines,
    // The named path to each certificate whose line has another one, by its first place.
    pub(crate) named: BTreeMap<usize, FoundPath>,
    // The limits that were reached at each certificate, at its first place.
    pub(crate) limits: LimitTable,
    /// Whether every certificate was judged, or which limit was reached.
    pub ended: Ended,
}

/// A file whose certificate has the key of a TAL, and what is wrong with it as a trust anchor.
#[derive(Drop)]
pub struct WrongAnchor<'q, 'n> {
    /// Its place.
    pub place: usize,
    pub file: &'q BareObject<'n>,
    pub fault: Fault,
}

/// The answer: the verdicts; or that no certificate is a valid trust anchor of a TAL, with each
/// certificate that has a TAL's key.
#[derive(Drop)]
pub enum TreeAnswer<'q, 'n> {
    NoAnchor(Vec<WrongAnchor<'q, 'n>>),
    Walked(Tree<'q, 'n>),
}

impl<'q, 'n> Tree<'q, 'n> {
    /// Returns the line of the certificate at a place, with what its verdicts came to. A copy, also
    /// with other bytes behind it, has the line of the certificate's first place.
    pub fn line(&self, place: usize) -> Option<&Line>
        ensures { option_copied result ≡ line_at self.now place }
    {
        self.lines.as_slice().get(self.firsts.first_of(place))
    }

    /// Returns the named path that is kept beside the line of the certificate at a place. A copy has
    /// that of the certificate's first place.
    pub(crate) fn named_path(&self, place: usize) -> Option<&FoundPath>
        ensures { option_copied result ≡ named_in self.now place }
    {
        let first = self.firsts.first_of(place);
        self.named.get(&first)
    }

    /// Returns the limits that the walk reached at the certificate at a place. A copy has those of
    /// the certificate's first place.
    pub fn reached(&self, place: usize) -> Reached
        ensures { result ≡ reached_in self.now place }
    {
        self.limits.at(self.firsts.first_of(place))
    }

    /// Returns whether the certificate at a place is the trust anchor, or a copy of it.
    pub fn is_anchor_at(&self, place: usize) -> bool
        ensures { result ≡ is_anchor_at self.now place }
    {
        self.firsts.first_of(place) == self.firsts.first_of(self.anchor)
    }
}

// Adds a file's certificate to a folder, and the file to those that begin with one.
fn keep_cert<'q, 'n>(
    file: &'q BareObject<'n>,
    said: Said,
    certs: &mut Vec<&'q BareObject<'n>>,
    folder: &mut Folder,
) -> Result<(), AllocError>
    requires { BeginsWithSaid said file.now.octets }
    ensures certs { OnOk result (map (λ f. f.now) certs.new.items
        ≡ map (λ f. f.now) certs.old.items ++ file.now ∷ []) }
    ensures folder { OnOk result (folder.new ≡ with_cert folder.old file.now.octets) }
{
    folder.add_cert(file.octets().clone()?, said)?;
    certs.push(file)?;
    Ok(())
}

// Adds a list to a folder, with a table of its serials.
fn keep_list(alloc: Global, list: &Crl, folder: &mut Folder) -> Result<(), AllocError>
    ensures { OnOk result ((kept : CrlState) × (kept.list ≡ list.now.list)
        × (kept.is_cached ≡ true) × (folder.new ≡ with_list folder.old kept)) }
{
    let kept = with_table(alloc, list)?;
    folder.add_list(kept)?;
    Ok(())
}

// Adds the list that a file is to a folder.
fn keep_list_of(alloc: Global, file: &BareObject<'_>, folder: &mut Folder) -> Result<(), AllocError>
    requires { IsList file.now.octets }
    ensures { OnOk result ((kept : CrlState) × IsCertificateList kept.list file.now.octets
        × (kept.is_cached ≡ true) × (folder.new ≡ with_list folder.old kept)) }
{
    match file.whole_list(alloc)? {
        Some(list) => {
            let kept = keep_list(alloc, &list, folder);
            drop(list);
            kept
        }
        None => unreachable!(),
    }
}

// Adds the certificate with which a file begins, or the list that it is, to a folder, and the file
// to those that begin with certificates.
fn add_file<'q, 'n>(
    alloc: Global,
    file: &'q BareObject<'n>,
    certs: &mut Vec<&'q BareObject<'n>>,
    folder: &mut Folder,
) -> Result<(), AllocError>
    ensures { (files : List FileFields)
        → IsFolderOf files (map (λ f. f.now) certs.old.items) folder.old → OnOk result
        (IsFolderOf (files ++ file.now ∷ []) (map (λ f. f.now) certs.new.items) folder.new) }
{
    match file.front() {
        Front::Certificate(said) => keep_cert(file, said, certs, folder),
        Front::List => keep_list_of(alloc, file, folder),
        Front::Neither => Ok(()),
    }
}

/// Fills an empty folder with the certificates and the lists of files, and returns those that begin
/// with certificates.
pub(crate) fn filed<'q, 'n>(
    alloc: Global,
    files: &'q [BareObject<'n>],
    folder: &mut Folder,
) -> Result<Vec<&'q BareObject<'n>>, AllocError>
    requires { IsFolderOf [] [] folder.old }
    ensures { IfOk result (λ certs.
        IsFolderOf files.now (map (λ f. f.now) certs.items) folder.new) }
{
    let mut certs = Vec::new(alloc);
    for file in files {
        add_file(alloc, file, &mut certs, folder)?;
    }
    Ok(certs)
}

// The walk that a question asks for, through the certificates that are admitted.
fn walk_of<'w, A: Admission>(
    alloc: Global,
    question: &TreeQuestion<'_, '_>,
    folder: &'w Folder,
    admission: &'w A,
) -> Walk<'w, A, RsaVerifier>
    ensures folder { result.folder.now ≡ folder.now }
    ensures admission { result.admission.now ≡ admission.now }
    ensures names { result.names ≡ question.now.names }
    ensures strict { result.strict ≡ question.now.strict }
    ensures at { result.at ≡ question.now.at }
    ensures depth { result.bounds.depth ≡ question.now.depth }
    ensures steps { result.bounds.steps ≡ question.now.steps }
{
    Walk {
        alloc,
        folder,
        admission,
        bounds: Bounds {
            depth: question.depth,
            steps: question.steps,
        },
        names: question.names,
        strict: question.strict,
        at: question.at,
        verifier: &RsaVerifier,
    }
}

// The trust anchor of a TAL among the certificates of a folder.
fn anchor_of(
    alloc: Global,
    question: &TreeQuestion<'_, '_>,
    tal: &Tal,
    folder: &Folder,
) -> Result<FoundAnchor, AllocError>
    ensures { let q = question.now in
        let x = context IsSignedByRsa q.at q.strict in
        let asked = by_named_lists q.names x folder.now.lists in
        IfOk result (IsFound x asked q.names tal.now folder.now.certs) }
{
    walk_of(alloc, question, folder, &AllAdmitted).find_anchor(tal)
}

// What is told of the trust anchor, unless memory ran out.
fn wrong_anchor(error: &WalkError, anchor: &BareObject<'_>) -> Result<Fault, AllocError>
    ensures { IfOk result (IsAnchorReason anchor.now.octets error.now) }
{
    match error {
        WalkError::Memory => Err(AllocError),
        WalkError::OtherName => Ok(other_name(0)),
        WalkError::Anchor(LocatedError::OtherKey) => Ok(other_key()),
        WalkError::Anchor(LocatedError::NoResources) => Ok(no_resources()),
        WalkError::Anchor(LocatedError::Path(error)) => {
            let (step, name, rule) = of_path(&error.fault, anchor.octets());
            Ok(Fault {
                index: 0,
                step,
                name,
                rule,
            })
        }
    }
}

// What is told of a certificate that is wrong as the trust anchor.
fn told_of<'q, 'n>(
    certs: &[&'q BareObject<'n>],
    candidate: &WrongCandidate,
) -> Result<WrongAnchor<'q, 'n>, AllocError>
    requires { candidate.now.place < length certs.now }
    ensures { IfOk result (IsCandidateTold (map (λ f. f.now) certs.now) candidate.now) }
{
    let place = candidate.place;
    let file = certs[place];
    let fault = wrong_anchor(&candidate.error, file)?;
    Ok(WrongAnchor { place, file, fault })
}

// What is told of those that are.
fn told_of_each<'q, 'n>(
    alloc: Global,
    certs: &[&'q BareObject<'n>],
    candidates: &[WrongCandidate],
) -> Result<Vec<WrongAnchor<'q, 'n>>, AllocError>
    requires { AllByRecursion (λ candidate. candidate.place < length certs.now) candidates.now }
    ensures { IfOk result (λ wrong.
        AllZip (IsCandidateTold (map (λ f. f.now) certs.now)) candidates.now wrong.items) }
{
    let mut wrong = Vec::new(alloc);
    for candidate in candidates {
        wrong.push(told_of(certs, candidate)?)?;
    }
    Ok(wrong)
}

// Walks down from the trust anchor, through each certificate at its first place, and keeps the lines
// and the named paths.
fn walked(
    alloc: Global,
    question: &TreeQuestion<'_, '_>,
    folder: &Folder,
    firsts: &Firsts,
    anchor: &ResourceCert,
    start: usize,
    lines: &mut NamedLines<'_, '_, '_>,
) -> Result<Walked, AllocError>
    ensures tells { let q = question.now in
        let x = context IsSignedByRsa q.at q.strict in
        let asked = by_named_lists q.names x folder.now.lists in
        (told : List Told) × BecameNamed lines.old told lines.new
        × TellsBelow x asked
        (IsLookedAt q.names (IsFirstIn firsts.now) anchor.now.cert folder.now.certs) anchor.now
        folder.now.certs [] q.depth q.steps (ended_of result) told }
    ensures limits { let q = question.now in
        let x = context IsSignedByRsa q.at q.strict in
        let asked = by_named_lists q.names x folder.now.lists in
        let certs = folder.now.certs in
        let admits = IsLookedAt q.names (IsFirstIn firsts.now) anchor.now.cert certs in
        IfOk result (λ walked. (limited : List LimitedCa)
        × HasReached start (length certs) limited walked
        × ((root : Root) → LeadsTo x asked root (members_at root certs []) anchor.now
        → AreLimited x asked admits root certs q.depth q.steps limited)) }
{
    walk_of(alloc, question, folder, firsts).below(anchor, start, lines)
}

/// Grows the tree of the files that a folder was filled with, below the trust anchor of a TAL.
pub(crate) fn grown<'q, 'n>(
    alloc: Global,
    question: &TreeQuestion<'q, 'n>,
    tal: &Tal,
    folder: &Folder,
    certs: Vec<&'q BareObject<'n>>,
) -> Result<TreeAnswer<'q, 'n>, AllocError>
    requires { IsFolderOf question.now.files.now (map (λ f. f.now) certs.items) folder.now }
    ensures { let x = context IsSignedByRsa question.now.at question.now.strict in
        (l : LocatorFields) → l.read ≡ Ok tal.now
        → IfOk result (IsTreeAnswer x (asked_of question.now) l) }
{
    laws::unambiguous();
    match anchor_of(alloc, question, tal, folder)? {
        FoundAnchor::Wrong(candidates) => {
            let wrong = told_of_each(alloc, &certs, &candidates);
            drop(candidates);
            drop(certs);
            Ok(TreeAnswer::NoAnchor(wrong?))
        }
        FoundAnchor::Valid(anchor, issuer) => {
            let firsts = Firsts::of(alloc, folder)?;
            let count = certs.len();
            let start = firsts.first_of(anchor);
            let mut kept = NamedLines::new(alloc, question.root, &certs, &firsts, anchor)?;
            let walked = walked(alloc, question, folder, &firsts, &issuer, start, &mut kept);
            drop(issuer);
            let walk = walked?;
            let Walked { ended, limits } = walk;
            let (lines, named) = kept.into_parts();
            Ok(TreeAnswer::Walked(Tree {
                certs,
                anchor,
                firsts,
                lines,
                named,
                limits,
                ended,
            }))
        }
    }
}
