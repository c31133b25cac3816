//! The trees of files, one for each key of which a TAL is given.
ghost use Rattle.std.specs.List.{list_any};
ghost use Rattle.std.specs.Option.{option_or};
ghost use Rattle.std.specs.Prelude.{◌≡◌, ◌==◌, ◌↔◌, [], All, find, map, option_copied, IfOk, IsTrue, Ok};
ghost use Rattle.rpki_keys.specs.Locators.{NamedTal};
ghost use Rattle.rpki_keys.specs.RsaSignatures.{IsSignedByRsa};
ghost use Rattle.rpki_cert.specs.Verification.{context};
ghost use Rattle.rpki_verdicts.specs.Trees.{IsFolderOf, asked_of};
ghost use Rattle.rpki_verdicts.specs.TreeParts.{AreAllAccepted, AreDamaged, AreFirstOfKeys, AreTreesOf, IsOfNewKey, IsPartOf, IsWholeWalk, are_anchors, are_told, part_ended, first_telling, is_told, line_rank, rank, shown_part, unseen_rank, worst_end, wrong_at, wrong_in};

use crate::damage::{count_broken_lists, count_others};
use crate::locators::{GivenLocator, tal_of_key};
use crate::unordered::{TreeAnswer, TreeQuestion, WrongAnchor, filed, grown};
use rpki_files::BareObject;
use rpki_folder::{Ended, Folder, Line};
use std::alloc::{AllocError, Global};

/// The answer for one TAL.
#[derive(Drop)]
pub struct TreePart<'q, 'n> {
    /// The TAL: the first of those that have its key.
    pub locator: &'q GivenLocator<'n>,
    pub answer: TreeAnswer<'q, 'n>,
}

/// The answers for all TALs, over the same files.
#[derive(Drop)]
pub struct Trees<'q, 'n> {
    /// The files that start with certificates, in their order. A place is an index among them.
    pub certs: Vec<&'q BareObject<'n>>,
    /// The path with which names begin below the directory that is named.
    pub root: &'q [u8],
    /// A part for each key of which a TAL is given, in the order of the TALs.
    pub parts: Vec<TreePart<'q, 'n>>,
    /// How many files have the name of a CRL and are none.
    pub broken_lists: usize,
    /// How many other files are neither certificates nor CRLs, and are neither named as signed
    /// objects nor look like TALs.
    pub others: usize,
}

// Whether this was read as a locator, and none of the others has its key.
fn is_of_new_key(others: &[GivenLocator<'_>], locator: &GivenLocator<'_>) -> bool
    ensures { IsTrue result ↔ IsOfNewKey others.now locator.now }
{
    match locator.tal() {
        Ok(tal) => tal_of_key(others, tal.key_info()).is_none(),
        Err(_) => false,
    }
}

// A copy of the references to files.
fn copied<'q, 'n>(
    alloc: Global,
    certs: &[&'q BareObject<'n>],
) -> Result<Vec<&'q BareObject<'n>>, AllocError>
    ensures { IfOk result (λ copy. copy.items ≡ certs.now) }
{
    let mut copy = Vec::new(alloc);
    copy.extend_from_slice(certs)?;
    Ok(copy)
}

// What is answered of one locator, of the files that a folder was filled with.
fn part_of<'q, 'n>(
    alloc: Global,
    question: &TreeQuestion<'q, 'n>,
    folder: &Folder,
    certs: &[&'q BareObject<'n>],
    locator: &'q GivenLocator<'n>,
) -> Result<TreePart<'q, 'n>, AllocError>
    requires folder { IsFolderOf question.now.files.now (map (λ f. f.now) certs.now) folder.now }
    requires read { (t : NamedTal) × (locator.now.read ≡ Ok t) }
    ensures locator { IfOk result (λ part. part.locator.now ≡ locator.now) }
    ensures part { let x = context IsSignedByRsa question.now.at question.now.strict in
        IfOk result (IsPartOf x (asked_of question.now)) }
{
    match locator.tal() {
        Ok(tal) => {
            let answer = grown(alloc, question, tal, folder, copied(alloc, certs)?)?;
            Ok(TreePart { locator, answer })
        }
        Err(_) => unreachable!(),
    }
}

// What is answered of each locator whose key none before it has.
fn parts_of<'q, 'n>(
    alloc: Global,
    question: &TreeQuestion<'q, 'n>,
    folder: &Folder,
    certs: &[&'q BareObject<'n>],
) -> Result<Vec<TreePart<'q, 'n>>, AllocError>
    requires { IsFolderOf question.now.files.now (map (λ f. f.now) certs.now) folder.now }
    ensures locators { IfOk result (λ parts. AreFirstOfKeys [] question.now.locators.now
        (map (λ part. part.locator.now) parts.items)) }
    ensures parts { let x = context IsSignedByRsa question.now.at question.now.strict in
        IfOk result (λ parts. All (IsPartOf x (asked_of question.now)) parts.items) }
{
    let mut parts = Vec::new(alloc);
    for (place, locator) in question.locators.iter().enumerate() {
        if is_of_new_key(&question.locators[..place], locator) {
            parts.push(part_of(alloc, question, folder, certs, locator)?)?;
        }
    }
    Ok(parts)
}

/// Judges every certificate among files in any order, below the trust anchor of each TAL: finds the
/// trust anchor, and walks down from it, with real signatures and with the CRLs among the files.
///
/// The trust anchor of a TAL is a certificate that has its key (RFC 8630 3), lists an IP address or
/// an AS number (RFC 8630 2.3) and is valid. If there are several, the one that is valid longest is
/// taken, then the one whose validity starts last, then the one whose to-be-signed bytes are greatest
/// (own). Of several TALs with one key only the first counts. Names are checked if the question
/// requires it (RFC 6487 7.2).
///
/// # Errors
///
/// Returns an error only if memory runs out. A rejection is a verdict.
///
/// # Not checked
///
/// Whether the RPKI uses a certificate's key, and manifests (own).
pub fn judge_all<'q, 'n>(
    alloc: Global,
    question: &TreeQuestion<'q, 'n>,
) -> Result<Trees<'q, 'n>, AllocError>
    ensures { let x = context IsSignedByRsa question.now.at question.now.strict in
        IfOk result (AreTreesOf x (asked_of question.now)) }
{
    let mut folder = Folder::new(alloc);
    let certs = match filed(alloc, question.files, &mut folder) {
        Ok(certs) => certs,
        Err(error) => {
            drop(folder);
            return Err(error);
        }
    };
    let parts = parts_of(alloc, question, &folder, &certs);
    drop(folder);
    match parts {
        Ok(parts) => Ok(Trees {
            certs,
            root: question.root,
            parts,
            broken_lists: count_broken_lists(question.files),
            others: count_others(question.files),
        }),
        Err(error) => {
            drop(certs);
            Err(error)
        }
    }
}

// How much is told of a certificate of which there is no verdict.
fn unseen_rank(ended: Ended) -> u8
    ensures { result ≡ unseen_rank ended }
{
    match ended {
        Ended::Whole => 4,
        Ended::TooDeep | Ended::OutOfSteps => 3,
    }
}

// How much a line tells of its certificate, where there is one.
fn line_rank(ended: Ended, line: Option<&Line>) -> u8
    ensures { result ≡ line_rank ended (option_copied line.entry) }
{
    match line {
        Some(Line::Accepted(_)) => 1,
        Some(Line::Rejected(..)) => 2,
        Some(Line::Unseen) | None => unseen_rank(ended),
    }
}

impl<'q, 'n> TreePart<'q, 'n> {
    // How much the part tells of the certificate at a place, the least number most.
    fn rank(&self, place: usize) -> u8
        ensures { result ≡ rank self.now place }
    {
        match &self.answer {
            TreeAnswer::NoAnchor(_) => 5,
            TreeAnswer::Walked(tree) => {
                if tree.is_anchor_at(place) {
                    return 0;
                }
                line_rank(tree.ended, tree.line(place))
            }
        }
    }
    // What is wrong with the certificate at a place as its trust anchor, where none is valid.
    fn wrong_at(&self, place: usize) -> Option<&WrongAnchor<'q, 'n>>
        ensures { option_copied result ≡ find (λ w. w.place == place) (wrong_in self.now.answer) }
    {
        match &self.answer {
            TreeAnswer::NoAnchor(wrong) => wrong.iter().find(|wrong| wrong.place == place),
            TreeAnswer::Walked(_) => None,
        }
    }
    // How its walk ended, where there was one.
    fn ended(&self) -> Ended
        ensures { result ≡ part_ended self.now.answer }
    {
        match &self.answer {
            TreeAnswer::NoAnchor(_) => Ended::Whole,
            TreeAnswer::Walked(tree) => tree.ended,
        }
    }
    // Whether it has a valid trust anchor, and its walk met no bound.
    fn is_whole(&self) -> bool
        ensures { IsTrue result ↔ IsWholeWalk self.now.answer }
    {
        match &self.answer {
            TreeAnswer::NoAnchor(_) => false,
            TreeAnswer::Walked(tree) => tree.ended == Ended::Whole,
        }
    }
}

// The first part that tells so much of the certificate at a place.
fn first_telling<'t, 'q, 'n>(
    parts: &'t [TreePart<'q, 'n>],
    place: usize,
    most: u8,
) -> Option<&'t TreePart<'q, 'n>>
    ensures { option_copied result ≡ first_telling parts.now place most }
{
    parts.iter().find(|part| part.rank(place) <= most)
}

// The first of two, where there is one, and else the second.
fn either<'t, 'q, 'n>(
    first: Option<&'t TreePart<'q, 'n>>,
    second: Option<&'t TreePart<'q, 'n>>,
) -> Option<&'t TreePart<'q, 'n>>
    ensures { let other = option_copied second.entry in
        option_copied result ≡ option_or (option_copied first.entry) other }
{
    match first {
        Some(part) => Some(part),
        None => second,
    }
}

// What is wrong with the certificate at a place as the trust anchor of a locator, where none is valid.
fn wrong_among<'t, 'q, 'n>(
    parts: &'t [TreePart<'q, 'n>],
    place: usize,
) -> Option<&'t WrongAnchor<'q, 'n>>
    ensures { option_copied result ≡ wrong_at parts.now place }
{
    for part in parts {
        if let Some(wrong) = part.wrong_at(place) {
            return Some(wrong);
        }
    }
    None
}

/// Returns whether a part tells so much of the certificate at a place, the least number most.
pub(crate) fn is_told(parts: &[TreePart<'_, '_>], place: usize, most: u8) -> bool
    ensures { result ≡ is_told parts.now most place }
{
    parts.iter().any(|part| part.rank(place) <= most)
}

impl<'q, 'n> Trees<'q, 'n> {
    /// Returns what is wrong with the certificate at a place as the trust anchor of a TAL that has no
    /// valid one.
    pub fn wrong_at(&self, place: usize) -> Option<&WrongAnchor<'q, 'n>>
        ensures { option_copied result ≡ wrong_at self.now.parts.items place }
    {
        wrong_among(&self.parts, place)
    }
    /// Returns the part whose verdict on the certificate at a place is reported: the first in which
    /// it is the trust anchor, else is accepted, else is rejected, else wasn't looked at since a
    /// limit was reached, else has no issuer. `None` if no trust anchor is valid.
    pub fn shown_part(&self, place: usize) -> Option<&TreePart<'q, 'n>>
        ensures { option_copied result ≡ shown_part self.now.parts.items place }
    {
        let parts = self.parts.as_slice();
        let unseen = either(
            first_telling(parts, place, 3),
            first_telling(parts, place, 4),
        );
        let told = either(first_telling(parts, place, 2), unseen);
        let accepted = either(first_telling(parts, place, 1), told);
        either(first_telling(parts, place, 0), accepted)
    }
    /// Returns how all walks ended together.
    pub fn ended(&self) -> Ended
        ensures { result ≡ worst_end self.now.parts.items }
    {
        let mut ended = Ended::Whole;
        for part in &self.parts {
            ended = ended.and(part.ended());
        }
        ended
    }
    /// Returns whether each certificate is a trust anchor.
    pub fn are_anchors(&self) -> bool
        ensures { result ≡ are_anchors self.now }
    {
        self.are_told(0)
    }
    // Whether a part tells so much of each certificate.
    fn are_told(&self, most: u8) -> bool
        ensures { result ≡ are_told self.now most }
    {
        let mut are_told = true;
        for place in 0..self.certs.len() {
            are_told = are_told && is_told(&self.parts, place, most);
        }
        are_told
    }
    /// Returns whether a damaged file is among the files, or no certificate but trust anchors.
    pub fn are_damaged(&self) -> bool
        ensures { IsTrue result ↔ AreDamaged self.now }
    {
        self.broken_lists != 0 || self.others != 0 || self.are_anchors()
    }
    /// Returns whether a TAL is given, each TAL has a valid trust anchor, no limit was reached, and
    /// each certificate is a trust anchor or accepted.
    pub fn are_accepted(&self) -> bool
        ensures { IsTrue result ↔ AreAllAccepted self.now }
    {
        if self.parts.is_empty() || !self.parts.iter().all(|part| part.is_whole()) {
            return false;
        }
        self.are_told(1)
    }
}
