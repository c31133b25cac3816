//! The path to one file among others, in any order.
ghost use Rattle.std.specs.Prelude.{◌≡◌, ◌<◌, ◌↔◌, ◌++◌, ◌∷◌, [], ℕ, All, Any, List, length, Some, map, option_map, option_to_list, IfOk, IfSome, IsFalse, IsTrue, MatchOption, OnOk};
ghost use Rattle.rpki_folder.specs.Folders.{NamesSigner};
ghost use Rattle.rpki_keys.specs.RsaSignatures.{IsSignedByRsa};
ghost use Rattle.rpki_cert.specs.Verification.{context};
ghost use Rattle.rpki_files.specs.Contents.{BeginsWithCertificate, IsList};
ghost use Rattle.rpki_files.specs.Files.{FileFields};
ghost use Rattle.rpki_verdicts.specs.Searches.{AreAbove, DeniesFirst, HasKeyAt, HasKeyNamed, HasNoIssuer, HaveNoneKeyed, IsAcceptedAt, IsAcceptedIn, IsFirstKeyed, IsIssuerAt, IsNamedAmong, IsNamedIn, IsNamedPath, IsShownAbove, IsSoughtPath, IsUnanchored, StandsAlone, files_at, first_wrong};
ghost use Rattle.rpki_verdicts.specs.ShownPaths.{placed_of};
ghost use Rattle.rpki_verdicts.specs.TreeParts.{AreTreesOf, wrong_in, wrong_of};
ghost use Rattle.rpki_verdicts.specs.Trees.{asked_of, certs_of, line_at};
ghost use Rattle.rpki_verdicts.specs.UnseenCertificates.{AreTreeIssuers};

use crate::issuers::{Issuers, issuers_of};
use crate::locators::locator_of;
use crate::named_paths::is_accepted;
use crate::parts::{TreePart, Trees, judge_all};
use crate::unordered::{Tree, TreeAnswer, TreeQuestion};
use rpki_cert::laws;
use rpki_files::{BareObject, Front};
use rpki_folder::{Ended, Line};
use rpki_parts::KeyIdentifier;
use std::alloc::{AllocError, Global};
use std::mem;

/// The most files that are put above a file to which no valid path leads.
const MOST_ABOVE: usize = 32;

/// The path that was found to a file, and whether each path that may be valid was judged.
#[derive(Drop)]
pub struct Sought<'q, 'n> {
    /// The files. The last one is the file that was searched for.
    pub path: Vec<&'q BareObject<'n>>,
    /// How the walk ended that found no valid path. `Whole` if there was no walk, or if a valid
    /// path was found.
    pub ended: Ended,
}

// A path beside which no other one had to be looked for.
fn whole<'q, 'n>(path: Vec<&'q BareObject<'n>>) -> Sought<'q, 'n>
    ensures path { result.path ≡ path.entry }
    ensures ended { result.ended ≡ Ended.Whole }
{
    Sought {
        path,
        ended: Ended::Whole,
    }
}

// Whether one of the files is a list.
fn has_list(files: &[BareObject<'_>]) -> bool
    ensures { IsFalse result → All (λ f. IsList f.octets → ⊥) files.now }
{
    for file in files {
        if file.is_list() {
            return true;
        }
    }
    false
}

// Whether the file is to stand alone: it has the key of a locator, or no valid path leads to it.
fn stands_alone(
    alloc: Global,
    question: &TreeQuestion<'_, '_>,
    file: &BareObject<'_>,
) -> Result<bool, AllocError>
    ensures alone { IfOk result (λ is.
        IsTrue is → StandsAlone (asked_of question.now) file.now) }
    ensures certificate { IfOk result (λ is.
        IsFalse is → BeginsWithCertificate file.now.octets) }
{
    if !file.is_certificate() {
        return Ok(true);
    }
    let locator = locator_of(alloc, question.locators, file)?;
    if locator.is_some() {
        return Ok(true);
    }
    Ok(!has_list(question.files))
}

// The file alone.
fn alone<'q, 'n>(
    alloc: Global,
    file: &'q BareObject<'n>,
) -> Result<Vec<&'q BareObject<'n>>, AllocError>
    ensures { IfOk result (λ path. map (λ f. f.now) path.items ≡ file.now ∷ []) }
{
    let mut path = Vec::new(alloc);
    path.push(file)?;
    Ok(path)
}

// The file below another one.
fn pair<'q, 'n>(
    alloc: Global,
    above: &'q BareObject<'n>,
    file: &'q BareObject<'n>,
) -> Result<Vec<&'q BareObject<'n>>, AllocError>
    ensures { IfOk result (λ path. map (λ f. f.now) path.items ≡ above.now ∷ file.now ∷ []) }
{
    let mut path = alone(alloc, above)?;
    path.push(file)?;
    Ok(path)
}

// Adds the file at a place, where there is one.
fn push_one<'q, 'n>(
    path: &mut Vec<&'q BareObject<'n>>,
    certs: &[&'q BareObject<'n>],
    place: usize,
) -> Result<(), AllocError>
    ensures { OnOk result (map (λ f. f.now) path.new.items
        ≡ map (λ f. f.now) path.old.items ++ files_at (map (λ f. f.now) certs.now) (place ∷ [])) }
{
    match certs.get(place) {
        Some(file) => {
            path.push(*file)?;
            Ok(())
        }
        None => Ok(()),
    }
}

// Adds the files at these places.
fn push_at<'q, 'n>(
    path: &mut Vec<&'q BareObject<'n>>,
    certs: &[&'q BareObject<'n>],
    places: &[usize],
) -> Result<(), AllocError>
    ensures { OnOk result (map (λ f. f.now) path.new.items
        ≡ map (λ f. f.now) path.old.items ++ files_at (map (λ f. f.now) certs.now) places.now) }
{
    for place in places {
        push_one(path, certs, *place)?;
    }
    Ok(())
}

// Adds the files of the trust anchor and of the CAs at these places.
fn push_down<'q, 'n>(
    path: &mut Vec<&'q BareObject<'n>>,
    tree: &Tree<'q, 'n>,
    above: &[usize],
) -> Result<(), AllocError>
    ensures { let places = tree.now.anchor ∷ above.now in
        OnOk result (map (λ f. f.now) path.new.items
        ≡ map (λ f. f.now) path.old.items ++ files_at (certs_of tree.now) places) }
{
    push_one(path, &tree.certs, tree.anchor)?;
    push_at(path, &tree.certs, above)
}

// The file below the trust anchor and the CAs at these places.
fn path_down<'q, 'n>(
    alloc: Global,
    tree: &Tree<'q, 'n>,
    above: &[usize],
    file: &'q BareObject<'n>,
) -> Result<Vec<&'q BareObject<'n>>, AllocError>
    ensures { IfOk result (λ path. map (λ f. f.now) path.items
        ≡ files_at (certs_of tree.now) (tree.now.anchor ∷ above.now) ++ file.now ∷ []) }
{
    let mut path = Vec::new(alloc);
    push_down(&mut path, tree, above)?;
    path.push(file)?;
    Ok(path)
}

// Whether the file begins with a certificate that has the key of this identifier.
fn has_key(file: &BareObject<'_>, key: &KeyIdentifier) -> bool
    ensures { IsTrue result ↔ HasKeyNamed key.now file.now }
{
    laws::unambiguous();
    match file.front() {
        Front::Certificate(said) => said.key == *key,
        Front::List | Front::Neither => false,
    }
}

/// Returns the key that the file names as its signer's, if it begins with a certificate that names
/// one.
pub fn signer_of(file: &BareObject<'_>) -> Option<KeyIdentifier>
    ensures { (key : List ℕ) → NamesSigner key file.now.octets ↔ (result ≡ Some key) }
{
    laws::unambiguous();
    match file.front() {
        Front::Certificate(said) => said.signer,
        Front::List | Front::Neither => None,
    }
}

// Whether the certificate at a place is accepted.
fn is_accepted_at(tree: &Tree<'_, '_>, place: usize) -> bool
    ensures { IsTrue result ↔ IsAcceptedAt tree.now place }
{
    is_accepted(tree.line(place))
}

// Whether the certificate at a place has the key, and is accepted, where that is asked.
fn has_key_at(tree: &Tree<'_, '_>, key: &KeyIdentifier, accepted: bool, place: usize) -> bool
    requires { place < length tree.now.certs.items }
    ensures { IsTrue result ↔ HasKeyAt tree.now key.now accepted place }
{
    has_key(tree.certs[place], key) && (!accepted || is_accepted_at(tree, place))
}

// The place of the first certificate that has the key, and is accepted, where that is asked.
fn first_keyed(tree: &Tree<'_, '_>, key: &KeyIdentifier, accepted: bool) -> Option<usize>
    ensures first { MatchOption result (HaveNoneKeyed tree.now key.now accepted)
        (IsFirstKeyed tree.now key.now accepted) }
    ensures place { IfSome result (λ place. place < length tree.now.certs.items) }
{
    for place in 0..tree.certs.len() {
        if has_key_at(tree, key, accepted, place) {
            return Some(place);
        }
    }
    None
}

// The place of the file's issuer: of the certificates whose key the file names as the one that
// signs it the first that is accepted, or else the first.
fn issuer_of(tree: &Tree<'_, '_>, file: &BareObject<'_>) -> Option<usize>
    ensures issuer { MatchOption result (HasNoIssuer tree.now file.now)
        (λ place. (issuer : FileFields) × IsIssuerAt tree.now file.now place issuer) }
    ensures place { IfSome result (λ place. place < length tree.now.certs.items) }
{
    let Some(key) = signer_of(file) else {
        return None;
    };
    if let Some(place) = first_keyed(tree, &key, true) {
        return Some(place);
    }
    first_keyed(tree, &key, false)
}

// A path to a file below those that name one another as signers, and whether these reach up to the
// trust anchor.
#[derive(Drop)]
struct Named<'q, 'n> {
    path: Vec<&'q BareObject<'n>>,
    reach: bool,
}

// Where a path is searched: in the trees of the files, by the files that their certificates name.
#[derive(Drop)]
struct Search<'s, 'q, 'n> {
    alloc: Global,
    trees: &'s Trees<'q, 'n>,
    issuers: &'s Issuers,
}

impl<'s, 'q, 'n> Search<'s, 'q, 'n> {
    // The places of the CAs above the certificate at a place, on the path that is shown, if it is
    // accepted.
    fn above_at<'t>(
        &self,
        tree: &'t Tree<'q, 'n>,
        place: usize,
    ) -> Result<Option<&'t [usize]>, AllocError>
        requires { AreTreeIssuers self.now.trees.now self.now.issuers.now }
        ensures { let certs = placed_of self.now.trees.now in
            IfOk result (λ found. MatchOption found (IsAcceptedAt tree.now place → ⊥)
            (λ above. IsShownAbove certs tree.now place above.now)) }
    {
        let Some(Line::Accepted(paths)) = tree.line(place) else {
            return Ok(None);
        };
        let found = self
            .trees
            .shown_paths(self.alloc, self.issuers, tree, place, paths)?;
        Ok(Some(found.shown.above.as_slice()))
    }

    // Adds what stands above a file to which no valid path leads, as it and those above it name their
    // signers: up to the trust anchor, or to one whose signer isn't there. Returns whether that is the
    // trust anchor.
    fn push_above(
        &self,
        path: &mut Vec<&'q BareObject<'n>>,
        tree: &Tree<'q, 'n>,
        file: &'q BareObject<'n>,
        most: usize,
    ) -> Result<bool, AllocError>
        requires { AreTreeIssuers self.now.trees.now self.now.issuers.now }
        ensures { let certs = placed_of self.now.trees.now in
            IfOk result (λ reach. (above : List FileFields)
            × AreAbove certs tree.now most file.now above reach
            × (map (λ f. f.now) path.new.items ≡ map (λ f. f.now) path.old.items ++ above)) }
    {
        if most == 0 {
            return Ok(false);
        }
        let Some(place) = issuer_of(tree, file) else {
            return Ok(false);
        };
        if let Some(above) = self.above_at(tree, place)? {
            push_down(path, tree, above)?;
            push_one(path, &tree.certs, place)?;
            return Ok(true);
        }
        if place == tree.anchor {
            push_one(path, &tree.certs, place)?;
            return Ok(true);
        }
        let reach = self.push_above(path, tree, tree.certs[place], most - 1)?;
        push_one(path, &tree.certs, place)?;
        Ok(reach)
    }

    // The file below what stands above it, where no valid path leads to it.
    fn path_named(
        &self,
        tree: &Tree<'q, 'n>,
        file: &'q BareObject<'n>,
    ) -> Result<Named<'q, 'n>, AllocError>
        requires { AreTreeIssuers self.now.trees.now self.now.issuers.now }
        ensures { let certs = placed_of self.now.trees.now in IfOk result (λ named.
            IsNamedPath certs tree.now file.now named.reach (map (λ f. f.now) named.path.items)) }
    {
        let mut path = Vec::new(self.alloc);
        let reach = self.push_above(&mut path, tree, file, MOST_ABOVE)?;
        path.push(file)?;
        Ok(Named { path, reach })
    }

    // The file below what is above it, in an answer that has a tree.
    fn named_in(
        &self,
        answer: &TreeAnswer<'q, 'n>,
        file: &'q BareObject<'n>,
    ) -> Result<Option<Named<'q, 'n>>, AllocError>
        requires { AreTreeIssuers self.now.trees.now self.now.issuers.now }
        ensures { let certs = placed_of self.now.trees.now in
            IfOk result (λ found. MatchOption found (IsUnanchored answer.now) (λ named.
            IsNamedIn certs answer.now file.now named.reach (map (λ f. f.now) named.path.items))) }
    {
        match answer {
            TreeAnswer::NoAnchor(_) => Ok(None),
            TreeAnswer::Walked(tree) => Ok(Some(self.path_named(tree, file)?)),
        }
    }

    // The file below what is above it, in the first part where that reaches up to the trust anchor, or
    // else in the last one; none if no part has a tree.
    fn named_among(
        &self,
        parts: &[TreePart<'q, 'n>],
        file: &'q BareObject<'n>,
    ) -> Result<Option<Vec<&'q BareObject<'n>>>, AllocError>
        requires { AreTreeIssuers self.now.trees.now self.now.issuers.now }
        ensures { let certs = placed_of self.now.trees.now in IfOk result (λ found. MatchOption found
            (All (λ part. IsUnanchored part.answer) parts.now)
            (λ path. IsNamedAmong certs parts.now file.now (map (λ f. f.now) path.items))) }
    {
        let mut kept = None;
        for part in parts {
            if let Some(named) = self.named_in(&part.answer, file)? {
                let Named { path, reach } = named;
                if reach {
                    drop(kept);
                    return Ok(Some(path));
                }
                drop(mem::replace(&mut kept, Some(path)));
            }
        }
        Ok(kept)
    }

    // The path that is shown to the first certificate of a tree, which is that of the file, where it is
    // accepted.
    fn accepted_in(
        &self,
        answer: &TreeAnswer<'q, 'n>,
        file: &'q BareObject<'n>,
    ) -> Result<Option<Vec<&'q BareObject<'n>>>, AllocError>
        requires { AreTreeIssuers self.now.trees.now self.now.issuers.now }
        ensures { let certs = placed_of self.now.trees.now in
            IfOk result (λ found. MatchOption found (DeniesFirst answer.now)
            (λ path. IsAcceptedIn certs file.now (map (λ f. f.now) path.items) answer.now)) }
    {
        match answer {
            TreeAnswer::NoAnchor(_) => Ok(None),
            TreeAnswer::Walked(tree) => match self.above_at(tree, 0)? {
                Some(above) => Ok(Some(path_down(self.alloc, tree, above, file)?)),
                None => Ok(None),
            },
        }
    }

    // The path that is shown to it in the first part that accepts it.
    fn accepted_among(
        &self,
        parts: &[TreePart<'q, 'n>],
        file: &'q BareObject<'n>,
    ) -> Result<Option<Vec<&'q BareObject<'n>>>, AllocError>
        requires { AreTreeIssuers self.now.trees.now self.now.issuers.now }
        ensures { let certs = placed_of self.now.trees.now in IfOk result (λ found. MatchOption found
            (All (λ part. DeniesFirst part.answer) parts.now)
            (λ path. let files = map (λ f. f.now) path.items in
            Any (λ part. IsAcceptedIn certs file.now files part.answer) parts.now)) }
    {
        for part in parts {
            if let Some(path) = self.accepted_in(&part.answer, file)? {
                return Ok(Some(path));
            }
        }
        Ok(None)
    }
}

// The first of the certificates that are wrong as a locator's trust anchor, where none is valid.
fn first_of<'q, 'n>(answer: &TreeAnswer<'q, 'n>) -> Option<&'q BareObject<'n>>
    ensures { option_to_list (option_map (λ f. f.now) result) ≡ first_wrong (wrong_in answer.now) }
{
    match answer {
        TreeAnswer::NoAnchor(wrong) => match wrong.first() {
            Some(anchor) => Some(anchor.file),
            None => None,
        },
        TreeAnswer::Walked(_) => None,
    }
}

// The first of those of all locators.
fn first_among<'q, 'n>(parts: &[TreePart<'q, 'n>]) -> Option<&'q BareObject<'n>>
    ensures { option_to_list (option_map (λ f. f.now) result) ≡ first_wrong (wrong_of parts.now) }
{
    for part in parts {
        if let Some(file) = first_of(&part.answer) {
            return Some(file);
        }
    }
    None
}

// The file below the first of the certificates that are wrong as trust anchors, where there is one.
fn path_without_anchor<'q, 'n>(
    alloc: Global,
    parts: &[TreePart<'q, 'n>],
    file: &'q BareObject<'n>,
) -> Result<Vec<&'q BareObject<'n>>, AllocError>
    ensures { IfOk result (λ path. map (λ f. f.now) path.items
        ≡ first_wrong (wrong_of parts.now) ++ file.now ∷ []) }
{
    match first_among(parts) {
        Some(anchor) => pair(alloc, anchor, file),
        None => alone(alloc, file),
    }
}

// The path to the first file, which begins with a certificate, by the answers on all.
fn path_by<'q, 'n>(
    alloc: Global,
    question: &TreeQuestion<'q, 'n>,
    trees: &Trees<'q, 'n>,
    file: &'q BareObject<'n>,
) -> Result<Sought<'q, 'n>, AllocError>
    requires trees { let x = context IsSignedByRsa question.now.at question.now.strict in
        AreTreesOf x (asked_of question.now) trees.now }
    requires certificate { BeginsWithCertificate file.now.octets }
    requires first { (more : List FileFields) × (question.now.files.now ≡ file.now ∷ more) }
    ensures { let x = context IsSignedByRsa question.now.at question.now.strict in
        IfOk result (λ sought. let path = map (λ f. f.now) sought.path.items in
        IsSoughtPath x (asked_of question.now) file.now path sought.ended) }
{
    laws::unambiguous();
    let issuers = issuers_of(alloc, trees)?;
    let search = Search {
        alloc,
        trees,
        issuers: &issuers,
    };
    if let Some(path) = search.accepted_among(&trees.parts, file)? {
        return Ok(whole(path));
    }
    match search.named_among(&trees.parts, file)? {
        Some(path) => Ok(Sought {
            path,
            ended: trees.ended(),
        }),
        None => Ok(whole(path_without_anchor(alloc, &trees.parts, file)?)),
    }
}

/// Searches the path from the trust anchor of one of the TALs ([`judge_all`]) to the first of the
/// files, with real signatures and with the CRLs among the files, which may be in any order. If
/// several valid paths lead to the file, it is the one that [`Trees::shown_paths`] shows, below the
/// first TAL that has one: neither the order of the files nor another CA's certificates hide the path
/// that the certificates name ([`crate::laws::named_is_shown`]).
///
/// If no valid path leads to the file, the result has files that end in it, for which
/// [`crate::judge`] returns what is wrong: files that name one another as signers, a wrong trust
/// anchor and the file, or the file alone. It also says whether the walk reached a limit of the
/// question before every path was judged. The result has no files if the question has none.
///
/// # Errors
///
/// Returns an error only if memory runs out.
///
/// # Not checked
///
/// As for [`judge_all`].
pub fn seek<'q, 'n>(
    alloc: Global,
    question: &TreeQuestion<'q, 'n>,
) -> Result<Sought<'q, 'n>, AllocError>
    ensures path { let x = context IsSignedByRsa question.now.at question.now.strict in
        IfOk result (λ sought. (file : FileFields) (more : List FileFields)
        → question.now.files.now ≡ file ∷ more
        → let path = map (λ f. f.now) sought.path.items in
        IsSoughtPath x (asked_of question.now) file path sought.ended) }
    ensures none { question.now.files.now ≡ [] → IfOk result (λ sought. sought.path.items ≡ []) }
{
    let Some((file, _)) = question.files.split_first() else {
        return Ok(whole(Vec::new(alloc)));
    };
    let is_alone = stands_alone(alloc, question, file)?;
    if is_alone {
        return Ok(whole(alone(alloc, file)?));
    }
    let trees = judge_all(alloc, question)?;
    let sought = path_by(alloc, question, &trees, file);
    drop(trees);
    sought
}
