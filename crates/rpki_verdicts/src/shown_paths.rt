//! Which of the valid paths to a certificate is shown.
ghost use Rattle.std.specs.Cmp.Lexicographic.{slice_cmp};
ghost use Rattle.std.specs.List.{AllByRecursion};
ghost use Rattle.std.specs.List.Sorted.{IsPermutation, IsSorted};
ghost use Rattle.std.specs.Ordering.{nat_cmp};
ghost use Rattle.std.specs.Prelude.{◌≡◌, [], None, ◌≤◌, ◌<◌, ◌+◌, ◌↔◌, ◌∷◌, length, map, reverse, IfOk, IsTrue};
ghost use Rattle.rpki_blocks.specs.Sets.{AreIn};
ghost use Rattle.rpki_folder.specs.KeptLines.{paths_in};
ghost use Rattle.rpki_verdicts.specs.ShownPaths.{NameIssuersAbove, AreSame, AreShown, HoldSame, NamesIssuerAt, choice_of, named_in, octets_along, file_octets_at, placed_of};
ghost use Rattle.rpki_verdicts.specs.ShownPaths.Steps.{IsRanked, ranked_order};
ghost use Rattle.rpki_verdicts.specs.UnseenCertificates.{AreTreeIssuers};

use crate::issuers::Issuers;
use crate::named_paths::{has_path, is_of};
use crate::parts::Trees;
use crate::unordered::Tree;
use rpki_blocks::{AsBlocks, IpBlocks};
use rpki_cert::laws;
use rpki_files::BareObject;
use rpki_folder::{AcceptedPaths, FoundPath};
use std::alloc::{AllocError, Global};
use std::cmp::Ordering;

// How many paths are shown at most.
const MOST_PATHS: usize = 8;

/// The valid paths to an accepted certificate that are kept, as they are shown.
#[derive(Drop)]
pub struct ShownPaths<'t> {
    /// The path that is shown.
    pub shown: &'t FoundPath,
    /// The others, at most seven.
    pub others: Vec<&'t FoundPath>,
    /// How many verdicts accepted the certificate by another path than these.
    pub more: usize,
}

// A path, and how many of its certificates, from the bottom up, name the file of the one above.
#[derive(Drop)]
struct RankedPath<'t> {
    path: &'t FoundPath,
    named: usize,
}

// Whether one path is kept, and no named one beside it.
fn is_alone(tree: &Tree<'_, '_>, place: usize, paths: &AcceptedPaths) -> bool
    ensures { IsTrue result
        → (paths.now.others.items ≡ []) × (named_in tree.now place ≡ None) }
{
    if !paths.others.is_empty() {
        return false;
    }
    tree.named_path(place).is_none()
}

// The paths of those behind the first.
fn paths_of<'t>(alloc: Global, ranked: &[RankedPath<'t>]) -> Result<Vec<&'t FoundPath>, AllocError>
    ensures { IfOk result (λ paths.
        map (λ path. path.now) paths.items ≡ map (λ it. it.path.now) ranked.now) }
{
    let mut paths = Vec::new(alloc);
    for it in ranked {
        paths.push(it.path)?;
    }
    Ok(paths)
}

impl<'q, 'n> Trees<'q, 'n> {
    // The place of the file that the certificate at a place names as its issuer's.
    fn named_by(
        &self,
        alloc: Global,
        issuers: &Issuers,
        place: usize,
    ) -> Result<Option<usize>, AllocError>
        requires { AreTreeIssuers self.now issuers.now }
        ensures { IfOk result (NamesIssuerAt (placed_of self.now) place) }
    {
        let Some(file) = self.certs.get(place) else {
            return Ok(None);
        };
        issuers.files.named_in(alloc, *file)
    }

    // How many certificates name the file of the one above, from that at a place up, below the CAs at
    // these places and the trust anchor.
    fn count_named(
        &self,
        alloc: Global,
        issuers: &Issuers,
        tree: &Tree<'_, '_>,
        place: usize,
        above: &[usize],
    ) -> Result<usize, AllocError>
        requires { AreTreeIssuers self.now issuers.now }
        ensures named { let up = reverse above.now in
            IfOk result (NameIssuersAbove (placed_of self.now) tree.now.firsts tree.now.anchor place up) }
        ensures few { IfOk result (λ n. n ≤ length above.now + 1) }
    {
        let named = self.named_by(alloc, issuers, place)?;
        let Some((issuer, above)) = above.split_last() else {
            return Ok(usize::from(is_of(&tree.firsts, named, tree.anchor)));
        };
        if !is_of(&tree.firsts, named, *issuer) {
            return Ok(0);
        }
        let count = self.count_named(alloc, issuers, tree, *issuer, above)?;
        Ok(count + 1)
    }

    // A path, with how many certificates are named.
    fn ranked<'t>(
        &self,
        alloc: Global,
        issuers: &Issuers,
        tree: &Tree<'_, '_>,
        place: usize,
        path: &'t FoundPath,
    ) -> Result<RankedPath<'t>, AllocError>
        requires { AreTreeIssuers self.now issuers.now }
        ensures path { IfOk result (λ ranked. ranked.path.now ≡ path.now) }
        ensures ranked { IfOk result (IsRanked (placed_of self.now) tree.now place) }
    {
        let named = self.count_named(alloc, issuers, tree, place, &path.above)?;
        Ok(RankedPath { path, named })
    }

    // All paths that a line keeps, with these numbers.
    fn all_ranked<'t>(
        &self,
        alloc: Global,
        issuers: &Issuers,
        tree: &Tree<'_, '_>,
        place: usize,
        paths: &'t AcceptedPaths,
    ) -> Result<Vec<RankedPath<'t>>, AllocError>
        requires { AreTreeIssuers self.now issuers.now }
        ensures paths { IfOk result (λ all.
            map (λ it. it.path.now) all.items ≡ paths_in paths.now) }
        ensures ranked { IfOk result (λ all.
            AllByRecursion (IsRanked (placed_of self.now) tree.now place) all.items) }
    {
        let mut all = Vec::new(alloc);
        all.push(self.ranked(alloc, issuers, tree, place, &paths.first)?)?;
        for path in &paths.others {
            all.push(self.ranked(alloc, issuers, tree, place, path)?)?;
        }
        Ok(all)
    }

    // The paths among which one is shown, with these numbers: those that a line keeps; but the named path
    // in the place of the last, if that is kept beside the line and the line doesn't have it.
    fn ranked_choice<'t>(
        &self,
        alloc: Global,
        issuers: &Issuers,
        tree: &'t Tree<'_, '_>,
        place: usize,
        paths: &'t AcceptedPaths,
    ) -> Result<Vec<RankedPath<'t>>, AllocError>
        requires { AreTreeIssuers self.now issuers.now }
        ensures paths { IfOk result (λ all.
            map (λ it. it.path.now) all.items ≡ choice_of (paths_in paths.now) (named_in tree.now place)) }
        ensures ranked { IfOk result (λ all.
            AllByRecursion (IsRanked (placed_of self.now) tree.now place) all.items) }
    {
        let mut all = self.all_ranked(alloc, issuers, tree, place, paths)?;
        let Some(path) = tree.named_path(place) else {
            return Ok(all);
        };
        if has_path(paths, &path.above) {
            return Ok(all);
        }
        let named = self.ranked(alloc, issuers, tree, place, path)?;
        all.truncate(MOST_PATHS - 1);
        all.push(named)?;
        Ok(all)
    }

    // The octets of the file at a place.
    fn octets_of(&self, place: usize) -> &[u8]
        ensures { result.now ≡ file_octets_at (placed_of self.now) place }
    {
        match self.certs.get(place) {
            Some(file) => file.octets().as_slice(),
            None => &[],
        }
    }

    // How the octets of the files at some places and at others stand.
    fn order_octets(&self, one: &[usize], other: &[usize]) -> Ordering
        ensures { let certs = placed_of self.now in
            result ≡ slice_cmp (slice_cmp nat_cmp) (octets_along certs one.now)
            (octets_along certs other.now) }
    {
        match (one.split_first(), other.split_first()) {
            (Some((place, one)), Some((at, other))) => self
                .octets_of(*place)
                .cmp(self.octets_of(*at))
                .then(self.order_octets(one, other)),
            (Some(_), None) => Ordering::Greater,
            (None, Some(_)) => Ordering::Less,
            (None, None) => Ordering::Equal,
        }
    }

    // How two paths stand: the one with more certificates named goes before, then the one with fewer
    // CAs, and then the one with the lesser octets.
    fn order(&self, one: &RankedPath<'_>, other: &RankedPath<'_>) -> Ordering
        ensures { result ≡ ranked_order (placed_of self.now) one.now other.now }
    {
        other
            .named
            .cmp(&one.named)
            .then(one.path.above.len().cmp(&other.path.above.len()))
            .then(self.order_octets(&one.path.above, &other.path.above))
    }

    // The paths in this order.
    fn sorted<'t>(&self, mut ranked: Vec<RankedPath<'t>>) -> Result<Vec<RankedPath<'t>>, AllocError>
        ensures all { IfOk result (λ sorted. IsPermutation ranked.entry.items sorted.items) }
        ensures sorted { IfOk result (λ sorted.
            IsSorted (ranked_order (placed_of self.now)) sorted.items) }
    {
        ranked.sort_by(|one, other| self.order(one, other))?;
        Ok(ranked)
    }

    /// Finds which of the valid paths to the certificate at a place in a tree is shown.
    ///
    /// It is the path of whose certificates, from the bottom up, the most name the file of the
    /// certificate above by their caIssuers URI: `rsync://` and that file's name below the directory
    /// that is named, as in a cache that is laid out by URI, or the name of a copy. Then it is the
    /// shortest path, and then the one whose CAs' bytes are least (own). So which one it is doesn't
    /// depend on the order of the paths, and a path all of whose certificates are named is shown
    /// however many other paths there are ([`crate::laws::named_is_shown`]).
    ///
    /// # Errors
    ///
    /// Returns an error only if memory runs out.
    pub fn shown_paths<'t>(
        &self,
        alloc: Global,
        issuers: &Issuers,
        tree: &'t Tree<'_, '_>,
        place: usize,
        paths: &'t AcceptedPaths,
    ) -> Result<ShownPaths<'t>, AllocError>
        requires { AreTreeIssuers self.now issuers.now }
        ensures { IfOk result (AreShown (placed_of self.now) tree.now place paths.now) }
    {
        laws::unambiguous();
        let more = paths.more;
        if is_alone(tree, place, paths) {
            let others = Vec::new(alloc);
            let shown = &paths.first;
            return Ok(ShownPaths {
                shown,
                others,
                more,
            });
        }
        let ranked = self.sorted(self.ranked_choice(alloc, issuers, tree, place, paths)?)?;
        let Some((first, behind)) = ranked.split_first() else {
            unreachable!();
        };
        let shown = first.path;
        let others = paths_of(alloc, behind)?;
        Ok(ShownPaths {
            shown,
            others,
            more,
        })
    }
}

// Whether two sets of addresses are the same.
fn same_addresses(one: &IpBlocks, other: &IpBlocks) -> bool
    ensures { IsTrue result ↔ AreSame one.now other.now }
{
    one.is_encompassed(other) && other.is_encompassed(one)
}

// Whether two sets of AS numbers are the same.
fn same_numbers(one: &AsBlocks, other: &AsBlocks) -> bool
    ensures { IsTrue result ↔ AreSame one.now other.now }
{
    one.is_encompassed(other) && other.is_encompassed(one)
}

/// Returns whether two paths give the same resources: to the certificate, or, if it is a router's, to
/// the CA above it.
pub fn hold_same(one: &FoundPath, other: &FoundPath) -> bool
    ensures { IsTrue result ↔ HoldSame one.now.judged.holder other.now.judged.holder }
{
    let one = &one.judged.holder;
    let other = &other.judged.holder;
    same_addresses(one.v4_resources(), other.v4_resources())
        && same_addresses(one.v6_resources(), other.v6_resources())
        && same_numbers(one.as_resources(), other.as_resources())
}
