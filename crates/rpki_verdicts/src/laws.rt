//! Laws about the trees of files.
ghost use Rattle.std.specs.Prelude.{◌↔◌, ◌+◌, List, Result};
ghost use Rattle.rpki_cert.specs.Certificates.{CertFields};
ghost use Rattle.rpki_cert.specs.Verification.{context};
ghost use Rattle.rpki_files.specs.Files.{FileFields};
ghost use Rattle.rpki_folder.specs.Walks.{Covers};
ghost use Rattle.rpki_isolation.specs.ToldWalks.{BeginAlike, IsAllFreeOf, SayAlike};
ghost use Rattle.rpki_keys.specs.RsaSignatures.{IsSignedByRsa};
ghost use Rattle.rpki_parts.specs.Keys.{KeyFields};
ghost use Rattle.rpki_path.specs.Paths.{Path, last};
ghost use Rattle.rpki_path.specs.declared.judging.Judged.{Judged};
ghost use Rattle.rpki_path.specs.declared.path_fault.PathFault.{PathFault};
ghost use Rattle.rpki_verdicts.specs.GivenLocators.{LocatorFields};
ghost use Rattle.rpki_verdicts.specs.IsolatedTrees.{AreWithAndWithout, HasEnoughIn, IsAcceptedIn, IsVerdictIn, about, folder_of};
ghost use Rattle.rpki_verdicts.specs.ShownPaths.{ShowByRanks};
ghost use Rattle.rpki_verdicts.specs.ShownTrees.{ShowsNamed};
ghost use Rattle.rpki_verdicts.specs.Trees.{TreeFields};
ghost use Rattle.rpki_verdicts.specs.declared.unordered.Tree.{Tree};

use rpki_cert::laws;
use rpki_folder::Firsts;
use rpki_keys::RsaVerifier;

// Both trees have the same trust anchor.
fn same_anchors()
    ensures { (q : TreeFields) (files : List FileFields) (l : LocatorFields)
        (keys : List KeyFields) (one other : Tree)
        → let x = context IsSignedByRsa q.at q.strict in
        (both : AreWithAndWithout x q files l keys one other)
        → BeginAlike both.without.anchor.octets both.with_them.anchor.octets }
{
    rpki_isolation::laws::isolated_anchors::<RsaVerifier>();
}

/// States what strangers can't change of the tree of a TAL, by files that they add among the others.
///
/// Take a question, and the same question about more files. Each added certificate and CRL was signed
/// by one of some keys, or by none, or is a copy, as in [`rpki_folder::laws::isolated`]; the TAL's
/// key is none of these. Then both trees have the same trust anchor (`anchor`). Take a path on which
/// no CA has one of these keys:
///
/// - Two verdicts on one certificate below the path, one of each tree, are the same (`alike`), but for
///   the reason if no CRL can be used.
/// - If the path's CAs have enough steps in the tree without the added files, both trees accept the
///   same certificates below the path (`bounded`), however their walks ended. So it is, too, if the
///   walk of that tree met no limit (`unharmed`).
pub fn isolated_trees()
    ensures anchor { (q : TreeFields) (files : List FileFields) (l : LocatorFields)
        (keys : List KeyFields) (one other : Tree)
        → let x = context IsSignedByRsa q.at q.strict in
        (both : AreWithAndWithout x q files l keys one other)
        → BeginAlike both.without.anchor.octets both.with_them.anchor.octets }
    ensures alike { (q : TreeFields) (files : List FileFields) (l : LocatorFields)
        (keys : List KeyFields) (one other : Tree)
        → let x = context IsSignedByRsa q.at q.strict in
        (both : AreWithAndWithout x q files l keys one other)
        → (p : Path) → IsAllFreeOf keys p → (c : CertFields) (said says : Result Judged PathFault)
        → IsVerdictIn x q l one both.without p c said
        → IsVerdictIn x (about q files) l other both.with_them p c says
        → SayAlike q.names x (folder_of x q l one both.without) p c said says }
    ensures bounded { (q : TreeFields) (files : List FileFields) (l : LocatorFields)
        (keys : List KeyFields) (one other : Tree)
        → let x = context IsSignedByRsa q.at q.strict in
        (both : AreWithAndWithout x q files l keys one other)
        → (p : Path) → IsAllFreeOf keys p → HasEnoughIn x q l one both.without p → (c : CertFields)
        → IsAcceptedIn x q l one both.without p c
        ↔ IsAcceptedIn x (about q files) l other both.with_them p c }
    ensures unharmed { (q : TreeFields) (files : List FileFields) (l : LocatorFields)
        (keys : List KeyFields) (one other : Tree)
        → let x = context IsSignedByRsa q.at q.strict in
        (both : AreWithAndWithout x q files l keys one other)
        → (p : Path) → IsAllFreeOf keys p → Covers one.ended q.depth (last p + 1)
        → (c : CertFields)
        → IsAcceptedIn x q l one both.without p c
        ↔ IsAcceptedIn x (about q files) l other both.with_them p c }
{
    same_anchors();
    rpki_isolation::laws::isolated_walks::<Firsts, Firsts, RsaVerifier>();
    rpki_isolation::laws::admitted_once::<RsaVerifier>();
}

/// States that the path which is shown to a certificate doesn't depend on the order of the paths, nor on
/// that of the files. Take paths in one tree and paths in another one, as over the same files in another
/// order. If the same ranks are among both, the paths that are shown have the same rank: as many
/// certificates name the file of the one above, and the bytes of the CAs' files are the same.
pub fn shown_by_ranks()
    ensures { ShowByRanks }
{}

/// States that nobody hides the named path to a certificate. Take a tree, and a path on which each
/// certificate, from the bottom up to the trust anchor, names the file of the one above. If the tree's walk
/// accepted a certificate by that path, it is the path that is shown, whatever else is among the files. The
/// walk does so if the path is valid, is no circle, and is within the walk's limits.
pub fn named_is_shown()
    ensures { (q : TreeFields) → ShowsNamed (context IsSignedByRsa q.at q.strict) q }
{
    laws::unambiguous();
}
