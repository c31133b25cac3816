//! The finding on each file of a tree.
ghost use Rattle.std.specs.Prelude.{◌≡◌, ◌≤◌, ◌<◌, ◌+◌, ◌^◌, option_map, IfOk};
ghost use Rattle.rpki_cert.specs.SaidKinds.{SaysKind};
ghost use Rattle.rpki_path.specs.Judging.{last_certificate};
ghost use Rattle.rpki_verdicts.specs.PathAnswers.{reason_of};
ghost use Rattle.rpki_verdicts.specs.Reasons.{IsPathReason};
ghost use Rattle.rpki_verdicts.specs.ShownPaths.{placed_of};
ghost use Rattle.rpki_verdicts.specs.TreeParts.{wrong_at};
ghost use Rattle.rpki_verdicts.specs.UnseenCertificates.{AreTreeIssuers};
ghost use Rattle.rpki_answers.specs.TreeDocuments.{is_unaccepted, said_error, unseen_word, word_key, word_label, word_of};
ghost use Rattle.rpki_answers.specs.TreeRows.{AreRows, IsTreeRow, IsUnaskedKey, SaysAccepted, SaysAnswer, SaysCertificate, SaysLine, SaysUnseen, is_unasked};

use rpki_cert::{Kind, said_kind};
use rpki_files::{BareObject, Front};
use rpki_folder::{AcceptedPaths, Limit, Line, Unseen};
use rpki_parts::KeyIdentifier;
use rpki_path::{Judged, PathFault};
use rpki_verdicts::reasons::of_path;
use rpki_verdicts::{Fault, Issuers, ShownPaths, Tree, TreeAnswer, Trees, signer_of};
use std::alloc::{AllocError, Global};

/// The finding on a file.
#[derive(Drop)]
pub enum Said<'t, 'q, 'n> {
    /// Its certificate is a trust anchor, or a copy of one.
    Anchor,
    /// Its certificate is accepted in a tree, by these paths, as a certificate of this kind.
    Accepted(&'t Tree<'q, 'n>, ShownPaths<'t>, Kind),
    /// Its certificate is rejected.
    Rejected(Fault),
    /// There is no verdict on its certificate, for this reason; and the name of the error of a rejected
    /// issuer.
    Unseen(Unseen, Option<&'static str>),
    /// It is a CRL.
    Crl,
    /// It is neither a certificate nor a CRL.
    Neither,
}

/// A file, the number of bytes after its object, the finding on it, the key of its issuer if that has
/// no current CRL, and the limit that a walk reached below its certificate.
#[derive(Drop)]
pub struct Row<'t, 'q, 'n> {
    pub file: &'q BareObject<'n>,
    pub left: usize,
    pub said: Said<'t, 'q, 'n>,
    pub unasked: Option<KeyIdentifier>,
    pub limit: Option<Limit>,
}

/// The word for a finding.
#[derive(Clone, Copy)]
pub enum Word {
    Anchor,
    Accepted,
    Rejected,
    BelowRejected,
    BelowUnseen,
    NotLookedAt,
    NotIssued,
    NotCa,
    NoIssuer,
    Crl,
    Neither,
}

impl Word {
    /// Returns the word for a person.
    pub fn label(self) -> &'static str
        ensures { result.now ≡ word_label self }
    {
        match self {
            Word::Anchor => "trust anchor",
            Word::Accepted => "accepted",
            Word::Rejected => "rejected",
            Word::BelowRejected => "below a rejected CA",
            Word::BelowUnseen => "below an unjudged CA",
            Word::NotLookedAt => "not looked at",
            Word::NotIssued => "not issued by a CA here",
            Word::NotCa => "issuer isn't a CA",
            Word::NoIssuer => "no issuer here",
            Word::Crl => "CRL",
            Word::Neither => "neither certificate nor CRL",
        }
    }
    /// Returns the word for a program.
    pub fn key(self) -> &'static str
        ensures { result.now ≡ word_key self }
    {
        match self {
            Word::Anchor => "trust_anchor",
            Word::Accepted => "accepted",
            Word::Rejected => "rejected",
            Word::BelowRejected => "below_rejected",
            Word::BelowUnseen => "below_unseen",
            Word::NotLookedAt => "not_looked_at",
            Word::NotIssued => "not_issued",
            Word::NotCa => "issuer_not_ca",
            Word::NoIssuer => "no_issuer",
            Word::Crl => "crl",
            Word::Neither => "neither",
        }
    }
    /// Returns whether the certificate of such a file isn't accepted.
    pub fn is_unaccepted(self) -> bool
        ensures { result ≡ is_unaccepted self }
    {
        match self {
            Word::Anchor | Word::Accepted | Word::Crl | Word::Neither => false,
            Word::Rejected
            | Word::BelowRejected
            | Word::BelowUnseen
            | Word::NotLookedAt
            | Word::NotIssued
            | Word::NotCa
            | Word::NoIssuer => true,
        }
    }
}

/// Returns the word of a certificate on which there is no verdict.
pub(crate) fn unseen_word(why: Unseen) -> Word
    ensures { result ≡ unseen_word why }
{
    match why {
        Unseen::NoIssuer => Word::NoIssuer,
        Unseen::NotBelow(_) => Word::NotIssued,
        Unseen::NotCa(_) => Word::NotCa,
        Unseen::NotLookedAt(..) => Word::NotLookedAt,
        Unseen::BelowRejected(_) => Word::BelowRejected,
        Unseen::BelowUnseen(_) => Word::BelowUnseen,
    }
}

impl Said<'_, '_, '_> {
    /// Returns the word for it.
    pub fn word(&self) -> Word
        ensures { result ≡ word_of self.now }
    {
        match self {
            Said::Anchor => Word::Anchor,
            Said::Accepted(..) => Word::Accepted,
            Said::Rejected(_) => Word::Rejected,
            Said::Unseen(why, _) => unseen_word(*why),
            Said::Crl => Word::Crl,
            Said::Neither => Word::Neither,
        }
    }
    /// Returns the name of the error, if the certificate is rejected.
    pub fn error(&self) -> Option<&'static str>
        ensures { option_map (λ name. name.now) result ≡ said_error self.now }
    {
        match self {
            Said::Rejected(fault) => Some(fault.name),
            Said::Anchor | Said::Accepted(..) | Said::Unseen(..) | Said::Crl | Said::Neither =>
                None,
        }
    }
}

// The kind of an accepted certificate, as it says.
fn judged_as(judged: &Judged) -> Kind
    ensures { let c = last_certificate judged.now.holder judged.now.router in
        SaysKind result c.fields }
{
    match &judged.router {
        Some(cert) => said_kind(cert.as_tbs()),
        None => said_kind(judged.holder.as_cert().as_tbs()),
    }
}

// The error of a certificate that was rejected at a path index.
fn fault_of(index: usize, error: &PathFault, file: &BareObject<'_>) -> Fault
    ensures index { result.index ≡ index }
    ensures reason { IsPathReason error.now file.now.octets (reason_of result) }
{
    let (step, name, rule) = of_path(error, file.octets());
    Fault {
        index,
        step,
        name,
        rule,
    }
}

// The finding on a certificate without a verdict.
fn said_unseen<'t, 'q, 'n>(
    trees: &'t Trees<'q, 'n>,
    issuers: &Issuers,
    place: usize,
    file: &BareObject<'_>,
) -> Said<'t, 'q, 'n>
    requires { AreTreeIssuers trees.now issuers.now }
    ensures { SaysUnseen trees.now file.now (wrong_at trees.now.parts.items place) result }
{
    match trees.wrong_at(place) {
        Some(wrong) => Said::Rejected(wrong.fault),
        None => {
            let why = trees.unseen(issuers, file);
            Said::Unseen(why, trees.error_above(why))
        }
    }
}

// The finding on a certificate that is accepted by these paths.
fn said_accepted<'t, 'q, 'n>(
    alloc: Global,
    trees: &'t Trees<'q, 'n>,
    issuers: &Issuers,
    tree: &'t Tree<'q, 'n>,
    place: usize,
    paths: &'t AcceptedPaths,
) -> Result<Said<'t, 'q, 'n>, AllocError>
    requires { AreTreeIssuers trees.now issuers.now }
    ensures { IfOk result (SaysAccepted (placed_of trees.now) tree.now place paths.now) }
{
    let shown = trees.shown_paths(alloc, issuers, tree, place, paths)?;
    let kind = judged_as(&shown.shown.judged);
    Ok(Said::Accepted(tree, shown, kind))
}

// The finding on a certificate by its line.
fn said_by_line<'t, 'q, 'n>(
    alloc: Global,
    trees: &'t Trees<'q, 'n>,
    issuers: &Issuers,
    tree: &'t Tree<'q, 'n>,
    place: usize,
    file: &BareObject<'_>,
    line: Option<&'t Line>,
) -> Result<Said<'t, 'q, 'n>, AllocError>
    requires { AreTreeIssuers trees.now issuers.now }
    ensures { let its = option_map (λ l. l.now) line.entry in
        IfOk result (SaysLine trees.now tree.now place file.now its) }
{
    match line {
        Some(Line::Accepted(paths)) => said_accepted(alloc, trees, issuers, tree, place, paths),
        Some(Line::Rejected(index, error)) => Ok(Said::Rejected(fault_of(*index, error, file))),
        Some(Line::Unseen) | None => Ok(said_unseen(trees, issuers, place, file)),
    }
}

// The finding on a certificate by the answer on a TAL.
fn said_by_answer<'t, 'q, 'n>(
    alloc: Global,
    trees: &'t Trees<'q, 'n>,
    issuers: &Issuers,
    answer: &'t TreeAnswer<'q, 'n>,
    place: usize,
    file: &BareObject<'_>,
) -> Result<Said<'t, 'q, 'n>, AllocError>
    requires { AreTreeIssuers trees.now issuers.now }
    ensures { IfOk result (SaysAnswer trees.now place file.now answer.now) }
{
    match answer {
        TreeAnswer::NoAnchor(_) => Ok(said_unseen(trees, issuers, place, file)),
        TreeAnswer::Walked(tree) => {
            if tree.is_anchor_at(place) {
                return Ok(Said::Anchor);
            }
            said_by_line(alloc, trees, issuers, tree, place, file, tree.line(place))
        }
    }
}

// The finding on the certificate at a place.
fn said_of_certificate<'t, 'q, 'n>(
    alloc: Global,
    trees: &'t Trees<'q, 'n>,
    issuers: &Issuers,
    place: usize,
    file: &BareObject<'_>,
) -> Result<Said<'t, 'q, 'n>, AllocError>
    requires { AreTreeIssuers trees.now issuers.now }
    ensures { IfOk result (SaysCertificate trees.now place file.now) }
{
    match trees.shown_part(place) {
        Some(part) => said_by_answer(alloc, trees, issuers, &part.answer, place, file),
        None => Ok(said_unseen(trees, issuers, place, file)),
    }
}

// Whether a certificate is rejected since its issuer has no current CRL.
fn is_unasked(said: &Said<'_, '_, '_>) -> bool
    ensures { result ≡ is_unasked said.now }
{
    match said {
        Said::Rejected(fault) => fault.step == "revocation" && fault.name != "Revoked",
        Said::Anchor | Said::Accepted(..) | Said::Unseen(..) | Said::Crl | Said::Neither => false,
    }
}

// The key of the issuer, if that has no current CRL.
fn unasked_key(file: &BareObject<'_>, said: &Said<'_, '_, '_>) -> Option<KeyIdentifier>
    ensures { IsUnaskedKey file.now said.now result }
{
    if is_unasked(said) {
        signer_of(file)
    } else {
        None
    }
}

// A row of a file before the certificate at this place, and the place of the next certificate.
fn row_of<'t, 'q, 'n>(
    alloc: Global,
    trees: &'t Trees<'q, 'n>,
    issuers: &Issuers,
    place: usize,
    file: &'q BareObject<'n>,
) -> Result<(usize, Row<'t, 'q, 'n>), AllocError>
    requires issuers { AreTreeIssuers trees.now issuers.now }
    requires place { place + 1 < 2 ^ 64 }
    ensures next { IfOk result (λ it. it.0 ≤ place + 1) }
    ensures row { IfOk result (λ it. IsTreeRow trees.now place it.0 file.now it.1) }
{
    let left = file.left();
    let (next, said, limit) = match file.front() {
        Front::Certificate(_) => {
            let said = said_of_certificate(alloc, trees, issuers, place, file)?;
            (place + 1, said, trees.limit_at(place))
        }
        Front::List => (place, Said::Crl, None),
        Front::Neither => (place, Said::Neither, None),
    };
    let unasked = unasked_key(file, &said);
    let row = Row {
        file,
        left,
        said,
        unasked,
        limit,
    };
    Ok((next, row))
}

/// Finds the row of each file.
///
/// # Errors
///
/// Returns an error only if memory runs out.
pub fn rows_of<'t, 'q, 'n>(
    alloc: Global,
    trees: &'t Trees<'q, 'n>,
    issuers: &Issuers,
    files: &'q [BareObject<'n>],
) -> Result<Vec<Row<'t, 'q, 'n>>, AllocError>
    requires { AreTreeIssuers trees.now issuers.now }
    ensures { IfOk result (λ rows. AreRows trees.now files.now rows.items) }
{
    let mut rows = Vec::new(alloc);
    let mut place = 0;
    for file in files {
        let (next, row) = row_of(alloc, trees, issuers, place, file)?;
        rows.push(row)?;
        place = next;
    }
    Ok(rows)
}
