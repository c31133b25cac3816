//! The counts of rows, their errors, and the damage of a cache.
ghost use Rattle.std.specs.List.{list_any};
ghost use Rattle.std.specs.Str.{bytes_eq};
ghost use Rattle.std.specs.Prelude.{◌≡◌, ◌∷◌, [], Some, count_by, length, map, option_map, IfOk, OnOk};
ghost use Rattle.rpki_document.specs.Building.{Adds};
ghost use Rattle.rpki_document.specs.Documents.{count};
ghost use Rattle.rpki_answers.specs.TreeDocuments.{count_line, count_lines, count_of, counts_node, damage_nodes, error_node, errors_node, errors_of, has_error, has_word, unasked_of, with_error, with_unasked};

use crate::tree_rows::{Row, Word};
use rpki_document::{Leaf, Part, Piece, add_each, add_inside, add_line, add_told};
use rpki_parts::KeyIdentifier;
use rpki_verdicts::Trees;
use std::alloc::{AllocError, Global};
use std::collections::BTreeSet;

fn has_word(row: &Row<'_, '_, '_>, word: Word) -> bool
    ensures { result ≡ has_word word row.now }
{
    row.said.word().key() == word.key()
}

fn count_of(rows: &[Row<'_, '_, '_>], word: Word) -> usize
    ensures count { result ≡ count_of word rows.now }
{
    let mut count = 0;
    for row in rows {
        if has_word(row, word) {
            count += 1;
        }
    }
    count
}

// The number of rows with a word.
fn add_count<'p>(
    parts: &mut Vec<Part<'p>>,
    alloc: Global,
    label: &'p str,
    word: Word,
    rows: &[Row<'_, '_, '_>],
) -> Result<(), AllocError>
    ensures { OnOk result
        (Adds (count_line label.now word rows.now ∷ []) parts.old.items parts.new.items) }
{
    let count = count_of(rows, word);
    add_told(parts, alloc, label, word.key(), Leaf::Count(count as u64))
}

fn add_counts<'p>(
    parts: &mut Vec<Part<'p>>,
    alloc: Global,
    rows: &[Row<'_, '_, '_>],
) -> Result<(), AllocError>
    ensures { OnOk result (Adds (count_lines rows.now) parts.old.items parts.new.items) }
{
    add_count(parts, alloc, "Trust anchors", Word::Anchor, rows)?;
    add_count(parts, alloc, "Accepted", Word::Accepted, rows)?;
    add_count(parts, alloc, "Rejected", Word::Rejected, rows)?;
    let word = Word::BelowRejected;
    add_count(parts, alloc, "Below a rejected CA", word, rows)?;
    let word = Word::BelowUnseen;
    add_count(parts, alloc, "Below an unjudged CA", word, rows)?;
    add_count(parts, alloc, "Not looked at", Word::NotLookedAt, rows)?;
    let word = Word::NotIssued;
    add_count(parts, alloc, "Not issued by a CA here", word, rows)?;
    add_count(parts, alloc, "Issuer isn't a CA", Word::NotCa, rows)?;
    add_count(parts, alloc, "No issuer here", Word::NoIssuer, rows)?;
    add_count(parts, alloc, "CRLs", Word::Crl, rows)?;
    add_count(parts, alloc, "Other files", Word::Neither, rows)
}

pub fn add_all_counts<'p>(
    parts: &mut Vec<Part<'p>>,
    alloc: Global,
    trees: &Trees<'_, '_>,
    rows: &[Row<'_, '_, '_>],
) -> Result<(), AllocError>
    ensures { let its = counts_node trees.now rows.now in
        OnOk result (Adds (its ∷ []) parts.old.items parts.new.items) }
{
    let mut counts = Vec::new(alloc);
    let count = Leaf::Count(trees.certs.len() as u64);
    add_told(&mut counts, alloc, "Certificates", "certificates", count)?;
    add_counts(&mut counts, alloc, rows)?;
    add_inside(parts, "counts", counts)
}

// Whether one of the names is this.
fn has_name(names: &[&'static str], name: &'static str) -> bool
    ensures { result ≡ list_any (λ one. bytes_eq one.now name.now) names.now }
{
    names.iter().any(|one| *one == name)
}

// Adds an error, if it is new.
fn push_new(names: &mut Vec<&'static str>, error: &'static str) -> Result<(), AllocError>
    ensures { OnOk result (map (λ n. n.now) names.new.items
        ≡ with_error (map (λ n. n.now) names.old.items) (Some error.now)) }
{
    if has_name(names, error) {
        return Ok(());
    }
    names.push(error)?;
    Ok(())
}

// Adds the error of a row, if it has one.
fn push_error(names: &mut Vec<&'static str>, error: Option<&'static str>) -> Result<(), AllocError>
    ensures { OnOk result (map (λ n. n.now) names.new.items
        ≡ with_error (map (λ n. n.now) names.old.items) (option_map (λ n. n.now) error.entry)) }
{
    match error {
        Some(error) => push_new(names, error),
        None => Ok(()),
    }
}

// The errors of rows, each once.
fn errors_of(alloc: Global, rows: &[Row<'_, '_, '_>]) -> Result<Vec<&'static str>, AllocError>
    ensures { IfOk result (λ names. map (λ n. n.now) names.items ≡ errors_of rows.now) }
{
    let mut names = Vec::new(alloc);
    for row in rows {
        push_error(&mut names, row.said.error())?;
    }
    Ok(names)
}

fn has_error(row: &Row<'_, '_, '_>, name: &str) -> bool
    ensures { result ≡ has_error name.now row.now }
{
    match row.said.error() {
        Some(error) => error == name,
        None => false,
    }
}

fn count_error(rows: &[Row<'_, '_, '_>], name: &str) -> usize
    ensures { result ≡ count_by (has_error name.now) rows.now }
{
    let mut count = 0;
    for row in rows {
        if has_error(row, name) {
            count += 1;
        }
    }
    count
}

fn add_error<'p>(
    parts: &mut Vec<Part<'p>>,
    alloc: Global,
    rows: &[Row<'_, '_, '_>],
    name: &'p str,
) -> Result<(), AllocError>
    ensures { OnOk result
        (Adds (error_node rows.now name.now ∷ []) parts.old.items parts.new.items) }
{
    let count = count_error(rows, name);
    let pieces = vec![in alloc;
        Piece::Tell("fault", Leaf::Text(name)),
        Piece::Say(": "),
        Piece::Tell("count", Leaf::Count(count as u64)),
    ]?;
    let mut own = Vec::new(alloc);
    add_line(&mut own, "Error", pieces)?;
    add_inside(parts, "", own)
}

pub fn add_errors(
    parts: &mut Vec<Part<'_>>,
    alloc: Global,
    rows: &[Row<'_, '_, '_>],
) -> Result<(), AllocError>
    ensures { OnOk result (Adds (errors_node rows.now ∷ []) parts.old.items parts.new.items) }
{
    let names = errors_of(alloc, rows)?;
    let mut each = Vec::new(alloc);
    for name in &names {
        add_error(&mut each, alloc, rows, *name)?;
    }
    add_each(parts, "errors", each)
}

// Adds the key of a row's issuer, if that has no current CRL.
fn add_unasked(
    keys: &mut BTreeSet<[u8; 20]>,
    unasked: Option<KeyIdentifier>,
) -> Result<(), AllocError>
    ensures { OnOk result (keys.new.keys ≡ with_unasked keys.old.keys unasked) }
{
    let Some(key) = unasked else {
        return Ok(());
    };
    keys.insert(*key.as_octets())?;
    Ok(())
}

// The number of CAs without a current CRL.
fn count_unasked(alloc: Global, rows: &[Row<'_, '_, '_>]) -> Result<usize, AllocError>
    ensures { IfOk result (λ count. count ≡ length (unasked_of rows.now)) }
{
    let mut keys = BTreeSet::new(alloc);
    for row in rows {
        add_unasked(&mut keys, row.unasked)?;
    }
    Ok(keys.len())
}

/// Adds the damage of a cache.
pub fn add_damage(
    parts: &mut Vec<Part<'_>>,
    alloc: Global,
    trees: &Trees<'_, '_>,
    rows: &[Row<'_, '_, '_>],
) -> Result<(), AllocError>
    ensures { OnOk result
        (Adds (damage_nodes trees.now rows.now) parts.old.items parts.new.items) }
{
    let unasked = count_unasked(alloc, rows)?;
    let lists = Leaf::Count(trees.broken_lists as u64);
    add_told(parts, alloc, "Malformed CRLs", "malformed_crls", lists)?;
    let unasked = Leaf::Count(unasked as u64);
    add_told(
        parts,
        alloc,
        "CAs without current CRL",
        "cas_without_current_crl",
        unasked,
    )?;
    let others = Leaf::Count(trees.others as u64);
    add_told(parts, alloc, "Unknown files", "unknown_files", others)?;
    let only = Leaf::Flag(trees.are_anchors());
    add_told(
        parts,
        alloc,
        "Trust anchors only",
        "only_trust_anchors",
        only,
    )
}
