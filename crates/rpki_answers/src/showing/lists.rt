//! The document of a CRL.
ghost use Rattle.std.specs.Prelude.{◌≡◌, ◌||◌, [], ◌∷◌, nat_le, IfSome, OnOk, length, map, take};
ghost use Rattle.rpki_document.specs.Building.{Adds};
ghost use Rattle.rpki_document.specs.Views.{leaf_view};
ghost use Rattle.rpki_answers.specs.ShownLists.{entry_node, entry_nodes, few, list_head, list_nodes, revocation_node, revoked_nodes, update_nodes};

use crate::told::{add_until, identifier_leaf, moment_leaf, name_leaf, printed};
use rpki_crl::{RevokedCertificates, TbsCertList};
use rpki_der::{Serial, Time};
use rpki_document::{Leaf, Parts, Piece, add_each, add_further, add_inside, add_line, add_told};
use rpki_text::moments::Period;
use std::alloc::{AllocError, Global};

// The number of revoked certificates that are shown, unless all are.
const FEW: u64 = 5;

// The number of revoked certificates, if it is below 2^64.
fn count_of(revoked: &RevokedCertificates) -> Option<u64>
    ensures { IfSome result (λ n. n ≡ length revoked.now.entries) }
{
    let mut count = 0u64;
    for _entry in revoked.iter() {
        count = count.checked_add(1)?;
    }
    Some(count)
}

fn add_revocation<'p>(
    parts: &mut Parts<'p>,
    alloc: Global,
    serial: Leaf<'p>,
    date: Leaf<'p>,
) -> Result<(), AllocError>
    ensures { let its = revocation_node (leaf_view serial.entry) (leaf_view date.entry) in
        OnOk result (Adds (its ∷ []) parts.old.items parts.new.items) }
{
    let pieces = vec![in alloc;
        Piece::Tell("serial", serial),
        Piece::Say("  "),
        Piece::Tell("date", date),
    ]?;
    let mut own = Vec::new(alloc);
    add_further(&mut own, pieces)?;
    add_inside(parts, "", own)
}

fn add_entry(
    parts: &mut Parts<'_>,
    alloc: Global,
    serial: Serial,
    date: Time,
) -> Result<(), AllocError>
    ensures { let its = entry_node (record { serial = serial; date = date }) in
        OnOk result (Adds (its ∷ []) parts.old.items parts.new.items) }
{
    let serial = printed(alloc, &serial)?;
    let date = moment_leaf(alloc, date)?;
    add_revocation(parts, alloc, serial, date)
}

// So many of the first revoked certificates.
fn add_first(
    parts: &mut Parts<'_>,
    alloc: Global,
    revoked: &RevokedCertificates,
    count: u64,
) -> Result<(), AllocError>
    ensures { let its = map entry_node (take count revoked.now.entries) in
        OnOk result (Adds its parts.old.items parts.new.items) }
{
    let mut left = count;
    for entry in revoked.iter() {
        if left == 0 {
            return Ok(());
        }
        left -= 1;
        add_entry(parts, alloc, entry.user_certificate, entry.revocation_date)?;
    }
    Ok(())
}

// All revoked certificates, which are so many; or the first few, and two dots.
fn add_entries(
    parts: &mut Parts<'_>,
    alloc: Global,
    revoked: &RevokedCertificates,
    count: u64,
    whole: bool,
) -> Result<(), AllocError>
    requires { count ≡ length revoked.now.entries }
    ensures { OnOk result
        (Adds (entry_nodes whole revoked.now.entries) parts.old.items parts.new.items) }
{
    if whole {
        return add_first(parts, alloc, revoked, count);
    }
    add_first(parts, alloc, revoked, FEW)?;
    let pieces = vec![in alloc; Piece::Say("..")]?;
    add_further(parts, pieces)
}

// Whether all of so many are shown.
fn is_whole(all: bool, count: u64) -> bool
    ensures { result ≡ (all || nat_le count few) }
{
    all || count <= FEW
}

fn add_revoked(
    parts: &mut Parts<'_>,
    alloc: Global,
    revoked: &RevokedCertificates,
    all: bool,
) -> Result<(), AllocError>
    ensures { OnOk result
        (Adds (revoked_nodes all revoked.now.entries) parts.old.items parts.new.items) }
{
    let Some(count) = count_of(revoked) else {
        return Err(AllocError);
    };
    let pieces = vec![in alloc; Piece::Show(Leaf::Count(count))]?;
    add_line(parts, "Revoked", pieces)?;
    let mut entries = Vec::new(alloc);
    let whole = is_whole(all, count);
    add_entries(&mut entries, alloc, revoked, count, whole)?;
    add_each(parts, "revoked_certs", entries)
}

// The issuer, its key, and the number.
fn add_head(
    parts: &mut Parts<'_>,
    alloc: Global,
    fields: &TbsCertList<RevokedCertificates>,
) -> Result<(), AllocError>
    ensures { OnOk result (Adds (list_head fields.now) parts.old.items parts.new.items) }
{
    add_told(parts, alloc, "Kind", "type", Leaf::Words("CRL", "crl"))?;
    let issuer = name_leaf(alloc, fields.issuer())?;
    add_told(parts, alloc, "Issuer", "crl_issuer", issuer)?;
    let key = identifier_leaf(alloc, fields.authority_key_identifier())?;
    add_told(parts, alloc, "Authority key identifier", "aki", key)?;
    let number = printed(alloc, &fields.crl_number())?;
    add_told(parts, alloc, "CRL number", "crl_serial", number)
}

fn add_updates(
    parts: &mut Parts<'_>,
    alloc: Global,
    from: Time,
    until: Time,
    at: Time,
) -> Result<(), AllocError>
    ensures { OnOk result (Adds (update_nodes from until at) parts.old.items parts.new.items) }
{
    let since = moment_leaf(alloc, from)?;
    add_told(parts, alloc, "This update", "valid_since", since)?;
    let period = Period {
        ends: "goes stale",
        ended: "went stale",
        from,
        until,
        at,
    };
    add_until(parts, alloc, "Next update", "valid_until", &period)
}

/// Adds a CRL at a validation time, with all revoked certificates or the first few, but for its
/// signature.
pub fn add_list(
    parts: &mut Parts<'_>,
    alloc: Global,
    fields: &TbsCertList<RevokedCertificates>,
    now: Time,
    all: bool,
) -> Result<(), AllocError>
    ensures { OnOk result (Adds (list_nodes fields.now now all) parts.old.items parts.new.items) }
{
    add_head(parts, alloc, fields)?;
    let until = fields.next_update();
    add_updates(parts, alloc, fields.this_update(), until, now)?;
    add_revoked(parts, alloc, fields.revoked_certs(), all)
}
