//! The resources of an accepted path, and what was checked.
ghost use Rattle.std.specs.Prelude.{◌≡◌, [], ◌∷◌, All, None, Some, length, OnOk};
ghost use Rattle.rpki_document.specs.Building.{Adds, AddsSome};
ghost use Rattle.rpki_document.specs.Views.{leaf_view};
ghost use Rattle.rpki_parts.specs.Keys.{key_identifier};
ghost use Rattle.rpki_text.specs.KeyTexts.{IsKeyAnswer};
ghost use Rattle.rpki_verdicts.specs.GivenLocators.{IsRead};
ghost use Rattle.rpki_answers.specs.Verdicts.{AreAcceptance, AreHeld, IsTal, checked_nodes, holder_nodes, read_tal, revocation_told, router_nodes, tal_line, unchecked, unchecked_anchor, unchecked_names, unchecked_nodes, uris_word};

use crate::told::{add_addresses, add_key, add_listed, add_numbers, identifier_leaf, printed};
use rpki_cert::{Cert, ResourceCert};
use rpki_document::{Leaf, Parts, Piece, add_each, add_inside, add_line, add_told};
use rpki_files::Object;
use rpki_keys::tal::Tal;
use rpki_parts::KeyIdentifier;
use rpki_path::Judged;
use rpki_text::blocks::Family;
use rpki_text::keys::answer_of;
use rpki_verdicts::{GivenLocator, Question, located};
use std::alloc::{AllocError, Global};

fn uris_word(count: u64) -> &'static str
    ensures { result.now ≡ uris_word count }
{
    if count == 1 {
        " URI, key "
    } else {
        " URIs, key "
    }
}

fn add_tal_line<'p>(
    parts: &mut Parts<'p>,
    alloc: Global,
    name: &'p str,
    uris: u64,
    key: &KeyIdentifier,
) -> Result<(), AllocError>
    ensures { OnOk result
        (Adds (tal_line name.now uris key.now ∷ []) parts.old.items parts.new.items) }
{
    let key = identifier_leaf(alloc, key)?;
    let pieces = vec![in alloc;
        Piece::Tell("tal_uris", Leaf::Count(uris)),
        Piece::Say(uris_word(uris)),
        Piece::Tell("tal_key", key),
        Piece::Say(", "),
        Piece::Tell("tal", Leaf::Text(name)),
    ]?;
    add_line(parts, "TAL", pieces)
}

fn add_tal<'p>(
    parts: &mut Parts<'p>,
    alloc: Global,
    name: &'p str,
    tal: &Tal,
) -> Result<(), AllocError>
    ensures { let t = tal.now.tal in
        let its = tal_line name.now (length t.uris) (key_identifier t.key) in
        OnOk result (Adds (its ∷ []) parts.old.items parts.new.items) }
{
    let uris = tal.uris().len() as u64;
    add_tal_line(parts, alloc, name, uris, &tal.key_info().key_identifier())
}

fn add_read_tal<'p>(
    parts: &mut Parts<'p>,
    alloc: Global,
    locator: &'p GivenLocator<'_>,
) -> Result<(), AllocError>
    ensures { let its = read_tal locator.now.file.name locator.now.read in
        OnOk result (Adds its parts.old.items parts.new.items) }
{
    match locator.tal() {
        Ok(tal) => add_tal(parts, alloc, locator.name(), tal),
        Err(_) => Ok(()),
    }
}

// The TAL of the trust anchor, if TALs are given.
fn add_located<'p>(
    parts: &mut Parts<'p>,
    alloc: Global,
    question: &Question<'p, '_>,
) -> Result<(), AllocError>
    requires { All (IsRead question.now.strict) question.now.locators }
    ensures { OnOk result (AddsSome (IsTal question.now) parts.old.items parts.new.items) }
{
    match located(question) {
        Some(locator) => add_read_tal(parts, alloc, locator),
        None => Ok(()),
    }
}

fn add_holder<'p>(
    parts: &mut Parts<'p>,
    alloc: Global,
    numbers: &'p str,
    ipv4: &'p str,
    ipv6: &'p str,
    holder: &ResourceCert,
) -> Result<(), AllocError>
    ensures { let its = holder_nodes numbers.now ipv4.now ipv6.now holder.now in
        OnOk result (Adds its parts.old.items parts.new.items) }
{
    add_numbers(parts, alloc, numbers, holder.as_resources())?;
    add_addresses(parts, alloc, ipv4, Family::V4, holder.v4_resources())?;
    add_addresses(parts, alloc, ipv6, Family::V6, holder.v6_resources())
}

fn add_router(parts: &mut Parts<'_>, alloc: Global, cert: &Cert) -> Result<(), AllocError>
    ensures { OnOk result ((key : _) × IsKeyAnswer cert.now.fields.key key
        × Adds (router_nodes cert.now key) parts.old.items parts.new.items) }
{
    let mut listed = Vec::new(alloc);
    let fields = cert.as_tbs();
    add_listed(
        &mut listed,
        alloc,
        "Router AS numbers",
        "Router IPv4",
        "Router IPv6",
        fields,
    )?;
    add_each(parts, "subordinate_resources", listed)?;
    let key = fields.subject_public_key_info();
    let found = answer_of(key);
    let said = printed(alloc, &found)?;
    let mut told = Vec::new(alloc);
    add_key(&mut told, alloc, "Router key", said, None, key, &found)?;
    add_inside(parts, "key", told)?;
    let leaf = identifier_leaf(alloc, &fields.subject_key_identifier())?;
    add_told(parts, alloc, "Router key identifier", "ski", leaf)
}

fn add_router_below(
    parts: &mut Parts<'_>,
    alloc: Global,
    cert: &Cert,
    holder: &ResourceCert,
) -> Result<(), AllocError>
    ensures { let Are = AreHeld holder.now (Some cert.now) in
        OnOk result (AddsSome Are parts.old.items parts.new.items) }
{
    let mut router = Vec::new(alloc);
    add_router(&mut router, alloc, cert)?;
    add_inside(parts, "router", router)?;
    let mut held = Vec::new(alloc);
    add_holder(
        &mut held,
        alloc,
        "Issuer's AS",
        "Issuer's IPv4",
        "Issuer's IPv6",
        holder,
    )?;
    add_each(parts, "issuer_holds", held)
}

fn add_own_resources(
    parts: &mut Parts<'_>,
    alloc: Global,
    holder: &ResourceCert,
) -> Result<(), AllocError>
    ensures { let Are = AreHeld holder.now None in
        OnOk result (AddsSome Are parts.old.items parts.new.items) }
{
    let mut held = Vec::new(alloc);
    add_holder(
        &mut held,
        alloc,
        "AS resources",
        "IPv4 resources",
        "IPv6 resources",
        holder,
    )?;
    add_each(parts, "holds", held)
}

pub(crate) fn add_held(
    parts: &mut Parts<'_>,
    alloc: Global,
    judged: &Judged,
) -> Result<(), AllocError>
    ensures { let Are = AreHeld judged.now.holder judged.now.router in
        OnOk result (AddsSome Are parts.old.items parts.new.items) }
{
    match &judged.router {
        Some(cert) => add_router_below(parts, alloc, cert, &judged.holder),
        None => add_own_resources(parts, alloc, &judged.holder),
    }
}

// The resources of a router's certificate and of the CA above it have parts.
fn some_below(cert: &Cert, holder: &ResourceCert)
    ensures { (held : _) × AreHeld holder.now (Some cert.now) held }
{
    let fields = cert.as_tbs();
    let key = fields.subject_public_key_info();
    let _found = answer_of(key);
}

/// States that the resources of a certificate have parts, also if none are made.
pub(crate) fn some_held(judged: &Judged)
    ensures { (held : _) × AreHeld judged.now.holder judged.now.router held }
{
    match &judged.router {
        Some(cert) => some_below(cert, &judged.holder),
        None => {}
    }
}

fn revocation_leaf(lists: &[Object<'_>]) -> Leaf<'static>
    ensures { leaf_view result ≡ revocation_told lists.now }
{
    if lists.is_empty() {
        Leaf::Words("not checked, no CRL was given", "not checked")
    } else {
        let said = "checked, no certificate is revoked by the CRLs given";
        Leaf::Words(said, "checked")
    }
}

// The checks of signatures and revocation.
fn add_checked(
    parts: &mut Parts<'_>,
    alloc: Global,
    question: &Question<'_, '_>,
) -> Result<(), AllocError>
    ensures { OnOk result (Adds (checked_nodes question.now) parts.old.items parts.new.items) }
{
    let said = "checked (RSASSA-PKCS1-v1_5 with SHA-256, RFC 7935)";
    let leaf = Leaf::Words(said, "checked");
    add_told(parts, alloc, "Signatures", "signatures", leaf)?;
    let leaf = revocation_leaf(question.lists);
    add_told(parts, alloc, "Revocation", "revocation", leaf)
}

pub(crate) fn add_unchecked<'p>(
    parts: &mut Parts<'p>,
    alloc: Global,
    what: &'p str,
) -> Result<(), AllocError>
    ensures { OnOk result (Adds (unchecked what.now ∷ []) parts.old.items parts.new.items) }
{
    let pieces = vec![in alloc; Piece::Say(what)]?;
    add_line(parts, "Not checked", pieces)
}

fn add_unchecked_anchor(
    parts: &mut Parts<'_>,
    alloc: Global,
    locators: &[GivenLocator<'_>],
) -> Result<(), AllocError>
    ensures { OnOk result
        (Adds (unchecked_anchor locators.now) parts.old.items parts.new.items) }
{
    if locators.is_empty() {
        add_unchecked(parts, alloc, "the trust anchor's key, no TAL was given")
    } else {
        Ok(())
    }
}

pub(crate) fn add_unchecked_names(
    parts: &mut Parts<'_>,
    alloc: Global,
    names: bool,
) -> Result<(), AllocError>
    ensures { OnOk result (Adds (unchecked_names names) parts.old.items parts.new.items) }
{
    if names {
        Ok(())
    } else {
        add_unchecked(parts, alloc, "name chaining (RFC 5280 6.1.3)")
    }
}

fn add_all_unchecked(
    parts: &mut Parts<'_>,
    alloc: Global,
    question: &Question<'_, '_>,
) -> Result<(), AllocError>
    ensures { OnOk result (Adds (unchecked_nodes question.now) parts.old.items parts.new.items) }
{
    add_unchecked_anchor(parts, alloc, question.locators)?;
    add_unchecked_names(parts, alloc, question.names)?;
    add_unchecked(parts, alloc, "manifests")
}

pub(crate) fn add_acceptance<'p>(
    parts: &mut Parts<'p>,
    alloc: Global,
    question: &Question<'p, '_>,
    judged: &Judged,
) -> Result<(), AllocError>
    requires { All (IsRead question.now.strict) question.now.locators }
    ensures { let Are = AreAcceptance question.now judged.now in
        OnOk result (AddsSome Are parts.old.items parts.new.items) }
{
    add_located(parts, alloc, question)?;
    add_held(parts, alloc, judged)?;
    add_checked(parts, alloc, question)?;
    add_all_unchecked(parts, alloc, question)
}
