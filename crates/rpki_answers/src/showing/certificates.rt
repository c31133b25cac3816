//! The document of a certificate.
ghost use Rattle.std.specs.Prelude.{◌≡◌, [], ◌∷◌, Some, true, IfOk, OnOk, map};
ghost use Rattle.rpki_document.specs.Building.{Adds, AddsSome};
ghost use Rattle.rpki_document.specs.Views.{leaf_view};
ghost use Rattle.rpki_cert.specs.Certificates.{IsCertificate};
ghost use Rattle.rpki_der.specs.Encoding.{Means};
ghost use Rattle.rpki_answers.specs.ShownCertificates.{IsShownCertificate, all_profiles, certificate_nodes, each_profile, fact_label, fact_node, fact_told, fact_word, field_nodes, kind_line, note_line, noted_line, overclaim_told, own_key_nodes, own_resource_nodes, place_nodes, profile_line, profile_nodes, remark_nodes, type_word, typed_line, usage_told, validity_nodes};

use crate::details::{add_https, add_identifier, add_uri};
use crate::showing::Options;
use crate::told::{
    add_key, add_listed, add_until, identifier_leaf, kind_leaf, moment_leaf, name_leaf, printed,
};
use rpki_cert::{Cert, InspectionError, KeyUsage, Kind, Overclaim, TbsCert};
use rpki_der::Time;
use rpki_document::{Leaf, Parts, Piece, add_each, add_inside, add_item, add_line, add_told};
use rpki_files::Object;
use rpki_parts::Validity;
use rpki_text::Identifier;
use rpki_text::certificate::{Answers, Findings, findings_of};
use rpki_text::keys::KeyAnswer;
use rpki_text::moments::Period;
use rpki_text::notes::{Fact, FactKind, Note, facts_of, notes_of};
use std::alloc::{AllocError, Global};

// ---- fields

fn type_word(kind: Kind) -> &'static str
    ensures { result.now ≡ type_word kind }
{
    match kind {
        Kind::Anchor | Kind::Authority => "ca_cert",
        Kind::EndEntity | Kind::Detached => "ee_cert",
        Kind::Router => "router_key",
    }
}

fn add_typed<'p>(
    parts: &mut Parts<'p>,
    alloc: Global,
    kind: Leaf<'p>,
    word: &'p str,
) -> Result<(), AllocError>
    ensures { let its = typed_line (leaf_view kind.entry) word.now in
        OnOk result (Adds (its ∷ []) parts.old.items parts.new.items) }
{
    let pieces = vec![in alloc;
        Piece::Tell("kind", kind),
        Piece::Keep("type", Leaf::Text(word)),
    ]?;
    add_line(parts, "Kind", pieces)
}

fn add_kind(parts: &mut Parts<'_>, alloc: Global, kind: Kind) -> Result<(), AllocError>
    ensures { OnOk result (Adds (kind_line kind ∷ []) parts.old.items parts.new.items) }
{
    add_typed(parts, alloc, kind_leaf(kind), type_word(kind))
}

fn add_fields(parts: &mut Parts<'_>, alloc: Global, fields: &TbsCert) -> Result<(), AllocError>
    ensures { OnOk result (Adds (field_nodes fields.now) parts.old.items parts.new.items) }
{
    add_told(parts, alloc, "Version", "version", Leaf::Count(3))?;
    let serial = printed(alloc, &fields.serial_number())?;
    add_told(parts, alloc, "Serial number", "cert_serial", serial)?;
    let algorithm = Leaf::Text("sha256WithRSAEncryption");
    add_told(
        parts,
        alloc,
        "Signature algorithm",
        "signature_algorithm",
        algorithm,
    )?;
    let issuer = name_leaf(alloc, fields.issuer())?;
    add_told(parts, alloc, "Issuer", "cert_issuer", issuer)?;
    let subject = name_leaf(alloc, fields.subject())?;
    add_told(parts, alloc, "Subject", "cert_subject", subject)
}

fn add_validity(
    parts: &mut Parts<'_>,
    alloc: Global,
    validity: Validity,
    at: Time,
) -> Result<(), AllocError>
    ensures { OnOk result (Adds (validity_nodes validity at) parts.old.items parts.new.items) }
{
    let period = Period {
        ends: "expires",
        ended: "expired",
        from: validity.not_before(),
        until: validity.not_after(),
        at,
    };
    let since = moment_leaf(alloc, period.from)?;
    add_told(parts, alloc, "Valid from", "valid_since", since)?;
    add_until(parts, alloc, "Valid until", "valid_until", &period)
}

fn usage_leaf(usage: KeyUsage) -> Leaf<'static>
    ensures { leaf_view result ≡ usage_told usage }
{
    match usage {
        KeyUsage::Ca => Leaf::Words("keyCertSign, cRLSign", "ca"),
        KeyUsage::Ee => Leaf::Words("digitalSignature", "ee"),
    }
}

// The key, and the issuer's.
fn add_keys(
    parts: &mut Parts<'_>,
    alloc: Global,
    fields: &TbsCert,
    found: &KeyAnswer,
) -> Result<(), AllocError>
    ensures { OnOk result
        (Adds (own_key_nodes fields.now found.now) parts.old.items parts.new.items) }
{
    let said = printed(alloc, found)?;
    let key = fields.subject_public_key_info();
    let mut own = Vec::new(alloc);
    add_key(&mut own, alloc, "Key", said, Some("Point"), key, found)?;
    add_inside(parts, "key", own)?;
    let identifier = identifier_leaf(alloc, &fields.subject_key_identifier())?;
    add_told(parts, alloc, "Subject key identifier", "ski", identifier)?;
    let above = fields.authority_key_identifier();
    add_identifier(parts, alloc, "Authority key identifier", "aki", above)?;
    let usage = usage_leaf(fields.key_usage());
    add_told(parts, alloc, "Key usage", "key_usage", usage)
}

// URIs.
fn add_places<'p>(
    parts: &mut Parts<'p>,
    alloc: Global,
    fields: &'p TbsCert,
) -> Result<(), AllocError>
    ensures { OnOk result
        (Adds (place_nodes fields.now.extensions) parts.old.items parts.new.items) }
{
    let issuer = fields.ca_issuer();
    add_uri(parts, alloc, "Authority info access", "aia", issuer)?;
    let crl = fields.crl_uri();
    add_uri(parts, alloc, "CRL distribution point", "crl", crl)?;
    let repository = fields.ca_repository();
    add_uri(parts, alloc, "Repository", "carepository", repository)?;
    add_uri(parts, alloc, "Manifest", "manifest", fields.rpki_manifest())?;
    let object = fields.signed_object();
    add_uri(parts, alloc, "Signed object", "signed_object", object)?;
    let notify = fields.rpki_notify();
    add_https(parts, alloc, "Notify URL", "notify_url", notify)
}

fn overclaim_leaf(overclaim: Overclaim) -> Leaf<'static>
    ensures { leaf_view result ≡ overclaim_told overclaim }
{
    match overclaim {
        Overclaim::Refuse => Leaf::Words("rejected (RFC 6484 policy)", "reject"),
        Overclaim::Trim => Leaf::Words("trimmed (RFC 8360 policy)", "trim"),
    }
}

fn add_resources(parts: &mut Parts<'_>, alloc: Global, fields: &TbsCert) -> Result<(), AllocError>
    ensures { OnOk result
        (Adds (own_resource_nodes fields.now.extensions) parts.old.items parts.new.items) }
{
    let leaf = overclaim_leaf(fields.overclaim());
    add_told(parts, alloc, "Overclaimed resources", "overclaim", leaf)?;
    let mut listed = Vec::new(alloc);
    add_listed(
        &mut listed,
        alloc,
        "AS resources",
        "IPv4 resources",
        "IPv6 resources",
        fields,
    )?;
    add_each(parts, "subordinate_resources", listed)
}

// ---- profiles

// The error of a profile that isn't met.
fn add_unmet<'p>(
    parts: &mut Parts<'p>,
    alloc: Global,
    label: &'p str,
    key: &'p str,
    fault: InspectionError,
) -> Result<(), AllocError>
    ensures { let its = profile_line label.now key.now (Some fault) in
        OnOk result (Adds (its ∷ []) parts.old.items parts.new.items) }
{
    let pieces = vec![in alloc;
        Piece::Say("not met: "),
        Piece::Tell(key, Leaf::Text(fault.name())),
    ]?;
    add_line(parts, label, pieces)
}

fn add_profile<'p>(
    parts: &mut Parts<'p>,
    alloc: Global,
    label: &'p str,
    key: &'p str,
    answer: Option<InspectionError>,
) -> Result<(), AllocError>
    ensures { let its = profile_line label.now key.now answer in
        OnOk result (Adds (its ∷ []) parts.old.items parts.new.items) }
{
    match answer {
        None => add_told(parts, alloc, label, key, Leaf::Words("met", "OK")),
        Some(fault) => add_unmet(parts, alloc, label, key, fault),
    }
}

fn add_each_profile(
    parts: &mut Parts<'_>,
    alloc: Global,
    answers: &Answers,
) -> Result<(), AllocError>
    ensures { OnOk result (Adds (each_profile answers.now) parts.old.items parts.new.items) }
{
    add_profile(parts, alloc, "Trust anchor profile", "ta", answers.anchor)?;
    add_profile(parts, alloc, "CA profile", "ca", answers.authority)?;
    add_profile(parts, alloc, "EE profile", "ee", answers.end_entity)?;
    let answer = answers.detached;
    add_profile(parts, alloc, "Detached EE profile", "detached_ee", answer)?;
    add_profile(parts, alloc, "Router profile", "router", answers.router)
}

fn add_profiles_inside(
    parts: &mut Parts<'_>,
    alloc: Global,
    answers: &Answers,
) -> Result<(), AllocError>
    ensures { OnOk result (Adds (all_profiles true answers.now) parts.old.items parts.new.items) }
{
    let mut each = Vec::new(alloc);
    add_each_profile(&mut each, alloc, answers)?;
    add_inside(parts, "profiles", each)
}

// The result of each profile, if all is shown.
fn add_all_profiles(
    parts: &mut Parts<'_>,
    alloc: Global,
    all: bool,
    answers: &Answers,
) -> Result<(), AllocError>
    ensures { OnOk result (Adds (all_profiles all answers.now) parts.old.items parts.new.items) }
{
    if all {
        add_profiles_inside(parts, alloc, answers)
    } else {
        Ok(())
    }
}

// The result of the profile of its own kind, and those of the others.
fn add_profiles(
    parts: &mut Parts<'_>,
    alloc: Global,
    all: bool,
    found: &Findings,
) -> Result<(), AllocError>
    ensures { OnOk result (Adds (profile_nodes all found.now) parts.old.items parts.new.items) }
{
    let answer = found.answers.of(found.kind);
    add_profile(parts, alloc, "Profile", "profile", answer)?;
    add_all_profiles(parts, alloc, all, &found.answers)
}

// ---- facts and notes

fn fact_label(kind: FactKind) -> &'static str
    ensures { result.now ≡ fact_label kind }
{
    match kind {
        FactKind::UnknownExtension => "Unknown extension",
        FactKind::PracticeStatement => "Practice statement",
        FactKind::FurtherList => "Further CRL",
        FactKind::FurtherIssuer => "Further authority info",
        FactKind::FurtherRepository => "Further repository",
        FactKind::FurtherManifest => "Further manifest",
        FactKind::FurtherObject => "Further signed object",
        FactKind::FurtherNotify => "Further notify URL",
        FactKind::UnknownMethod => "Unknown access method",
        FactKind::MethodUri => "URI of that method",
    }
}

fn fact_word(kind: FactKind) -> &'static str
    ensures { result.now ≡ fact_word kind }
{
    match kind {
        FactKind::UnknownExtension => "unknown_extension",
        FactKind::PracticeStatement => "practice_statement",
        FactKind::FurtherList => "further_crl",
        FactKind::FurtherIssuer => "further_aia",
        FactKind::FurtherRepository => "further_carepository",
        FactKind::FurtherManifest => "further_manifest",
        FactKind::FurtherObject => "further_signed_object",
        FactKind::FurtherNotify => "further_notify_url",
        FactKind::UnknownMethod => "unknown_access_method",
        FactKind::MethodUri => "method_uri",
    }
}

fn fact_leaf(alloc: Global, fact: Fact<'_>) -> Result<Leaf<'_>, AllocError>
    ensures { IfOk result (λ leaf. leaf_view leaf ≡ fact_told fact.entry.kind fact.entry.octets.now) }
{
    match fact.kind {
        FactKind::UnknownExtension | FactKind::UnknownMethod => {
            printed(alloc, &Identifier(fact.octets))
        }
        FactKind::PracticeStatement
        | FactKind::FurtherList
        | FactKind::FurtherIssuer
        | FactKind::FurtherRepository
        | FactKind::FurtherManifest
        | FactKind::FurtherObject
        | FactKind::FurtherNotify
        | FactKind::MethodUri => Ok(Leaf::Characters(fact.octets)),
    }
}

fn add_fact<'p>(parts: &mut Parts<'p>, alloc: Global, fact: Fact<'p>) -> Result<(), AllocError>
    ensures { OnOk result (Adds (fact_node fact.entry ∷ []) parts.old.items parts.new.items) }
{
    let leaf = fact_leaf(alloc, fact)?;
    let kind = fact.kind;
    let mut own = Vec::new(alloc);
    add_told(&mut own, alloc, fact_label(kind), fact_word(kind), leaf)?;
    add_inside(parts, "", own)
}

fn add_facts<'p>(parts: &mut Parts<'p>, alloc: Global, facts: &[Fact<'p>]) -> Result<(), AllocError>
    ensures { OnOk result (Adds (map fact_node facts.now) parts.old.items parts.new.items) }
{
    for fact in facts {
        add_fact(parts, alloc, *fact)?;
    }
    Ok(())
}

fn add_noted<'p>(
    parts: &mut Parts<'p>,
    alloc: Global,
    name: &'p str,
    says: &'p str,
    section: &'p str,
) -> Result<(), AllocError>
    ensures { let its = noted_line name.now says.now section.now in
        OnOk result (Adds (its ∷ []) parts.old.items parts.new.items) }
{
    let pieces = vec![in alloc;
        Piece::Keep("note", Leaf::Text(name)),
        Piece::Tell("why", Leaf::Text(says)),
        Piece::Say(" ("),
        Piece::Tell("standard", Leaf::Text(section)),
        Piece::Say(")"),
    ]?;
    add_item(parts, alloc, "Note", pieces)
}

fn add_note(parts: &mut Parts<'_>, alloc: Global, note: Note) -> Result<(), AllocError>
    ensures { OnOk result (Adds (note_line note ∷ []) parts.old.items parts.new.items) }
{
    add_noted(parts, alloc, note.name(), note.says(), note.section())
}

fn add_notes(parts: &mut Parts<'_>, alloc: Global, notes: &[Note]) -> Result<(), AllocError>
    ensures { OnOk result (Adds (map note_line notes.now) parts.old.items parts.new.items) }
{
    for note in notes {
        add_note(parts, alloc, *note)?;
    }
    Ok(())
}

fn add_remarks<'p>(
    parts: &mut Parts<'p>,
    alloc: Global,
    facts: &[Fact<'p>],
    notes: &[Note],
) -> Result<(), AllocError>
    ensures { OnOk result
        (Adds (remark_nodes facts.now notes.now) parts.old.items parts.new.items) }
{
    let mut further = Vec::new(alloc);
    add_facts(&mut further, alloc, facts)?;
    add_each(parts, "further", further)?;
    let mut noted = Vec::new(alloc);
    add_notes(&mut noted, alloc, notes)?;
    add_each(parts, "notes", noted)
}

// ---- the whole

// The fields of a certificate, and the findings on it.
fn add_found<'p>(
    parts: &mut Parts<'p>,
    alloc: Global,
    fields: &'p TbsCert,
    found: &Findings,
    options: &Options,
) -> Result<(), AllocError>
    ensures { let f = fields.now in
        let its = certificate_nodes f options.now.at options.now.all found.now in
        OnOk result (Adds its parts.old.items parts.new.items) }
{
    add_kind(parts, alloc, found.kind)?;
    add_fields(parts, alloc, fields)?;
    add_validity(parts, alloc, fields.validity(), options.at)?;
    add_keys(parts, alloc, fields, &found.key)?;
    add_places(parts, alloc, fields)?;
    add_resources(parts, alloc, fields)?;
    add_profiles(parts, alloc, options.all, found)
}

/// Adds the certificate that a file starts with, but for its signature.
pub fn add_certificate<'p>(
    parts: &mut Parts<'p>,
    alloc: Global,
    object: &'p Object<'_>,
    cert: &'p Cert,
    options: &Options,
) -> Result<(), AllocError>
    requires { Means IsCertificate cert.now object.now.octets }
    ensures { let Is = IsShownCertificate options.now object.now.octets cert.now in
        OnOk result (AddsSome Is parts.old.items parts.new.items) }
{
    let found = findings_of(cert, options.strict);
    let facts = facts_of(alloc, object)?;
    let notes = notes_of(alloc, object)?;
    add_found(parts, alloc, cert.as_tbs(), &found, options)?;
    add_remarks(parts, alloc, &facts, &notes)
}
