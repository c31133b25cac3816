//! What is said of the files that a path is validated with.
ghost use Rattle.std.specs.Prelude.{[], ◌∷◌, Some, map, OnOk};
ghost use Rattle.rpki_cert.specs.Certificates.{IsCertificate};
ghost use Rattle.rpki_crl.specs.Lists.{IsCertificateList};
ghost use Rattle.rpki_document.specs.Building.{Adds, AddsSome};
ghost use Rattle.rpki_document.specs.Documents.{Node};
ghost use Rattle.rpki_answers.specs.Verdicts.{AreCertificates, AreFiles, AreNoted, IsAbout, IsCertificateNode, IsLeft, IsNotAList, behind_certificate, behind_list, certificate_node, left_node, left_nodes, not_a_locator, not_locators, note_node, noted_node, noted_nodes, other_node};
ghost use Rattle.rpki_answers.specs.VerdictTexts.{SaysOfEach};

use crate::told::{kind_leaf, printed};
use rpki_cert::{Kind, kind_of};
use rpki_der::Serial;
use rpki_document::{Leaf, Parts, Piece, add_each, add_inside, add_item, add_kept, add_told};
use rpki_files::Object;
use rpki_text::notes::{Note, notes_of};
use rpki_verdicts::{GivenLocator, Question};
use std::alloc::{AllocError, Global};

const BEHIND_CERTIFICATE: &str = ", not read: ";

const BEHIND_LIST: &str = ", so it is not a CRL (if it has two, give each in a file of its own): ";

// ---- the certificates of the path

fn add_known<'p>(
    parts: &mut Parts<'p>,
    alloc: Global,
    index: usize,
    kind: Kind,
    serial: Serial,
    name: &'p str,
) -> Result<(), AllocError>
    ensures { let its = certificate_node index kind serial name.now in
        OnOk result (Adds (its ∷ []) parts.old.items parts.new.items) }
{
    let serial = printed(alloc, &serial)?;
    let pieces = vec![in alloc;
        Piece::Tell("index", Leaf::Count(index as u64)),
        Piece::Say(", "),
        Piece::Tell("kind", kind_leaf(kind)),
        Piece::Say(", serial "),
        Piece::Tell("serial", serial),
        Piece::Say(", "),
        Piece::Tell("file", Leaf::Text(name)),
    ]?;
    add_item(parts, alloc, "Certificate", pieces)
}

fn add_other<'p>(
    parts: &mut Parts<'p>,
    alloc: Global,
    index: usize,
    name: &'p str,
) -> Result<(), AllocError>
    ensures { OnOk result (Adds (other_node index name.now ∷ []) parts.old.items parts.new.items) }
{
    let pieces = vec![in alloc;
        Piece::Tell("index", Leaf::Count(index as u64)),
        Piece::Say(", not a certificate, "),
        Piece::Tell("file", Leaf::Text(name)),
    ]?;
    add_item(parts, alloc, "Certificate", pieces)
}

fn add_certificate<'p>(
    parts: &mut Parts<'p>,
    alloc: Global,
    strict: bool,
    index: usize,
    object: &'p Object<'_>,
) -> Result<(), AllocError>
    ensures { OnOk result ((node : Node) × IsCertificateNode strict index object.now node
        × Adds (node ∷ []) parts.old.items parts.new.items) }
{
    match object.certificate() {
        Some((cert, _)) => {
            let kind = kind_of(cert, strict);
            let serial = cert.as_tbs().serial_number();
            add_known(parts, alloc, index, kind, serial, object.name())
        }
        None => add_other(parts, alloc, index, object.name()),
    }
}

fn add_certificates<'p>(
    parts: &mut Parts<'p>,
    alloc: Global,
    strict: bool,
    members: &'p [Object<'_>],
) -> Result<(), AllocError>
    ensures { let Are = AreCertificates strict 0 members.now in
        OnOk result (AddsSome Are parts.old.items parts.new.items) }
{
    for (index, object) in members.iter().enumerate() {
        add_certificate(parts, alloc, strict, index, object)?;
    }
    Ok(())
}

// ---- notes

fn add_note<'p>(
    parts: &mut Parts<'p>,
    alloc: Global,
    name: &'p str,
    note: Note,
) -> Result<(), AllocError>
    ensures { OnOk result (Adds (note_node name.now note ∷ []) parts.old.items parts.new.items) }
{
    let pieces = vec![in alloc;
        Piece::Keep("note", Leaf::Text(note.name())),
        Piece::Tell("why", Leaf::Text(note.says())),
        Piece::Say(" ("),
        Piece::Tell("standard", Leaf::Text(note.section())),
        Piece::Say("): "),
        Piece::Show(Leaf::Text(name)),
    ]?;
    add_item(parts, alloc, "Note", pieces)
}

fn add_each_note<'p>(
    parts: &mut Parts<'p>,
    alloc: Global,
    name: &'p str,
    notes: &[Note],
) -> Result<(), AllocError>
    ensures { OnOk result
        (Adds (map (note_node name.now) notes.now) parts.old.items parts.new.items) }
{
    for note in notes {
        add_note(parts, alloc, name, *note)?;
    }
    Ok(())
}

fn add_noted_file<'p>(
    parts: &mut Parts<'p>,
    alloc: Global,
    name: &'p str,
    notes: &[Note],
) -> Result<(), AllocError>
    ensures { let its = noted_node name.now notes.now in
        OnOk result (Adds (its ∷ []) parts.old.items parts.new.items) }
{
    let mut each = Vec::new(alloc);
    add_each_note(&mut each, alloc, name, notes)?;
    let mut own = Vec::new(alloc);
    add_kept(&mut own, alloc, "file", Leaf::Text(name))?;
    add_each(&mut own, "notes", each)?;
    add_inside(parts, "", own)
}

// The notes of a certificate, if it has some.
fn add_notes<'p>(
    parts: &mut Parts<'p>,
    alloc: Global,
    name: &'p str,
    notes: &[Note],
) -> Result<(), AllocError>
    ensures { OnOk result
        (Adds (noted_nodes name.now notes.now) parts.old.items parts.new.items) }
{
    match notes {
        [] => Ok(()),
        [_, ..] => add_noted_file(parts, alloc, name, notes),
    }
}

fn add_noted<'p>(
    parts: &mut Parts<'p>,
    alloc: Global,
    member: &'p Object<'_>,
) -> Result<(), AllocError>
    ensures { OnOk result (AddsSome (AreNoted member.now) parts.old.items parts.new.items) }
{
    let notes = notes_of(alloc, member)?;
    add_notes(parts, alloc, member.name(), &notes)
}

// ---- bytes after an object

fn add_left_file<'p>(
    parts: &mut Parts<'p>,
    alloc: Global,
    means: &'p str,
    name: &'p str,
    left: usize,
) -> Result<(), AllocError>
    ensures { let its = left_node means.now name.now left in
        OnOk result (Adds (its ∷ []) parts.old.items parts.new.items) }
{
    let pieces = vec![in alloc;
        Piece::Tell("bytes", Leaf::Count(left as u64)),
        Piece::Say(means),
        Piece::Tell("file", Leaf::Text(name)),
    ]?;
    add_item(parts, alloc, "Bytes after its end", pieces)
}

// The number of bytes after an object, if there are some.
fn add_left<'p>(
    parts: &mut Parts<'p>,
    alloc: Global,
    means: &'p str,
    name: &'p str,
    left: usize,
) -> Result<(), AllocError>
    ensures { let its = left_nodes means.now name.now (Some left) in
        OnOk result (Adds its parts.old.items parts.new.items) }
{
    if left > 0 {
        add_left_file(parts, alloc, means, name, left)
    } else {
        Ok(())
    }
}

fn add_left_of_member<'p>(
    parts: &mut Parts<'p>,
    alloc: Global,
    member: &'p Object<'_>,
) -> Result<(), AllocError>
    ensures { let Are = IsLeft IsCertificate behind_certificate member.now in
        OnOk result (AddsSome Are parts.old.items parts.new.items) }
{
    match member.certificate() {
        Some((_, left)) => add_left(parts, alloc, BEHIND_CERTIFICATE, member.name(), left),
        None => Ok(()),
    }
}

fn add_left_of_list<'p>(
    parts: &mut Parts<'p>,
    alloc: Global,
    list: &'p Object<'_>,
) -> Result<(), AllocError>
    ensures { let Are = IsLeft IsCertificateList behind_list list.now in
        OnOk result (AddsSome Are parts.old.items parts.new.items) }
{
    match list.list() {
        Some((_, left)) => add_left(parts, alloc, BEHIND_LIST, list.name(), left),
        None => Ok(()),
    }
}

// ---- files that aren't what they are given as

fn add_not_a_list<'p>(
    parts: &mut Parts<'p>,
    alloc: Global,
    list: &'p Object<'_>,
) -> Result<(), AllocError>
    ensures { OnOk result (AddsSome (IsNotAList list.now) parts.old.items parts.new.items) }
{
    if list.is_list() {
        return Ok(());
    }
    add_told(parts, alloc, "Not a CRL", "", Leaf::Text(list.name()))
}

fn add_not_a_locator<'p>(
    parts: &mut Parts<'p>,
    alloc: Global,
    locator: &'p GivenLocator<'_>,
) -> Result<(), AllocError>
    ensures { let its = not_a_locator locator.now.file.name locator.now.read in
        OnOk result (Adds its parts.old.items parts.new.items) }
{
    match locator.tal() {
        Ok(_) => Ok(()),
        Err(_) => add_told(parts, alloc, "Not a TAL", "", Leaf::Text(locator.name())),
    }
}

pub(crate) fn add_not_locators<'p>(
    parts: &mut Parts<'p>,
    alloc: Global,
    locators: &'p [GivenLocator<'_>],
) -> Result<(), AllocError>
    ensures { OnOk result
        (Adds (not_locators locators.now) parts.old.items parts.new.items) }
{
    for locator in locators {
        add_not_a_locator(parts, alloc, locator)?;
    }
    Ok(())
}

// ---- each of some files

// A finding on a file.
#[derive(Clone, Copy)]
enum About {
    Notes,
    BehindCertificate,
    BehindList,
    NoList,
}

fn add_about<'p>(
    parts: &mut Parts<'p>,
    alloc: Global,
    about: About,
    file: &'p Object<'_>,
) -> Result<(), AllocError>
    ensures { OnOk result (AddsSome (IsAbout about file.now) parts.old.items parts.new.items) }
{
    match about {
        About::Notes => add_noted(parts, alloc, file),
        About::BehindCertificate => add_left_of_member(parts, alloc, file),
        About::BehindList => add_left_of_list(parts, alloc, file),
        About::NoList => add_not_a_list(parts, alloc, file),
    }
}

fn add_of_each<'p>(
    parts: &mut Parts<'p>,
    alloc: Global,
    about: About,
    files: &'p [Object<'_>],
) -> Result<(), AllocError>
    ensures { let Are = SaysOfEach (IsAbout about) files.now in
        OnOk result (AddsSome Are parts.old.items parts.new.items) }
{
    for file in files {
        add_about(parts, alloc, about, file)?;
    }
    Ok(())
}

// The findings on the files.
pub(crate) fn add_files<'p>(
    parts: &mut Parts<'p>,
    alloc: Global,
    question: &Question<'p, '_>,
) -> Result<(), AllocError>
    ensures { OnOk result (AddsSome (AreFiles question.now) parts.old.items parts.new.items) }
{
    let mut certificates = Vec::new(alloc);
    add_certificates(&mut certificates, alloc, question.strict, question.members)?;
    add_each(parts, "certificates", certificates)?;
    let mut noted = Vec::new(alloc);
    add_of_each(&mut noted, alloc, About::Notes, question.members)?;
    add_each(parts, "notes", noted)?;
    let mut left = Vec::new(alloc);
    add_of_each(&mut left, alloc, About::BehindCertificate, question.members)?;
    add_of_each(&mut left, alloc, About::BehindList, question.lists)?;
    add_each(parts, "bytes_after_end", left)?;
    let mut others = Vec::new(alloc);
    add_of_each(&mut others, alloc, About::NoList, question.lists)?;
    add_each(parts, "not_crls", others)?;
    let mut others = Vec::new(alloc);
    add_not_locators(&mut others, alloc, question.locators)?;
    add_each(parts, "not_tals", others)
}
