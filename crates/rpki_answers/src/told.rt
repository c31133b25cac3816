//! Values of the RPKI in documents: times, kinds, keys, resources.
ghost use Rattle.std.specs.Prelude.{◌≡◌, [], ◌∷◌, codes, option_map, IfOk, IfSome, OnOk};
ghost use Rattle.rpki_document.specs.Building.{Adds, spans_of};
ghost use Rattle.rpki_blocks.specs.Resources.{inherit};
ghost use Rattle.rpki_document.specs.Documents.{flag, keep, line, printed, say, show, text};
ghost use Rattle.rpki_document.specs.Views.{leaf_view};
ghost use Rattle.rpki_text.specs.BlockLines.{family_address_text, family_text};
ghost use Rattle.rpki_parts.specs.NameTexts.{name_text};
ghost use Rattle.rpki_text.specs.KeyTexts.{point_text};
ghost use Rattle.rpki_answers.specs.ToldValues.{addresses_node, algorithm_word, ends_node, form_nodes, form_word, identifier_told, key_nodes, kind_told, line_under, listed_nodes, moment_told, numbers_node, point_node, point_nodes, resource_nodes, set_nodes, signature_line, single_node, unsigned_line, until_line};

use rpki_blocks::{Addr, AsBlock, AsBlocks, AsResources, IpBlock, IpBlocks, IpResources};
use rpki_cert::{Kind, TbsCert};
use rpki_der::Time;
use rpki_document::{
    Colons, Leaf, Parts, Piece, add_further, add_inside, add_item, add_kept, add_line, add_told,
};
use rpki_keys::KeyForm;
use rpki_parts::{KeyIdentifier, Name, PublicKey, PublicKeyFormat};
use rpki_text::blocks::Family;
use rpki_text::keys::KeyAnswer;
use rpki_text::moments::Period;
use std::alloc::{AllocError, Global};
use std::fmt;

/// Makes a leaf of the text of a value.
pub fn printed<T: fmt::Display>(alloc: Global, value: &T) -> Result<Leaf<'static>, AllocError>
    ensures { IfSome (T.output value.now) (λ said.
        IfOk result (λ leaf. leaf_view leaf ≡ text said)) }
{
    let made = format!(in alloc; "{value}")?;
    Ok(Leaf::Own(made))
}

/// Returns the leaf of a certificate's kind.
pub fn kind_leaf(kind: Kind) -> Leaf<'static>
    ensures { leaf_view result ≡ kind_told kind }
{
    match kind {
        Kind::Anchor => Leaf::Words("trust anchor", "ta"),
        Kind::Authority => Leaf::Words("CA", "ca"),
        Kind::EndEntity => Leaf::Words("EE", "ee"),
        Kind::Detached => Leaf::Words("detached EE", "detached_ee"),
        Kind::Router => Leaf::Words("BGPsec router", "router"),
    }
}

/// Makes a leaf of a time.
pub fn moment_leaf(alloc: Global, at: Time) -> Result<Leaf<'static>, AllocError>
    ensures { IfOk result (λ leaf. leaf_view leaf ≡ moment_told at) }
{
    let made = format!(in alloc; "{at}")?;
    Ok(Leaf::Dated(made, at.timestamp()))
}

/// Makes a leaf of the identifier of a key.
pub fn identifier_leaf(alloc: Global, it: &KeyIdentifier) -> Result<Leaf<'static>, AllocError>
    ensures { IfOk result (λ leaf. leaf_view leaf ≡ identifier_told it.now) }
{
    printed(alloc, &Colons(it.as_octets().as_slice()))
}

/// Makes a leaf of a distinguished name.
pub fn name_leaf(alloc: Global, it: &Name) -> Result<Leaf<'static>, AllocError>
    ensures { IfOk result (λ leaf. leaf_view leaf ≡ printed (name_text it.now)) }
{
    let made = format!(in alloc; "{it}")?;
    Ok(Leaf::Printed(made))
}

/// Adds the end of a period, and its state.
pub fn add_until<'p>(
    parts: &mut Parts<'p>,
    alloc: Global,
    label: &'p str,
    key: &'p str,
    period: &Period,
) -> Result<(), AllocError>
    ensures { let p = period.now in
        let its = until_line label.now key.now p.ends.now p.ended.now p.from p.until p.at in
        OnOk result (Adds (its ∷ []) parts.old.items parts.new.items) }
{
    let until = moment_leaf(alloc, period.until)?;
    let state = printed(alloc, period)?;
    let pieces = vec![in alloc;
        Piece::Tell(key, until),
        Piece::Say(" ("),
        Piece::Show(state),
        Piece::Say(")"),
    ]?;
    add_line(parts, label, pieces)
}

/// Adds that an object isn't signed.
pub fn add_unsigned(parts: &mut Parts<'_>, alloc: Global) -> Result<(), AllocError>
    ensures { OnOk result (Adds (unsigned_line ∷ []) parts.old.items parts.new.items) }
{
    let said = "none, this is the to-be-signed part (RFC 5280 4.1, 5.1)";
    let leaf = Leaf::Words(said, "none");
    add_told(parts, alloc, "Signature", "signature", leaf)
}

/// Adds that the signature of an object isn't checked.
pub fn add_signature(parts: &mut Parts<'_>, alloc: Global) -> Result<(), AllocError>
    ensures { OnOk result (Adds (signature_line ∷ []) parts.old.items parts.new.items) }
{
    let said = "not checked (rpki validate checks those of a path)";
    let leaf = Leaf::Words(said, "not checked");
    add_told(parts, alloc, "Signature", "signature", leaf)
}

// ---- keys

/// Returns the algorithm of a key of this form.
pub fn algorithm_word(form: KeyForm) -> &'static str
    ensures { result.now ≡ algorithm_word form }
{
    match form {
        KeyForm::RsaKey { .. } | KeyForm::EvenModulus | KeyForm::NoRsaKey => "RSA",
        KeyForm::Point | KeyForm::OffCurve | KeyForm::CompressedPoint | KeyForm::NoPoint => {
            "ECDSA P-256"
        }
    }
}

/// Returns the form of a key.
pub fn form_word(form: KeyForm) -> &'static str
    ensures { result.now ≡ form_word form }
{
    match form {
        KeyForm::RsaKey { .. } => "RSAPublicKey",
        KeyForm::EvenModulus => "even modulus",
        KeyForm::NoRsaKey => "no RSAPublicKey",
        KeyForm::Point => "uncompressed point",
        KeyForm::OffCurve => "point off the curve",
        KeyForm::CompressedPoint => "compressed point",
        KeyForm::NoPoint => "no point",
    }
}

// The numbers of an RSA key.
fn add_numbers_of_key(
    parts: &mut Parts<'_>,
    alloc: Global,
    bits: u64,
    exponent: Option<u64>,
) -> Result<(), AllocError>
    ensures { let its = form_nodes (KeyForm.RsaKey bits exponent) in
        OnOk result (Adds its parts.old.items parts.new.items) }
{
    add_kept(parts, alloc, "bits", Leaf::Count(bits))?;
    match exponent {
        Some(exponent) => add_kept(parts, alloc, "exponent", Leaf::Count(exponent)),
        None => Ok(()),
    }
}

fn add_form(parts: &mut Parts<'_>, alloc: Global, form: KeyForm) -> Result<(), AllocError>
    ensures { OnOk result (Adds (form_nodes form) parts.old.items parts.new.items) }
{
    match form {
        KeyForm::RsaKey { bits, exponent } => add_numbers_of_key(parts, alloc, bits, exponent),
        KeyForm::EvenModulus
        | KeyForm::NoRsaKey
        | KeyForm::Point
        | KeyForm::OffCurve
        | KeyForm::CompressedPoint
        | KeyForm::NoPoint => Ok(()),
    }
}

// A point, under a label or in no line.
fn add_point_at<'p>(
    parts: &mut Parts<'p>,
    alloc: Global,
    label: Option<&'p str>,
    leaf: Leaf<'p>,
) -> Result<(), AllocError>
    ensures { let its = point_node (option_map (λ l. l.now) label.entry) (leaf_view leaf.entry) in
        OnOk result (Adds (its ∷ []) parts.old.items parts.new.items) }
{
    match label {
        Some(label) => add_told(parts, alloc, label, "point", leaf),
        None => add_kept(parts, alloc, "point", leaf),
    }
}

// The point of a key, if the key is on a curve.
fn add_point<'p>(
    parts: &mut Parts<'p>,
    alloc: Global,
    label: Option<&'p str>,
    key: &PublicKey,
) -> Result<(), AllocError>
    ensures { let label = option_map (λ l. l.now) label.entry in
        let its = point_nodes label (point_text key.now) in
        OnOk result (Adds its parts.old.items parts.new.items) }
{
    match key.algorithm() {
        PublicKeyFormat::Rsa => Ok(()),
        PublicKeyFormat::EcdsaP256 => {
            let leaf = printed(alloc, &Colons(key.bits()))?;
            add_point_at(parts, alloc, label, leaf)
        }
    }
}

fn add_key_line<'p>(
    parts: &mut Parts<'p>,
    alloc: Global,
    label: &'p str,
    algorithm: &'p str,
    form: &'p str,
    said: Leaf<'p>,
    is_usable: bool,
) -> Result<(), AllocError>
    ensures { let spans = show (leaf_view said.entry)
        ∷ keep (codes "algorithm") (text algorithm.now)
        ∷ keep (codes "form") (text form.now)
        ∷ keep (codes "usable") (flag is_usable) ∷ [] in
        OnOk result (Adds (line label.now spans ∷ []) parts.old.items parts.new.items) }
{
    let pieces = vec![in alloc;
        Piece::Show(said),
        Piece::Keep("algorithm", Leaf::Text(algorithm)),
        Piece::Keep("form", Leaf::Text(form)),
        Piece::Keep("usable", Leaf::Flag(is_usable)),
    ]?;
    add_line(parts, label, pieces)
}

/// Adds a key with the findings on it; its point is in a line only under a label.
pub fn add_key<'p>(
    parts: &mut Parts<'p>,
    alloc: Global,
    label: &'p str,
    said: Leaf<'p>,
    point_label: Option<&'p str>,
    key: &PublicKey,
    found: &KeyAnswer,
) -> Result<(), AllocError>
    ensures { let point = option_map (λ l. l.now) point_label.entry in
        let its = key_nodes label.now (leaf_view said.entry) point key.now found.now in
        OnOk result (Adds its parts.old.items parts.new.items) }
{
    let algorithm = algorithm_word(found.form);
    let form = form_word(found.form);
    add_key_line(parts, alloc, label, algorithm, form, said, found.is_usable)?;
    add_form(parts, alloc, found.form)?;
    add_point(parts, alloc, point_label, key)
}

// ---- resources

// A line under a label, or one more under the label above.
fn add_at<'p>(
    parts: &mut Parts<'p>,
    label: Option<&'p str>,
    pieces: Vec<Piece<'p>>,
) -> Result<(), AllocError>
    ensures { let label = option_map (λ l. l.now) label.entry in
        let its = line_under label (spans_of pieces.entry.items) in
        OnOk result (Adds (its ∷ []) parts.old.items parts.new.items) }
{
    match label {
        Some(label) => add_line(parts, label, pieces),
        None => add_further(parts, pieces),
    }
}

// A block that is one value.
fn add_single<'p>(
    parts: &mut Parts<'p>,
    alloc: Global,
    label: Option<&'p str>,
    key: &'p str,
    leaf: Leaf<'p>,
) -> Result<(), AllocError>
    ensures { let label = option_map (λ l. l.now) label.entry in
        let its = single_node label key.now (leaf_view leaf.entry) in
        OnOk result (Adds (its ∷ []) parts.old.items parts.new.items) }
{
    let mut own = Vec::new(alloc);
    let pieces = vec![in alloc; Piece::Tell(key, leaf)]?;
    add_at(&mut own, label, pieces)?;
    add_inside(parts, "", own)
}

// A block by its two ends.
fn add_ends<'p>(
    parts: &mut Parts<'p>,
    alloc: Global,
    label: Option<&'p str>,
    key: &'p str,
    min: Leaf<'p>,
    max: Leaf<'p>,
) -> Result<(), AllocError>
    ensures { let label = option_map (λ l. l.now) label.entry in
        let its = ends_node label key.now (leaf_view min.entry) (leaf_view max.entry) in
        OnOk result (Adds (its ∷ []) parts.old.items parts.new.items) }
{
    let mut ends = Vec::new(alloc);
    let pieces = vec![in alloc;
        Piece::Tell("min", min),
        Piece::Say("-"),
        Piece::Tell("max", max),
    ]?;
    add_at(&mut ends, label, pieces)?;
    let mut own = Vec::new(alloc);
    add_inside(&mut own, key, ends)?;
    add_inside(parts, "", own)
}

fn add_as_block<'p>(
    parts: &mut Parts<'p>,
    alloc: Global,
    label: Option<&'p str>,
    it: AsBlock,
) -> Result<(), AllocError>
    ensures { let its = numbers_node (option_map (λ l. l.now) label.entry) it in
        OnOk result (Adds (its ∷ []) parts.old.items parts.new.items) }
{
    let min = it.min().into_u32();
    let max = it.max().into_u32();
    if min == max {
        return add_single(parts, alloc, label, "asid", Leaf::Count(min as u64));
    }
    let min = Leaf::Count(min as u64);
    let max = Leaf::Count(max as u64);
    add_ends(parts, alloc, label, "asrange", min, max)
}

#[tactic(auto, unfolding(std::specs::Net::Addr::IsIpv4OfBits, std::specs::Net::Addr::IsIpv6OfBits))]
fn address_leaf(alloc: Global, family: Family, at: Addr) -> Result<Leaf<'static>, AllocError>
    ensures { IfOk result (λ leaf. leaf_view leaf ≡ text (family_address_text family at)) }
{
    match family {
        Family::V4 => printed(alloc, &at.to_v4()),
        Family::V6 => printed(alloc, &at.to_v6()),
    }
}

fn prefix_leaf(alloc: Global, family: Family, it: IpBlock) -> Result<Leaf<'static>, AllocError>
    ensures { IfOk result (λ leaf. leaf_view leaf ≡ text (family_text family it)) }
{
    match family {
        Family::V4 => printed(alloc, &it.display_v4()),
        Family::V6 => printed(alloc, &it.display_v6()),
    }
}

fn add_ip_block<'p>(
    parts: &mut Parts<'p>,
    alloc: Global,
    label: Option<&'p str>,
    family: Family,
    it: IpBlock,
) -> Result<(), AllocError>
    ensures { let its = addresses_node family (option_map (λ l. l.now) label.entry) it in
        OnOk result (Adds (its ∷ []) parts.old.items parts.new.items) }
{
    if it.is_prefix() {
        let leaf = prefix_leaf(alloc, family, it)?;
        return add_single(parts, alloc, label, "ip_prefix", leaf);
    }
    let min = address_leaf(alloc, family, it.min())?;
    let max = address_leaf(alloc, family, it.max())?;
    add_ends(parts, alloc, label, "ip_range", min, max)
}

fn add_none<'p>(parts: &mut Parts<'p>, alloc: Global, label: &'p str) -> Result<(), AllocError>
    ensures { let its = line label.now (say (codes "none") ∷ []) in
        OnOk result (Adds (its ∷ []) parts.old.items parts.new.items) }
{
    let pieces = vec![in alloc; Piece::Say("none")]?;
    add_line(parts, label, pieces)
}

/// Adds a line for each block of AS numbers; `none` if there are none.
pub fn add_numbers<'p>(
    parts: &mut Parts<'p>,
    alloc: Global,
    label: &'p str,
    blocks: &AsBlocks,
) -> Result<(), AllocError>
    ensures { let its = set_nodes numbers_node label.now blocks.now in
        OnOk result (Adds its parts.old.items parts.new.items) }
{
    let mut blocks = blocks.iter();
    let Some(first) = blocks.next() else {
        return add_none(parts, alloc, label);
    };
    add_as_block(parts, alloc, Some(label), *first)?;
    for block in blocks {
        add_as_block(parts, alloc, None, *block)?;
    }
    Ok(())
}

/// Adds a line for each block of addresses; `none` if there are none.
pub fn add_addresses<'p>(
    parts: &mut Parts<'p>,
    alloc: Global,
    label: &'p str,
    family: Family,
    blocks: &IpBlocks,
) -> Result<(), AllocError>
    ensures { let its = set_nodes (addresses_node family) label.now blocks.now in
        OnOk result (Adds its parts.old.items parts.new.items) }
{
    let mut blocks = blocks.iter();
    let Some(first) = blocks.next() else {
        return add_none(parts, alloc, label);
    };
    add_ip_block(parts, alloc, Some(label), family, *first)?;
    for block in blocks {
        add_ip_block(parts, alloc, None, family, *block)?;
    }
    Ok(())
}

// Resources inherited from the issuer.
fn add_inherited<'p>(
    parts: &mut Parts<'p>,
    alloc: Global,
    label: &'p str,
    name: &'p str,
) -> Result<(), AllocError>
    ensures { let its = resource_nodes numbers_node label.now name.now inherit in
        OnOk result (Adds its parts.old.items parts.new.items) }
{
    let pieces = vec![in alloc;
        Piece::Say("inherited"),
        Piece::Keep(name, Leaf::Text("inherit")),
    ]?;
    add_item(parts, alloc, label, pieces)
}

fn add_as_resources<'p>(
    parts: &mut Parts<'p>,
    alloc: Global,
    label: &'p str,
    listed: &AsResources,
) -> Result<(), AllocError>
    ensures { let its = resource_nodes numbers_node label.now (codes "as_inherit") listed.now in
        OnOk result (Adds its parts.old.items parts.new.items) }
{
    match listed.as_blocks() {
        Some(blocks) => add_numbers(parts, alloc, label, blocks),
        None if listed.is_inherited() => add_inherited(parts, alloc, label, "as_inherit"),
        None => Ok(()),
    }
}

fn add_ip_resources<'p>(
    parts: &mut Parts<'p>,
    alloc: Global,
    label: &'p str,
    name: &'p str,
    family: Family,
    listed: &IpResources,
) -> Result<(), AllocError>
    ensures { let its = resource_nodes (addresses_node family) label.now name.now listed.now in
        OnOk result (Adds its parts.old.items parts.new.items) }
{
    match listed.as_blocks() {
        Some(blocks) => add_addresses(parts, alloc, label, family, blocks),
        None if listed.is_inherited() => add_inherited(parts, alloc, label, name),
        None => Ok(()),
    }
}

/// Adds the resources of a certificate, under these labels.
pub fn add_listed<'p>(
    parts: &mut Parts<'p>,
    alloc: Global,
    numbers: &'p str,
    ipv4: &'p str,
    ipv6: &'p str,
    fields: &TbsCert,
) -> Result<(), AllocError>
    ensures { let x = fields.now.extensions in
        let its = listed_nodes numbers.now ipv4.now ipv6.now x in
        OnOk result (Adds its parts.old.items parts.new.items) }
{
    add_as_resources(parts, alloc, numbers, fields.as_resources())?;
    let v4 = fields.v4_resources();
    add_ip_resources(parts, alloc, ipv4, "ip4_inherit", Family::V4, v4)?;
    let v6 = fields.v6_resources();
    add_ip_resources(parts, alloc, ipv6, "ip6_inherit", Family::V6, v6)
}
