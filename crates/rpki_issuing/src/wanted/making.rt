//! The fields of a certificate, made of the values that a person chooses.
ghost use Rattle.std.specs.Prelude.{◌≡◌, true, Some, None, option_map, IfOk, MatchOption, if◌then◌else◌};
ghost use Rattle.rpki_blocks.specs.declared.overclaim.Overclaim.TheVariants.{Refuse, Trim};
ghost use Rattle.rpki_cert.specs.Making.{new_fields, updated};
ghost use Rattle.rpki_ext.specs.declared.key_usage.KeyUsage.TheVariants.{Ca, Ee};
ghost use Rattle.rpki_parts.specs.KeyNames.{subject_name};
ghost use Rattle.rpki_parts.specs.Names.{IsName};
ghost use Rattle.rpki_issuing.specs.AskedFields.{access_asked, fields_asked, fields_named, is_authority as is_authority_kind, issuer_name as name_of_issuer, least_of, purposes_asked, router_name, router_text, subject_asked};

use crate::wanted::wanted::{Numbers, Places, Wanted};
use bytes::Bytes;
use rpki_blocks::{AsResources, Overclaim};
use rpki_cert::{ExtendedKeyUsage, KeyUsage, Kind, TbsCert};
use rpki_der::{Serial, write_hexadecimal};
use rpki_parts::{KeyIdentifier, Name, PublicKey, Validity};
use std::alloc::{AllocError, Global};
use std::fmt;

// What stands before the text of a router's name: a CommonName, with a PrintableString of 15
// octets.
const BEFORE_TEXT: [u8; 13] = [
    0x30, 0x1A, 0x31, 0x18, 0x30, 0x16, 0x06, 0x03, 0x55, 0x04, 0x03, 0x13, 0x0F,
];

// The text of a router's name, by its AS number.
#[derive(Drop)]
struct RouterText(u32);

impl fmt::Display for RouterText {
    ghost output = { λ router. Some (router_text router.0) };

    fn fmt<W: fmt::Write>(&self, f: &mut fmt::Formatter<W>) -> fmt::Result {
        f.write_str("ROUTER-")?;
        write_hexadecimal(f, &self.0.to_be_bytes())
    }
}

// The octets of the name of the router with an AS number.
fn router_octets(alloc: Global, number: u32) -> Result<Bytes, AllocError>
    ensures { IfOk result (λ octets. octets ≡ router_name number) }
{
    let mut octets = Vec::from_slice(alloc, &BEFORE_TEXT)?;
    let router = RouterText(number);
    let text = format!(in alloc; "{router}")?;
    octets.extend_from_slice(text.as_bytes())?;
    drop(text);
    Ok(Bytes::from_vec(octets)?)
}

// The name that the octets are, if they are one.
#[tactic(auto, unfolding(rpki_parts::specs::Names::name_format))]
fn name(alloc: Global, octets: Bytes) -> Result<Option<Name>, AllocError>
    ensures { IfOk result (λ found. MatchOption found (IsName octets octets → ⊥)
        (λ name. name ≡ octets)) }
{
    match Name::from_bytes(alloc, octets) {
        Ok(name) => {
            // Called for what it ensures alone.
            let _octets = name.as_bytes();
            Ok(Some(name))
        }
        Err(error) => {
            let is_memory = error.is_memory();
            drop(error);
            if is_memory { Err(AllocError) } else { Ok(None) }
        }
    }
}

// Whether certificates of the kind are CAs'.
fn is_authority(kind: Kind) -> bool
    ensures { result ≡ is_authority_kind kind }
{
    match kind {
        Kind::Anchor | Kind::Authority => true,
        Kind::EndEntity | Kind::Detached | Kind::Router => false,
    }
}

// The least AS number of a set.
fn least(systems: &AsResources) -> Option<u32>
    ensures { result ≡ least_of systems.now }
{
    let block = systems.as_blocks()?.iter().next()?;
    Some(block.min().into_u32())
}

// The name of the key.
fn key_name(alloc: Global, key: &PublicKey) -> Result<Name, AllocError>
    ensures { IfOk result (λ name. name ≡ subject_name key.now) }
{
    match key.to_subject_name(alloc) {
        Ok(name) => Ok(name),
        Err(_) => Err(AllocError),
    }
}

// The subject.
fn subject(
    alloc: Global,
    kind: Kind,
    systems: &AsResources,
    key: &PublicKey,
) -> Result<Option<Name>, AllocError>
    ensures { let subject = subject_asked kind systems.now key.now in
        IfOk result (λ found. MatchOption found (IsName subject subject → ⊥)
        (λ name. name ≡ subject)) }
{
    match kind {
        Kind::Router => match least(systems) {
            Some(number) => {
                let octets = router_octets(alloc, number)?;
                name(alloc, octets)
            }
            None => Ok(Some(key_name(alloc, key)?)),
        },
        _ => Ok(Some(key_name(alloc, key)?)),
    }
}

// The further purposes of the key.
fn purposes(alloc: Global, kind: Kind) -> Result<Option<ExtendedKeyUsage>, AllocError>
    ensures { IfOk result (λ purposes. purposes ≡ purposes_asked kind) }
{
    match kind {
        Kind::Router => Ok(Some(ExtendedKeyUsage::create_router(alloc)?)),
        _ => Ok(None),
    }
}

// Sets what is listed of the kinds of numbers.
fn set_numbers(tbs: &mut TbsCert, numbers: Numbers)
    ensures { tbs.new ≡ updated tbs.old (λ x. record x {
      v4_resources = numbers.v4;
      v6_resources = numbers.v6;
      as_resources = numbers.systems;
    }) }
{
    let Numbers { v4, v6, systems } = numbers;
    tbs.set_v4_resources(v4);
    tbs.set_v6_resources(v6);
    tbs.set_as_resources(systems);
}

// Sets the URIs.
fn set_places(tbs: &mut TbsCert, places: Places)
    ensures { tbs.new ≡ updated tbs.old (λ x. record x {
      crl_uri = places.list;
      ca_issuer = places.issuer;
      access = access_asked places;
    }) }
{
    let Places {
        repository,
        manifest,
        object,
        notify,
        issuer,
        list,
    } = places;
    tbs.set_ca_repository(repository);
    tbs.set_rpki_manifest(manifest);
    tbs.set_signed_object(object);
    tbs.set_rpki_notify(notify);
    tbs.set_ca_issuer(issuer);
    tbs.set_crl_uri(list);
}

// What becomes of the resources where they go past the issuer's.
fn overclaim(trims: bool) -> Overclaim
    ensures { result ≡ (if trims then Trim else Refuse) }
{
    if trims {
        Overclaim::Trim
    } else {
        Overclaim::Refuse
    }
}

// What the key is used for.
fn usage(kind: Kind) -> KeyUsage
    ensures { result ≡ (if is_authority_kind kind then Ca else Ee) }
{
    if is_authority(kind) {
        KeyUsage::Ca
    } else {
        KeyUsage::Ee
    }
}

// Whether it is a CA's, where Basic Constraints say so.
fn flag(kind: Kind) -> Option<bool>
    ensures { result ≡ (if is_authority_kind kind then Some true else None) }
{
    if is_authority(kind) { Some(true) } else { None }
}

// The name of the issuer.
fn issuer_name(alloc: Global, issuer: Option<&TbsCert>, subject: &Name) -> Result<Name, AllocError>
    ensures { IfOk result (λ name. name
        ≡ name_of_issuer (option_map (λ above. above.now) issuer.entry) subject.now) }
{
    match issuer {
        Some(issuer) => issuer.subject().try_clone(alloc),
        None => subject.try_clone(alloc),
    }
}

// The identifier of the issuer's key.
fn issuer_key(issuer: Option<&TbsCert>) -> Option<KeyIdentifier>
    ensures { result ≡ option_map (λ above. above.extensions.subject_key_identifier)
        (option_map (λ above. above.now) issuer.entry) }
{
    match issuer {
        Some(issuer) => Some(issuer.subject_key_identifier()),
        None => None,
    }
}

// The further purposes of the key, in the fields.
fn with_purposes(alloc: Global, kind: Kind, mut tbs: TbsCert) -> Result<TbsCert, AllocError>
    ensures { IfOk result (λ f. f
        ≡ updated tbs (λ x. record x { extended_key_usage = purposes_asked kind })) }
{
    match purposes(alloc, kind) {
        Ok(purposes) => {
            tbs.set_extended_key_usage(purposes);
            Ok(tbs)
        }
        Err(error) => {
            drop(tbs);
            Err(error)
        }
    }
}

// What a certificate of the kind has of its own, but for numbers and URIs.
fn begun(
    alloc: Global,
    kind: Kind,
    trims: bool,
    serial: Serial,
    validity: Validity,
    names: (Name, Name),
    key: PublicKey,
) -> Result<TbsCert, AllocError>
    ensures { let new = new_fields serial names.0 validity (Some names.1) key
        (if is_authority_kind kind then Ca else Ee) (if trims then Trim else Refuse) in
        IfOk result (λ f. f
        ≡ updated new (λ x. record x { extended_key_usage = purposes_asked kind })) }
{
    let (name, subject) = names;
    let made = TbsCert::new(
        alloc,
        serial,
        name,
        validity,
        Some(subject),
        key,
        usage(kind),
        overclaim(trims),
    );
    match made {
        Ok(tbs) => with_purposes(alloc, kind, tbs),
        Err(_) => Err(AllocError),
    }
}

// The fields, by the names of issuer and subject.
fn named(
    alloc: Global,
    kind: Kind,
    trims: bool,
    wanted: Wanted,
    issuer: Option<&TbsCert>,
    names: (Name, Name),
    key: PublicKey,
) -> Result<TbsCert, AllocError>
    ensures { IfOk result (λ f. f ≡ fields_named kind trims wanted
        (option_map (λ above. above.now) issuer.entry) names.0 names.1 key) }
{
    let Wanted {
        serial,
        not_before,
        not_after,
        numbers,
        places,
    } = wanted;
    let validity = Validity::new(not_before, not_after);
    match begun(alloc, kind, trims, serial, validity, names, key) {
        Ok(mut tbs) => {
            tbs.set_basic_ca(flag(kind));
            tbs.set_authority_key_identifier(issuer_key(issuer));
            set_numbers(&mut tbs, numbers);
            set_places(&mut tbs, places);
            Ok(tbs)
        }
        Err(error) => {
            drop(numbers);
            drop(places);
            Err(error)
        }
    }
}

// The names of the issuer and of the subject. Gives `None` where the subject is none.
fn names_asked(
    alloc: Global,
    kind: Kind,
    systems: &AsResources,
    issuer: Option<&TbsCert>,
    key: &PublicKey,
) -> Result<Option<(Name, Name)>, AllocError>
    ensures { let above = option_map (λ above. above.now) issuer.entry in
        let subject = subject_asked kind systems.now key.now in
        IfOk result (λ found. MatchOption found (IsName subject subject → ⊥)
        (λ names. (names.0 ≡ name_of_issuer above subject) × (names.1 ≡ subject))) }
{
    let Some(subject) = subject(alloc, kind, systems, key)? else {
        return Ok(None);
    };
    let name = issuer_name(alloc, issuer, &subject)?;
    Ok(Some((name, subject)))
}

/// Makes the fields of the certificate of the kind with these values and this key, below `issuer`,
/// or without an issuer if it is a trust anchor's. If `trims`, a resource that the issuer lacks is
/// trimmed in validation (RFC 8360); otherwise the certificate is rejected (RFC 6487 7.2). Returns
/// `None` if the subject isn't a name.
///
/// # Errors
///
/// Returns an error if memory runs out.
///
/// # Not checked
///
/// The profile and the issuer: [`prepare_octets`](crate::wanted::prepare_octets) checks them.
pub fn fields(
    alloc: Global,
    kind: Kind,
    trims: bool,
    wanted: Wanted,
    issuer: Option<&TbsCert>,
    key: PublicKey,
) -> Result<Option<TbsCert>, AllocError>
    ensures { let above = option_map (λ above. above.now) issuer.entry in
        let subject = subject_asked kind wanted.numbers.systems key in
        IfOk result (λ found. MatchOption found (IsName subject subject → ⊥)
        (λ f. f ≡ fields_asked kind trims wanted above key)) }
{
    match names_asked(alloc, kind, &wanted.numbers.systems, issuer, &key) {
        Ok(Some(names)) => {
            let tbs = named(alloc, kind, trims, wanted, issuer, names, key)?;
            Ok(Some(tbs))
        }
        Ok(None) => {
            drop(wanted);
            drop(key);
            Ok(None)
        }
        Err(error) => {
            drop(wanted);
            drop(key);
            Err(error)
        }
    }
}
