//! URIs of a certificate beside the ones that readers keep.
ghost use Rattle.std.specs.Prelude.{◌≡◌, ◌++◌, map, option_map, OnOk};
ghost use Rattle.std.specs.Option.{option_copied};
ghost use Rattle.rpki_der.specs.Place.{remaining};
ghost use Rattle.rpki_der.specs.Values.Reading.{value_at};
ghost use Rattle.rpki_der.specs.Tags.{SEQUENCE};
ghost use Rattle.rpki_text.specs.Facts.{URI, access_facts, description_facts, descriptions_facts, fact_view, further_at, further_if, further_names, further_names_if, is_kept, issuer_names, kept_by, kept_view, location_facts, one_fact, point_names};
ghost use Rattle.rpki_text.specs.declared.notes.fact.FactKind.TheVariants.{FurtherIssuer, FurtherList};

use crate::notes::contents::{URI, content};
use crate::notes::fact::{Fact, FactKind, Facts, Put};
use rpki_cert::TbsCert;
use rpki_der::{Cursor, oid, tag};

/// Adds a fact.
pub(crate) fn put_fact<'a>(facts: &mut Facts<'a>, kind: FactKind, octets: &'a [u8]) -> Put
    ensures { OnOk result (map fact_view facts.new.items
        ≡ map fact_view facts.old.items ++ one_fact kind octets.now) }
{
    facts.push(Fact { kind, octets })?;
    Ok(())
}

// Whether it is the URI that is kept.
fn is_kept(kept: Option<&[u8]>, uri: &[u8]) -> bool
    ensures { result ≡ is_kept (option_copied kept.entry) uri.now }
{
    match kept {
        Some(kept) => uri == kept,
        None => false,
    }
}

// Adds a URI, if it isn't the one that is kept.
fn put_further<'a>(facts: &mut Facts<'a>, kind: FactKind, kept: Option<&[u8]>, uri: &'a [u8]) -> Put
    ensures { let more = further_if kind (option_copied kept.entry) uri.now in
        OnOk result (map fact_view facts.new.items ≡ map fact_view facts.old.items ++ more) }
{
    if is_kept(kept, uri) {
        Ok(())
    } else {
        put_fact(facts, kind, uri)
    }
}

// Adds the URIs among names that aren't kept.
fn put_names<'a>(
    facts: &mut Facts<'a>,
    kind: FactKind,
    kept: Option<&[u8]>,
    names: &Cursor<'a>,
) -> Put
    ensures { let more = further_names kind (option_copied kept.entry) (remaining names.now) in
        OnOk result (map fact_view facts.new.items ≡ map fact_view facts.old.items ++ more) }
{
    let mut rest = names.fork();
    while let Some(uri) = content(&mut rest, URI) {
        put_further(facts, kind, kept, uri.rest())?;
    }
    Ok(())
}

// The names of the distribution point.
#[tactic(auto, unfolding(crate::specs::Facts::point_names))]
fn point_names<'a>(points: &Cursor<'a>) -> Option<Cursor<'a>>
    ensures { option_map remaining result ≡ point_names (remaining points.now) }
{
    let mut whole = points.fork();
    let mut inside = content(&mut whole, tag::SEQUENCE)?;
    let mut point = content(&mut inside, tag::SEQUENCE)?;
    let mut name = content(&mut point, tag::CONTEXT_CONSTRUCTED)?;
    content(&mut name, tag::CONTEXT_CONSTRUCTED)
}

// The names after the method of the description.
#[tactic(auto, unfolding(crate::specs::Facts::issuer_names))]
fn issuer_names<'a>(descriptions: &Cursor<'a>) -> Option<Cursor<'a>>
    ensures { option_map remaining result ≡ issuer_names (remaining descriptions.now) }
{
    let mut whole = descriptions.fork();
    let mut inside = content(&mut whole, tag::SEQUENCE)?;
    let mut description = content(&mut inside, tag::SEQUENCE)?;
    let _method = content(&mut description, tag::OBJECT_IDENTIFIER)?;
    Some(description)
}

/// Adds the URIs of CRL Distribution Points that aren't kept (RFC 6487 4.8.6).
pub(crate) fn put_lists<'a>(facts: &mut Facts<'a>, kept: Option<&[u8]>, points: &Cursor<'a>) -> Put
    ensures { let names = point_names (remaining points.now) in
        let more = further_names_if FurtherList (option_copied kept.entry) names in
        OnOk result (map fact_view facts.new.items ≡ map fact_view facts.old.items ++ more) }
{
    match point_names(points) {
        Some(names) => put_names(facts, FactKind::FurtherList, kept, &names),
        None => Ok(()),
    }
}

/// Adds the URIs of Authority Information Access that aren't kept (RFC 6487 4.8.7).
pub(crate) fn put_issuers<'a>(
    facts: &mut Facts<'a>,
    kept: Option<&[u8]>,
    descriptions: &Cursor<'a>,
) -> Put
    ensures { let names = issuer_names (remaining descriptions.now) in
        let more = further_names_if FurtherIssuer (option_copied kept.entry) names in
        OnOk result (map fact_view facts.new.items ≡ map fact_view facts.old.items ++ more) }
{
    match issuer_names(descriptions) {
        Some(names) => put_names(facts, FactKind::FurtherIssuer, kept, &names),
        None => Ok(()),
    }
}

// The kind of a known method's further URIs, and the URI that is kept.
fn kept_by<'a>(tbs: &'a TbsCert, method: &[u8]) -> Option<(FactKind, Option<&'a [u8]>)>
    ensures { option_map kept_view result ≡ kept_by tbs.now.extensions.access method.now }
{
    if method == oid::AD_CA_REPOSITORY {
        Some((
            FactKind::FurtherRepository,
            tbs.ca_repository().map(|uri| uri.as_bytes()),
        ))
    } else if method == oid::AD_RPKI_MANIFEST {
        Some((
            FactKind::FurtherManifest,
            tbs.rpki_manifest().map(|uri| uri.as_bytes()),
        ))
    } else if method == oid::AD_SIGNED_OBJECT {
        Some((
            FactKind::FurtherObject,
            tbs.signed_object().map(|uri| uri.as_bytes()),
        ))
    } else if method == oid::AD_RPKI_NOTIFY {
        Some((
            FactKind::FurtherNotify,
            tbs.rpki_notify().map(|uri| uri.as_bytes()),
        ))
    } else {
        None
    }
}

// Adds the first URI, if it isn't the one that is kept.
fn put_first<'a>(
    facts: &mut Facts<'a>,
    kind: FactKind,
    kept: Option<&[u8]>,
    location: &Cursor<'a>,
) -> Put
    ensures { let first = value_at URI (remaining location.now) in
        let more = further_at kind (option_copied kept.entry) first in
        OnOk result (map fact_view facts.new.items ≡ map fact_view facts.old.items ++ more) }
{
    let mut rest = location.fork();
    match content(&mut rest, URI) {
        Some(uri) => put_further(facts, kind, kept, uri.rest()),
        None => Ok(()),
    }
}

// Adds the location of a known method, or an unknown method and its URI.
fn put_location<'a>(
    facts: &mut Facts<'a>,
    kept: Option<(FactKind, Option<&[u8]>)>,
    method: &'a [u8],
    location: &Cursor<'a>,
) -> Put
    ensures { let by = option_map kept_view kept.entry in
        let more = location_facts by method.now (remaining location.now) in
        OnOk result (map fact_view facts.new.items ≡ map fact_view facts.old.items ++ more) }
{
    match kept {
        Some((kind, kept)) => put_first(facts, kind, kept, location),
        None => {
            put_fact(facts, FactKind::UnknownMethod, method)?;
            put_first(facts, FactKind::MethodUri, None, location)
        }
    }
}

// Adds the facts of a description: a method and a location.
fn put_description<'a>(facts: &mut Facts<'a>, tbs: &TbsCert, description: &Cursor<'a>) -> Put
    ensures { let more = description_facts tbs.now.extensions.access (remaining description.now) in
        OnOk result (map fact_view facts.new.items ≡ map fact_view facts.old.items ++ more) }
{
    let mut location = description.fork();
    match content(&mut location, tag::OBJECT_IDENTIFIER) {
        Some(method) => {
            let method = method.rest();
            put_location(facts, kept_by(tbs, method), method, &location)
        }
        None => Ok(()),
    }
}

// Adds the facts of each description.
fn put_descriptions<'a>(facts: &mut Facts<'a>, tbs: &TbsCert, descriptions: &Cursor<'a>) -> Put
    ensures { let access = tbs.now.extensions.access in
        let more = descriptions_facts access (remaining descriptions.now) in
        OnOk result (map fact_view facts.new.items ≡ map fact_view facts.old.items ++ more) }
{
    let mut rest = descriptions.fork();
    while let Some(description) = content(&mut rest, tag::SEQUENCE) {
        put_description(facts, tbs, &description)?;
    }
    Ok(())
}

/// Adds the URIs of Subject Information Access that aren't kept, and its unknown methods (RFC 6487
/// 4.8.8).
pub(crate) fn put_access<'a>(facts: &mut Facts<'a>, tbs: &TbsCert, access: &Cursor<'a>) -> Put
    ensures { let descriptions = value_at SEQUENCE (remaining access.now) in
        let more = access_facts tbs.now.extensions.access descriptions in
        OnOk result (map fact_view facts.new.items ≡ map fact_view facts.old.items ++ more) }
{
    let mut rest = access.fork();
    match content(&mut rest, tag::SEQUENCE) {
        Some(descriptions) => put_descriptions(facts, tbs, &descriptions),
        None => Ok(()),
    }
}
