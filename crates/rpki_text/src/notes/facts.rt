//! A walk over the extensions of a certificate, for what they have beside the fields.
ghost use Rattle.std.specs.Prelude.{◌≡◌, ◌++◌, List, map, option_map, bytes_eq, IfOk, OnOk};
ghost use Rattle.rpki_cert.specs.Certificates.{CertFields, IsCertificate};
ghost use Rattle.rpki_der.specs.Encoding.{Means};
ghost use Rattle.rpki_der.specs.Extensions.{Extension, IsExtension};
ghost use Rattle.rpki_der.specs.Extensions.Views.{extension_view};
ghost use Rattle.rpki_der.specs.Place.{remaining};
ghost use Rattle.rpki_der.specs.Sequences.{AreEncodings};
ghost use Rattle.rpki_text.specs.Facts.{AreFacts, fact_view, facts_in, facts_of, known_facts, source_of, statement_at, statement_facts};
ghost use Rattle.rpki_text.specs.Qualifiers.{id_qt_cps};

use crate::notes::contents::{content, next_extension};
use crate::notes::fact::{Fact, FactKind, Facts, Put};
use crate::notes::further::{put_access, put_fact, put_issuers, put_lists};
use bytes::Bytes;
use rpki_cert::{Cert, TbsCert};
use rpki_der::{Cursor, oid, tag};
use rpki_ext::is_known;
use rpki_files::{Object, extensions_in};
use std::alloc::{AllocError, Global};

// id-qt-cps, the qualifier that is a practice statement (RFC 5280 4.2.1.4).
const QT_CPS: &[u8] = &[0x2b, 0x06, 0x01, 0x05, 0x05, 0x07, 0x02, 0x01];

const IA5_STRING: u8 = 0x16;

/// Returns whether the content of an OBJECT IDENTIFIER is id-qt-cps (RFC 5280 4.2.1.4).
pub(crate) fn is_cps(kind: &Cursor<'_>) -> bool
    ensures { result ≡ bytes_eq (remaining kind.now) id_qt_cps }
{
    kind.rest() == QT_CPS
}

// The URI of the practice statement in the content of Certificate Policies.
#[tactic(auto, unfolding(crate::specs::Facts::statement_at))]
fn statement_in<'a>(policies: &Cursor<'a>) -> Option<&'a [u8]>
    ensures { option_map (λ uri. uri.now) result ≡ statement_at (remaining policies.now) }
{
    let mut whole = policies.fork();
    let mut inside = content(&mut whole, tag::SEQUENCE)?;
    let mut policy = content(&mut inside, tag::SEQUENCE)?;
    let _identifier = content(&mut policy, tag::OBJECT_IDENTIFIER)?;
    let mut qualifiers = content(&mut policy, tag::SEQUENCE)?;
    let mut qualifier = content(&mut qualifiers, tag::SEQUENCE)?;
    let kind = content(&mut qualifier, tag::OBJECT_IDENTIFIER)?;
    let uri = content(&mut qualifier, IA5_STRING)?;
    if is_cps(&kind) {
        Some(uri.rest())
    } else {
        None
    }
}

// Adds the practice statement, if there is one.
fn put_statement<'a>(facts: &mut Facts<'a>, policies: &Cursor<'a>) -> Put
    ensures { let more = statement_facts (statement_at (remaining policies.now)) in
        OnOk result (map fact_view facts.new.items ≡ map fact_view facts.old.items ++ more) }
{
    match statement_in(policies) {
        Some(uri) => put_fact(facts, FactKind::PracticeStatement, uri),
        None => Ok(()),
    }
}

/// The kinds of known extensions that have facts.
#[derive(Clone, Copy)]
pub(crate) enum Source {
    Policies,
    DistributionPoints,
    AuthorityAccess,
    SubjectAccess,
    Other,
}

impl Source {
    fn of(identifier: &[u8]) -> Source
        ensures { result ≡ source_of identifier.now }
    {
        if identifier == oid::CE_CERTIFICATE_POLICIES {
            Source::Policies
        } else if identifier == oid::CE_CRL_DISTRIBUTION_POINTS {
            Source::DistributionPoints
        } else if identifier == oid::PE_AUTHORITY_INFO_ACCESS {
            Source::AuthorityAccess
        } else if identifier == oid::PE_SUBJECT_INFO_ACCESS {
            Source::SubjectAccess
        } else {
            Source::Other
        }
    }
}

// Adds the facts in the content of an extension of a known kind.
fn put_known<'a>(facts: &mut Facts<'a>, tbs: &TbsCert, source: Source, content: &Cursor<'a>) -> Put
    ensures { let more = known_facts tbs.now.extensions source (remaining content.now) in
        OnOk result (map fact_view facts.new.items ≡ map fact_view facts.old.items ++ more) }
{
    match source {
        Source::Policies => put_statement(facts, content),
        Source::DistributionPoints => {
            let kept = tbs.crl_uri().map(|uri| uri.as_bytes());
            put_lists(facts, kept, content)
        }
        Source::AuthorityAccess => {
            let kept = tbs.ca_issuer().map(|uri| uri.as_bytes());
            put_issuers(facts, kept, content)
        }
        Source::SubjectAccess => put_access(facts, tbs, content),
        Source::Other => Ok(()),
    }
}

// Adds the facts of an extension.
fn put_extension<'a>(
    facts: &mut Facts<'a>,
    tbs: &TbsCert,
    extension: (&'a [u8], bool, Cursor<'a>),
) -> Put
    ensures { let more = facts_in tbs.now.extensions (extension_view extension.entry) in
        OnOk result (map fact_view facts.new.items ≡ map fact_view facts.old.items ++ more) }
{
    let (identifier, _, content) = extension;
    if is_known(identifier) {
        put_known(facts, tbs, Source::of(identifier), &content)
    } else {
        put_fact(facts, FactKind::UnknownExtension, identifier)
    }
}

// The facts of the extensions in a sequence, beside these fields.
fn facts_among<'a>(
    alloc: Global,
    tbs: &TbsCert,
    elements: &Cursor<'a>,
) -> Result<Facts<'a>, AllocError>
    ensures { (xs : List Extension) → AreEncodings IsExtension xs (remaining elements.now)
        → IfOk result (λ facts. map fact_view facts.items ≡ facts_of tbs.now.extensions xs) }
{
    let mut facts = Vec::new(alloc);
    let mut rest = elements.fork();
    while let Some(extension) = next_extension(&mut rest) {
        put_extension(&mut facts, tbs, extension)?;
    }
    Ok(facts)
}

// The facts of the certificate that the octets start with.
fn facts_within<'a>(alloc: Global, octets: &'a Bytes, cert: &Cert) -> Result<Facts<'a>, AllocError>
    requires { Means IsCertificate cert.now octets.now }
    ensures { IfOk result (λ facts. AreFacts octets.now (map fact_view facts.items)) }
{
    match extensions_in(octets) {
        Some(elements) => facts_among(alloc, cert.as_tbs(), &elements),
        None => Ok(Vec::new(alloc)),
    }
}

/// Returns what the certificate at the start of a file has beside the fields that readers keep, in
/// the order of the extensions: extensions of unknown kinds, the practice statement, further URIs
/// of a kind, and unknown access methods. The time is linear in the number of bytes.
///
/// # Errors
///
/// Returns an error only if memory runs out.
pub fn facts_of<'a>(alloc: Global, object: &'a Object<'_>) -> Result<Vec<Fact<'a>>, AllocError>
    ensures { (c : CertFields) → Means IsCertificate c object.now.octets
        → IfOk result (λ facts. AreFacts object.now.octets (map fact_view facts.items)) }
{
    match object.certificate() {
        Some((cert, _)) => facts_within(alloc, object.octets(), cert),
        None => Ok(Vec::new(alloc)),
    }
}
