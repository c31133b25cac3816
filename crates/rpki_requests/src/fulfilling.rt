//! What a request makes: the to-be-signed bytes, or a certificate or a CRL.
ghost use Rattle.std.specs.Prelude.{◌≡◌, ◌≢◌, ◌⊎◌, ◌↔◌, ℕ, List, [], ◌∷◌, option_map, Option, IfErr, IfOk, IsTrue, MatchOption};
ghost use Rattle.rpki_files.specs.Files.{contents};
ghost use Rattle.rpki_crl.specs.Lists.{IsTbsCertList};
ghost use Rattle.rpki_cert.specs.Verification.{ResourceFields};
ghost use Rattle.rpki_cert.specs.declared.inspect.Kind.{Kind as kinds};
ghost use Rattle.rpki_issuing.specs.Acceptance.{IsAnsweringList};
ghost use Rattle.rpki_requests.specs.Fulfilment.{AsksFields, Completes, CompletesAs, CompletesBelow, CompletesListBelow, Fulfils, GivesToSign, IsAcceptedCertificate, IsAcceptedMade, IsAcceptedOf, Prepares, PreparesBelow, PreparesList, PreparesListBelow, context_of};
ghost use Rattle.rpki_requests.specs.RequestFiles.{IsCompletedAs, IsRequestIssuer, IsOnlyIssuer, IsSoAsked};
ghost use Rattle.rpki_requests.specs.RequestWords.Views.{asked_fields};
ghost use Rattle.rpki_requests.specs.Refusals.{AnswersOnly, IsPathless, TellsPath};
ghost use Rattle.rpki_requests.specs.RefusedErrands.{IsFieldsFault, IsListErrandFault, IsMadeListFault, IsSoOf, IsSoOfCertificate, IsSoOfCompletion, IsSoOfEither, IsSoOfListed, IsSoOfMade, IsSoOfPrepared, name_place};
ghost use Rattle.rpki_requests.specs.ToldRefusals.{IsOfPath};
ghost use Rattle.rpki_requests.specs.declared.refusals.Refusal.TheVariants.{Memory, OtherName, Unfit};
ghost use Rattle.rpki_requests.specs.declared.words.Errand.TheVariants.{Completion};
ghost use Rattle.rpki_issuing.specs.declared.wanted.preparing.WantedError.TheVariants as wanting;

use crate::issuers::issuer_of;
use crate::keys::{subject_key, to_sign};
use crate::lists::{list_asked, list_to_sign};
use crate::refusals::Refusal;
use crate::values::{both, wanted};
use crate::words::{Errand, Order};
use bytes::Bytes;
use rpki_cert::{Kind, ResourceCert, TbsCert, said_kind};
use rpki_crl::{RevokedCertificates, TbsCertList, laws};
use rpki_der::Time;
use rpki_files::Object;
use rpki_issuing::wanted::issuers::{above, is_named};
use rpki_issuing::wanted::{
    WantedError, complete_list_octets, complete_octets, fields, prepare_list_octets, prepare_octets,
};
use rpki_path::revocation::{GivenLists, NobodyAsked, RevocationSource};
use rpki_verdicts::lists_of;
use std::alloc::{AllocError, Global};
use std::marker::Model;

/// The files that a request names, as they were read: those of the issuer's path, from the trust
/// anchor down, the CRLs that it is validated with, the file of the subject's key, the issuer's
/// previous CRL, the certificates to be revoked, and the others.
#[derive(Drop)]
pub struct Inputs<'f, 'n> {
    pub issuers: &'f [Object<'n>],
    pub lists: &'f [Object<'n>],
    pub keys: &'f [Object<'n>],
    pub previous: &'f [Object<'n>],
    pub revoked: &'f [Object<'n>],
    pub files: &'f [Object<'n>],
}

impl<'f, 'n> Model for Inputs<'f, 'n> {
    ghost use Rattle.rpki_files.specs.Files.{contents};
    ghost use Rattle.rpki_requests.specs.RequestFiles.{InputFields};

    ghost Value = { InputFields };

    ghost view = { λ i. record {
      issuers = contents i.issuers.now;
      lists = contents i.lists.now;
      keys = contents i.keys.now;
      previous = contents i.previous.now;
      revoked = contents i.revoked.now;
      files = contents i.files.now;
    } };
}

/// The result of a request.
#[derive(Drop)]
pub enum Made {
    /// The to-be-signed bytes: a TBSCertificate or a TBSCertList, in DER.
    ToSign(Bytes),
    /// A certificate, in DER.
    Certificate(Bytes),
    /// A CRL, in DER.
    RevocationList(Bytes),
}

// Why nothing is prepared or completed, where memory didn't run out.
pub(crate) fn unfit(error: WantedError) -> Refusal
    ensures memory { result ≢ Memory → error ≢ wanting.Memory }
    ensures pathless { IsPathless result }
    ensures told { (result ≡ Memory) ⊎ (result ≡ Unfit error) }
{
    match error {
        WantedError::Memory => Refusal::Memory,
        other => Refusal::Unfit(other),
    }
}

// The fields of the certificate that options and key ask for below the issuer.
fn fields_of(
    alloc: Global,
    order: &Order<'_>,
    kind: Kind,
    keys: &[Object<'_>],
    issuer: Option<&ResourceCert>,
) -> Result<TbsCert, Refusal>
    ensures { let issuer = option_map (λ r. r.now) issuer.entry in
        let asked = asked_fields order.now in let keys = contents keys.now in
        AnswersOnly (IsFieldsFault kind asked.given keys)
        (AsksFields kind asked keys issuer) result }
{
    let wanted = wanted(alloc, order);
    let key = subject_key(alloc, keys);
    match both(wanted, key) {
        Ok((wanted, key)) => match fields(alloc, kind, order.trims, wanted, above(issuer), key)? {
            Some(tbs) => {
                // Called for what it ensures alone.
                let _octets = tbs.subject().as_bytes();
                Ok(tbs)
            }
            None => Err(Refusal::NoName),
        },
        Err(why) => Err(why),
    }
}

// What is to be signed below the issuer, by who is asked for revocation.
fn prepared_below<R: RevocationSource>(
    alloc: Global,
    order: &Order<'_>,
    kind: Kind,
    keys: &[Object<'_>],
    path: &[Bytes],
    issuer: Option<&ResourceCert>,
    source: &R,
    at: Time,
) -> Result<Bytes, Refusal>
    ensures prepared { let issuer = option_map (λ r. r.now) issuer.entry in
        let asked = asked_fields order.now in
        let checks = R.asks source.now (context_of asked at) in
        IfOk result (PreparesBelow kind asked (contents keys.now) path.now checks at issuer) }
    ensures refused { let issuer = option_map (λ r. r.now) issuer.entry in
        let asked = asked_fields order.now in
        let checks = R.asks source.now (context_of asked at) in
        IfErr result (λ why. why ≢ Memory → (octets : List ℕ)
        → PreparesBelow kind asked (contents keys.now) path.now checks at issuer octets → ⊥) }
    ensures pathless { IfErr result IsPathless }
    ensures so { let issuer = option_map (λ r. r.now) issuer.entry in
        let asked = asked_fields order.now in
        let checks = R.asks source.now (context_of asked at) in
        IfErr result (IsSoOfCertificate kind asked (contents keys.now) path.now checks at issuer) }
{
    let tbs = fields_of(alloc, order, kind, keys, issuer)?;
    let octets = prepare_octets(alloc, &tbs, kind, issuer, path, source, order.strict, at);
    drop(tbs);
    match octets {
        Ok(octets) => Ok(octets),
        Err(error) => Err(unfit(error)),
    }
}

// What is to be signed below the issuer, by the lists that are given.
fn prepared_asking(
    alloc: Global,
    order: &Order<'_>,
    kind: Kind,
    keys: &[Object<'_>],
    path: &[Bytes],
    issuer: Option<&ResourceCert>,
    lists: &[Object<'_>],
    at: Time,
) -> Result<Bytes, Refusal>
    ensures prepared { let issuer = option_map (λ r. r.now) issuer.entry in
        let asked = asked_fields order.now in
        let keys = contents keys.now in
        IfOk result (λ octets. IsSoAsked (context_of asked at) (contents lists.now)
        (λ checks. PreparesBelow kind asked keys path.now checks at issuer octets)) }
    ensures refused { let issuer = option_map (λ r. r.now) issuer.entry in
        let asked = asked_fields order.now in
        let keys = contents keys.now in
        IfErr result (λ why. why ≢ Memory → (octets : List ℕ)
        → IsSoAsked (context_of asked at) (contents lists.now)
        (λ checks. PreparesBelow kind asked keys path.now checks at issuer octets) → ⊥) }
    ensures pathless { IfErr result IsPathless }
    ensures so { let issuer = option_map (λ r. r.now) issuer.entry in
        let asked = asked_fields order.now in
        let keys = contents keys.now in
        IfErr result (λ why. (why ≡ Memory)
        ⊎ IsSoAsked (context_of asked at) (contents lists.now)
        (λ checks. IsSoOfCertificate kind asked keys path.now checks at issuer why)) }
{
    if lists.is_empty() {
        return prepared_below(alloc, order, kind, keys, path, issuer, &NobodyAsked, at);
    }
    // Called for what they ensure alone.
    rpki_cert::laws::unambiguous();
    laws::unambiguous();
    let read = lists_of(alloc, lists)?;
    let given = GivenLists::with_names(&read, true);
    let octets = prepared_below(alloc, order, kind, keys, path, issuer, &given, at);
    drop(read);
    octets
}

// The issuer that the files are, if there are some.
fn issuer_asked(
    alloc: Global,
    order: &Order<'_>,
    inputs: &Inputs<'_, '_>,
    at: Time,
) -> Result<Option<ResourceCert>, Refusal>
    ensures issuer { let x = context_of (asked_fields order.now) at in
        IfOk result (IsRequestIssuer x inputs.now.issuers inputs.now.lists) }
    ensures only { let x = context_of (asked_fields order.now) at in
        IfOk result (IsOnlyIssuer x inputs.now.issuers inputs.now.lists) }
    ensures none { let x = context_of (asked_fields order.now) at in
        IfErr result (λ why. why ≢ Memory → (issuer : Option ResourceFields)
        → IsRequestIssuer x inputs.now.issuers inputs.now.lists issuer → ⊥) }
    ensures told { let x = context_of (asked_fields order.now) at in
        IfErr result (TellsPath x inputs.now.issuers inputs.now.lists) }
    ensures of_path { IfErr result IsOfPath }
{
    issuer_of(alloc, inputs.issuers, inputs.lists, order.strict, at)
}

// What is to be signed of a certificate.
fn prepared(
    alloc: Global,
    order: &Order<'_>,
    kind: Kind,
    inputs: &Inputs<'_, '_>,
    path: &[Bytes],
    at: Time,
) -> Result<Made, Refusal>
    requires { path.now ≡ inputs.now.issuers }
    ensures prepared { let asked = asked_fields order.now in
        IfOk result (GivesToSign (Prepares kind asked inputs.now at)) }
    ensures refused { let asked = asked_fields order.now in
        IfErr result (λ why. why ≢ Memory → (given : Made)
        → GivesToSign (Prepares kind asked inputs.now at) given → ⊥) }
    ensures told { let x = context_of (asked_fields order.now) at in
        IfErr result (TellsPath x inputs.now.issuers inputs.now.lists) }
    ensures so { let asked = asked_fields order.now in
        IfErr result (IsSoOfPrepared kind asked inputs.now at) }
{
    let issuer = issuer_asked(alloc, order, inputs, at)?;
    let octets = prepared_asking(
        alloc,
        order,
        kind,
        inputs.keys,
        path,
        issuer.as_ref(),
        inputs.lists,
        at,
    );
    drop(issuer);
    Ok(Made::ToSign(octets?))
}

// What is to be signed of the issuer's list.
fn list_prepared_below(
    alloc: Global,
    order: &Order<'_>,
    inputs: &Inputs<'_, '_>,
    issuer: &ResourceCert,
    at: Time,
) -> Result<Bytes, Refusal>
    ensures prepared { let asked = asked_fields order.now in
        IfOk result (PreparesListBelow asked inputs.now at issuer.now.cert.fields) }
    ensures refused { let asked = asked_fields order.now in
        IfErr result (λ why. why ≢ Memory → (octets : List ℕ)
        → PreparesListBelow asked inputs.now at issuer.now.cert.fields octets → ⊥) }
    ensures pathless { IfErr result IsPathless }
    ensures so { let asked = asked_fields order.now in
        IfErr result (IsListErrandFault asked inputs.now at issuer.now.cert.fields) }
{
    let list = list_asked(alloc, order, inputs, issuer, at)?;
    let octets = prepare_list_octets(alloc, &list, issuer, order.strict, at);
    drop(list);
    match octets {
        Ok(octets) => Ok(octets),
        Err(error) => Err(unfit(error)),
    }
}

// What is to be signed of a list.
fn list_prepared(
    alloc: Global,
    order: &Order<'_>,
    inputs: &Inputs<'_, '_>,
    at: Time,
) -> Result<Made, Refusal>
    ensures prepared { let asked = asked_fields order.now in
        IfOk result (GivesToSign (PreparesList asked inputs.now at)) }
    ensures refused { let asked = asked_fields order.now in
        IfErr result (λ why. why ≢ Memory → (given : Made)
        → GivesToSign (PreparesList asked inputs.now at) given → ⊥) }
    ensures told { let x = context_of (asked_fields order.now) at in
        IfErr result (TellsPath x inputs.now.issuers inputs.now.lists) }
    ensures so { let asked = asked_fields order.now in
        IfErr result (IsSoOfListed asked inputs.now at) }
{
    let Some(issuer) = issuer_asked(alloc, order, inputs, at)? else {
        return Err(Refusal::NoIssuer);
    };
    let octets = list_prepared_below(alloc, order, inputs, &issuer, at);
    drop(issuer);
    Ok(Made::ToSign(octets?))
}

// As which kind it is completed.
fn completed_as(tbs: &TbsCert, issuer: Option<&ResourceCert>) -> Kind
    ensures { IsCompletedAs (option_map (λ r. r.now) issuer.entry) tbs.now result }
{
    match issuer {
        Some(_) => said_kind(tbs),
        None => Kind::Anchor,
    }
}

// The place of what is completed, where names don't chain there.
fn named_otherwise(issuer: Option<&ResourceCert>) -> Refusal
    ensures memory { result ≢ Memory }
    ensures pathless { IsPathless result }
    ensures place { result ≡ OtherName (name_place (option_map (λ r. r.now) issuer.entry)) }
{
    match issuer {
        Some(_) => Refusal::OtherName(1),
        None => Refusal::OtherName(0),
    }
}

// The certificate that is completed below the issuer, by who is asked for revocation.
fn completed_below<R: RevocationSource>(
    alloc: Global,
    order: &Order<'_>,
    path: &[Bytes],
    issuer: Option<&ResourceCert>,
    source: &R,
    prepared: &Bytes,
    signature: &[u8],
    at: Time,
) -> Result<Bytes, Refusal>
    ensures completed { let issuer = option_map (λ r. r.now) issuer.entry in
        let asked = asked_fields order.now in
        let checks = R.asks source.now (context_of asked at) in
        IfOk result (CompletesBelow asked path.now checks at issuer prepared.now signature.now) }
    ensures accepted { let issuer = option_map (λ r. r.now) issuer.entry in
        let x = context_of (asked_fields order.now) at in
        IfOk result (λ octets. (kind : kinds)
        × IsAcceptedCertificate x (R.asks source.now x) issuer kind octets) }
    ensures refused { let issuer = option_map (λ r. r.now) issuer.entry in
        let asked = asked_fields order.now in
        let checks = R.asks source.now (context_of asked at) in
        IfErr result (λ why. why ≢ Memory → (octets : List ℕ)
        → CompletesBelow asked path.now checks at issuer prepared.now signature.now octets → ⊥) }
    ensures pathless { IfErr result IsPathless }
    ensures so { let issuer = option_map (λ r. r.now) issuer.entry in
        let asked = asked_fields order.now in
        let checks = R.asks source.now (context_of asked at) in
        IfErr result (IsSoOfMade asked path.now checks at issuer prepared.now signature.now) }
{
    let tbs = to_sign(alloc, prepared)?;
    if !is_named(&tbs, issuer) {
        drop(tbs);
        return Err(named_otherwise(issuer));
    }
    let kind = completed_as(&tbs, issuer);
    let strict = order.strict;
    let octets = complete_octets(
        alloc, &tbs, prepared, signature, kind, issuer, path, source, strict, at,
    );
    drop(tbs);
    match octets {
        Ok(octets) => Ok(octets),
        Err(error) => Err(unfit(error)),
    }
}

// Whether the list is named as its issuer is.
fn is_list_named(list: &TbsCertList<RevokedCertificates>, issuer: &ResourceCert) -> bool
    ensures { IsTrue result ↔ (list.now.issuer ≡ issuer.now.cert.fields.subject) }
{
    list.issuer().as_bytes() == issuer.as_cert().as_tbs().subject().as_bytes()
}

// The list that is completed below the issuer.
fn list_completed_below(
    alloc: Global,
    order: &Order<'_>,
    issuer: &ResourceCert,
    list: &TbsCertList<RevokedCertificates>,
    prepared: &[u8],
    signature: &[u8],
    at: Time,
) -> Result<Bytes, Refusal>
    requires { IsTbsCertList list.now prepared.now }
    ensures completed { let asked = asked_fields order.now in
        let issuer = issuer.now.cert.fields in
        IfOk result (CompletesListBelow asked at issuer prepared.now signature.now) }
    ensures accepted { let x = context_of (asked_fields order.now) at in
        IfOk result (IsAnsweringList x issuer.now.cert.fields list.now) }
    ensures refused { let asked = asked_fields order.now in
        let issuer = issuer.now.cert.fields in
        IfErr result (λ why. why ≢ Memory → (octets : List ℕ)
        → CompletesListBelow asked at issuer prepared.now signature.now octets → ⊥) }
    ensures pathless { IfErr result IsPathless }
    ensures so { let asked = asked_fields order.now in
        let issuer = issuer.now.cert.fields in
        IfErr result (IsMadeListFault asked at issuer prepared.now signature.now) }
{
    // Called for what it ensures alone.
    laws::unambiguous();
    if !is_list_named(list, issuer) {
        return Err(Refusal::OtherName(1));
    }
    match complete_list_octets(alloc, list, prepared, signature, issuer, order.strict, at) {
        Ok(octets) => Ok(octets),
        Err(error) => Err(unfit(error)),
    }
}

// The certificate or the list that is completed below the issuer, by who is asked for revocation.
fn made_below<R: RevocationSource>(
    alloc: Global,
    order: &Order<'_>,
    path: &[Bytes],
    issuer: Option<&ResourceCert>,
    source: &R,
    prepared: &Bytes,
    signature: &[u8],
    at: Time,
) -> Result<Made, Refusal>
    ensures completed { let issuer = option_map (λ r. r.now) issuer.entry in
        let asked = asked_fields order.now in
        let checks = R.asks source.now (context_of asked at) in
        IfOk result (CompletesAs asked path.now checks at issuer prepared.now signature.now) }
    ensures accepted { let issuer = option_map (λ r. r.now) issuer.entry in
        let x = context_of (asked_fields order.now) at in
        IfOk result (IsAcceptedMade x (R.asks source.now x) issuer) }
    ensures refused { let issuer = option_map (λ r. r.now) issuer.entry in
        let asked = asked_fields order.now in
        let checks = R.asks source.now (context_of asked at) in
        IfErr result (λ why. why ≢ Memory → (given : Made)
        → CompletesAs asked path.now checks at issuer prepared.now signature.now given → ⊥) }
    ensures pathless { IfErr result IsPathless }
    ensures so { let issuer = option_map (λ r. r.now) issuer.entry in
        let asked = asked_fields order.now in
        let checks = R.asks source.now (context_of asked at) in
        IfErr result (IsSoOfEither asked path.now checks at issuer prepared.now signature.now) }
{
    let Some(list) = list_to_sign(alloc, prepared)? else {
        let octets = completed_below(alloc, order, path, issuer, source, prepared, signature, at)?;
        return Ok(Made::Certificate(octets));
    };
    let Some(issuer) = issuer else {
        drop(list);
        return Err(Refusal::NoIssuer);
    };
    let octets = list_completed_below(alloc, order, issuer, &list, prepared, signature, at);
    drop(list);
    Ok(Made::RevocationList(octets?))
}

// The certificate or the list that is completed below the issuer, by the lists that are given.
fn made_asking(
    alloc: Global,
    order: &Order<'_>,
    path: &[Bytes],
    issuer: Option<&ResourceCert>,
    lists: &[Object<'_>],
    prepared: &Bytes,
    signature: &[u8],
    at: Time,
) -> Result<Made, Refusal>
    ensures completed { let issuer = option_map (λ r. r.now) issuer.entry in
        let asked = asked_fields order.now in
        IfOk result (λ given. IsSoAsked (context_of asked at) (contents lists.now)
        (λ checks. CompletesAs asked path.now checks at issuer prepared.now signature.now given)) }
    ensures accepted { let issuer = option_map (λ r. r.now) issuer.entry in
        let x = context_of (asked_fields order.now) at in
        IfOk result (λ given. IsSoAsked x (contents lists.now)
        (λ checks. IsAcceptedMade x checks issuer given)) }
    ensures refused { let issuer = option_map (λ r. r.now) issuer.entry in
        let asked = asked_fields order.now in
        IfErr result (λ why. why ≢ Memory → (given : Made)
        → IsSoAsked (context_of asked at) (contents lists.now)
        (λ checks. CompletesAs asked path.now checks at issuer prepared.now signature.now given) → ⊥) }
    ensures pathless { IfErr result IsPathless }
    ensures so { let issuer = option_map (λ r. r.now) issuer.entry in
        let asked = asked_fields order.now in
        IfErr result (λ why. (why ≡ Memory)
        ⊎ IsSoAsked (context_of asked at) (contents lists.now)
        (λ checks. IsSoOfEither asked path.now checks at issuer prepared.now signature.now why)) }
{
    if lists.is_empty() {
        return made_below(
            alloc,
            order,
            path,
            issuer,
            &NobodyAsked,
            prepared,
            signature,
            at,
        );
    }
    // Called for what they ensure alone.
    rpki_cert::laws::unambiguous();
    laws::unambiguous();
    let read = lists_of(alloc, lists)?;
    let given = GivenLists::with_names(&read, true);
    let made = made_below(alloc, order, path, issuer, &given, prepared, signature, at);
    drop(read);
    made
}

// The two files, if there are two.
fn two_files<'f>(files: &'f [Object<'_>]) -> Option<(&'f Bytes, &'f Bytes)>
    ensures { MatchOption result
        ((prepared signature : List ℕ) → contents files.now ≡ prepared ∷ signature ∷ [] → ⊥)
        (λ two. contents files.now ≡ two.0.now ∷ two.1.now ∷ []) }
{
    if files.len() != 2 {
        return None;
    }
    Some((files[0].octets(), files[1].octets()))
}

// What is completed.
fn completed(
    alloc: Global,
    order: &Order<'_>,
    inputs: &Inputs<'_, '_>,
    path: &[Bytes],
    at: Time,
) -> Result<Made, Refusal>
    requires { path.now ≡ inputs.now.issuers }
    ensures completed { IfOk result (Completes (asked_fields order.now) inputs.now at) }
    ensures accepted { IfOk result (IsAcceptedOf (asked_fields order.now) inputs.now at) }
    ensures refused { IfErr result (λ why. why ≢ Memory → (given : Made)
        → Completes (asked_fields order.now) inputs.now at given → ⊥) }
    ensures told { let x = context_of (asked_fields order.now) at in
        IfErr result (TellsPath x inputs.now.issuers inputs.now.lists) }
    ensures so { let asked = asked_fields order.now in
        IfErr result (IsSoOfCompletion asked inputs.now at) }
{
    // Called for what they ensure alone.
    rpki_cert::laws::unambiguous();
    laws::unambiguous();
    let Some((prepared, signature)) = two_files(inputs.files) else {
        return Err(Refusal::Files);
    };
    let issuer = issuer_asked(alloc, order, inputs, at)?;
    let made = made_asking(
        alloc,
        order,
        path,
        issuer.as_ref(),
        inputs.lists,
        prepared,
        signature,
        at,
    );
    drop(issuer);
    made
}

// The octets of files.
fn octets_of(alloc: Global, files: &[Object<'_>]) -> Result<Vec<Bytes>, AllocError>
    ensures { IfOk result (λ all. all.items ≡ contents files.now) }
{
    let mut all = Vec::new(alloc);
    for file in files {
        let octets = file.octets().clone()?;
        all.push(octets)?;
    }
    Ok(all)
}

// What a request makes below the issuer's path, whose certificates are in these octets.
fn made_of(
    alloc: Global,
    order: &Order<'_>,
    inputs: &Inputs<'_, '_>,
    path: &[Bytes],
    at: Time,
) -> Result<Made, Refusal>
    requires { path.now ≡ inputs.now.issuers }
    ensures fulfilled { IfOk result (Fulfils (asked_fields order.now) inputs.now at) }
    ensures accepted { (asked_fields order.now).errand ≡ Completion
        → IfOk result (IsAcceptedOf (asked_fields order.now) inputs.now at) }
    ensures refused { IfErr result (λ why. why ≢ Memory → (given : Made)
        → Fulfils (asked_fields order.now) inputs.now at given → ⊥) }
    ensures told { let x = context_of (asked_fields order.now) at in
        IfErr result (TellsPath x inputs.now.issuers inputs.now.lists) }
    ensures so { IfErr result (IsSoOf (asked_fields order.now) inputs.now at) }
{
    match order.errand {
        Errand::Authority => prepared(alloc, order, Kind::Authority, inputs, path, at),
        Errand::EndEntity => prepared(alloc, order, Kind::EndEntity, inputs, path, at),
        Errand::Detached => prepared(alloc, order, Kind::Detached, inputs, path, at),
        Errand::Router => prepared(alloc, order, Kind::Router, inputs, path, at),
        Errand::Anchor => prepared(alloc, order, Kind::Anchor, inputs, path, at),
        Errand::RevocationList => list_prepared(alloc, order, inputs, at),
        Errand::Completion => completed(alloc, order, inputs, path, at),
    }
}

/// Fulfils a request with the files that it names, at this time: prepares the to-be-signed bytes,
/// or completes them with their signature. A completed certificate or CRL is accepted at this time
/// with the same files (`accepted`): the verdict on the issuer's path with the certificate behind
/// it is that it is accepted, and the CRL answers for its issuer.
///
/// # Errors
///
/// Returns why the request is refused, and `Memory`.
///
/// # Not checked
///
/// When a certificate or CRL is prepared: whether the signer has the key. Completion verifies the
/// signature.
pub fn fulfil(
    alloc: Global,
    order: &Order<'_>,
    inputs: &Inputs<'_, '_>,
    at: Time,
) -> Result<Made, Refusal>
    ensures fulfilled { IfOk result (Fulfils (asked_fields order.now) inputs.now at) }
    ensures accepted { (asked_fields order.now).errand ≡ Completion
        → IfOk result (IsAcceptedOf (asked_fields order.now) inputs.now at) }
    ensures refused { IfErr result (λ why. why ≢ Memory → (given : Made)
        → Fulfils (asked_fields order.now) inputs.now at given → ⊥) }
    ensures told { let x = context_of (asked_fields order.now) at in
        IfErr result (TellsPath x inputs.now.issuers inputs.now.lists) }
    ensures so { IfErr result (IsSoOf (asked_fields order.now) inputs.now at) }
{
    let path = octets_of(alloc, inputs.issuers)?;
    let made = made_of(alloc, order, inputs, &path, at);
    drop(path);
    made
}
