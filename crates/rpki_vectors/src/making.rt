//! Certificates that are made from fields.
use crate::answer::Answer;
use crate::certificates::{fields, written};
use crate::sets::{blocks, named_mode, push_all, resources_of};
use crate::show::both;
use crate::words::{Words, bytes, moment, octets, shared_characters};
use rpki_blocks::{Addr, Asn};
use rpki_cert::{Cert, ExtendedKeyUsage, KeyUsage, Overclaim, TbsCert};
use rpki_der::{Cursor, DecodeError, Serial};
use rpki_parts::{Https, KeyIdentifier, Name, PublicKey, Rsync, SigningError, StandIn, Validity};
use std::alloc::{AllocError, Global};

// The URI of this name; none where its word is absent, or no URI.
fn rsync(words: &Words<'_>, out: &mut Answer, name: &str) -> Option<Rsync> {
    Rsync::from_bytes(shared_characters(out, words.named(name))).ok()
}

fn https(words: &Words<'_>, out: &mut Answer, name: &str) -> Option<Https> {
    Https::from_bytes(shared_characters(out, words.named(name))).ok()
}

fn key_identifier(words: &Words<'_>, out: &mut Answer) -> Option<KeyIdentifier> {
    if !words.has("authority-key-identifier") {
        return None;
    }
    let found = octets(out, words.named("authority-key-identifier"));
    let mut id = [0u8; 20];
    if found.len() == id.len() {
        id.copy_from_slice(&found);
    }
    Some(KeyIdentifier::from_octets(id))
}

fn key(words: &Words<'_>, out: &mut Answer, name: &str) -> Result<PublicKey, DecodeError> {
    let octets = bytes(out, words.named(name));
    let mut cursor = Cursor::new(&octets);
    PublicKey::take_from(out.alloc(), &mut cursor)
}

fn name(words: &Words<'_>, out: &mut Answer, name: &str) -> Result<Name, DecodeError> {
    let octets = bytes(out, words.named(name));
    let mut cursor = Cursor::new(&octets);
    Name::take_from(out.alloc(), &mut cursor)
}

fn serial(words: &Words<'_>, out: &mut Answer) -> Result<Serial, DecodeError> {
    let found = octets(out, words.named("serial-number"));
    Serial::from_slice(&found).ok_or(DecodeError::BadValue)
}

fn validity(words: &Words<'_>) -> Result<Validity, DecodeError> {
    match moment(words.named("not-before")).zip(moment(words.named("not-after"))) {
        Some((before, after)) => Ok(Validity::new(before, after)),
        None => Err(DecodeError::BadValue),
    }
}

fn subject(words: &Words<'_>, out: &mut Answer) -> Result<Option<Name>, DecodeError> {
    if !words.has("subject") {
        return Ok(None);
    }
    Ok(Some(name(words, out, "subject")?))
}

fn usage(word: &str) -> KeyUsage {
    if word == "Ca" {
        KeyUsage::Ca
    } else {
        KeyUsage::Ee
    }
}

fn new_cert(
    words: &Words<'_>,
    alloc: Global,
    serial: Serial,
    validity: Validity,
    names: (Option<Name>, Name),
    key: PublicKey,
) -> Result<TbsCert, DecodeError> {
    let usage = usage(words.named("key-usage"));
    let mode = named_mode(words.named("overclaim"));
    match TbsCert::new(alloc, serial, names.1, validity, names.0, key, usage, mode) {
        Ok(data) => Ok(data),
        Err(_) => Err(DecodeError::Memory),
    }
}

fn names(words: &Words<'_>, out: &mut Answer) -> Result<(Option<Name>, Name), DecodeError> {
    both(subject(words, out), name(words, out, "issuer"))
}

fn begun(words: &Words<'_>, out: &mut Answer) -> Result<TbsCert, DecodeError> {
    let (serial, validity) = both(serial(words, out), validity(words))?;
    let (names, key) = both(names(words, out), key(words, out, "key"))?;
    new_cert(words, out.alloc(), serial, validity, names, key)
}

fn done(out: &mut Answer, answer: Result<(), AllocError>) {
    if answer.is_err() {
        out.fail();
    }
}

fn router(out: &mut Answer) -> Option<ExtendedKeyUsage> {
    match ExtendedKeyUsage::create_router(out.alloc()) {
        Ok(purposes) => Some(purposes),
        Err(_) => {
            out.fail();
            None
        }
    }
}

fn purposes_of(words: &Words<'_>, out: &mut Answer) -> Option<ExtendedKeyUsage> {
    let octets = bytes(out, words.named("extended-key-usage"));
    let mut cursor = Cursor::new(&octets);
    ExtendedKeyUsage::take_from(out.alloc(), &mut cursor).ok()
}

fn set_purposes(words: &Words<'_>, out: &mut Answer, data: &mut TbsCert) {
    match words.named("extended-key-usage") {
        "none" => {}
        "router" => data.set_extended_key_usage(router(out)),
        _ => data.set_extended_key_usage(purposes_of(words, out)),
    }
}

fn set_plain(words: &Words<'_>, out: &mut Answer, data: &mut TbsCert) {
    data.set_basic_ca(match words.named("basic-ca") {
        "none" => None,
        "yes" => Some(true),
        _ => Some(false),
    });
    data.set_authority_key_identifier(key_identifier(words, out));
}

fn set_uris(words: &Words<'_>, out: &mut Answer, data: &mut TbsCert) {
    data.set_crl_uri(rsync(words, out, "crl-uri"));
    data.set_ca_issuer(rsync(words, out, "ca-issuer"));
    data.set_ca_repository(rsync(words, out, "ca-repository"));
    data.set_rpki_manifest(rsync(words, out, "rpki-manifest"));
    data.set_signed_object(rsync(words, out, "signed-object"));
    data.set_rpki_notify(https(words, out, "rpki-notify"));
}

fn v4_iterated(alloc: Global, word: &str, data: &mut TbsCert) -> Result<(), AllocError> {
    data.v4_resources_from_iter(alloc, blocks::<Addr>(alloc, word)?)
}

fn v6_iterated(alloc: Global, word: &str, data: &mut TbsCert) -> Result<(), AllocError> {
    data.v6_resources_from_iter(alloc, blocks::<Addr>(alloc, word)?)
}

fn as_iterated(alloc: Global, word: &str, data: &mut TbsCert) -> Result<(), AllocError> {
    data.as_resources_from_iter(alloc, blocks::<Asn>(alloc, word)?)
}

fn v4_built(alloc: Global, word: &str, data: &mut TbsCert) -> Result<(), AllocError> {
    data.build_v4_resource_blocks(alloc, |builder| push_all(alloc, word, builder))
}

fn v6_built(alloc: Global, word: &str, data: &mut TbsCert) -> Result<(), AllocError> {
    data.build_v6_resource_blocks(alloc, |builder| push_all(alloc, word, builder))
}

fn as_built(alloc: Global, word: &str, data: &mut TbsCert) -> Result<(), AllocError> {
    data.build_as_resource_blocks(alloc, |builder| push_all(alloc, word, builder))
}

// The three words that say which numbers are listed; a word that is absent lists none.
fn lists<'a>(words: &Words<'a>) -> (&'a str, &'a str, &'a str) {
    (
        words.named("v4-resources"),
        words.named("v6-resources"),
        words.named("as-resources"),
    )
}

fn set_iterated(words: &Words<'_>, out: &mut Answer, data: &mut TbsCert) {
    let (v4, v6, asns) = lists(words);
    done(out, v4_iterated(out.alloc(), v4, data));
    done(out, v6_iterated(out.alloc(), v6, data));
    done(out, as_iterated(out.alloc(), asns, data));
}

fn set_built(words: &Words<'_>, out: &mut Answer, data: &mut TbsCert) {
    let (v4, v6, asns) = lists(words);
    done(out, v4_built(out.alloc(), v4, data));
    done(out, v6_built(out.alloc(), v6, data));
    done(out, as_built(out.alloc(), asns, data));
}

fn set_listed(words: &Words<'_>, out: &mut Answer, data: &mut TbsCert) {
    let (v4, v6, asns) = lists(words);
    data.set_v4_resources(resources_of::<Addr>(out, v4));
    data.set_v6_resources(resources_of::<Addr>(out, v6));
    data.set_as_resources(resources_of::<Asn>(out, asns));
}

fn set_resources(words: &Words<'_>, out: &mut Answer, data: &mut TbsCert) {
    match words.named("set-by") {
        "iterator" => set_iterated(words, out, data),
        "builder" => set_built(words, out, data),
        _ => set_listed(words, out, data),
    }
}

/// What a signer's answer is shown by.
trait Form: Drop {
    fn form(&self, out: &mut Answer);
}

impl Form for Cert {
    fn form(&self, out: &mut Answer) {
        written(out, self);
    }
}

fn finished<T: Form>(out: &mut Answer, made: Result<T, SigningError<()>>) {
    match made {
        Ok(it) => it.form(out),
        Err(error) => {
            out.field("certificate").name(error.name());
        }
    }
}

fn signed(words: &Words<'_>, out: &mut Answer, data: TbsCert, signer: &PublicKey) {
    let mut data = data;
    set_plain(words, out, &mut data);
    set_purposes(words, out, &mut data);
    set_uris(words, out, &mut data);
    set_resources(words, out, &mut data);
    out.text("ok");
    fields(out, &data);
    finished(out, data.into_cert(out.alloc(), &StandIn, signer));
}

fn signed_by(words: &Words<'_>, out: &mut Answer, signer: &PublicKey) {
    match begun(words, out) {
        Ok(data) => signed(words, out, data, signer),
        Err(error) => out.refused(error),
    }
}

/// Makes a certificate from fields, set field by field, and signed by the stand-in.
pub fn make(words: &Words<'_>, out: &mut Answer) {
    match key(words, out, "signer") {
        Ok(signer) => signed_by(words, out, &signer),
        Err(error) => out.refused(error),
    }
}
