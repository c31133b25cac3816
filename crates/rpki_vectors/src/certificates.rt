//! Whole certificates.
use crate::answer::Answer;
use crate::extensions::{purposes, usage};
use crate::parts::{algorithm, key_identifier, public_key, serial, time};
use crate::sets::{listed, mode};
use crate::show::{Show, Twin, read, read_optional, stays};
use crate::uris::{https, rsync};
use crate::words::Words;
use bytes::Bytes;
use rpki_cert::{Cert, TbsCert};
use rpki_der::{Cursor, DecodeError, EncodeError};
use rpki_parts::{SignedData, StandIn};
use std::alloc::{AllocError, Global};

fn head(out: &mut Answer, data: &TbsCert) {
    serial(out.field("serial-number"), data.serial_number());
    algorithm(out.field("signature"), &data.signature());
    out.field("issuer").octets(data.issuer().as_bytes());
    time(out.field("not-before"), data.validity().not_before());
    time(out.field("not-after"), data.validity().not_after());
}

fn holder(out: &mut Answer, data: &TbsCert) {
    out.field("subject").octets(data.subject().as_bytes());
    public_key(out.field("key"), data.subject_public_key_info());
    out.field("basic-ca").text(match data.basic_ca() {
        Some(true) => "yes",
        Some(false) => "no",
        None => "none",
    });
    out.field("subject-key-identifier");
    key_identifier(out, Some(data.subject_key_identifier()));
    out.field("authority-key-identifier");
    key_identifier(out, data.authority_key_identifier());
}

fn uses(out: &mut Answer, data: &TbsCert) {
    out.field("key-usage").text(usage(data.key_usage()));
    purposes(out.field("extended-key-usage"), data.extended_key_usage());
    rsync(out.field("crl-uri"), data.crl_uri());
    rsync(out.field("ca-issuer"), data.ca_issuer());
}

fn places(out: &mut Answer, data: &TbsCert) {
    rsync(out.field("ca-repository"), data.ca_repository());
    rsync(out.field("rpki-manifest"), data.rpki_manifest());
    rsync(out.field("signed-object"), data.signed_object());
    https(out.field("rpki-notify"), data.rpki_notify());
}

fn resources(out: &mut Answer, data: &TbsCert) {
    out.field("overclaim").text(mode(data.overclaim()));
    listed(out.field("v4-resources"), data.v4_resources());
    listed(out.field("v6-resources"), data.v6_resources());
    listed(out.field("as-resources"), data.as_resources());
}

fn tests(out: &mut Answer, data: &TbsCert) {
    out.field("is-ca").yes(data.is_ca());
    out.field("is-self-signed").yes(data.is_self_signed());
    out.field("has-ip-resources").yes(data.has_ip_resources());
}

/// Appends all fields, by their getters.
pub fn fields(out: &mut Answer, data: &TbsCert) {
    head(out, data);
    holder(out, data);
    uses(out, data);
    places(out, data);
    resources(out, data);
    tests(out, data);
}

impl Show for TbsCert {
    fn show(&self, out: &mut Answer) {
        fields(out, self);
        let mut octets: Vec<u8> = Vec::new(out.alloc());
        let answer = self.encode_ref(out.alloc(), &mut octets);
        out.again(answer, &octets);
    }
}

impl Twin for TbsCert {
    fn twin(&self, alloc: Global) -> Result<TbsCert, AllocError> {
        self.try_clone(alloc)
    }
}

// Octets that are mostly some that are known.
fn or_same(out: &mut Answer, known: &[u8], octets: &[u8]) {
    if octets == known {
        out.text("same");
    } else {
        out.octets(octets);
    }
}

// What is written of the fields; `same` where it is what was signed.
fn data_written(out: &mut Answer, cert: &Cert) {
    out.field("data-written");
    let mut octets: Vec<u8> = Vec::new(out.alloc());
    match cert.as_tbs().encode_ref(out.alloc(), &mut octets) {
        Ok(()) => or_same(out, cert.signed_data().data(), &octets),
        Err(error) => out.unwritten(&error, &octets),
    }
}

// The first place of a part.
fn first_place(whole: &[u8], part: &[u8]) -> Option<usize> {
    for from in 0..whole.len() {
        if let Some(rest) = whole.get(from..) {
            if rest.starts_with(part) {
                return Some(from);
            }
        }
    }
    None
}

// Where a part stands first in the certificate.
fn first_in(out: &mut Answer, whole: &[u8], part: &[u8]) {
    match first_place(whole, part) {
        Some(from) => out.range(from, from.wrapping_add(part.len())),
        None => out.octets(part),
    }
}

// Where a part stands at the end of the certificate.
fn last_in(out: &mut Answer, whole: &[u8], part: &[u8]) {
    match whole.len().checked_sub(part.len()) {
        Some(from) if whole.get(from..) == Some(part) => out.range(from, whole.len()),
        _ => out.octets(part),
    }
}

// What is signed, and the signature, by their places in the certificate.
fn signature(out: &mut Answer, signed: &SignedData, whole: &[u8]) {
    first_in(out.field("data"), whole, signed.data());
    out.field("signature-algorithm");
    algorithm(out, signed.signature().algorithm());
    out.field("signature-value");
    last_in(out, whole, signed.signature().value());
}

/// Appends what is captured; `same` where it is what was written.
pub fn captured(out: &mut Answer, found: Result<Bytes, EncodeError>, octets: &[u8]) {
    out.field("captured");
    match &found {
        Ok(captured) => or_same(out, octets, captured.as_slice()),
        Err(error) => out.name(error.name()),
    }
    drop(found);
}

/// Appends the certificate as it is written, and its parts by their places in it.
pub fn written(out: &mut Answer, cert: &Cert) {
    let mut octets: Vec<u8> = Vec::new(out.alloc());
    let answer = cert.encode_ref(out.alloc(), &mut octets);
    out.again(answer, &octets);
    let found = cert.to_captured(out.alloc());
    captured(out, found, &octets);
    signature(out, cert.signed_data(), &octets);
    data_written(out, cert);
}

fn verifies(out: &mut Answer, cert: &Cert) {
    out.field("verifies-by-its-own-key");
    let key = cert.as_tbs().subject_public_key_info();
    out.yes(cert.signed_data().verify_signature(key, &StandIn).is_ok());
}

impl Show for Cert {
    fn show(&self, out: &mut Answer) {
        fields(out, self.as_tbs());
        verifies(out, self);
        written(out, self);
    }
}

impl Twin for Cert {
    fn twin(&self, alloc: Global) -> Result<Cert, AllocError> {
        self.try_clone(alloc)
    }
}

fn taken(out: &mut Answer, first: &Answer, octets: &Bytes) {
    let mut other = out.beside();
    let mut cursor = Cursor::new(octets);
    let found = Cert::take_from(out.alloc(), &mut cursor);
    stays(out, &found, &cursor, 0);
    read(&mut other, found);
    out.field("take").compared(first, &other);
    out.left(&cursor);
}

fn taken_optional(out: &mut Answer, first: &Answer, octets: &Bytes) {
    let mut other = out.beside();
    let mut cursor = Cursor::new(octets);
    let found = Cert::take_opt_from(out.alloc(), &mut cursor);
    stays(out, &found, &cursor, 0);
    read_optional(&mut other, found);
    out.field("take-optional").compared(first, &other);
    out.left(&cursor);
}

fn inside(out: &mut Answer, first: &Answer, content: Cursor<'_>) {
    let mut content = content;
    let (from, _) = content.span();
    let mut other = out.beside();
    let found = Cert::from_constructed(out.alloc(), &mut content);
    stays(out, &found, &content, from);
    read(&mut other, found);
    out.field("content").compared(first, &other);
    out.left(&content);
}

fn taken_inside(out: &mut Answer, first: &Answer, found: Result<Cursor<'_>, DecodeError>) {
    match found {
        Ok(content) => inside(out, first, content),
        Err(error) => {
            out.field("content").fault(&error);
            drop(error);
        }
    }
}

/// Answers about a certificate by each of the ways to read one.
pub fn certificate(words: &Words<'_>, out: &mut Answer) {
    let octets = words.asked(out, 1);
    let mut first = out.beside();
    read(&mut first, Cert::decode(out.alloc(), octets.as_slice()));
    out.add(&first);
    taken(out, &first, &octets);
    taken_optional(out, &first, &octets);
    taken_inside(out, &first, Cursor::new(&octets).take_sequence());
}

/// Appends what is signed of a certificate.
pub fn data(words: &Words<'_>, out: &mut Answer) {
    let octets = words.asked(out, 1);
    let mut cursor = Cursor::new(&octets);
    let found = TbsCert::from_constructed(out.alloc(), &mut cursor);
    stays(out, &found, &cursor, 0);
    read(out, found);
    out.left(&cursor);
}

/// Answers whether octets that are shared are answered as octets that are copied.
pub fn shared(words: &Words<'_>, out: &mut Answer) {
    let octets = words.asked(out, 2);
    let mut first = out.beside();
    read(&mut first, Cert::decode(out.alloc(), octets.as_slice()));
    let mut other = out.beside();
    read(&mut other, Cert::decode_shared(out.alloc(), octets));
    out.compared(&first, &other);
}
