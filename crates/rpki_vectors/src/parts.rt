//! Serial numbers, times, names, keys, algorithms and signed data.
use crate::answer::Answer;
use crate::show::{Show, Twin, found, made, read, read_plain};
use crate::uris;
use crate::words::{Words, hexadecimal};
use rpki_der::{Cursor, DecodeError, EncodeError, Serial, Time};
use rpki_parts::{
    KeyIdentifier, Name, PublicKey, RpkiSignatureAlgorithm, SignedData, StandIn, Validity,
};
use std::alloc::{AllocError, Global};
use std::cmp::Ordering;

// Appends what a call writes of a value that was read, into the vector of this name.
macro_rules! put_again {
    ($out:expr, $octets:ident => $written:expr) => {{
        let mut $octets: Vec<u8> = Vec::new($out.alloc());
        let answer = $written;
        $out.again(answer, &$octets);
    }};
}

/// Appends the serial number as it is written.
pub fn serial(out: &mut Answer, it: Serial) {
    let mut octets: Vec<u8> = Vec::new(out.alloc());
    let answer = it.encode(out.alloc(), &mut octets);
    out.written(answer, &octets);
}

// The text of a time, whose length tells its kind.
fn characters(out: &mut Answer, octets: &[u8]) {
    match octets {
        [0x17, 0x0d, text @ ..] | [0x18, 0x0f, text @ ..] => out.characters(text),
        _ => out.octets(octets),
    }
}

/// Appends the time as it is written.
pub fn time(out: &mut Answer, it: Time) {
    let mut octets: Vec<u8> = Vec::new(out.alloc());
    match it.encode_varied(out.alloc(), &mut octets) {
        Ok(()) => characters(out, &octets),
        Err(error) => out.unwritten(&error, &octets),
    }
}

/// Appends the algorithm as it is written.
pub fn algorithm(out: &mut Answer, it: &RpkiSignatureAlgorithm) {
    let mut octets: Vec<u8> = Vec::new(out.alloc());
    let answer = it.x509_encode(out.alloc(), &mut octets);
    out.written(answer, &octets);
}

/// Appends what the key may be used for, and its bits.
pub fn public_key(out: &mut Answer, it: &PublicKey) {
    if it.allow_rpki_cert() {
        out.text("rpki:");
    }
    if it.allow_router_cert() {
        out.text("router:");
    }
    out.octets(it.bits());
}

/// Appends the identifier, or `none`.
pub fn key_identifier(out: &mut Answer, it: Option<KeyIdentifier>) {
    match it {
        Some(it) => out.octets(it.as_octets().as_slice()),
        None => out.text("none"),
    }
}

impl Show for Serial {
    fn show(&self, out: &mut Answer) {
        serial(out.field("serial"), *self);
    }
}

impl Show for Time {
    fn show(&self, out: &mut Answer) {
        time(out.field("time"), *self);
    }
}

impl Show for Validity {
    fn show(&self, out: &mut Answer) {
        time(out.field("not-before"), self.not_before());
        time(out.field("not-after"), self.not_after());
        put_again!(out, octets => self.encode(out.alloc(), &mut octets));
    }
}

impl Show for KeyIdentifier {
    fn show(&self, out: &mut Answer) {
        key_identifier(out.field("identifier"), Some(*self));
        put_again!(out, octets => self.encode_ref(out.alloc(), &mut octets));
        out.field("written-80");
        let mut tagged: Vec<u8> = Vec::new(out.alloc());
        let answer = self.encode_ref_as(out.alloc(), &mut tagged, 0x80);
        out.written(answer, &tagged);
    }
}

impl Show for RpkiSignatureAlgorithm {
    fn show(&self, out: &mut Answer) {
        put_again!(out, octets => self.x509_encode(out.alloc(), &mut octets));
        out.field("is-default");
        out.yes(*self == RpkiSignatureAlgorithm::default());
        out.field("is-without-parameter");
        out.yes(*self == RpkiSignatureAlgorithm::without_parameter());
    }
}

impl Show for Name {
    fn show(&self, out: &mut Answer) {
        out.field("name").octets(self.as_bytes());
        put_again!(out, octets => self.encode_ref(out.alloc(), &mut octets));
    }
}

impl Twin for Name {
    fn twin(&self, alloc: Global) -> Result<Name, AllocError> {
        self.try_clone(alloc)
    }
}

fn subject_name(out: &mut Answer, found: Result<Name, EncodeError>) {
    match &found {
        Ok(name) => out.octets(name.as_bytes()),
        Err(error) => out.name(error.name()),
    }
    drop(found);
}

impl Show for PublicKey {
    fn show(&self, out: &mut Answer) {
        public_key(out.field("key"), self);
        key_identifier(out.field("key-identifier"), Some(self.key_identifier()));
        out.field("subject-name");
        let found = self.to_subject_name(out.alloc());
        subject_name(out, found);
        put_again!(out, octets => self.encode_ref(out.alloc(), &mut octets));
    }
}

impl Twin for PublicKey {
    fn twin(&self, alloc: Global) -> Result<PublicKey, AllocError> {
        self.try_clone(alloc)
    }
}

impl Show for SignedData {
    fn show(&self, out: &mut Answer) {
        out.field("data").octets(self.data());
        algorithm(out.field("algorithm"), self.signature().algorithm());
        out.field("signature").octets(self.signature().value());
        put_again!(out, octets => self.encode_ref(out.alloc(), &mut octets));
    }
}

impl Twin for SignedData {
    fn twin(&self, alloc: Global) -> Result<SignedData, AllocError> {
        self.try_clone(alloc)
    }
}

fn verified(out: &mut Answer, it: &SignedData, key: Result<PublicKey, DecodeError>) {
    out.field("verifies");
    match key {
        Ok(public) => {
            out.yes(it.verify_signature(&public, &StandIn).is_ok());
            drop(public);
        }
        Err(error) => {
            out.fault(&error);
            drop(error);
        }
    }
}

fn signed(words: &Words<'_>, out: &mut Answer, it: &SignedData) {
    found(out, it);
    if !words.is(2, "-") {
        let octets = words.bytes(out, 2);
        let mut cursor = Cursor::new(&octets);
        let found = PublicKey::take_from(out.alloc(), &mut cursor);
        verified(out, it, found);
        drop(octets);
    }
}

fn signed_read(words: &Words<'_>, out: &mut Answer, found: Result<SignedData, DecodeError>) {
    match found {
        Ok(it) => {
            signed(words, out, &it);
            drop(it);
        }
        Err(error) => out.refused(error),
    }
}

// Each of these says whether the part is one of its own.
fn of_plain_part(words: &Words<'_>, cursor: &mut Cursor<'_>, out: &mut Answer) -> bool {
    match words.at(0) {
        "serial" => read_plain(out, Serial::take_from(cursor)),
        "time" => read_plain(out, Time::take_from(cursor)),
        "validity" => read_plain(out, Validity::take_from(cursor)),
        "algorithm" => read_plain(out, RpkiSignatureAlgorithm::x509_take_from(cursor)),
        "key-identifier" => read_plain(out, KeyIdentifier::take_from(cursor)),
        _ => return false,
    }
    true
}

fn of_kept_part(words: &Words<'_>, cursor: &mut Cursor<'_>, out: &mut Answer) -> bool {
    let alloc = out.alloc();
    match words.at(0) {
        "name" => read(out, Name::take_from(alloc, cursor)),
        "key" => read(out, PublicKey::take_from(alloc, cursor)),
        "signed" => signed_read(words, out, SignedData::from_constructed(alloc, cursor)),
        _ => return false,
    }
    true
}

fn taken(words: &Words<'_>, out: &mut Answer) -> bool {
    let octets = words.asked(out, 1);
    let mut cursor = Cursor::new(&octets);
    let known = of_plain_part(words, &mut cursor, out) || of_kept_part(words, &mut cursor, out);
    if known {
        out.left(&cursor);
    }
    drop(octets);
    known
}

// The serial of a number, and that of its lower half.
fn serial_of(out: &mut Answer, n: u128) {
    out.text("ok");
    serial(out.field("serial"), Serial::from(n));
    out.field("serial-of-lower-half");
    let low = u64::try_from(n & 0xFFFF_FFFF_FFFF_FFFF).unwrap_or(0);
    serial(out, Serial::from(low));
}

fn moment(words: &Words<'_>) -> Option<Time> {
    Time::utc(
        words.signed(1),
        words.number(2),
        words.number(3),
        words.number(4),
        words.number(5),
        words.number(6),
    )
}

fn given(words: &Words<'_>, out: &mut Answer) -> bool {
    match words.at(0) {
        "number" => {
            let octets = words.octets(out, 1);
            made(out, Serial::from_slice(&octets));
        }
        "serial-of" => serial_of(out, hexadecimal(words.at(1))),
        "moment" => made(out, moment(words)),
        _ => return false,
    }
    true
}

/// Answers a question of a part of a certificate. Returns whether the question is of one.
pub fn part(words: &Words<'_>, out: &mut Answer) -> bool {
    given(words, out) || taken(words, out)
}

fn order(out: &mut Answer, it: Ordering) {
    out.text("ok");
    out.field("order").text(match it {
        Ordering::Less => "less",
        Ordering::Equal => "equal",
        Ordering::Greater => "greater",
    });
}

fn ordered<T: Ord + Copy>(out: &mut Answer, one: Option<T>, other: Option<T>) {
    match (one, other) {
        (Some(a), Some(b)) => {
            order(out, a.cmp(&b));
            out.field("equal").yes(a == b);
            out.field("less").yes(a < b);
        }
        _ => out.text("none"),
    }
}

fn serials(words: &Words<'_>, out: &mut Answer) {
    let one = words.octets(out, 2);
    let other = words.octets(out, 3);
    ordered(out, Serial::from_slice(&one), Serial::from_slice(&other));
}

fn times(words: &Words<'_>, out: &mut Answer) {
    let one = words.bytes(out, 2);
    let other = words.bytes(out, 3);
    let first = Time::take_from(&mut Cursor::new(&one)).ok();
    let second = Time::take_from(&mut Cursor::new(&other)).ok();
    ordered(out, first, second);
}

/// Compares two values of a kind.
pub fn compare(words: &Words<'_>, out: &mut Answer) {
    if words.is(1, "serials") {
        serials(words, out);
    } else if words.is(1, "times") {
        times(words, out);
    } else {
        uris::compare(words, out);
    }
}
