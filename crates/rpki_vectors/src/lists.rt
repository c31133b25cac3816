//! Revocation lists.
use crate::answer::Answer;
use crate::certificates::captured;
use crate::parts::{algorithm, key_identifier, serial, time};
use crate::revocation::store_of;
use crate::show::{Show, Twin, read, read_optional};
use crate::words::{Words, hexadecimal, moment, octets};
use bytes::Bytes;
use rpki_crl::{Crl, CrlStore, RevokedCertificates, TbsCertList};
use rpki_der::{Cursor, DecodeError, Serial};
use rpki_parts::Rsync;
use std::alloc::{AllocError, Global};

fn head(out: &mut Answer, data: &TbsCertList<RevokedCertificates>) {
    algorithm(out.field("signature"), &data.signature());
    out.field("issuer").octets(data.issuer().as_bytes());
    time(out.field("this-update"), data.this_update());
    time(out.field("next-update"), data.next_update());
    out.field("authority-key-identifier");
    key_identifier(out, Some(*data.authority_key_identifier()));
    serial(out.field("crl-number"), data.crl_number());
}

fn entries(out: &mut Answer, list: &RevokedCertificates) {
    out.field("entries");
    let mut is_first = true;
    for entry in list.iter() {
        if !is_first {
            out.text(",");
        }
        is_first = false;
        serial(out, entry.user_certificate);
        out.text("@");
        time(out, entry.revocation_date);
    }
    if is_first {
        out.text("-");
    }
}

impl Show for Crl {
    fn show(&self, out: &mut Answer) {
        head(out, self.as_cert_list());
        entries(out, self.as_cert_list().revoked_certs());
        let mut octets: Vec<u8> = Vec::new(out.alloc());
        let answer = self.encode_ref(out.alloc(), &mut octets);
        out.again(answer, &octets);
        let found = self.to_captured(out.alloc());
        captured(out, found, &octets);
    }
}

impl Twin for Crl {
    fn twin(&self, alloc: Global) -> Result<Crl, AllocError> {
        self.try_clone(alloc)
    }
}

// Whether the list has a serial number, and how many entries are looked at to tell.
fn asked(out: &mut Answer, crl: &Crl, number: Serial) {
    let (is_revoked, looks) = crl.contains_counted(number);
    out.yes(is_revoked);
    out.text(if crl.contains(number) == is_revoked {
        ":"
    } else {
        "!"
    });
    out.count(looks);
}

fn asked_all(out: &mut Answer, crl: &Crl, words: &Words<'_>) {
    out.field("asked");
    let mut is_first = true;
    for word in words.at(2).split(',') {
        if !is_first {
            out.text(",");
        }
        is_first = false;
        let found = octets(out, word);
        match Serial::from_slice(&found) {
            Some(number) => asked(out, crl, number),
            None => out.text("unfit"),
        }
    }
}

fn length(list: &RevokedCertificates) -> usize {
    let mut length = 0usize;
    for _entry in list.iter() {
        length = length.wrapping_add(1);
    }
    length
}

fn digits(n: usize) -> usize {
    usize::try_from(usize::BITS.wrapping_sub(n.leading_zeros())).unwrap_or(0)
}

// Whether the table gives the plain answer, with no more looks than the number of entries has
// binary digits.
fn is_same(plain: &Crl, cached: &Crl, number: Serial, most: usize) -> bool {
    let (is_revoked, looks) = cached.contains_counted(number);
    is_revoked == plain.contains(number) && cached.contains(number) == is_revoked && looks <= most
}

fn all_same(out: &mut Answer, plain: &Crl, cached: &Crl, words: &Words<'_>) -> bool {
    let most = digits(length(plain.as_cert_list().revoked_certs()));
    for word in words.at(2).split(',') {
        let found = octets(out, word);
        if let Some(number) = Serial::from_slice(&found) {
            if !is_same(plain, cached, number, most) {
                return false;
            }
        }
    }
    true
}

fn cached(out: &mut Answer, plain: &Crl, copy: Crl, words: &Words<'_>) {
    let mut copy = copy;
    if copy.cache_serials(out.alloc()).is_err() {
        out.fail();
    }
    out.field("cached");
    let is_same = all_same(out, plain, &copy, words);
    out.text(if is_same { "same" } else { "another" });
    drop(copy);
}

fn questions(out: &mut Answer, crl: &Crl, words: &Words<'_>) {
    asked_all(out, crl, words);
    match crl.try_clone(out.alloc()) {
        Ok(copy) => cached(out, crl, copy, words),
        Err(_) => out.fail(),
    }
}

fn taken(out: &mut Answer, first: &Answer, octets: &Bytes) {
    let mut other = out.beside();
    let mut cursor = Cursor::new(octets);
    let found = Crl::take_from(out.alloc(), &mut cursor);
    read(&mut other, found);
    out.field("take").compared(first, &other);
    out.left(&cursor);
}

fn taken_optional(out: &mut Answer, first: &Answer, octets: &Bytes) {
    let mut other = out.beside();
    let mut cursor = Cursor::new(octets);
    let found = Crl::take_opt_from(out.alloc(), &mut cursor);
    read_optional(&mut other, found);
    out.field("take-optional").compared(first, &other);
    out.left(&cursor);
}

fn inside(out: &mut Answer, first: &Answer, content: Cursor<'_>) {
    let mut content = content;
    let mut other = out.beside();
    let found = Crl::from_constructed(out.alloc(), &mut content);
    read(&mut other, found);
    out.field("content").compared(first, &other);
    out.left(&content);
}

fn found(out: &mut Answer, crl: &Crl, words: &Words<'_>, octets: &Bytes) {
    let mut first = out.beside();
    crate::show::found(&mut first, crl);
    out.add(&first);
    questions(out, crl, words);
    taken(out, &first, octets);
    taken_optional(out, &first, octets);
    if let Ok(content) = Cursor::new(octets).take_sequence() {
        inside(out, &first, content);
    }
}

// Why it is none, what that speaks of, and which octets remain.
fn refused(out: &mut Answer, error: DecodeError, octets: &Bytes) {
    out.refused(error);
    let mut cursor = Cursor::new(octets);
    let again = Crl::take_from(out.alloc(), &mut cursor);
    out.field("take");
    out.text(if again.is_err() { "refused" } else { "ok" });
    drop(again);
    out.left(&cursor);
}

/// Answers about a revocation list by each of the ways to read one, and what it answers of some
/// serial numbers.
pub fn list(words: &Words<'_>, out: &mut Answer) {
    let octets = words.asked(out, 1);
    match Crl::decode(out.alloc(), octets.as_slice()) {
        Ok(crl) => {
            found(out, &crl, words, &octets);
            drop(crl);
        }
        Err(error) => refused(out, error, &octets),
    }
    drop(octets);
}

fn fault(front: &[u8], out: &Answer) -> &'static str {
    let found = Crl::decode(out.alloc(), front);
    let name = match &found {
        Ok(_) => "ok",
        Err(error) => error.name(),
    };
    drop(found);
    name
}

/// Appends what each front of a list answers, but the whole: lengths that answer alike stand
/// together.
pub fn cut(words: &Words<'_>, out: &mut Answer) {
    let octets = words.octets(out, 1);
    let mut from = 0;
    let mut name = fault(&[], out);
    for length in 1..octets.len() {
        let next = match octets.get(..length) {
            Some(front) => fault(front, out),
            None => name,
        };
        if next != name {
            out.name(name);
            out.text(":");
            out.range(from, length.wrapping_sub(1));
            out.text(" ");
            from = length;
            name = next;
        }
    }
    out.name(name);
    out.text(":");
    out.range(from, octets.len().wrapping_sub(1));
}

fn stale_at(words: &Words<'_>, out: &mut Answer, crl: &Crl) {
    out.text("ok");
    for word in words.at(2).split(',') {
        match moment(word) {
            Some(now) => out.field("stale").yes(crl.as_cert_list().is_stale(now)),
            None => out.text(" unfit"),
        }
    }
}

/// Answers whether a list is stale, at each of some moments.
pub fn stale(words: &Words<'_>, out: &mut Answer) {
    let octets = words.octets(out, 1);
    match Crl::decode(out.alloc(), &octets) {
        Ok(crl) => {
            stale_at(words, out, &crl);
            drop(crl);
        }
        Err(error) => out.refused(error),
    }
}

// Whether the list has each of some serial numbers, and whether to tell the last took a look at each
// of its entries.
fn kept(words: &Words<'_>, out: &mut Answer, crl: &Crl) {
    let data = crl.as_cert_list();
    out.text("ok");
    serial(out.field("crl-number"), data.crl_number());
    let mut last = 0usize;
    for word in words.at(3).split(',') {
        let (is_in, looks) = crl.contains_counted(Serial::from(hexadecimal(word)));
        out.field("has").yes(is_in);
        last = looks;
    }
    out.field("walked")
        .yes(last == length(data.revoked_certs()));
}

fn kept_under(words: &Words<'_>, out: &mut Answer, store: &CrlStore) {
    match Rsync::from_bytes(words.bytes(out, 2)) {
        Ok(uri) => match store.get(&uri) {
            Some(crl) => kept(words, out, crl),
            None => out.text("none"),
        },
        Err(_) => out.text("unfit"),
    }
}

/// Answers which list a store has under a URI, and what that list says of some serial numbers.
pub fn store(words: &Words<'_>, out: &mut Answer) {
    match store_of(out, words.at(1), false) {
        Some(store) => {
            kept_under(words, out, &store);
            drop(store);
        }
        None => out.text("unfit"),
    }
}

/// Answers whether octets that are shared are answered as octets that are copied.
pub fn shared(words: &Words<'_>, out: &mut Answer) {
    let octets = words.asked(out, 2);
    let mut first = out.beside();
    read(&mut first, Crl::decode(out.alloc(), octets.as_slice()));
    let mut other = out.beside();
    read(&mut other, Crl::decode_shared(out.alloc(), octets));
    out.compared(&first, &other);
}
