//! Values of DER that are written.
use crate::answer::Answer;
use crate::words::Words;
use rpki_der::{
    EncodeError, Oid, put_bits, put_bool, put_extension, put_oid, put_parts, put_unsigned,
    put_value,
};

/// Returns a vector with an octet in it, behind which something is written. It has no room, so that
/// who writes asks for it.
pub fn started(out: &mut Answer) -> Vec<u8> {
    match Vec::from_slice(out.alloc(), b"\x55") {
        Ok(octets) => octets,
        Err(_) => {
            out.fail();
            Vec::new(out.alloc())
        }
    }
}

/// Appends what was written behind that octet, or why nothing was.
pub fn behind(out: &mut Answer, answer: Result<(), EncodeError>, octets: &[u8]) {
    match octets {
        [0x55, rest @ ..] => out.written(answer, rest),
        _ => out.text("clobbered"),
    }
}

/// Appends what a call writes behind that octet, into the vector of this name, and before it the
/// name of a field, if there is one.
macro_rules! put_behind {
    ($out:expr, $field:literal, $octets:ident => $written:expr) => {
        $out.field($field);
        put_behind!($out, $octets => $written);
    };
    ($out:expr, $octets:ident => $written:expr) => {{
        let mut $octets = crate::writing::started($out);
        let answer = $written;
        crate::writing::behind($out, answer, &$octets);
    }};
}

pub(crate) use put_behind;

fn done(out: &mut Answer, answer: Result<(), EncodeError>, octets: &[u8]) {
    out.text("ok");
    behind(out.field("written"), answer, octets);
}

fn tagged(words: &Words<'_>, out: &mut Answer, tag: u8) {
    let head = words.octets(out, 3);
    let tail = words.octets(out, 4);
    let mut octets = started(out);
    if tag % 32 < 31 {
        let answer = if words.is(1, "value") {
            put_value(&mut octets, tag, &head)
        } else {
            put_parts(&mut octets, tag, &head, &tail)
        };
        done(out, answer, &octets);
    } else {
        out.text("unfit");
    }
}

fn with_identifier(words: &Words<'_>, out: &mut Answer, id: &Oid) {
    let content = words.octets(out, 4);
    let mut octets = started(out);
    let answer = if words.is(1, "oid") {
        put_oid(&mut octets, id.as_bytes())
    } else {
        put_extension(
            &mut octets,
            id.as_bytes(),
            words.is(3, "critical"),
            &content,
        )
    };
    done(out, answer, &octets);
}

fn identified(words: &Words<'_>, out: &mut Answer) {
    let content = words.bytes(out, 2);
    match Oid::new(content).ok() {
        Some(id) => {
            with_identifier(words, out, &id);
            drop(id);
        }
        None => out.text("unfit"),
    }
}

fn some_bits(out: &mut Answer, unused: u8, content: &[u8]) {
    let mut octets = started(out);
    match content {
        [.., last] if unused < 8 && *last % (1 << unused) == 0 => {
            let answer = put_bits(&mut octets, unused, content);
            done(out, answer, &octets);
        }
        _ => out.text("unfit"),
    }
}

// The bits that are unused at the end are to be 0.
fn bits(words: &Words<'_>, out: &mut Answer) {
    let unused = words.small(2);
    let content = words.octets(out, 3);
    if content.is_empty() && unused == 0 {
        let mut octets = started(out);
        let answer = put_bits(&mut octets, unused, &content);
        done(out, answer, &octets);
    } else {
        some_bits(out, unused, &content);
    }
}

fn boolean(words: &Words<'_>, out: &mut Answer) {
    let mut octets = started(out);
    let answer = put_bool(&mut octets, words.is(2, "yes"));
    done(out, answer, &octets);
}

fn unsigned(words: &Words<'_>, out: &mut Answer) {
    let content = words.octets(out, 2);
    let mut octets = started(out);
    let answer = put_unsigned(&mut octets, &content);
    done(out, answer, &octets);
}

/// Appends what one writer appends.
pub fn write(words: &Words<'_>, out: &mut Answer) {
    if words.is(1, "value") || words.is(1, "parts") {
        tagged(words, out, words.octet(2));
    } else if words.is(1, "boolean") {
        boolean(words, out);
    } else if words.is(1, "unsigned") {
        unsigned(words, out);
    } else if words.is(1, "bits") {
        bits(words, out);
    } else {
        identified(words, out);
    }
}
