//! Values of DER that a cursor reads.
use crate::answer::Answer;
use crate::show::{Show, Twin, read, readable};
use crate::words::Words;
use rpki_der::{Cursor, DecodeError, Oid, Piece};
use std::alloc::{AllocError, Global};

fn content(out: &mut Answer, it: &Cursor<'_>) {
    out.field("content").octets(it.rest());
    out.field("span").span(it);
}

fn inside(out: &mut Answer, found: Result<Cursor<'_>, DecodeError>) {
    let Some(it) = readable(out, found) else {
        return;
    };
    content(out, &it);
}

fn optional(out: &mut Answer, found: Result<Option<Cursor<'_>>, DecodeError>) {
    match found {
        Ok(None) => out.text("none"),
        Ok(Some(it)) => {
            out.text("ok");
            content(out, &it);
        }
        Err(error) => out.refused(error),
    }
}

fn nothing(out: &mut Answer, found: Result<(), DecodeError>) {
    let _read = readable(out, found);
}

impl Show for Piece {
    fn show(&self, out: &mut Answer) {
        out.field("piece").octets(self.as_bytes());
        out.field("cursor");
        out.yes(self.cursor().rest() == self.as_bytes());
    }
}

impl Twin for Piece {
    fn twin(&self, alloc: Global) -> Result<Piece, AllocError> {
        self.try_clone(alloc)
    }
}

impl Show for Oid {
    fn show(&self, out: &mut Answer) {
        out.field("oid").octets(self.as_bytes());
    }
}

impl Twin for Oid {
    fn twin(&self, alloc: Global) -> Result<Oid, AllocError> {
        self.try_clone(alloc)
    }
}

fn identifier(out: &mut Answer, found: Result<&[u8], DecodeError>) {
    let Some(octets) = readable(out, found) else {
        return;
    };
    out.field("oid").octets(octets);
}

fn bits(out: &mut Answer, found: Result<(u8, Cursor<'_>), DecodeError>) {
    let Some((unused, it)) = readable(out, found) else {
        return;
    };
    out.field("unused").count(usize::from(unused));
    content(out, &it);
}

fn number(out: &mut Answer, found: Result<u32, DecodeError>) {
    let Some(n) = readable(out, found) else {
        return;
    };
    out.field("number").number(n);
}

fn flag(out: &mut Answer, found: Result<bool, DecodeError>) {
    let Some(holds) = readable(out, found) else {
        return;
    };
    out.field("value").yes(holds);
}

fn tagged(words: &Words<'_>, out: &mut Answer) {
    let octets = words.bytes(out, 2);
    let mut cursor = Cursor::new(&octets);
    if words.is(0, "value") {
        inside(out, cursor.take_value(words.octet(1)));
    } else {
        optional(out, cursor.take_opt_value(words.octet(1)));
    }
    out.left(&cursor);
    drop(octets);
}

// Each of the next four says whether the call is one of its own. A match over many words is slow to
// prove, so there are several.
fn of_content(words: &Words<'_>, cursor: &mut Cursor<'_>, out: &mut Answer) -> bool {
    match words.at(0) {
        "sequence" => inside(out, cursor.take_sequence()),
        "optional-sequence" => optional(out, cursor.take_opt_sequence()),
        "octets" => inside(out, cursor.take_octets()),
        "bits" => bits(out, cursor.take_bits()),
        "unsigned" => inside(out, cursor.take_unsigned()),
        _ => return false,
    }
    true
}

fn of_value(words: &Words<'_>, cursor: &mut Cursor<'_>, out: &mut Answer) -> bool {
    match words.at(0) {
        "oid" => identifier(out, cursor.take_oid()),
        "u32" => number(out, cursor.take_u32()),
        "null" => nothing(out, cursor.take_null()),
        "boolean" => flag(out, cursor.take_bool_or_false()),
        _ => return false,
    }
    true
}

fn of_whole(words: &Words<'_>, cursor: &mut Cursor<'_>, out: &mut Answer) -> bool {
    match words.at(0) {
        "skip" => nothing(out, cursor.skip_one()),
        "skip-all" => nothing(out, cursor.skip_all()),
        "capture" => {
            let found = cursor.capture_one(out.alloc());
            read(out, found);
        }
        "capture-rest" => {
            let found = cursor.capture_rest(out.alloc());
            read(out, found);
        }
        "finish" => {
            nothing(out, cursor.fork().finish());
            out.field("empty").yes(cursor.is_empty());
        }
        _ => return false,
    }
    true
}

fn asked(words: &Words<'_>, cursor: &mut Cursor<'_>, out: &mut Answer) -> bool {
    of_content(words, cursor, out) || of_value(words, cursor, out) || of_whole(words, cursor, out)
}

fn untagged(words: &Words<'_>, out: &mut Answer) -> bool {
    let octets = words.bytes(out, 1);
    let mut cursor = Cursor::new(&octets);
    let known = asked(words, &mut cursor, out);
    if known {
        out.left(&cursor);
    }
    drop(octets);
    known
}

/// Answers one call of a cursor over the octets, and where the cursor then stands. Returns whether
/// the question is one of these.
pub fn value(words: &Words<'_>, out: &mut Answer) -> bool {
    match words.at(0) {
        "identifier" => {
            let content = words.bytes(out, 1);
            read(out, Oid::new(content));
        }
        "value" | "optional-value" => tagged(words, out),
        _ => return untagged(words, out),
    }
    true
}
