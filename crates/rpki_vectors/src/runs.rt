//! What the line program answers to an input.
use crate::answer::Answer;
use crate::words::{Words, characters};
use rpki_lines::{RunFault, Status, Watched, run};

// Exchanges one octet for another wherever it stands.
fn exchange(octets: &mut Vec<u8>, from: u8, to: u8) {
    for octet in octets.iter_mut() {
        if *octet == from {
            *octet = to;
        }
    }
}

fn name(status: Status) -> &'static str {
    match status {
        Status::Done => "Done",
        Status::Refused => "Refused",
        Status::BadInput => "BadInput",
    }
}

// What is printed, with a star for the name of a decoder's fault.
fn unnamed(out: &mut Answer, text: &str) {
    match text.split_once("decode ") {
        Some((before, _)) => {
            out.text(before);
            out.text("decode *|");
        }
        None => out.text(text),
    }
}

fn show_printed(out: &mut Answer, printed: &[u8], is_named: bool) {
    match str::from_utf8(printed) {
        Ok(text) if is_named => out.text(text),
        Ok(text) => unnamed(out, text),
        Err(_) => out.octets(printed),
    }
}

fn show(out: &mut Answer, ended: Result<Status, RunFault>, printed: &[u8], is_named: bool) {
    match ended {
        Ok(status) => {
            out.text("ok");
            out.field("status").text(name(status));
            show_printed(out.field("printed"), printed, is_named);
        }
        Err(fault) => out.refused_as(fault.name()),
    }
}

// Room for what is printed, so that the writer asks for nothing.
fn room(out: &mut Answer) -> Vec<u8> {
    match Vec::with_capacity(out.alloc(), 1 << 16) {
        Ok(room) => room,
        Err(_) => {
            out.fail();
            Vec::new(out.alloc())
        }
    }
}

fn answered(words: &Words<'_>, out: &mut Answer, is_named: bool) {
    let mut input = characters(out, words.rest());
    exchange(&mut input, b'|', b'\n');
    let mut printed = room(out);
    let mut reader = Watched::new(input.as_slice());
    let mut writer = Watched::new(&mut printed);
    let ended = run(out.alloc(), &mut reader, &mut writer);
    exchange(&mut printed, b'\n', b'|');
    show(out, ended, &printed, is_named);
}

/// Answers a run of the line program: the input is the rest of the line, with a bar for each end of
/// a line, and so is what is printed, with a star for the name of a decoder's fault where that isn't
/// compared. Returns whether the question is of a run.
pub fn run_of(words: &Words<'_>, out: &mut Answer) -> bool {
    let is_named = words.is(0, "run");
    let is_run = is_named || words.is(0, "run-unnamed");
    if is_run {
        answered(words, out, is_named);
    }
    is_run
}
