//! Readers and writers that are slow, fail, never end, or count their calls.
ghost use Rattle.std.specs.Prelude.{◌≡◌, IfOk};

use crate::checks::{check, check_count, check_octets, check_text};
use rpki_lines::{MAX_INPUT, RunFault, Status, Watched, program, run};
use std::alloc::Global;
use std::io;
use std::io::{Error, ErrorKind, Read, Write};
use std::process::{Abort, ExitCode};

// An entry of serial 12, revoked on 2019-05-01.
const YES: &[u8] = b"revoked 3014301202010C170D3139303530313030303030305A 0C\n";

// Gives octets, one a read, and then fails, ends or goes on.
#[derive(Drop)]
struct OneByOne<'a> {
    octets: &'a [u8],
    after: After,
}

#[derive(Clone, Copy)]
enum After {
    End,
    Fail,
    Zeros,
}

impl Read for OneByOne<'_> {
    fn read(&mut self, buf: &mut [u8]) -> io::Result<usize> {
        if buf.is_empty() {
            return Ok(0);
        }
        match (self.octets.split_first(), self.after) {
            (Some((octet, others)), _) => {
                buf[0] = *octet;
                self.octets = others;
                Ok(1)
            }
            (None, After::End) => Ok(0),
            (None, After::Fail) => Err(Error::from(ErrorKind::TimedOut)),
            (None, After::Zeros) => {
                buf.fill(0);
                Ok(buf.len())
            }
        }
    }
}

// Takes some octets, one a write, and then fails or takes none.
#[derive(Drop)]
struct Narrow {
    octets: Vec<u8>,
    room: usize,
    fails: bool,
}

impl Write for Narrow {
    fn write(&mut self, buf: &[u8]) -> io::Result<usize> {
        if buf.is_empty() {
            return Ok(0);
        }
        if self.octets.len() < self.room {
            self.octets.push(buf[0])?;
            return Ok(1);
        }
        if self.fails {
            return Err(Error::from(ErrorKind::StorageFull));
        }
        Ok(0)
    }

    fn flush(&mut self) -> io::Result<()> {
        Ok(())
    }
}

// That a run was answered well.
fn check_done(rt: &impl Abort, answer: Result<Status, RunFault>) {
    check(
        rt,
        matches!(&answer, Ok(Status::Done)),
        "a run that is done",
    );
    drop(answer);
}

#[test]
fn devices_may_be_slow(rt: HostRuntime) {
    let alloc = rt.alloc();
    let mut reader = Watched::new(OneByOne {
        octets: YES,
        after: After::End,
    });
    let mut output = Narrow {
        octets: Vec::new(alloc),
        room: 9,
        fails: true,
    };
    let mut writer = Watched::new(&mut output);
    check_done(&rt, run(alloc, &mut reader, &mut writer));
    check(
        &rt,
        !reader.failed() && !writer.failed(),
        "no device that failed",
    );
    check_octets(&rt, &output.octets, b"yes\n");
    drop(output);
}

// The name of a fault, if one ended the run.
fn name_of(answer: Result<Status, RunFault>) -> &'static str {
    let name = match &answer {
        Ok(_) => "ok",
        Err(fault) => fault.name(),
    };
    drop(answer);
    name
}

// How the run ends that reads these octets, and whether the reader failed. The writer doesn't, and
// nothing is written.
fn fault_of(rt: &impl Abort, alloc: Global, octets: &[u8], after: After) -> (&'static str, bool) {
    let mut reader = Watched::new(OneByOne { octets, after });
    let mut output = Vec::new(alloc);
    let mut writer = Watched::new(&mut output);
    let name = name_of(run(alloc, &mut reader, &mut writer));
    check(
        rt,
        !writer.failed() && output.is_empty(),
        "a writer that was asked for nothing",
    );
    (name, reader.failed())
}

// How the run ends that reads this input at once, and whether the reader failed.
fn fault_of_input(alloc: Global, input: &[u8]) -> (&'static str, bool) {
    let mut reader = Watched::new(input);
    let mut output = Vec::new(alloc);
    let mut writer = Watched::new(&mut output);
    let name = name_of(run(alloc, &mut reader, &mut writer));
    (name, reader.failed())
}

// That a run ended by this name, and whether the device failed.
fn check_end(rt: &impl Abort, found: (&str, bool), wanted: (&str, bool)) {
    check_text(rt, found.0, wanted.0);
    check(rt, found.1 == wanted.1, "whether the device failed");
}

#[test]
fn a_reader_may_fail_at_each_read(rt: HostRuntime) {
    let alloc = rt.alloc();
    for (reads, _) in YES.iter().enumerate() {
        let octets = YES.get(..reads).expect(&rt, "a front");
        let found = fault_of(&rt, alloc, octets, After::Fail);
        check_end(&rt, found, ("Read", true));
    }
    let found = fault_of(&rt, alloc, YES, After::Fail);
    check_end(&rt, found, ("Read", true));
    let found = fault_of(&rt, alloc, YES, After::Zeros);
    check_end(&rt, found, ("TooLong", false));
}

// That this is printed of an input.
fn check_printed(rt: &impl Abort, alloc: Global, input: &[u8], wanted: &[u8]) {
    let mut output = Vec::new(alloc);
    let mut reader = Watched::new(input);
    let mut writer = Watched::new(&mut output);
    check_done(rt, run(alloc, &mut reader, &mut writer));
    check_octets(rt, &output, wanted);
}

#[test]
fn the_longest_input_is_read(rt: HostRuntime) {
    let alloc = rt.alloc();
    // One octet of 00 after another, as serial: a list, `revoked - `, and the digits.
    let mut input = Vec::from_slice(alloc, b"revoked - ").expect(&rt, "memory");
    input.resize(MAX_INPUT, b'0').expect(&rt, "memory");
    check_printed(&rt, alloc, &input, b"no\n");
    input.push(b'\n').expect(&rt, "memory");
    check_end(&rt, fault_of_input(alloc, &input), ("TooLong", false));
    drop(input);
}

// How the run ends whose writer takes so many octets, one a write, and then fails or takes none;
// and whether the writer failed.
fn fault_behind(alloc: Global, room: usize, fails: bool) -> (&'static str, bool) {
    let mut reader = Watched::new(YES);
    let mut output = Narrow {
        octets: Vec::new(alloc),
        room,
        fails,
    };
    let mut writer = Watched::new(&mut output);
    let name = name_of(run(alloc, &mut reader, &mut writer));
    (name, writer.failed())
}

#[test]
fn a_writer_may_fail_at_each_write(rt: HostRuntime) {
    let alloc = rt.alloc();
    // Four octets are written.
    for room in 0..4 {
        check_end(&rt, fault_behind(alloc, room, true), ("Write", true));
    }
    check_end(&rt, fault_behind(alloc, 2, false), ("Write", true));
    check_end(&rt, fault_behind(alloc, 4, true), ("ok", false));
}

// The status of the line program with this reader, and a writer of so much room.
fn status_of(alloc: Global, after: After, room: usize) -> ExitCode {
    let mut reader = Watched::new(OneByOne { octets: YES, after });
    let mut output = Narrow {
        octets: Vec::new(alloc),
        room,
        fails: true,
    };
    let mut writer = Watched::new(&mut output);
    program(alloc, &mut reader, &mut writer)
}

fn check_status(rt: &impl Abort, alloc: Global, after: After, room: usize, wanted: ExitCode) {
    check(
        rt,
        status_of(alloc, after, room) == wanted,
        "the status of the line program",
    );
}

#[test]
fn the_program_tells_of_a_fault(rt: HostRuntime) {
    let (alloc, told) = (rt.alloc(), ExitCode::from(3));
    check_status(&rt, alloc, After::End, 4, ExitCode::SUCCESS);
    check_status(&rt, alloc, After::End, 3, told);
    check_status(&rt, alloc, After::Fail, 4, told);
    check_status(&rt, alloc, After::Zeros, 4, told);
}

#[test]
fn nothing_is_written_of_nothing(rt: HostRuntime) {
    let mut output = Vec::new(rt.alloc());
    let mut writer = Watched::new(&mut output);
    check(
        &rt,
        outcome(writer.write(b"")) == Ok(0),
        "a write of nothing",
    );
    check(&rt, !writer.failed(), "a writer that didn't fail");
}

// Fails at its first call, and then works. It counts its calls, and keeps the length of the last
// slice.
#[derive(Drop)]
struct FailsOnce {
    kind: ErrorKind,
    calls: usize,
    len: usize,
}

impl FailsOnce {
    fn new(kind: ErrorKind) -> FailsOnce {
        FailsOnce {
            kind,
            calls: 0,
            len: 0,
        }
    }

    fn answer(&mut self, len: usize) -> io::Result<usize>
        ensures { IfOk result (λ n. n ≡ len) }
    {
        self.calls = self.calls.wrapping_add(1);
        self.len = len;
        if self.calls == 1 {
            return Err(Error::from(self.kind));
        }
        Ok(len)
    }
}

impl Read for FailsOnce {
    fn read(&mut self, buf: &mut [u8]) -> io::Result<usize> {
        self.answer(buf.len())
    }
}

impl Write for FailsOnce {
    fn write(&mut self, buf: &[u8]) -> io::Result<usize> {
        self.answer(buf.len())
    }

    fn flush(&mut self) -> io::Result<()> {
        Ok(())
    }
}

// What a device answered: how many octets, or the kind of its error.
fn outcome(answer: io::Result<usize>) -> Result<usize, ErrorKind> {
    match answer {
        Ok(count) => Ok(count),
        Err(error) => {
            let kind = error.kind();
            drop(error);
            Err(kind)
        }
    }
}

const KINDS: [ErrorKind; 3] = [
    ErrorKind::Interrupted,
    ErrorKind::UnexpectedEof,
    ErrorKind::Other,
];

// That the first of two calls failed so, the second didn't, and the failure is kept.
fn check_calls(
    rt: &impl Abort,
    kind: ErrorKind,
    first: (Result<usize, ErrorKind>, bool),
    second: (Result<usize, ErrorKind>, bool),
) {
    check(rt, first.0 == Err(kind), "the error of the first call");
    check(rt, second.0 == Ok(0x10000), "all octets of the second call");
    check(rt, first.1 && second.1, "a failure that is kept");
}

fn check_reader(rt: &impl Abort, buf: &mut [u8], kind: ErrorKind) {
    let mut device = FailsOnce::new(kind);
    let mut reader = Watched::new(&mut device);
    let first = (outcome(reader.read(buf)), reader.failed());
    let second = (outcome(reader.read(buf)), reader.failed());
    check_calls(rt, kind, first, second);
    check_count(rt, device.calls, 2);
    check_count(rt, device.len, 0x10000);
}

#[test]
fn a_reader_is_asked_once_a_call(rt: HostRuntime) {
    let mut buf = Vec::new(rt.alloc());
    buf.resize(0x10000, 0).expect(&rt, "memory");
    for kind in KINDS {
        check_reader(&rt, &mut buf, kind);
    }
}

fn check_writer(rt: &impl Abort, octets: &[u8], kind: ErrorKind) {
    let mut device = FailsOnce::new(kind);
    let mut writer = Watched::new(&mut device);
    let first = (outcome(writer.write(octets)), writer.failed());
    let second = (outcome(writer.write(octets)), writer.failed());
    check_calls(rt, kind, first, second);
    check_count(rt, device.calls, 2);
    check_count(rt, device.len, 0x10000);
}

#[test]
fn a_writer_is_asked_once_a_call(rt: HostRuntime) {
    let mut octets = Vec::new(rt.alloc());
    octets.resize(0x10000, 7).expect(&rt, "memory");
    for kind in KINDS {
        check_writer(&rt, &octets, kind);
    }
}
