//! Runs files of test vectors, whose names are the arguments that end in `.vectors` (others may
//! name files that vectors use, so that `rt try -- data/*` finds them): a vector is a name, a
//! question and the answer that is wanted, on three adjacent lines. Prints how many vectors of each
//! file pass, the name and both answers of each that doesn't, and ends with status 1 where one
//! doesn't. Where the arguments are `call PATH`, it makes that public call instead (`rpki_calls`).
//!
//! It interprets the questions, since a question that is data needs no proof where a test would be
//! a function that is proved; the reference program answers the same lines; and each can be asked
//! again with memory refused, as `tests/refusals` has it done (`refusing`). Then a test vector
//! passes where each of those answers is the one that is wanted, or out of memory.
//!
//! An empty line, or one that begins with `#`, stands between vectors. A question is some words
//! with one space between. HEX is octets in hexadecimal digits, `-` for none, or `@NAME` for those
//! of the file `NAME.der`; TEXT stands as it is, or is `octets:HEX`.
//!
//! Certificates:
//! - `certificate HEX`: a certificate, by each of the four calls that read one.
//! - `data HEX`: what is signed of a certificate.
//! - `shared certificate HEX`, `shared list HEX`: whether `decode_shared` answers as `decode`.
//! - `make NAME=VALUE ..`: a certificate of fields, which have the names that answers give them,
//!   and moments as `YYYYMMDDhhmmss`. `signer=` is a public key; `set-by=` (`setter`, `iterator`,
//!   `builder`) says how resources are set.
//! - `inspect HEX`, `inspect KIND HEX`: the first fault of a certificate, strictly and leniently,
//!   as each of the kinds `ta`, `ca`, `ee`, `detached`, `router`, or as one of them.
//! - `verify ta MODE YYYYMMDDhhmmss HEX`, `verify validity MODE YYYYMMDDhhmmss HEX`: a certificate
//!   as an anchor, or its validity, without inspection.
//! - `validate KIND MODE YYYYMMDDhhmmss HEX HEX ..`: a certificate, and those above it from the
//!   anchor down, which are accepted; MODE is `strict` or `lenient`.
//! - `path MODE YYYYMMDDhhmmss ta:HEX ca:HEX .. ee:HEX`: a whole path; the leaf may be absent, or
//!   `detached:HEX`.
//! - `names ta:HEX ca:HEX .. ee:HEX`: whether the names of a path chain, whatever its members
//!   are; the leaf may also be `router:HEX`.
//! - `rearrange HEX ORDER EXTRAS`: a certificate with its extensions in another order and others
//!   among them; ORDER is places, as `2,0,1`, and EXTRAS are `PLACE:IDENTIFIER:CONTENT`, with
//!   commas between, each `-` where there are none.
//! - `revocation YYYYMMDDhhmmss MODE STORE ta:HEX ca:HEX .. ee:HEX`: the same, where the lists of a
//!   store are asked; STORE is URI:LIST;URI:LIST;.., each in HEX, as they are pushed, or `-`.
//!   `cached=same`: a store that caches serial numbers gives the same answer.
//!
//! Signatures:
//! - `rsa KEY HEX SIGNATURE`: whether a signature is one of a message, by the bits of a key.
//! - `rsa-key KEY`: whether bits are a key of the RPKI.
//! - `key-form rpki KEY`, `key-form router KEY`: what the bits of such a key are, whether the RPKI
//!   uses it, and whether the bits are a point of P-256. An exponent of 2^64 or more is `none`.
//! - `real-path YYYYMMDDhhmmss MODE ta:HEX ca:HEX .. ee:HEX`: a path as above, with RSA signatures.
//! - `real-revocation YYYYMMDDhhmmss MODE STORE ta:HEX ca:HEX .. ee:HEX`: the same, where the lists
//!   of a store are asked, as `revocation` does.
//!
//! Trust anchor locators:
//! - `locator MODE HEX KEY`: a file; each of its URIs in their order, its key, and whether the
//!   public key KEY (all of a SubjectPublicKeyInfo) is that key, `none` where KEY is `-`.
//! - `located YYYYMMDDhhmmss MODE STORE LOCATOR ta:HEX ca:HEX .. ee:HEX`: as `revocation`, where
//!   the path is that of the locator's trust anchor; and whether that has the locator's key.
//! - `folder MODE YYYYMMDDhhmmss DEPTH STEPS LOCATOR ta:HEX HEX HEX ..`: the walk down from the
//!   locator's trust anchor, of at most this depth and so many steps, through a folder with what
//!   these octets are; `real-folder` with RSA signatures. An answer tells how it ended (`whole`,
//!   `deep`, `out`), and, but for `out`, of each certificate in its place whether it was accepted,
//!   `-` where no verdict was told.
//! - `base64 TEXT`: the octets that the digits of a line stand for.
//!
//! Revocation lists:
//! - `list HEX SERIALS`: a list, by each of the calls that read one, and of each serial number
//!   whether it is revoked and how many entries are looked at; SERIALS is HEX,HEX,..
//! - `cut HEX`: what each front of a list answers, and for which lengths.
//! - `stale HEX MOMENT,MOMENT,..`: whether a list is stale, at each of these moments.
//! - `store STORE URI SERIAL,SERIAL,..`: the number of the list that is found under a URI (HEX) of a
//!   store, as above, in which `cache` among the pairs turns on the table of those pushed from there
//!   on; whether it has each serial number (hexadecimal digits); and whether telling the last took a
//!   look at each of its entries.
//!
//! Extensions:
//! - `extension HEX`: identifier, flag and content.
//! - `extension KIND HEX`: the content of a kind, which is `basic-constraints`,
//!   `subject-key-identifier`, `authority-key-identifier`, `key-usage`, `extended-key-usage`,
//!   `crl-distribution-points`, `authority-information-access`, `subject-information-access` or
//!   `certificate-policies`.
//! - `addresses HEX`, `asns HEX`: the contents of the two with resources.
//!
//! Parts:
//! - `serial`, `time`, `validity`, `name`, `key`, `key-identifier` and `algorithm`, each with
//!   HEX.
//! - `signed HEX`, `signed HEX KEY`: the content of signed data, and whether the stand-in
//!   verifies it with a public key.
//! - `rsync TEXT`, `https TEXT`, `parent TEXT`: a URI, and the parent of an rsync URI.
//! - `number HEX`, `serial-of NUMBER`: a serial of octets, and of a number in hexadecimal digits.
//! - `moment YEAR MONTH DAY HOUR MINUTE SECOND`: a time.
//! - `compare serials A B`, and so `times`, `rsync`, `https`: two of them.
//!
//! Values of DER, by one call of a cursor; TAG is an octet in hexadecimal:
//! - `value TAG HEX`, `optional-value TAG HEX`.
//! - `sequence`, `optional-sequence`, `octets`, `bits`, `unsigned`, `oid`, `u32`, `null`,
//!   `boolean`, `skip`, `skip-all`, `capture`, `capture-rest` and `finish`, each with HEX.
//! - `identifier HEX`: the content of an OBJECT IDENTIFIER.
//! - `write value TAG HEX`, `write parts TAG HEX HEX`, `write boolean yes`, `write unsigned HEX`,
//!   `write bits UNUSED HEX`, `write oid HEX`, `write extension HEX critical HEX` (or `plain`).
//!
//! Sets, as `LOW-HIGH,..` or `-`; addresses are in hexadecimal digits, with IPv4 in the upper 32
//! of 128 bits, and AS numbers in decimal digits:
//! - `sets addresses SET SET POINTS`, `sets asns SET SET POINTS`: an issuer's set, what is listed
//!   under it (which may be `inherit`), and numbers that may be in the first.
//! - `prefix ADDRESS LENGTH`: the block of a prefix.
//! - `overclaim HEX`, `mode Refuse`, `mode Trim`: the mode of an identifier, the identifiers of a
//!   mode.
//!
//! The line program:
//! - `run TEXT`: an input, which is all behind the first space, with `|` for LF; what is printed
//!   has `|` for LF too.
//! - `run-unnamed TEXT`: the same, with `*` for the name of a decoder's fault.
//!
//! An answer begins with `ok`, `none` or `refused FAULT`, or is `unfit` where the caller's
//! condition of the call isn't met. Then come fields, `NAME=VALUE`, most under the names of the
//! getters: octets in hexadecimal, URIs and moments as text, key bits behind `rpki:` or `router:`
//! for what the key is allowed. `left=FROM-TO` is what is left of the octets. `written` is what
//! is written of the value, `same` where the question begins so; of a certificate, `data` and
//! `signature-value` are places in it, and `data-written` is what is written of the fields,
//! `same` where that is the data. `copy=same`: the copy shows the same fields; `take=same` and
//! the like: another call gives the same answer, and stands in brackets where it gives another.
#![tactic(auto)]

mod answer;
mod certificates;
mod cursors;
mod extensions;
mod folders;
mod judging;
mod keys;
mod lists;
mod located;
mod locators;
mod making;
mod parts;
mod paths;
mod rearranging;
mod refusing;
mod revocation;
mod running;
mod runs;
mod sets;
mod show;
mod signatures;
mod uris;
mod validating;
mod vectors;
mod words;
mod writing;

use answer::Answer;
use running::{Tally, run_file};
use std::alloc::{AllocError, Global};
use std::process::ExitCode;
use std::{env, io};
use words::Words;

fn shared(words: &Words<'_>, out: &mut Answer) {
    if words.is(1, "list") {
        lists::shared(words, out);
    } else {
        certificates::shared(words, out);
    }
}

// Each of these says whether the question is one of its own. A match over many words is slow to
// prove, so there are several.
fn of_certificates(words: &Words<'_>, out: &mut Answer) -> bool {
    match words.at(0) {
        "certificate" => certificates::certificate(words, out),
        "data" => certificates::data(words, out),
        "make" => making::make(words, out),
        "inspect" => judging::inspect(words, out),
        "verify" => validating::verify(words, out),
        "validate" => validating::validate(words, out),
        "rearrange" => rearranging::rearrange(words, out),
        _ => return false,
    }
    true
}

fn of_lists(words: &Words<'_>, out: &mut Answer) -> bool {
    match words.at(0) {
        "list" => lists::list(words, out),
        "shared" => shared(words, out),
        "cut" => lists::cut(words, out),
        "stale" => lists::stale(words, out),
        "store" => lists::store(words, out),
        _ => return false,
    }
    true
}

fn of_paths(words: &Words<'_>, out: &mut Answer) -> bool {
    match words.at(0) {
        "path" => paths::path(words, out),
        "names" => paths::names(words, out),
        "revocation" => revocation::revocation(words, out),
        "located" => located::located(words, out),
        "folder" => folders::folder(words, out),
        _ => return false,
    }
    true
}

fn of_signatures(words: &Words<'_>, out: &mut Answer) -> bool {
    match words.at(0) {
        "real-path" => signatures::real_path(words, out),
        "real-revocation" => signatures::real_revocation(words, out),
        "real-folder" => signatures::real_folder(words, out),
        "rsa" => signatures::rsa(words, out),
        "rsa-key" => signatures::rsa_key(words, out),
        "key-form" => keys::key_form(words, out),
        _ => return false,
    }
    true
}

fn of_others(words: &Words<'_>, out: &mut Answer) -> bool {
    match words.at(0) {
        "extension" => extensions::extension(words, out),
        "compare" => parts::compare(words, out),
        "sets" => sets::sets(words, out),
        "write" => writing::write(words, out),
        "locator" => locators::locator(words, out),
        "base64" => locators::base64(words, out),
        _ => return false,
    }
    true
}

fn of_several(words: &Words<'_>, out: &mut Answer) -> bool {
    of_certificates(words, out)
        || of_lists(words, out)
        || of_paths(words, out)
        || of_signatures(words, out)
        || of_others(words, out)
}

fn answered(words: &Words<'_>, out: &mut Answer) {
    let known = runs::run_of(words, out)
        || of_several(words, out)
        || parts::part(words, out)
        || uris::uri(words, out)
        || sets::resources(words, out)
        || cursors::value(words, out);
    if !known {
        out.text("unknown");
    }
}

/// Returns the answer to a question.
pub fn line_for(alloc: Global, question: &str) -> Result<Answer, AllocError> {
    let mut out = Answer::new(alloc);
    let words = Words::of(alloc, question)?;
    answered(&words, &mut out);
    if out.has_failed() {
        Err(AllocError)
    } else {
        Ok(out)
    }
}

// The path of the call that is asked for, where one is.
fn called(rt: &HostRuntime) -> io::Result<Option<String>> {
    let mut words = env::args(rt)?;
    let is_call = match words.nth(1) {
        Some(word) => word.as_str() == "call",
        None => false,
    };
    Ok(if is_call { words.next() } else { None })
}

fn run_all(rt: &HostRuntime) -> io::Result<ExitCode> {
    let mut all = Tally::new();
    for file in env::args(rt)?.skip(1) {
        if file.ends_with(".vectors") {
            all.add(run_file(rt, file.as_str())?);
        }
    }
    all.print_all(rt)?;
    Ok(if all.is_clean() {
        ExitCode::SUCCESS
    } else {
        ExitCode::FAILURE
    })
}

fn main(rt: HostRuntime) -> io::Result<ExitCode> {
    match called(&rt)? {
        Some(path) => rpki_calls::make(&rt, path.as_str()),
        None => run_all(&rt),
    }
}
