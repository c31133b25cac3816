//! Lists as they are given: which of them is asked, whatever order they come in.

use crate::anchors::{anchor, now};
use crate::checks::check_text;
use crate::lists;
use crate::samples::{self, day, rsa};
use rpki_cert::Cert;
use rpki_crl::Crl;
use rpki_der::Serial;
use rpki_parts::StandIn;
use rpki_path::revocation::{GivenLists, RevocationSource};
use std::alloc::Global;
use std::process::Abort;

// A list that names the trust anchor's key, `abc`: its number, the years from which and to which it
// goes, the key that signs it, and whether it revokes the serial numbers 12 and 42, or nothing.
#[derive(Clone, Copy)]
struct Given {
    number: u64,
    since: i32,
    until: i32,
    key: &'static [u8],
    revokes: bool,
}

fn revoking(number: u64, since: i32, until: i32) -> Given {
    Given {
        number,
        since,
        until,
        key: b"abc",
        revokes: true,
    }
}

fn plain(number: u64, since: i32, until: i32) -> Given {
    Given {
        revokes: false,
        ..revoking(number, since, until)
    }
}

// Signed by another key.
fn foreign(number: u64, since: i32, until: i32) -> Given {
    Given {
        key: b"ab",
        ..revoking(number, since, until)
    }
}

fn list(rt: &impl Abort, alloc: Global, given: Given) -> Crl {
    let mut data = lists::data(rt, alloc);
    if !given.revokes {
        data.set_revoked_certs(Vec::new(alloc));
    }
    data.set_crl_number(Serial::from(given.number));
    data.set_this_update(day(given.since).expect(rt, "a day"));
    data.set_next_update(day(given.until).expect(rt, "a day"));
    let made = data.into_crl(alloc, &StandIn, &rsa(given.key));
    made.expect(rt, "a list")
}

// A certificate below the trust anchor with the serial number 42.
fn member(rt: &impl Abort, alloc: Global) -> Cert {
    let mut tbs = samples::end_entity(alloc).expect(rt, "memory");
    tbs.set_serial_number(Serial::from(42u64));
    let octets = samples::signed(alloc, tbs).expect(rt, "memory");
    Cert::decode_shared(alloc, octets).expect(rt, "a certificate")
}

// What these lists answer of that certificate in 2024.
fn asked(rt: &impl Abort, alloc: Global, lists: &[Crl]) -> &'static str {
    let issuer = anchor(rt, alloc);
    let cert = member(rt, alloc);
    let answer = GivenLists::new(lists).ask(&cert, &issuer, true, now(rt), &StandIn);
    drop(cert);
    drop(issuer);
    match answer {
        Ok(()) => "Ok",
        Err(error) => error.name(),
    }
}

fn assert_both(rt: &impl Abort, alloc: Global, one: Given, other: Given, wanted: &str) {
    let given = [list(rt, alloc, one), list(rt, alloc, other)];
    check_text(rt, asked(rt, alloc, &given), wanted);
    let [one, other] = given;
    let turned = [other, one];
    check_text(rt, asked(rt, alloc, &turned), wanted);
    let [other, one] = turned;
    drop(one);
    drop(other);
}

// That both orders of each two lists give the answer behind them.
macro_rules! assert_answers {
    ($rt:ident: $($one:expr, $other:expr => $wanted:literal;)*) => {
        for (one, other, wanted) in [$(($one, $other, $wanted)),*] {
            assert_both(&$rt, $rt.alloc(), one, other, wanted);
        }
    };
}

#[test]
fn no_list_is_no_answer(rt: HostRuntime) {
    let none: [Crl; 0] = [];
    check_text(&rt, asked(&rt, rt.alloc(), &none), "NoCrl");
}

#[test]
fn the_greater_number_supersedes(rt: HostRuntime) {
    assert_answers! { rt:
        plain(1, 2019, 2029), revoking(2, 2019, 2029) => "Revoked";
        revoking(1, 2019, 2029), plain(2, 2019, 2029) => "Ok";
        // A stale one supersedes too.
        plain(1, 2019, 2029), plain(2, 2019, 2023) => "Stale";
    }
}

// The last two are before their time, and with its two times exchanged.
#[test]
fn a_list_of_another_signer_or_time_supersedes_none(rt: HostRuntime) {
    assert_answers! { rt:
        plain(1, 2019, 2029), foreign(2, 2019, 2029) => "Ok";
        revoking(1, 2019, 2029), plain(2, 2025, 2029) => "Revoked";
        plain(1, 2019, 2029), revoking(2, 2022, 2020) => "Ok";
    }
}

// Of one number the one that revokes goes first, then the one that begins later, and then the one
// that is due later.
#[test]
fn of_one_number_one_is_asked(rt: HostRuntime) {
    assert_answers! { rt:
        plain(7, 2022, 2029), revoking(7, 2019, 2029) => "Revoked";
        plain(7, 2019, 2023), plain(7, 2019, 2029) => "Ok";
        revoking(7, 2019, 2023), revoking(7, 2019, 2029) => "Revoked";
        revoking(7, 2019, 2023), plain(7, 2019, 2029) => "Stale";
        plain(7, 2020, 2023), plain(7, 2019, 2029) => "Stale";
    }
}

fn assert_alone(rt: &impl Abort, alloc: Global, given: Given, wanted: &str) {
    let lists = [list(rt, alloc, given)];
    check_text(rt, asked(rt, alloc, &lists), wanted);
    let [list] = lists;
    drop(list);
}

#[test]
fn a_list_that_cannot_be_asked_says_why(rt: HostRuntime) {
    let alloc = rt.alloc();
    assert_alone(&rt, alloc, foreign(2, 2019, 2029), "BadSignature");
    assert_alone(&rt, alloc, plain(2, 2025, 2029), "Stale");
    assert_alone(&rt, alloc, foreign(2, 2025, 2029), "BadSignature");
}

#[test]
fn of_lists_that_cannot_be_asked_each_has_to_be_signed(rt: HostRuntime) {
    assert_answers! { rt:
        plain(1, 2025, 2029), foreign(2, 2019, 2029) => "BadSignature";
        plain(1, 2025, 2029), foreign(2, 2026, 2029) => "BadSignature";
        plain(1, 2025, 2029), revoking(2, 2026, 2029) => "Stale";
    }
}
