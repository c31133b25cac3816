//! Times and their seconds since 1970. The numbers are those of `date -u +%s`.

use crate::checks::{check, check_shown};
use rpki_der::Time;
use std::alloc::Global;
use std::process::Abort;

fn number(year: i32, month: u32, day: u32, hour: u32, minute: u32, second: u32) -> Option<i64> {
    Some(Time::utc(year, month, day, hour, minute, second)?.timestamp())
}

fn assert_number(rt: &impl Abort, found: Option<i64>, number: i64) {
    check(rt, found == Some(number), "the number of a time");
}

#[test]
fn times_have_their_numbers(rt: HostRuntime) {
    assert_number(&rt, number(1970, 1, 1, 0, 0, 0), 0);
    assert_number(&rt, number(1969, 12, 31, 23, 59, 59), -1);
    assert_number(&rt, number(2026, 11, 25, 6, 0, 0), 1_795_586_400);
    assert_number(&rt, number(2038, 1, 19, 3, 14, 8), 2_147_483_648);
    assert_number(&rt, number(2000, 2, 29, 23, 59, 59), 951_868_799);
    assert_number(&rt, number(1900, 2, 28, 23, 59, 59), -2_203_891_201);
    assert_number(&rt, number(1900, 3, 1, 0, 0, 0), -2_203_891_200);
    assert_number(&rt, number(0, 1, 1, 0, 0, 0), -62_167_219_200);
    assert_number(&rt, number(9999, 12, 31, 23, 59, 59), 253_402_300_799);
}

fn assert_time(rt: &impl Abort, alloc: Global, number: i64, text: &str) {
    let time = Time::from_timestamp(number).expect(rt, "a time");
    check_shown(rt, alloc, &time, text);
}

#[test]
fn numbers_have_their_times(rt: HostRuntime) {
    let alloc = rt.alloc();
    assert_time(&rt, alloc, 951_825_600, "2000-02-29T12:00:00Z");
    assert_time(&rt, alloc, -62_167_219_200, "0000-01-01T00:00:00Z");
    assert_time(&rt, alloc, 253_402_300_799, "9999-12-31T23:59:59Z");
}

#[test]
fn no_other_number_has_a_time(rt: HostRuntime) {
    check(
        &rt,
        Time::from_timestamp(-62_167_219_201).is_none(),
        "no time",
    );
    check(
        &rt,
        Time::from_timestamp(253_402_300_800).is_none(),
        "no time",
    );
    check(&rt, Time::from_timestamp(i64::MIN).is_none(), "no time");
    check(&rt, Time::from_timestamp(i64::MAX).is_none(), "no time");
}
