//! Folders: loops of keys, bounds that are met, and what is kept of verdicts. Verdicts themselves are
//! test vectors.

use crate::checks::{check, check_count, check_text};
use crate::counting::Counting;
use crate::located::locator;
use crate::{anchors, lists, samples};
use bytes::Bytes;
use rpki_folder::{
    Added, Admission, AllAdmitted, Bounds, Ended, Firsts, Folder, Limit, LimitTable, Line, Lines,
    Reached, Walk, Walked,
};
use rpki_parts::{StandIn, Verifier};
use rpki_path::Member;
use std::alloc::Global;
use std::cell::Cell;
use std::process::Abort;

// The octets of a list of the anchor's key that revokes nothing.
fn list_octets(rt: &impl Abort, alloc: Global) -> Bytes {
    let list = lists::plain(rt, alloc, b"abc");
    let octets = list.to_captured(alloc).expect(rt, "memory");
    drop(list);
    octets
}

// An authority that has the anchor's key, so that it also is below itself.
fn authority(rt: &impl Abort, alloc: Global) -> Bytes {
    samples::authority_octets(alloc).expect(rt, "memory")
}

fn end_entity(rt: &impl Abort, alloc: Global) -> Bytes {
    samples::end_entity_octets(alloc).expect(rt, "memory")
}

// Adds these octets, which are this.
fn add(rt: &impl Abort, folder: &mut Folder, octets: Bytes, wanted: Added) {
    let added = folder.add(octets).expect(rt, "memory");
    check(rt, added == wanted, "what was added");
}

// Adds so many authorities to an empty folder, and a list.
fn fill(rt: &impl Abort, alloc: Global, folder: &mut Folder, authorities: usize) {
    for place in 0..authorities {
        add(rt, folder, authority(rt, alloc), Added::Certificate(place));
    }
    add(rt, folder, list_octets(rt, alloc), Added::List);
}

// Walks down from the anchor in 2024, to this depth and so many steps, and returns how the walk
// ended, with the lines.
fn walked<A: Admission, V: Verifier>(
    rt: &impl Abort,
    alloc: Global,
    folder: &Folder,
    admission: &A,
    bounds: (usize, usize),
    verifier: &V,
) -> (Walked, Lines) {
    let mut lines = Lines::new(alloc, folder.certs().len()).expect(rt, "memory");
    let tal = locator(rt, alloc);
    let anchor = anchors::octets(rt, alloc);
    let walk = Walk {
        alloc,
        folder,
        admission,
        bounds: Bounds {
            depth: bounds.0,
            steps: bounds.1,
        },
        names: false,
        strict: true,
        at: anchors::now(rt),
        verifier,
    };
    let walked = walk.from_anchor(&tal, &Member::of(&anchor), &mut lines);
    let walked = walked.expect(rt, "an anchor");
    drop(tal);
    (walked, lines)
}

// How many CAs stand above an accepted certificate; or the step and the name of its fault.
fn line(lines: &Lines, place: usize) -> (usize, &'static str) {
    match lines.as_slice().get(place) {
        None => (0, "none"),
        Some(Line::Unseen) => (0, "unseen"),
        Some(Line::Accepted(paths)) => (paths.first.above.len(), "accepted"),
        Some(Line::Rejected(step, fault)) => (*step, fault.name()),
    }
}

// Whether a walk through the folder reached a limit at one of its certificates.
fn is_limited_below(limits: &LimitTable, folder: &Folder) -> bool {
    let mut places = 0..folder.certs().len();
    places.any(|place| limits.at(place) != Reached::nothing())
}

// Whether it reached one there, or at the trust anchor.
fn is_limited(limits: &LimitTable, folder: &Folder) -> bool {
    is_limited_below(limits, folder) || limits.at_start().paths > 0
}

// That a walk through the folder, to this depth and of so many steps, ends so and has these lines.
fn check_walk<A: Admission>(
    rt: &impl Abort,
    alloc: Global,
    folder: &Folder,
    admission: &A,
    bounds: (usize, usize),
    how: Ended,
    wanted: &[(usize, &str)],
) {
    let (walked, lines) = walked(rt, alloc, folder, admission, bounds, &StandIn);
    check(rt, walked.ended == how, "how the walk ended");
    check(
        rt,
        is_limited(&walked.limits, folder) == (how != Ended::Whole),
        "whether a CA is limited",
    );
    drop(walked);
    for (place, (step, name)) in wanted.iter().enumerate() {
        let found = line(&lines, place);
        check_text(rt, found.1, name);
        check_count(rt, found.0, *step);
    }
    drop(lines);
}

// That a walk through the folder reaches this limit at the trust anchor, and no other.
fn check_limited(
    rt: &impl Abort,
    alloc: Global,
    folder: &Folder,
    bounds: (usize, usize),
    limit: Limit,
) {
    let (walked, lines) = walked(rt, alloc, folder, &AllAdmitted, bounds, &StandIn);
    let reached = walked.limits.at_start();
    check_count(rt, reached.paths, 1);
    check(rt, reached.least() == Some(limit), "which limit");
    check(
        rt,
        !is_limited_below(&walked.limits, folder),
        "at the trust anchor alone",
    );
    let both = reached.and(Reached::nothing());
    check(rt, both == reached, "with no other limit");
    drop(lines);
    drop(walked);
}

// The authority has the anchor's key: it is judged, and nothing below it is.
#[test]
fn no_path_goes_in_a_circle(rt: HostRuntime) {
    let alloc = rt.alloc();
    let mut folder = Folder::new(alloc);
    fill(&rt, alloc, &mut folder, 1);
    check_walk(
        &rt,
        alloc,
        &folder,
        &AllAdmitted,
        (3, 1),
        Ended::Whole,
        &[(0, "accepted")],
    );
    drop(folder);
}

#[test]
fn a_walk_ends_at_the_depth(rt: HostRuntime) {
    let alloc = rt.alloc();
    let mut folder = Folder::new(alloc);
    fill(&rt, alloc, &mut folder, 1);
    check_walk(
        &rt,
        alloc,
        &folder,
        &AllAdmitted,
        (0, 100),
        Ended::TooDeep,
        &[(0, "unseen")],
    );
    check_limited(&rt, alloc, &folder, (0, 100), Limit::Depth);
    drop(folder);
}

#[test]
fn a_walk_ends_with_the_steps(rt: HostRuntime) {
    let alloc = rt.alloc();
    let mut folder = Folder::new(alloc);
    for place in 0..40 {
        add(
            &rt,
            &mut folder,
            authority(&rt, alloc),
            Added::Certificate(place),
        );
    }
    let list = lists::plain(&rt, alloc, b"abc");
    folder.add_list(list).expect(&rt, "memory");
    check_walk(
        &rt,
        alloc,
        &folder,
        &AllAdmitted,
        (20, 39),
        Ended::OutOfSteps,
        &[(0, "unseen")],
    );
    let needed = Limit::Steps(Some(40));
    check_limited(&rt, alloc, &folder, (20, 39), needed);
    check_limited(&rt, alloc, &folder, (20, 0), needed);
    check_walk(
        &rt,
        alloc,
        &folder,
        &AllAdmitted,
        (20, 40),
        Ended::Whole,
        &[(0, "accepted")],
    );
    drop(folder);
}

// These octets, with one behind them.
fn longer(rt: &impl Abort, alloc: Global, octets: &[u8]) -> Bytes {
    let mut more = Vec::from_slice(alloc, octets).expect(rt, "memory");
    more.push(0).expect(rt, "memory");
    Bytes::from_vec(more).expect(rt, "memory")
}

// Each certificate is admitted at its first place, whatever is behind it.
#[test]
fn a_copy_takes_no_step(rt: HostRuntime) {
    let alloc = rt.alloc();
    let mut folder = Folder::new(alloc);
    add(&rt, &mut folder, list_octets(&rt, alloc), Added::List);
    let octets = end_entity(&rt, alloc);
    let more = longer(&rt, alloc, &octets);
    add(&rt, &mut folder, more, Added::Certificate(0));
    add(&rt, &mut folder, octets, Added::Certificate(1));
    add(
        &rt,
        &mut folder,
        authority(&rt, alloc),
        Added::Certificate(2),
    );
    let firsts = Firsts::of(alloc, &folder).expect(&rt, "memory");
    for (place, first) in [0, 0, 2].iter().enumerate() {
        check_count(&rt, firsts.first_of(place), *first);
    }
    let wanted = [(0, "accepted"), (0, "unseen"), (0, "accepted")];
    check_walk(&rt, alloc, &folder, &firsts, (3, 2), Ended::Whole, &wanted);
    drop(firsts);
    drop(folder);
}

// How many signatures are verified in a walk through the folder.
fn verified(rt: &impl Abort, alloc: Global, folder: &Folder) -> usize {
    let verifier = Counting {
        calls: Cell::new(0),
    };
    let (walked, lines) = walked(rt, alloc, folder, &AllAdmitted, (3, 9), &verifier);
    check(rt, walked.ended == Ended::Whole, "a whole walk");
    drop(walked);
    drop(lines);
    verifier.calls.get()
}

// The anchor, and once there is something below it, its list and each certificate. A list that names
// another key isn't verified.
#[test]
fn a_list_is_verified_once(rt: HostRuntime) {
    let alloc = rt.alloc();
    let mut folder = Folder::new(alloc);
    add(&rt, &mut folder, list_octets(&rt, alloc), Added::List);
    let other = samples::shared(alloc, lists::TWO).expect(&rt, "digits");
    add(&rt, &mut folder, other, Added::List);
    check_count(&rt, verified(&rt, alloc, &folder), 1);
    for children in 0..4 {
        let octets = end_entity(&rt, alloc);
        add(&rt, &mut folder, octets, Added::Certificate(children));
        check_count(&rt, verified(&rt, alloc, &folder), 3 + children);
    }
    drop(folder);
}
