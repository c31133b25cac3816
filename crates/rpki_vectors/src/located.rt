//! Whole paths from the trust anchor of a locator down.
use crate::answer::Answer;
use crate::locators::locator_of;
use crate::paths::{self, authorities, leaf, named};
use crate::revocation::store_of;
use crate::validating::held;
use crate::words::{Words, moment};
use bytes::Bytes;
use rpki_cert::ResourceCert;
use rpki_der::Time;
use rpki_keys::tal::Tal;
use rpki_parts::StandIn;
use rpki_path::{LocatedError, Member, has_locator_key, test_anchor, validate_located};

// Whether the trust anchor has the locator's key; `none` where no certificate is read.
fn has_key(out: &mut Answer, tal: &Tal, anchor: &Bytes) {
    out.field("has-key");
    match has_locator_key(out.alloc(), &Member::of(anchor), tal) {
        Ok(has) => out.yes(has),
        Err(fault) => {
            if fault.is_memory() {
                out.fail();
            }
            drop(fault);
            out.text("none");
        }
    }
}

// Whether the trust anchor can be the locator's, or why it can't; `none` where no certificate is read.
fn fits(out: &mut Answer, tal: &Tal, anchor: &Bytes) {
    out.field("fits");
    match test_anchor(out.alloc(), &Member::of(anchor), tal) {
        Ok(()) => out.yes(true),
        Err(LocatedError::OtherKey) => out.text("OtherKey"),
        Err(LocatedError::NoResources) => out.text("NoResources"),
        Err(LocatedError::Path(error)) => {
            if error.is_memory() {
                out.fail();
            }
            drop(error);
            out.text("none");
        }
    }
}

/// Appends why there is no path below a locator.
pub fn refused(out: &mut Answer, error: LocatedError) {
    match error {
        LocatedError::Path(error) => paths::refused(out, error),
        LocatedError::OtherKey => out.text("refused locator OtherKey"),
        LocatedError::NoResources => out.text("refused locator NoResources"),
    }
}

fn told(out: &mut Answer, answer: Result<ResourceCert, LocatedError>) {
    match answer {
        Ok(last) => {
            held(out, &last);
            drop(last);
        }
        Err(error) => refused(out, error),
    }
}

fn below(words: &Words<'_>, out: &mut Answer, tal: &Tal, anchor: &Bytes, now: Time) -> Option<()> {
    let alloc = out.alloc();
    let store = store_of(out, words.at(3), false)?;
    let cas = authorities(out, words, 6);
    let leaf = leaf(out, words);
    let strict = words.is(2, "strict");
    let answer = validate_located(
        alloc, tal, &store, anchor, &cas, leaf, strict, now, &StandIn,
    );
    drop(store);
    told(out, answer);
    has_key(out, tal, anchor);
    fits(out, tal, anchor);
    Some(())
}

fn answered(words: &Words<'_>, out: &mut Answer) -> Option<()> {
    let now = moment(words.at(1))?;
    let (anchor, tal) = named(out, words.at(5), "ta").zip(locator_of(words, out, 4))?;
    let is_fit = below(words, out, &tal, &anchor, now);
    drop(tal);
    drop(anchor);
    is_fit
}

/// Tells what the last member of a path below a locator holds, or which member is refused, and why,
/// under the stand-in; and whether the trust anchor has the locator's key, and can be the locator's.
pub fn located(words: &Words<'_>, out: &mut Answer) {
    if answered(words, out).is_none() {
        out.text("unfit");
    }
}
