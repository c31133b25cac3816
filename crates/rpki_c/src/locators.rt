//! Whether a trust anchor can be a TAL's.
ghost use Rattle.std.specs.Prelude.{◌≡◌, ℕ, Bool, List, OnOk, IfErr};
ghost use Rattle.rpki_keys.specs.Locators.{IsLocator};
ghost use Rattle.rpki_path.specs.LocatedPaths.{BeginsWithNumbers, IsLocatorOf};
ghost use Rattle.rpki_c.specs.Verdicts.{IsUntrusted};

use crate::refusal::Refusal;
use rpki_keys::tal::Tal;
use rpki_path::{LocatedError, Member, test_anchor};
use std::alloc::Global;

// Errs where the trust anchor can't be the locator's.
fn compared(alloc: Global, anchor: &Member<'_>, tal: &Tal) -> Result<(), Refusal>
    ensures same { (strict : Bool) (file : List ℕ) → IsLocator strict tal.now.tal file
        → OnOk result (IsLocatorOf strict anchor.now file) }
    ensures numbers { OnOk result (BeginsWithNumbers anchor.now) }
    ensures refused { (strict : Bool) (file : List ℕ) → IsLocator strict tal.now.tal file
        → IfErr result (IsUntrusted strict file anchor.now) }
{
    match test_anchor(alloc, anchor, tal) {
        Ok(()) => Ok(()),
        Err(LocatedError::OtherKey) => Err(Refusal::OtherKey),
        Err(LocatedError::NoResources) => Err(Refusal::NoResources(0)),
        Err(LocatedError::Path(error)) => Err(Refusal::Member(error)),
    }
}

/// Checks that the trust anchor has the key of the TAL (RFC 8630 3), and lists an IP address or an
/// AS number (RFC 8630 2.3).
///
/// # Errors
///
/// Returns why it doesn't, or that the bytes aren't a TAL or the anchor isn't a certificate.
pub(crate) fn ask_locator(
    alloc: Global,
    anchor: &Member<'_>,
    file: &[u8],
    strict: bool,
) -> Result<(), Refusal>
    ensures same { OnOk result (IsLocatorOf strict anchor.now file.now) }
    ensures numbers { OnOk result (BeginsWithNumbers anchor.now) }
    ensures refused { IfErr result (IsUntrusted strict file.now anchor.now) }
{
    let tal = Tal::read_named(alloc, String::new(alloc), file, strict)?;
    let answer = compared(alloc, anchor, &tal);
    drop(tal);
    answer
}
