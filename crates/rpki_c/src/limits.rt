//! The numbers of the limits that a walk reached at a certificate.
ghost use Rattle.std.specs.Prelude.{◌≡◌};
ghost use Rattle.rpki_c.specs.FolderLimits.{limits_number, needed_number};

use rpki_folder::Reached;

/// Returns the sum of the limits' numbers: 1 for the depth, 2 for the steps.
pub(crate) fn limits_number(reached: Reached) -> u32
    ensures { result ≡ limits_number reached }
{
    match (reached.deep, reached.short) {
        (false, false) => 0,
        (true, false) => 1,
        (false, true) => 2,
        (true, true) => 3,
    }
}

/// Returns the number of steps that is needed, or 0 if none is known.
pub(crate) fn needed_number(reached: Reached) -> u64
    ensures { result ≡ needed_number reached }
{
    match reached.needed {
        Some(needed) => needed as u64,
        None => 0,
    }
}
