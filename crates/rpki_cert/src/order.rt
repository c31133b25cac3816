//! The order in which extensions are set.
ghost use Rattle.std.specs.Prelude.{◌↔◌, IsTrue, IfOk};
ghost use Rattle.rpki_cert.specs.Rearranging.{IsOrder};

use std::alloc::{AllocError, Global};

/// Returns whether the order names each of so many places once. It looks at the order once, with a
/// table of the places seen.
pub(crate) fn is_order(alloc: Global, order: &[usize], count: usize) -> Result<bool, AllocError>
    ensures { IfOk result (λ yes. IsTrue yes ↔ IsOrder count order.now) }
{
    if order.len() != count {
        return Ok(false);
    }
    let mut seen = vec![in alloc; false; count]?;
    for place in order {
        if *place >= count || seen[*place] {
            return Ok(false);
        }
        seen[*place] = true;
    }
    Ok(true)
}
