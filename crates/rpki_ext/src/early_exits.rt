//! Drops what is owned at an early exit, by a call of one small function, which is proved once.
ghost use Rattle.std.specs.Prelude.{◌≡◌, Ok, Err, IfOk, IfErr};

/// Pairs a value with the result of a step after it.
///
/// # Errors
///
/// Returns the step's error, and drops the value.
#[inline(always)]
pub fn beside<T: Drop, S, E>(value: T, step: Result<S, E>) -> Result<(T, S), E>
    ensures ok { IfOk result (λ r. (r.0 ≡ value) × (step ≡ Ok r.1)) }
    ensures rejected { IfErr result (λ e. step ≡ Err e) }
{
    match step {
        Ok(given) => Ok((value, given)),
        Err(error) => Err(error),
    }
}
