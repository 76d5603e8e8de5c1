//! Times in seconds, exactly.
ghost use Rattle.std.specs.Prelude.{◌≡◌, IfOk, string_bytes};
ghost use Rattle.operator_port.specs.Seconds.{lease_seconds, seconds_of_micros, seconds_of_millis, three_digits};

use std::alloc::{AllocError, Global};

/// Milliseconds as seconds, with three digits behind the point.
pub(crate) fn seconds_of_millis(alloc: Global, millis: u64) -> Result<String, AllocError>
    ensures { IfOk result (λ t. string_bytes t ≡ seconds_of_millis millis) }
{
    let digits = three_digits(alloc, millis)?;
    let whole = millis / 1_000;
    format!(in alloc; "{whole}.{digits}")
}

/// Microseconds as seconds, with six digits behind the point.
pub(crate) fn seconds_of_micros(alloc: Global, micros: u64) -> Result<String, AllocError>
    ensures { IfOk result (λ t. string_bytes t ≡ seconds_of_micros micros) }
{
    let millis = seconds_of_millis(alloc, micros / 1_000)?;
    let digits = three_digits(alloc, micros)?;
    format!(in alloc; "{millis}{digits}")
}

/// The seconds that are left of a lease which lapses then, 0 once it has lapsed; `+Inf` where none was granted.
pub(crate) fn lease_seconds(
    alloc: Global,
    lapse: Option<u64>,
    elapsed: u64,
) -> Result<String, AllocError>
    ensures { IfOk result (λ t. string_bytes t ≡ lease_seconds lapse elapsed) }
{
    match lapse {
        Some(lapse) => seconds_of_millis(alloc, lapse.saturating_sub(elapsed)),
        None => String::from_str(alloc, "+Inf"),
    }
}

// The last three digits.
fn three_digits(alloc: Global, number: u64) -> Result<String, AllocError>
    ensures { IfOk result (λ t. string_bytes t ≡ three_digits number) }
{
    let (hundreds, tens, ones) = (number / 100 % 10, number / 10 % 10, number % 10);
    format!(in alloc; "{hundreds}{tens}{ones}")
}
