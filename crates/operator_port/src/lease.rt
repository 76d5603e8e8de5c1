//! What is left of a server's lease.
ghost use Rattle.std.specs.Prelude.{◌≡◌, IfOk, string_bytes};
ghost use Rattle.operator_port.specs.Leases.{lease_text};

use std::alloc::{AllocError, Global};

/// The milliseconds that are left of a lease which lapses then, 0 once it has lapsed; `none` where none
/// was granted.
pub(crate) fn lease_text(
    alloc: Global,
    lapse: Option<u64>,
    elapsed: u64,
) -> Result<String, AllocError>
    ensures { IfOk result (λ t. string_bytes t ≡ lease_text lapse elapsed) }
{
    match lapse {
        Some(lapse) => {
            let left = lapse.saturating_sub(elapsed);
            format!(in alloc; "{left}")
        }
        None => String::from_str(alloc, "none"),
    }
}
