//! Steps with large values.
//!
//! Each stands in a function over values of any type, so that its caller has no exit and no assignment at which it
//! lets go of one: that takes the prover long, the longer the more a value holds.
ghost use Rattle.std.specs.Prelude.{◌≡◌, Some};

use std::alloc::AllocError;

/// Adds a value to a list. Out of memory is the one error, and the value is let go of then.
pub fn add<T: Drop>(list: &mut Vec<T>, value: T) -> Result<(), AllocError> {
    list.push(value)?;
    Ok(())
}

/// Puts a value into a place, and lets go of the one that was there.
pub fn put<T: Drop>(place: &mut Option<T>, value: T)
    ensures { place.new ≡ Some value }
{
    *place = Some(value);
}
