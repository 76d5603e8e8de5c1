//! Texts of lines, as they are put together.
ghost use Rattle.std.specs.Prelude.{◌≡◌, ◌++◌, ◌∷◌, [], map, OnOk};
ghost use Rattle.operator_port.specs.Texts.{text_of};

use std::alloc::{AllocError, Global};

/// Adds a text.
pub(crate) fn push_str(text: &mut Vec<u8>, more: &str) -> Result<(), AllocError>
    ensures { OnOk result (text.new.items ≡ text.old.items ++ more.now) }
{
    text.extend_from_slice(more.as_bytes())
        .map_err(AllocError::from)
}

/// Adds a line, with its line feed.
pub(crate) fn push_line(text: &mut Vec<u8>, line: &str) -> Result<(), AllocError>
    ensures { OnOk result (text.new.items ≡ text.old.items ++ (line.now ++ (10 ∷ []))) }
{
    text.extend_from_slice(line.as_bytes())
        .map_err(AllocError::from)?;
    text.push(b'\n').map_err(AllocError::from)?;
    Ok(())
}

/// Prints a row as a line.
pub(crate) trait Prints<T> {
    ghost use Rattle.std.specs.Prelude.{ℕ, List, IfOk};

    /// The line of a row, without its line feed.
    ghost line: { Self → T → List ℕ };

    /// Adds the line of a row. Out of memory is the one error.
    fn push(&self, alloc: Global, text: &mut Vec<u8>, row: &T) -> Result<(), AllocError>
        ensures { OnOk result (text.new.items ≡ text.old.items ++ (line self.now row.now ++ (10 ∷ []))) };
}

/// Adds a line for each row.
pub(crate) fn push_all<T, P: Prints<T>>(
    alloc: Global,
    text: &mut Vec<u8>,
    printer: &P,
    rows: &[T],
) -> Result<(), AllocError>
    ensures { OnOk result (text.new.items ≡ text.old.items ++ text_of (map (P.line printer.now) rows.now)) }
{
    for row in rows {
        printer.push(alloc, text, row)?;
    }
    Ok(())
}
