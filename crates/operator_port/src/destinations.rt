//! What was counted of destinations.
ghost use Rattle.std.specs.Prelude.{◌≡◌, ◌++◌, flat_map, option_map, OnOk, Some};
ghost use Rattle.operator_port.specs.Destinations.{byte_text, destination_family, destination_figure, destination_help, destination_text};

use crate::escapes::hex_digit;
use crate::figures::DestinationRow;
use crate::pages::{Prints, push_line, push_str};
use std::alloc::{AllocError, Global};

/// A count of the dispatches to a destination.
#[derive(Clone, Copy, Drop)]
pub(crate) enum DestinationCounter {
    Dispatches,
    Nacks,
}

impl DestinationCounter {
    pub(crate) fn name(self) -> &'static str
        ensures { result.now ≡ destination_family self }
    {
        match self {
            DestinationCounter::Dispatches => "voltgalley_destination_dispatches_total",
            DestinationCounter::Nacks => "voltgalley_destination_nacks_total",
        }
    }

    pub(crate) fn help(self) -> &'static str
        ensures { result.now ≡ destination_help self }
    {
        match self {
            DestinationCounter::Dispatches =>
                "Dispatches to the destination that clients sent while it had a route.",
            DestinationCounter::Nacks => "Dispatches to the destination that no server could take.",
        }
    }

    fn of(self, row: &DestinationRow) -> u64
        ensures { result ≡ destination_figure self row.now }
    {
        match self {
            DestinationCounter::Dispatches => row.dispatches,
            DestinationCounter::Nacks => row.nacks,
        }
    }
}

impl Prints<DestinationRow> for DestinationCounter {
    ghost use Rattle.operator_port.specs.Destinations.{destination_sample};

    ghost line = { λ counter row. destination_sample counter row };

    fn push(
        &self,
        alloc: Global,
        text: &mut Vec<u8>,
        row: &DestinationRow,
    ) -> Result<(), AllocError> {
        let name = self.name();
        let before = format!(in alloc; "{name}{{destination=\"")?;
        push_str(text, before.as_str())?;
        push_destination(text, &row.dst)?;
        let value = self.of(row);
        let behind = format!(in alloc; "\"}} {value}")?;
        push_line(text, behind.as_str())
    }
}

/// Adds a destination, as it stands between the quotes of a label: `other` is what all those without a row share.
fn push_destination(text: &mut Vec<u8>, dst: &Option<Vec<u8>>) -> Result<(), AllocError>
    ensures { OnOk result (text.new.items
        ≡ text.old.items ++ destination_text (option_map (λ d. d.items) dst.now)) }
{
    match dst {
        Some(dst) => push_bytes(text, dst.as_slice()),
        None => push_str(text, "other"),
    }
}

/// Adds the bytes of a destination. The one that is called `other` has its first byte written out.
fn push_bytes(text: &mut Vec<u8>, dst: &[u8]) -> Result<(), AllocError>
    ensures { OnOk result (text.new.items ≡ text.old.items ++ destination_text (Some dst.now)) }
{
    if dst == b"other".as_slice() {
        return push_str(text, "%6fther");
    }
    push_escaped(text, dst)
}

fn push_escaped(text: &mut Vec<u8>, dst: &[u8]) -> Result<(), AllocError>
    ensures { OnOk result (text.new.items ≡ text.old.items ++ flat_map byte_text dst.now) }
{
    for byte in dst {
        push_byte(text, *byte)?;
    }
    Ok(())
}

fn push_byte(text: &mut Vec<u8>, byte: u8) -> Result<(), AllocError>
    ensures { OnOk result (text.new.items ≡ text.old.items ++ byte_text byte) }
{
    if byte < 32 || byte > 126 || byte == b'"' || byte == b'%' || byte == b'\\' {
        let (high, low) = (hex_digit(byte / 16), hex_digit(byte % 16));
        text.extend_from_slice(&[b'%', high, low])
            .map_err(AllocError::from)
    } else {
        text.push(byte).map_err(AllocError::from)
    }
}
