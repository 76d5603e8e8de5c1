//! Texts between quotes.
ghost use Rattle.std.specs.Prelude.{◌≡◌, ◌<◌, ◌++◌, flat_map, OnOk};
ghost use Rattle.operator_port.specs.Escapes.{hex_digit, label_byte, toml_byte};

use std::alloc::AllocError;

/// Adds the value of a label, as it stands between its quotes.
pub(crate) fn push_label(text: &mut Vec<u8>, value: &str) -> Result<(), AllocError>
    ensures { OnOk result (text.new.items ≡ text.old.items ++ flat_map label_byte value.now) }
{
    for byte in value.as_bytes() {
        push_label_byte(text, *byte)?;
    }
    Ok(())
}

fn push_label_byte(text: &mut Vec<u8>, byte: u8) -> Result<(), AllocError>
    ensures { OnOk result (text.new.items ≡ text.old.items ++ label_byte byte) }
{
    match byte {
        b'\n' => text.extend_from_slice(b"\\n").map_err(AllocError::from),
        b'"' | b'\\' => text
            .extend_from_slice(&[b'\\', byte])
            .map_err(AllocError::from),
        _ => text.push(byte).map_err(AllocError::from),
    }
}

/// Adds a text of TOML, as it stands between its quotes.
pub(crate) fn push_toml(text: &mut Vec<u8>, value: &str) -> Result<(), AllocError>
    ensures { OnOk result (text.new.items ≡ text.old.items ++ flat_map toml_byte value.now) }
{
    for byte in value.as_bytes() {
        push_toml_byte(text, *byte)?;
    }
    Ok(())
}

fn push_toml_byte(text: &mut Vec<u8>, byte: u8) -> Result<(), AllocError>
    ensures { OnOk result (text.new.items ≡ text.old.items ++ toml_byte byte) }
{
    if byte == b'"' || byte == b'\\' {
        text.extend_from_slice(&[b'\\', byte])
            .map_err(AllocError::from)
    } else if byte < 32 || byte == 127 {
        let (high, low) = (b'0' + byte / 16, hex_digit(byte % 16));
        text.extend_from_slice(&[b'\\', b'u', b'0', b'0', high, low])
            .map_err(AllocError::from)
    } else {
        text.push(byte).map_err(AllocError::from)
    }
}

pub(crate) fn hex_digit(value: u8) -> u8
    requires { value < 16 }
    ensures { result ≡ hex_digit value }
{
    if value < 10 {
        b'0' + value
    } else {
        b'a' - 10 + value
    }
}
