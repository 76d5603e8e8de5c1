//! The reply to `routes`.
ghost use Rattle.std.specs.Prelude.{◌≡◌, ◌++◌, ◌∷◌, [], ◌==◌, ◌&&◌, not, map, codes, IfOk, OnOk};
ghost use Rattle.std.specs.List.{list_all};
ghost use Rattle.operator_port.specs.Replies.{route_line};
ghost use Rattle.operator_port.specs.Texts.{text_of};

use crate::figures::RouteRow;
use crate::pages::{Prints, push_all, push_line};
use std::alloc::{AllocError, Global};

/// The greatest length of a line that an operator may send.
const MAX_LINE: usize = 1_024;

/// The lines of `routes`.
pub(crate) fn routes_page(alloc: Global, rows: &[RouteRow]) -> Result<Vec<u8>, AllocError>
    ensures { IfOk result (λ t. t.items ≡ text_of (map route_line rows.now ++ codes "end" ∷ [])) }
{
    let mut text = Vec::new(alloc);
    push_all(alloc, &mut text, &Setting, rows)?;
    push_line(&mut text, "end")?;
    Ok(text)
}

/// Prints the line that would set a route again.
#[derive(Drop)]
struct Setting;

impl Prints<RouteRow> for Setting {
    ghost use Rattle.operator_port.specs.Replies.{route_line};

    ghost line = { λ _ row. route_line row };

    fn push(&self, alloc: Global, text: &mut Vec<u8>, row: &RouteRow) -> Result<(), AllocError> {
        let line = line_bytes(alloc, row)?;
        text.extend_from_slice(line.as_slice())
            .map_err(AllocError::from)?;
        text.push(b'\n').map_err(AllocError::from)?;
        Ok(())
    }
}

fn line_bytes(alloc: Global, row: &RouteRow) -> Result<Vec<u8>, AllocError>
    ensures { IfOk result (λ t. t.items ≡ route_line row.now) }
{
    let names = row.names.join(alloc, ",")?;
    let line = setting_bytes(alloc, row.dst.as_slice(), names.as_bytes())?;
    if is_plain(row.dst.as_slice()) && line.len() <= MAX_LINE {
        return Ok(line);
    }
    unwritable_bytes(alloc, names.as_bytes())
}

fn setting_bytes(alloc: Global, dst: &[u8], names: &[u8]) -> Result<Vec<u8>, AllocError>
    ensures { IfOk result (λ t. t.items ≡ codes "route " ++ (dst.now ++ (32 ∷ names.now))) }
{
    let mut line = Vec::from_slice(alloc, b"route ")?;
    line.extend_from_slice(dst).map_err(AllocError::from)?;
    line.push(b' ').map_err(AllocError::from)?;
    line.extend_from_slice(names).map_err(AllocError::from)?;
    Ok(line)
}

fn unwritable_bytes(alloc: Global, names: &[u8]) -> Result<Vec<u8>, AllocError>
    ensures { IfOk result (λ t. t.items ≡ codes "unwritable " ++ names.now) }
{
    let mut line = Vec::from_slice(alloc, b"unwritable ")?;
    line.extend_from_slice(names).map_err(AllocError::from)?;
    Ok(line)
}

// No space and no line feed.
fn is_plain(dst: &[u8]) -> bool
    ensures { result ≡ list_all (λ b. not (b == 32) && not (b == 10)) dst.now }
{
    dst.iter().all(|b| *b != b' ' && *b != b'\n')
}
