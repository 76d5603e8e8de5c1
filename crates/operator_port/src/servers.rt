//! The reply to `servers`.
ghost use Rattle.std.specs.Prelude.{◌≡◌, ◌++◌, ◌∷◌, [], map, codes, IfOk, OnOk, string_bytes};
ghost use Rattle.operator_port.specs.Questions.{init_end};
ghost use Rattle.operator_port.specs.Replies.{address_line};
ghost use Rattle.operator_port.specs.Texts.{text_of};

use crate::figures::AddressRow;
use crate::pages::{Prints, push_all, push_line};
use mux_history::InitMode;
use std::alloc::{AllocError, Global};

/// The lines of `servers`.
pub(crate) fn servers_page(alloc: Global, rows: &[AddressRow]) -> Result<Vec<u8>, AllocError>
    ensures { IfOk result (λ t. t.items ≡ text_of (map address_line rows.now ++ codes "end" ∷ [])) }
{
    let mut text = Vec::new(alloc);
    push_all(alloc, &mut text, &Placing, rows)?;
    push_line(&mut text, "end")?;
    Ok(text)
}

/// Prints the line that gives a server its address again.
#[derive(Drop)]
struct Placing;

impl Prints<AddressRow> for Placing {
    ghost use Rattle.operator_port.specs.Replies.{address_line};

    ghost line = { λ _ row. address_line row };

    fn push(&self, alloc: Global, text: &mut Vec<u8>, row: &AddressRow) -> Result<(), AllocError> {
        let line = address_text(alloc, row)?;
        push_line(text, line.as_str())
    }
}

fn address_text(alloc: Global, row: &AddressRow) -> Result<String, AllocError>
    ensures { IfOk result (λ t. string_bytes t ≡ address_line row.now) }
{
    let (name, address, end) = (row.name.as_str(), row.address, init_end(row.init));
    format!(in alloc; "server {name} {address}{end}")
}

// What stands behind the address.
fn init_end(init: InitMode) -> &'static str
    ensures { result.now ≡ init_end init }
{
    match init {
        InitMode::Probe => "",
        InitMode::Plain => " plain",
    }
}
