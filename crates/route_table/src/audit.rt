//! When the histories of a run are looked at.
ghost use Rattle.std.specs.Prelude.{◌≡◌};
ghost use Rattle.toml.specs.View.{table_view};
ghost use Rattle.route_table.specs.Fault.{shown};
ghost use Rattle.route_table.specs.Table.{audit_at};

use crate::fault::ConfigFault;
use crate::key::Key;
use crate::lookup::word_at;
use toml::Table;

/// When the histories of a run are looked at, and how long they are kept.
#[derive(Clone, Copy, Debug, PartialEq, Eq)]
pub enum AuditMode {
    /// Each record is kept until the run closes, and looked at then.
    Close,
    /// The records of an epoch that ended are looked at soon after, and thrown away.
    Rolling,
}

/// The mode that a document names, which is `Close` where the key isn't there.
pub(crate) fn audit_at(doc: &Table) -> Result<AuditMode, ConfigFault>
    ensures { shown (λ a. a) result ≡ audit_at (table_view doc.now) }
{
    word_at(
        doc,
        Key::Audit,
        ("close", AuditMode::Close),
        ("rolling", AuditMode::Rolling),
    )
}
