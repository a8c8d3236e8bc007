//! The document that a file is.
ghost use Rattle.std.specs.Prelude.{◌≡◌, []};
ghost use Rattle.std.specs.Result.{result_map_both};
ghost use Rattle.toml.specs.View.{table_view};
ghost use Rattle.nl_experiment_keys.specs.Document.{document, document_or_fault, file_holds};
ghost use Rattle.nl_experiment_keys.specs.Reading.{Reads, Tells};
ghost use Rattle.nl_experiment_keys.specs.Reading as spec;

use crate::faults::{KeyFault, KeyRefusal, PlanKind};
use nl_fixed::Str;
use std::alloc::Global;
use toml::Table;

/// A file of more bytes is too long.
pub const FILE_LIMIT: usize = 4_194_304;

// A fault of the whole file.
fn whole_fault(alloc: Global, kind: PlanKind) -> KeyRefusal
    ensures { result ≡ KeyRefusal.Fault (spec.fault_at [] kind) }
{
    let key = Str::of_vec(Vec::new(alloc));
    KeyRefusal::Fault(KeyFault { kind, key })
}

// The document that a text is.
fn document_of(alloc: Global, text: &[u8]) -> Result<Table, KeyRefusal>
    ensures { Reads (document_or_fault (document text.now))
        (result_map_both table_view (λ refusal. refusal) result) }
{
    let Ok(text) = str::from_utf8(text) else {
        return Err(whole_fault(alloc, PlanKind::NotToml));
    };
    match toml::table_from_str(alloc, text) {
        Ok(table) => Ok(table),
        Err(error) => {
            if error.is_memory() {
                Err(KeyRefusal::NoMemory)
            } else {
                Err(whole_fault(alloc, PlanKind::NotToml))
            }
        }
    }
}

/// The table that a file is. A file that is too long is `TooLong`, one that is no UTF-8 or no TOML is `NotToml`.
#[tactic(auto, unfolding(crate::specs::Document::file_holds))]
pub fn table_of(alloc: Global, file: &[u8]) -> Result<Table, KeyRefusal>
    ensures { Reads (file_holds file.now) (result_map_both table_view (λ refusal. refusal) result) }
{
    if file.len() > FILE_LIMIT {
        return Err(whole_fault(alloc, PlanKind::TooLong));
    }
    document_of(alloc, file)
}
