//! A table from outputs to outputs.

ghost use Rattle.std.specs.Prelude.{◌≡◌, Some, None, MatchResult, nat_le, position};
ghost use Rattle.table.specs.First.{unless_fault};
ghost use Rattle.table.specs.View.{AllOutputs, same_outputs, table_fault};

use crate::fault::TableFault;
use crate::limits::OUTPUT_ENTRIES;
use std::array::from_fn;
use text::limits::MAX_OUTPUTS;

/// The output that stands for each output.
#[derive(Clone, Copy, Debug, PartialEq, Eq)]
pub struct OutputTable {
    pub(crate) entries: [u8; OUTPUT_ENTRIES],
    ghost small: { AllOutputs entries },
}

// The place of the first entry that is no output.
fn first_past_outputs(entries: &[u8]) -> Option<usize>
    ensures { result ≡ position (nat_le MAX_OUTPUTS) entries.now }
{
    entries.iter().position(|&entry| entry >= MAX_OUTPUTS)
}

// Refuses the first entry that is no output.
fn check_entries(entries: &[u8; OUTPUT_ENTRIES]) -> Result<(), TableFault>
    ensures { result ≡ unless_fault (table_fault entries.now) tt }
{
    match first_past_outputs(entries) {
        Some(k) => Err(TableFault::Output { entry: k as u8 }),
        None => Ok(()),
    }
}

impl OutputTable {
    /// The table that sends each output to itself.
    pub(crate) fn outputs_to_themselves() -> OutputTable
        ensures { result.entries ≡ same_outputs }
    {
        OutputTable {
            entries: from_fn(|output| output as u8),
        }
    }
}

impl TryFrom<[u8; OUTPUT_ENTRIES]> for OutputTable {
    type Error = TableFault;

    ghost try_from_gives = { λ entries r. MatchResult r (λ t. (table_fault entries ≡ None) × (t.entries ≡ entries)) (λ f. table_fault entries ≡ Some f) };

    /// The table of these entries, or its first entry that is no output.
    fn try_from(entries: [u8; OUTPUT_ENTRIES]) -> Result<OutputTable, TableFault> {
        check_entries(&entries)?;
        Ok(OutputTable { entries })
    }
}
