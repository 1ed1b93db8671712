//! A view: any machine, with its outputs passed through a table.

ghost use Rattle.std.specs.Prelude.{◌≡◌, Some, None, MatchResult};
ghost use Rattle.table.specs.View.{same_outputs, table_fault, passed};
ghost use Rattle.table.specs.ViewLaw.{view_lawful};

use crate::fault::TableFault;
use crate::limits::OUTPUT_ENTRIES;
use crate::machine::Machine;
use crate::output_table::OutputTable;

/// A machine whose outputs are read through a table.
#[derive(Debug, Drop, PartialEq, Eq)]
pub struct View<M: Machine> {
    below: M,
    table: OutputTable,
}

impl<M: Machine> View<M> {
    /// The view of the machine that sends each output to itself.
    pub fn new(below: M) -> View<M>
        ensures { (result.below ≡ below) × (result.table.entries ≡ same_outputs) }
    {
        View {
            below,
            table: OutputTable::outputs_to_themselves(),
        }
    }

    /// Sets the whole table, or refuses its first entry that is no output.
    pub fn set_table(&mut self, table: [u8; OUTPUT_ENTRIES]) -> Result<(), TableFault>
        ensures { MatchResult result (λ _. (table_fault table ≡ None) × (self.new.table.entries ≡ table) × (self.new.below ≡ self.old.below)) (λ f. (table_fault table ≡ Some f) × (self.new ≡ self.old)) }
    {
        self.table = OutputTable::try_from(table)?;
        Ok(())
    }
}

impl<M: Machine> Machine for View<M> {
    ghost count = { λ v. M.count v.below };

    ghost inputs = { λ v. M.inputs v.below };

    ghost start = { λ v. M.start v.below };

    ghost tick = { λ v s. M.tick v.below s };

    ghost take = { λ v s i. passed v.table.entries (M.take v.below s i) };

    // The meaning below is written out, since `means` does not take the members of a bound here.
    ghost lawful = { λ v. view_lawful (record { count = M.count v.below; inputs = M.inputs v.below; start = M.start v.below; tick = M.tick v.below; take = M.take v.below }) v.table.entries v.table.small (M.lawful v.below) };

    fn count(&self) -> u16 {
        self.below.count()
    }

    fn inputs(&self) -> u8 {
        self.below.inputs()
    }

    fn start(&self) -> u16 {
        self.below.start()
    }

    fn tick(&self, state: u16) -> Option<u16> {
        self.below.tick(state)
    }

    fn take(&self, state: u16, input: u8) -> Option<(u16, u8)> {
        let (next, output) = self.below.take(state, input)?;
        let shown = self.table.entries[output as usize];
        Some((next, shown))
    }
}
