//! The check that a draft is sound: its first fault, or none.
//!
//! The loops go by number, since a fault names its row, or its state, input and stretch. Each is one line of its own: a loop over
//! a closure would have to say what the closure refuses, and is no plainer.

ghost use Rattle.std.specs.Prelude.{◌≡◌, ◌<◌, Ok};
ghost use Rattle.table.specs.First.{first, unless_fault};
ghost use Rattle.table.specs.Sound.{Sound, past_timeout, row_fault, stretch_fault, input_fault, state_fault, draft_fault};

use crate::fault::{Spot, TableFault};
use crate::guard::{is_empty, passes_timeout};
use crate::table::{Table, TableState};
use text::draft::{Guard, State};

/// Whether the guard holds a clock that the state never shows.
fn is_past_timeout(state: State, guard: Guard) -> bool
    ensures { result ≡ past_timeout state guard }
{
    match state {
        State::Stay => false,
        State::Hold { timeout, .. } => passes_timeout(guard, timeout),
    }
}

impl Table<'_> {
    /// Refuses a row whose guard is empty or holds a clock past the timeout.
    fn check_row(self, row: u16) -> Result<(), TableFault>
        requires { row < self.draft.now.rows.count }
        ensures { result ≡ unless_fault (row_fault self.entry.draft.now row) tt }
    {
        let line = self.draft.rows.all[row as usize];
        if is_empty(line.guard) {
            return Err(TableFault::EmptyGuard { row });
        }
        if is_past_timeout(self.draft.states.all[line.state as usize], line.guard) {
            return Err(TableFault::PastTimeout { row });
        }
        Ok(())
    }

    /// Refuses the first fault among the rows.
    fn check_rows(self) -> Result<(), TableFault>
        ensures { result ≡ unless_fault (first (row_fault self.entry.draft.now) self.entry.draft.now.rows.count) tt }
    {
        for row in 0..self.draft.rows.count {
            self.check_row(row)?;
        }
        Ok(())
    }

    /// Refuses a stretch that no row contains, or more than one.
    fn check_stretch(self, spot: Spot) -> Result<(), TableFault>
        ensures { result ≡ unless_fault (stretch_fault self.entry.draft.now spot.state spot.input spot.stretch) tt }
    {
        match self.count_rows_at(spot) {
            0 => Err(TableFault::NoRow(spot)),
            1 => Ok(()),
            _ => Err(TableFault::TwoRows(spot)),
        }
    }

    /// Refuses the first fault among the states.
    fn check_states(self) -> Result<(), TableFault>
        ensures { result ≡ unless_fault (first (state_fault self.entry.draft.now) self.entry.draft.now.states.count) tt }
    {
        for number in 0..self.draft.states.count {
            let state = TableState {
                table: self,
                number: number as u8,
            };
            state.check()?;
        }
        Ok(())
    }

    /// Refuses the first fault of the draft; a draft without one is sound.
    pub(crate) fn check(self) -> Result<(), TableFault>
        ensures answer { result ≡ unless_fault (draft_fault self.entry.draft.now) tt }
        ensures sound { result ≡ Ok tt → Sound self.entry.draft.now }
    {
        self.check_rows()?;
        self.check_states()
    }
}

impl TableState<'_> {
    /// Refuses the first fault among the stretches of the state and an input.
    fn check_input(self, input: u8) -> Result<(), TableFault>
        ensures { result ≡ unless_fault (input_fault self.entry.table.draft.now self.entry.number input) tt }
    {
        let state = self.number;
        if !self.table.has_rows_of(state, input) {
            return Err(TableFault::NoRow(Spot {
                state,
                input,
                stretch: 0,
            }));
        }
        for stretch in 0..self.count_stretches() {
            self.table.check_stretch(Spot {
                state,
                input,
                stretch,
            })?;
        }
        Ok(())
    }

    /// Refuses the first fault among the inputs of the state.
    fn check(self) -> Result<(), TableFault>
        ensures { result ≡ unless_fault (state_fault self.entry.table.draft.now self.entry.number) tt }
    {
        for input in 0..self.table.draft.inputs {
            self.check_input(input)?;
        }
        Ok(())
    }
}
