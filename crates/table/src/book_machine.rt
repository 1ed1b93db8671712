//! The book as a machine.

ghost use Rattle.std.specs.Prelude.{◌≡◌, ◌<◌};
ghost use Rattle.table.specs.Stretch.{stretches};
ghost use Rattle.table.specs.Offsets.{all_stretches};
ghost use Rattle.table.specs.BookMachine.{place_after, book_tick, book_take};
ghost use Rattle.table.specs.Answering.{book_lawful};

use crate::book::Book;
use crate::fault::Spot;
use crate::machine::Machine;
use crate::table::TableState;
use text::draft::State;

impl TableState<'_> {
    /// The state and the stretch after one tick.
    fn after_tick(self, stretch: u8) -> (u8, u8)
        requires { stretch < stretches self.table.draft.now self.number }
        ensures { result ≡ place_after self.entry.table.draft.now (self.entry.number, stretch) }
    {
        let width = self.count_stretches();
        // One arm for each way in which a tick can end; the project keeps this form.
        match self.kind() {
            State::Stay if stretch + 1 < width => (self.number, stretch + 1),
            State::Stay => (self.number, stretch),
            State::Hold { .. } if stretch + 1 < width => (self.number, stretch + 1),
            State::Hold { target, .. } => (target, 0),
        }
    }
}

impl Machine for Book {
    ghost count = { λ b. all_stretches b.draft };

    ghost inputs = { λ b. b.draft.inputs };

    ghost start = { λ b. 0 };

    ghost tick = { λ b s. book_tick b.draft s };

    ghost take = { λ b s i. book_take b.draft s i };

    ghost lawful = { λ m. book_lawful m.draft m.sound };

    fn count(&self) -> u16 {
        self.number_of(self.draft.states.count as u8, 0)
    }

    fn inputs(&self) -> u8 {
        self.draft.inputs
    }

    fn start(&self) -> u16 {
        0
    }

    fn tick(&self, state: u16) -> Option<u16> {
        let (at, stretch) = self.place_of(state)?;
        let state = TableState {
            table: self.table(),
            number: at,
        };
        let (next, then) = state.after_tick(stretch);
        Some(self.number_of(next, then))
    }

    fn take(&self, state: u16, input: u8) -> Option<(u16, u8)> {
        if input >= self.draft.inputs {
            return None;
        }
        let (at, stretch) = self.place_of(state)?;
        let spot = Spot {
            state: at,
            input,
            stretch,
        };
        let number = self.table().row_number_at(spot)?;
        let row = self.draft.rows.all[number];
        Some((self.number_of(row.next, 0), row.output))
    }
}
