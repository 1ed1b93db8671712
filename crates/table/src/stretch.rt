//! The stretches of a state.

ghost use Rattle.std.specs.Prelude.{◌≡◌};
ghost use Rattle.table.specs.Stretch.{greatest_end, stretches};

use crate::guard::greatest_end;
use crate::table::{Table, TableState};
use text::draft::State;

impl Table<'_> {
    /// The greatest finite guard end in the state's rows, or 0.
    fn greatest_end_of(self, state: u8) -> u8
        ensures { result ≡ greatest_end self.entry.draft.now state self.entry.draft.now.rows.count }
    {
        // Other states' rows are passed over in the fold itself: behind a `filter` each row costs the compiled loop a third more, and with
        // `max` at its end a tick was no longer small enough to be built into the search.
        self.rows().iter().fold(0, |greatest, row| {
            if row.state == state {
                greatest_end(row.guard).max(greatest)
            } else {
                greatest
            }
        })
    }
}

impl TableState<'_> {
    /// How many stretches the state has.
    pub(crate) fn count_stretches(self) -> u8
        ensures { result ≡ stretches self.entry.table.draft.now self.entry.number }
    {
        match self.kind() {
            State::Stay => 2 * self.table.greatest_end_of(self.number) + 2,
            State::Hold { timeout, .. } => 2 * timeout,
        }
    }
}
