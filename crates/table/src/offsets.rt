//! The numbers of a book's states and stretches, one after another.

ghost use Rattle.std.specs.Prelude.{◌≡◌, ◌≤◌, nat_lt, drop, position, take};
ghost use Rattle.table.specs.Meaning.{given_if};
ghost use Rattle.table.specs.Offsets.{Offsets, ZerosBehind, all_stretches, number, place};

use crate::book::Book;
use crate::limits::MAX_OFFSETS;
use crate::table::{Table, TableState};

impl Table<'_> {
    /// The number at which each state's stretches begin, and past them the number of all.
    pub(crate) fn offsets(self) -> [u16; MAX_OFFSETS]
        ensures numbered { Offsets self.entry.draft.now result }
        ensures padded { ZerosBehind self.entry.draft.now result }
    {
        // Filled by a loop over the numbers: each place is the sum so far, and an iterator is no plainer.
        let mut offsets = [0; MAX_OFFSETS];
        let mut sum = 0;
        for number in 0..self.draft.states.count {
            let state = TableState {
                table: self,
                number: number as u8,
            };
            sum += u16::from(state.count_stretches());
            offsets[number as usize + 1] = sum;
        }
        offsets
    }
}

impl Book {
    /// The number of a state in a stretch.
    pub(crate) fn number_of(&self, state: u8, stretch: u8) -> u16
        requires { state ≤ self.now.draft.states.count }
        ensures { result ≡ number self.now.draft (state, stretch) }
    {
        self.offsets[state as usize] + u16::from(stretch)
    }

    /// The state and the stretch that have the number sought.
    pub(crate) fn place_of(&self, sought: u16) -> Option<(u8, u8)>
        ensures { result ≡ given_if (nat_lt sought (all_stretches self.now.draft)) (place self.now.draft sought) }
    {
        let state = self.state_of(sought)?;
        Some((state as u8, (sought - self.offsets[state]) as u8))
    }

    /// The first state whose stretches end past the number sought.
    fn state_of(&self, sought: u16) -> Option<usize>
        ensures { result ≡ position (nat_lt sought) (take self.now.draft.states.count (drop 1 self.now.offsets)) }
    {
        // Only up to the count: over the whole array the compiler, which knows its length, makes code that compares every end.
        self.offsets[1..=usize::from(self.draft.states.count)]
            .iter()
            .position(|end| sought < *end)
    }
}
