//! A book: a sound draft, with the numbers of its states as a machine.

ghost use Rattle.std.specs.Prelude.{◌≡◌};
ghost use Rattle.text.specs.Draft.{Sized};
ghost use Rattle.table.specs.Sound.{Sound};
ghost use Rattle.table.specs.Offsets.{Offsets, ZerosBehind};

use crate::limits::MAX_OFFSETS;
use crate::table::Table;
use text::draft::Draft;

/// A sound book. Every book that exists is one.
#[derive(Clone, Copy, Debug, PartialEq, Eq)]
pub struct Book {
    pub(crate) draft: Draft,
    // the number at which each state's stretches begin, and past them the number of all; kept, so that a step counts no rows again
    pub(crate) offsets: [u16; MAX_OFFSETS],
    ghost sound: { Sound draft },
    ghost sized: { Sized draft },
    ghost numbered: { Offsets draft offsets },
    ghost offsets_padded: { ZerosBehind draft offsets },
}

impl Book {
    /// The book's table.
    pub(crate) fn table(&self) -> Table<'_>
        ensures { result.draft.now ≡ self.now.draft }
    {
        Table { draft: &self.draft }
    }
}
