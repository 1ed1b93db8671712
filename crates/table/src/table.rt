//! A lent draft whose numbers lie in their ranges, and its states.

ghost use Rattle.std.specs.Prelude.{◌≡◌, ◌<◌};
ghost use Rattle.text.specs.Draft.{Formed, state_at};

use text::draft::{Draft, State};

/// A draft that can be asked for its rows and its stretches, and checked: its numbers lie in their ranges.
#[derive(Clone, Copy)]
pub(crate) struct Table<'a> {
    pub(crate) draft: &'a Draft,
    ghost formed: { Formed draft.now },
}

/// One of the states of a table.
#[derive(Clone, Copy)]
pub(crate) struct TableState<'a> {
    pub(crate) table: Table<'a>,
    pub(crate) number: u8,
    ghost inside: { number < table.draft.now.states.count },
}

impl TableState<'_> {
    /// Whether it stays or holds, and until when.
    pub(crate) fn kind(self) -> State
        ensures { result ≡ state_at self.entry.table.draft.now self.entry.number }
    {
        self.table.draft.states.all[usize::from(self.number)]
    }
}
