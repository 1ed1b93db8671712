//! What a text says of a book, before the table is checked.

ghost use Rattle.std.specs.Prelude.{◌≡◌, take};

use crate::limits::{MAX_ROWS, MAX_STATES};

/// Whether the end of a guard belongs to it.
#[derive(Clone, Copy, Debug, PartialEq, Eq)]
pub enum End {
    Shut,
    Open,
}

/// The high end of a guard. No `Option`: `inf` is an end behind all clocks, and not the lack of one.
#[derive(Clone, Copy, Debug, PartialEq, Eq)]
pub enum High {
    At(u8, End),
    Inf,
}

/// The clocks, in days, at which a row answers.
#[derive(Clone, Copy, Debug, PartialEq, Eq)]
pub struct Guard {
    pub low: u8,
    pub end: End,
    pub high: High,
}

/// A row: at a state, an input and a clock in the guard it gives the output and goes to the next state.
#[derive(Clone, Copy, Debug, PartialEq, Eq)]
pub struct Row {
    pub state: u8,
    pub input: u8,
    pub guard: Guard,
    pub output: u8,
    pub next: u8,
}

/// What stands at a place past the last row.
pub const NO_ROW: Row = Row {
    state: 0,
    input: 0,
    guard: Guard {
        low: 0,
        end: End::Shut,
        high: High::At(0, End::Shut),
    },
    output: 0,
    next: 0,
};

/// A state keeps its share until an input comes, or leaves for its target when the clock reaches its timeout.
/// No `Option`: the names are the two words of the format.
#[derive(Clone, Copy, Debug, PartialEq, Eq)]
pub enum State {
    Stay,
    Hold { timeout: u8, target: u8 },
}

/// At most `N` values: the first `count` places. No `ArrayVec`, which is not `Copy`, as a draft is; and the ranges of a draft say
/// what stands at the places past the count.
#[derive(Clone, Copy, Debug, PartialEq, Eq)]
pub struct UpTo<T, const N: usize> {
    pub count: u16,
    pub all: [T; N],
}

impl<T, const N: usize> UpTo<T, N> {
    /// The values.
    pub fn as_slice(&self) -> &[T]
        ensures { result.now ≡ take self.now.count self.now.all }
    {
        let all = self.all.as_slice();
        &all[..all.len().min(usize::from(self.count))]
    }
}

/// A book as its text writes it.
#[derive(Clone, Copy, Debug, PartialEq, Eq)]
pub struct Draft {
    pub inputs: u8,
    pub outputs: u8,
    pub states: UpTo<State, MAX_STATES>,
    pub rows: UpTo<Row, MAX_ROWS>,
}
