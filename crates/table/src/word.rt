//! Timed words, and the steps that a machine makes along one.

/// One step of a machine: a tick of its clock, or an input taken.
#[derive(Clone, Copy, Debug, PartialEq, Eq)]
pub enum Step {
    Tick,
    Take(u8),
}

/// An entry of a timed word: a wait in q-ths of a day, and then an input.
#[derive(Clone, Copy, Debug, PartialEq, Eq)]
pub struct Entry {
    pub wait: u32,
    pub input: u8,
}
