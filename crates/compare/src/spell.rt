//! Reading a word off the parents of the queue, from the back. The two walks share no iterator over the parents: it would have to be
//! proved to end, and would be longer than the two lines that each walk has for it.

ghost use Rattle.std.specs.Prelude.{◌≡◌, ◌+◌, ◌-◌, ◌<◌, ◌≤◌, length, take, drop};
ghost use Rattle.compare.specs.Search.{max_pairs};
ghost use Rattle.compare.specs.Spell.{one_take, Chained, Counted, Tallied, Spelled};

use crate::cell::{Cell, numbered_step};
use crate::search::Found;
use table::word::{Entry, Step};

/// How many entries a step adds to a word: one for a take.
fn entries_of(step: Step) -> u32
    ensures is { result ≡ one_take step }
    ensures few { result ≤ 1 }
{
    match step {
        Step::Tick => 0,
        Step::Take(_) => 1,
    }
}

/// How many entries the word has that leads to the item at `place` and then takes one input more.
pub(crate) fn count_entries(cells: &[Cell], place: usize) -> u32
    requires inside { place < length cells.now }
    requires few { length cells.now ≤ max_pairs }
    requires chained { Chained cells.now place }
    ensures tallied { Tallied cells.now place 0 result }
    ensures short { (result ≤ place + 1) × (0 < result) }
{
    let mut item = place;
    let mut entries: u32 = 1;
    while item > 0 {
        let cell = cells[item];
        entries += entries_of(numbered_step(cell.step));
        item = cell.parent as usize;
    }
    entries
}

/// Writes that word at the start of the buffer, from its last entry to its first.
pub(crate) fn spell(cells: &[Cell], found: Found, entries: usize, word: &mut [Entry])
    requires inside { found.place < length cells.now }
    requires few { length cells.now ≤ max_pairs }
    requires room { entries ≤ length word.old }
    requires some { 0 < entries }
    requires counted { Counted cells.now found.place found.place (entries - 1) }
    ensures written { Spelled cells.now found.place found.input 0 (take entries word.new) }
    ensures rest { drop entries word.new ≡ drop entries word.old }
{
    let mut item = found.place;
    // Counted by hand, from the back: the steps say when the slot moves.
    let mut slot = entries - 1;
    let mut wait: u32 = 0;
    let mut next = found.input;
    while item > 0 {
        let cell = cells[item];
        match numbered_step(cell.step) {
            Step::Tick => {
                wait += 1;
            }
            Step::Take(earlier) => {
                word[slot] = Entry { wait, input: next };
                slot -= 1;
                wait = 0;
                next = earlier;
            }
        }
        item = cell.parent as usize;
    }
    word[slot] = Entry { wait, input: next };
}
