//! Comparing two machines: a word of fewest steps that tells them apart, or none.

ghost use Rattle.std.specs.Prelude.{◌≡◌, ◌*◌, ◌^◌, ◌<◌, ◌≤◌, length, take};
ghost use Rattle.table.specs.Means.{means};
ghost use Rattle.table.specs.Word.{steps};
ghost use Rattle.compare.specs.Cell.{AllBlank};
ghost use Rattle.compare.specs.declared.compare.Verdict.TheVariants.{Different};
ghost use Rattle.compare.specs.Compare.{cells_needed, entries_needed, Decided, Compared};
ghost use Rattle.compare.specs.Machines.{left_of, right_of};
ghost use Rattle.compare.specs.Partner.{SearchedIfAlike};
ghost use Rattle.compare.specs.Search.{Fresh, Searched};

use crate::cell::{Cell, clear};
use crate::fault::CompareFault;
use crate::search::Machines;
use crate::spell::{count_entries, spell};
use crate::workspace::Workspace;
use table::grain::Grain;
use table::machine::Machine;
use table::word::Entry;

/// What a comparison finds: alike, or different with the counts of steps and entries of a word that tells the two apart.
/// An enum of its own, and no `Option`: both are answers, and their names are the subject's words.
#[derive(Clone, Copy, Debug, PartialEq, Eq)]
pub enum Verdict {
    Alike,
    Different { steps: u32, entries: u32 },
}

/// How many pairs of states the two have.
fn count_pairs<M: Machine, N: Machine>(left: &M, right: &N) -> usize
    ensures { result ≡ M.count left.now * N.count right.now }
{
    usize::from(left.count()) * usize::from(right.count())
}

/// How many cells a comparison of the two needs: one for each pair of states.
pub fn cells_needed<M: Machine, N: Machine>(left: &M, right: &N) -> usize
    ensures { result ≡ cells_needed (means M.Machine left.now) (means N.Machine right.now) }
{
    count_pairs(left, right)
}

/// How many word entries a comparison of the two needs.
pub fn entries_needed<M: Machine, N: Machine>(left: &M, right: &N) -> usize
    ensures { result ≡ entries_needed (means M.Machine left.now) (means N.Machine right.now) }
{
    count_pairs(left, right)
}

/// The verdict with the counts of the word that the first entries of the buffer are.
fn different(word: &[Entry], entries: u32) -> Verdict
    requires inside { entries ≤ length word.now }
    requires few { steps 2 (take entries word.now) < 2 ^ 32 }
    ensures { result ≡ Different (steps 2 (take entries word.now)) entries }
{
    let steps = Grain::half_days().steps(&word[0..entries as usize]) as u32;
    Verdict::Different { steps, entries }
}

/// Searches the pairs of states in blank cells, one for each pair, and writes the word that was found.
fn decide<M: Machine, N: Machine>(
    machines: &Machines<M, N>,
    cells: &mut [Cell],
    word: &mut [Entry],
) -> Verdict
    requires fresh { Fresh (left_of machines.now) (right_of machines.now) cells.old }
    requires entries { entries_needed (left_of machines.now) (right_of machines.now) ≤ length word.old }
    ensures decided { Decided (left_of machines.now) (right_of machines.now) result word.old word.new }
    ensures searched { result ≡ Verdict.Alike → Searched (left_of machines.now) (right_of machines.now) cells.new }
{
    match machines.search(cells) {
        Ok(()) => Verdict::Alike,
        Err(found) => {
            let entries = count_entries(cells, found.place);
            spell(cells, found, entries as usize, word);
            different(word, entries)
        }
    }
}

// The public calls take the two machines apart, as their callers hold them: a caller builds no `Machines`.

/// Compares two machines over cells that may hold anything, and leaves in them what the search wrote, for `partner` to read.
pub fn compare_in<M: Machine, N: Machine>(
    left: &M,
    right: &N,
    cells: &mut [Cell],
    word: &mut [Entry],
) -> Result<Verdict, CompareFault>
    ensures compared { Compared (means M.Machine left.now) (means N.Machine right.now) (length cells.old) result word.old word.new }
    ensures searched { SearchedIfAlike (means M.Machine left.now) (means N.Machine right.now) result cells.new }
{
    if left.inputs() != right.inputs() {
        return Err(CompareFault::Inputs);
    }
    let machines = Machines { left, right };
    let needed = cells_needed(left, right);
    if cells.len() < needed {
        return Err(CompareFault::Cells);
    }
    if word.len() < entries_needed(left, right) {
        return Err(CompareFault::Entries);
    }
    let part = &mut cells[0..needed];
    clear(part);
    Ok(decide(&machines, part, word))
}

/// Compares two machines: alike, or different with a word of fewest steps at the buffer's start. Every cell is blank at the end.
pub fn compare<M: Machine, N: Machine>(
    left: &M,
    right: &N,
    cells: &mut [Cell],
    word: &mut [Entry],
) -> Result<Verdict, CompareFault>
    ensures blank { AllBlank cells.new }
    ensures compared { Compared (means M.Machine left.now) (means N.Machine right.now) (length cells.old) result word.old word.new }
{
    let work = Workspace { cells };
    compare_in(left, right, work.cells, word)
}
