//! The partner that a state has in an alike machine.

ghost use Rattle.std.specs.Prelude.{◌≡◌, ◌↔◌, IsTrue};
ghost use Rattle.table.specs.Means.{means};
ghost use Rattle.compare.specs.Partner.{Partner, CellsSearched};
ghost use Rattle.compare.specs.Search.{at};

use crate::cell::Cell;
use crate::search::pair_number;
use table::machine::Machine;

/// Whether the pair of a number is marked as seen.
fn is_seen(cells: &[Cell], number: usize) -> bool
    ensures { IsTrue result ↔ ((at cells.now number).seen ≡ 1) }
{
    cells.get(number).is_some_and(|cell| cell.seen == 1)
}

/// A state of the right machine to which some string leads when it leads the left one to `state`, by the cells of a whole search.
pub fn partner<M: Machine, N: Machine>(
    left: &M,
    right: &N,
    cells: &[Cell],
    state: u16,
) -> Option<u16>
    ensures { CellsSearched (means M.Machine left.now) (means N.Machine right.now) cells.now → Partner (means M.Machine left.now) (means N.Machine right.now) state result }
{
    if state >= left.count() {
        return None;
    }
    let width = right.count();
    (0..width).find(|other| is_seen(cells, pair_number(width, state, *other)))
}
