//! The cells that a caller lends to a comparison.

ghost use Rattle.std.specs.Prelude.{◌≡◌, ◌≤◌};
ghost use Rattle.text.specs.Limits.{max_inputs};
ghost use Rattle.compare.specs.Cell.{blank, AllBlank, number_of, step_of};

use table::word::Step;

/// A cell of the search, which serves twice: as a place of the queue it holds a pair of states, the place of
/// the pair that it was reached from and the step that led to it; by the number of a pair it says whether the pair was seen.
/// A record of plain integers, at most 12 bytes, as the project has it: `step` and `seen` are numbers, and blank is every byte zero.
#[derive(Clone, Copy, Debug, PartialEq, Eq)]
pub struct Cell {
    pub(crate) left: u16,
    pub(crate) right: u16,
    pub(crate) parent: u32,
    pub(crate) step: u16,
    pub(crate) seen: u16,
}

/// The cell that holds nothing.
pub const BLANK: Cell = Cell {
    left: 0,
    right: 0,
    parent: 0,
    step: 0,
    seen: 0,
};

impl Cell {
    /// The cell that holds nothing, as a call; an array of cells is made of the constant.
    pub fn blank() -> Cell
        ensures { result ≡ blank }
    {
        BLANK
    }
}

/// The number of a step in a cell: 0 for a tick, and above it the inputs. No `From`: neither of its types is of this crate.
pub fn step_number(step: Step) -> u16
    ensures { result ≡ number_of step }
{
    match step {
        Step::Tick => 0,
        Step::Take(input) => u16::from(input) + 1,
    }
}

/// The step that has a number, of the steps of a machine; no `From`, likewise.
pub(crate) fn numbered_step(number: u16) -> Step
    requires { number ≤ max_inputs }
    ensures { result ≡ step_of number }
{
    if number == 0 {
        Step::Tick
    } else {
        Step::Take((number - 1) as u8)
    }
}

/// Makes every cell blank.
pub fn clear(cells: &mut [Cell])
    ensures { AllBlank cells.new }
{
    cells.fill(BLANK);
}
