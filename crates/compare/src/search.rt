//! The breadth-first search for a pair of states at which some input draws different outputs.

ghost use Rattle.std.specs.Prelude.{◌≡◌, ◌+◌, ◌-◌, ◌*◌, ◌^◌, ◌<◌, ◌≢◌, length, MatchResult};
ghost use Rattle.compare.specs.Cell.{number_of};
ghost use Rattle.compare.specs.Search.{at, placed, marked, Fresh, pair_number, Inside, NextItem, Taken, Queueing, Holds, Visited, Searched, Told};

use crate::cell::{Cell, step_number};
use table::machine::Machine;
use table::word::Step;

/// Where the search stopped: the place of a pair in the queue, and an input at which its outputs differ.
#[derive(Clone, Copy, Debug, PartialEq, Eq)]
pub(crate) struct Found {
    pub(crate) place: usize,
    pub(crate) input: u8,
}

/// The number of a pair of states, with `width` states on the right.
pub(crate) fn pair_number(width: u16, left: u16, right: u16) -> usize
    ensures { result ≡ pair_number width left right }
{
    usize::from(left) * usize::from(width) + usize::from(right)
}

/// The item for a pair of states to which `step` led from the item at `parent`.
fn item(left: u16, right: u16, parent: usize, step: Step) -> Cell
    requires { parent < 2 ^ 32 }
    ensures { result ≡ record { left = left; right = right; parent = parent; step = number_of step; seen = 0 } }
{
    Cell {
        left,
        right,
        parent: parent as u32,
        step: step_number(step),
        seen: 0,
    }
}

/// Writes an item at the end of the queue, and marks its pair as seen.
fn place(cells: &mut [Cell], tail: usize, item: Cell, number: usize)
    requires { (tail < length cells.old) × (number < length cells.old) }
    ensures { cells.new ≡ marked (placed cells.old tail item) number }
{
    cells[tail] = Cell {
        seen: cells[tail].seen,
        ..item
    };
    cells[number] = Cell {
        seen: 1,
        ..cells[number]
    };
}

/// Queues an item unless its pair is seen, and answers where the queue then ends.
fn queue(cells: &mut [Cell], width: u16, tail: usize, item: Cell) -> usize
    requires inside { pair_number width item.left item.right < length cells.old }
    requires room { (at cells.old (pair_number width item.left item.right)).seen ≢ 1 → tail < length cells.old }
    ensures { Queueing width cells.old cells.new tail item result }
{
    let number = pair_number(width, item.left, item.right);
    if cells[number].seen == 1 {
        return tail;
    }
    place(cells, tail, item, number);
    tail + 1
}

/// Two machines that take the same inputs. The cells are no field, which would be no plainer: each method that writes them
/// would have to promise that the machines stay as they are.
#[derive(Drop)]
pub(crate) struct Machines<'a, M: Machine, N: Machine> {
    pub(crate) left: &'a M,
    pub(crate) right: &'a N,
    ghost same_inputs: { M.inputs left.now ≡ N.inputs right.now },
}

impl<M: Machine, N: Machine> Machines<'_, M, N> {
    ghost use Rattle.compare.specs.Machines.{left_of, right_of};

    /// The item that a tick leads to, from an item and its place.
    fn ticked(&self, from: Cell, place: usize) -> Cell
        requires inside { Inside (left_of self.now) (right_of self.now) from }
        requires few { place < 2 ^ 32 }
        ensures { NextItem (left_of self.now) (right_of self.now) from place Step.Tick result }
    {
        let left = self.left.tick(from.left).unwrap();
        let right = self.right.tick(from.right).unwrap();
        item(left, right, place, Step::Tick)
    }

    /// The item that an input leads to, from an item and its place; refused where the outputs differ.
    fn taken(&self, from: Cell, place: usize, input: u8) -> Result<Cell, Found>
        requires inside { Inside (left_of self.now) (right_of self.now) from }
        requires few { place < 2 ^ 32 }
        requires input { input < M.inputs self.now.left.now }
        ensures { Taken (left_of self.now) (right_of self.now) from place input result }
    {
        let (left, drawn_left) = self.left.take(from.left, input).unwrap();
        let (right, drawn_right) = self.right.take(from.right, input).unwrap();
        if drawn_left != drawn_right {
            return Err(Found { place, input });
        }
        Ok(item(left, right, place, Step::Take(input)))
    }

    /// Steps the pair at the head of the queue by a tick and by each input, queues the pairs that it comes to and
    /// answers where the queue then ends; refused at an input at which the outputs differ.
    fn visit_head(&self, cells: &mut [Cell], head: usize, tail: usize) -> Result<usize, Found>
        requires room { length cells.old ≡ M.count self.now.left.now * N.count self.now.right.now }
        requires more { head < tail }
        requires holds { Holds (left_of self.now) (right_of self.now) cells.old tail head 0 }
        ensures { Visited (left_of self.now) (right_of self.now) cells.new head result }
    {
        let from = cells[head];
        let width = self.right.count();
        let mut end = queue(cells, width, tail, self.ticked(from, head));
        for input in 0..self.left.inputs() {
            let next = self.taken(from, head, input)?;
            end = queue(cells, width, end, next);
        }
        Ok(end)
    }

    /// Visits the pairs that strings of steps lead to, nearest first; refused at one at which some input draws different outputs.
    pub(crate) fn search(&self, cells: &mut [Cell]) -> Result<(), Found>
        requires { Fresh (left_of self.now) (right_of self.now) cells.old }
        ensures { MatchResult result (λ _. Searched (left_of self.now) (right_of self.now) cells.new) (λ f. Told (left_of self.now) (right_of self.now) cells.new f.place f.input) }
    {
        let first = item(self.left.start(), self.right.start(), 0, Step::Tick);
        let mut head: usize = 0;
        let mut tail = queue(cells, self.right.count(), 0, first);
        // A `for` over a range would be no plainer: the queue's end moves while the search runs.
        while head < tail {
            tail = self.visit_head(cells, head, tail)?;
            head += 1;
        }
        Ok(())
    }
}
