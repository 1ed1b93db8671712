//! What a judge has to report.

use crate::compare::Verdict;
use crate::fault::CompareFault;

/// What was found of two books: their numbers of states as machines, and the verdict on them.
#[derive(Clone, Copy, Debug, PartialEq, Eq)]
pub struct Finding {
    pub left: u16,
    pub right: u16,
    pub verdict: Verdict,
}

/// Which book is refused, and why. A judge refuses book 1 or 2. The number stays a `u8`, for no call may come to take less than
/// it took (a rule of the project): a report writes any number of a book.
#[derive(Clone, Copy, Debug, PartialEq, Eq)]
pub struct Refusal {
    pub book: u8,
    pub fault: CompareFault,
}

/// The outcome of judging two books.
pub type Outcome = Result<Finding, Refusal>;
