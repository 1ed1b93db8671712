//! Judging two books that stand one behind the other in a text.

ghost use Rattle.std.specs.Prelude.{◌≡◌, ◌≤◌, length, IfOk};
ghost use Rattle.compare.specs.Cell.{AllBlank};
ghost use Rattle.compare.specs.Judge.{refusing, books_of, drafts_of, Judged, Finds};

use crate::cell::Cell;
use crate::compare::compare_in;
use crate::fault::CompareFault;
use crate::outcome::{Finding, Outcome, Refusal};
use crate::report::write_report;
use crate::workspace::Workspace;
use table::book::Book;
use table::fault::TableFault;
use table::machine::Machine;
use table::word::Entry;
use text::fault::TextFault;
use text::lexer::first_part;

// A fault in reading a book.
fn refusing(book: u8, fault: TableFault) -> Refusal
    ensures { result ≡ refusing book fault }
{
    Refusal {
        book,
        fault: fault.into(),
    }
}

// The two books of an input.
fn read_books(input: &[u8]) -> Result<(Book, Book), Refusal>
    ensures { books_of input.now ≡ drafts_of result }
{
    let mut left = Book::new();
    let behind = left.read(input).map_err(|fault| refusing(1, fault))?;
    let mut right = Book::new();
    let end = right
        .read_from(input, behind)
        .map_err(|fault| refusing(2, fault))?;
    match first_part(input, end) {
        Some(at) => Err(refusing(2, TextFault::Trailing { at }.into())),
        None => Ok((left, right)),
    }
}

// Reads two books and compares them.
fn find_outcome(input: &[u8], cells: &mut [Cell], word: &mut [Entry]) -> Outcome
    ensures { Finds (books_of input.now) (length cells.old) word.old word.new result }
{
    let (left, right) = read_books(input)?;
    let verdict = compare_in(&left, &right, cells, word).map_err(|fault| Refusal {
        book: 2,
        fault,
    })?;
    Ok(Finding {
        left: left.count(),
        right: right.count(),
        verdict,
    })
}

/// Reads two books from an input, compares them, writes the report from the buffer's start and answers how
/// many places it filled. Every cell is blank afterwards.
pub fn judge(
    input: &[u8],
    cells: &mut [Cell],
    word: &mut [Entry],
    report: &mut [u8],
) -> Result<usize, CompareFault>
    ensures blank { AllBlank cells.new }
    ensures judged { Judged (books_of input.now) (length cells.old) word.old word.new report.old report.new result }
    ensures within { IfOk result (λ n. n ≤ length report.old) }
{
    let work = Workspace { cells };
    let outcome = find_outcome(input, work.cells, word);
    write_report(report, outcome, word)
}
