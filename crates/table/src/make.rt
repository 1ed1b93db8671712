//! How a book comes to be: fresh, or from a draft that is sound.

ghost use Rattle.std.specs.Prelude.{◌≡◌, Some, None, MatchResult};
ghost use Rattle.text.specs.Draft.{Ranged};
ghost use Rattle.table.specs.Fresh.{fresh_draft};
ghost use Rattle.table.specs.Sound.{draft_fault};
ghost use Rattle.table.specs.Soundness.{SoundTable};

use crate::book::Book;
use crate::fault::TableFault;
use crate::table::Table;
use text::draft::{Draft, End, Guard, High, NO_ROW, Row, State, UpTo};
use text::limits::{MAX_ROWS, MAX_STATES};

/// The draft of one stay state that answers its one input at any clock.
fn fresh() -> Draft
    ensures { result ≡ fresh_draft }
{
    let always = Guard {
        low: 0,
        end: End::Shut,
        high: High::Inf,
    };
    let mut all = [NO_ROW; MAX_ROWS];
    all[0] = Row {
        guard: always,
        ..NO_ROW
    };
    Draft {
        inputs: 1,
        outputs: 1,
        states: UpTo {
            count: 1,
            all: [State::Stay; MAX_STATES],
        },
        rows: UpTo { count: 1, all },
    }
}

impl Book {
    /// A fresh book: one input, one output, one stay state and one row. It is sound, as every book is.
    pub fn new() -> Book
        ensures fresh { result.draft ≡ fresh_draft }
        ensures sound { (b : Book) → SoundTable b.draft }
    {
        let draft = fresh();
        let offsets = Table { draft: &draft }.offsets();
        Book { draft, offsets }
    }

    /// The book of the draft, or the draft's first fault. Here alone the ranges are a premise: a table carries them from here on.
    pub(crate) fn from_draft(draft: Draft) -> Result<Book, TableFault>
        requires { Ranged draft }
        ensures { MatchResult result (λ b. (b.draft ≡ draft) × (draft_fault draft ≡ None)) (λ f. draft_fault draft ≡ Some f) }
    {
        let table = Table { draft: &draft };
        table.check()?;
        let offsets = table.offsets();
        Ok(Book { draft, offsets })
    }
}
