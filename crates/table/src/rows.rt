//! The rows that answer an input in a state and a stretch.

ghost use Rattle.std.specs.Prelude.{◌≡◌, take, not, ◌==◌};
ghost use Rattle.table.specs.Rows.{belongs, covers, rows_of, rows_at, row_number};

use crate::fault::Spot;
use crate::guard::has_stretch;
use crate::table::Table;
use text::draft::Row;

/// Whether the row is one of the state and the input.
fn belongs_to(row: Row, state: u8, input: u8) -> bool
    ensures { result ≡ belongs state input row }
{
    row.state == state && row.input == input
}

/// Whether the row is one of the state and the input, and contains the stretch.
fn covers_spot(row: Row, spot: Spot) -> bool
    ensures { result ≡ covers spot.state spot.input spot.stretch row }
{
    belongs_to(row, spot.state, spot.input) && has_stretch(row.guard, spot.stretch)
}

impl<'a> Table<'a> {
    /// The rows.
    pub(crate) fn rows(self) -> &'a [Row]
        ensures { result.now ≡ take self.entry.draft.now.rows.count self.entry.draft.now.rows.all }
    {
        // Not by `as_slice`, which has to bound the count: a table carries that it fits.
        let rows = &self.draft.rows;
        &rows.all[..usize::from(rows.count)]
    }

    /// Whether some row belongs to the state and the input.
    pub(crate) fn has_rows_of(self, state: u8, input: u8) -> bool
        ensures { result ≡ not (rows_of self.entry.draft.now state input == 0) }
    {
        self.rows().iter().any(|row| belongs_to(*row, state, input))
    }

    /// How many rows contain the stretch.
    pub(crate) fn count_rows_at(self, spot: Spot) -> usize
        ensures { result ≡ rows_at self.entry.draft.now spot.state spot.input spot.stretch }
    {
        self.rows()
            .iter()
            .filter(|row| covers_spot(**row, spot))
            .count()
    }

    /// The number of the first row that contains the stretch.
    pub(crate) fn row_number_at(self, spot: Spot) -> Option<usize>
        ensures { result ≡ row_number self.entry.draft.now spot.state spot.input spot.stretch }
    {
        self.rows().iter().position(|row| covers_spot(*row, spot))
    }
}
