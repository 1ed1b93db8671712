//! Why a book, an allowance or a view is refused.

ghost use Rattle.std.specs.Prelude.{◌≡◌};
ghost use Rattle.table.specs.Fault.{number_of, layer_of, place_of};
ghost use Rattle.table.specs.declared.fault.TableFault.TheVariants as refusal;

use text::fault::TextFault;

/// A state, an input of it and a stretch of it.
#[derive(Clone, Copy, Debug, PartialEq, Eq)]
pub struct Spot {
    pub state: u8,
    pub input: u8,
    pub stretch: u8,
}

/// A refusal of this layer, or of the text below it.
#[derive(Clone, Copy, Debug, PartialEq, Eq)]
pub enum TableFault {
    /// The text is refused.
    Text(TextFault),
    /// No clock lies in the guard of the row.
    EmptyGuard { row: u16 },
    /// The guard of the row holds a clock that its state never shows.
    PastTimeout { row: u16 },
    /// Two rows answer one input in one stretch.
    TwoRows(Spot),
    /// No row answers an input in a stretch.
    NoRow(Spot),
    /// An allowance has no such number of landings.
    Landings,
    /// An allowance has no such number of quiet days.
    QuietDays,
    /// An entry of a view's table is no output.
    Output { entry: u8 },
}

/// Where a refusal comes: at a byte, a row or an entry, or at a stretch of a state and an input.
#[derive(Clone, Copy, Debug, PartialEq, Eq)]
pub enum Place {
    At(usize),
    Spot(Spot),
}

impl TableFault {
    /// The number of the fault.
    pub fn number(self) -> u8
        ensures { result ≡ number_of self }
    {
        match self {
            TableFault::Text(fault) => fault.number(),
            TableFault::EmptyGuard { .. } => 21,
            TableFault::PastTimeout { .. } => 22,
            TableFault::TwoRows(_) => 23,
            TableFault::NoRow(_) => 24,
            TableFault::Landings => 25,
            TableFault::QuietDays => 26,
            TableFault::Output { .. } => 27,
        }
    }

    /// The layer that refuses. Each layer answers for itself and asks the one below for its own; a trait would be no plainer.
    pub fn layer(self) -> &'static str
        ensures { result.now ≡ layer_of self }
    {
        match self {
            TableFault::Text(fault) => fault.layer(),
            _ => "table",
        }
    }

    /// The place of the fault, where it has one.
    pub fn place(self) -> Option<Place>
        ensures { result ≡ place_of self }
    {
        match self {
            TableFault::Text(fault) => fault.place().map(Place::At),
            TableFault::EmptyGuard { row } | TableFault::PastTimeout { row } => {
                Some(Place::At(usize::from(row)))
            }
            TableFault::TwoRows(spot) | TableFault::NoRow(spot) => Some(Place::Spot(spot)),
            TableFault::Landings | TableFault::QuietDays => None,
            TableFault::Output { entry } => Some(Place::At(usize::from(entry))),
        }
    }
}

impl From<TextFault> for TableFault {
    ghost from_gives = { λ fault r. r ≡ refusal.Text fault };

    fn from(fault: TextFault) -> TableFault {
        TableFault::Text(fault)
    }
}
