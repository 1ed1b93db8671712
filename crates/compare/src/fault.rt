//! Why a comparison is refused.

ghost use Rattle.std.specs.Prelude.{◌≡◌};
ghost use Rattle.compare.specs.Fault.{number_of, layer_of, place_of};
ghost use Rattle.compare.specs.declared.fault.CompareFault.TheVariants as refusal;

use table::fault::{Place, TableFault};

/// A refusal of this layer, or of the table below it.
#[derive(Clone, Copy, Debug, PartialEq, Eq)]
pub enum CompareFault {
    /// A book is refused.
    Table(TableFault),
    /// The machines have different numbers of inputs.
    Inputs,
    /// There are too few cells.
    Cells,
    /// The word buffer has too few entries.
    Entries,
    /// The report buffer has too few bytes.
    Report,
}

impl CompareFault {
    /// The number of the fault.
    pub fn number(self) -> u8
        ensures { result ≡ number_of self }
    {
        match self {
            CompareFault::Table(fault) => fault.number(),
            CompareFault::Inputs => 31,
            CompareFault::Cells => 32,
            CompareFault::Entries => 33,
            CompareFault::Report => 35,
        }
    }

    /// The layer that refuses. Each layer answers for itself and asks the one below for its own; a trait would be no plainer.
    pub fn layer(self) -> &'static str
        ensures { result.now ≡ layer_of self }
    {
        match self {
            CompareFault::Table(fault) => fault.layer(),
            _ => "compare",
        }
    }

    /// The place of the fault.
    pub fn place(self) -> Option<Place>
        ensures { result ≡ place_of self }
    {
        match self {
            CompareFault::Table(fault) => fault.place(),
            _ => None,
        }
    }
}

impl From<TableFault> for CompareFault {
    ghost from_gives = { λ fault r. r ≡ refusal.Table fault };

    fn from(fault: TableFault) -> CompareFault {
        CompareFault::Table(fault)
    }
}
