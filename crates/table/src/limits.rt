//! The limits of an allowance, and the sizes of arrays.

use text::limits::{MAX_OUTPUTS, MAX_STATES};

/// The most landings of an allowance.
pub const MAX_LANDINGS: u8 = 15;
/// The entries of a view's table: one for each output.
pub const OUTPUT_ENTRIES: usize = MAX_OUTPUTS as usize;
/// The offsets of a book: one for each state, and one past the last.
pub(crate) const MAX_OFFSETS: usize = MAX_STATES + 1;
