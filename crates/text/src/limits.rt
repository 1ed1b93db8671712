//! The limits of a book and of its text.

/// The most inputs of a book.
pub const MAX_INPUTS: u8 = 8;
/// The most outputs of a book.
pub const MAX_OUTPUTS: u8 = 32;
/// The most states of a book.
pub const MAX_STATES: usize = 16;
/// The most rows of a book.
pub const MAX_ROWS: usize = 256;
/// The greatest day that a guard's end or a timeout can name.
pub const MAX_DAYS: u8 = 31;
/// The most bytes of a text.
pub const MAX_BYTES: usize = 16_384;
