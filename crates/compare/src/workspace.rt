//! The cells that a comparison borrows, made blank at its end.

ghost use Rattle.compare.specs.Cell.{AllBlank};

use crate::cell::{Cell, clear};

/// Borrows the cells for as long as a comparison goes on, and leaves every one of them blank.
pub struct Workspace<'a> {
    pub cells: &'a mut [Cell],
}

impl Drop for Workspace<'_> {
    fn drop(self)
        ensures { AllBlank self.exit.0.now }
    {
        let Workspace { cells } = self;
        clear(cells);
    }
}
