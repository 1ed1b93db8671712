//! Reading and writing a book.

ghost use Rattle.table.specs.Read.{ReadsBook, WritesText};

use crate::book::Book;
use crate::fault::TableFault;
use text::read::read_draft;
use text::write::write_draft;

impl Book {
    /// Becomes the book that a text writes from a place on and answers the place where its last part ends;
    /// a text that is refused leaves the book.
    pub fn read_from(&mut self, text: &[u8], from: usize) -> Result<usize, TableFault>
        ensures { ReadsBook text.now from self.old self.new result }
    {
        let (draft, end) = read_draft(text, from)?;
        *self = Book::from_draft(draft)?;
        Ok(end)
    }

    /// Becomes the book that a text writes and answers how many of its bytes it takes, to the end of its
    /// last part; a text that is refused leaves the book.
    pub fn read(&mut self, text: &[u8]) -> Result<usize, TableFault>
        ensures { ReadsBook text.now 0 self.old self.new result }
    {
        self.read_from(text, 0)
    }

    /// Writes the book's text from the buffer's start and answers how many places it filled; a buffer that
    /// is too short stays as it is.
    pub fn write(&self, buffer: &mut [u8]) -> Result<usize, TableFault>
        ensures { WritesText self.now buffer.old buffer.new result }
    {
        write_draft(&self.draft, buffer).map_err(TableFault::Text)
    }
}
