//! Books that are written and read back, and buffers of any length to write them to.

use crate::books::*;
use crate::machines::book;
use crate::reading::*;
use arrayvec::ArrayString;
use std::process::Abort;
use std::test::Fail;
use table::book::Book;

/// Canonical texts of many kinds of books.
const VARIED: [&str; 12] = [
    "inputs 1\noutputs 5\nstates 3\nstay\nhold 16 2\nstay\nrows 5\n2 0 [0,0] 4 0\n2 0 (0,17) 2 0\n1 0 [0,16) 3 1\n0 0 [0,inf) 0 1\n2 0 [17,inf) 0 0\n",
    "inputs 1\noutputs 9\nstates 3\nhold 16 2\nhold 20 0\nhold 16 1\nrows 5\n0 0 [0,7) 6 2\n0 0 [7,15] 2 0\n2 0 [0,16) 4 0\n1 0 [0,20) 2 2\n0 0 (15,16) 2 2\n",
    "inputs 3\noutputs 17\nstates 3\nhold 31 2\nhold 17 0\nhold 25 0\nrows 15\n1 2 [0,4) 0 0\n1 2 [4,14) 6 0\n2 0 [6,25) 6 1\n2 0 [0,6) 5 2\n0 1 [0,31) 0 2\n1 1 [0,17) 4 2\n0 0 (3,31) 3 2\n0 2 [0,31) 13 1\n0 0 [1,3] 12 2\n1 0 [0,17) 12 0\n2 1 [0,0] 13 0\n0 0 [0,1) 15 0\n2 2 [0,25) 10 1\n1 2 [14,17) 5 1\n2 1 (0,25) 4 1\n",
    "inputs 2\noutputs 10\nstates 4\nhold 3 0\nstay\nstay\nhold 2 0\nrows 16\n2 0 [19,inf) 9 0\n2 0 [6,19) 8 0\n1 1 [0,14) 8 1\n1 0 [0,inf) 9 0\n2 1 [0,13] 7 3\n2 1 (13,27] 5 2\n3 0 (1,2) 4 0\n3 0 [0,1] 5 3\n0 0 [1,3) 8 3\n0 0 [0,1) 3 0\n1 1 [25,inf) 2 0\n2 0 [0,6) 5 0\n0 1 [0,3) 9 0\n3 1 [0,2) 8 3\n2 1 (27,inf) 3 1\n1 1 [14,25) 4 3\n",
    "inputs 1\noutputs 24\nstates 4\nstay\nhold 3 1\nstay\nhold 7 3\nrows 8\n2 0 (26,inf) 12 3\n2 0 [0,24) 21 2\n0 0 (31,inf) 12 0\n1 0 [0,3) 22 2\n0 0 [0,1] 12 3\n3 0 [0,7) 21 0\n0 0 (1,31] 18 1\n2 0 [24,26] 3 0\n",
    "inputs 2\noutputs 24\nstates 3\nstay\nhold 1 1\nhold 29 2\nrows 11\n1 1 [0,0] 6 2\n1 0 [0,1) 4 2\n2 0 [28,29) 12 1\n2 1 [0,25) 6 2\n0 1 (10,inf) 7 0\n0 1 [0,2] 23 1\n2 1 [25,29) 0 1\n0 1 (2,10] 5 0\n2 0 [0,28) 8 0\n1 1 (0,1) 7 2\n0 0 [0,inf) 10 2\n",
    "inputs 2\noutputs 30\nstates 4\nhold 19 1\nstay\nhold 21 1\nstay\nrows 15\n3 0 [18,inf) 12 0\n3 0 [4,18) 27 2\n2 0 [0,21) 14 2\n0 1 [0,5) 26 0\n3 0 [0,4) 12 0\n1 1 [0,1] 18 1\n1 0 [0,inf) 28 1\n0 0 [4,19) 19 3\n2 1 [0,17) 22 2\n2 1 [17,21) 10 1\n1 1 (1,20] 16 1\n1 1 (20,inf) 20 2\n0 0 [0,4) 17 0\n3 1 [0,inf) 27 0\n0 1 [5,19) 1 0\n",
    "inputs 2\noutputs 18\nstates 3\nstay\nstay\nstay\nrows 14\n1 1 [0,7] 4 2\n1 1 (7,inf) 10 2\n0 0 [0,29) 17 0\n2 1 [24,30] 8 1\n2 0 [0,10) 12 2\n2 1 (30,inf) 11 2\n0 1 [0,10] 6 0\n1 0 [5,21] 16 0\n0 1 (10,inf) 6 0\n2 1 [0,24) 2 0\n0 0 [29,inf) 4 1\n1 0 [0,5) 1 2\n2 0 [10,inf) 13 2\n1 0 (21,inf) 2 1\n",
    "inputs 2\noutputs 19\nstates 2\nhold 22 0\nhold 21 0\nrows 10\n0 0 [0,22) 2 0\n1 1 [10,11] 14 1\n0 1 [0,9) 0 1\n1 0 [13,21) 11 1\n1 0 (8,13) 17 1\n1 1 [0,10) 14 0\n1 1 (11,21) 17 0\n0 1 [9,13) 4 0\n0 1 [13,22) 8 1\n1 0 [0,8] 7 1\n",
    "inputs 1\noutputs 16\nstates 3\nhold 10 2\nstay\nhold 15 2\nrows 5\n0 0 [6,10) 10 1\n1 0 [23,inf) 8 0\n0 0 [0,6) 8 0\n1 0 [0,23) 5 2\n2 0 [0,15) 2 0\n",
    "inputs 2\noutputs 31\nstates 4\nstay\nstay\nstay\nhold 23 2\nrows 15\n2 1 [0,31] 16 1\n2 0 [0,1] 7 2\n1 0 [0,9] 0 1\n2 0 (1,29] 11 2\n2 1 (31,inf) 30 2\n1 1 [0,inf) 28 1\n1 0 (9,inf) 30 2\n0 1 [0,inf) 9 2\n3 0 [0,1] 16 2\n3 0 [2,23) 4 2\n3 1 (10,23) 5 3\n2 0 (29,inf) 13 0\n0 0 [0,inf) 20 1\n3 1 [0,10] 14 0\n3 0 (1,2) 7 3\n",
    "inputs 3\noutputs 27\nstates 3\nhold 10 0\nhold 23 2\nhold 4 0\nrows 16\n2 0 [3,3] 11 2\n2 2 [0,1) 17 0\n2 1 [0,0] 11 2\n2 2 [1,4) 7 2\n1 2 [0,10) 22 2\n1 1 [0,23) 22 2\n1 2 [10,21) 2 1\n0 1 (4,10) 23 1\n1 2 [21,23) 13 0\n2 0 [0,3) 0 1\n0 2 [0,10) 17 0\n2 1 (0,4) 24 0\n0 1 [0,4] 20 2\n1 0 [0,23) 26 0\n0 0 [0,10) 12 2\n2 0 (3,4) 1 2\n",
];

/// What may stand behind a canonical text without being looked at.
const REST: [&str; 9] = ["", " ", "\n \n", "x", "rows 2", "0123", "\0", ")", PLAIN];

/// What a buffer holds before it is written to.
const UNTOUCHED: u8 = b'~';

/// Whether the book finds no room in the buffer and leaves it as it was. The refusal is what is tried, so it is taken apart.
fn is_too_short(book: &Book, buffer: &mut [u8]) -> Result<bool, Fail> {
    match book.write(buffer) {
        Ok(_) => Ok(false),
        Err(fault) => Ok(is_fault(fault, "16 text")? && are_all(buffer, UNTOUCHED)),
    }
}

/// Whether the book writes the text to the buffer and keeps what is behind it.
fn fills(book: &Book, buffer: &mut [u8], text: &str) -> Result<bool, Fail> {
    let filled = book.write(buffer)?.min(buffer.len());
    let (written, rest) = buffer.split_at(filled);
    Ok(written == text.as_bytes() && are_all(rest, UNTOUCHED))
}

/// Tries that the text is read as the book that it was written of, whatever stands behind it.
fn reads_back(rt: &impl Abort, text: &str) -> Result<(), Fail> {
    let used = text.len().saturating_sub(1);
    for behind in REST {
        let longer: ArrayString<ROOM> = joined(&[text, behind])?;
        assert!(rt; reads(longer.as_bytes(), used, text)?, "{}", behind);
    }
    Ok(())
}

/// Writes the book to buffers of several lengths, and reads back what was written.
fn try_book(rt: &impl Abort, book: &Book, text: &str) -> Result<(), Fail> {
    let length = text.len();
    assert!(rt; 0 < length && length < ROOM);
    assert!(rt; is_too_short(book, &mut [])?, "empty");
    assert!(rt;
        is_too_short(book, &mut [UNTOUCHED; ROOM][..length - 1])?,
        "one short"
    );
    assert!(rt;
        fills(book, &mut [UNTOUCHED; ROOM][..length], text)?,
        "just enough"
    );
    assert!(rt;
        fills(book, &mut [UNTOUCHED; ROOM][..length + 1], text)?,
        "one to spare"
    );
    assert!(rt;
        fills(book, &mut [UNTOUCHED; ROOM], text)?,
        "more than enough"
    );
    reads_back(rt, text)
}

#[test]
fn books_are_read_back(rt: HostRuntime) -> Result<(), Fail> {
    try_book(&rt, &Book::new(), PLAIN_LINES)?;
    for text in VARIED {
        try_book(&rt, &book(text)?, text)?;
    }
    for (text, _, canonical) in SOUND {
        try_book(&rt, &book(text)?, canonical)?;
    }
    let text = largest(CANONICAL)?;
    try_book(&rt, &book(text.as_str())?, text.as_str())
}
