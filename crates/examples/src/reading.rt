//! Texts that a book reads, and texts that it refuses and stays as it was.

use crate::books::*;
use crate::damaged::*;
use crate::machines::book;
use arrayvec::ArrayString;
use std::fmt;
use std::fmt::Write;
use std::process::Abort;
use std::test::Fail;
use table::book::Book;
use table::fault::{Place, Spot, TableFault};
use text::put::put;

/// A text, how many of its bytes are used, and the canonical text of its book.
pub type Sound = (&'static str, usize, &'static str);

/// More bytes than the canonical text of any book here has.
pub const ROOM: usize = 8192;

/// The canonical text of `PLAIN`.
pub const PLAIN_LINES: &str = "inputs 1\noutputs 1\nstates 1\nstay\nrows 1\n0 0 [0,inf) 0 0\n";

/// Texts that are read.
pub const SOUND: [Sound; 18] = [
    (
        "inputs1outputs1states1stay rows1 0 0[0,inf)0 0",
        46,
        PLAIN_LINES,
    ),
    (
        "inputs1outputs2states2hold3 1stay rows2 0 0[0,3)1 1 1 0[0,inf)0 0",
        65,
        "inputs 1\noutputs 2\nstates 2\nhold 3 1\nstay\nrows 2\n0 0 [0,3) 1 1\n1 0 [0,inf) 0 0\n",
    ),
    (
        "inputs2outputs2states1hold2 0rows3 0 0[0,2)1 0 0 1[0,1]0 0 0 1(1,2)1 0",
        70,
        "inputs 2\noutputs 2\nstates 1\nhold 2 0\nrows 3\n0 0 [0,2) 1 0\n0 1 [0,1] 0 0\n0 1 (1,2) 1 0\n",
    ),
    (
        "\n \n inputs \n 1\n\noutputs 1 \nstates\n1 stay\n\nrows 1 0\n0 [ 0 , inf ) 0\n\n0",
        69,
        PLAIN_LINES,
    ),
    (
        "  inputs\n1\noutputs\n1\nstates\n1\nhold\n7\n0\nrows\n2\n0\n0\n[\n0\n,\n0\n]\n0\n0\n0\n0\n(\n0\n,\n7\n)\n0\n0\n",
        81,
        "inputs 1\noutputs 1\nstates 1\nhold 7 0\nrows 2\n0 0 [0,0] 0 0\n0 0 (0,7) 0 0\n",
    ),
    (
        "inputs 1 outputs 1 states 1 hold 1 0 rows 1 0 0 [0,1) 0 0 inputs 1 outputs 1 states 1 stay rows 1 0 0 [0,inf) 0 0",
        57,
        "inputs 1\noutputs 1\nstates 1\nhold 1 0\nrows 1\n0 0 [0,1) 0 0\n",
    ),
    (
        "inputs 8 outputs 32 states 1 stay rows 8 0 7 [0,inf) 31 0 0 6 [0,inf) 0 0 0 5 [0,inf) 9 0 0 4 [0,inf) 10 0 0 3 [0,inf) 0 0 0 2 [0,inf) 0 0 0 1 [0,inf) 0 0 0 0 [0,inf) 0 0",
        170,
        "inputs 8\noutputs 32\nstates 1\nstay\nrows 8\n0 7 [0,inf) 31 0\n0 6 [0,inf) 0 0\n0 5 [0,inf) 9 0\n0 4 [0,inf) 10 0\n0 3 [0,inf) 0 0\n0 2 [0,inf) 0 0\n0 1 [0,inf) 0 0\n0 0 [0,inf) 0 0\n",
    ),
    (
        "inputs 1 outputs 32 states 1 hold 31 0 rows 1 0 0 [0,31) 31 0",
        61,
        "inputs 1\noutputs 32\nstates 1\nhold 31 0\nrows 1\n0 0 [0,31) 31 0\n",
    ),
    (
        "inputs 1 outputs 1 states 2 hold 1 1 hold 31 0 rows 2 0 0 [0,1) 0 1 1 0 [0,31) 0 0",
        82,
        "inputs 1\noutputs 1\nstates 2\nhold 1 1\nhold 31 0\nrows 2\n0 0 [0,1) 0 1\n1 0 [0,31) 0 0\n",
    ),
    (
        "inputs 1 outputs 1 states 1 stay rows 3 0 0 [0,31) 0 0 0 0 [31,31] 0 0 0 0 (31,inf) 0 0",
        87,
        "inputs 1\noutputs 1\nstates 1\nstay\nrows 3\n0 0 [0,31) 0 0\n0 0 [31,31] 0 0\n0 0 (31,inf) 0 0\n",
    ),
    (
        "inputs 1 outputs 1 states 1 stay rows 2 0 0 [0,0] 0 0 0 0 (0,inf) 0 0",
        69,
        "inputs 1\noutputs 1\nstates 1\nstay\nrows 2\n0 0 [0,0] 0 0\n0 0 (0,inf) 0 0\n",
    ),
    (
        "inputs 1 outputs 1 states 1 stay rows 2 0 0 [31,inf) 0 0 0 0 [0,31) 0 0",
        71,
        "inputs 1\noutputs 1\nstates 1\nstay\nrows 2\n0 0 [31,inf) 0 0\n0 0 [0,31) 0 0\n",
    ),
    (
        "inputs 1 outputs 1 states 1 hold 1 0 rows 2 0 0 (0,1) 0 0 0 0 [0,0] 0 0",
        71,
        "inputs 1\noutputs 1\nstates 1\nhold 1 0\nrows 2\n0 0 (0,1) 0 0\n0 0 [0,0] 0 0\n",
    ),
    (
        "inputs 1 outputs 1 states 1 hold 31 0 rows 3 0 0 (30,31) 0 0 0 0 [30,30] 0 0 0 0 [0,30) 0 0",
        91,
        "inputs 1\noutputs 1\nstates 1\nhold 31 0\nrows 3\n0 0 (30,31) 0 0\n0 0 [30,30] 0 0\n0 0 [0,30) 0 0\n",
    ),
    (
        "inputs 1 outputs 1 states 1 hold 5 0 rows 5 0 0 [0,1) 0 0 0 0 [1,2] 0 0 0 0 (2,3) 0 0 0 0 [3,3] 0 0 0 0 (3,5) 0 0",
        113,
        "inputs 1\noutputs 1\nstates 1\nhold 5 0\nrows 5\n0 0 [0,1) 0 0\n0 0 [1,2] 0 0\n0 0 (2,3) 0 0\n0 0 [3,3] 0 0\n0 0 (3,5) 0 0\n",
    ),
    (
        "inputs 1 outputs 1 states 1 stay rows 4 0 0 [0,1) 0 0 0 0 [1,2] 0 0 0 0 (2,3] 0 0 0 0 (3,inf) 0 0",
        97,
        "inputs 1\noutputs 1\nstates 1\nstay\nrows 4\n0 0 [0,1) 0 0\n0 0 [1,2] 0 0\n0 0 (2,3] 0 0\n0 0 (3,inf) 0 0\n",
    ),
    (
        "inputs 2 outputs 3 states 3 hold 4 2 stay hold 9 1 rows 7 0 0 [0,4) 2 1 0 1 [0,4) 0 2 1 0 [0,inf) 1 0 1 1 [0,12] 1 1 1 1 (12,inf) 2 2 2 0 [0,9) 0 0 2 1 [0,9) 0 2",
        161,
        "inputs 2\noutputs 3\nstates 3\nhold 4 2\nstay\nhold 9 1\nrows 7\n0 0 [0,4) 2 1\n0 1 [0,4) 0 2\n1 0 [0,inf) 1 0\n1 1 [0,12] 1 1\n1 1 (12,inf) 2 2\n2 0 [0,9) 0 0\n2 1 [0,9) 0 2\n",
    ),
    (
        "inputs 1 outputs 1 states 16 stay stay stay stay stay stay stay stay hold 2 15 stay stay stay stay stay stay stay rows 16 0 0 [0,inf) 0 15 1 0 [0,inf) 0 14 2 0 [0,inf) 0 13 3 0 [0,inf) 0 12 4 0 [0,inf) 0 11 5 0 [0,inf) 0 10 6 0 [0,inf) 0 9 7 0 [0,inf) 0 8 8 0 [0,2) 0 7 9 0 [0,inf) 0 6 10 0 [0,inf) 0 5 11 0 [0,inf) 0 4 12 0 [0,inf) 0 3 13 0 [0,inf) 0 2 14 0 [0,inf) 0 1 15 0 [0,inf) 0 0",
        387,
        "inputs 1\noutputs 1\nstates 16\nstay\nstay\nstay\nstay\nstay\nstay\nstay\nstay\nhold 2 15\nstay\nstay\nstay\nstay\nstay\nstay\nstay\nrows 16\n0 0 [0,inf) 0 15\n1 0 [0,inf) 0 14\n2 0 [0,inf) 0 13\n3 0 [0,inf) 0 12\n4 0 [0,inf) 0 11\n5 0 [0,inf) 0 10\n6 0 [0,inf) 0 9\n7 0 [0,inf) 0 8\n8 0 [0,2) 0 7\n9 0 [0,inf) 0 6\n10 0 [0,inf) 0 5\n11 0 [0,inf) 0 4\n12 0 [0,inf) 0 3\n13 0 [0,inf) 0 2\n14 0 [0,inf) 0 1\n15 0 [0,inf) 0 0\n",
    ),
];

/// What may stand right behind the last number of a text without being looked at.
const BEHIND: [&str; 15] = [
    "",
    " \n\n ",
    "x",
    "Rows",
    "\x00",
    "-1",
    "]",
    " 01 1000 ;",
    " 0 0 [0,inf) 0 0",
    "inputs 2 outputs 1 states 0",
    PLAIN,
    " inputs 1 outputs 1 states 1 stay rows 1 0 0 [0,inf) 0 0",
    "[",
    ",",
    "\t1",
];

/// The number, the layer and the place of a fault.
fn shown(fault: TableFault) -> Result<ArrayString<64>, Fail> {
    let mut text = ArrayString::new();
    write!(text, "{} {}", fault.number(), fault.layer())?;
    match fault.place() {
        None => {}
        Some(Place::At(at)) => write!(text, " {at}")?,
        Some(
            Place::Spot(
                Spot {
                    state,
                    input,
                    stretch,
                },
            ),
        ) => write!(text, " {state} {input} {stretch}")?,
    }
    Ok(text)
}

/// Whether the fault has the number, the layer and the place expected.
pub fn is_fault(fault: TableFault, expected: &str) -> Result<bool, Fail> {
    Ok(shown(fault)?.as_str() == expected)
}

/// Whether the book's canonical text is the one expected.
pub fn is_written(book: &Book, expected: &str) -> Result<bool, Fail> {
    let mut out = [0; ROOM];
    let length = book.write(&mut out)?.min(out.len());
    Ok(&out[..length] == expected.as_bytes())
}

/// Whether a book that was read before refuses the text with the fault and stays as it was.
fn refuses(text: &[u8], fault: &str) -> Result<bool, Fail> {
    let mut kept = book(TWO_DAYS)?;
    match kept.read(text) {
        Ok(_) => Ok(false),
        Err(found) => Ok(is_fault(found, fault)? && is_written(&kept, TWO_DAYS)?),
    }
}

/// Whether a book that was read before becomes the one expected and uses so many bytes of the text.
pub fn reads(text: &[u8], used: usize, canonical: &str) -> Result<bool, Fail> {
    let mut book = book(TWO_DAYS)?;
    Ok(book.read(text)? == used && is_written(&book, canonical)?)
}

/// Tries each text of a table of damaged ones, behind their head.
fn refuses_all(rt: &impl Abort, head: &'static str, cases: &[Damaged]) -> Result<(), Fail> {
    for &(rest, fault) in cases {
        let text: ArrayString<256> = joined(&[head, rest])?;
        assert!(rt; refuses(text.as_bytes(), fault)?, "{}", rest);
    }
    Ok(())
}

/// What stands between the parts of a line, and what behind the line.
#[derive(Clone, Copy)]
pub struct Spacing {
    pub gap: &'static str,
    pub turn: &'static str,
}

/// The spacing of a canonical text.
pub const CANONICAL: Spacing = Spacing {
    gap: " ",
    turn: "\n",
};

/// Another spacing.
const WIDE: Spacing = Spacing {
    gap: "\n \n",
    turn: " \n ",
};

/// Writes the two rows of a state and an input of the largest book: up to a day, and from there on.
fn write_rows(
    text: &mut ArrayString<ROOM>,
    spacing: Spacing,
    state: u16,
    input: u16,
) -> fmt::Result {
    let Spacing { gap, turn } = spacing;
    let day = state.saturating_add(input).min(31);
    let rest = 31 - day;
    let next = 15u16.saturating_sub(state);
    write!(
        text,
        "{state}{gap}{input}{gap}[0,{day}]{gap}{day}{gap}{next}{turn}"
    )?;
    write!(
        text,
        "{state}{gap}{input}{gap}({day},31){gap}{rest}{gap}{next}{turn}"
    )
}

/// The text of a book with 16 states and 256 rows.
pub fn largest(spacing: Spacing) -> Result<ArrayString<ROOM>, Fail> {
    let mut text = ArrayString::new();
    let turn = spacing.turn;
    write!(text, "inputs 8{turn}outputs 32{turn}states 16{turn}")?;
    for target in (0..16).rev() {
        write!(text, "hold 31 {target}{turn}")?;
    }
    write!(text, "rows 256{turn}")?;
    for state in 0..16 {
        for input in 0..8 {
            write_rows(&mut text, spacing, state, input)?;
        }
    }
    Ok(text)
}

#[test]
fn damaged_texts(rt: HostRuntime) -> Result<(), Fail> {
    refuses_all(&rt, "", &COUNTS)?;
    refuses_all(&rt, STATES_HEAD, &STATES)?;
    refuses_all(&rt, ROWS_HEAD, &ROWS)?;
    refuses_all(&rt, ONE_STATE_HEAD, &ONE_STATE)?;
    refuses_all(&rt, STAY_HEAD, &STAY)?;
    refuses_all(&rt, HOLD_HEAD, &HOLD)?;
    refuses_all(&rt, "", &SEVERAL)
}

#[test]
fn sound_texts(rt: HostRuntime) -> Result<(), Fail> {
    for (text, used, canonical) in SOUND {
        assert!(rt; reads(text.as_bytes(), used, canonical)?, "{}", text);
    }
    for behind in BEHIND {
        let text: ArrayString<256> = joined(&[PLAIN, behind])?;
        assert!(rt; reads(text.as_bytes(), 55, PLAIN_LINES)?, "{}", behind);
    }
    Ok(())
}

/// Blanks with a text among them, one byte longer than is read.
fn padded(at: usize, text: &str) -> [u8; 16385] {
    let mut long = [b' '; 16385];
    let _ = put(&mut long, at, text.as_bytes());
    long
}

#[test]
fn texts_at_the_longest(rt: HostRuntime) -> Result<(), Fail> {
    let sound = [(0, 55), (15945, 16000), (16329, 16384)];
    for (at, used) in sound {
        let text = padded(at, PLAIN);
        assert!(rt; reads(&text[0..16384], used, PLAIN_LINES)?);
        assert!(rt; refuses(&text, "10 text 16384")?);
    }
    assert!(rt; refuses(&padded(16329, PLAIN)[0..16383], "12 text 16383")?);
    assert!(rt; refuses(&padded(0, "")[0..16384], "12 text 16384")?);
    assert!(rt; refuses(&padded(0, ""), "10 text 16384")?);
    assert!(rt; refuses(&padded(16383, "-")[0..16384], "11 text 16383")?);
    assert!(rt; refuses(&padded(0, "-"), "10 text 16384")?);
    Ok(())
}

/// Whether the largest book is refused once its last row has this guard.
fn refuses_last(guard: &str, fault: &str) -> Result<bool, Fail> {
    let mut text = [0; 4464];
    let _ = put(&mut text, 0, largest(CANONICAL)?.as_bytes());
    let _ = put(&mut text, 4452, guard.as_bytes());
    refuses(&text, fault)
}

#[test]
fn the_largest_book(rt: HostRuntime) -> Result<(), Fail> {
    let text = largest(CANONICAL)?;
    let wide = largest(WIDE)?;
    assert_eq!(rt; (text.len(), wide.len()), (4464, 7064));
    assert!(rt; reads(text.as_bytes(), 4463, text.as_str())?);
    assert!(rt; reads(wide.as_bytes(), 7061, text.as_str())?);
    let cases = [
        ("(31,31)", "21 table 255"),
        ("(22,31]", "22 table 255"),
        ("[22,31)", "23 table 15 7 44"),
        ("(23,31)", "24 table 15 7 45"),
        ("(22,30)", "24 table 15 7 60"),
        ("(22.31)", "11 text 4455"),
        ("(22,31(", "12 text 4458"),
        ("(22,32)", "13 text 4456"),
    ];
    for (guard, fault) in cases {
        assert!(rt; refuses_last(guard, fault)?, "{}", guard);
    }
    Ok(())
}

#[test]
fn books_follow_each_other(rt: HostRuntime) -> Result<(), Fail> {
    let mut text = [b' '; 256];
    let at = put(&mut text, 0, ONE_DAY.as_bytes());
    let at = put(&mut text, at, TWO_DAYS.as_bytes());
    let _ = put(&mut text, at, b"inputs 9");
    let mut book = book(PLAIN)?;
    let first = book.read(&text)?;
    assert!(rt; first == 80 && is_written(&book, ONE_DAY)?);
    let second = book.read_from(&text, first)?;
    assert!(rt; second == 161 && is_written(&book, TWO_DAYS)?);
    for (from, fault) in [(second, "13 text 169"), (170, "12 text 256")] {
        let Err(found) = book.read_from(&text, from) else {
            return Err(Fail::new("not refused"));
        };
        assert!(rt; is_fault(found, fault)?);
    }
    assert!(rt; is_written(&book, TWO_DAYS)?);
    Ok(())
}
