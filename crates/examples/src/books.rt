//! The texts of the examples, and the judge's word on them.

use arrayvec::ArrayString;
use compare::cell::BLANK;
use compare::judge::judge;
use std::process::Abort;
use std::test::Fail;
use table::word::Entry;

/// One stay state that answers its one input with output 0 at any clock.
pub const PLAIN: &str = "inputs 1 outputs 1 states 1 stay rows 1 0 0 [0,inf) 0 0";

/// One landing, given back after one quiet day.
pub const ONE_DAY: &str =
    "inputs 1\noutputs 2\nstates 2\nhold 1 0\nhold 1 0\nrows 2\n0 0 [0,1) 1 1\n1 0 [0,1) 0 1\n";

/// One landing, given back after two quiet days.
pub const TWO_DAYS: &str =
    "inputs 1\noutputs 2\nstates 2\nhold 2 0\nhold 2 0\nrows 2\n0 0 [0,2) 1 1\n1 0 [0,2) 0 1\n";

/// Two books, and what the judge reports of them.
#[derive(Clone, Copy)]
pub struct Case {
    pub left: &'static str,
    pub right: &'static str,
    pub report: &'static str,
}

/// The parts, one behind another.
pub fn joined<const N: usize>(parts: &[&str]) -> Result<ArrayString<N>, Fail> {
    let mut text = ArrayString::new();
    for part in parts {
        text.try_push_str(part)?;
    }
    Ok(text)
}

/// Whether all items are this one.
pub fn are_all<T: PartialEq + Copy>(items: &[T], expected: T) -> bool {
    items.iter().all(|item| *item == expected)
}

/// Judges the two books of each case, the second right behind the first.
pub fn try_all(rt: &impl Abort, cases: &[Case]) -> Result<(), Fail> {
    for case in cases {
        let input: ArrayString<2048> = joined(&[case.left, case.right])?;
        let mut word = [Entry { wait: 9, input: 9 }; 1024];
        let mut report = [0; 16384];
        let filled = judge(input.as_bytes(), &mut [BLANK; 1024], &mut word, &mut report)?;
        assert_eq!(rt; &report[..filled], case.report.as_bytes(), "{}", case.right);
    }
    Ok(())
}
