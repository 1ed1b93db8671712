//! Damaged texts, each with the number, the layer and the place of its fault.

/// What stands behind the head of a text, and the fault with which the text is refused.
pub type Damaged = (&'static str, &'static str);

/// Counts, with two states due.
pub const STATES_HEAD: &str = "inputs 2 outputs 3 states 2 ";

/// Counts and states, with four rows due.
pub const ROWS_HEAD: &str = "inputs 2 outputs 3 states 2 hold 4 1 stay rows 4 ";

/// Counts, with one state due.
pub const ONE_STATE_HEAD: &str = "inputs 1 outputs 1 states 1 ";

/// A stay state, with the number of its rows due.
pub const STAY_HEAD: &str = "inputs 1 outputs 1 states 1 stay rows ";

/// A hold state of two days, with the number of its rows due.
pub const HOLD_HEAD: &str = "inputs 1 outputs 1 states 1 hold 2 0 rows ";

/// Texts that are refused in their counts.
pub const COUNTS: [Damaged; 63] = [
    // malformed
    ("@nputs 1", "11 text 0"),
    ("\x00", "11 text 0"),
    ("`inputs 1", "11 text 0"),
    (" \n/1", "11 text 2"),
    ("inputs 00", "11 text 7"),
    ("inputs 0000", "11 text 7"),
    ("inputs 12345", "11 text 7"),
    ("inputs \r1", "11 text 7"),
    ("inputs1.", "11 text 7"),
    ("inputs 99999999999999999999999", "11 text 7"),
    ("inputs 2 {utputs 3", "11 text 9"),
    ("inputs 2 Outputs 3", "11 text 9"),
    ("inputs 2outputs 032", "11 text 16"),
    ("inputs 2 outputs 1000", "11 text 17"),
    ("inputs 2 outputs -1", "11 text 17"),
    ("inputs 2 outputs 3\tstates 2", "11 text 18"),
    ("inputs 2 outputs 3 states 02", "11 text 26"),
    ("inputs 2 outputs 3 states :", "11 text 26"),
    ("0010 1", "11 text 0"),
    // not due
    ("1 inputs", "12 text 0"),
    ("[inputs 1", "12 text 0"),
    ("inPuts 1", "12 text 0"),
    ("states 1", "12 text 0"),
    ("rows 1", "12 text 0"),
    ("inf", "12 text 0"),
    ("stay", "12 text 0"),
    ("99 1", "12 text 0"),
    ("inputs ,", "12 text 7"),
    ("inputs one", "12 text 7"),
    ("inputs outputs 1", "12 text 7"),
    ("inputs 2 output 3", "12 text 9"),
    ("inputs 2 3", "12 text 9"),
    ("inputs 2, outputs 3", "12 text 8"),
    ("inputs 2 inputs 2", "12 text 9"),
    ("inputs 2 999", "12 text 9"),
    ("inputs 2 outputs (3", "12 text 17"),
    ("inputs 2 outputs states 2", "12 text 17"),
    ("inputs 2 outputs 3 state 2", "12 text 19"),
    ("inputs 2 outputs 3 4", "12 text 19"),
    ("inputs 2 outputs 3 stay", "12 text 19"),
    ("inputs 2 outputs 3 states stay", "12 text 26"),
    ("inputs 2 outputs 3 states ]", "12 text 26"),
    (
        "inputs1outputs1states1stayrows1 0 0[0,inf)0 0",
        "12 text 22",
    ),
    // the text ends
    ("", "12 text 0"),
    ("\n", "12 text 1"),
    ("inputs \n", "12 text 8"),
    ("inputs 2", "12 text 8"),
    ("inputs 2 outputs", "12 text 16"),
    ("inputs 2 outputs 3 ", "12 text 19"),
    ("inputs 2 outputs 3 states", "12 text 25"),
    ("inputs 2 outputs 3 states 2", "12 text 27"),
    // out of range
    ("inputs 10", "13 text 7"),
    ("inputs 999", "13 text 7"),
    ("inputs 8 outputs 34", "13 text 17"),
    ("inputs 8 outputs 320", "13 text 17"),
    ("inputs 8 outputs 32 states 18", "13 text 27"),
    ("inputs0", "13 text 6"),
    ("inputs 2outputs0", "13 text 15"),
    ("inputs 2 outputs 3 states 0 rows 0", "13 text 26"),
    ("inputs 9 outputs", "13 text 7"),
    ("inputs 2 outputs 33 states 17", "13 text 17"),
    ("inputs 2 outputs 3 states 17 stay", "13 text 26"),
    (
        "inputs 1 outputs 1 states 2 stay stay rows 2 0 0 [0,inf) 0 0 1 0 [0,inf) 0 10",
        "13 text 75",
    ),
];

/// Texts that are refused in their states or the head of the rows, behind `STATES_HEAD`.
pub const STATES: [Damaged; 40] = [
    // malformed
    ("Stay", "11 text 28"),
    ("stay\x0bstay", "11 text 32"),
    ("hold 04 1", "11 text 33"),
    ("hold +4 1", "11 text 33"),
    ("hold 4 01", "11 text 35"),
    ("hold 4 _", "11 text 35"),
    ("hold 4 1 stay;rows 4", "11 text 41"),
    ("hold 4 1 stay rows 0004", "11 text 47"),
    ("hold 4 1 stay rows #4", "11 text 47"),
    // not due
    ("stays", "12 text 28"),
    ("rows 4", "12 text 28"),
    ("4 1", "12 text 28"),
    ("hold stay", "12 text 33"),
    ("hold inf 1", "12 text 33"),
    ("hold 4,1", "12 text 34"),
    ("hold 4 stay", "12 text 35"),
    ("hold 4 [1", "12 text 35"),
    ("hold 4 1 1", "12 text 37"),
    ("stay rows 4", "12 text 33"),
    ("stay stay stay", "12 text 38"),
    ("hold 4 1 stay row 4", "12 text 42"),
    ("hold 4 1 stay 4", "12 text 42"),
    ("hold 4 1 stay (", "12 text 42"),
    ("hold 4 1 stay rows rows", "12 text 47"),
    ("hold 4 1 stay rows [0,4)", "12 text 47"),
    // the text ends
    ("hold", "12 text 32"),
    ("hold 4", "12 text 34"),
    ("hold 4 1", "12 text 36"),
    ("hold 4 1 stay\n\n", "12 text 43"),
    ("hold 4 1 stay rows", "12 text 46"),
    ("hold 4 1 stay rows 4", "12 text 48"),
    // out of range
    ("hold 0 1", "13 text 33"),
    ("hold 32 2", "13 text 33"),
    ("hold 31 2", "13 text 36"),
    ("stay hold 999", "13 text 38"),
    ("stay hold 1 16", "13 text 40"),
    ("hold 4 1 stay rows 0", "13 text 47"),
    ("hold 4 1 stay rows 257 0 0", "13 text 47"),
    ("hold 4 1 stay rows 999", "13 text 47"),
    ("hold 4 1 stay rows 256 2 2", "13 text 51"),
];

/// Texts that are refused in their rows, behind `ROWS_HEAD`.
pub const ROWS: [Damaged; 65] = [
    // malformed
    ("00 1", "11 text 49"),
    ("0 01", "11 text 51"),
    ("0 1 \\0,4) 2 1", "11 text 53"),
    ("0 1 [00,4) 2 1", "11 text 54"),
    ("0 1 [0.4) 2 1", "11 text 55"),
    ("0 1 [0,04) 2 1", "11 text 56"),
    ("0 1 [0,*) 2 1", "11 text 56"),
    ("0 1 [0,4} 2 1", "11 text 57"),
    ("0 1 [0,4^ 2 1", "11 text 57"),
    ("0 1 [0,4) 2000 1", "11 text 59"),
    ("0 1 [0,4) 2 007", "11 text 61"),
    ("0 1 [0,4) 2 1\x1f1 0 [0,inf) 0 0", "11 text 62"),
    // not due
    ("stay 1", "12 text 49"),
    ("[0,4) 0 1", "12 text 49"),
    ("0[1", "12 text 50"),
    ("0 inf", "12 text 51"),
    ("0 1 0,4)", "12 text 53"),
    ("0 1 )0,4)", "12 text 53"),
    ("0 1 ,0,4)", "12 text 53"),
    ("0 1 99", "12 text 53"),
    ("0 1 [,4)", "12 text 54"),
    ("0 1 [inf,inf)", "12 text 54"),
    ("0 1 [[0,4)", "12 text 54"),
    ("0 1 [0)", "12 text 55"),
    ("0 1 [0(4)", "12 text 55"),
    ("0 1 [0 99", "12 text 56"),
    ("0 1 [0,)", "12 text 56"),
    ("0 1 [0,,4)", "12 text 56"),
    ("0 1 [0,in)", "12 text 56"),
    ("0 1 [0,4 2 1", "12 text 58"),
    ("0 1 [0,4[ 2 1", "12 text 57"),
    ("0 1 [0,4, 2 1", "12 text 57"),
    ("0 1 [0,4inf) 2 1", "12 text 57"),
    ("0 1 (0,inf] 2 1", "12 text 59"),
    ("0 1 [0,inf, 2 1", "12 text 59"),
    ("0 1 [0,inf 2 1", "12 text 60"),
    ("0 1 [0,inf( 2 1", "12 text 59"),
    ("0 1 [0,4)) 2 1", "12 text 58"),
    ("0 1 [0,4) stay 1", "12 text 59"),
    ("0 1 [0,4) 2, 1", "12 text 60"),
    ("0 1 [0,4) 2 inf", "12 text 61"),
    ("0 1 [0,4) 2 1 inputs", "12 text 63"),
    ("0 1 [0,4) 2 1 [0,4)", "12 text 63"),
    // the text ends
    ("0", "12 text 50"),
    ("0 1", "12 text 52"),
    ("0 1 [", "12 text 54"),
    ("0 1 [0", "12 text 55"),
    ("0 1 [0,", "12 text 56"),
    ("0 1 [0,4", "12 text 57"),
    ("0 1 [0,inf", "12 text 59"),
    ("0 1 [0,4)", "12 text 58"),
    ("0 1 [0,4) 2   ", "12 text 63"),
    ("0 1 [0,4) 2 1", "12 text 62"),
    (
        "0 1 [0,4) 2 1\n1 0 [0,inf) 0 0\n1 1 [0,inf) 0 0\n",
        "12 text 95",
    ),
    // out of range
    ("0 2 [0", "13 text 51"),
    ("0 8", "13 text 51"),
    ("0 1 (32,4) 2 1", "13 text 54"),
    ("0 1 [999 4", "13 text 54"),
    ("0 1 [31,32] 3 2", "13 text 57"),
    ("0 1 [0,100", "13 text 56"),
    ("0 1 [0,4) 3 2", "13 text 59"),
    ("0 1 [0,4) 32 1", "13 text 59"),
    ("0 1 [0,4) 2 2", "13 text 61"),
    ("0 1 [0,4) 2 10", "13 text 61"),
    ("0 1 [0,4) 2 1 1 0 [0,inf) 0 2", "13 text 77"),
];

/// Books of one state, behind `ONE_STATE_HEAD`: each has the fault that is looked for first.
pub const ONE_STATE: [Damaged; 21] = [
    // malformed
    ("007", "11 text 28"),
    ("stay 0001", "11 text 33"),
    ("stay rows 1 0 0 0000", "11 text 44"),
    ("stay rows 1 0 0 [0 01", "11 text 47"),
    ("stay rows 1 0 0 [0,inf 1234", "11 text 51"),
    ("stay rows 1 0 0 [0,inf) 0 01", "11 text 54"),
    ("stay rows 1 0 0 [0,inf) 0 \u{e9}", "11 text 54"),
    // out of range
    ("stay rows 2 0 0 [4,3] 0 0 0 0 [0,inf) 0 1", "13 text 68"),
    // an empty guard, or one past the timeout
    (
        "hold 3 0 rows 3 0 0 [0,1) 0 0 0 0 [1,3) 0 0 0 0 (2,2] 0 0",
        "21 table 2",
    ),
    ("hold 31 0 rows 1 0 0 [0,31] 0 0", "22 table 0"),
    (
        "hold 31 0 rows 2 0 0 [0,31) 0 0 0 0 [31,31] 0 0",
        "22 table 1",
    ),
    ("hold 1 0 rows 2 0 0 [0,1) 0 0 0 0 [1,1] 0 0", "22 table 1"),
    // two rows, or none
    (
        "hold 31 0 rows 2 0 0 [0,31) 0 0 0 0 (30,31) 0 0",
        "23 table 0 0 61",
    ),
    ("hold 1 0 rows 1 0 0 [0,0] 0 0", "24 table 0 0 1"),
    ("hold 1 0 rows 1 0 0 (0,1) 0 0", "24 table 0 0 0"),
    ("hold 31 0 rows 1 0 0 [0,30] 0 0", "24 table 0 0 61"),
    (
        "hold 4 0 rows 2 0 0 [0,4) 0 0 0 0 (3,4) 0 0",
        "23 table 0 0 7",
    ),
    ("hold 4 0 rows 1 0 0 [0,3] 0 0", "24 table 0 0 7"),
    ("hold 4 0 rows 1 0 0 [0,3) 0 0", "24 table 0 0 6"),
    (
        "hold 4 0 rows 2 0 0 [0,2) 0 0 0 0 (2,4) 0 0",
        "24 table 0 0 4",
    ),
    (
        "hold 4 0 rows 3 0 0 [0,1] 0 0 0 0 (2,4) 0 0 0 0 [3,4) 0 0",
        "24 table 0 0 3",
    ),
];

/// Rows of a stay state, behind `STAY_HEAD`.
pub const STAY: [Damaged; 24] = [
    // an empty guard, or one past the timeout
    ("1 0 0 (0,0) 0 0", "21 table 0"),
    ("1 0 0 [0,0) 0 0", "21 table 0"),
    ("1 0 0 (0,0] 0 0", "21 table 0"),
    ("1 0 0 (31,31) 0 0", "21 table 0"),
    ("1 0 0 [31,0] 0 0", "21 table 0"),
    ("1 0 0 (5,4] 0 0", "21 table 0"),
    ("1 0 0 (5,4) 0 0", "21 table 0"),
    ("2 0 0 [0,inf) 0 0 0 0 [7,7) 0 0", "21 table 1"),
    // two rows, or none
    ("2 0 0 [0,0] 0 0 0 0 [0,inf) 0 0", "23 table 0 0 0"),
    ("2 0 0 [0,1) 0 0 0 0 (0,inf) 0 0", "23 table 0 0 1"),
    ("2 0 0 [0,inf) 0 0 0 0 (31,inf) 0 0", "23 table 0 0 63"),
    ("2 0 0 [0,inf) 0 0 0 0 [31,31] 0 0", "23 table 0 0 62"),
    (
        "3 0 0 [0,3] 0 0 0 0 [3,5] 0 0 0 0 [3,inf) 0 0",
        "23 table 0 0 6",
    ),
    (
        "3 0 0 [4,inf) 0 0 0 0 [0,4) 0 0 0 0 (1,2) 0 0",
        "23 table 0 0 3",
    ),
    ("1 0 0 [1,inf) 0 0", "24 table 0 0 0"),
    ("2 0 0 [0,0] 0 0 0 0 [1,inf) 0 0", "24 table 0 0 1"),
    ("1 0 0 [0,0] 0 0", "24 table 0 0 1"),
    ("1 0 0 [0,5) 0 0", "24 table 0 0 10"),
    ("1 0 0 [0,31) 0 0", "24 table 0 0 62"),
    ("1 0 0 [0,31] 0 0", "24 table 0 0 63"),
    ("2 0 0 [0,31) 0 0 0 0 (31,inf) 0 0", "24 table 0 0 62"),
    ("2 0 0 (4,inf) 0 0 0 0 [0,4) 0 0", "24 table 0 0 8"),
    (
        "3 0 0 [0,4] 0 0 0 0 [3,4) 0 0 0 0 (5,inf) 0 0",
        "23 table 0 0 6",
    ),
    (
        "3 0 0 [0,2) 0 0 0 0 [3,inf) 0 0 0 0 [5,6] 0 0",
        "24 table 0 0 4",
    ),
];

/// Rows of a hold state, behind `HOLD_HEAD`.
pub const HOLD: [Damaged; 13] = [
    // an empty guard, or one past the timeout
    ("1 0 0 [9,9) 0 0", "21 table 0"),
    ("1 0 0 [2,2) 0 0", "21 table 0"),
    ("1 0 0 (9,3] 0 0", "21 table 0"),
    ("1 0 0 [0,3) 0 0", "22 table 0"),
    ("1 0 0 [0,31] 0 0", "22 table 0"),
    ("1 0 0 (1,2] 0 0", "22 table 0"),
    ("1 0 0 (1,inf) 0 0", "22 table 0"),
    ("1 0 0 [2,3) 0 0", "22 table 0"),
    ("1 0 0 (2,3) 0 0", "22 table 0"),
    ("1 0 0 [9,9] 0 0", "22 table 0"),
    ("3 0 0 [0,2) 0 0 0 0 [0,2] 0 0 0 0 [1,1) 0 0", "22 table 1"),
    ("3 0 0 [0,2) 0 0 0 0 [1,1) 0 0 0 0 [0,2] 0 0", "21 table 1"),
    ("3 0 0 [0,2) 0 0 0 0 [0,2) 0 0 0 0 [1,2] 0 0", "22 table 2"),
];

/// Books of several states or inputs.
pub const SEVERAL: [Damaged; 17] = [
    // an empty guard, or one past the timeout
    (
        "inputs 1 outputs 1 states 2 hold 4 1 hold 3 0 rows 2 0 0 [0,4) 0 0 1 0 [0,4) 0 0",
        "22 table 1",
    ),
    (
        "inputs 1 outputs 1 states 2 stay hold 3 0 rows 2 1 0 [0,inf) 0 0 0 0 [0,inf) 0 0",
        "22 table 0",
    ),
    (
        "inputs 1 outputs 1 states 2 stay hold 2 0 rows 3 1 0 [0,2] 0 0 0 0 (3,3) 0 0 1 0 [5,4] 0 0",
        "22 table 0",
    ),
    (
        "inputs 2 outputs 1 states 2 stay hold 2 0 rows 2 1 1 [0,1) 0 0 1 0 [3,3) 0 0",
        "21 table 1",
    ),
    // two rows, or none
    (
        "inputs 1 outputs 2 states 2 stay stay rows 3 0 0 [0,inf) 0 1 1 0 [0,2] 1 0 1 0 (1,inf) 0 0",
        "23 table 1 0 3",
    ),
    (
        "inputs 2 outputs 1 states 1 stay rows 3 0 0 [0,2] 0 0 0 1 [0,9] 0 0 0 1 (9,inf) 0 0",
        "24 table 0 0 5",
    ),
    (
        "inputs 2 outputs 1 states 1 stay rows 3 0 0 [0,9] 0 0 0 0 (9,inf) 0 0 0 1 [0,9] 0 0",
        "24 table 0 1 19",
    ),
    (
        "inputs 8 outputs 1 states 1 stay rows 1 0 7 [0,inf) 0 0",
        "24 table 0 0 0",
    ),
    (
        "inputs 2 outputs 1 states 1 hold 2 0 rows 1 0 0 [0,2) 0 0",
        "24 table 0 1 0",
    ),
    (
        "inputs 2 outputs 1 states 2 stay stay rows 3 0 0 [0,inf) 0 0 0 1 [0,inf) 0 0 1 1 [0,inf) 0 0",
        "24 table 1 0 0",
    ),
    (
        "inputs 1 outputs 1 states 16 stay stay stay stay stay stay stay stay stay stay stay stay stay stay stay stay rows 2 15 0 [0,inf) 0 0 0 0 [0,inf) 0 0",
        "24 table 1 0 0",
    ),
    (
        "inputs 2 outputs 1 states 2 stay stay rows 4 1 0 [0,inf) 0 0 1 0 [0,inf) 0 0 0 0 [0,inf) 0 0 0 1 [0,3] 0 0",
        "24 table 0 1 7",
    ),
    (
        "inputs 2 outputs 1 states 2 stay stay rows 5 1 0 [0,2) 0 0 1 1 [0,inf) 0 0 0 0 [0,inf) 0 0 0 1 [0,inf) 0 0 0 1 [5,5] 0 0",
        "23 table 0 1 10",
    ),
    (
        "inputs 2 outputs 1 states 1 stay rows 3 0 1 [0,inf) 0 0 0 1 [0,inf) 0 0 0 0 [0,5] 0 0",
        "24 table 0 0 11",
    ),
    (
        "inputs 2 outputs 1 states 1 stay rows 3 0 1 [1,inf) 0 0 0 0 [0,inf) 0 0 0 0 [6,6] 0 0",
        "23 table 0 0 12",
    ),
    (
        "inputs 2 outputs 1 states 1 stay rows 2 0 1 (0,inf) 0 0 0 1 [4,inf) 0 0",
        "24 table 0 0 0",
    ),
    (
        "inputs 2 outputs 1 states 3 hold 2 1 hold 2 2 stay rows 5 0 0 [0,2) 0 1 0 1 [0,2) 0 1 1 0 [0,2) 0 1 2 0 [0,1] 0 0 2 1 [0,inf) 0 0",
        "24 table 1 1 0",
    ),
];
