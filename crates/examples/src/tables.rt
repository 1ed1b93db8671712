//! Tables that are refused, those just inside the limits, and comparisons that are refused.

use crate::books::*;
use std::test::Fail;

#[test]
fn longest_timeout(rt: HostRuntime) -> Result<(), Fail> {
    let cases = [
        Case {
            left: "inputs 1 outputs 1 states 1 hold 31 0 rows 1 0 0 [0,31) 0 0",
            right: " inputs 1 outputs 1 states 1 hold 1 0 rows 1 0 0 [0,1) 0 0",
            report: "alike 62 2\n",
        },
        Case {
            left: "inputs 1 outputs 1 states 1 stay rows 2 0 0 [0,31] 0 0 0 0 (31,inf) 0 0",
            right: " inputs 1 outputs 1 states 1 stay rows 1 0 0 [0,inf) 0 0",
            report: "alike 64 2\n",
        },
    ];
    try_all(&rt, &cases)
}

#[test]
fn trailing(rt: HostRuntime) -> Result<(), Fail> {
    let cases = [
        Case {
            left: PLAIN,
            right: " inputs 1 outputs 1 states 1 stay rows 1 0 0 [0,inf) 0 0x",
            report: "fault 2 text 14 111\n",
        },
        Case {
            left: PLAIN,
            right: " inputs 1 outputs 1 states 1 stay rows 1 0 0 [0,inf) 0 0 0",
            report: "fault 2 text 14 112\n",
        },
        Case {
            left: PLAIN,
            right: " inputs 1 outputs 1 states 1 stay rows 1 0 0 [0,inf) 0 0\n]\n",
            report: "fault 2 text 14 112\n",
        },
        Case {
            left: PLAIN,
            right: " inputs 1 outputs 1 states 1 stay rows 1 0 0 [0,inf) 0 0\n \n",
            report: "alike 2 2\n",
        },
        Case {
            left: PLAIN,
            right: " inputs 1 outputs 1 states 1 stay rows 1 0 0 [0,inf) 0 0\x01",
            report: "fault 2 text 14 111\n",
        },
    ];
    try_all(&rt, &cases)
}

#[test]
fn unsound(rt: HostRuntime) -> Result<(), Fail> {
    let cases = [
        Case {
            left: "inputs 1 outputs 1 states 1 stay rows 1 0 0 (3,3] 0 0",
            right: "",
            report: "fault 1 table 21 0\n",
        },
        Case {
            left: "inputs 1 outputs 1 states 1 stay rows 1 0 0 [3,3) 0 0",
            right: "",
            report: "fault 1 table 21 0\n",
        },
        Case {
            left: "inputs 1 outputs 1 states 1 stay rows 1 0 0 (3,3) 0 0",
            right: "",
            report: "fault 1 table 21 0\n",
        },
        Case {
            left: "inputs 1 outputs 1 states 1 stay rows 1 0 0 [4,3] 0 0",
            right: "",
            report: "fault 1 table 21 0\n",
        },
        Case {
            left: "inputs 1 outputs 1 states 1 stay rows 3 0 0 [0,3) 0 0 0 0 [3,3] 0 0 0 0 (3,inf) 0 0",
            right: PLAIN,
            report: "alike 8 2\n",
        },
        Case {
            left: "inputs 1 outputs 1 states 1 hold 2 0 rows 1 0 0 [0,2] 0 0",
            right: "",
            report: "fault 1 table 22 0\n",
        },
        Case {
            left: "inputs 1 outputs 1 states 1 hold 2 0 rows 1 0 0 [0,inf) 0 0",
            right: "",
            report: "fault 1 table 22 0\n",
        },
        Case {
            left: "inputs 1 outputs 1 states 1 hold 2 0 rows 2 0 0 [0,2) 0 0 0 0 [2,2] 0 0",
            right: "",
            report: "fault 1 table 22 1\n",
        },
        Case {
            left: "inputs 1 outputs 1 states 1 hold 2 0 rows 1 0 0 [0,2) 0 0",
            right: " inputs 1 outputs 1 states 1 hold 2 0 rows 2 0 0 [0,1] 0 0 0 0 (1,2) 0 0",
            report: "alike 4 4\n",
        },
        Case {
            left: "inputs 1 outputs 1 states 1 hold 2 0 rows 2 0 0 (1,1) 0 0 0 0 [0,3] 0 0",
            right: "",
            report: "fault 1 table 21 0\n",
        },
        Case {
            left: "inputs 1 outputs 1 states 1 hold 2 0 rows 2 0 0 [0,3] 0 0 0 0 (1,1) 0 0",
            right: "",
            report: "fault 1 table 22 0\n",
        },
        Case {
            left: "inputs 1 outputs 1 states 1 stay rows 2 0 0 [0,1) 0 0 0 0 (1,inf) 0 0",
            right: "",
            report: "fault 1 table 24 0 0 2\n",
        },
        Case {
            left: "inputs 1 outputs 1 states 1 stay rows 2 0 0 [0,1] 0 0 0 0 [1,inf) 0 0",
            right: "",
            report: "fault 1 table 23 0 0 2\n",
        },
        Case {
            left: "inputs 1 outputs 1 states 1 stay rows 1 0 0 (0,inf) 0 0",
            right: "",
            report: "fault 1 table 24 0 0 0\n",
        },
        Case {
            left: "inputs 1 outputs 1 states 1 stay rows 1 0 0 [0,5] 0 0",
            right: "",
            report: "fault 1 table 24 0 0 11\n",
        },
        Case {
            left: "inputs 1 outputs 1 states 1 stay rows 2 0 0 [0,inf) 0 0 0 0 [0,inf) 0 0",
            right: "",
            report: "fault 1 table 23 0 0 0\n",
        },
        Case {
            left: "inputs 2 outputs 1 states 1 stay rows 1 0 0 [0,inf) 0 0",
            right: "",
            report: "fault 1 table 24 0 1 0\n",
        },
        Case {
            left: "inputs 2 outputs 1 states 1 stay rows 1 0 1 [0,inf) 0 0",
            right: "",
            report: "fault 1 table 24 0 0 0\n",
        },
        Case {
            left: "inputs 1 outputs 1 states 2 stay stay rows 1 0 0 [0,inf) 0 0",
            right: "",
            report: "fault 1 table 24 1 0 0\n",
        },
        Case {
            left: "inputs 2 outputs 1 states 2 stay stay rows 4 0 0 [0,inf) 0 0 0 1 [0,2) 0 0 1 0 [0,inf) 0 0 1 0 [0,inf) 0 0",
            right: "",
            report: "fault 1 table 24 0 1 4\n",
        },
        Case {
            left: PLAIN,
            right: " inputs 1 outputs 1 states 1 stay rows 2 0 0 [0,1) 0 0 0 0 (1,inf) 0 0",
            report: "fault 2 table 24 0 0 2\n",
        },
        Case {
            left: "inputs 1 outputs 1 states 1 hold 2 0 rows 1 0 0 [0,1) 0 0",
            right: "",
            report: "fault 1 table 24 0 0 2\n",
        },
    ];
    try_all(&rt, &cases)
}

#[test]
fn comparison(rt: HostRuntime) -> Result<(), Fail> {
    let cases = [
        Case {
            left: PLAIN,
            right: " inputs 2 outputs 1 states 1 stay rows 2 0 0 [0,inf) 0 0 0 1 [0,inf) 0 0",
            report: "fault 2 compare 31\n",
        },
        Case {
            left: "inputs 1 outputs 1 states 1 hold 31 0 rows 1 0 0 [0,31) 0 0",
            right: " inputs 1 outputs 1 states 1 hold 17 0 rows 1 0 0 [0,17) 0 0",
            report: "fault 2 compare 32\n",
        },
        Case {
            left: "inputs 1 outputs 1 states 1 hold 16 0 rows 1 0 0 [0,16) 0 0",
            right: " inputs 1 outputs 1 states 1 hold 16 0 rows 1 0 0 [0,16) 0 0",
            report: "alike 32 32\n",
        },
    ];
    try_all(&rt, &cases)
}
