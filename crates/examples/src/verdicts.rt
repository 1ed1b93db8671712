//! Redrafts that change nothing, and redrafts that change something.

use crate::books::*;
use std::test::Fail;

const SPLIT: &str = " inputs 1 outputs 1 states 1 stay rows 2 0 0 [0,3] 0 0 0 0 (3,inf) 0 0";

#[test]
fn alike(rt: HostRuntime) -> Result<(), Fail> {
    let cases = [
        Case {
            left: PLAIN,
            right: SPLIT,
            report: "alike 2 8\n",
        },
        Case {
            left: ONE_DAY,
            right: ONE_DAY,
            report: "alike 4 4\n",
        },
        Case {
            left: "inputs 1 outputs 2 states 3 stay hold 2 0 stay rows 3 0 0 [0,inf) 0 1 1 0 [0,2) 1 2 2 0 [0,inf) 0 0",
            right: " inputs 1 outputs 2 states 3 stay stay hold 2 0 rows 3 0 0 [0,inf) 0 2 2 0 [0,2) 1 1 1 0 [0,inf) 0 0",
            report: "alike 8 8\n",
        },
        Case {
            left: PLAIN,
            right: " inputs 1 outputs 1 states 2 stay stay rows 2 0 0 [0,inf) 0 0 1 0 [0,inf) 0 1",
            report: "alike 2 4\n",
        },
        Case {
            left: "inputs 1 outputs 2 states 2 hold 1 1 stay rows 2 0 0 [0,1) 0 0 1 0 [0,inf) 1 0",
            right: " inputs 1 outputs 2 states 1 stay rows 2 0 0 [0,1) 0 0 0 0 [1,inf) 1 0",
            report: "alike 4 4\n",
        },
    ];
    try_all(&rt, &cases)
}

#[test]
fn different(rt: HostRuntime) -> Result<(), Fail> {
    let cases = [
        Case {
            left: ONE_DAY,
            right: TWO_DAYS,
            report: "different 4 8 4 2\n0 0\n2 0\n",
        },
        Case {
            left: "inputs 1 outputs 2 states 1 stay rows 2 0 0 [0,1] 0 0 0 0 (1,inf) 1 0",
            right: " inputs 1 outputs 2 states 1 stay rows 2 0 0 [0,1) 0 0 0 0 [1,inf) 1 0",
            report: "different 4 4 3 1\n2 0\n",
        },
        Case {
            left: "inputs 1 outputs 2 states 1 stay rows 2 0 0 [0,0] 0 0 0 0 (0,inf) 1 0",
            right: " inputs 1 outputs 2 states 1 stay rows 2 0 0 [0,1) 0 0 0 0 [1,inf) 1 0",
            report: "different 2 4 2 1\n1 0\n",
        },
        Case {
            left: PLAIN,
            right: " inputs 1 outputs 2 states 1 stay rows 1 0 0 [0,inf) 1 0",
            report: "different 2 2 1 1\n0 0\n",
        },
        Case {
            left: "inputs 2 outputs 2 states 1 stay rows 2 0 0 [0,inf) 0 0 0 1 [0,inf) 0 0",
            right: " inputs 2 outputs 2 states 1 stay rows 2 0 0 [0,inf) 0 0 0 1 [0,inf) 1 0",
            report: "different 2 2 1 1\n0 1\n",
        },
    ];
    try_all(&rt, &cases)
}

#[test]
fn without_blanks(rt: HostRuntime) -> Result<(), Fail> {
    let tight = "inputs1outputs1states1stay rows1 0 0[0,inf)0 0";
    let wide = "\n\n inputs\n1 outputs  1 states 1\n\nstay rows 1 0 0\n[ 0\n, inf ) 0 0 \n";
    let cases = [
        Case {
            left: tight,
            right: tight,
            report: "alike 2 2\n",
        },
        Case {
            left: wide,
            right: tight,
            report: "alike 2 2\n",
        },
        Case {
            left: tight,
            right: wide,
            report: "alike 2 2\n",
        },
    ];
    try_all(&rt, &cases)
}
