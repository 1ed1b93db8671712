//! Texts that are refused, each with its place.

use crate::books::*;
use std::test::Fail;

#[test]
fn malformed(rt: HostRuntime) -> Result<(), Fail> {
    let cases = [
        Case {
            left: "Inputs 1",
            right: "",
            report: "fault 1 text 11 0\n",
        },
        Case {
            left: "inputs\t1",
            right: "",
            report: "fault 1 text 11 6\n",
        },
        Case {
            left: "inputs 01",
            right: "",
            report: "fault 1 text 11 7\n",
        },
        Case {
            left: "inputs 1000",
            right: "",
            report: "fault 1 text 11 7\n",
        },
        Case {
            left: "inputs 1 outputs 1 states 1 stay rows 1 0 0 [0;inf) 0 0",
            right: "",
            report: "fault 1 text 11 46\n",
        },
        Case {
            left: PLAIN,
            right: " inputs 1 outputs 1 states 1 stay rows 1 0 0 [0,inf) 00 0",
            report: "fault 2 text 11 108\n",
        },
        Case {
            left: PLAIN,
            right: " -",
            report: "fault 2 text 11 56\n",
        },
    ];
    try_all(&rt, &cases)
}

#[test]
fn not_due(rt: HostRuntime) -> Result<(), Fail> {
    let cases = [
        Case {
            left: "",
            right: "",
            report: "fault 1 text 12 0\n",
        },
        Case {
            left: " \n ",
            right: "",
            report: "fault 1 text 12 3\n",
        },
        Case {
            left: "outputs 1",
            right: "",
            report: "fault 1 text 12 0\n",
        },
        Case {
            left: "inputs",
            right: "",
            report: "fault 1 text 12 6\n",
        },
        Case {
            left: "inputs 1",
            right: "",
            report: "fault 1 text 12 8\n",
        },
        Case {
            left: "inputs inputs",
            right: "",
            report: "fault 1 text 12 7\n",
        },
        Case {
            left: "input 1",
            right: "",
            report: "fault 1 text 12 0\n",
        },
        Case {
            left: "inputss 1",
            right: "",
            report: "fault 1 text 12 0\n",
        },
        Case {
            left: "inputs 1 outputs 1 states 1 held 1 0",
            right: "",
            report: "fault 1 text 12 28\n",
        },
        Case {
            left: "inputs 1 outputs 1 states 1 stayrows 1",
            right: "",
            report: "fault 1 text 12 28\n",
        },
        Case {
            left: "inputs 1 outputs 1 states 1 stay rows 1 0 0 ]0,inf) 0 0",
            right: "",
            report: "fault 1 text 12 44\n",
        },
        Case {
            left: "inputs 1 outputs 1 states 1 stay rows 1 0 0 [0 inf) 0 0",
            right: "",
            report: "fault 1 text 12 47\n",
        },
        Case {
            left: "inputs 1 outputs 1 states 1 stay rows 1 0 0 [0,inf] 0 0",
            right: "",
            report: "fault 1 text 12 50\n",
        },
        Case {
            left: "inputs 1 outputs 1 states 1 stay rows 1 0 0 [0,info) 0 0",
            right: "",
            report: "fault 1 text 12 47\n",
        },
        Case {
            left: "inputs 1 outputs 1 states 1 stay rows 1 0 0 [0,7( 0 0",
            right: "",
            report: "fault 1 text 12 48\n",
        },
        Case {
            left: "inputs 1 outputs 1 states 1 stay rows 1 0 0 [0,inf) 0",
            right: "",
            report: "fault 1 text 12 53\n",
        },
        Case {
            left: "inputs 1 outputs 1 states 1 stay rows 1 0 0 [0,inf) 0 stay",
            right: "",
            report: "fault 1 text 12 54\n",
        },
        Case {
            left: PLAIN,
            right: "",
            report: "fault 2 text 12 55\n",
        },
        Case {
            left: PLAIN,
            right: "\n",
            report: "fault 2 text 12 56\n",
        },
        Case {
            left: PLAIN,
            right: " inputs 1 outputs 1 states 2 stay rows 1 0 0 [0,inf) 0 0",
            report: "fault 2 text 12 89\n",
        },
    ];
    try_all(&rt, &cases)
}

#[test]
fn out_of_range(rt: HostRuntime) -> Result<(), Fail> {
    let cases = [
        Case {
            left: "inputs 0",
            right: "",
            report: "fault 1 text 13 7\n",
        },
        Case {
            left: "inputs 9",
            right: "",
            report: "fault 1 text 13 7\n",
        },
        Case {
            left: "inputs 8 outputs 0",
            right: "",
            report: "fault 1 text 13 17\n",
        },
        Case {
            left: "inputs 8 outputs 33",
            right: "",
            report: "fault 1 text 13 17\n",
        },
        Case {
            left: "inputs 8 outputs 32 states 0",
            right: "",
            report: "fault 1 text 13 27\n",
        },
        Case {
            left: "inputs 8 outputs 32 states 17",
            right: "",
            report: "fault 1 text 13 27\n",
        },
        Case {
            left: "inputs 1 outputs 1 states 1 hold 0 0",
            right: "",
            report: "fault 1 text 13 33\n",
        },
        Case {
            left: "inputs 1 outputs 1 states 1 hold 32 0",
            right: "",
            report: "fault 1 text 13 33\n",
        },
        Case {
            left: "inputs 1 outputs 1 states 1 hold 31 1",
            right: "",
            report: "fault 1 text 13 36\n",
        },
        Case {
            left: "inputs 1 outputs 1 states 1 stay rows 0",
            right: "",
            report: "fault 1 text 13 38\n",
        },
        Case {
            left: "inputs 1 outputs 1 states 1 stay rows 257",
            right: "",
            report: "fault 1 text 13 38\n",
        },
        Case {
            left: "inputs 1 outputs 1 states 1 stay rows 1 1 0",
            right: "",
            report: "fault 1 text 13 40\n",
        },
        Case {
            left: "inputs 1 outputs 1 states 1 stay rows 1 0 1",
            right: "",
            report: "fault 1 text 13 42\n",
        },
        Case {
            left: "inputs 1 outputs 1 states 1 stay rows 1 0 0 [32,inf) 0 0",
            right: "",
            report: "fault 1 text 13 45\n",
        },
        Case {
            left: "inputs 1 outputs 1 states 1 stay rows 1 0 0 [0,32) 0 0",
            right: "",
            report: "fault 1 text 13 47\n",
        },
        Case {
            left: "inputs 1 outputs 1 states 1 stay rows 1 0 0 [0,999) 0 0",
            right: "",
            report: "fault 1 text 13 47\n",
        },
        Case {
            left: "inputs 1 outputs 1 states 1 stay rows 1 0 0 [0,inf) 1 0",
            right: "",
            report: "fault 1 text 13 52\n",
        },
        Case {
            left: "inputs 1 outputs 1 states 1 stay rows 1 0 0 [0,inf) 0 1",
            right: "",
            report: "fault 1 text 13 54\n",
        },
        Case {
            left: PLAIN,
            right: " inputs 1 outputs 1 states 1 hold 32 0",
            report: "fault 2 text 13 89\n",
        },
    ];
    try_all(&rt, &cases)
}
