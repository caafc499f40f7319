//! Texts that are answered.

use crate::given::serves;
use i_shape_test_data::row::Row;
use i_shape_tool::{Command, run};
use std::test::Fail;

/// A command, a text, and the command's answer to it.
const ANSWERED: [(&str, &str, &str); 18] = [
    ("simplify", "", ""),
    (
        "simplify",
        "0 0 2 0 4 0 4 4 0 4\n\n",
        "0 0 4 0 4 4 0 4\nnone\n",
    ),
    (
        "simplify",
        "0 0 2 0 2 5 2 0 4 0 4 4 0 4\n",
        "0 0 4 0 4 4 0 4\n",
    ),
    ("simplify", "+0 -0 04 0 4 4\n", "0 0 4 0 4 4\n"),
    ("despike", "6 0 0 0 2 0 1 0 1 5", "6 0 2 0 1 0 1 5\n"),
    (
        "despike",
        "0 0 0 2 1 2 3 2 4 2 2 2 2 0\n",
        "0 0 0 2 1 2 2 2 2 0\n",
    ),
    ("area", "0 0 1 0 0 1\n\n", "1\nempty\n"),
    ("area", "1073741824 0 0 0 0 1\n", "-1073741824\n"),
    ("area", "-2147483648 0\n", "0\n"),
    ("area", "00000000000000000012 -0 0 0 0 1\n", "-12\n"),
    (
        "canonical",
        "6 0 0 0 2 0 1 0 1 5\n\n",
        "1 0 1 5 6 0\nnone\n",
    ),
    ("compact", "0 0 0 512 0 1\n7 7\n", ""),
    ("compact", LINES, "0 0 4 0 4 4 0 4\n0 0 1 0 0 1\n"),
    ("area", "0 0 1 0 0 1\n0 0 10 0 10 10 0 10\n", "1\n200\n"),
    ("simplify", CLEAN, CLEAN),
    ("despike", CLEAN, CLEAN),
    ("canonical", CLEAN, CLEAN),
    ("compact", CLEAN, CLEAN),
];

/// Clean contours from their least points on: one of 33 points between small ones.
const CLEAN: &str = "\
0 0 4 0 4 4
0 0 1 1 2 4 3 9 4 16 5 25 6 36 7 49 8 64 9 81 10 100 11 121 12 144 13 169 14 196 15 225 16 256 17 289 18 324 19 361 20 400 21 441 22 484 23 529 24 576 25 625 26 676 27 729 28 784 29 841 30 900 31 961 32 1024
0 0 4 0 4 4
";

const LINES: &str = "0 0 2 0 4 0 4 4 0 4\n\n1 1 2 2 3 3\n0 0 1 0 0 1\n";

#[test]
fn each_text_is_answered(rt: HostRuntime) -> Result<(), Fail> {
    for (command, text, wanted) in &ANSWERED {
        let row = Row::new(rt.alloc(), *text);
        serves(&row, (&[*command], text.as_bytes()), (0, *wanted, ""))?;
    }
    Ok(())
}

/// The line of a clean contour, and each command's answer to it.
const LINE: &str = "0 0 4 0 4 4\n";

const ANSWERS: [(Command, &str); 5] = [
    (Command::Simplify, LINE),
    (Command::Despike, LINE),
    (Command::Canonical, LINE),
    (Command::Compact, LINE),
    (Command::Area, "16\n"),
];

/// With enough memory no line fails.
#[test]
fn a_long_text_is_answered(rt: HostRuntime) -> Result<(), Fail> {
    let row = Row::new(rt.alloc(), "3,000 lines");
    let text = LINE.repeat(row.alloc, 3_000)?;
    for (command, answer) in &ANSWERS {
        let wanted = answer.repeat(row.alloc, 3_000)?;
        let is_answered = match run(row.alloc, *command, text.as_str()) {
            Ok(output) => output == wanted,
            Err(_fault) => false,
        };
        row.holds(is_answered, "the output")?;
    }
    Ok(())
}
