//! Texts and words for which the program reports a fault.

use crate::given::serves;
use i_shape_test_data::row::Row;
use i_shape_tool::{Command, ToolFault, run};
use std::test::Fail;

/// Checks that each of the commands, with the row's name as its input, reports this message and writes nothing else.
fn each_reports(row: &Row<'_>, commands: &[&str], message: &str) -> Result<(), Fail> {
    for command in commands {
        serves(row, (&[*command], row.name.as_bytes()), (1, "", message))?;
    }
    Ok(())
}

const COMMANDS: [&str; 5] = ["simplify", "despike", "canonical", "compact", "area"];

/// Lines that are no contours.
const FAULTY: [&str; 10] = [
    " 1 2",
    "1 2 ",
    "1  2",
    "1 2\r",
    "1",
    "-",
    "--1 2",
    "1,2",
    "1.0 2",
    "2147483648 0",
];

/// Each command reports a malformed line, and each but the last, `area`, a point that isn't safe.
#[test]
fn a_faulty_line_is_reported(rt: HostRuntime) -> Result<(), Fail> {
    for line in &FAULTY {
        let row = Row::new(rt.alloc(), *line);
        each_reports(&row, &COMMANDS, "line 1: not a contour\n")?;
    }
    let row = Row::new(rt.alloc(), "1073741824 0 0 0 0 1");
    each_reports(&row, &COMMANDS[..4], "line 1: out of range\n")
}

const RANGE: &str = "out of range";

const CONTOUR: &str = "not a contour";

/// The first fault of a text, for a command, and its line.
const FIRST_FAULTS: [(Command, &str, (&str, usize)); 3] = [
    (Command::Simplify, "1073741824 0\nx\n", (RANGE, 1)),
    (Command::Simplify, "\n1 2 3\n1073741824 0\n", (CONTOUR, 2)),
    (Command::Area, "1073741824 0\nx\n", (CONTOUR, 2)),
];

#[test]
fn the_first_fault_is_reported(rt: HostRuntime) -> Result<(), Fail> {
    for (command, text, fault) in &FIRST_FAULTS {
        let got = match run(rt.alloc(), *command, *text) {
            Err(ToolFault::OutOfRange(line)) => (RANGE, line),
            Err(ToolFault::NotAContour(line)) => (CONTOUR, line),
            _ => ("", 0),
        };
        Row::new(rt.alloc(), *text).equal(got, *fault, "the fault")?;
    }
    Ok(())
}

const USAGE: &str = "usage: i_shape_tool simplify|despike|area|canonical|compact\n";

const THIRD: &str = "line 3: not a contour\n";

/// Words, input, and the status and the message: a fault leaves no output, also after an answer, and words other than
/// one command get the usage text.
const REFUSED: [(&[&str], &[u8], u8, &str); 5] = [
    (&[], b"x", 2, USAGE),
    (&["simplify", "simplify"], b"x", 2, USAGE),
    (&["Simplify"], b"x", 2, USAGE),
    (&["simplify"], b"0 0\n\xff\n", 1, "input is not UTF-8\n"),
    (&["simplify"], b"0 0 4 0 4 4\n\n1 2 3\n", 1, THIRD),
];

#[test]
fn a_fault_of_words_or_input_leaves_no_output(rt: HostRuntime) -> Result<(), Fail> {
    for (words, input, status, told) in &REFUSED {
        let row = Row::new(rt.alloc(), *told);
        serves(&row, (*words, *input), (*status, "", *told))?;
    }
    Ok(())
}
