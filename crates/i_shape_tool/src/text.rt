//! The answer of a command to a text.

ghost use Rattle.std.specs.Prelude.{◌≡◌, IfOk, IfErr, List, string_bytes};
ghost use Rattle.i_shape.specs.Point.{Point};
ghost use Rattle.i_shape_tool.specs.Points.{IsSafe};
ghost use Rattle.i_shape_tool.specs.Command.{IsCleaner};
ghost use Rattle.i_shape_tool.specs.Run.{AnswersLines, AnswersText, IsFirstFault};

use crate::answer::{Areas, Cleaned, ContourAnswer};
use crate::command::Command;
use crate::compact::compact;
use crate::fault::ToolFault;
use crate::line::{first_line, read_line};
use i_shape::int::cleaner::{Canonicalizer, ContourDeSpiker, ContourSimplifier};
use std::alloc::Global;

/// Returns the answer of a command to a text of contours: for each line, in order, the result for its contour on a line
/// of its own, and nothing else. `Compact` leaves out the lines of contours that collapse, and writes of the others
/// what `Simplify` writes.
///
/// Lines end at `\n`, and the last one needs no end. A line holds the coordinates of its points, x and y in turn, as
/// 32-bit decimals separated by single spaces. An empty line is the contour without points. `Simplify` writes the
/// points of the contour without zero turns in the same form, or `none` if it collapses. `Despike` does so for the
/// contour without spikes and repeated points, and `Canonical` writes the least rotation of what `Simplify` writes.
/// `Area` writes twice the area of the contour, wrapped to 64 bits, or `empty` if it has no points.
///
/// # Errors
///
/// `NotAContour` and `OutOfRange` give the first line that is faulty for the command. `OutOfMemory` occurs if an
/// allocation fails and no faulty line was found before.
pub fn run(alloc: Global, command: Command, text: &str) -> Result<String, ToolFault>
    ensures ok { IfOk result (λ output. AnswersText command text.now (string_bytes output)) }
    ensures err { IfErr result (IsFirstFault command text.now) }
{
    match command {
        Command::Simplify => {
            answer_lines(
                alloc,
                command,
                Cleaned::<ContourSimplifier>::new(alloc),
                text,
            )
        }
        Command::Despike => {
            answer_lines(alloc, command, Cleaned::<ContourDeSpiker>::new(alloc), text)
        }
        Command::Area => answer_lines(alloc, command, Areas, text),
        Command::Canonical => {
            answer_lines(alloc, command, Cleaned::<Canonicalizer>::new(alloc), text)
        }
        Command::Compact => compact(alloc, text),
    }
}

/// Returns the answers to the contours of a text's lines, one by one.
fn answer_lines<A: ContourAnswer>(
    alloc: Global,
    command: Command,
    mut answerer: A,
    text: &str,
) -> Result<String, ToolFault>
    requires { (c : List Point) → (IsCleaner command → IsSafe c) → A.takes c }
    ensures ok { IfOk result
        (λ output. AnswersLines command A.answers text.now (string_bytes output)) }
    ensures err { IfErr result (IsFirstFault command text.now) }
{
    let mut contour = Vec::new(alloc);
    let mut output = String::new(alloc);
    let mut number = 0;
    let mut rest = text;
    while !rest.is_empty() {
        let (line, after) = first_line(rest);
        number += 1;
        read_line(command, line, number, &mut contour)?;
        answerer.answer(contour.as_slice(), &mut output)?;
        rest = after;
    }
    Ok(output)
}
