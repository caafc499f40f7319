//! Lines of a text, and the contours that they hold.

ghost use Rattle.std.specs.Prelude.{◌≡◌, ◌<◌, List, ◌∷◌, length, MatchBool, IfOk, IfErr, OnOk, IfSome, IfNone, option_copied};
ghost use Rattle.i_shape.specs.Point.{Point};
ghost use Rattle.i_shape_tool.specs.Points.{contour_of, point_of};
ghost use Rattle.i_shape_tool.specs.Text.{Reads, ReadsNone, SayPoint, SayPoints, lines_of, words_of, words_left};
ghost use Rattle.i_shape_tool.specs.Run.{Gives, IsFaultOfLine};

use crate::command::Command;
use crate::fault::ToolFault;
use crate::number::first_number;
use i_shape::int::IntPoint;
use i_shape::int::safe_range::IntSafeRange;
use i_shape::int::shape::IntContour;
use std::alloc::AllocError;

/// Returns the first line of a text, and the text after it.
pub fn first_line(text: &str) -> (&str, &str)
    requires { 0 < length text.now }
    ensures lines { lines_of text.now ≡ result.0.now ∷ lines_of result.1.now }
    ensures shorter { length result.1.now < length text.now }
{
    text.split_once('\n').unwrap_or((text, ""))
}

/// Reads the contour of a line into `contour`, in place of what it held. A command that cleans gets only safe points.
///
/// # Errors
///
/// `NotAContour` if the line holds no contour, `OutOfRange` if a command that cleans gets a point that isn't safe, and
/// `OutOfMemory`, if an allocation fails.
pub fn read_line(
    command: Command,
    line: &str,
    number: usize,
    contour: &mut IntContour<i32>,
) -> Result<(), ToolFault>
    ensures ok { OnOk result (Gives command line.now (contour_of contour.new.items)) }
    ensures err { IfErr result (IsFaultOfLine command line.now number) }
{
    if !read_contour(line, contour)? {
        return Err(ToolFault::NotAContour(number));
    }
    if command.is_cleaner() && !contour.is_in_safe_range() {
        return Err(ToolFault::OutOfRange(number));
    }
    Ok(())
}

/// Reads the contour of a line into `contour`, in place of what it held. Returns whether the line holds one.
#[tactic(auto, using(crate::proofs::Reading::Lines::read_all))]
fn read_contour(line: &str, contour: &mut IntContour<i32>) -> Result<bool, AllocError>
    ensures { IfOk result
        (λ reads. MatchBool reads (Reads line.now (contour_of contour.new.items))
        (ReadsNone line.now)) }
{
    contour.clear();
    if line.is_empty() {
        return Ok(true);
    }
    let mut rest = Some(line.as_bytes());
    while let Some(text) = rest {
        let Some((point, left)) = first_point(text) else {
            return Ok(false);
        };
        contour.push(point)?;
        rest = left;
    }
    Ok(true)
}

/// Returns the point that the first two words of a text write, and the text after them.
#[tactic(auto, using(crate::proofs::Reading::Lines::some_word, crate::proofs::Reading::Lines::no_first))]
fn first_point(text: &[u8]) -> Option<(IntPoint<i32>, Option<&[u8]>)>
    ensures says { IfSome result (λ r.
        SayPoint (words_of text.now) (point_of r.0) (words_left (option_copied r.1))) }
    ensures no_point { IfNone result ((c : List Point) → SayPoints (words_of text.now) c → ⊥) }
    ensures shorter { IfSome result (λ r. IfSome r.1 (λ rest. length rest.now < length text.now)) }
{
    let (x, rest) = first_number(text)?;
    let (y, rest) = first_number(rest?)?;
    Some((IntPoint { x, y }, rest))
}
