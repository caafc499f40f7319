//! The answer of `compact`: the contours of all lines are put into one flat buffer, and cleaned there.

ghost use Rattle.std.specs.Prelude.{◌≡◌, [], IfOk, IfErr, IsOk, string_bytes};
ghost use Rattle.std.specs.List.{AllZip, flat_map};
ghost use Rattle.i_shape.specs.Buffers.{CanReadContours};
ghost use Rattle.i_shape_tool.specs.declared.command.Command.TheVariants.{Compact};
ghost use Rattle.i_shape_tool.specs.Points.{contours_in};
ghost use Rattle.i_shape_tool.specs.Text.{lines_of};
ghost use Rattle.i_shape_tool.specs.Run.{Gives, IsFirstFault, ShowsCompact, shown_line};

use crate::command::Command;
use crate::fault::ToolFault;
use crate::line::{first_line, read_line};
use crate::show::show_line;
use i_shape::flat::buffer::FlatContoursBuffer;
use i_shape::source::int::resource::IntShapeResource;
use std::alloc::{AllocError, Global};

/// Returns the contours of a text's lines without their zero turns, each on a line of its own, and without those that
/// collapse.
pub(crate) fn compact(alloc: Global, text: &str) -> Result<String, ToolFault>
    ensures ok { IfOk result (λ output. ShowsCompact text.now (string_bytes output)) }
    ensures err { IfErr result (IsFirstFault Compact text.now) }
{
    let mut contours = gather(alloc, text)?;
    contours.simplify_contours()?;
    Ok(show_contours(alloc, &contours)?)
}

/// Returns a buffer of the contours of a text's lines, in order.
fn gather(alloc: Global, text: &str) -> Result<FlatContoursBuffer<i32>, ToolFault>
    ensures readable { IfOk result (λ buffer. CanReadContours buffer) }
    ensures gathered { IfOk result
        (λ buffer. AllZip (Gives Compact) (lines_of text.now) (contours_in buffer)) }
    ensures err { IfErr result (IsFirstFault Compact text.now) }
{
    let mut buffer = FlatContoursBuffer::new(alloc);
    let mut contour = Vec::new(alloc);
    let mut number = 0;
    let mut rest = text;
    while !rest.is_empty() {
        let (line, after) = first_line(rest);
        number += 1;
        read_line(Command::Compact, line, number, &mut contour)?;
        buffer.add_contour(contour.as_slice())?;
        rest = after;
    }
    Ok(buffer)
}

/// Returns the contours of a buffer, each on a line of its own.
fn show_contours(alloc: Global, buffer: &FlatContoursBuffer<i32>) -> Result<String, AllocError>
    requires { CanReadContours buffer.now }
    ensures ok { IfOk result
        (λ output. string_bytes output ≡ flat_map shown_line (contours_in buffer.now)) }
    ensures none { contours_in buffer.now ≡ [] → IsOk result }
{
    let mut output = String::new(alloc);
    for contour in buffer.iter_paths() {
        show_line(&mut output, contour)?;
    }
    Ok(output)
}
