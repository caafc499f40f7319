//! The answer of each command for a contour.

ghost use Rattle.std.specs.Prelude.{◌≡◌, ◌++◌, ℕ, List, OnOk, IfOk, IsOkUnless, string_bytes};
ghost use Rattle.i_shape.specs.Point.{Point};
ghost use Rattle.i_shape.specs.Written.{slot};
ghost use Rattle.i_shape_tool.specs.Points.{contour_of, IsSafe};
ghost use Rattle.i_shape_tool.specs.Run.{ShowsArea, ShowsCleaned};

use crate::fault::ToolFault;
use crate::show::{show_area, show_cleaned};
use i_shape::ShapeError;
use i_shape::int::IntPoint;
use i_shape::int::cleaner::ContourCleaner;
use i_shape::int::shape::IntContour;
use std::alloc::Global;

/// Answers the contours of a text one by one.
pub(crate) trait ContourAnswer: Drop {
    /// The contours that it has an answer for.
    ghost takes: { List Point → Type 0 };

    /// The answers allowed for a contour.
    ghost answers: { List Point → List ℕ → Type 0 };

    /// Appends the answer.
    fn answer(&mut self, contour: &[IntPoint<i32>], output: &mut String) -> Result<(), ToolFault>
        requires { takes (contour_of contour.now) }
        ensures ok { OnOk result ((answer : List ℕ)
            × answers (contour_of contour.now) answer
            × (string_bytes output.new ≡ string_bytes output.old ++ answer)) }
        ensures memory { IsOkUnless result ToolFault.OutOfMemory };
}

/// Twice the area.
#[derive(Clone, Copy)]
pub(crate) struct Areas;

impl ContourAnswer for Areas {
    ghost takes = { λ c. Unit {0} };

    ghost answers = { ShowsArea };

    fn answer(&mut self, contour: &[IntPoint<i32>], output: &mut String) -> Result<(), ToolFault> {
        Ok(show_area(output, contour)?)
    }
}

/// What a cleaner leaves of a contour, or a word if it collapses.
#[derive(Drop)]
pub(crate) struct Cleaned<C> {
    cleaner: C,
    /// As long as the longest contour so far. What is left of the last one is in front.
    left: IntContour<i32>,
}

impl<C: ContourCleaner> Cleaned<C> {
    pub(crate) fn new(alloc: Global) -> Cleaned<C> {
        Cleaned {
            cleaner: C::new(alloc),
            left: Vec::new(alloc),
        }
    }

    /// Returns what the cleaner leaves of a contour: no points if the contour collapses.
    fn clean(&mut self, contour: &[IntPoint<i32>]) -> Result<&[IntPoint<i32>], ShapeError>
        requires { IsSafe (contour_of contour.now) }
        ensures { IfOk result (λ left.
            C.meaning.answers (contour_of contour.now) (slot (contour_of left.now))) }
    {
        // Only the length matters: what is there is overwritten.
        if let Some(longer) = contour.get(self.left.len()..) {
            self.left.extend_from_slice(longer)?;
        }
        let count = self
            .cleaner
            .try_clean_into(contour, self.left.as_mut_slice())?;
        Ok(&self.left[..count])
    }
}

impl<C: ContourCleaner> ContourAnswer for Cleaned<C> {
    ghost takes = { IsSafe };

    ghost answers = { ShowsCleaned C.meaning.answers };

    fn answer(&mut self, contour: &[IntPoint<i32>], output: &mut String) -> Result<(), ToolFault> {
        let left = self.clean(contour)?;
        Ok(show_cleaned(output, left)?)
    }
}
