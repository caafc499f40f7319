//! Laws of `==` and `clone`, in the form of those in `laws`: each function takes two values, does nothing, and has only
//! the law as its clauses. The law of `==` of points is `laws::points_equal`.

ghost use Rattle.std.specs.Prelude.{◌≡◌, ◌↔◌, IsTrue};

use crate::error::ShapeError;
use crate::measure::fill_rule::FillRule;
use crate::number::IntNumber;
use crate::point::IntPoint;
use crate::turn::Turn;

/// `==` of two errors is true exactly if they are the same. A clone is the error itself, and cloning never fails.
pub fn errors_equal(_a: &ShapeError, _b: &ShapeError)
    ensures compared { IsTrue (⟦<ShapeError as PartialEq>⟧.eq _a.now _b.now) ↔ (_a.now ≡ _b.now) }
    ensures cloned { ⟦<ShapeError as Clone>⟧.is_clone _a.now _b.now → _b.now ≡ _a.now }
    ensures unrefused { ⟦<ShapeError as Clone>⟧.is_infallible _a.now }
{}

/// The same for turns.
pub fn turns_equal(_a: &Turn, _b: &Turn)
    ensures compared { IsTrue (⟦<Turn as PartialEq>⟧.eq _a.now _b.now) ↔ (_a.now ≡ _b.now) }
    ensures cloned { ⟦<Turn as Clone>⟧.is_clone _a.now _b.now → _b.now ≡ _a.now }
    ensures unrefused { ⟦<Turn as Clone>⟧.is_infallible _a.now }
{}

/// The same for fill rules.
pub fn fill_rules_equal(_a: &FillRule, _b: &FillRule)
    ensures compared { IsTrue (⟦<FillRule as PartialEq>⟧.eq _a.now _b.now) ↔ (_a.now ≡ _b.now) }
    ensures cloned { ⟦<FillRule as Clone>⟧.is_clone _a.now _b.now → _b.now ≡ _a.now }
    ensures unrefused { ⟦<FillRule as Clone>⟧.is_infallible _a.now }
{}

/// The coordinates of a point's clone are clones of the point's, x of x and y of y. Cloning a point can't fail if
/// cloning its coordinates can't.
pub fn points_cloned<I: IntNumber>(_a: &IntPoint<I>, _b: &IntPoint<I>)
    ensures cloned { ⟦<IntPoint<I> as Clone>⟧.is_clone _a.now _b.now
        ↔ (I.is_clone _a.now.x _b.now.x × I.is_clone _a.now.y _b.now.y) }
    ensures unrefused { I.is_infallible _a.now.x → I.is_infallible _a.now.y
        → ⟦<IntPoint<I> as Clone>⟧.is_infallible _a.now }
{}
