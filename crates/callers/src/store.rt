//! A store of contours. Joined contours are stored once. Two contours are joined if rotations, removals and insertions
//! of zero turns lead from one to the other.

ghost use Rattle.std.specs.Prelude.{◌≡◌, ◌≢◌, ◌↔◌, [], IsTrue, IfOk, OnErr, IsOkUnless};
ghost use Rattle.std.specs.List.{All, Contains};
ghost use Rattle.i_shape.specs.IntPoint.{contour_of, IsSafe};
ghost use Rattle.i_shape.specs.ShapeLists.{shape_of};
ghost use Rattle.callers.specs.Store.{IsFound, AlsoFinds, InsertAnswer};

use i_shape::int::IntPoint;
use i_shape::int::shape::IntContour;
use i_shape::int::simple::SimpleContour;
use i_shape::{IntNumber, ShapeError};
use std::alloc::Global;
use std::marker::Model;

/// What happened to a contour given to a store.
#[derive(Clone, Copy, PartialEq, Eq, Debug)]
pub enum Insertion {
    /// Its canonical form was new, and is now the last of the store.
    New,
    /// The store had a contour that is joined to it.
    Known,
    /// Fewer than three of its points are left, in whatever order zero turns are removed.
    Collapsed,
}

/// Contours by their canonical forms, in the order of insertion. A search reads the forms one after another.
#[derive(Drop)]
pub struct CanonicalStore<I: IntNumber> {
    forms: Vec<IntContour<I>>,
}

/// A store is the list of its forms. Each is the canonical form of some contour.
impl<I: IntNumber> Model for CanonicalStore<I> {
    ghost use Rattle.std.specs.Prelude.{List};
    ghost use Rattle.i_shape.specs.Point.{Point};
    ghost use Rattle.i_shape.specs.ShapeLists.{shape_of};
    ghost use Rattle.callers.specs.Store.{AreForms};

    ghost Value = { List (List Point) };

    ghost view = { λ store. shape_of I.value store.forms.items };

    ghost invariant = { λ store. AreForms (shape_of I.value store.forms.items) };
}

impl<I: IntNumber> CanonicalStore<I> {
    /// Returns an empty store that allocates from `alloc`.
    pub fn new(alloc: Global) -> Self
        ensures { result ≡ [] }
    {
        CanonicalStore {
            forms: Vec::new(alloc),
        }
    }

    /// Returns whether a contour of the store is joined to this one. Returns false if this one collapses. The only
    /// error is `OutOfMemory`.
    pub fn contains(&self, contour: &[IntPoint<I>]) -> Result<bool, ShapeError>
        requires { All (IsSafe I.width) (contour_of I.value contour.now) }
        ensures found { IfOk result (λ found. IsTrue found
            ↔ IsFound self.now (contour_of I.value contour.now)) }
        ensures memory { IsOkUnless result ShapeError.OutOfMemory }
    {
        match contour.canonical(*self.forms.allocator())? {
            Some(form) => Ok(has_form(self.forms.as_slice(), form.as_slice())),
            None => Ok(false),
        }
    }

    /// Appends the contour's canonical form, unless the contour collapses or the store has one that is joined to it.
    /// The only error is `OutOfMemory`, which leaves the store unchanged.
    pub fn insert(&mut self, contour: &[IntPoint<I>]) -> Result<Insertion, ShapeError>
        requires { All (IsSafe I.width) (contour_of I.value contour.now) }
        ensures ok { IfOk result
            (λ r. InsertAnswer self.old (contour_of I.value contour.now) r self.new) }
        ensures finds { IfOk result (λ r. r ≢ Insertion.Collapsed
            → AlsoFinds self.old (contour_of I.value contour.now) self.new) }
        ensures err { OnErr result (self.new ≡ self.old) }
        ensures memory { IsOkUnless result ShapeError.OutOfMemory }
    {
        let Some(form) = contour.canonical(*self.forms.allocator())? else {
            return Ok(Insertion::Collapsed);
        };
        if has_form(self.forms.as_slice(), form.as_slice()) {
            return Ok(Insertion::Known);
        }
        self.forms.push(form)?;
        Ok(Insertion::New)
    }
}

/// Returns whether a form is one of the list.
fn has_form<I: IntNumber>(forms: &[IntContour<I>], form: &[IntPoint<I>]) -> bool
    ensures { IsTrue result ↔ Contains (shape_of I.value forms.now) (contour_of I.value form.now) }
{
    forms.iter().any(|other| is_same(other, form))
}

/// Returns whether a contour has these points.
fn is_same<I: IntNumber>(contour: &IntContour<I>, points: &[IntPoint<I>]) -> bool
    ensures { IsTrue result
        ↔ (contour_of I.value contour.now.items ≡ contour_of I.value points.now) }
{
    contour.as_slice() == points
}
