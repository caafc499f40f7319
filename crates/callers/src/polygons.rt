//! A store of polygons. Polygons that are the same are stored once.

ghost use Rattle.std.specs.Prelude.{◌≡◌, ◌↔◌, [], IsTrue, IfOk, OnErr, IsOkUnless};
ghost use Rattle.i_shape.specs.ShapeLists.{shape_of, IsSafeShape};
ghost use Rattle.callers.specs.Polygons.{IsPolygonFound, PolygonInserted};

use crate::store::Insertion;
use i_shape::int::canonical::CanonicalShape;
use i_shape::int::shape::{IntContour, IntShape};
use i_shape::{IntNumber, ShapeError};
use std::alloc::Global;
use std::collections::BTreeSet;
use std::marker::Model;

/// Polygons by their canonical forms, kept in std's ordered set.
#[derive(Drop)]
pub struct PolygonStore<I: IntNumber> {
    alloc: Global,
    forms: BTreeSet<IntShape<I>>,
}

/// A store is the list of its forms. Each is the form of some shape, and so its own form.
impl<I: IntNumber> Model for PolygonStore<I> {
    ghost use Rattle.std.specs.Prelude.{List};
    ghost use Rattle.i_shape.specs.Point.{Point};
    ghost use Rattle.i_shape.specs.ShapeLists.{shapes_of};
    ghost use Rattle.callers.specs.Polygons.{AreOwnForms};

    ghost Value = { List (List (List Point)) };

    ghost view = { λ store. shapes_of I.value store.forms.keys };

    ghost invariant = { λ store. AreOwnForms (shapes_of I.value store.forms.keys) };
}

impl<I: IntNumber> PolygonStore<I> {
    /// Returns an empty store that allocates from `alloc`.
    pub fn new(alloc: Global) -> Self
        ensures { result ≡ [] }
    {
        PolygonStore {
            alloc,
            forms: BTreeSet::new(alloc),
        }
    }

    /// Returns whether the store has the same polygon: its contours may start at other points, have other zero turns,
    /// and its holes may come in another order. Returns false if its outer contour collapses. The only error is
    /// `OutOfMemory`.
    pub fn contains(&self, polygon: &[IntContour<I>]) -> Result<bool, ShapeError>
        requires { IsSafeShape I.width (shape_of I.value polygon.now) }
        ensures found { IfOk result (λ found. IsTrue found
            ↔ IsPolygonFound self.now (shape_of I.value polygon.now)) }
        ensures memory { IsOkUnless result ShapeError.OutOfMemory }
    {
        match polygon.canonical(self.alloc)? {
            Some(form) => Ok(self.forms.contains(&form)),
            None => Ok(false),
        }
    }

    /// Inserts the polygon, unless its outer contour collapses or the store has the same polygon. The only error is
    /// `OutOfMemory`, which leaves the store unchanged.
    pub fn insert(&mut self, polygon: &[IntContour<I>]) -> Result<Insertion, ShapeError>
        requires { IsSafeShape I.width (shape_of I.value polygon.now) }
        ensures ok { IfOk result
            (λ r. PolygonInserted self.old (shape_of I.value polygon.now) r self.new) }
        ensures err { OnErr result (self.new ≡ self.old) }
        ensures memory { IsOkUnless result ShapeError.OutOfMemory }
    {
        let Some(form) = polygon.canonical(self.alloc)? else {
            return Ok(Insertion::Collapsed);
        };
        let Ok(added) = self.forms.insert(form) else {
            return Err(ShapeError::OutOfMemory);
        };
        if !added {
            return Ok(Insertion::Known);
        }
        Ok(Insertion::New)
    }
}
