//! The cleaners of one contour: a trait and its five implementations.

ghost use Rattle.std.specs.Prelude.{◌≡◌, ◌↔◌, ◌<◌, ◌≤◌, ℕ, length, Option, IsTrue, IsOk, IfOk, OnOk, IsOkUnless};
ghost use Rattle.std.proofs.Common.{rules, arith};
ghost use Rattle.i_shape_core.specs.IntPoint.{contour_of, IsSafeContour};
ghost use Rattle.i_shape_core.specs.Reading.{read};
ghost use Rattle.i_shape_core.specs.Cleaning.{Cleaning, simplifying, despiking, removing_spikes, canonicalizing, canonicalizing_unoriented};
ghost use Rattle.i_shape_core.specs.Refusals.{OkUnlessMemory};
ghost use Rattle.i_shape_core.specs.Room.{HasRoomToSimplify, HasRoomToDespike};
ghost use Rattle.i_shape_core.specs.Written.{CleansTo, CleansInto, IsWritten, TakesContourRoom};

use crate::clean::despike::{ContourDeSpiker, has_no_spikes, is_despiked};
use crate::clean::simple::is_simple;
use crate::clean::simplifier::ContourSimplifier;
use crate::clean::write::write_whole;
use crate::error::ShapeError;
use crate::form::canonical::rotate_to_least;
use crate::form::unoriented::rotate_to_lesser;
use crate::number::IntNumber;
use crate::point::{ContourPoint, IntContour, IntPoint};
use std::alloc::Global;

/// Cleans contours, whose points must be safe. One value cleans any number of them, and keeps its memory from one to
/// the next. Where there is room for the longest contour that isn't clean, `clean_into` can't fail. No cleaner needs
/// room for fewer than three points; those that remove only spikes and repeated points need none for three points
/// either.
///
/// A contour may have several results, such as those of removing its spikes in another order. Only tests show that
/// earlier calls don't affect which one is returned.
pub trait ContourCleaner: Drop {
    /// What the cleaner does with a contour: of which contours it removes no point, the results that it may have, what
    /// these keep of the contour, and for how many points it needs no memory.
    ghost meaning: { Cleaning };

    /// The cleaner needs no more memory for a contour of that many points.
    ghost has_room: { Self → ℕ → Type 0 };

    /// Returns a cleaner that allocates from `alloc`, but not before a contour needs memory.
    fn new(alloc: Global) -> Self
        ensures no_room { (n : ℕ) → has_room result n → n < meaning.fewest };

    /// Makes room for contours of up to `points` points, and changes nothing where these need none. It never reduces
    /// the room.
    ///
    /// # Errors
    ///
    /// `OutOfMemory`, which can't occur where they need none or if there is room.
    fn reserve(&mut self, points: usize) -> Result<(), ShapeError>
        ensures room { IfOk result (λ _. has_room self.new points) }
        ensures reserved { has_room self.old points → IsOk result }
        ensures short { points < 3 → IsOk result }
        ensures untouched { points < meaning.fewest → self.new ≡ self.old }
        ensures keeps_room { (n : ℕ) → has_room self.old n → has_room self.new n }
        ensures memory { IsOkUnless result ShapeError.OutOfMemory };

    /// Returns whether the contour is clean. Allocates nothing.
    fn is_clean<P: ContourPoint>(contour: &[P]) -> bool
        requires { IsSafeContour P.Coordinate.width (read P.Coordinate.value P.points contour.now) }
        ensures { IsTrue result ↔ meaning.clean (read P.Coordinate.value P.points contour.now) };

    /// Returns the cleaned contour, or `None` if it collapses. Makes room for a contour that isn't clean, and keeps it.
    ///
    /// # Errors
    ///
    /// `OutOfMemory`, which can't occur below three points, nor where the contour isn't clean and has so few points
    /// that it needs no room.
    fn cleaned<I: IntNumber>(
        &mut self,
        contour: &[IntPoint<I>],
    ) -> Result<Option<IntContour<I>>, ShapeError>
        requires { IsSafeContour I.width (contour_of I.value contour.now) }
        ensures answer { let c = contour_of I.value contour.now in
            OkUnlessMemory result (CleansTo meaning I.width I.value c) }
        ensures short { length contour.now < 3 → result ≡ Ok None }
        ensures spared { (meaning.clean (contour_of I.value contour.now) → ⊥)
            → length contour.now < meaning.fewest → IsOk result }
        ensures keeps_room { (n : ℕ) → has_room self.old n → has_room self.new n }
        ensures takes_room { OnOk result ((meaning.clean (contour_of I.value contour.now) → ⊥)
            → has_room self.new (length contour.now)) };

    /// Returns a result that `cleaned` may return, without testing the contour first. Requires one that isn't clean.
    ///
    /// # Errors
    ///
    /// `OutOfMemory`, which can't occur where the contour needs no room.
    fn cleaned_unchecked<I: IntNumber>(
        &mut self,
        contour: &[IntPoint<I>],
    ) -> Result<Option<IntContour<I>>, ShapeError>
        requires points_safe { IsSafeContour I.width (contour_of I.value contour.now) }
        requires unclean { meaning.clean (contour_of I.value contour.now) → ⊥ }
        ensures answer { let c = contour_of I.value contour.now in
            OkUnlessMemory result (CleansTo meaning I.width I.value c) }
        ensures short { length contour.now < 3 → result ≡ Ok None }
        ensures spared { length contour.now < meaning.fewest → IsOk result }
        ensures keeps_room { (n : ℕ) → has_room self.old n → has_room self.new n }
        ensures takes_room { OnOk result (has_room self.new (length contour.now)) }
    {
        self.cleaned(contour)
    }

    /// Writes the result for a clean contour to the front of `out`, and returns its number of points, which is that of
    /// the contour. Requires a clean contour, and an `out` at least as long. Allocates nothing.
    fn write_clean<P: ContourPoint>(contour: &[P], out: &mut [P]) -> usize
        requires points_safe { IsSafeContour P.Coordinate.width
            (read P.Coordinate.value P.points contour.now) }
        requires room { length contour.now ≤ length out.old }
        requires clean { meaning.clean (read P.Coordinate.value P.points contour.now) }
        ensures written { IsWritten meaning P.Coordinate.width
            (read P.Coordinate.value P.points) contour.now out.old out.new result }
        ensures len { length out.new ≡ length out.old }
        ensures count { result ≡ length contour.now }
        ensures enough { 3 ≤ length contour.now };

    /// Writes what is left of a contour that isn't clean to the front of `out`, and returns its number of points, 0 if
    /// the contour collapses. Requires a contour that isn't clean, room for it, and an `out` at least as long.
    /// Allocates nothing.
    fn write_left<P: ContourPoint>(&mut self, contour: &[P], out: &mut [P]) -> usize
        requires points_safe { IsSafeContour P.Coordinate.width
            (read P.Coordinate.value P.points contour.now) }
        requires room { length contour.now ≤ length out.old }
        requires unclean { meaning.clean (read P.Coordinate.value P.points contour.now) → ⊥ }
        requires reserved { has_room self.old (length contour.now) }
        ensures written { IsWritten meaning P.Coordinate.width
            (read P.Coordinate.value P.points) contour.now out.old out.new result }
        ensures len { length out.new ≡ length out.old }
        ensures short { length contour.now < 3 → result ≡ 0 }
        ensures keeps_room { (n : ℕ) → has_room self.old n → has_room self.new n };

    /// Writes the cleaned contour to the front of `out`. Returns the number of points written, 0 if the contour
    /// collapses. The rest of `out` stays as it was. Requires an `out` at least as long as the contour, and room for a
    /// contour that isn't clean. Allocates nothing and can't fail.
    fn clean_into<P: ContourPoint>(&mut self, contour: &[P], out: &mut [P]) -> usize
        requires points_safe { IsSafeContour P.Coordinate.width
            (read P.Coordinate.value P.points contour.now) }
        requires room { length contour.now ≤ length out.old }
        requires reserved { (meaning.clean (read P.Coordinate.value P.points contour.now) → ⊥)
            → has_room self.old (length contour.now) }
        ensures written { IsWritten meaning P.Coordinate.width
            (read P.Coordinate.value P.points) contour.now out.old out.new result }
        ensures len { length out.new ≡ length out.old }
        ensures short { length contour.now < 3 → result ≡ 0 }
        ensures keeps_room { (n : ℕ) → has_room self.old n → has_room self.new n }
    {
        if Self::is_clean(contour) {
            Self::write_clean(contour, out)
        } else {
            self.write_left(contour, out)
        }
    }

    /// Writes the cleaned contour as `clean_into` does, but first makes room for a contour that isn't clean, and keeps
    /// it. Requires an `out` at least as long as the contour.
    ///
    /// # Errors
    ///
    /// `OutOfMemory`, which can't occur if the contour is clean or there is room, and leaves `out` as it was.
    fn try_clean_into<P: ContourPoint>(
        &mut self,
        contour: &[P],
        out: &mut [P],
    ) -> Result<usize, ShapeError>
        requires points_safe { IsSafeContour P.Coordinate.width
            (read P.Coordinate.value P.points contour.now) }
        requires room { length contour.now ≤ length out.old }
        ensures written { CleansInto meaning P.Coordinate.width
            (read P.Coordinate.value P.points) contour.now out.old out.new result }
        ensures memory { TakesContourRoom
            (meaning.clean (read P.Coordinate.value P.points contour.now))
            (has_room self.old) (has_room self.new) (length contour.now) result }
    {
        if Self::is_clean(contour) {
            return Ok(Self::write_clean(contour, out));
        }
        self.reserve(contour.len())?;
        Ok(self.write_left(contour, out))
    }

    /// Room for a contour is also room for a shorter one.
    ghost fewer: { (cleaner : Self) (m n : ℕ) → m ≤ n → has_room cleaner n → has_room cleaner m };

    /// There is room for a contour that needs no memory.
    ghost spares: { (cleaner : Self) (n : ℕ) → n < meaning.fewest → has_room cleaner n };
}

/// Removes zero turns.
impl ContourCleaner for ContourSimplifier {
    ghost meaning = { simplifying };

    ghost has_room = { HasRoomToSimplify };

    fn new(alloc: Global) -> ContourSimplifier {
        ContourSimplifier::new(alloc)
    }

    fn reserve(&mut self, points: usize) -> Result<(), ShapeError> {
        ContourSimplifier::reserve(self, points)
    }

    fn is_clean<P: ContourPoint>(contour: &[P]) -> bool {
        is_simple(contour)
    }

    fn cleaned<I: IntNumber>(
        &mut self,
        contour: &[IntPoint<I>],
    ) -> Result<Option<IntContour<I>>, ShapeError> {
        if is_simple(contour) {
            return Ok(Some(Vec::from_slice(self.allocator(), contour)?));
        }
        self.cleaned_unchecked(contour)
    }

    fn cleaned_unchecked<I: IntNumber>(
        &mut self,
        contour: &[IntPoint<I>],
    ) -> Result<Option<IntContour<I>>, ShapeError> {
        self.simplify_contour(contour)
    }

    fn write_clean<P: ContourPoint>(contour: &[P], out: &mut [P]) -> usize {
        write_whole(contour, out)
    }

    fn write_left<P: ContourPoint>(&mut self, contour: &[P], out: &mut [P]) -> usize {
        self.walk_into(contour, out)
    }

    ghost fewer = { Prim.search (rules, arith) };

    ghost spares = { Prim.search (rules, arith) };
}

/// Removes spikes and repeated points.
impl ContourCleaner for ContourDeSpiker {
    ghost meaning = { despiking };

    ghost has_room = { HasRoomToDespike };

    fn new(alloc: Global) -> ContourDeSpiker {
        ContourDeSpiker::new(alloc)
    }

    fn reserve(&mut self, points: usize) -> Result<(), ShapeError> {
        ContourDeSpiker::reserve(self, points)
    }

    fn is_clean<P: ContourPoint>(contour: &[P]) -> bool {
        is_despiked(contour)
    }

    fn cleaned<I: IntNumber>(
        &mut self,
        contour: &[IntPoint<I>],
    ) -> Result<Option<IntContour<I>>, ShapeError> {
        if is_despiked(contour) {
            return Ok(Some(Vec::from_slice(self.allocator(), contour)?));
        }
        self.cleaned_unchecked(contour)
    }

    fn cleaned_unchecked<I: IntNumber>(
        &mut self,
        contour: &[IntPoint<I>],
    ) -> Result<Option<IntContour<I>>, ShapeError> {
        self.despike_contour(contour)
    }

    fn write_clean<P: ContourPoint>(contour: &[P], out: &mut [P]) -> usize {
        write_whole(contour, out)
    }

    fn write_left<P: ContourPoint>(&mut self, contour: &[P], out: &mut [P]) -> usize {
        self.walk_into(contour, out)
    }

    ghost fewer = { Prim.search (rules, arith) };

    ghost spares = { Prim.search (rules, arith) };
}

/// Removes spikes and repeated points, but leaves a contour without spikes as it is, with its repeated points.
#[derive(Drop)]
pub struct SpikeRemover {
    de_spiker: ContourDeSpiker,
}

impl ContourCleaner for SpikeRemover {
    ghost meaning = { removing_spikes };

    ghost has_room = { λ cleaner. HasRoomToDespike cleaner.de_spiker };

    fn new(alloc: Global) -> SpikeRemover {
        SpikeRemover {
            de_spiker: ContourDeSpiker::new(alloc),
        }
    }

    fn reserve(&mut self, points: usize) -> Result<(), ShapeError> {
        self.de_spiker.reserve(points)
    }

    fn is_clean<P: ContourPoint>(contour: &[P]) -> bool {
        has_no_spikes(contour)
    }

    fn cleaned<I: IntNumber>(
        &mut self,
        contour: &[IntPoint<I>],
    ) -> Result<Option<IntContour<I>>, ShapeError> {
        if has_no_spikes(contour) {
            return Ok(Some(Vec::from_slice(self.de_spiker.allocator(), contour)?));
        }
        self.cleaned_unchecked(contour)
    }

    fn cleaned_unchecked<I: IntNumber>(
        &mut self,
        contour: &[IntPoint<I>],
    ) -> Result<Option<IntContour<I>>, ShapeError> {
        self.de_spiker.despike_contour(contour)
    }

    fn write_clean<P: ContourPoint>(contour: &[P], out: &mut [P]) -> usize {
        write_whole(contour, out)
    }

    fn write_left<P: ContourPoint>(&mut self, contour: &[P], out: &mut [P]) -> usize {
        self.de_spiker.walk_into(contour, out)
    }

    ghost fewer = { Prim.search (rules, arith) };

    ghost spares = { Prim.search (rules, arith) };
}

/// Brings contours into canonical form.
#[derive(Drop)]
pub struct Canonicalizer {
    simplifier: ContourSimplifier,
}

impl ContourCleaner for Canonicalizer {
    ghost meaning = { canonicalizing };

    ghost has_room = { λ cleaner. HasRoomToSimplify cleaner.simplifier };

    fn new(alloc: Global) -> Canonicalizer {
        Canonicalizer {
            simplifier: ContourSimplifier::new(alloc),
        }
    }

    fn reserve(&mut self, points: usize) -> Result<(), ShapeError> {
        self.simplifier.reserve(points)
    }

    fn is_clean<P: ContourPoint>(contour: &[P]) -> bool {
        is_simple(contour)
    }

    fn cleaned<I: IntNumber>(
        &mut self,
        contour: &[IntPoint<I>],
    ) -> Result<Option<IntContour<I>>, ShapeError> {
        self.simplifier.canonical(contour)
    }

    fn write_clean<P: ContourPoint>(contour: &[P], out: &mut [P]) -> usize {
        let count = write_whole(contour, out);
        rotate_to_least(&mut out[..count]);
        count
    }

    fn write_left<P: ContourPoint>(&mut self, contour: &[P], out: &mut [P]) -> usize {
        let count = self.simplifier.walk_into(contour, out);
        if count > 0 {
            rotate_to_least(&mut out[..count]);
        }
        count
    }

    ghost fewer = { Prim.search (rules, arith) };

    ghost spares = { Prim.search (rules, arith) };
}

/// Brings contours into canonical form without regard to direction.
#[derive(Drop)]
pub struct UnorientedCanonicalizer {
    canonicalizer: Canonicalizer,
}

impl ContourCleaner for UnorientedCanonicalizer {
    ghost meaning = { canonicalizing_unoriented };

    ghost has_room = { λ cleaner. HasRoomToSimplify cleaner.canonicalizer.simplifier };

    fn new(alloc: Global) -> UnorientedCanonicalizer {
        UnorientedCanonicalizer {
            canonicalizer: Canonicalizer::new(alloc),
        }
    }

    fn reserve(&mut self, points: usize) -> Result<(), ShapeError> {
        self.canonicalizer.reserve(points)
    }

    fn is_clean<P: ContourPoint>(contour: &[P]) -> bool {
        is_simple(contour)
    }

    fn cleaned<I: IntNumber>(
        &mut self,
        contour: &[IntPoint<I>],
    ) -> Result<Option<IntContour<I>>, ShapeError> {
        self.canonicalizer.simplifier.canonical_unoriented(contour)
    }

    fn write_clean<P: ContourPoint>(contour: &[P], out: &mut [P]) -> usize {
        let count = Canonicalizer::write_clean(contour, out);
        rotate_to_lesser(&mut out[..count]);
        count
    }

    fn write_left<P: ContourPoint>(&mut self, contour: &[P], out: &mut [P]) -> usize {
        let count = self.canonicalizer.write_left(contour, out);
        if count > 0 {
            rotate_to_lesser(&mut out[..count]);
        }
        count
    }

    ghost fewer = { Prim.search (rules, arith) };

    ghost spares = { Prim.search (rules, arith) };
}
