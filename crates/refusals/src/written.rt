//! The cleaners that write what is left of a contour into a slice.

ghost use Rattle.std.specs.Prelude.{◌≤◌, length};
ghost use Rattle.std.specs.Int.{w32};
ghost use Rattle.std.specs.List.{All};
ghost use Rattle.i_shape.specs.IntPoint.{contour_of, IsSafe};

use crate::given::{FLAT, SPIKED, SQUARE, TURNED, safe};
use crate::told::{begun, call_twice, compared, ended};
use i_shape::IntNumber;
use i_shape::int::IntPoint;
use i_shape::int::cleaner::{Canonicalizer, ContourCleaner, SpikeRemover, UnorientedCanonicalizer};
use i_shape::int::despike::ContourDeSpiker;
use i_shape::int::simple::ContourSimplifier;
use std::alloc::Global;
use std::process::Abort;

/// These points. The test stops where one isn't safe, and where they are more than six.
fn few<'a, I: IntNumber>(rt: &impl Abort, points: &'a [IntPoint<I>]) -> &'a [IntPoint<I>]
    ensures points_safe { All (IsSafe I.width) (contour_of I.value result.now) }
    ensures room { length result.now ≤ 6 }
{
    let kept = safe(rt, points);
    assert!(rt; kept.len() <= 6, "more than six points");
    kept
}

/// What a slice holds before it is written into.
const ROOM: [IntPoint<i32>; 6] = [IntPoint { x: 9, y: 9 }; 6];

/// A call of a new cleaner, by its name.
fn writes_anew<C: ContourCleaner>(
    rt: &(impl Abort + Print),
    name: &str,
    alloc: Global,
    points: &[IntPoint<i32>],
)
    requires points_safe { All (IsSafe w32) (contour_of (λ z. z) points.now) }
    requires room { length points.now ≤ 6 }
{
    let mut out = ROOM;
    begun(rt, name);
    let outcome = C::new(alloc).try_clean_into(points, &mut out);
    ended(rt, name, &outcome, out == ROOM);
}

/// Two calls of the cleaner, by their name.
fn writes<C: ContourCleaner>(
    rt: &(impl Abort + Print),
    name: &str,
    cleaner: &mut C,
    points: &[IntPoint<i32>],
)
    requires points_safe { All (IsSafe w32) (contour_of (λ z. z) points.now) }
    requires room { length points.now ≤ 6 }
{
    let (mut out, mut again) = (ROOM, ROOM);
    begun(rt, name);
    let first = cleaner.try_clean_into(points, &mut out);
    ended(rt, name, &first, out == ROOM);
    let second = cleaner.try_clean_into(points, &mut again);
    compared(rt, name, (first, second), out == again);
}

#[test]
fn by_a_new_cleaner(rt: HostRuntime) {
    let alloc = rt.alloc();
    let (spiked, turned) = (few(&rt, SPIKED.as_slice()), few(&rt, TURNED.as_slice()));
    writes_anew::<ContourSimplifier>(&rt, "ContourSimplifier::try_clean_into", alloc, spiked);
    writes_anew::<Canonicalizer>(&rt, "Canonicalizer::try_clean_into", alloc, turned);
    writes_anew::<UnorientedCanonicalizer>(
        &rt,
        "UnorientedCanonicalizer::try_clean_into",
        alloc,
        spiked,
    );
    writes_anew::<SpikeRemover>(&rt, "SpikeRemover::try_clean_into", alloc, spiked);
    writes_anew::<ContourDeSpiker>(&rt, "ContourDeSpiker::try_clean_into", alloc, spiked);
}

/// There is no second call where the first is refused: it would take the memory that the first one lacked.
#[test]
fn by_a_used_cleaner(rt: HostRuntime) {
    let mut out = SPIKED;
    let spiked = few(&rt, SPIKED.as_slice());
    let mut simplifier = ContourSimplifier::new(rt.alloc());
    if simplifier.try_clean_into(spiked, &mut out).is_ok() {
        writes(
            &rt,
            "ContourSimplifier::try_clean_into of a second contour",
            &mut simplifier,
            spiked,
        );
    }
    let mut canonicalizer = Canonicalizer::new(rt.alloc());
    if canonicalizer.try_clean_into(spiked, &mut out).is_ok() {
        writes(
            &rt,
            "Canonicalizer::try_clean_into of a second contour",
            &mut canonicalizer,
            spiked,
        );
    }
    let mut despiker = ContourDeSpiker::new(rt.alloc());
    if despiker.try_clean_into(spiked, &mut out).is_ok() {
        writes(
            &rt,
            "ContourDeSpiker::try_clean_into of a second contour",
            &mut despiker,
            spiked,
        );
    }
}

/// With room for the longest contour a cleaner takes no more, however many it cleans.
#[test]
fn with_room(rt: HostRuntime) {
    let (four, six) = (few(&rt, &SPIKED[..4]), few(&rt, SPIKED.as_slice()));
    let mut simplifier = ContourSimplifier::new(rt.alloc());
    call_twice!(rt, "ContourSimplifier::reserve" => simplifier.reserve(6));
    writes(
        &rt,
        "ContourSimplifier::try_clean_into of four points with room",
        &mut simplifier,
        four,
    );
    writes(
        &rt,
        "ContourSimplifier::try_clean_into of six points with room",
        &mut simplifier,
        six,
    );
    let mut canonicalizer = Canonicalizer::new(rt.alloc());
    call_twice!(rt, "Canonicalizer::reserve" => canonicalizer.reserve(6));
    writes(
        &rt,
        "Canonicalizer::try_clean_into with room",
        &mut canonicalizer,
        six,
    );
    let mut despiker = ContourDeSpiker::new(rt.alloc());
    call_twice!(rt, "ContourDeSpiker::reserve" => despiker.reserve(6));
    writes(
        &rt,
        "ContourDeSpiker::try_clean_into of four points with room",
        &mut despiker,
        four,
    );
    writes(
        &rt,
        "ContourDeSpiker::try_clean_into of six points with room",
        &mut despiker,
        six,
    );
}

#[test]
fn without_memory(rt: HostRuntime) {
    let mut simplifier = ContourSimplifier::new(rt.alloc());
    let mut canonicalizer = Canonicalizer::new(rt.alloc());
    let mut unoriented = UnorientedCanonicalizer::new(rt.alloc());
    let mut despiker = ContourDeSpiker::new(rt.alloc());
    let (clean, two, flat) = (
        few(&rt, SQUARE.as_slice()),
        few(&rt, &SQUARE[..2]),
        few(&rt, FLAT.as_slice()),
    );
    writes(
        &rt,
        "ContourSimplifier::try_clean_into of a clean contour",
        &mut simplifier,
        clean,
    );
    writes(
        &rt,
        "Canonicalizer::try_clean_into of a clean contour",
        &mut canonicalizer,
        clean,
    );
    writes(
        &rt,
        "ContourDeSpiker::try_clean_into of a clean contour",
        &mut despiker,
        clean,
    );
    writes(
        &rt,
        "ContourSimplifier::try_clean_into below three points",
        &mut simplifier,
        two,
    );
    writes(
        &rt,
        "Canonicalizer::try_clean_into below three points",
        &mut canonicalizer,
        two,
    );
    writes(
        &rt,
        "UnorientedCanonicalizer::try_clean_into below three points",
        &mut unoriented,
        two,
    );
    writes(
        &rt,
        "ContourDeSpiker::try_clean_into below three points",
        &mut despiker,
        two,
    );
    writes(
        &rt,
        "ContourDeSpiker::try_clean_into of three points that collapse",
        &mut despiker,
        flat,
    );
}
