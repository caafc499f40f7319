//! The safe-range test of a resource.
ghost use Rattle.std.specs.Prelude.{◌↔◌, [], ◌∷◌, IsTrue};
ghost use Rattle.i_shape_source.specs.ShapeLists.{AreSafePaths};

use crate::int::resource::IntShapeResource;
use i_shape_core::number::IntNumber;
use i_shape_core::point::IntPoint;
use i_shape_core::safe_range::are_safe;

/// The safe-range test of every resource that is `Copy`.
pub trait IntSafeRange<'a, I: IntNumber + 'a>: IntShapeResource<'a, I> + Copy {
    /// Returns whether every point of every path is safe: both its coordinates lie strictly between -2^(BITS-2) and
    /// 2^(BITS-2).
    ///
    /// A resource without points is safe.
    fn is_in_safe_range(self) -> bool
        requires { Self.can_read self }
        ensures safe { IsTrue result ↔ Self.safe self }
        ensures paths { IsTrue result ↔ AreSafePaths I.width I.value (Self.paths self) };
}

impl<'a, I: IntNumber + 'a, R: IntShapeResource<'a, I> + Copy> IntSafeRange<'a, I> for R {
    #[tactic(auto, using(std::proofs::lemmas::Grind::common_steps, crate::proofs::SafePaths::safe_paths))]
    fn is_in_safe_range(self) -> bool {
        self.iter_paths().all(|path| is_safe_path(path))
    }
}

fn is_safe_path<I: IntNumber>(path: &[IntPoint<I>]) -> bool
    ensures { IsTrue result ↔ AreSafePaths I.width I.value (path.now ∷ []) }
{
    are_safe(path)
}
