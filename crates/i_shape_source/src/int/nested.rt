//! Slices, vectors and arrays as resources. If one of them is known to be safe, so is each with the same items.
ghost use Rattle.i_shape_source.specs.ShapeLists.{HoldsOfEqual};

use crate::int::member::IntResourceMember;
use crate::int::resource::IntShapeResource;
use i_shape_core::number::IntNumber;
use i_shape_core::point::IntPoint;

impl<'a, I: IntNumber + 'a, T: IntResourceMember<'a, I>> IntShapeResource<'a, I> for &'a [T] {
    type ResourceIter = T::MemberIter;

    ghost paths = { λ members. T.member_paths members.now };

    ghost safe = { λ members. HoldsOfEqual T.safe members.now };

    ghost begins = { λ members iter. T.begins members.now iter };

    fn iter_paths(self) -> T::MemberIter {
        T::lend(self)
    }
}

impl<'a, I: IntNumber + 'a, T: IntResourceMember<'a, I>> IntShapeResource<'a, I> for &'a &'a [T] {
    type ResourceIter = T::MemberIter;

    ghost paths = { λ members. T.member_paths members.now.now };

    ghost safe = { λ members. HoldsOfEqual T.safe members.now.now };

    ghost begins = { λ members iter. T.begins members.now.now iter };

    fn iter_paths(self) -> T::MemberIter {
        T::lend(*self)
    }
}

impl<'a, I: IntNumber + 'a, T: IntResourceMember<'a, I>> IntShapeResource<'a, I> for &'a Vec<T> {
    type ResourceIter = T::MemberIter;

    ghost paths = { λ members. T.member_paths members.now.items };

    ghost safe = { λ members. HoldsOfEqual T.safe members.now.items };

    ghost begins = { λ members iter. T.begins members.now.items iter };

    fn iter_paths(self) -> T::MemberIter {
        T::lend(self.as_slice())
    }
}

impl<'a, I: IntNumber + 'a, T: IntResourceMember<'a, I>, const N: usize> IntShapeResource<'a, I>
    for &'a [T; N] {
    type ResourceIter = T::MemberIter;

    ghost paths = { λ members. T.member_paths members.now };

    ghost safe = { λ members. HoldsOfEqual T.safe members.now };

    ghost begins = { λ members iter. T.begins members.now iter };

    fn iter_paths(self) -> T::MemberIter {
        T::lend(self.as_slice())
    }
}

impl<'a, I: IntNumber + 'a, R: 'a> IntShapeResource<'a, I> for &'a &'a R
where
    &'a R: IntShapeResource<'a, I>,
{
    type ResourceIter = <&'a R as IntShapeResource<'a, I>>::ResourceIter;

    ghost paths = { λ r. ⟦<&'a R as IntShapeResource<'a, I>>⟧.paths r.now };

    ghost safe = { λ r. ⟦<&'a R as IntShapeResource<'a, I>>⟧.safe r.now };

    ghost begins = { λ r iter. ⟦<&'a R as IntShapeResource<'a, I>>⟧.begins r.now iter };

    ghost can_read = { λ r. ⟦<&'a R as IntShapeResource<'a, I>>⟧.can_read r.now };

    fn iter_paths(self) -> <&'a R as IntShapeResource<'a, I>>::ResourceIter {
        (*self).iter_paths()
    }
}
