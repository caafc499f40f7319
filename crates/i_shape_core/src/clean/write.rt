//! Writes what a cleaner leaves of a contour to the front of a caller's list.

ghost use Rattle.std.specs.Prelude.{◌≡◌, ◌<◌, ◌≤◌, Some, map, take, drop, length, slice_get};
ghost use Rattle.std.specs.List.{All};

/// Writes all items to the front of `out`, and returns their number.
pub(crate) fn write_whole<T: Copy>(items: &[T], out: &mut [T]) -> usize
    requires { length items.now ≤ length out.old }
    ensures count { result ≡ length items.now }
    ensures items { take result out.new ≡ items.now }
    ensures rest { drop result out.new ≡ drop result out.old }
    ensures len { length out.new ≡ length out.old }
{
    out[..items.len()].copy_from_slice(items);
    items.len()
}

/// Writes the items at these places to the front of `out`, in the given order, and returns their number.
pub(crate) fn write_at<T: Copy>(items: &[T], places: &[usize], out: &mut [T]) -> usize
    requires below { All (λ k. k < length items.now) places.now }
    requires room { length places.now ≤ length out.old }
    ensures count { result ≡ length places.now }
    ensures items { map (λ item. Some item) (take result out.new)
        ≡ map (slice_get items.now) places.now }
    ensures rest { drop result out.new ≡ drop result out.old }
    ensures len { length out.new ≡ length out.old }
{
    let front = &mut out[..places.len()];
    for at in 0..places.len() {
        front[at] = items[places[at]];
    }
    places.len()
}
