// Loops over lanes: one of two slices or packings, and one of a slice alone.
ghost use Rattle.std.specs.Prelude.{◌≡◌, ◌<◌, ℕ, length, slice_index_or};
ghost use Rattle.packed_lanes.specs.Lanes.{AtEachPlace};

use crate::packed::Packed;

impl<F: Copy, const N: usize> Packed<F, N> {
    // What `operation` returns for the lanes of both, place by place.
    #[inline]
    pub(crate) fn zip<O: Fn(F, F) -> F>(self, other: Packed<F, N>, operation: O) -> Packed<F, N>
        requires { O.IsAlwaysCallable operation }
        ensures { AtEachPlace (λ x y z. O.post operation x y z) N self.lanes other.lanes result.lanes }
    {
        let mut lanes = self.lanes;
        zip_lanes(lanes.as_mut_slice(), other.lanes.as_slice(), operation);
        Packed { lanes }
    }
}

// Replaces each element of `left` by what `operation` returns for it and the element of `right` at its place.
#[inline]
pub(crate) fn zip_lanes<F: Copy, O: Fn(F, F) -> F>(left: &mut [F], right: &[F], operation: O)
    requires long { length left.old ≡ length right.now }
    requires callable { O.IsAlwaysCallable operation }
    ensures long { length left.new ≡ length left.old }
    ensures each { AtEachPlace (λ x y z. O.post operation x y z) (length left.old) left.old right.now left.new }
{
    for lane in 0..right.len() {
        left[lane] = operation(left[lane], right[lane]);
    }
}

// Replaces each element by what `operation` returns for it.
#[inline]
pub(crate) fn map_lanes<F: Copy, O: Fn(F) -> F>(lanes: &mut [F], operation: O)
    requires callable { O.IsAlwaysCallable operation }
    ensures long { length lanes.new ≡ length lanes.old }
    ensures each { (k : ℕ) (d : F) → k < length lanes.old → O.post operation (slice_index_or lanes.old k d) (slice_index_or lanes.new k d) }
{
    for lane in 0..lanes.len() {
        lanes[lane] = operation(lanes[lane]);
    }
}
