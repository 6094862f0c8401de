// Packings interleaved by blocks of lanes.
//
//     left     a0 a1 a2 a3                  a0 b0 a2 b2     first
//                           by 1 lane:
//     right    b0 b1 b2 b3                  a1 b1 a3 b3     second
ghost use Rattle.std.specs.Prelude.{◌≡◌, ◌<◌, ◌≤◌, length};
ghost use Rattle.packed_lanes.specs.Lanes.{AreInterleaved, IsPowerOfTwo, interleaved_first, interleaved_second};

use crate::PackedFieldPow2;
use crate::packed::{Packed, WiderField};

impl<F: Copy, const N: usize> Packed<F, N> {
    ghost use Rattle.packed_lanes.specs.Packed.{lanes_of};

    /// Both packings interleaved by blocks of `block_len` lanes, a power of two up to `N`, which is a power of two itself: the even
    /// blocks of both, a block of this one before the same block of the other, and then the odd blocks. By blocks of `N` lanes both
    /// stay as they are. It is `interleave` of `PackedFieldPow2`.
    pub fn interleave(&self, other: Packed<F, N>, block_len: usize) -> (Packed<F, N>, Packed<F, N>)
        requires width { IsPowerOfTwo N }
        requires block { IsPowerOfTwo block_len }
        requires room { block_len ≤ N }
        ensures { AreInterleaved block_len (lanes_of self.now) (lanes_of other) (lanes_of result.0) (lanes_of result.1) }
    {
        let mut first = self.lanes;
        let mut second = other.lanes;
        interleave_lanes(
            &self.lanes,
            &other.lanes,
            block_len,
            first.as_mut_slice(),
            second.as_mut_slice(),
        );
        (Packed { lanes: first }, Packed { lanes: second })
    }
}

impl<F: WiderField, const N: usize> PackedFieldPow2 for Packed<F, N> {
    fn interleave(&self, other: Packed<F, N>, block_len: usize) -> (Packed<F, N>, Packed<F, N>) {
        Packed::interleave(self, other, block_len)
    }
}

// Writes the lanes of `left` and `right` interleaved by blocks.
fn interleave_lanes<F: Copy>(
    left: &[F],
    right: &[F],
    block_len: usize,
    first: &mut [F],
    second: &mut [F],
)
    requires width { IsPowerOfTwo (length left.now) }
    requires block { IsPowerOfTwo block_len }
    requires room { block_len ≤ length left.now }
    requires right { length right.now ≡ length left.now }
    requires first { length first.old ≡ length left.now }
    requires second { length second.old ≡ length left.now }
    ensures { AreInterleaved block_len left.now right.now first.new second.new }
{
    for lane in 0..left.len() {
        first[lane] = first_lane(left, right, block_len, lane);
        second[lane] = second_lane(left, right, block_len, lane);
    }
}

// A lane of the first result: in even blocks that of the left, and in odd ones that of the right a block before.
#[inline]
fn first_lane<F: Copy>(left: &[F], right: &[F], block_len: usize, lane: usize) -> F
    requires block { 0 < block_len }
    requires room { lane < length left.now }
    requires right { length right.now ≡ length left.now }
    ensures { (d : F) → result ≡ interleaved_first block_len left.now right.now d lane }
{
    if lane / block_len % 2 == 0 {
        left[lane]
    } else {
        right[lane - block_len]
    }
}

// A lane of the second result: in even blocks that of the left a block after, and in odd ones that of the right.
#[inline]
fn second_lane<F: Copy>(left: &[F], right: &[F], block_len: usize, lane: usize) -> F
    requires width { IsPowerOfTwo (length left.now) }
    requires block { IsPowerOfTwo block_len }
    requires few { block_len ≤ length left.now }
    requires room { lane < length left.now }
    requires right { length right.now ≡ length left.now }
    ensures { (d : F) → result ≡ interleaved_second block_len left.now right.now d lane }
{
    let count = left.len();
    if block_len == count {
        right[lane]
    } else if lane / block_len % 2 == 0 {
        left[lane + block_len]
    } else {
        right[lane]
    }
}
