// Hostile partners: doubles that refuse a byte call or a copy, or sample one byte always; what a challenger over them returns, what they
// have seen of it, and what it returns to each call after that.
//
// - A byte call is refused, the third in `observe`, the fifth in `sample_bits(12)`, the seventh in `observe_slice`, after one element and
//   half of the second: `Memory`; each call after it says `Failed`, also `check_witness(0, w)`, `grind(0)`, `observe_slice` of no elements
//   and a sample of a copy, and the partner sees none.
// - A copy is refused in `grind(8)` or by itself, or the first, second or tenth byte call of one: `Memory`; three samples are as if there
//   had been no call, and a fourth is refused, for which no byte call is left.
// - 255 is sampled always: `NoWitness` after all 65,536 candidates of 16 bits; a sample is as before. 0 is sampled always: the witness 0.
// - All is refused: `grind(0)` gives 0 and `check_witness(0, w)` true, and the partner sees nothing.
use super::asked::{Asked, EVERY_CALL, Row, Said, only_fails};
use std::alloc::Global;
use std::cell::Cell;
use test_elements::{Copies, Double, Seen};
use transcript_elements::{BinaryChallenger, ByteLevel};

/// What a double has seen: the numbers of bytes that were observed and sampled, and the last eight that were observed.
type Sight = (u32, u32, u64);

/// A double (the byte that it samples, the byte calls before the one that is refused, and its copies), a call of a challenger over it,
/// what that returns and what the double has seen by then, and what a sample then returns.
pub(crate) type Partner = ((u8, u32, Copies), Row, Said, Sight, Said);

/// Copies are granted, and refuse nothing.
const GRANTED: Copies = Copies::RefusingAfter(u32::MAX);

/// Partners of a field of 32 bits that sample 5 and refuse the byte call after so many, in a call that then fails for want of memory. The
/// third and the fifth byte call are refused in worked rows, and the seventh, in the second element of a slice.
pub(crate) static REFUSED_CALLS: [(u32, Row, Sight); 3] = [
    (2, [0, 0, 0x0403_0201, 0], (2, 0, 0x0102)),
    (4, [2, 12, 0, 0], (0, 4, 0)),
    (6, [11, 4, 0x0403_0201, 0], (6, 0, 0x0102_0304_0102)),
];

pub(crate) fn refused_call(row: &(u32, Row, Sight)) -> Partner {
    let (granted, call, sight) = *row;
    (
        (5, granted, GRANTED),
        call,
        Said::Memory,
        sight,
        Said::Failed,
    )
}

/// Partners of a field of 32 bits: the byte that they sample, as many byte calls as they grant, a call that needs no more, and what it
/// returns. The digest of a word is a worked row, and other digests and caps are observed in the order of their parts.
pub(crate) static GRANTED_CALLS: [(u8, u32, Row, Sight); 5] = [
    (5, 5, [3, 0, 9, 1], (0, 0, 0)),
    (0, 12, [7, 0, 0, 0], (8, 0, 0x0201_0000_0000_0000)),
    (0, 7, [6, 0, 0, 0], (3, 0, 0x0405_06)),
    (0, 8, [8, 0, 0, 0], (4, 0, 0x0102_0304)),
    (0, 20, [9, 0, 0, 0], (16, 0, 0x0800_0000_0000_0000)),
];

pub(crate) fn granted_call(row: &(u8, u32, Row, Sight)) -> Partner {
    let (byte, granted, call, sight) = *row;
    let next = Said::Number(u128::from(byte).wrapping_mul(0x0101_0101));
    (
        (byte, granted, GRANTED),
        call,
        Said::Number(call[3]),
        sight,
        next,
    )
}

/// Partners of a search for so many bits at a field of 16 bits, with the byte that they sample and their copies. None of the byte calls of
/// a copy reaches the challenger, whose own six are granted later. All 65,536 elements are tried, each by two bytes and eight samples, the
/// last four 0xfffc to 0xffff. Over a double that samples 0 the first candidate passes, and no other is tried. For no bits nothing is
/// asked, not a copy either.
pub(crate) static SEARCHES: [(u8, Copies, u128, Said, Sight); 7] = [
    (7, Copies::Refused, 8, Said::Memory, (0, 0, 0)),
    (7, Copies::RefusingAfter(0), 8, Said::Memory, (0, 0, 0)),
    (7, Copies::RefusingAfter(1), 8, Said::Memory, (1, 0, 0)),
    (7, Copies::RefusingAfter(9), 8, Said::Memory, (2, 7, 0)),
    (
        255,
        GRANTED,
        8,
        Said::NoWitness,
        (131_072, 524_288, 0xfcff_fdff_feff_ffff),
    ),
    (0, GRANTED, 8, Said::Number(0), (2, 8, 0)),
    (9, Copies::Refused, 0, Said::Number(0), (0, 0, 0)),
];

// The byte calls of three samples at 16 bits.
const OWN_CALLS: u32 = 6;

pub(crate) fn search(row: &(u8, Copies, u128, Said, Sight)) -> Partner {
    let (byte, copies, bits, said, sight) = *row;
    let next = Said::Number(u128::from(byte).wrapping_mul(0x0101));
    (
        (byte, OWN_CALLS, copies),
        [4, bits, 0, 0],
        said,
        sight,
        next,
    )
}

/// A partner that refuses a copy.
pub(crate) fn refused_copy() -> Partner {
    (
        (7, OWN_CALLS, Copies::Refused),
        [10, 0, 0, 0],
        Said::Memory,
        (0, 0, 0),
        Said::Number(0x0707),
    )
}

/// Whether the challenger over the partner returns what is wanted. Where it has failed, all calls say so and none reaches the partner.
pub(crate) fn is_answered<F: ByteLevel>(alloc: Global, partner: &Partner) -> bool {
    let (byte, granted, copies) = partner.0;
    let seen = Cell::new(Seen::default());
    let double = Double::new(&seen, byte, granted, copies);
    let mut challenger: BinaryChallenger<F, Double<'_>> = BinaryChallenger::new(double);
    ends_as_wanted(alloc, &mut challenger, partner, &seen)
}

fn has_seen(seen: &Cell<Seen>, wanted: Sight) -> bool {
    let (observed, sampled, bytes) = wanted;
    seen.get().is(observed, sampled, bytes)
}

fn samples_are<C: Asked>(alloc: Global, challenger: &mut C, wanted: [Said; 4]) -> bool {
    for said in wanted {
        if challenger.answer(alloc, &[1, 0, 0, 0]) != said {
            return false;
        }
    }
    true
}

fn ends_as_wanted<C: Asked>(
    alloc: Global,
    challenger: &mut C,
    partner: &Partner,
    seen: &Cell<Seen>,
) -> bool {
    let (_double, call, said, sight, next) = *partner;
    if challenger.answer(alloc, &call) != said || !has_seen(seen, sight) {
        return false;
    }
    if call[0] == 4 || call[0] == 10 {
        // A search that ends well leaves the copy, which refuses nothing.
        let is_the_copy = said == Said::Number(0) && call[1] > 0;
        let fourth = if is_the_copy { next } else { Said::Memory };
        return samples_are(alloc, challenger, [next, next, next, fourth]);
    }
    if next != Said::Failed {
        return challenger.answer(alloc, &[1, 0, 0, 0]) == next;
    }
    only_fails(alloc, challenger, &EVERY_CALL) && has_seen(seen, sight)
}
