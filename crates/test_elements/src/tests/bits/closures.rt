// A closure that counts its calls: `PackedGf2x512::from_fn` and `M256::from_words_fn` call it with each index once, in order.
use bits_packed::PackedGf2x512;
use field_base::Gf2;
use field_base::traits::{PrimeCharacteristicRing, TowerLevel};
use packed_lanes::{M256, Underlier};

// How often a closure was called, and whether its arguments were 0, 1, 2 and so on.
#[derive(Clone, Copy)]
struct Calls {
    count: usize,
    in_order: bool,
}

impl Calls {
    const NONE: Calls = Calls {
        count: 0,
        in_order: true,
    };

    fn note(&mut self, argument: usize) {
        self.in_order = self.in_order && argument == self.count;
        self.count = self.count.wrapping_add(1);
    }

    // Whether the arguments were the numbers below `count`, each once and in order.
    fn counted_to(&self, count: usize) -> bool {
        self.in_order && self.count == count
    }
}

// Whether each third lane alone is 1.
fn has_each_third_lane(packed: PackedGf2x512) -> bool {
    let mut lane: usize = 0;
    for bit in packed.lanes() {
        if (bit.to_repr() == 1) != (lane % 3 == 0) {
            return false;
        }
        lane = lane.wrapping_add(1);
    }
    lane == 512
}

#[test]
fn a_closure_is_called_for_each_lane_in_order(rt: HostRuntime) {
    let mut calls = Calls::NONE;
    let packed = PackedGf2x512::from_fn(|lane| {
        calls.note(lane);
        Gf2::from_bool(lane % 3 == 0)
    });
    assert!(rt; calls.counted_to(512) && has_each_third_lane(packed));
}

#[test]
fn a_closure_is_called_for_each_word_in_order(rt: HostRuntime) {
    let mut calls = Calls::NONE;
    let block = M256::from_words_fn(|i| {
        calls.note(i);
        i as u64
    });
    assert!(rt; calls.counted_to(4) && block == M256::from_words([0, 1, 2, 3]));
}
