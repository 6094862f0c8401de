// Calls of transforms that take memory, each growth refused in turn, and granted where there is memory: `LowStageTwiddles::new` with bases
// of 3 to 257 elements; and `forward_with`, `forward`, `forward_numbers` and `Transform::new` at 2^0 to 2^8 values. What they leave, also
// where memory is refused, the contracts say. Fewer than 16 values take no memory, but for `Transform::new`.
use crate::{Ending, Growing, Rest, fill, is_refused_in_turn};
use additive_transforms::{
    PolyKernel, Transform as KeptTransform, forward, forward_numbers, forward_with,
};
use ghash_slices::LowStageTwiddles;
use linked_list_allocator::LocalHeap;
use std::alloc::{AllocError, Allocator, Global};

// Twiddles with a basis of so many elements.
#[derive(Drop)]
struct Twiddles {
    elements: usize,
}

impl Growing for Twiddles {
    fn run<'a>(&self, heap: &'a LocalHeap, rest: Rest<'a>) -> Result<Ending, AllocError> {
        let mut numbers = [0; 257];
        fill(&mut numbers, 11);
        if self.elements < 3 || self.elements > 257 {
            return Ok(Ending::Wrong);
        }
        let basis = &numbers[..self.elements];
        let is_granted = LowStageTwiddles::new(heap, &[1, 2, 3, 4, 5], basis).is_ok();
        drop(rest);
        Ok(Ending::of(is_granted, true))
    }
}

fn are_twiddles_refused(alloc: Global) -> bool {
    for elements in 3..258usize {
        if !is_refused_in_turn(alloc, &Twiddles { elements }, true) {
            return false;
        }
    }
    true
}

#[test]
fn twiddles_are_granted_or_refused(rt: HostRuntime) {
    assert!(rt; are_twiddles_refused(rt.alloc()));
}

// How a transform of numbers is called.
#[derive(Clone, Copy, PartialEq)]
enum Way {
    ByKernel,
    Counted,
    Uncounted,
    Kept,
}

// The transform of 2^m drawn numbers, which are `count`.
#[derive(Drop)]
struct Transform {
    m: usize,
    count: usize,
    way: Way,
}

// Runs the transform of 2^m values for an m up to 12, or returns false.
fn transform_of<A: Allocator>(
    alloc: A,
    way: Way,
    values: &mut [u128],
    m: usize,
) -> Result<bool, AllocError> {
    if m > 12 || values.len() != 1 << m {
        return Ok(false);
    }
    match way {
        Way::ByKernel => {
            let mut kernel = PolyKernel { products: 0 };
            forward_with(alloc, &mut kernel, values, 3)?;
        }
        Way::Counted => forward(alloc, values, 3, &mut 0)?,
        Way::Uncounted => forward_numbers(alloc, values, 3)?,
        Way::Kept => {
            let kept = KeptTransform::new(alloc, m, 3)?;
            kept.forward(values);
        }
    }
    Ok(true)
}

impl Growing for Transform {
    fn run<'a>(&self, heap: &'a LocalHeap, rest: Rest<'a>) -> Result<Ending, AllocError> {
        let mut numbers = [0; 256];
        fill(&mut numbers, 7);
        if self.count > 256 {
            return Ok(Ending::Wrong);
        }
        let answer = transform_of(heap, self.way, &mut numbers[..self.count], self.m);
        drop(rest);
        Ok(match answer {
            Ok(runs) => Ending::of(true, runs),
            Err(_) => Ending::Refused,
        })
    }
}

fn are_transforms_refused(alloc: Global, way: Way) -> bool {
    for m in 0..9usize {
        let transform = Transform {
            m,
            count: 1 << m,
            way,
        };
        if !is_refused_in_turn(alloc, &transform, m >= 4 || way == Way::Kept) {
            return false;
        }
    }
    true
}

#[test]
fn the_transform_is_granted_or_refused(rt: HostRuntime) {
    for way in [Way::ByKernel, Way::Counted, Way::Uncounted, Way::Kept] {
        assert!(rt; are_transforms_refused(rt.alloc(), way));
    }
}
