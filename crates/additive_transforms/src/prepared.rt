// Transforms whose twiddles are made once.
ghost use Rattle.std.specs.Prelude.{◌≡◌, ℕ, ◌+◌, ◌-◌, ◌*◌, ◌^◌, ◌<◌, ◌≤◌, IfOk, length, map, take};
ghost use Rattle.ghash_slices.specs.Twiddles.{basis_of, shifts_of};

use crate::kernel::{Kernel, PolyKernel};
use crate::twiddles::Twiddles;
use crate::whole::{every_stage, forward_stages};
use field_base::Stored;
use ghash_slices::{LOW_STAGES, LowStageTwiddles};
use std::alloc::{AllocError, Allocator};

/// The transforms of 2^m values from one shift on, for one m from 0 to 40: the twiddles are made once, so that a call takes no
/// memory, and does not fail. `forward_with` and `inverse_with` make them in each call, which counts where there are few values.
#[derive(Drop)]
pub struct Transform<A: Allocator> {
    stages: usize,
    twiddles: Twiddles,
    low: LowStageTwiddles<A>,
    ghost few: { stages ≤ 40 },
    ghost shifts_are: { shifts_of low ≡ take 4 twiddles.shifts },
    ghost basis_is: { 4 ≤ stages → basis_of low ≡ take (stages - 1) twiddles.basis },
}

impl<A: Allocator> Transform<A> {
    ghost use Rattle.additive_transforms.specs.Transform.{AreOnlyCoefficients, HoldPolynomialValues};

    /// The transforms of 2 to the power of `stages` values, of which there may be at most 40 stages, from the shift `z` on. It fails
    /// only where the allocator refuses.
    pub fn new(alloc: A, stages: usize, z: u128) -> Result<Transform<A>, AllocError>
        requires { stages ≤ 40 }
        ensures { IfOk result (λ transform. (transform.stages ≡ stages) × (transform.twiddles.z ≡ z)) }
    {
        let twiddles = Twiddles::new(z);
        let elements = elements_for(stages);
        let low = LowStageTwiddles::new(alloc, &twiddles.shifts, &twiddles.basis[..elements])?;
        Ok(Transform {
            stages,
            twiddles,
            low,
        })
    }

    /// Leaves at each place the value at its point of the polynomial with the coefficients `values`, as `forward_with` does. There have to be 2
    /// to the power of the stages values.
    pub fn forward(&self, values: &mut [u128])
        requires { length values.old ≡ 2 ^ self.now.stages }
        ensures length { length values.new ≡ length values.old }
        ensures values { HoldPolynomialValues self.now.twiddles.z values.old values.new }
    {
        u128::words_fit(values);
        self.forward_with(&mut self.kernel(), values);
        u128::words_fit(values);
    }

    /// Replaces the values at the points by the coefficients of their polynomial, as `inverse_with` does. There have to be 2 to the power of the
    /// stages values.
    pub fn inverse(&self, values: &mut [u128])
        requires { length values.old ≡ 2 ^ self.now.stages }
        ensures length { length values.new ≡ length values.old }
        ensures coefficients { AreOnlyCoefficients self.now.twiddles.z values.old values.new }
    {
        u128::words_fit(values);
        self.inverse_with(&mut self.kernel(), values);
        u128::words_fit(values);
    }

    // The kernel over plain numbers, before it has counted a pair: all pairs have room in its count.
    fn kernel(&self) -> PolyKernel
        ensures { result.products + self.now.stages * 2 ^ (self.now.stages - 1) < 2 ^ 64 }
    {
        PolyKernel { products: 0 }
    }

    /// The transform `Transform::forward` by any kernel: nothing but the kernel computes on its elements. There have to be 2 to the power of the
    /// stages values, and the kernel's count and the pairs together have to fit 64 bits; the count rises by the pairs, half the values
    /// for each stage.
    pub fn forward_with<K: Kernel>(&self, kernel: &mut K, values: &mut [K::Elem])
        requires whole { length values.old ≡ 2 ^ self.now.stages }
        requires room { K.count kernel.old + self.now.stages * 2 ^ (self.now.stages - 1) < 2 ^ 64 }
        ensures length { length values.new ≡ length values.old }
        ensures values { HoldPolynomialValues self.now.twiddles.z (map K.value values.old) (map K.value values.new) }
        ensures count { K.count kernel.new ≡ K.count kernel.old + self.now.stages * 2 ^ (self.now.stages - 1) }
    {
        if self.stages < LOW_STAGES {
            every_stage(kernel, values, self.stages, self.twiddles.z, false);
        } else {
            forward_stages(kernel, values, self.stages, &self.twiddles, &self.low);
        }
    }

    /// The transform `Transform::inverse` by any kernel: nothing but the kernel computes on its elements. It requires what `forward_with` requires, and
    /// the count rises by as much.
    pub fn inverse_with<K: Kernel>(&self, kernel: &mut K, values: &mut [K::Elem])
        requires whole { length values.old ≡ 2 ^ self.now.stages }
        requires room { K.count kernel.old + self.now.stages * 2 ^ (self.now.stages - 1) < 2 ^ 64 }
        ensures length { length values.new ≡ length values.old }
        ensures coefficients { AreOnlyCoefficients self.now.twiddles.z (map K.value values.old) (map K.value values.new) }
        ensures count { K.count kernel.new ≡ K.count kernel.old + self.now.stages * 2 ^ (self.now.stages - 1) }
    {
        every_stage(kernel, values, self.stages, self.twiddles.z, true);
    }
}

// How many elements the basis of the low stages has: one fewer than there are stages, and at least three.
fn elements_for(stages: usize) -> usize
    requires { stages ≤ 40 }
    ensures least { 3 ≤ result }
    ensures most { result ≤ 39 }
    ensures enough { 4 ≤ stages → result ≡ stages - 1 }
{
    if stages < LOW_STAGES {
        LOW_STAGES - 1
    } else {
        stages - 1
    }
}
