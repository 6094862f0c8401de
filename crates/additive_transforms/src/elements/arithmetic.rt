// What the stages of a transform compute with.
ghost use Rattle.std.specs.Prelude.{◌≡◌, ◌++◌, ◌^◌, ◌<◌, ◌≤◌, Bool, ℕ, bit_xor, false, length, map, slice_index};
ghost use Rattle.field_base.specs.Orders.{AreCantorVectors};
ghost use Rattle.field_base.specs.Ring.{IsRing};
ghost use Rattle.ghash_slices.specs.Cantor.{subspace_value};
ghost use Rattle.additive_transforms.specs.Counting.{AddsUp, AlwaysHasRoom};
ghost use Rattle.additive_transforms.specs.lemmas.Counting.{nothing_counted};
ghost use Rattle.additive_transforms.specs.Stages.{TakesBlock};
ghost use Rattle.additive_transforms.specs.Transform.{HasStages, TakesTransform};

use crate::elements::pairs::run_pairs;
use crate::stages::stages_from;
use field_base::traits::TowerLevel;
use std::marker::PhantomData;

/// The stages of a slice that fits the first cache, which is 32 KB or more: so many stages have 2^10 values, which are 16 KB where a value
/// has 16 bytes.
pub(crate) const CACHED_STAGES: usize = 10;

/// What the stages of a transform compute with: what the places hold, the twiddles, and the butterflies. All of these stand for
/// elements of one field that has Cantor vectors.
pub(crate) trait StageArithmetic {
    /// What a place holds.
    type Value;

    /// A twiddle.
    type Twiddle: Copy;

    /// What counts the pairs of places that are computed: `()` where nothing does.
    type Counter;

    // The bits of the field, its product and its Cantor vectors.
    ghost width: { ℕ };

    ghost product: { ℕ → ℕ → ℕ };

    ghost vector: { ℕ → ℕ };

    // The element that a place holds, and that a twiddle is.
    ghost value: { Self.Value → ℕ };

    ghost number: { Self.Twiddle → ℕ };

    // How many pairs were counted from one state of the counter to another, and whether it has room for so many.
    ghost counted: { Self.Counter → Self.Counter → ℕ → Type 0 };

    ghost has_room: { Self.Counter → ℕ → Type 0 };

    /// The sum.
    fn sum(x: Self::Twiddle, y: Self::Twiddle) -> Self::Twiddle
        ensures { number result ≡ bit_xor (number x) (number y) };

    /// Cantor vector i, for i below the bits of the field.
    fn cantor_vector(i: usize) -> Self::Twiddle
        requires { i < width }
        ensures { number result ≡ vector i };

    /// The square.
    fn square(x: Self::Twiddle) -> Self::Twiddle
        ensures { number result ≡ product (number x) (number x) };

    /// The shift of a stage of the transform whose points begin at `z`: s_j(z), where s_0(z) = z and s_(j + 1)(z) = s_j(z)^2 + s_j(z).
    fn shift(z: Self::Twiddle, stage: usize) -> Self::Twiddle
        ensures { number result ≡ subspace_value product stage (number z) }
    {
        let mut value = z;
        for _ in 0..stage {
            value = Self::sum(Self::square(value), value);
        }
        value
    }

    /// The forward butterfly of each pair of places, `lo += twiddle * hi` and then `hi += lo`, or, where `inverse` is true, the inverse one,
    /// `hi += lo` and then `lo += twiddle * hi`. Both slices, the halves of a block, have to be of one length, which is counted.
    fn butterflies(
        counter: &mut Self::Counter,
        lo: &mut [Self::Value],
        hi: &mut [Self::Value],
        twiddle: Self::Twiddle,
        inverse: bool,
    )
        requires pairs { length lo.old ≡ length hi.old }
        requires room { has_room counter.old (length lo.old) }
        ensures lower { length lo.new ≡ length lo.old }
        ensures upper { length hi.new ≡ length hi.old }
        ensures values { TakesBlock inverse product (number twiddle) (length lo.old) (slice_index (map value lo.old ++ map value hi.old))
            (slice_index (map value lo.new ++ map value hi.new)) }
        ensures counted { counted counter.old counter.new (length lo.old) };

    ghost count_law: { AddsUp counted has_room };

    ghost wide_law: { 0 < width };

    ghost ring_law: { IsRing width 1 product };

    ghost vector_law: { AreCantorVectors width product vector };

    ghost range_law: { (x : Self.Value) → value x < 2 ^ width };
}

/// An arithmetic that counts nothing, and so always has room.
pub(crate) trait Uncounted: StageArithmetic {
    /// Whether a slice of 2 to the power of so many values is transformed at once, and not its halves one after the other.
    fn is_at_once(stages: usize) -> bool
        ensures { result ≡ false → 0 < stages }
    {
        stages <= CACHED_STAGES
    }

    /// The transform of 2 to the power of `stages` values, or, where `inverse` is true, the inverse one, at once: stage by stage.
    fn transform_at_once(
        counter: &mut Self::Counter,
        values: &mut [Self::Value],
        stages: usize,
        z: Self::Twiddle,
        inverse: bool,
    )
        requires stages { HasStages stages (length values.old) }
        requires few { stages ≤ Self.StageArithmetic.width }
        ensures length { length values.new ≡ length values.old }
        ensures values { TakesTransform inverse Self.StageArithmetic.width Self.StageArithmetic.product Self.StageArithmetic.vector
            (Self.StageArithmetic.number z) (map Self.StageArithmetic.value values.old) (map Self.StageArithmetic.value values.new) }
    {
        stages_from::<Self>(counter, values, 0, stages, z, inverse);
    }

    ghost room_law: { AlwaysHasRoom Self.StageArithmetic.has_room };
}

/// The arithmetic of the elements of a field: what a place holds is one, and so is a twiddle.
pub(crate) struct OfElements<F>(PhantomData<F>);

impl<F: TowerLevel> StageArithmetic for OfElements<F> {
    type Value = F;

    type Twiddle = F;

    type Counter = ();

    ghost width = { F.width };

    ghost product = { F.product };

    ghost vector = { λ i. F.basis (F.cantor i) };

    ghost value = { F.repr };

    ghost number = { F.repr };

    ghost counted = { λ _ _ _. Unit {0} };

    ghost has_room = { λ _ _. Unit {0} };

    fn sum(x: F, y: F) -> F {
        x + y
    }

    fn cantor_vector(i: usize) -> F {
        F::cantor_basis(i)
    }

    fn square(x: F) -> F {
        x.square()
    }

    fn butterflies(counter: &mut (), lo: &mut [F], hi: &mut [F], twiddle: F, inverse: bool) {
        run_pairs(lo, hi, twiddle, inverse);
    }

    ghost count_law = { nothing_counted };

    ghost wide_law = { F.wide_law };

    ghost ring_law = { F.field_law.ring };

    ghost vector_law = { F.cantor_image_law };

    ghost range_law = { F.range_law };
}

impl<F: TowerLevel> Uncounted for OfElements<F> {
    ghost room_law = { λ _ _. tt };
}
