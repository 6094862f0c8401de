// Packings beside one value, which stands in every lane: the operators with an element of their field or of GF(2), sums and products of
// many elements, and the packings as algebras over both.
ghost use Rattle.std.specs.Prelude.{◌≡◌, ◌*◌, map, refl, replicate};
ghost use Rattle.std.proofs.Common.{◌∙◌, ap};
ghost use native.Mathlib.Nat.{one-mul};
ghost use Rattle.field_base.specs.Bit.{bit_number as bit_of};
ghost use Rattle.field_base.specs.lemmas.Operators.{algebra_gives};
ghost use Rattle.field_base.specs.Powers.{product_of, sum_of};
ghost use Rattle.field_base.specs.Chunks.{joined};
ghost use Rattle.packed_lanes.specs.lemmas.BitImage.{bit_same, bit_sum};
ghost use Rattle.packed_lanes.specs.lemmas.LaneList.{every_bit, every_product, every_same, every_sum, number_of_every};
ghost use Rattle.packed_lanes.specs.Packed.{EachLaneIs};
ghost use Rattle.packed_lanes.specs.lemmas.Packed.{packed_bit_product, packed_product_bit, packed_product_one};
ghost use Rattle.packed_lanes.specs.lemmas.Packed.{packed_sum_bit, packed_sum_one};

mod operators;

use crate::packed::{Laned, Packed, WiderField};
use field_base::Gf2;
use field_base::traits::{Algebra, Field, product_of_items, sum_of_items};
use std::iter::{Product, Sum};

// The packing times a bit: its lanes stay, or each is 0.
#[inline]
fn times_bit<F: Laned, const N: usize>(packed: Packed<F, N>, bit: Gf2) -> Packed<F, N>
    ensures { EachLaneIs F.repr result F.product packed (bit_of bit * F.unit) }
{
    if bit.is_one() {
        packed
    } else {
        Packed::broadcast(F::ZERO_LANE)
    }
}

impl<F: Laned, const N: usize> Sum<F> for Packed<F, N> {
    // The sum of the elements stands in every lane.
    ghost sum_gives = { λ xs r. map F.repr r.lanes ≡ replicate N (sum_of F.repr xs) };

    fn sum<I: Iterator<Item = F>>(iter: I) -> Packed<F, N> {
        Packed::broadcast(sum_of_items(iter, F::ZERO_LANE))
    }
}

impl<F: Laned, const N: usize> Product<F> for Packed<F, N> {
    // The product of the elements stands in every lane.
    ghost product_gives = { λ xs r. map F.repr r.lanes ≡ replicate N (product_of F.unit F.product F.repr xs) };

    fn product<I: Iterator<Item = F>>(iter: I) -> Packed<F, N> {
        Packed::broadcast(product_of_items(iter, F::ONE_LANE))
    }
}

impl<F: WiderField, const N: usize> Algebra<F> for Packed<F, N> {
    ghost image = { λ a. joined F.width (replicate N a) };

    ghost image_unit_law = { refl };

    ghost image_sum_law = { λ a b a_fits b_fits. every_sum F.width N a b a_fits b_fits };

    ghost image_product_law = { λ a b a_fits b_fits. every_product F.width F.unit F.product F.ring_law N a b a_fits b_fits };

    ghost image_injective_law = { λ proper a b a_fits b_fits same. every_same F.width F.unit N a b a_fits b_fits proper same };

    ghost image_from_law = { λ x r is. ap (λ xs. joined F.width (map F.repr xs)) is ∙ number_of_every F.width _ F.repr F.range_law N x };

    ghost operators_law = { λ x y. algebra_gives
        (packed_sum_one F.width F.repr F.range_law x y)
        (packed_product_one F.width F.repr F.range_law F.unit F.product F.ring_law x y) };
}

impl<F: WiderField, const N: usize> Algebra<Gf2> for Packed<F, N> {
    ghost image = { λ a. a * joined F.width (replicate N F.unit) };

    ghost image_unit_law = { one-mul (joined F.width (replicate N F.unit)) };

    ghost image_sum_law = { λ a b a_fits b_fits. bit_sum (joined F.width (replicate N F.unit)) a a_fits b b_fits };

    ghost image_product_law = { packed_bit_product F.width F.unit F.product F.ring_law F.unit_fits N };

    ghost image_injective_law = { λ proper a b a_fits b_fits. bit_same (joined F.width (replicate N F.unit)) proper a a_fits b b_fits };

    ghost image_from_law = { λ x r is. ap (joined F.width) is ∙ every_bit F.width F.unit N (bit_of x) x.in_range };

    ghost operators_law = { λ x y. algebra_gives
        (packed_sum_bit F.width F.repr F.range_law F.unit F.unit_fits x (bit_of y) y.in_range)
        (packed_product_bit F.width F.repr F.range_law F.unit F.product F.ring_law F.unit_fits x (bit_of y) y.in_range) };
}
