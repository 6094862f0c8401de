// Packed bits as an algebra over the field of two elements, whose element stands in every lane.
ghost use Rattle.std.specs.Prelude.{◌-◌, ◌*◌, ◌^◌};
ghost use Rattle.std.proofs.Common.{◌∙◌, ap};
ghost use Rattle.std.specs.Prelude.{bit_xor};
ghost use native.Mathlib.Nat.{one-mul};
ghost use Rattle.field_base.specs.lemmas.Operators.{algebra_gives};
ghost use Rattle.packed_lanes.specs.lemmas.BitImage.{bit_same, bit_sum};
ghost use Rattle.bits_packed.specs.lemmas.EveryLane.{every_product, times_every};
ghost use Rattle.bits_packed.specs.Lanes.{bitwise_product};

use crate::packed::PackedGf2;
use field_base::Gf2;
use field_base::traits::Algebra;
use packed_lanes::Underlier;

impl<U: Underlier> Algebra<Gf2> for PackedGf2<U> {
    ghost use Rattle.field_base.specs.Bit.{bit_number};

    ghost image = { λ a. a * (2 ^ U.BITS - 1) };

    ghost image_unit_law = { one-mul (2 ^ U.BITS - 1) };

    ghost image_sum_law = { λ a b a_fits b_fits. bit_sum (2 ^ U.BITS - 1) a a_fits b b_fits };

    ghost image_product_law = { λ a b a_fits b_fits. every_product U.BITS a b a_fits b_fits };

    ghost image_injective_law = { λ proper a b a_fits b_fits same. bit_same (2 ^ U.BITS - 1) proper a a_fits b b_fits same };

    ghost image_from_law = { λ x r is. is };

    ghost operators_law = { λ x y. algebra_gives
        (λ r is. is)
        (λ r is. is ∙ times_every U.BITS (U.number x.bits) (bit_number y) (U.range_law x.bits x.in_range) y.in_range) };
}
