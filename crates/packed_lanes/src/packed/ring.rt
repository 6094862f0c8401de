// The traits of rings for packings.
ghost use Rattle.std.specs.Prelude.{◌≡◌, map, refl, replicate};
ghost use Rattle.std.proofs.Common.{sym, ◌∙◌, ap};
ghost use Rattle.std.proofs.lemmas.List.{length-replicate};
ghost use Rattle.field_base.specs.lemmas.Operators.{given, ring_gives};
ghost use Rattle.field_base.specs.Chunks.{joined};
ghost use Rattle.packed_lanes.specs.lemmas.LaneList.{every_bit, every_zero, map-every};
ghost use Rattle.packed_lanes.specs.lemmas.Packed.{packed_equal, packed_product, packed_sum};

use crate::packed::{Packed, WiderField};
use field_base::Gf2;
use field_base::traits::PrimeCharacteristicRing;

impl<F: WiderField, const N: usize> PrimeCharacteristicRing for Packed<F, N> {
    ghost use Rattle.field_base.specs.Bit.{bit_number as bit_of};

    type PrimeSubfield = Gf2;

    const ZERO: Packed<F, N> = Packed {
        lanes: [F::ZERO; N],
    };

    ghost ZERO = { record { lanes = replicate N F.ZERO; long = length-replicate N F.ZERO } };

    const ONE: Packed<F, N> = Packed { lanes: [F::ONE; N] };

    ghost ONE = { record { lanes = replicate N F.ONE; long = length-replicate N F.ONE } };

    const TWO: Packed<F, N> = Packed {
        lanes: [F::ZERO; N],
    };

    ghost TWO = { record { lanes = replicate N F.ZERO; long = length-replicate N F.ZERO } };

    const NEG_ONE: Packed<F, N> = Packed { lanes: [F::ONE; N] };

    ghost NEG_ONE = { record { lanes = replicate N F.ONE; long = length-replicate N F.ONE } };

    ghost zero_law = { ap (joined F.width) (map-every F.repr N 0 F.ZERO _ refl F.zero_law) ∙ every_zero F.width N };

    ghost one_law = { ap (joined F.width) (map-every F.repr N F.unit F.ONE _ refl F.one_law) };

    ghost two_law = { refl };

    ghost neg_one_law = { refl };

    ghost eq_law = { packed_equal F.width F.repr F.range_law F.PartialEq.eq F.eq_law F.same_law };

    ghost default_law = { λ r is. ap (joined F.width) is ∙ every_zero F.width N };

    ghost from_law = { λ x r is. ap (joined F.width) is ∙ every_bit F.width F.unit N (bit_of x) x.in_range };

    ghost operators_law = { λ x y. ring_gives
        (packed_sum F.width F.repr F.range_law x y)
        (packed_product F.width F.repr F.range_law F.unit F.product F.ring_law x y)
        (λ r is. ap (λ lanes. joined F.width (map F.repr lanes)) is) };

    ghost totals_law = { λ xs. (given, given) };

    ghost complete_law = { λ r. (tt, tt) };
}
