// Packed bits as a ring, and as an algebra over the field of their lanes.
ghost use Rattle.std.specs.Prelude.{◌≡◌, ◌-◌, ◌*◌, ◌^◌, IsTrue, refl};
ghost use mathlib.Core.HLevel.{is_prop→PathP};
ghost use Rattle.std.proofs.Math.Bool.{Bool-set};
ghost use Rattle.field_base.specs.lemmas.Operators.{given};
ghost use Rattle.field_base.specs.Powers.{product_of, sum_of};
ghost use Rattle.bits_packed.specs.lemmas.BitsRing.{bits_ring, equal_numbers, ones_fit};
ghost use Rattle.bits_packed.specs.Lanes.{bitwise_product};

use crate::packed::PackedGf2;
use field_base::Gf2;
use field_base::traits::{PrimeCharacteristicRing, Represented, product_of_items, sum_of_items};
use packed_lanes::Underlier;
use std::iter::{Product, Sum};

impl<U: Underlier> Represented for PackedGf2<U> {
    ghost width = { U.BITS };

    ghost unit = { 2 ^ U.BITS - 1 };

    ghost product = { bitwise_product U.BITS };

    ghost repr = { λ x. U.number x.bits };

    ghost ring_law = { bits_ring U.BITS };

    ghost unit_fits = { ones_fit U.BITS };

    ghost range_law = { λ x. U.range_law x.bits x.in_range };

    ghost same_law = { λ x y same i.
        let bits = U.same_law x.bits y.bits x.in_range y.in_range same in
        let in_range = is_prop→PathP (λ j. IsTrue (U.is_whole (bits j))) (λ j. Bool-set _ _) x.in_range y.in_range in
        record { bits = bits i; in_range = in_range i } };

    ghost can_add_law = { λ x y. tt };

    ghost add_law = { λ x y r is. is };

    ghost can_mul_law = { λ x y. tt };

    ghost mul_law = { λ x y r is. is };
}

impl<U: Underlier> Sum<PackedGf2<U>> for PackedGf2<U> {
    ghost sum_gives = { λ xs r. U.number r.bits ≡ sum_of (λ x. U.number x.bits) xs };

    fn sum<I: Iterator<Item = PackedGf2<U>>>(iter: I) -> PackedGf2<U> {
        sum_of_items(iter, PackedGf2::new(U::ZERO))
    }
}

impl<U: Underlier> Product<PackedGf2<U>> for PackedGf2<U> {
    ghost product_gives = { λ xs r. U.number r.bits ≡ product_of (2 ^ U.BITS - 1) (bitwise_product U.BITS) (λ x. U.number x.bits) xs };

    fn product<I: Iterator<Item = PackedGf2<U>>>(iter: I) -> PackedGf2<U> {
        product_of_items(iter, PackedGf2::new(U::ONES))
    }
}

impl<U: Underlier> PrimeCharacteristicRing for PackedGf2<U> {
    type PrimeSubfield = Gf2;

    const ZERO: PackedGf2<U> = PackedGf2 { bits: U::ZERO };

    ghost ZERO = { record { bits = U.ZERO; in_range = U.zero_whole } };

    const ONE: PackedGf2<U> = PackedGf2 { bits: U::ONES };

    ghost ONE = { record { bits = U.ONES; in_range = U.ones_whole } };

    const TWO: PackedGf2<U> = PackedGf2 { bits: U::ZERO };

    ghost TWO = { record { bits = U.ZERO; in_range = U.zero_whole } };

    const NEG_ONE: PackedGf2<U> = PackedGf2 { bits: U::ONES };

    ghost NEG_ONE = { record { bits = U.ONES; in_range = U.ones_whole } };

    ghost zero_law = { U.zero_number };

    ghost one_law = { U.ones_number };

    ghost two_law = { refl };

    ghost neg_one_law = { refl };

    ghost eq_law = { λ x y.
        equal_numbers U.number U.PartialEq.eq x.bits y.bits (U.eq_law x.bits y.bits) (U.same_law x.bits y.bits x.in_range y.in_range) };

    ghost default_law = { λ r is. is };

    ghost from_law = { λ x r is. is };

    ghost operators_law = { λ x y. (given, given, given, given, given) };

    ghost totals_law = { λ xs. (given, given) };

    ghost complete_law = { λ r. (tt, tt) };
}
