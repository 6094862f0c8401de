// Packings of elements, and packings of `Ghash128` as an algebra over `BinaryField128`, whose image stands in every lane.
ghost use Rattle.std.specs.Prelude.{◌≡◌, map, replicate};
ghost use Rattle.field_base.specs.lemmas.Operators.{algebra_gives};
ghost use Rattle.field_base.specs.Remainder.{ghash_modulus, mul_mod};
ghost use Rattle.field_element.specs.Element.{repr_of};
ghost use Rattle.field_element.specs.lemmas.GhashLane.{ghash_image-below, ghash_lanes-one};
ghost use Rattle.field_element.specs.lemmas.GhashLane.{ghash_lanes-product, ghash_lanes-same, ghash_lanes-sum};
ghost use Rattle.field_element.specs.GhashLanes.{ghash_image, ghash_image_lanes};
ghost use Rattle.packed_lanes.specs.Packed.{lanes_of};
ghost use Rattle.field_base.specs.Chunks.{joined};

mod bytes;
mod operators;

use crate::element::{Element, HasPacking};
use crate::names::{BinaryField128, Ghash128, PackedGhash128};
pub use crate::packings::bytes::{read_bytes, write_bytes};
use field_base::Stored;
use field_base::traits::Algebra;
use packed_lanes::WiderField;

impl<R: Stored, K: HasPacking<R>> WiderField for Element<R, K> {}

impl From<BinaryField128> for PackedGhash128 {
    ghost from_gives = { λ x r. map repr_of (lanes_of r) ≡ replicate 4 (ghash_image (repr_of x)) };

    #[inline]
    fn from(element: BinaryField128) -> PackedGhash128 {
        PackedGhash128::from(Ghash128::from(element))
    }
}

impl Algebra<BinaryField128> for PackedGhash128 {
    ghost use Rattle.std.proofs.Common.{ap};
    ghost use Rattle.word_tables.proofs.Isomorphisms.{field_128};
    ghost use Rattle.packed_lanes.specs.lemmas.Packed.{packed_product_every, packed_sum_every};

    ghost image = { ghash_image_lanes };

    ghost image_unit_law = { ghash_lanes-one };

    ghost image_sum_law = { λ a b a_fits b_fits. ghash_lanes-sum a b };

    ghost image_product_law = { λ a b a_fits b_fits. ghash_lanes-product a b };

    ghost image_injective_law = { ghash_lanes-same };

    ghost image_from_law = { λ x r is. ap (joined 128) is };

    ghost operators_law = { λ x y. algebra_gives
        (packed_sum_every 128 repr_of (λ z. z.in_range) x (ghash_image (repr_of y)) (ghash_image-below (repr_of y)))
        (packed_product_every 128 repr_of (λ z. z.in_range) 1 (mul_mod 128 ghash_modulus) field_128.ring
        x (ghash_image (repr_of y)) (ghash_image-below (repr_of y))) };
}
