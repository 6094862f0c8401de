// Generic code over packings: a function over any field and any number of lanes is called at each packing of the library.
ghost use Rattle.std.specs.Prelude.{◌≡◌, ◌≤◌, length, take};
ghost use Rattle.field_base.specs.Powers.{dot_of};
ghost use Rattle.packed_lanes.specs.Lanes.{lane_product};
ghost use Rattle.packed_lanes.specs.Packed.{lanes_of, packed_number};

use binary_field::{Field, Packed, PackedValue, PrimeCharacteristicRing, WiderField};

/// The sum of the products of two slices of packings, place by place and lane by lane; of empty slices it is 0. Both slices have
/// to be of one length.
pub fn packed_dot_product<F: WiderField, const N: usize>(
    left: &[Packed<F, N>],
    right: &[Packed<F, N>],
) -> Packed<F, N>
    requires { length left.now ≡ length right.now }
    ensures { let number = packed_number F.width F.repr in
        number result ≡ dot_of (lane_product F.width F.product N) number left.now right.now }
{
    Packed::dot_product_of_slices(left, right)
}

/// The packing of a slice's first elements, as many as the packing of their field has lanes; the slice has to have so many.
pub fn front_packing<F: WiderField + Field<Packing = Packed<F, N>>, const N: usize>(
    elements: &[F],
) -> F::Packing
    requires { N ≤ length elements.now }
    ensures { lanes_of result ≡ take N elements.now }
{
    Packed::from_slice(&elements[..N])
}

mod tests;
