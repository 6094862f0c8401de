// Matrices on packings of bytes, lane by lane.
ghost use Rattle.std.specs.Prelude.{◌≡◌, map};
ghost use Rattle.field_base.specs.LinearMaps.{linear_image};
ghost use Rattle.field_element.specs.Element.{repr_of};
ghost use Rattle.word_tables.specs.Matrix.{images_of};

use field_base::traits::PrimeCharacteristicRing;
use field_element::{PackedRijndael8b, Rijndael8b, read_bytes, write_bytes};
use packed_lanes::PackedValue;
use word_tables::ByteMatrix;

/// Packings of bytes of AES, whose lanes a matrix maps. It is a method of a trait, since a type has functions of its own in its
/// crate alone.
pub trait ByteLanes: PackedValue<Value = Rijndael8b> {
    /// What the matrix makes of each lane.
    fn apply(self, matrix: ByteMatrix) -> Self
        ensures { map repr_of (Self.lanes result) ≡ map (linear_image (images_of matrix)) (map repr_of (Self.lanes self)) };
}

impl<const N: usize> ByteLanes for PackedRijndael8b<N> {
    fn apply(self, matrix: ByteMatrix) -> PackedRijndael8b<N> {
        let mut lanes = [Rijndael8b::ZERO; N];
        self.copy_to_slice(lanes.as_mut_slice());
        let mut bytes = [0; N];
        read_bytes(lanes.as_slice(), bytes.as_mut_slice());
        matrix.apply_slice(bytes.as_mut_slice());
        write_bytes(lanes.as_mut_slice(), bytes.as_slice());
        PackedRijndael8b::from_slice(lanes.as_slice())
    }
}
