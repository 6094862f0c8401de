// Elements as bytes.
ghost use Rattle.std.specs.Prelude.{◌≡◌, ◌<◌, ◌≤◌, ◌*◌, ◌%◌, ◌^◌, ℕ, List};
ghost use Rattle.field_base.specs.Chunks.{chunk};
ghost use Rattle.field_bytes.specs.Bytes.{low_bytes, number_of_bytes, ReadsElement};

use field_base::traits::Represented;

/// An element that is written as a fixed number of bytes: those of its representation, the lowest first.
pub trait RawDataSerializable: Represented {
    /// How many bytes an element is written as.
    const NUM_BYTES: usize;

    ghost NUM_BYTES: { ℕ };

    /// The array of an element's bytes.
    type Bytes;

    // The bytes of the array, as a list.
    ghost listed: { Self.Bytes → List ℕ };

    /// The bytes of the element's representation, the lowest first.
    fn into_bytes(self) -> Self::Bytes
        ensures { listed result ≡ low_bytes NUM_BYTES (Self.repr self) };

    /// Byte `i` of `into_bytes`. Requires `i` below `NUM_BYTES`.
    fn byte(self, i: usize) -> u8
        requires { i < NUM_BYTES }
        ensures { result ≡ chunk 8 i (Self.repr self) };

    /// Word `k` of 64 bits of the element's representation, counted from the lowest. Requires that it begins within the bytes.
    fn wide(self, k: usize) -> u64
        requires { 8 * k < NUM_BYTES }
        ensures { result ≡ chunk 64 k (Self.repr self) };

    /// The element of its bytes, the lowest first. Bits above the element are dropped.
    fn from_le_bytes(bytes: Self::Bytes) -> Self
        ensures { Self.repr result ≡ number_of_bytes (listed bytes) % 2 ^ Self.width };

    /// The element of the next `NUM_BYTES` bytes of an iterator, the lowest first, or None where the iterator ends before. Bits above
    /// the element are dropped. The bytes of an element give it back. No further byte is taken, so that `iter` need not end.
    final fn from_le_byte_iter<I: Iterator<Item = u8>>(mut iter: I) -> Option<Self>
        requires { I.can_next iter }
        ensures { (rest : I) × ReadsElement I.can_next I.next_gives Self.repr Self.width NUM_BYTES iter result rest }
    {
        Self::from_le_byte_iter_by_ref(&mut iter)
    }

    /// [`from_le_byte_iter`](RawDataSerializable::from_le_byte_iter) at an iterator that the caller keeps: what is left of it is what
    /// comes behind the bytes that were taken.
    fn from_le_byte_iter_by_ref<I: Iterator<Item = u8>>(iter: &mut I) -> Option<Self>
        requires { I.can_next iter.old }
        ensures { ReadsElement I.can_next I.next_gives Self.repr Self.width NUM_BYTES iter.old result iter.new };

    ghost bytes_law: { 0 < NUM_BYTES };

    // The bytes have room for each bit of an element.
    ghost room_law: { Self.width ≤ 8 * NUM_BYTES };
}

/// A marker of elements that a packing can hold: they can be copied and compared, and have a default.
pub trait Packable: Copy + Default + Eq {}
