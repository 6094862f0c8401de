// Vectors of bytes whose elements stand one after another: the two of each pair exchanged, or taken from two vectors.
ghost use Rattle.additive_transforms.specs.Chunks.{AreExchanged, AreMerged};

use std::simd::prelude::*;
use word_tables::ByteVector;

/// A vector of sixteen or thirty-two bytes as elements of 8 and of 16 bits that stand in pairs.
pub(crate) trait ChunkVector: ByteVector {
    /// The two bytes of each pair exchanged.
    fn exchanged_8(self) -> Self
        ensures { AreExchanged 0 (Self.ByteVector.bytes self) (Self.ByteVector.bytes result) };

    /// The two elements of 16 bits of each pair exchanged.
    fn exchanged_16(self) -> Self
        ensures { AreExchanged 1 (Self.ByteVector.bytes self) (Self.ByteVector.bytes result) };

    /// The low bytes of the pairs of this vector, and the high ones of another.
    fn merged_8(self, highs: Self) -> Self
        ensures { AreMerged 0 (Self.ByteVector.bytes self) (Self.ByteVector.bytes highs) (Self.ByteVector.bytes result) };

    /// The low elements of 16 bits of the pairs of this vector, and the high ones of another.
    fn merged_16(self, highs: Self) -> Self
        ensures { AreMerged 1 (Self.ByteVector.bytes self) (Self.ByteVector.bytes highs) (Self.ByteVector.bytes result) };
}

impl ChunkVector for u8x16 {
    #[inline(always)]
    fn exchanged_8(self) -> u8x16 {
        self.swizzle([1, 0, 3, 2, 5, 4, 7, 6, 9, 8, 11, 10, 13, 12, 15, 14])
    }

    #[inline(always)]
    fn exchanged_16(self) -> u8x16 {
        self.swizzle([2, 3, 0, 1, 6, 7, 4, 5, 10, 11, 8, 9, 14, 15, 12, 13])
    }

    #[inline(always)]
    fn merged_8(self, highs: u8x16) -> u8x16 {
        self.shuffle(
            highs,
            [0, 17, 2, 19, 4, 21, 6, 23, 8, 25, 10, 27, 12, 29, 14, 31],
        )
    }

    #[inline(always)]
    fn merged_16(self, highs: u8x16) -> u8x16 {
        self.shuffle(
            highs,
            [0, 1, 18, 19, 4, 5, 22, 23, 8, 9, 26, 27, 12, 13, 30, 31],
        )
    }
}

impl ChunkVector for u8x32 {
    #[inline(always)]
    fn exchanged_8(self) -> u8x32 {
        self.swizzle([
            1, 0, 3, 2, 5, 4, 7, 6, 9, 8, 11, 10, 13, 12, 15, 14, 17, 16, 19, 18, 21, 20, 23, 22,
            25, 24, 27, 26, 29, 28, 31, 30,
        ])
    }

    #[inline(always)]
    fn exchanged_16(self) -> u8x32 {
        self.swizzle([
            2, 3, 0, 1, 6, 7, 4, 5, 10, 11, 8, 9, 14, 15, 12, 13, 18, 19, 16, 17, 22, 23, 20, 21,
            26, 27, 24, 25, 30, 31, 28, 29,
        ])
    }

    #[inline(always)]
    fn merged_8(self, highs: u8x32) -> u8x32 {
        self.shuffle(
            highs,
            [
                0, 33, 2, 35, 4, 37, 6, 39, 8, 41, 10, 43, 12, 45, 14, 47, 16, 49, 18, 51, 20, 53,
                22, 55, 24, 57, 26, 59, 28, 61, 30, 63,
            ],
        )
    }

    #[inline(always)]
    fn merged_16(self, highs: u8x32) -> u8x32 {
        self.shuffle(
            highs,
            [
                0, 1, 34, 35, 4, 5, 38, 39, 8, 9, 42, 43, 12, 13, 46, 47, 16, 17, 50, 51, 20, 21,
                54, 55, 24, 25, 58, 59, 28, 29, 62, 63,
            ],
        )
    }
}
