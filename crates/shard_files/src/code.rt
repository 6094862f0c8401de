// A code of stripes, by its number. What each call does is stated over the code words, whichever code they are of.
//
// There are two kinds of code, and each has one word in each place. Those by matrices: number 1, `matrix` of `--code`, the crate
// `reed_solomon`, and in C the calls that begin as `bf_rs_encode` does. Those by transforms: number 2, `transform` of `--code`, the crate
// `reed_solomon`, the module `erasure` of `binary_field`, and in C the calls that begin as `bf_erasure_encode` does.
ghost use Rattle.std.specs.Prelude.{◌≡◌, ℕ, List, ◌+◌, ◌*◌, ◌<◌, ◌≤◌, ◌↔◌, length, slice_index, IsOk, IsSome, IsTrue, IfOk, IfSome, OnErr};
ghost use Rattle.reed_solomon.specs.RoundTrip.{AgreeWherePresent};
ghost use Rattle.reed_solomon.specs.Shards.{present_count};
ghost use Rattle.shard_files.specs.Codes.{HasCode, IsStripeWord};

use crate::matrix::{encode_by_matrix, has_matrix_code, restore_by_matrix, verify_by_matrix};
use crate::transform::{
    encode_by_transform, has_transform_code, restore_by_transform, verify_by_transform,
};
use std::alloc::{AllocError, Global};

/// The number of the code of the crate `reed_solomon`, over bytes.
pub const MATRIX: u32 = 1;

/// The number of the code by transforms, over words of 16 bits, whose lower byte is the first.
pub const TRANSFORM: u32 = 2;

/// No code has more shards.
pub const MOST_SHARDS: usize = 1 << 16;

/// A code with so many shards of data and of parity, in stripes of which each shard has `size` bytes. All shards of a stripe stand one after
/// the other, those of data first.
#[derive(Clone, Copy)]
pub struct StripeCode {
    /// The number of the code: `MATRIX` or `TRANSFORM`.
    pub number: u32,
    /// How many shards there are of data.
    pub data_shards: usize,
    /// How many shards there are of parity.
    pub parity_shards: usize,
    /// How many bytes of each shard a stripe has.
    pub size: usize,
    ghost some_data: { 0 < data_shards },
    ghost some_parity: { 0 < parity_shards },
    ghost some_size: { 0 < size },
    ghost has_code: { HasCode number data_shards parity_shards size },
    ghost few: { data_shards + parity_shards ≤ 65536 },
}

impl StripeCode {
    /// The code of that number, where it has so many shards, and stripes of so many bytes of each: of whole words, where it is over words.
    pub fn new(
        number: u32,
        data_shards: usize,
        parity_shards: usize,
        size: usize,
    ) -> Option<StripeCode>
        ensures made { IfSome result (λ code. (code.number ≡ number) × (code.data_shards ≡ data_shards)
            × (code.parity_shards ≡ parity_shards) × (code.size ≡ size)) }
        ensures accepted { IsSome result ↔ ((0 < data_shards) × (0 < parity_shards) × (0 < size)
            × HasCode number data_shards parity_shards size) }
        ensures few { IsSome result → data_shards + parity_shards ≤ 65536 }
    {
        if size == 0 {
            return None;
        }
        if !has_code(number, data_shards, parity_shards, size) {
            return None;
        }
        Some(StripeCode {
            number,
            data_shards,
            parity_shards,
            size,
        })
    }

    /// Writes the shards of parity. It fails where memory is refused, and takes none by matrices. All shards are of the code's size.
    pub fn encode(&self, alloc: Global, shards: &mut [u8]) -> Result<(), AllocError>
        requires { length shards.old ≡ (self.now.data_shards + self.now.parity_shards) * self.now.size }
        ensures encoded { IsOk result
            → IsStripeWord self.now.number self.now.data_shards self.now.parity_shards self.now.size shards.new }
        ensures sure { self.now.number ≡ 1 → IsOk result }
        ensures kept { (i : ℕ) → i < self.now.data_shards * self.now.size → slice_index shards.new i ≡ slice_index shards.old i }
        ensures long { length shards.new ≡ length shards.old }
    {
        if self.number == MATRIX {
            encode_by_matrix(self, shards);
            Ok(())
        } else {
            encode_by_transform(alloc, self, shards)
        }
    }

    /// Restores the missing shards, and leaves the others: shard i is missing where `present[i]` is false, and what its bytes are does not
    /// matter. It fails where memory is refused, and then all are as they were; by matrices it takes none. All shards are of the code's size,
    /// there is a flag for each, and as many are at hand as the data have.
    pub fn restore(
        &self,
        alloc: Global,
        shards: &mut [u8],
        present: &[bool],
    ) -> Result<(), AllocError>
        requires whole { length shards.old ≡ (self.now.data_shards + self.now.parity_shards) * self.now.size }
        requires flags { length present.now ≡ self.now.data_shards + self.now.parity_shards }
        requires enough { self.now.data_shards ≤ present_count present.now }
        ensures restored { let total = self.now.data_shards + self.now.parity_shards in (whole : List ℕ) → IsOk result
            → IsStripeWord self.now.number self.now.data_shards self.now.parity_shards self.now.size whole → length whole ≡ length shards.old
            → AgreeWherePresent total self.now.size present.now shards.old whole → shards.new ≡ whole }
        ensures kept { IsOk result
            → AgreeWherePresent (self.now.data_shards + self.now.parity_shards) self.now.size present.now shards.new shards.old }
        ensures sure { self.now.number ≡ 1 → IsOk result }
        ensures same { OnErr result (shards.new ≡ shards.old) }
        ensures long { length shards.new ≡ length shards.old }
    {
        if self.number == MATRIX {
            restore_by_matrix(self, shards, present);
            Ok(())
        } else {
            restore_by_transform(alloc, self, shards, present)
        }
    }

    /// Whether the parity is that of the data. It fails where memory is refused, and takes none by matrices. All shards are of the code's
    /// size.
    pub fn verify(&self, alloc: Global, shards: &[u8]) -> Result<bool, AllocError>
        requires { length shards.now ≡ (self.now.data_shards + self.now.parity_shards) * self.now.size }
        ensures told { IfOk result (λ is_whole. IsTrue is_whole
            ↔ IsStripeWord self.now.number self.now.data_shards self.now.parity_shards self.now.size shards.now) }
        ensures sure { self.now.number ≡ 1 → IsOk result }
    {
        if self.number == MATRIX {
            Ok(verify_by_matrix(self, shards))
        } else {
            verify_by_transform(alloc, self, shards)
        }
    }
}

// Whether the code of that number has so many shards, and stripes of so many bytes of each.
fn has_code(number: u32, data_shards: usize, parity_shards: usize, size: usize) -> bool
    ensures has { IsTrue result ↔ ((0 < data_shards) × (0 < parity_shards) × HasCode number data_shards parity_shards size) }
    ensures few { IsTrue result → data_shards + parity_shards ≤ 65536 }
{
    if number == MATRIX {
        has_matrix_code(data_shards, parity_shards)
    } else if number == TRANSFORM {
        if size % 2 == 0 {
            has_transform_code(data_shards, parity_shards)
        } else {
            false
        }
    } else {
        false
    }
}

/// The number of the code by which so many shards are written where none is named: that by matrices as far as it goes, and that by
/// transforms where there is none by matrices.
pub fn default_code(data_shards: usize, parity_shards: usize) -> u32
    ensures matrix { (0 < data_shards) × (0 < parity_shards) × (data_shards + parity_shards ≤ 256) → result ≡ 1 }
    ensures transform { ((0 < data_shards) × (0 < parity_shards) × (data_shards + parity_shards ≤ 256) → ⊥) → result ≡ 2 }
{
    if has_matrix_code(data_shards, parity_shards) {
        MATRIX
    } else {
        TRANSFORM
    }
}

/// What bounds how many shards there are by a code, in words.
pub fn limit_of(number: u32) -> &'static str {
    if number == MATRIX {
        "the matrix code has at most 256 shards"
    } else {
        "the field of the transform code has too few points for so many shards"
    }
}
