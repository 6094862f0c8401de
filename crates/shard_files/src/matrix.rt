// The code over bytes by matrices, of the crate `reed_solomon`. No call takes memory.
ghost use Rattle.std.specs.Prelude.{◌≡◌, ℕ, List, ◌+◌, ◌*◌, ◌/◌, ◌<◌, ◌≤◌, ◌↔◌, length, slice_index, IsTrue};
ghost use Rattle.reed_solomon.specs.RoundTrip.{AgreeWherePresent};
ghost use Rattle.reed_solomon.specs.Shards.{AreCodewords, present_count};
ghost use Rattle.reed_solomon.specs.Sizes.{HasShardSize};

use crate::code::StripeCode;
use reed_solomon::{ReedSolomon, lost_shards_return};

/// Whether it has so many shards.
pub(crate) fn has_matrix_code(data_shards: usize, parity_shards: usize) -> bool
    ensures { IsTrue result ↔ ((0 < data_shards) × (0 < parity_shards) × (data_shards + parity_shards ≤ 256)) }
{
    ReedSolomon::new(data_shards, parity_shards).is_ok()
}

// The code by matrices of a stripe's.
fn matrix_of(code: &StripeCode) -> ReedSolomon
    requires { code.now.number ≡ 1 }
    ensures { (result.data_shards ≡ code.now.data_shards) × (result.parity_shards ≡ code.now.parity_shards) }
{
    match ReedSolomon::new(code.data_shards, code.parity_shards) {
        Ok(matrix) => matrix,
        Err(_) => unreachable!(),
    }
}

/// Writes the shards of parity.
pub(crate) fn encode_by_matrix(code: &StripeCode, shards: &mut [u8])
    requires matrix { code.now.number ≡ 1 }
    requires whole { length shards.old ≡ (code.now.data_shards + code.now.parity_shards) * code.now.size }
    ensures encoded { AreCodewords code.now.data_shards (code.now.data_shards + code.now.parity_shards) code.now.size shards.new }
    ensures kept { (i : ℕ) → i < code.now.data_shards * code.now.size → slice_index shards.new i ≡ slice_index shards.old i }
    ensures long { length shards.new ≡ length shards.old }
{
    let matrix = matrix_of(code);
    let _encoded = matrix.encode(shards);
}

/// Restores the missing shards, of which as many are at hand as the data have, and leaves the others.
pub(crate) fn restore_by_matrix(code: &StripeCode, shards: &mut [u8], present: &[bool])
    requires matrix { code.now.number ≡ 1 }
    requires whole { length shards.old ≡ (code.now.data_shards + code.now.parity_shards) * code.now.size }
    requires flags { length present.now ≡ code.now.data_shards + code.now.parity_shards }
    requires enough { code.now.data_shards ≤ present_count present.now }
    ensures restored { let total = code.now.data_shards + code.now.parity_shards in
        (whole : List ℕ) → AreCodewords code.now.data_shards total code.now.size whole → length whole ≡ length shards.old
        → AgreeWherePresent total code.now.size present.now shards.old whole → shards.new ≡ whole }
    ensures kept { AgreeWherePresent (code.now.data_shards + code.now.parity_shards) code.now.size present.now shards.new shards.old }
    ensures long { length shards.new ≡ length shards.old }
{
    lost_shards_return();
    let matrix = matrix_of(code);
    let _restored = matrix.reconstruct(shards, present);
}

/// Whether the shards of parity are those of the data.
pub(crate) fn verify_by_matrix(code: &StripeCode, shards: &[u8]) -> bool
    requires matrix { code.now.number ≡ 1 }
    requires whole { length shards.now ≡ (code.now.data_shards + code.now.parity_shards) * code.now.size }
    ensures { IsTrue result ↔ AreCodewords code.now.data_shards (code.now.data_shards + code.now.parity_shards) code.now.size shards.now }
{
    is_whole(&matrix_of(code), shards)
}

// Whether shards have one size, and their parity is that of the data.
fn is_whole(matrix: &ReedSolomon, shards: &[u8]) -> bool
    ensures { let total = matrix.now.data_shards + matrix.now.parity_shards in IsTrue result ↔ (HasShardSize total (length shards.now)
        × AreCodewords matrix.now.data_shards total (length shards.now / total) shards.now) }
{
    match matrix.verify(shards) {
        Ok(are_all) => are_all,
        Err(_) => false,
    }
}
