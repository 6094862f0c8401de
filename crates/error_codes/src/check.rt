// What indexes and lengths have to be before shares are combined.
ghost use Rattle.std.specs.Prelude.{◌≡◌, ◌≢◌, ◌<◌, ◌↔◌, ℕ, length, slice_index, false, true, IfErr, IsOk};
ghost use Rattle.error_codes.specs.Refusals.{AreDistinct, AreNonzero, AreShares, RefusesCombine};
ghost use Rattle.error_codes.specs.declared.sharing_error.SharingError.TheVariants.{WrongShare};

use crate::sharing_error::SharingError;
use crate::splitting::is_product;
use reed_solomon::byte_field::ByteField;

// Whether shares at these indexes are those of a secret of `size` bytes.
pub(crate) fn check_shares(
    field: ByteField,
    needed: usize,
    indexes: &[u8],
    size: usize,
    shares: &[u8],
) -> Result<(), SharingError>
    ensures accepted { IsOk result ↔ AreShares needed indexes.now size (length shares.now) }
    ensures refused { IfErr result (RefusesCombine field needed indexes.now size shares.now) }
    ensures unlike { IfErr result (λ error. error ≢ WrongShare) }
{
    if needed < 2 {
        return Err(SharingError::TooFewNeeded);
    }
    if indexes.len() < needed {
        return Err(SharingError::TooFewShares);
    }
    if indexes.len() > 255 {
        return Err(SharingError::TooManyShares);
    }
    if !are_nonzero(indexes) {
        return Err(SharingError::ZeroIndex);
    }
    if !are_distinct(indexes) {
        return Err(SharingError::EqualIndexes);
    }
    if size == 0 {
        return Err(SharingError::EmptySecret);
    }
    if !is_product(shares.len(), indexes.len(), size) {
        return Err(SharingError::UnequalLengths);
    }
    Ok(())
}

// Whether no index is 0.
fn are_nonzero(indexes: &[u8]) -> bool
    ensures all { result ≡ true → AreNonzero indexes.now }
    ensures none { result ≡ false → (i : ℕ) × (i < length indexes.now) × (slice_index indexes.now i ≡ 0) }
{
    for i in 0..indexes.len() {
        if indexes[i] == 0 {
            return false;
        }
    }
    true
}

// Whether no two indexes are equal.
fn are_distinct(indexes: &[u8]) -> bool
    ensures all { result ≡ true → AreDistinct indexes.now }
    ensures none { result ≡ false
        → (i j : ℕ) × (i < j) × (j < length indexes.now) × (slice_index indexes.now i ≡ slice_index indexes.now j) }
{
    for j in 0..indexes.len() {
        if stands_before(indexes, j) {
            return false;
        }
    }
    true
}

// Whether the index at place j stands at an earlier place too.
fn stands_before(indexes: &[u8], j: usize) -> bool
    requires { j < length indexes.now }
    ensures none { result ≡ false → (i : ℕ) → i < j → slice_index indexes.now i ≢ slice_index indexes.now j }
    ensures some { result ≡ true → (i : ℕ) × (i < j) × (slice_index indexes.now i ≡ slice_index indexes.now j) }
{
    for i in 0..j {
        if indexes[i] == indexes[j] {
            return true;
        }
    }
    false
}
