// The secret from shares.
ghost use Rattle.std.specs.Prelude.{◌≡◌, ◌+◌, ◌*◌, ◌<◌, ◌≤◌, ◌↔◌, ℕ, List, length, slice_index, true, false, IfErr, IsOk, OnErr};
ghost use Rattle.field_base.specs.Basis.{sum_below};
ghost use Rattle.field_base.specs.Interpolation.{interpolated, lagrange};
ghost use Rattle.field_base.specs.PolynomialRoots.{AreDistinctBelow};
ghost use Rattle.field_base.specs.Powers.{value_of};
ghost use Rattle.field_slices.specs.Marks.{marked_below};
ghost use Rattle.error_codes.specs.Filling.{is_marked};
ghost use Rattle.reed_solomon.specs.ByteFields.{byte_times};
ghost use Rattle.error_codes.specs.Refusals.{AreShares, RefusesCombine};
ghost use Rattle.error_codes.specs.Sharing.{share_at, IsCombined, IsThrough, LieOnPolynomials};
ghost use Rattle.error_codes.specs.Wrong.{listed_share, RowsFit, IsThroughUnmarked, LieUnmarked};

use crate::check::check_shares;
use crate::factors::factors_at;
use crate::product::multiply_masked;
use crate::sharing_error::SharingError;
use crate::unmarked::{Unmarked, no_marks, unmarked_of};
use reed_solomon::byte_field::ByteField;

/// Restores a secret of which `needed` shares are needed, from these or more. Share i stands at i · (length of
/// `secret`) in `shares`, and `indexes[i]` is its index. Whether the bytes of shares are right cannot be told from
/// `needed` of them; of more it is told whether all agree, and not which is wrong: `combine_correcting` says that. The
/// error is the first that applies, and leaves `secret` as it was.
pub fn combine(
    field: ByteField,
    needed: usize,
    indexes: &[u8],
    shares: &[u8],
    secret: &mut [u8],
) -> Result<(), SharingError>
    ensures accepted { IsOk result ↔ (AreShares needed indexes.now (length secret.old) (length shares.now)
        × LieOnPolynomials field needed indexes.now (length secret.old) shares.now) }
    ensures combined { IsOk result → IsCombined field needed indexes.now shares.now secret.new }
    ensures long { length secret.new ≡ length secret.old }
    ensures refused { IfErr result (RefusesCombine field needed indexes.now (length secret.old) shares.now) }
    ensures same { OnErr result (secret.new ≡ secret.old) }
{
    check_shares(field, needed, indexes, secret.len(), shares)?;
    if !combine_unmarked(field, needed, indexes, &no_marks(), shares, secret) {
        return Err(SharingError::WrongShare);
    }
    Ok(())
}

// Restores a secret from the shares that are not marked, if they agree.
pub(crate) fn combine_unmarked(
    field: ByteField,
    needed: usize,
    indexes: &[u8],
    marked: &[bool; 256],
    shares: &[u8],
    secret: &mut [u8],
) -> bool
    requires checked { AreShares needed indexes.now (length secret.old) (length shares.now) }
    requires enough { needed + marked_below (is_marked marked.now) (length indexes.now) ≤ length indexes.now }
    ensures agreed { (result ≡ true)
        ↔ LieUnmarked field needed indexes.now (length secret.old) shares.now (is_marked marked.now) }
    ensures combined { result ≡ true → (j : ℕ) (cs : List ℕ) → j < length secret.old
        → IsThroughUnmarked field needed (length indexes.now) (slice_index indexes.now)
        (share_at (length secret.old) shares.now j) (is_marked marked.now) cs
        → slice_index secret.new j ≡ value_of 1 (byte_times field) (λ c. c) cs 0 }
    ensures long { length secret.new ≡ length secret.old }
    ensures same { result ≡ false → secret.new ≡ secret.old }
{
    let unmarked = unmarked_of(marked, indexes);
    if !agree(field, needed, &unmarked, shares, secret.len()) {
        return false;
    }
    restore(field, needed, &unmarked, shares, secret);
    true
}

// Writes the values at 0 of the polynomials through the first `needed` shares.
fn restore(field: ByteField, needed: usize, unmarked: &Unmarked, shares: &[u8], secret: &mut [u8])
    requires few { needed ≤ 255 }
    requires room { RowsFit (length secret.old) (length shares.now) needed unmarked.now.places }
    ensures long { length secret.new ≡ length secret.old }
    ensures restored { (j : ℕ) → j < length secret.old → slice_index secret.new j
        ≡ interpolated 8 (byte_times field) (slice_index unmarked.now.indexes)
        (listed_share (length secret.old) shares.now unmarked.now.places j) needed 0 }
{
    let size = secret.len();
    let factors = factors_at(field, &unmarked.indexes, needed, 0);
    for j in 0..size {
        secret[j] = value_of_column(field, &factors, &unmarked.places, needed, shares, size, j);
    }
}

// Whether the shares behind the first `needed` have the values of the polynomials through these. All bytes of them
// are looked at, and one test comes at the end.
fn agree(field: ByteField, needed: usize, unmarked: &Unmarked, shares: &[u8], size: usize) -> bool
    requires enough { needed ≤ unmarked.now.count }
    requires few { unmarked.now.count ≤ 255 }
    requires distinct { AreDistinctBelow unmarked.now.count 256 (slice_index unmarked.now.indexes) }
    requires room { RowsFit size (length shares.now) unmarked.now.count unmarked.now.places }
    ensures { (result ≡ true) ↔ ((j : ℕ) → j < size → (cs : List ℕ)
        × IsThrough field needed unmarked.now.count (slice_index unmarked.now.indexes)
        (listed_share size shares.now unmarked.now.places j) cs) }
{
    let mut difference = 0;
    for other in needed..unmarked.count {
        difference |= difference_of_share(field, needed, unmarked, shares, size, other);
    }
    difference == 0
}

// A byte that is 0 where the bytes of a share are the values at its index of the polynomials through the first
// `needed` shares.
fn difference_of_share(
    field: ByteField,
    needed: usize,
    unmarked: &Unmarked,
    shares: &[u8],
    size: usize,
    other: usize,
) -> u8
    requires enough { needed ≤ unmarked.now.count }
    requires few { unmarked.now.count ≤ 255 }
    requires inside { other < unmarked.now.count }
    requires room { RowsFit size (length shares.now) unmarked.now.count unmarked.now.places }
    ensures { (result ≡ 0) ↔ ((j : ℕ) → j < size → interpolated 8 (byte_times field) (slice_index unmarked.now.indexes)
        (listed_share size shares.now unmarked.now.places j) needed (slice_index unmarked.now.indexes other)
        ≡ listed_share size shares.now unmarked.now.places j other) }
{
    let factors = factors_at(field, &unmarked.indexes, needed, unmarked.indexes[other]);
    let start = unmarked.places[other] as usize * size;
    let mut difference = 0;
    for j in 0..size {
        let value = value_of_column(field, &factors, &unmarked.places, needed, shares, size, j);
        difference |= value ^ shares[start + j];
    }
    difference
}

// The sum of the products of byte j of the shares at the first `needed` places by their factors.
fn value_of_column(
    field: ByteField,
    factors: &[u8; 255],
    places: &[u8; 255],
    needed: usize,
    shares: &[u8],
    size: usize,
    j: usize,
) -> u8
    requires few { needed ≤ 255 }
    requires inside { j < size }
    requires room { RowsFit size (length shares.now) needed places.now }
    ensures { result ≡ sum_below (λ i. byte_times field (slice_index factors.now i)
        (listed_share size shares.now places.now j i)) needed }
{
    let mut sum = 0;
    for i in 0..needed {
        sum ^= multiply_masked(field, factors[i], shares[places[i] as usize * size + j]);
    }
    sum
}
