// Shares of a secret.
ghost use Rattle.std.specs.Prelude.{◌≡◌, ◌-◌, ◌*◌, ◌<◌, ◌↔◌, length, true, IfErr, IsOk, OnErr};
ghost use Rattle.error_codes.specs.Refusals.{CanSplit, RefusesSplit};
ghost use Rattle.error_codes.specs.Sharing.{share_byte, AreSplit};

use crate::product::{columns_of, image};
use crate::sharing_error::SharingError;
use reed_solomon::byte_field::ByteField;

/// Splits a secret into `count` shares, any `needed` of which restore it. Share i, counted from 0, has the index i +
/// 1, stands at i · (length of the secret) in `shares` and is as long as the secret.
///
/// `draws` has `needed` - 1 rows, each as long as the secret: the coefficients of x, x^2, .. They have to be drawn
/// anew for each secret, each byte from all 256 with equal chances, 0 among them, and be kept from everybody; then
/// what the laws of this crate count is how likely shares are. The error is the first that applies, and leaves
/// `shares` as they were.
pub fn split(
    field: ByteField,
    needed: usize,
    secret: &[u8],
    draws: &[u8],
    count: usize,
    shares: &mut [u8],
) -> Result<(), SharingError>
    ensures accepted { IsOk result ↔ CanSplit needed count (length secret.now) (length draws.now) (length shares.old) }
    ensures split { IsOk result → AreSplit field (needed - 1) count secret.now draws.now shares.new }
    ensures long { length shares.new ≡ length shares.old }
    ensures refused { IfErr result
        (RefusesSplit needed count (length secret.now) (length draws.now) (length shares.old)) }
    ensures same { OnErr result (shares.new ≡ shares.old) }
{
    let size = secret.len();
    check_split(needed, count, size, draws.len(), shares.len())?;
    for place in 0..shares.len() {
        let index = (place / size + 1) as u8;
        shares[place] = share_byte(field, needed - 1, secret, draws, index, place % size);
    }
    Ok(())
}

// Whether a secret can be split.
fn check_split(
    needed: usize,
    count: usize,
    size: usize,
    drawn: usize,
    bytes: usize,
) -> Result<(), SharingError>
    ensures accepted { IsOk result ↔ CanSplit needed count size drawn bytes }
    ensures refused { IfErr result (RefusesSplit needed count size drawn bytes) }
{
    if needed < 2 {
        return Err(SharingError::TooFewNeeded);
    }
    if count < needed {
        return Err(SharingError::TooFewShares);
    }
    if count > 255 {
        return Err(SharingError::TooManyShares);
    }
    if size == 0 {
        return Err(SharingError::EmptySecret);
    }
    if !is_product(drawn, needed - 1, size) {
        return Err(SharingError::WrongDraws);
    }
    if !is_product(bytes, count, size) {
        return Err(SharingError::UnequalLengths);
    }
    Ok(())
}

// Whether so many bytes are those of `count` rows of `size` bytes.
pub(crate) fn is_product(bytes: usize, count: usize, size: usize) -> bool
    requires { 0 < size }
    ensures { (result ≡ true) ↔ (bytes ≡ count * size) }
{
    bytes / size == count && bytes % size == 0
}

// One byte of the share at an index, by Horner's rule: the drawn coefficients come from the highest down, and the
// secret last.
fn share_byte(
    field: ByteField,
    others: usize,
    secret: &[u8],
    draws: &[u8],
    index: u8,
    place: usize,
) -> u8
    requires whole { length draws.now ≡ others * length secret.now }
    requires inside { place < length secret.now }
    ensures { result ≡ share_byte field others secret.now draws.now index place }
{
    let columns = columns_of(field, index);
    let mut value = 0;
    for back in 0..others {
        let row = others - 1 - back;
        value = image(&columns, value) ^ draws[row * secret.len() + place];
    }
    image(&columns, value) ^ secret[place]
}
