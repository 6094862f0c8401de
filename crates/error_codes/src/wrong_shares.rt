// The secret from shares, some of which are wrong.
ghost use Rattle.std.specs.Prelude.{◌≡◌, ◌≢◌, ◌+◌, ◌*◌, ◌<◌, ◌≤◌, ◌↔◌, ℕ, List, length, slice_index, false, IfErr, IfOk, IsOk, OnErr};
ghost use Rattle.field_base.specs.Powers.{value_of};
ghost use Rattle.field_slices.specs.Marks.{marked_below};
ghost use Rattle.error_codes.specs.Filling.{is_marked};
ghost use Rattle.reed_solomon.specs.ByteFields.{byte_times};
ghost use Rattle.error_codes.specs.Refusals.{AreShares, RefusesCombine};
ghost use Rattle.error_codes.specs.Wrong.{is_wrong_share, AreNearPolynomials};
ghost use Rattle.error_codes.specs.declared.sharing_error.SharingError.TheVariants.{WrongShare};

use crate::check::check_shares;
use crate::combining::combine_unmarked;
use crate::locating::suspected_shares;
use crate::sharing_error::SharingError;
use reed_solomon::byte_field::ByteField;

/// Restores a secret from shares as `combine` does, some of which may be wrong, and says which: entry i of the answer is
/// `true` where share i is wrong, and `false` behind the shares. A share is wrong if any of its bytes is, and where n
/// shares are given, up to (n - `needed`) / 2 may be: then no other secret has shares that differ from so few of these.
/// The error is the first that applies, and leaves `secret` as it was; where more are wrong, it is `WrongShare`, if they
/// are not by chance or by intent as near to the shares of another secret.
pub fn combine_correcting(
    field: ByteField,
    needed: usize,
    indexes: &[u8],
    shares: &[u8],
    secret: &mut [u8],
) -> Result<[bool; 256], SharingError>
    ensures accepted { IsOk result ↔ (AreShares needed indexes.now (length secret.old) (length shares.now)
        × (polynomials : ℕ → List ℕ)
        × AreNearPolynomials field needed indexes.now (length secret.old) shares.now polynomials) }
    ensures combined { IsOk result → (polynomials : ℕ → List ℕ)
        → AreNearPolynomials field needed indexes.now (length secret.old) shares.now polynomials
        → (j : ℕ) → j < length secret.old
        → slice_index secret.new j ≡ value_of 1 (byte_times field) (λ c. c) (polynomials j) 0 }
    ensures named { IfOk result (λ wrong. (polynomials : ℕ → List ℕ)
        → AreNearPolynomials field needed indexes.now (length secret.old) shares.now polynomials
        → (i : ℕ) → i < length indexes.now
        → is_marked wrong i ≡ is_wrong_share field indexes.now (length secret.old) shares.now polynomials i) }
    ensures behind { IfOk result (λ wrong. (i : ℕ) → length indexes.now ≤ i → is_marked wrong i ≡ false) }
    ensures long { length secret.new ≡ length secret.old }
    ensures refused { IfErr result (λ error. error ≢ WrongShare
        → RefusesCombine field needed indexes.now (length secret.old) shares.now error) }
    ensures unlike { IfErr result (λ error. error ≡ WrongShare
        → AreShares needed indexes.now (length secret.old) (length shares.now)) }
    ensures same { OnErr result (secret.new ≡ secret.old) }
{
    check_shares(field, needed, indexes, secret.len(), shares)?;
    let Some(wrong) = suspected_shares(field, needed, indexes, shares, secret.len()) else {
        return Err(SharingError::WrongShare);
    };
    if !combine_unmarked(field, needed, indexes, &wrong, shares, secret) {
        return Err(SharingError::WrongShare);
    }
    Ok(wrong)
}
