// Shares of a secret, which stand one after the other, over the field of bytes whose modulus is named.
ghost use Rattle.std.specs.Prelude.{◌≡◌, ◌≢◌, ◌<◌, ◌≤◌, ℕ, MatchOption, cond, length, slice_index};
ghost use Rattle.error_codes.specs.Filling.{is_marked};
ghost use Rattle.reed_solomon.specs.ByteFields.{byte_modulus};
ghost use Rattle.reed_solomon.specs.declared.byte_field.ByteField.TheVariants.{Ccsds};
ghost use Rattle.c_calls.specs.Secrets.{CombinesShares, CorrectsShares, IsShareModulus, SplitsSecret};

use crate::status;
use error_codes::{ByteField, SharingError};

/// Writes `count` shares of a secret, any `needed` of which restore it, from drawn bytes.
pub fn split_secret(
    modulus: u64,
    needed: u64,
    count: u64,
    secret: &[u8],
    draws: &[u8],
    shares: &mut [u8],
) -> u32
    ensures { SplitsSecret modulus needed count secret.now draws.now shares.old shares.new result }
{
    let Some(field) = field_of(modulus) else {
        return status::CODE;
    };
    match error_codes::split(
        field,
        needed as usize,
        secret,
        draws,
        count as usize,
        shares,
    ) {
        Ok(()) => status::OK,
        Err(SharingError::EmptySecret | SharingError::WrongDraws | SharingError::UnequalLengths) =>
            status::LENGTH,
        Err(_) => status::CODE,
    }
}

/// Restores a secret from shares with these indexes, `needed` of which are needed.
pub fn combine_shares(
    modulus: u64,
    needed: u64,
    indexes: &[u8],
    shares: &[u8],
    secret: &mut [u8],
) -> u32
    ensures { CombinesShares modulus needed indexes.now shares.now secret.old secret.new result }
{
    let Some(field) = field_of(modulus) else {
        return status::CODE;
    };
    match error_codes::combine(field, needed as usize, indexes, shares, secret) {
        Ok(()) => status::OK,
        Err(SharingError::TooFewShares) => status::TOO_FEW_SHARDS,
        Err(SharingError::EmptySecret | SharingError::UnequalLengths) => status::LENGTH,
        Err(SharingError::WrongShare) => status::UNSOLVABLE,
        Err(_) => status::CODE,
    }
}

/// Restores a secret from shares with these indexes, `needed` of which are needed and some of which may be wrong, and writes for each share 1
/// where it is wrong, else 0. Of n shares up to (n - `needed`) / 2 may be wrong.
pub fn correct_shares(
    modulus: u64,
    needed: u64,
    indexes: &[u8],
    shares: &[u8],
    secret: &mut [u8],
    wrong: &mut [u8],
) -> u32
    ensures { CorrectsShares modulus needed indexes.now shares.now secret.old wrong.old secret.new wrong.new result }
{
    let Some(field) = field_of(modulus) else {
        return status::CODE;
    };
    if wrong.len() != indexes.len() {
        return status::LENGTH;
    }
    match error_codes::combine_correcting(field, needed as usize, indexes, shares, secret) {
        Ok(marks) => {
            write_marks(&marks, wrong);
            status::OK
        }
        Err(SharingError::TooFewShares) => status::TOO_FEW_SHARDS,
        Err(SharingError::EmptySecret | SharingError::UnequalLengths) => status::LENGTH,
        Err(SharingError::WrongShare) => status::UNSOLVABLE,
        Err(_) => status::CODE,
    }
}

// Writes 1 for each place that is marked, else 0.
fn write_marks(marks: &[bool; 256], flags: &mut [u8])
    requires { length flags.old ≤ 256 }
    ensures long { length flags.new ≡ length flags.old }
    ensures flags { (i : ℕ) → i < length flags.old → slice_index flags.new i ≡ cond (is_marked marks.now i) 1 0 }
{
    for i in 0..flags.len() {
        flags[i] = u8::from(marks[i]);
    }
}

// The field with that modulus, if secrets are shared over it.
fn field_of(modulus: u64) -> Option<ByteField>
    ensures { MatchOption result (¬ IsShareModulus modulus) (λ field. (byte_modulus field ≡ modulus) × (field ≢ Ccsds)) }
{
    match modulus {
        0x11b => Some(ByteField::Rijndael),
        0x11d => Some(ByteField::Qr),
        _ => None,
    }
}
