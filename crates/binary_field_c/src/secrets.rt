// Calls that share a secret: its shares stand one after the other.
// Written by scripts/make_c_exports.py; do not edit.
ghost use Rattle.c_calls.specs.Secrets.{CombinesShares, CorrectsShares, SplitsSecret};

/// Writes count shares of a secret, any needed of which restore it, where fewer say nothing of it. Share i, counted from 0, has the index
/// i + 1, is as long as the secret and stands behind those before it. modulus is 0x11b for the field of AES, or 0x11d for that of
/// libgfshare. draws has needed - 1 times the length of secret bytes, which the caller draws for this secret alone from a source of
/// cryptographic quality, each from all 256, 0 among them, and keeps from everybody.
#[unsafe(no_mangle)]
pub extern "C" fn bf_secret_split(
    modulus: u64,
    needed: u64,
    count: u64,
    secret: &[u8],
    draws: &[u8],
    shares: &mut [u8],
) -> u32
    ensures { SplitsSecret modulus needed count secret.now draws.now shares.old shares.new result }
{
    c_calls::split_secret(modulus, needed, count, secret, draws, shares)
}

/// Writes the secret of shares with these indexes, of which needed are needed; they stand one after the other. Of more than needed all
/// have to be those of one secret; whether bytes of needed shares are right cannot be told.
#[unsafe(no_mangle)]
pub extern "C" fn bf_secret_combine(
    modulus: u64,
    needed: u64,
    indexes: &[u8],
    shares: &[u8],
    secret: &mut [u8],
) -> u32
    ensures { CombinesShares modulus needed indexes.now shares.now secret.old secret.new result }
{
    c_calls::combine_shares(modulus, needed, indexes, shares, secret)
}

/// Restores a secret as secret_combine does, of shares some of which may be wrong, and writes to wrong for each share 1 where it is wrong,
/// else 0. A share is wrong if any of its bytes is, and of n shares up to (n - needed) / 2 may be.
#[unsafe(no_mangle)]
pub extern "C" fn bf_secret_combine_correcting(
    modulus: u64,
    needed: u64,
    indexes: &[u8],
    shares: &[u8],
    secret: &mut [u8],
    wrong: &mut [u8],
) -> u32
    ensures { CorrectsShares modulus needed indexes.now shares.now secret.old wrong.old secret.new wrong.new result }
{
    c_calls::correct_shares(modulus, needed, indexes, shares, secret, wrong)
}
