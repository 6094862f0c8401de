// Erasure codes by transforms, over words of a level of the tower. The shards of data, and those of parity, stand one after the other.
ghost use Rattle.std.specs.Prelude.{◌≡◌, ◌≢◌, ◌*◌, ◌+◌, ◌^◌, ◌<◌, ◌≤◌, ℕ, IfErr, IfOk, IfSome, IsNone, length};
ghost use Rattle.c_calls.specs.Erasure.{AreCounts, EncodesErasure, IsErasureCode, ReconstructsErasure, TellsSpace, VerifiesErasure};
ghost use Rattle.c_calls.specs.declared.status.TheConstants.{CODE, LENGTH, OK};

use crate::shards::flags_of;
use crate::status;
use additive_transforms::StoredBytes;
use reed_solomon::TransformCode;
use word_tower::Level;

// How many words of space a call takes for each point, so that as many columns go at once as pays: eight times as many as one column takes.
const WORDS_A_POINT: usize = 40;

/// Writes how many words of space each call of a code takes.
pub fn erasure_space<R: StoredBytes, L: Level<R>>(data: u64, parity: u64, length: &mut u64) -> u32
    ensures { TellsSpace L.LEVEL «data» parity length.old length.new result }
{
    match code_of::<R, L>(data, parity) {
        Some(code) => {
            *length = (WORDS_A_POINT * code.point_count()) as u64;
            status::OK
        }
        None => status::CODE,
    }
}

/// Writes the shards of parity.
pub fn erasure_encode<R: StoredBytes, L: Level<R>>(
    data: u64,
    parity: u64,
    shards: &[R],
    parity_shards: &mut [R],
    space: &mut [R],
) -> u32
    ensures { EncodesErasure R.Stored.number R.ZERO L.LEVEL «data» parity shards.now parity_shards.old parity_shards.new
        (length space.old) result }
{
    let code = match code_within::<R, L>(data, parity, space.len()) {
        Ok(code) => code,
        Err(status) => return status,
    };
    match code.encode::<R, L>(space, shards, parity_shards) {
        Ok(()) => status::OK,
        Err(_) => status::LENGTH,
    }
}

/// Writes 1 where the shards of parity are those of the data, else 0.
pub fn erasure_verify<R: StoredBytes, L: Level<R>>(
    data: u64,
    parity: u64,
    shards: &[R],
    parity_shards: &[R],
    space: &mut [R],
    whole: &mut u8,
) -> u32
    ensures { VerifiesErasure R.Stored.number R.ZERO L.LEVEL «data» parity shards.now parity_shards.now (length space.old)
        whole.old whole.new result }
{
    let code = match code_within::<R, L>(data, parity, space.len()) {
        Ok(code) => code,
        Err(status) => return status,
    };
    match code.verify::<R, L>(space, shards, parity_shards) {
        Ok(is_whole) => {
            *whole = u8::from(is_whole);
            status::OK
        }
        Err(_) => status::LENGTH,
    }
}

/// Writes the missing shards: shard i, of the data and then of the parity, is missing where `present[i]` is 0.
pub fn erasure_reconstruct<R: StoredBytes, L: Level<R>>(
    data: u64,
    parity: u64,
    shards: &mut [R],
    parity_shards: &mut [R],
    present: &[u8],
    space: &mut [R],
) -> u32
    ensures { ReconstructsErasure R.Stored.number R.ZERO L.LEVEL «data» parity present.now shards.old parity_shards.old shards.new
        parity_shards.new (length space.old) result }
{
    let code = match code_within::<R, L>(data, parity, space.len()) {
        Ok(code) => code,
        Err(status) => return status,
    };
    let total = code.data_shard_count() + code.parity_shard_count();
    if present.len() != total {
        return status::LENGTH;
    }
    match code.one_size(shards.len(), parity_shards.len()) {
        Ok(_) => {}
        Err(_) => return status::LENGTH,
    }
    let flags = flags_of::<65536>(present);
    match code.reconstruct::<R, L>(space, shards, parity_shards, &flags[..total]) {
        Ok(()) => status::OK,
        Err(_) => status::TOO_FEW_SHARDS,
    }
}

// The code, where its calls take no more than so many words of space, or the status of a call.
fn code_within<R: StoredBytes, L: Level<R>>(
    data: u64,
    parity: u64,
    space: usize,
) -> Result<TransformCode, u32>
    ensures made { IfOk result (λ code. (code.data_shards ≡ «data») × (code.parity_shards ≡ parity)
        × (2 ^ code.all_levels ≤ 2 ^ 2 ^ L.LEVEL) × (40 * 2 ^ code.all_levels ≤ space)) }
    ensures no_code { IfErr result (λ status. (n r : ℕ) → AreCounts «data» parity n r → ¬ IsErasureCode L.LEVEL «data» parity n r
        → status ≡ CODE) }
    ensures no_room { IfErr result (λ status. (n r : ℕ) → AreCounts «data» parity n r → IsErasureCode L.LEVEL «data» parity n r
        → (status ≡ LENGTH) × (space < 40 * 2 ^ r)) }
    ensures no_success { IfErr result (λ status. status ≢ OK) }
{
    let code = match code_of::<R, L>(data, parity) {
        Some(code) => code,
        None => return Err(status::CODE),
    };
    if space < WORDS_A_POINT * code.point_count() {
        return Err(status::LENGTH);
    }
    Ok(code)
}

// The code, where the level can restore its missing shards.
fn code_of<R: StoredBytes, L: Level<R>>(data: u64, parity: u64) -> Option<TransformCode>
    ensures made { IfSome result (λ code. (code.data_shards ≡ «data») × (code.parity_shards ≡ parity)
        × (2 ^ code.all_levels ≤ 2 ^ 2 ^ L.LEVEL)) }
    ensures none { IsNone result → (n r : ℕ) → AreCounts «data» parity n r → ¬ IsErasureCode L.LEVEL «data» parity n r }
{
    match TransformCode::new(data as usize, parity as usize) {
        Ok(code) => if code.can_reconstruct::<R, L>() {
            Some(code)
        } else {
            None
        },
        Err(_) => None,
    }
}
