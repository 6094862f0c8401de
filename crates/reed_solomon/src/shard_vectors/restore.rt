// Missing shards are made anew.
ghost use Rattle.std.specs.Prelude.{◌≡◌, ◌≢◌, ◌⊎◌, ◌+◌, ◌/◌, ◌≤◌, length, IfOk};
ghost use Rattle.reed_solomon.specs.Shards.{IsReconstructed, present_count};
ghost use Rattle.reed_solomon.specs.Sizes.{HasShardSize};
ghost use Rattle.reed_solomon.specs.ShardVectors.{AreMade, HaveSize, RestoresUntil, shard_flags};

use crate::ReedSolomon;
use crate::shard_vectors::error::ShardVectorError;
use crate::shard_vectors::parts::{
    count_of, first_size, flags_of, have_size, join, made_shards, put,
};
use std::alloc::{AllocError, Allocator};

/// Restores the missing shards, of data and of parity: a shard that is `None` becomes `Some`, and the others stay as they are.
/// All memory is taken from `alloc` before a shard is written: one vector with the bytes of all shards, which is given back, and
/// one for each missing shard. The error is the first that applies, in the order of `ShardVectorError`.
pub fn reconstruct<A: Allocator + Copy>(
    code: &ReedSolomon,
    alloc: A,
    shards: &mut [Option<Vec<u8, A>>],
) -> Result<(), ShardVectorError>
    ensures { let total = code.now.data_shards + code.now.parity_shards in
        RestoresUntil code.now.data_shards total total shards.old shards.new result }
{
    reconstruct_until(code, alloc, shards, code.total_shard_count())
}

/// Restores the missing shards of data, and leaves those of parity as they are: it is `reconstruct` for readers who want the
/// data alone.
pub fn reconstruct_data<A: Allocator + Copy>(
    code: &ReedSolomon,
    alloc: A,
    shards: &mut [Option<Vec<u8, A>>],
) -> Result<(), ShardVectorError>
    ensures { RestoresUntil code.now.data_shards (code.now.data_shards + code.now.parity_shards) code.now.data_shards
        shards.old shards.new result }
{
    reconstruct_until(code, alloc, shards, code.data_shard_count())
}

// Restores the missing shards before shard `until`: those of data, or all.
fn reconstruct_until<A: Allocator + Copy>(
    code: &ReedSolomon,
    alloc: A,
    shards: &mut [Option<Vec<u8, A>>],
    until: usize,
) -> Result<(), ShardVectorError>
    requires { (until ≡ code.now.data_shards) ⊎ (until ≡ code.now.data_shards + code.now.parity_shards) }
    ensures { let total = code.now.data_shards + code.now.parity_shards in
        RestoresUntil code.now.data_shards total until shards.old shards.new result }
{
    let total = code.total_shard_count();
    if shards.len() < total {
        return Err(ShardVectorError::TooFewShards);
    }
    if shards.len() > total {
        return Err(ShardVectorError::TooManyShards);
    }
    let size = first_size(shards);
    if !have_size(shards, size) {
        return Err(ShardVectorError::IncorrectShardSize);
    }
    let flags = flags_of(shards);
    let present = &flags[..total];
    if count_of(present) < code.data_shard_count() {
        return Err(ShardVectorError::TooFewShardsPresent);
    }
    if size == 0 {
        return Err(ShardVectorError::EmptyShard);
    }
    let made = match restored(code, alloc, shards, size, present, until) {
        Ok(made) => made,
        Err(_) => return Err(ShardVectorError::Memory),
    };
    put(shards, made);
    Ok(())
}

// A vector for each missing shard before shard `until`, with its bytes.
fn restored<A: Allocator + Copy>(
    code: &ReedSolomon,
    alloc: A,
    shards: &[Option<Vec<u8, A>>],
    size: usize,
    present: &[bool],
    until: usize,
) -> Result<Vec<Option<Vec<u8, A>>, A>, AllocError>
    requires end { (until ≡ code.now.data_shards) ⊎ (until ≡ code.now.data_shards + code.now.parity_shards) }
    requires count { length shards.now ≡ code.now.data_shards + code.now.parity_shards }
    requires sizes { HaveSize size shards.now }
    requires flags { present.now ≡ shard_flags shards.now }
    requires enough { code.now.data_shards ≤ present_count present.now }
    requires some { size ≢ 0 }
    ensures { IfOk result (λ made. AreMade code.now.data_shards (code.now.data_shards + code.now.parity_shards) until size
        present.now shards.now made.items) }
{
    let mut joined = join(alloc, shards, size)?;
    restore_bytes(code, joined.as_mut_slice(), present, until);
    made_shards(alloc, joined.as_slice(), size, &present[..until])
}

// Restores the missing shards before shard `until` in the bytes of all, where the code takes them.
fn restore_bytes(code: &ReedSolomon, joined: &mut [u8], present: &[bool], until: usize)
    requires end { (until ≡ code.now.data_shards) ⊎ (until ≡ code.now.data_shards + code.now.parity_shards) }
    requires count { length present.now ≡ code.now.data_shards + code.now.parity_shards }
    requires size { HasShardSize (code.now.data_shards + code.now.parity_shards) (length joined.old) }
    requires enough { code.now.data_shards ≤ present_count present.now }
    ensures { let total = code.now.data_shards + code.now.parity_shards in
        IsReconstructed code.now.data_shards total (length joined.old / total) until present.now joined.old joined.new }
{
    if until == code.data_shard_count() {
        match code.reconstruct_data(joined, present) {
            Ok(()) => {}
            Err(_) => unreachable!(),
        }
    } else {
        match code.reconstruct(joined, present) {
            Ok(()) => {}
            Err(_) => unreachable!(),
        }
    }
}
