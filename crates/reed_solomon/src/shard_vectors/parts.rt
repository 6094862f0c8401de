// What restoring needs: the sizes and the flags of shards, their bytes in one vector, and the shards that are made from them.
ghost use Rattle.std.specs.Prelude.{◌≡◌, ◌+◌, ◌*◌, ◌<◌, ◌≤◌, ◌↔◌, ℕ, false, length, slice_index_or, take, ◌++◌, IsTrue, IfOk, OnOk};
ghost use Rattle.std.specs.Option.{option_or};
ghost use Rattle.reed_solomon.specs.Shards.{present_count};
ghost use Rattle.reed_solomon.specs.ShardVectors.{HaveSize, IsMade, first_size, joined_shards, shard_content, shard_flags};

use std::alloc::{AllocError, Allocator};

// How many bytes the first shard at hand has; 0 where none is.
pub(crate) fn first_size<A: Allocator>(shards: &[Option<Vec<u8, A>>]) -> usize
    ensures { result ≡ first_size shards.now }
{
    for i in 0..shards.len() {
        if let Some(shard) = &shards[i] {
            return shard.len();
        }
    }
    0
}

// Whether a shard is missing or has so many bytes.
fn has_size<A: Allocator>(shard: &Option<Vec<u8, A>>, size: usize) -> bool
    ensures { IsTrue result ↔ (length (shard_content size shard.now) ≡ size) }
{
    match shard {
        Some(bytes) => bytes.len() == size,
        None => true,
    }
}

// Whether each shard at hand has so many bytes.
pub(crate) fn have_size<A: Allocator>(shards: &[Option<Vec<u8, A>>], size: usize) -> bool
    ensures { IsTrue result ↔ HaveSize size shards.now }
{
    for i in 0..shards.len() {
        if !has_size(&shards[i], size) {
            return false;
        }
    }
    true
}

// Flags of the shards at hand.
pub(crate) fn flags_of<A: Allocator>(shards: &[Option<Vec<u8, A>>]) -> [bool; 256]
    requires { length shards.now ≤ 256 }
    ensures long { length result ≡ 256 }
    ensures flags { take (length shards.now) result ≡ shard_flags shards.now }
{
    let mut flags = [false; 256];
    for i in 0..shards.len() {
        flags[i] = shards[i].is_some();
    }
    flags
}

// How many flags are true.
pub(crate) fn count_of(present: &[bool]) -> usize
    ensures { result ≡ present_count present.now }
{
    present.iter().filter(|is_present| **is_present).count()
}

// Puts the bytes of a shard behind the others.
fn push_shard<A: Allocator>(
    joined: &mut Vec<u8, A>,
    shard: &Option<Vec<u8, A>>,
    size: usize,
) -> Result<(), AllocError>
    ensures { OnOk result (joined.new.items ≡ joined.old.items ++ shard_content size shard.now) }
{
    match shard {
        Some(bytes) => joined.extend_from_slice(bytes.as_slice()),
        None => match joined.len().checked_add(size) {
            Some(len) => joined.resize(len, 0),
            None => Err(AllocError),
        },
    }
}

// The bytes of all shards in one vector.
pub(crate) fn join<A: Allocator>(
    alloc: A,
    shards: &[Option<Vec<u8, A>>],
    size: usize,
) -> Result<Vec<u8, A>, AllocError>
    ensures { IfOk result (λ joined. joined.items ≡ joined_shards size shards.now) }
{
    let mut joined = Vec::new(alloc);
    for i in 0..shards.len() {
        push_shard(&mut joined, &shards[i], size)?;
    }
    Ok(joined)
}

// A vector with the bytes of shard i, where it is missing.
fn made_shard<A: Allocator>(
    alloc: A,
    bytes: &[u8],
    size: usize,
    i: usize,
    is_present: bool,
) -> Result<Option<Vec<u8, A>>, AllocError>
    requires { i * size + size ≤ length bytes.now }
    ensures { IfOk result (λ made. IsMade size i bytes.now is_present made) }
{
    if is_present {
        return Ok(None);
    }
    let start = i * size;
    let shard = Vec::from_slice(alloc, &bytes[start..start + size])?;
    Ok(Some(shard))
}

// A vector for each missing shard among those that have a flag, with its bytes.
pub(crate) fn made_shards<A: Allocator + Copy>(
    alloc: A,
    bytes: &[u8],
    size: usize,
    present: &[bool],
) -> Result<Vec<Option<Vec<u8, A>>, A>, AllocError>
    requires { length present.now * size ≤ length bytes.now }
    ensures { IfOk result (λ made. (length made.items ≡ length present.now) × ((i : ℕ) → i < length present.now
        → IsMade size i bytes.now (slice_index_or present.now i false) (slice_index_or made.items i None))) }
{
    let mut made = Vec::new(alloc);
    for i in 0..present.len() {
        made.push(made_shard(alloc, bytes, size, i, present[i])?)?;
    }
    Ok(made)
}

// Puts what was made where it was missing.
pub(crate) fn put<A: Allocator>(
    shards: &mut [Option<Vec<u8, A>>],
    mut made: Vec<Option<Vec<u8, A>>, A>,
)
    requires { length made.items ≤ length shards.old }
    ensures { (i : ℕ) → slice_index_or shards.new i None ≡ option_or (slice_index_or made.items i None) (slice_index_or shards.old i None) }
{
    for i in 0..made.len() {
        let found = shards[i].take();
        shards[i] = made[i].take().or(found);
    }
}
