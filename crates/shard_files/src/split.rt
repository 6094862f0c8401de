// The bytes of a stripe in shards.
ghost use Rattle.std.specs.Prelude.{◌≡◌, ◌*◌, ◌<◌, ◌≤◌, ℕ, length, slice_index, IfErr, IsOk};
ghost use Rattle.shard_files.specs.declared.error.SplitError.TheVariants.{Memory};
ghost use Rattle.shard_files.specs.Splits.{IsSplit};
ghost use Rattle.shard_files.specs.Stripes.{shard_total, stripe_width};

use crate::error::SplitError;
use crate::layout::Layout;
use std::alloc::Global;

/// Fills `shards` with the bytes of a stripe, with zeros behind them, and with their parity. The bytes are no more than a stripe has, and
/// there is room for each shard. It fails where memory is refused.
pub(crate) fn split_into(
    alloc: Global,
    layout: &Layout,
    content: &[u8],
    shards: &mut [u8],
) -> Result<(), SplitError>
    requires fits { length content.now ≤ stripe_width layout.now.origin }
    requires whole { length shards.old ≡ shard_total layout.now.origin * layout.now.origin.size }
    ensures split { IsOk result → IsSplit layout.now.origin content.now shards.new }
    ensures refused { IfErr result (λ error. error ≡ Memory) }
    ensures long { length shards.new ≡ length shards.old }
{
    fill(shards, content);
    match layout.code.encode(alloc, shards) {
        Ok(()) => Ok(()),
        Err(_) => Err(SplitError::Memory),
    }
}

// Writes the bytes at the start, as far as there are places, and zeros behind them.
fn fill(shards: &mut [u8], content: &[u8])
    ensures long { length shards.new ≡ length shards.old }
    ensures begins { (i : ℕ) → i < length shards.old → slice_index shards.new i ≡ slice_index content.now i }
{
    for i in 0..shards.len() {
        shards[i] = byte_at(content, i);
    }
}

// The byte at a place, or 0 past the end.
fn byte_at(content: &[u8], i: usize) -> u8
    ensures { result ≡ slice_index content.now i }
{
    if i < content.len() { content[i] } else { 0 }
}
