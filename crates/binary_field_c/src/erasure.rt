// Calls of erasure codes by transforms, over words of 16 bits: shards of data, and those of parity, stand one after the other.
// Written by scripts/make_c_exports.py; do not edit.
ghost use Rattle.std.specs.Prelude.{length};
ghost use Rattle.c_calls.specs.Erasure.{EncodesErasure, ReconstructsErasure, TellsSpace, VerifiesErasure};
ghost use Rattle.many_words.specs.Fields.{itself};

use c_calls::Bits16;

/// How many words of space each call of the code takes: 40 times the least power of two that is at least data, counted up to a power of
/// two, and parity together.
#[unsafe(no_mangle)]
pub extern "C" fn bf_erasure_space(data: u64, parity: u64, length: &mut u64) -> u32
    ensures { TellsSpace 4 «data» parity length.old length.new result }
{
    c_calls::erasure_space::<u16, Bits16>(data, parity, length)
}

/// The shards of parity of these shards of data.
#[unsafe(no_mangle)]
pub extern "C" fn bf_erasure_encode(
    data: u64,
    parity: u64,
    shards: &[u16],
    parity_shards: &mut [u16],
    space: &mut [u16],
) -> u32
    ensures { EncodesErasure itself 0 4 «data» parity shards.now parity_shards.old parity_shards.new (length space.old) result }
{
    c_calls::erasure_encode::<u16, Bits16>(data, parity, shards, parity_shards, space)
}

/// 1 where the shards of parity are those of the data, else 0.
#[unsafe(no_mangle)]
pub extern "C" fn bf_erasure_verify(
    data: u64,
    parity: u64,
    shards: &[u16],
    parity_shards: &[u16],
    space: &mut [u16],
    whole: &mut u8,
) -> u32
    ensures { VerifiesErasure itself 0 4 «data» parity shards.now parity_shards.now (length space.old) whole.old whole.new result }
{
    c_calls::erasure_verify::<u16, Bits16>(data, parity, shards, parity_shards, space, whole)
}

/// Writes the missing shards: shard i, of the data and then of the parity, is missing where present[i] is 0.
#[unsafe(no_mangle)]
pub extern "C" fn bf_erasure_reconstruct(
    data: u64,
    parity: u64,
    shards: &mut [u16],
    parity_shards: &mut [u16],
    present: &[u8],
    space: &mut [u16],
) -> u32
    ensures { ReconstructsErasure itself 0 4 «data» parity present.now shards.old parity_shards.old
        shards.new parity_shards.new (length space.old) result }
{
    c_calls::erasure_reconstruct::<u16, Bits16>(data, parity, shards, parity_shards, present, space)
}
