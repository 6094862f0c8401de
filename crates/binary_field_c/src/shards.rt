// Calls over shards, which stand one after the other and have one size: those of data, and then those of parity.
// Written by scripts/make_c_exports.py; do not edit.
ghost use Rattle.std.specs.Prelude.{◌+◌, length};
ghost use Rattle.c_calls.specs.Bytes.{AddsOneMultiple, AddsOneShard, Encodes, EncodesPrepared, Prepares, PreparesMissing};
ghost use Rattle.c_calls.specs.Bytes.{Reconstructs, ReconstructsPrepared, TellsFactors, TellsTablesLength, Verifies, VerifiesPrepared};

/// Writes the shards of parity, which stand behind those of data; all shards stand one after the other and have one size.
#[unsafe(no_mangle)]
pub extern "C" fn bf_rs_encode(data: u64, parity: u64, shards: &mut [u8]) -> u32
    ensures { Encodes «data» parity shards.old shards.new result }
{
    c_calls::encode(data, parity, shards)
}

/// 1 where the shards of parity are those of the data, else 0.
#[unsafe(no_mangle)]
pub extern "C" fn bf_rs_verify(data: u64, parity: u64, shards: &[u8], whole: &mut u8) -> u32
    ensures { Verifies «data» parity shards.now whole.old whole.new result }
{
    c_calls::verify(data, parity, shards, whole)
}

/// How many bytes the tables of the code take: 32 for each pair of a shard of data and one of parity, parity counted up to a multiple of
/// 4.
#[unsafe(no_mangle)]
pub extern "C" fn bf_rs_tables_length(data: u64, parity: u64, length: &mut u64) -> u32
    ensures { TellsTablesLength «data» parity length.old length.new result }
{
    c_calls::tables_length(data, parity, length)
}

/// The tables of the code, by which rs_encode_prepared and rs_verify_prepared work; they are read faster from a multiple of 16 on.
#[unsafe(no_mangle)]
pub extern "C" fn bf_rs_prepare(data: u64, parity: u64, tables: &mut [u8]) -> u32
    ensures { Prepares «data» parity tables.old tables.new result }
{
    c_calls::prepare(data, parity, tables)
}

/// Writes the shards of parity, as rs_encode does, by the tables that rs_prepare wrote for this code; by other bytes it writes parity of
/// which nothing is said, and the data stay.
#[unsafe(no_mangle)]
pub extern "C" fn bf_rs_encode_prepared(
    data: u64,
    parity: u64,
    tables: &[u8],
    shards: &mut [u8],
) -> u32
    ensures { EncodesPrepared «data» parity tables.now shards.old shards.new result }
{
    c_calls::encode_prepared(data, parity, tables, shards)
}

/// 1 where the shards of parity are those of the data, else 0, by the tables that rs_prepare wrote for this code; by other bytes it is 0
/// or 1.
#[unsafe(no_mangle)]
pub extern "C" fn bf_rs_verify_prepared(
    data: u64,
    parity: u64,
    tables: &[u8],
    shards: &[u8],
    whole: &mut u8,
) -> u32
    ensures { VerifiesPrepared «data» parity tables.now shards.now whole.old whole.new result }
{
    c_calls::verify_prepared(data, parity, tables, shards, whole)
}

/// Adds to sums what a shard of data is in a shard of parity, by the tables that rs_prepare wrote for this code; once each shard of data
/// was added to zeros, in any order, sums is that shard of parity.
#[unsafe(no_mangle)]
pub extern "C" fn bf_rs_add_shard(
    data: u64,
    parity: u64,
    tables: &[u8],
    data_shard: u64,
    parity_shard: u64,
    shard: &[u8],
    sums: &mut [u8],
) -> u32
    ensures { AddsOneShard «data» parity tables.now data_shard parity_shard shard.now sums.old sums.new result }
{
    c_calls::add_shard(data, parity, tables, data_shard, parity_shard, shard, sums)
}

/// The factor of each shard in a missing one, which is the sum of the products of the present shards by their factors: shard i is missing
/// where present[i] is 0, and the factors of all but the first present shards, as many as data, are 0.
#[unsafe(no_mangle)]
pub extern "C" fn bf_rs_shard_factors(
    data: u64,
    parity: u64,
    present: &[u8],
    shard: u64,
    factors: &mut [u8],
) -> u32
    ensures { TellsFactors «data» parity present.now shard factors.old factors.new result }
{
    c_calls::factors_of(data, parity, present, shard, factors)
}

/// Adds to each byte of sums the product of the byte of shard at its place by the factor, modulo x^8 + x^4 + x^3 + x^2 + 1.
#[unsafe(no_mangle)]
pub extern "C" fn bf_rs_add_multiple(factor: u8, shard: &[u8], sums: &mut [u8]) -> u32
    ensures { AddsOneMultiple factor shard.now sums.old sums.new result }
{
    c_calls::add_multiple(factor, shard, sums)
}

/// Writes the missing shards: shard i is missing where present[i] is 0.
#[unsafe(no_mangle)]
pub extern "C" fn bf_rs_reconstruct(
    data: u64,
    parity: u64,
    shards: &mut [u8],
    present: &[u8],
) -> u32
    ensures { Reconstructs «data» parity («data» + parity) present.now shards.old shards.new result }
{
    c_calls::reconstruct(data, parity, shards, present)
}

/// Writes the missing shards of data alone.
#[unsafe(no_mangle)]
pub extern "C" fn bf_rs_reconstruct_data(
    data: u64,
    parity: u64,
    shards: &mut [u8],
    present: &[u8],
) -> u32
    ensures { Reconstructs «data» parity «data» present.now shards.old shards.new result }
{
    c_calls::reconstruct_data(data, parity, shards, present)
}

/// The tables of the missing shards, by which rs_reconstruct_prepared and rs_reconstruct_data_prepared restore them in every stripe that
/// lacks the same ones; they have as many bytes as those of the code, whatever shards are missing, and of the bytes behind them nothing is
/// said.
#[unsafe(no_mangle)]
pub extern "C" fn bf_rs_prepare_reconstruct(
    data: u64,
    parity: u64,
    present: &[u8],
    tables: &mut [u8],
) -> u32
    ensures { PreparesMissing «data» parity present.now tables.old tables.new result }
{
    c_calls::prepare_reconstruct(data, parity, present, tables)
}

/// Writes the missing shards, as rs_reconstruct does, by the tables that rs_prepare_reconstruct wrote for this code and these flags; by
/// other bytes it writes missing shards of which nothing is said, and those present stay.
#[unsafe(no_mangle)]
pub extern "C" fn bf_rs_reconstruct_prepared(
    data: u64,
    parity: u64,
    tables: &[u8],
    shards: &mut [u8],
    present: &[u8],
) -> u32
    ensures { ReconstructsPrepared «data» parity («data» + parity) present.now tables.now shards.old shards.new result }
{
    c_calls::reconstruct_prepared(data, parity, tables, shards, present)
}

/// Writes the missing shards of data alone, by the same tables.
#[unsafe(no_mangle)]
pub extern "C" fn bf_rs_reconstruct_data_prepared(
    data: u64,
    parity: u64,
    tables: &[u8],
    shards: &mut [u8],
    present: &[u8],
) -> u32
    ensures { ReconstructsPrepared «data» parity «data» present.now tables.now shards.old shards.new result }
{
    c_calls::reconstruct_data_prepared(data, parity, tables, shards, present)
}
