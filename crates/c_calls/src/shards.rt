// Reed-Solomon codes over shards that stand one after the other.
ghost use Rattle.std.specs.Prelude.{◌≡◌, ◌≢◌, ◌↔◌, ◌+◌, ◌<◌, ◌≤◌, IfErr, IfOk, IsErr, IsOk, IsTrue, length, take};
ghost use Rattle.reed_solomon.specs.Parity.{tables_length};
ghost use Rattle.reed_solomon.specs.Shards.{IsPresent};
ghost use Rattle.reed_solomon.specs.Sizes.{HasShardSize};
ghost use Rattle.c_calls.specs.Bytes.{AddsOneMultiple, AddsOneShard, Encodes, EncodesPrepared, IsCode, Prepares, PreparesMissing, Reconstructs};
ghost use Rattle.c_calls.specs.Bytes.{ReconstructsPrepared, TellsFactors, TellsTablesLength, Verifies, VerifiesPrepared, flags_of};
ghost use Rattle.c_calls.specs.declared.status.TheConstants.{CODE, LENGTH, OK, TOO_FEW_SHARDS};

use crate::status;
use reed_solomon::{ReedSolomon, ReedSolomonError};

/// Writes the shards of parity, which stand behind those of data.
pub fn encode(data: u64, parity: u64, shards: &mut [u8]) -> u32
    ensures { Encodes «data» parity shards.old shards.new result }
{
    let code = match ReedSolomon::new(data as usize, parity as usize) {
        Ok(code) => code,
        Err(_) => return status::CODE,
    };
    match code.encode(shards) {
        Ok(()) => status::OK,
        Err(_) => status::LENGTH,
    }
}

/// Writes 1 where the shards of parity are those of the data, else 0.
pub fn verify(data: u64, parity: u64, shards: &[u8], whole: &mut u8) -> u32
    ensures { Verifies «data» parity shards.now whole.old whole.new result }
{
    let code = match ReedSolomon::new(data as usize, parity as usize) {
        Ok(code) => code,
        Err(_) => return status::CODE,
    };
    match code.verify(shards) {
        Ok(is_whole) => {
            *whole = u8::from(is_whole);
            status::OK
        }
        Err(_) => status::LENGTH,
    }
}

/// Writes how many bytes the tables of a code take.
pub fn tables_length(data: u64, parity: u64, length: &mut u64) -> u32
    ensures { TellsTablesLength «data» parity length.old length.new result }
{
    match ReedSolomon::new(data as usize, parity as usize) {
        Ok(code) => {
            *length = code.tables_length() as u64;
            status::OK
        }
        Err(_) => status::CODE,
    }
}

/// Writes the tables of a code.
pub fn prepare(data: u64, parity: u64, tables: &mut [u8]) -> u32
    ensures { Prepares «data» parity tables.old tables.new result }
{
    let code = match code_of_tables(data, parity, tables) {
        Ok(code) => code,
        Err(refusal) => return refusal,
    };
    code.prepare(tables);
    status::OK
}

/// Writes the shards of parity by tables of the code.
pub fn encode_prepared(data: u64, parity: u64, tables: &[u8], shards: &mut [u8]) -> u32
    ensures { EncodesPrepared «data» parity tables.now shards.old shards.new result }
{
    let code = match code_of_tables(data, parity, tables) {
        Ok(code) => code,
        Err(refusal) => return refusal,
    };
    match code.encode_prepared(tables, shards) {
        Ok(()) => status::OK,
        Err(_) => status::LENGTH,
    }
}

/// Writes by tables of the code 1 where the shards of parity are those of the data, else 0.
pub fn verify_prepared(data: u64, parity: u64, tables: &[u8], shards: &[u8], whole: &mut u8) -> u32
    ensures { VerifiesPrepared «data» parity tables.now shards.now whole.old whole.new result }
{
    let code = match code_of_tables(data, parity, tables) {
        Ok(code) => code,
        Err(refusal) => return refusal,
    };
    match code.verify_prepared(tables, shards) {
        Ok(is_whole) => {
            *whole = u8::from(is_whole);
            status::OK
        }
        Err(_) => status::LENGTH,
    }
}

/// Adds a shard of data to a shard of parity by tables of the code.
pub fn add_shard(
    data: u64,
    parity: u64,
    tables: &[u8],
    data_shard: u64,
    parity_shard: u64,
    shard: &[u8],
    sums: &mut [u8],
) -> u32
    ensures { AddsOneShard «data» parity tables.now data_shard parity_shard shard.now sums.old sums.new result }
{
    let code = match code_of_tables(data, parity, tables) {
        Ok(code) => code,
        Err(refusal) => return refusal,
    };
    if data_shard >= data || parity_shard >= parity || shard.len() != sums.len() {
        return status::LENGTH;
    }
    code.add_shard(
        tables,
        data_shard as usize,
        parity_shard as usize,
        shard,
        sums,
    );
    status::OK
}

/// Adds to each byte of `sums` the product of the byte of the shard at its place by the factor.
pub fn add_multiple(factor: u8, shard: &[u8], sums: &mut [u8]) -> u32
    ensures { AddsOneMultiple factor shard.now sums.old sums.new result }
{
    if shard.len() != sums.len() {
        return status::LENGTH;
    }
    ReedSolomon::add_multiple(factor, shard, sums);
    status::OK
}

/// Writes the factors by which the shards at hand make one that is missing.
pub fn factors_of(data: u64, parity: u64, present: &[u8], shard: u64, factors: &mut [u8]) -> u32
    ensures { TellsFactors «data» parity present.now shard factors.old factors.new result }
{
    let code = match ReedSolomon::new(data as usize, parity as usize) {
        Ok(code) => code,
        Err(_) => return status::CODE,
    };
    let total = code.total_shard_count();
    if present.len() != total || factors.len() != total || !is_missing(present, shard) {
        return status::LENGTH;
    }
    let flags = flags_of::<256>(present);
    match code.factors_of(&flags[..total], shard as usize) {
        Some(found) => {
            factors.copy_from_slice(&found[..total]);
            status::OK
        }
        None => status::TOO_FEW_SHARDS,
    }
}

/// Writes the missing shards: shard i is missing where `present[i]` is 0.
pub fn reconstruct(data: u64, parity: u64, shards: &mut [u8], present: &[u8]) -> u32
    ensures { Reconstructs «data» parity («data» + parity) present.now shards.old shards.new result }
{
    restore(data, parity, shards, present, false)
}

/// Writes the missing shards of data alone.
pub fn reconstruct_data(data: u64, parity: u64, shards: &mut [u8], present: &[u8]) -> u32
    ensures { Reconstructs «data» parity «data» present.now shards.old shards.new result }
{
    restore(data, parity, shards, present, true)
}

/// Writes the tables of the missing shards: shard i is missing where `present[i]` is 0.
pub fn prepare_reconstruct(data: u64, parity: u64, present: &[u8], tables: &mut [u8]) -> u32
    ensures { PreparesMissing «data» parity present.now tables.old tables.new result }
{
    let code = match code_of_tables(data, parity, tables) {
        Ok(code) => code,
        Err(refusal) => return refusal,
    };
    let total = code.total_shard_count();
    if present.len() != total {
        return status::LENGTH;
    }
    let flags = flags_of::<256>(present);
    status_of(code.prepare_reconstruct(&flags[..total], tables))
}

/// Writes the missing shards by tables of these: shard i is missing where `present[i]` is 0.
pub fn reconstruct_prepared(
    data: u64,
    parity: u64,
    tables: &[u8],
    shards: &mut [u8],
    present: &[u8],
) -> u32
    ensures { ReconstructsPrepared «data» parity («data» + parity) present.now tables.now shards.old shards.new result }
{
    restore_prepared(data, parity, tables, shards, present, false)
}

/// Writes the missing shards of data alone by tables of all that are missing.
pub fn reconstruct_data_prepared(
    data: u64,
    parity: u64,
    tables: &[u8],
    shards: &mut [u8],
    present: &[u8],
) -> u32
    ensures { ReconstructsPrepared «data» parity «data» present.now tables.now shards.old shards.new result }
{
    restore_prepared(data, parity, tables, shards, present, true)
}

// Writes the missing shards by tables, or those of data alone.
fn restore_prepared(
    data: u64,
    parity: u64,
    tables: &[u8],
    shards: &mut [u8],
    present: &[u8],
    data_alone: bool,
) -> u32
    ensures data_alone { IsTrue data_alone
        → ReconstructsPrepared «data» parity «data» present.now tables.now shards.old shards.new result }
    ensures all { ¬ IsTrue data_alone
        → ReconstructsPrepared «data» parity («data» + parity) present.now tables.now shards.old shards.new result }
{
    let code = match code_of_tables(data, parity, tables) {
        Ok(code) => code,
        Err(refusal) => return refusal,
    };
    let total = code.total_shard_count();
    if present.len() != total || !have_size(shards.len(), total) {
        return status::LENGTH;
    }
    let flags = flags_of::<256>(present);
    if data_alone {
        return status_of(code.reconstruct_data_prepared(tables, shards, &flags[..total]));
    }
    status_of(code.reconstruct_prepared(tables, shards, &flags[..total]))
}

// Writes the missing shards, or those of data alone.
fn restore(data: u64, parity: u64, shards: &mut [u8], present: &[u8], data_alone: bool) -> u32
    ensures data_alone { IsTrue data_alone → Reconstructs «data» parity «data» present.now shards.old shards.new result }
    ensures all { ¬ IsTrue data_alone → Reconstructs «data» parity («data» + parity) present.now shards.old shards.new result }
{
    let code = match ReedSolomon::new(data as usize, parity as usize) {
        Ok(code) => code,
        Err(_) => return status::CODE,
    };
    let total = code.total_shard_count();
    if present.len() != total || !have_size(shards.len(), total) {
        return status::LENGTH;
    }
    let flags = flags_of::<256>(present);
    if data_alone {
        return status_of(code.reconstruct_data(shards, &flags[..total]));
    }
    status_of(code.reconstruct(shards, &flags[..total]))
}

// The code whose tables have as many bytes as these, or the status of a call where there is none.
fn code_of_tables(data: u64, parity: u64, tables: &[u8]) -> Result<ReedSolomon, u32>
    ensures made { IfOk result (λ code. (code.data_shards ≡ «data») × (code.parity_shards ≡ parity)) }
    ensures fits { IsOk result → IsCode «data» parity × (length tables.now ≡ tables_length «data» parity) }
    ensures no_code { IfErr result (λ status. ¬ IsCode «data» parity → status ≡ CODE) }
    ensures other { IfErr result (λ status. IsCode «data» parity → (status ≡ LENGTH) × (length tables.now ≢ tables_length «data» parity)) }
    ensures no_success { IfErr result (λ status. status ≢ OK) }
{
    let code = match ReedSolomon::new(data as usize, parity as usize) {
        Ok(code) => code,
        Err(_) => return Err(status::CODE),
    };
    if tables.len() == code.tables_length() {
        Ok(code)
    } else {
        Err(status::LENGTH)
    }
}

// The status of a call whose lengths fit the code.
fn status_of(restored: Result<(), ReedSolomonError>) -> u32
    ensures ok { IsOk restored → result ≡ OK }
    ensures few { IsErr restored → result ≡ TOO_FEW_SHARDS }
{
    match restored {
        Ok(()) => status::OK,
        Err(_) => status::TOO_FEW_SHARDS,
    }
}

// Whether so many bytes are those of shards of one size.
fn have_size(bytes: usize, shards: usize) -> bool
    requires { 0 < shards }
    ensures { IsTrue result ↔ HasShardSize shards bytes }
{
    bytes != 0 && bytes % shards == 0
}

// Whether there is such a shard, and it is missing.
fn is_missing(present: &[u8], shard: u64) -> bool
    ensures { IsTrue result ↔ ((shard < length present.now) × ¬ IsPresent (flags_of present.now) shard) }
{
    shard < present.len() as u64 && present[shard as usize] == 0
}

// Which shards are there, by bytes that are not 0.
pub(crate) fn flags_of<const N: usize>(present: &[u8]) -> [bool; N]
    requires { length present.now ≤ N }
    ensures { take (length present.now) result ≡ flags_of present.now }
{
    let mut flags = [false; N];
    for place in 0..present.len() {
        flags[place] = present[place] != 0;
    }
    flags
}
