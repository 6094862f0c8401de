// Bytes that are split into shards in memory, joined from those that are left, and repaired: the calls that programs make over the files of
// a system, over files of which a contract can say what they hold.
ghost use Rattle.std.specs.Prelude.{◌≡◌, ◌≢◌, ◌⊎◌, ◌↔◌, ◌^◌, ◌<◌, ◌≤◌, ℕ, List, length, false, true};
ghost use Rattle.std.specs.Prelude.{slice_index_or, IfErr, IfOk, IfSome, IsSome};
ghost use Rattle.sha2.specs.Sha256.{sha256};
ghost use Rattle.shard_files.specs.declared.error.JoinError.TheVariants as join_error;
ghost use Rattle.shard_files.specs.declared.error.RepairError.TheVariants.{Join, Split};
ghost use Rattle.shard_files.specs.declared.error.SplitError.TheVariants.{Changed, Memory};
ghost use Rattle.shard_files.specs.Faults.{IsRepairFault};
ghost use Rattle.shard_files.specs.Files.{AreShards, shard_file};
ghost use Rattle.shard_files.specs.Memory.{AreEnough, AreFiles, FewAreLost, file_of, holdings_of};
ghost use Rattle.shard_files.specs.Stripes.{IsSplittable, shard_total};

use crate::error::{JoinError, RepairError, SplitError};
use crate::head::Origin;
use crate::layout::Layout;
use crate::memory::MemoryShards;
use crate::reading::write_content;
use crate::repair::repair_shards;
use crate::writing::write_shards;
use sha2::{Digest, Sha256};
use std::alloc::Global;

/// The layout of the shards of bytes by the code of that number, exactly where it has so many shards and the bytes are at most 2^56.
pub fn layout_of(code: u32, data_shards: u32, parity_shards: u32, content: &[u8]) -> Option<Layout>
    ensures counts { IfSome result (λ layout. (layout.origin.code ≡ code) × (layout.origin.data_shards ≡ data_shards)
        × (layout.origin.parity_shards ≡ parity_shards)) }
    ensures named { IfSome result (λ layout. (layout.origin.length ≡ length content.now)
        × (layout.origin.identity ≡ sha256 content.now)) }
    ensures accepted { IsSome result ↔ IsSplittable code data_shards parity_shards (length content.now) }
{
    let origin = Origin::of_file(
        code,
        data_shards,
        parity_shards,
        content.len() as u64,
        identity_of(content),
    );
    Layout::of(origin)
}

// The SHA-256 of bytes.
fn identity_of(content: &[u8]) -> [u8; 32]
    ensures { result ≡ sha256 content.now }
{
    let mut hasher = Sha256::new();
    hasher.update(content);
    hasher.finalize()
}

/// Splits bytes into the files of shards in memory. It fails with `Changed` where they are not those that the layout's origin names, or
/// else with `Memory`, where memory is refused.
pub fn split_bytes(
    alloc: Global,
    layout: Layout,
    content: &[u8],
) -> Result<MemoryShards, SplitError>
    ensures split { IfOk result (λ shards. (wholes : List (List ℕ)) × AreShards layout.origin content.now wholes
        × AreFiles layout.origin wholes shards.files.items) }
    ensures refused { IfErr result (λ error. (error ≡ Memory) ⊎ ((error ≡ Changed)
        × ((length content.now ≢ layout.origin.length) ⊎ (sha256 content.now ≢ layout.origin.identity)))) }
{
    if content.len() as u64 != layout.origin.length {
        return Err(SplitError::Changed);
    }
    let mut shards = match MemoryShards::new(alloc, layout.total()) {
        Ok(shards) => shards,
        Err(_) => return Err(SplitError::Memory),
    };
    let mut reader = content;
    match write_shards(alloc, layout, &mut reader, &mut shards) {
        Ok(()) => Ok(shards),
        Err(SplitError::Changed) => Err(SplitError::Changed),
        // There are all bytes to read, and a file in memory grows unless memory is refused.
        Err(_) => Err(SplitError::Memory),
    }
}

/// Joins bytes from files of shards in memory, whatever became of them: bytes of the length and the SHA-256 that the layout's origin names,
/// and where enough is left those that were split. It fails as `write_content` does, but for `CannotWrite`: what is joined cannot be written
/// only where memory is refused.
pub fn join_bytes(
    alloc: Global,
    layout: Layout,
    shards: &mut MemoryShards,
) -> Result<Vec<u8>, JoinError>
    ensures joined { (content : List ℕ) (wholes : List (List ℕ)) → AreShards layout.origin content wholes
        → AreEnough layout.origin wholes (holdings_of shards.old.files.items) → IfOk result (λ bytes. bytes.items ≡ content) }
    ensures granted { (content : List ℕ) (wholes : List (List ℕ)) → AreShards layout.origin content wholes
        → AreEnough layout.origin wholes (holdings_of shards.old.files.items) → IfErr result (λ error. error ≡ join_error.Memory) }
    ensures named { IfOk result (λ bytes. (length bytes.items ≡ layout.origin.length) × (sha256 bytes.items ≡ layout.origin.identity)) }
    ensures refused { IfErr result (λ error. error ≢ join_error.CannotWrite) }
{
    let mut bytes = Vec::new(alloc);
    match write_content(alloc, shards, layout, &mut bytes) {
        Ok(()) => Ok(bytes),
        Err(error) => Err(join_fault(error)),
    }
}

// What fails where bytes are written to memory.
fn join_fault(error: JoinError) -> JoinError
    ensures memory { (error ≡ join_error.CannotWrite) ⊎ (error ≡ join_error.Memory) → result ≡ join_error.Memory }
    ensures other { error ≢ join_error.CannotWrite → result ≡ error }
    ensures never { result ≢ join_error.CannotWrite }
{
    match error {
        JoinError::CannotWrite => JoinError::Memory,
        JoinError::TooFew => JoinError::TooFew,
        JoinError::OtherBytes => JoinError::OtherBytes,
        JoinError::Memory => JoinError::Memory,
    }
}

/// Restores the shards whose flags are set from files of shards in memory, whatever became of them, and gives their files; the others have
/// no bytes. There is a flag for each shard. It fails as `repair_shards` does, but for `CannotWrite`: a file cannot be written only where
/// memory is refused.
pub fn repair_bytes(
    alloc: Global,
    layout: Layout,
    shards: &mut MemoryShards,
    lost: &[bool],
) -> Result<MemoryShards, RepairError>
    requires { length lost.now ≡ shard_total layout.origin }
    ensures repaired { (content : List ℕ) (wholes : List (List ℕ)) → AreShards layout.origin content wholes
        → AreEnough layout.origin wholes (holdings_of shards.old.files.items)
        → IfOk result (λ repaired. (index : ℕ) → slice_index_or lost.now index false ≡ true
        → file_of repaired.files.items index ≡ shard_file layout.origin wholes index) }
    ensures granted { (content : List ℕ) (wholes : List (List ℕ)) → AreShards layout.origin content wholes
        → AreEnough layout.origin wholes (holdings_of shards.old.files.items)
        → IfErr result (λ error. (error ≡ Join join_error.Memory) ⊎ (error ≡ Split Memory)) }
{
    let mut repaired = match MemoryShards::new(alloc, layout.total()) {
        Ok(repaired) => repaired,
        Err(_) => return Err(RepairError::Split(SplitError::Memory)),
    };
    match repair_shards(alloc, shards, layout, lost, &mut repaired) {
        Ok(()) => Ok(repaired),
        Err(error) => Err(repair_fault(error)),
    }
}

// What fails where files are written to memory.
fn repair_fault(error: RepairError) -> RepairError
    ensures { IsRepairFault error → (result ≡ Join join_error.Memory) ⊎ (result ≡ Split Memory) }
{
    match error {
        RepairError::Join(error) => RepairError::Join(error),
        RepairError::Split(_) => RepairError::Split(SplitError::Memory),
    }
}

/// Splits bytes, loses the shards whose flags are set, and joins the bytes from those that are left. Where no more are lost than there are
/// of parity, they are the bytes that were split, and it fails only where memory is refused, or with `OtherBytes` where the bytes are not
/// those that the layout's origin names.
pub fn split_and_join(
    alloc: Global,
    layout: Layout,
    content: &[u8],
    lost: &[bool],
) -> Result<Vec<u8>, JoinError>
    ensures returned { FewAreLost layout.origin lost.now → IfOk result (λ bytes. bytes.items ≡ content.now) }
    ensures refused { FewAreLost layout.origin lost.now → IfErr result (λ error. (error ≡ join_error.Memory)
        ⊎ ((error ≡ join_error.OtherBytes)
        × ((length content.now ≢ layout.origin.length) ⊎ (sha256 content.now ≢ layout.origin.identity)))) }
{
    let mut shards = match split_bytes(alloc, layout, content) {
        Ok(shards) => shards,
        Err(SplitError::Changed) => return Err(JoinError::OtherBytes),
        Err(_) => return Err(JoinError::Memory),
    };
    shards.lose(lost);
    join_bytes(alloc, layout, &mut shards)
}
