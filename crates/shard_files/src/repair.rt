// Shards of a file that are written again, stripe by stripe.
ghost use Rattle.std.specs.Prelude.{◌≡◌, ◌≢◌, ◌⊎◌, ℕ, List, [], ◌+◌, ◌^◌, ◌<◌, ◌≤◌, length, slice_index_or, take, IfErr, OnOk};
ghost use Rattle.sha2.specs.Sha256.{sha256};
ghost use Rattle.shard_files.specs.declared.error.JoinError.TheVariants.{OtherBytes, TooFew};
ghost use Rattle.shard_files.specs.declared.error.RepairError.TheVariants.{Join};
ghost use Rattle.shard_files.specs.Faults.{IsRepairFault, IsWriteFault};
ghost use Rattle.shard_files.specs.Files.{AppendsToLost, HoldFile, shard_file};
ghost use Rattle.shard_files.specs.Groups.{AreGiven, AreHeadDigests, GivesEnough, GivesFile, Holdings, numbered, shard_at};
ghost use Rattle.shard_files.specs.Heads.{head_digest, head_file};
ghost use Rattle.shard_files.specs.Pieces.{piece_bytes};
ghost use Rattle.shard_files.specs.Stripes.{shard_total, stripe_length, stripe_total};

use crate::error::{JoinError, RepairError, SplitError};
use crate::group::Group;
use crate::head::Origin;
use crate::layout::Layout;
use crate::reading::{ShardSource, restored};
use crate::writing::{ShardFiles, head_digests, head_of, put_head, put_piece};
use sha2::{Digest, Sha256};
use std::alloc::Global;

/// Restores the shards of a file from those alone that stand behind heads of the layout's origin, and writes those that are lost, as
/// `write_shards` wrote them. There is a flag for each shard. It fails where too few shards are given in a stripe, where what is restored
/// has not the identity that the origin names, where a file cannot be written, or where memory is refused; what was added to files till then
/// is no shard.
pub fn repair_shards<S: ShardSource, F: ShardFiles>(
    alloc: Global,
    source: &mut S,
    layout: Layout,
    lost: &[bool],
    files: &mut F,
) -> Result<(), RepairError>
    requires { length lost.now ≡ shard_total layout.origin }
    ensures named { OnOk result ((content : List ℕ) × (wholes : List (List ℕ)) × HoldFile layout.origin content wholes
        × ((held : Holdings) → S.holds source.old held
        → (stripe : ℕ) → stripe < stripe_total layout.origin → GivesEnough layout.origin held stripe (slice_index_or wholes stripe []))
        × ((before : ℕ → List ℕ) → F.holds files.old before → (now : ℕ → List ℕ) × F.holds files.new now
        × AppendsToLost (length lost.now) lost.now (shard_file layout.origin wholes) before now)) }
    ensures restored { (held : Holdings) (content : List ℕ) (wholes : List (List ℕ)) (before : ℕ → List ℕ) → S.holds source.old held
        → length wholes ≡ stripe_total layout.origin → GivesFile layout.origin held content (λ stripe. slice_index_or wholes stripe [])
        → F.holds files.old before → OnOk result ((now : ℕ → List ℕ) × F.holds files.new now
        × AppendsToLost (length lost.now) lost.now (shard_file layout.origin wholes) before now) }
    ensures refused { IfErr result (λ error. IsRepairFault error ⊎ (error ≡ Join TooFew) ⊎ ((error ≡ Join OtherBytes)
        × ((content : List ℕ) × (wholes : List (List ℕ)) × (sha256 content ≢ layout.origin.identity)
        × ((held : Holdings) → S.holds source.old held → AreGiven layout.origin held content wholes)))) }
    ensures enough { (held : Holdings) (wholes : ℕ → List ℕ) → S.holds source.old held
        → ((stripe : ℕ) → stripe < stripe_total layout.origin → GivesEnough layout.origin held stripe (wholes stripe))
        → IfErr result (λ error. error ≢ Join TooFew) }
    ensures granted { (held : Holdings) (content : List ℕ) (wholes : ℕ → List ℕ) → S.holds source.old held
        → GivesFile layout.origin held content wholes → IfErr result IsRepairFault }
{
    put_lost_heads(alloc, &layout.origin, lost, files)?;
    let heads = match head_digests(alloc, &layout) {
        Ok(heads) => heads,
        Err(_) => return Err(RepairError::Split(SplitError::Memory)),
    };
    let mut hasher = Sha256::new();
    for stripe in 0..layout.stripe_count() {
        let group = restored(alloc, source, layout, stripe)?;
        hasher.update(content_of(&group, stripe));
        put_lost_pieces(&group, heads.as_slice(), stripe, lost, files)?;
    }
    if !layout.origin.names(hasher) {
        return Err(RepairError::Join(JoinError::OtherBytes));
    }
    Ok(())
}

// The bytes of the file in a stripe.
fn content_of(group: &Group, stripe: u64) -> &[u8]
    requires { stripe < stripe_total group.now.layout.origin }
    ensures { result.now ≡ take (stripe_length group.now.layout.origin stripe) group.now.shards.items }
{
    group.content(group.layout.stripe_length(stripe))
}

// Writes the heads of the shards that are lost.
fn put_lost_heads<F: ShardFiles>(
    alloc: Global,
    origin: &Origin,
    lost: &[bool],
    files: &mut F,
) -> Result<(), SplitError>
    requires { length lost.now ≤ 2 ^ 32 }
    ensures put { (before : ℕ → List ℕ) → F.holds files.old before → OnOk result ((now : ℕ → List ℕ) × F.holds files.new now
        × AppendsToLost (length lost.now) lost.now (λ index. head_file (numbered origin.now index)) before now) }
    ensures refused { IfErr result IsWriteFault }
{
    for index in 0..lost.len() {
        if lost[index] {
            put_head(alloc, origin, index, files)?;
        }
    }
    Ok(())
}

// Writes the pieces of a stripe of the shards that are lost.
fn put_lost_pieces<F: ShardFiles>(
    group: &Group,
    heads: &[[u8; 32]],
    stripe: u64,
    lost: &[bool],
    files: &mut F,
) -> Result<(), SplitError>
    requires heads { AreHeadDigests group.now.layout.origin (shard_total group.now.layout.origin) heads.now }
    requires flags { length lost.now ≡ shard_total group.now.layout.origin }
    ensures put { (before : ℕ → List ℕ) → F.holds files.old before → OnOk result ((now : ℕ → List ℕ) × F.holds files.new now
        × AppendsToLost (length lost.now) lost.now (λ index. piece_bytes (head_digest (numbered group.now.layout.origin index)) stripe
        (shard_at group.now.layout.origin.size group.now.shards.items index)) before now) }
    ensures refused { IfErr result IsWriteFault }
{
    for index in 0..lost.len() {
        if lost[index] {
            let head = head_of(&group.layout.origin, heads, index);
            put_piece(&head, stripe, index, group.shard(index), files)?;
        }
    }
    Ok(())
}
