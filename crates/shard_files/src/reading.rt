// The shards of a file from the files that have them, stripe by stripe, and the file from its shards.
ghost use Rattle.std.specs.Prelude.{◌≡◌, ◌≢◌, ◌⊎◌, ℕ, List, [], ◌+◌, ◌*◌, ◌<◌, ◌≤◌, ◌++◌, length};
ghost use Rattle.std.specs.Prelude.{false, slice_index_or, take, None, Some, IfErr, IfOk, IsTrue, OnOk};
ghost use Rattle.std.specs.Io.KnownBytes.{Appends};
ghost use Rattle.sha2.specs.Hashers.{Holds256};
ghost use Rattle.sha2.specs.Sha256.{sha256};
ghost use Rattle.shard_files.specs.declared.error.JoinError.TheVariants.{CannotWrite, Memory, OtherBytes, TooFew};
ghost use Rattle.shard_files.specs.Files.{HoldFile};
ghost use Rattle.shard_files.specs.Groups.{GivesEnough, GivesPiece, GivesFile, GivesStripe, Holdings, IsGathered, numbered, Takes};
ghost use Rattle.shard_files.specs.Splits.{BeginWith};
ghost use Rattle.shard_files.specs.Stripes.{piece_start, shard_total, stripe_length, stripe_total};

use crate::error::JoinError;
use crate::group::{Group, zeros};
use crate::head::HEAD;
use crate::layout::Layout;
use crate::piece::DIGEST;
use sha2::{Digest, Sha256};
use std::alloc::Global;
use std::io::Write;

/// Files in which shards may stand.
pub trait ShardSource {
    // What reading in these files gives.
    ghost holds: { Self → Holdings → Type 0 };

    /// How many there are.
    fn count(&self) -> usize
        ensures { (files : Holdings) → holds self.now files → result ≡ files.places };

    /// Reads as many bytes as there is room for, from a place on, in one of them, and says whether it could.
    fn read_at(&mut self, place: usize, start: u64, bytes: &mut [u8]) -> bool
        ensures kept { (files : Holdings) → holds self.old files → holds self.new files }
        ensures read { (files : Holdings) → holds self.old files
            → IsTrue result → files.reads place start (length bytes.old) ≡ Some bytes.new }
        ensures missed { (files : Holdings) → holds self.old files → result ≡ false → files.reads place start (length bytes.old) ≡ None };
}

/// The group of all shards of one origin in a stripe that the files give, and of no other file. There is a stripe of that number. It fails
/// where memory is refused.
pub fn gather<S: ShardSource>(
    alloc: Global,
    source: &mut S,
    layout: Layout,
    stripe: u64,
) -> Result<Group, JoinError>
    requires { stripe < stripe_total layout.origin }
    ensures of { IfOk result (λ group. group.layout.origin ≡ layout.origin) }
    ensures refused { IfErr result (λ error. error ≡ Memory) }
    ensures kept { (files : Holdings) → S.holds source.old files → S.holds source.new files }
    ensures gathered { (files : Holdings) → S.holds source.old files
        → IfOk result (λ group. IsGathered layout.origin files stripe files.places group.shards.items group.present.items) }
{
    let mut group = Group::new(alloc, layout)?;
    let mut piece = match zeros(alloc, 1, DIGEST + layout.origin.size as usize) {
        Ok(piece) => piece,
        Err(_) => return Err(JoinError::Memory),
    };
    for place in 0..source.count() {
        take_next(source, place, stripe, &mut group, piece.as_mut_slice());
    }
    Ok(group)
}

// Takes the shard of one of the files, if it is one of the group.
fn take_next<S: ShardSource>(
    source: &mut S,
    place: usize,
    stripe: u64,
    group: &mut Group,
    piece: &mut [u8],
)
    requires within { stripe < stripe_total group.old.layout.origin }
    requires room { length piece.old ≡ 32 + group.old.layout.origin.size }
    ensures of { group.new.layout.origin ≡ group.old.layout.origin }
    ensures kept { (files : Holdings) → S.holds source.old files → S.holds source.new files }
    ensures taken { (files : Holdings) → S.holds source.old files
        → Takes group.old.layout.origin (λ index shard. GivesPiece files place (numbered group.old.layout.origin index) stripe shard)
        group.old.shards.items group.old.present.items group.new.shards.items group.new.present.items }
{
    let start = start_of(group, stripe);
    let mut head = [0; HEAD];
    if !source.read_at(place, 0, &mut head) {
        return;
    }
    if !source.read_at(place, start, piece) {
        return;
    }
    group.take(&head, stripe, piece);
}

// Where the piece of a stripe begins in the files of a group.
fn start_of(group: &Group, stripe: u64) -> u64
    requires { stripe < stripe_total group.now.layout.origin }
    ensures { result ≡ piece_start group.now.layout.origin stripe }
{
    group.layout.piece_start(stripe)
}

/// Writes a file from its shards, stripe by stripe, of which it takes those alone that stand behind heads of the layout's origin. It fails
/// where in a stripe too few shards are given, where what it wrote has not the identity that the origin names, where it cannot be written,
/// or where memory is refused; what it wrote till then is not the file.
pub fn write_content<S: ShardSource, W: Write>(
    alloc: Global,
    source: &mut S,
    layout: Layout,
    writer: &mut W,
) -> Result<(), JoinError>
    ensures named { OnOk result ((content : List ℕ) × (wholes : List (List ℕ)) × HoldFile layout.origin content wholes
        × Appends (W.contents writer.old) (W.contents writer.new) content × ((files : Holdings) → S.holds source.old files
        → (stripe : ℕ) → stripe < stripe_total layout.origin → GivesEnough layout.origin files stripe (slice_index_or wholes stripe []))) }
    ensures restored { (files : Holdings) (content : List ℕ) (wholes : ℕ → List ℕ) → S.holds source.old files
        → GivesFile layout.origin files content wholes → OnOk result (Appends (W.contents writer.old) (W.contents writer.new) content) }
    ensures refused { IfErr result (λ error. (error ≡ TooFew) ⊎ (error ≡ CannotWrite) ⊎ (error ≡ Memory) ⊎ ((error ≡ OtherBytes)
        × ((content : List ℕ) × Appends (W.contents writer.old) (W.contents writer.new) content × (length content ≡ layout.origin.length)
        × (sha256 content ≢ layout.origin.identity)))) }
    ensures enough { (files : Holdings) (wholes : ℕ → List ℕ) → S.holds source.old files
        → ((stripe : ℕ) → stripe < stripe_total layout.origin → GivesEnough layout.origin files stripe (wholes stripe))
        → IfErr result (λ error. error ≢ TooFew) }
    ensures granted { (files : Holdings) (content : List ℕ) (wholes : ℕ → List ℕ) → S.holds source.old files
        → GivesFile layout.origin files content wholes → IfErr result (λ error. (error ≡ CannotWrite) ⊎ (error ≡ Memory)) }
{
    let mut hasher = Sha256::new();
    for stripe in 0..layout.stripe_count() {
        write_stripe(alloc, source, layout, stripe, &mut hasher, writer)?;
    }
    if !layout.origin.names(hasher) {
        return Err(JoinError::OtherBytes);
    }
    Ok(())
}

// Writes the bytes of a file in one stripe, and adds them to those that are hashed.
fn write_stripe<S: ShardSource, W: Write>(
    alloc: Global,
    source: &mut S,
    layout: Layout,
    stripe: u64,
    hasher: &mut Sha256,
    writer: &mut W,
) -> Result<(), JoinError>
    requires { stripe < stripe_total layout.origin }
    ensures kept { (files : Holdings) → S.holds source.old files → S.holds source.new files }
    ensures wrote { OnOk result ((bytes : List ℕ) × (restored : List ℕ) × Appends (W.contents writer.old) (W.contents writer.new) bytes
        × BeginWith bytes restored × (length restored ≡ shard_total layout.origin * layout.origin.size)
        × ((files : Holdings) → S.holds source.old files → GivesEnough layout.origin files stripe restored)
        × ((before : List ℕ) → Holds256 hasher.old before → Holds256 hasher.new (before ++ bytes))
        × (length bytes ≡ stripe_length layout.origin stripe)
        × ((files : Holdings) (content whole : List ℕ) → S.holds source.old files → GivesStripe layout.origin files stripe content whole
        → length content ≡ stripe_length layout.origin stripe → bytes ≡ content)) }
    ensures refused { IfErr result (λ error. (error ≡ TooFew) ⊎ (error ≡ CannotWrite) ⊎ (error ≡ Memory)) }
    ensures granted { (files : Holdings) (whole : List ℕ) → S.holds source.old files → GivesEnough layout.origin files stripe whole
        → IfErr result (λ error. (error ≡ CannotWrite) ⊎ (error ≡ Memory)) }
{
    let group = restored(alloc, source, layout, stripe)?;
    let content = group.content(layout.stripe_length(stripe));
    hasher.update(content);
    match writer.write_all(content) {
        Ok(()) => Ok(()),
        Err(_) => Err(JoinError::CannotWrite),
    }
}

/// All shards of a stripe, restored from those that the files give behind heads of the layout's origin. There is a stripe of that number.
/// It fails where too few are given, or else where memory is refused.
pub fn restored<S: ShardSource>(
    alloc: Global,
    source: &mut S,
    layout: Layout,
    stripe: u64,
) -> Result<Group, JoinError>
    requires { stripe < stripe_total layout.origin }
    ensures of { IfOk result (λ group. group.layout.origin ≡ layout.origin) }
    ensures kept { (files : Holdings) → S.holds source.old files → S.holds source.new files }
    ensures given { (files : Holdings) → S.holds source.old files
        → IfOk result (λ group. GivesEnough layout.origin files stripe group.shards.items) }
    ensures restored { (files : Holdings) (content whole : List ℕ) → S.holds source.old files
        → GivesStripe layout.origin files stripe content whole → IfOk result (λ group. group.shards.items ≡ whole) }
    ensures refused { IfErr result (λ error. (error ≡ TooFew) ⊎ (error ≡ Memory)) }
    ensures granted { (files : Holdings) (whole : List ℕ) → S.holds source.old files → GivesEnough layout.origin files stripe whole
        → IfErr result (λ error. error ≡ Memory) }
{
    let mut group = gather(alloc, source, layout, stripe)?;
    group.restore(alloc)?;
    Ok(group)
}
