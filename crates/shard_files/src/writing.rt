// The files of the shards of a file, written stripe by stripe.
ghost use Rattle.std.specs.Prelude.{◌≡◌, ◌≢◌, ◌⊎◌, ℕ, List, ◌+◌, ◌*◌, ◌<◌, ◌≤◌, ◌++◌, ◌^◌, length, IfErr, IfOk, OnOk};
ghost use Rattle.std.specs.Io.KnownBytes.{Appends, Consumes};
ghost use Rattle.sha2.specs.Hashers.{Holds256};
ghost use Rattle.sha2.specs.Sha256.{sha256};
ghost use Rattle.shard_files.specs.declared.error.SplitError.TheVariants.{Changed, Memory};
ghost use Rattle.shard_files.specs.Faults.{IsSplitFault, IsWriteFault};
ghost use Rattle.shard_files.specs.Files.{AppendsToEach, AreShards, IsAppended, shard_file};
ghost use Rattle.shard_files.specs.Groups.{AreHeadDigests, numbered, shard_at};
ghost use Rattle.shard_files.specs.Heads.{head_digest, head_file};
ghost use Rattle.shard_files.specs.Pieces.{piece_bytes};
ghost use Rattle.shard_files.specs.Splits.{IsSplit};
ghost use Rattle.shard_files.specs.Stripes.{shard_total, stripe_length, stripe_total, stripe_width};

use crate::error::SplitError;
use crate::group::zeros;
use crate::head::{Head, Origin};
use crate::layout::Layout;
use crate::piece::digest_of;
use crate::split::split_into;
use sha2::{Digest, Sha256};
use std::alloc::{AllocError, Global};
use std::io;
use std::io::{Read, Write};

/// The files of shards, as they are written.
pub trait ShardFiles {
    // The file of each number has these bytes so far.
    ghost holds: { Self → (ℕ → List ℕ) → Type 0 };

    /// Adds bytes at the end of the file of a shard.
    fn append(&mut self, index: usize, bytes: &[u8]) -> io::Result<()>
        ensures { (files : ℕ → List ℕ) → holds self.old files
            → OnOk result ((now : ℕ → List ℕ) × holds self.new now × IsAppended index bytes.now files now) };
}

/// Splits what a reader gives into shards, and writes the file of each: the head, and behind it a piece of each stripe. It fails where the
/// reader does not give the bytes that the layout's origin names, where a file cannot be written, or where memory is refused.
pub fn write_shards<R: Read, F: ShardFiles>(
    alloc: Global,
    layout: Layout,
    reader: &mut R,
    files: &mut F,
) -> Result<(), SplitError>
    ensures written { OnOk result ((content : List ℕ) × (wholes : List (List ℕ)) × AreShards layout.origin content wholes
        × Consumes (R.remaining reader.old) (R.remaining reader.new) content
        × ((before : ℕ → List ℕ) → F.holds files.old before → (now : ℕ → List ℕ) × F.holds files.new now
        × AppendsToEach (shard_total layout.origin) (shard_file layout.origin wholes) before now)) }
    ensures refused { IfErr result (λ error. IsSplitFault error ⊎ ((error ≡ Changed) × ((content : List ℕ)
        × Consumes (R.remaining reader.old) (R.remaining reader.new) content × (length content ≡ layout.origin.length)
        × (sha256 content ≢ layout.origin.identity)))) }
{
    put_heads(alloc, &layout, files)?;
    let heads = match head_digests(alloc, &layout) {
        Ok(heads) => heads,
        Err(_) => return Err(SplitError::Memory),
    };
    let mut hasher = Sha256::new();
    for stripe in 0..layout.stripe_count() {
        write_stripe(
            alloc,
            &layout,
            heads.as_slice(),
            stripe,
            reader,
            &mut hasher,
            files,
        )?;
    }
    if !layout.origin.names(hasher) {
        return Err(SplitError::Changed);
    }
    Ok(())
}

/// The digests of the heads of all shards, each of which is hashed with each piece of its shard.
pub(crate) fn head_digests(alloc: Global, layout: &Layout) -> Result<Vec<[u8; 32]>, AllocError>
    ensures { IfOk result (λ digests. AreHeadDigests layout.now.origin (shard_total layout.now.origin) digests.items) }
{
    let mut digests = Vec::new(alloc);
    for index in 0..layout.total() {
        let head = Head {
            origin: layout.origin,
            index: index as u32,
        };
        digests.push(head.digest())?;
    }
    Ok(digests)
}

/// The digest of the head of a shard, among those of all. There is a shard of that number.
pub(crate) fn head_of(origin: &Origin, heads: &[[u8; 32]], index: usize) -> [u8; 32]
    requires heads { AreHeadDigests origin.now (shard_total origin.now) heads.now }
    requires within { index < shard_total origin.now }
    ensures { result ≡ head_digest (numbered origin.now index) }
{
    heads[index]
}

// Writes the head of each shard.
fn put_heads<F: ShardFiles>(alloc: Global, layout: &Layout, files: &mut F) -> Result<(), SplitError>
    ensures put { (before : ℕ → List ℕ) → F.holds files.old before → OnOk result ((now : ℕ → List ℕ) × F.holds files.new now
        × AppendsToEach (shard_total layout.now.origin) (λ index. head_file (numbered layout.now.origin index)) before now) }
    ensures refused { IfErr result IsWriteFault }
{
    for index in 0..layout.total() {
        put_head(alloc, &layout.origin, index, files)?;
    }
    Ok(())
}

/// Writes the head of a shard at the end of its file. The number is one of 32 bits.
pub fn put_head<F: ShardFiles>(
    alloc: Global,
    origin: &Origin,
    index: usize,
    files: &mut F,
) -> Result<(), SplitError>
    requires { index < 2 ^ 32 }
    ensures put { (before : ℕ → List ℕ) → F.holds files.old before → OnOk result ((now : ℕ → List ℕ) × F.holds files.new now
        × IsAppended index (head_file (numbered origin.now index)) before now) }
    ensures refused { IfErr result IsWriteFault }
{
    let head = Head {
        origin: *origin,
        index: index as u32,
    };
    let bytes = bytes_of(alloc, &head)?;
    append(files, index, bytes.as_slice())?;
    Ok(())
}

// The bytes of a head.
fn bytes_of(alloc: Global, head: &Head) -> Result<Vec<u8>, SplitError>
    ensures made { IfOk result (λ bytes. bytes.items ≡ head_file head.now) }
    ensures refused { IfErr result (λ error. error ≡ Memory) }
{
    let mut bytes = Vec::new(alloc);
    match head.write(&mut bytes) {
        Ok(()) => Ok(bytes),
        Err(_) => Err(SplitError::Memory),
    }
}

// Adds bytes at the end of the file of a shard.
fn append<F: ShardFiles>(files: &mut F, index: usize, bytes: &[u8]) -> Result<(), SplitError>
    ensures put { (before : ℕ → List ℕ) → F.holds files.old before → OnOk result ((now : ℕ → List ℕ) × F.holds files.new now
        × IsAppended index bytes.now before now) }
    ensures refused { IfErr result IsWriteFault }
{
    match files.append(index, bytes) {
        Ok(()) => Ok(()),
        Err(error) => Err(SplitError::CannotWrite(error)),
    }
}

// Reads the bytes of a stripe, adds them to those that are hashed, and writes a piece of each shard.
fn write_stripe<R: Read, F: ShardFiles>(
    alloc: Global,
    layout: &Layout,
    heads: &[[u8; 32]],
    stripe: u64,
    reader: &mut R,
    hasher: &mut Sha256,
    files: &mut F,
) -> Result<(), SplitError>
    requires within { stripe < stripe_total layout.now.origin }
    requires heads { AreHeadDigests layout.now.origin (shard_total layout.now.origin) heads.now }
    ensures written { OnOk result ((bytes : List ℕ) × (whole : List ℕ) × IsSplit layout.now.origin bytes whole
        × (length whole ≡ shard_total layout.now.origin * layout.now.origin.size)
        × (length bytes ≡ stripe_length layout.now.origin stripe)
        × Consumes (R.remaining reader.old) (R.remaining reader.new) bytes
        × ((before : List ℕ) → Holds256 hasher.old before → Holds256 hasher.new (before ++ bytes))
        × ((before : ℕ → List ℕ) → F.holds files.old before → (now : ℕ → List ℕ) × F.holds files.new now
        × AppendsToEach (shard_total layout.now.origin)
        (λ index. piece_bytes (head_digest (numbered layout.now.origin index)) stripe
        (shard_at layout.now.origin.size whole index)) before now)) }
    ensures refused { IfErr result IsSplitFault }
{
    let content = read_stripe(alloc, layout.stripe_length(stripe), reader)?;
    hasher.update(content.as_slice());
    let shards = split_stripe(alloc, layout, content.as_slice())?;
    put_pieces(layout, heads, stripe, shards.as_slice(), files)?;
    Ok(())
}

// Reads so many bytes.
fn read_stripe<R: Read>(alloc: Global, count: usize, reader: &mut R) -> Result<Vec<u8>, SplitError>
    ensures read { IfOk result (λ bytes. (length bytes.items ≡ count)
        × Consumes (R.remaining reader.old) (R.remaining reader.new) bytes.items) }
    ensures refused { IfErr result IsSplitFault }
{
    let mut bytes = match zeros(alloc, 1, count) {
        Ok(bytes) => bytes,
        Err(_) => return Err(SplitError::Memory),
    };
    match reader.read_exact(bytes.as_mut_slice()) {
        Ok(()) => Ok(bytes),
        Err(error) => Err(SplitError::CannotRead(error)),
    }
}

// All shards of the bytes of a stripe.
fn split_stripe(alloc: Global, layout: &Layout, content: &[u8]) -> Result<Vec<u8>, SplitError>
    requires { length content.now ≤ stripe_width layout.now.origin }
    ensures split { IfOk result (λ shards. IsSplit layout.now.origin content.now shards.items) }
    ensures long { IfOk result (λ shards. length shards.items ≡ shard_total layout.now.origin * layout.now.origin.size) }
    ensures refused { IfErr result (λ error. error ≡ Memory) }
{
    let mut shards = match zeros(alloc, layout.total(), layout.origin.size as usize) {
        Ok(shards) => shards,
        Err(_) => return Err(SplitError::Memory),
    };
    split_into(alloc, layout, content, shards.as_mut_slice())?;
    Ok(shards)
}

// Writes a piece of each shard.
fn put_pieces<F: ShardFiles>(
    layout: &Layout,
    heads: &[[u8; 32]],
    stripe: u64,
    shards: &[u8],
    files: &mut F,
) -> Result<(), SplitError>
    requires heads { AreHeadDigests layout.now.origin (shard_total layout.now.origin) heads.now }
    requires whole { length shards.now ≡ shard_total layout.now.origin * layout.now.origin.size }
    ensures put { (before : ℕ → List ℕ) → F.holds files.old before → OnOk result ((now : ℕ → List ℕ) × F.holds files.new now
        × AppendsToEach (shard_total layout.now.origin)
        (λ index. piece_bytes (head_digest (numbered layout.now.origin index)) stripe
        (shard_at layout.now.origin.size shards.now index)) before now) }
    ensures refused { IfErr result IsWriteFault }
{
    for index in 0..layout.total() {
        put_piece(
            &head_of(&layout.origin, heads, index),
            stripe,
            index,
            shard_of(&layout.origin, shards, index),
            files,
        )?;
    }
    Ok(())
}

// The bytes of one shard.
fn shard_of<'a>(origin: &Origin, shards: &'a [u8], index: usize) -> &'a [u8]
    requires within { index < shard_total origin.now }
    requires whole { length shards.now ≡ shard_total origin.now * origin.now.size }
    ensures { result.now ≡ shard_at origin.now.size shards.now index }
{
    let size = origin.size as usize;
    let begin = index * size;
    &shards[begin..begin + size]
}

/// Writes the piece of a stripe with these bytes of a shard at the end of its file, by the digest of the shard's head.
pub fn put_piece<F: ShardFiles>(
    digest: &[u8],
    stripe: u64,
    index: usize,
    shard: &[u8],
    files: &mut F,
) -> Result<(), SplitError>
    ensures put { (before : ℕ → List ℕ) → F.holds files.old before → OnOk result ((now : ℕ → List ℕ) × F.holds files.new now
        × IsAppended index (piece_bytes digest.now stripe shard.now) before now) }
    ensures refused { IfErr result IsWriteFault }
{
    append(files, index, &digest_of(digest, stripe, shard))?;
    append(files, index, shard)?;
    Ok(())
}
