// The files of shards in memory, in place of those of a system.
ghost use Rattle.std.specs.Prelude.{◌≡◌, ◌≢◌, ℕ, ◌<◌, [], length, false, true, slice_index_or, None, Some, IfOk, IsTrue, OnOk};
ghost use Rattle.shard_files.specs.Files.{IsAppended};
ghost use Rattle.shard_files.specs.Memory.{bytes_from, file_of, holdings_of};

use crate::group::is_set;
use crate::reading::ShardSource;
use crate::writing::ShardFiles;
use std::alloc::{AllocError, Global};
use std::io;

/// The files of the shards of a file, in memory.
#[derive(Drop)]
pub struct MemoryShards {
    /// The bytes of each, by the number of its shard: none of one that is lost.
    pub files: Vec<Vec<u8>>,
}

impl MemoryShards {
    /// So many files, none of which has bytes. It fails where memory is refused.
    pub fn new(alloc: Global, count: usize) -> Result<MemoryShards, AllocError>
        ensures count { IfOk result (λ shards. length shards.files.items ≡ count) }
        ensures empty { IfOk result (λ shards. (index : ℕ) → file_of shards.files.items index ≡ []) }
    {
        let mut files = Vec::new(alloc);
        for _ in 0..count {
            files.push(Vec::new(alloc))?;
        }
        Ok(MemoryShards { files })
    }

    /// The bytes of the file of a shard: none where it is lost, or there is no such file.
    pub fn file(&self, index: usize) -> &[u8]
        ensures { result.now ≡ file_of self.now.files.items index }
    {
        if index < self.files.len() {
            self.files[index].as_slice()
        } else {
            &[]
        }
    }

    /// Loses each shard whose flag is set: its file then has no bytes.
    pub fn lose(&mut self, lost: &[bool])
        ensures gone { (index : ℕ) → slice_index_or lost.now index false ≡ true → file_of self.new.files.items index ≡ [] }
        ensures left { (index : ℕ) → slice_index_or lost.now index false ≡ false
            → file_of self.new.files.items index ≡ file_of self.old.files.items index }
    {
        for index in 0..self.files.len() {
            self.lose_one(index, is_set(lost, index));
        }
    }

    // Loses a shard where it is to be lost.
    fn lose_one(&mut self, index: usize, is_lost: bool)
        requires { index < length self.old.files.items }
        ensures count { length self.new.files.items ≡ length self.old.files.items }
        ensures gone { is_lost ≡ true → file_of self.new.files.items index ≡ [] }
        ensures left { is_lost ≡ false → file_of self.new.files.items index ≡ file_of self.old.files.items index }
        ensures others { (other : ℕ) → other ≢ index → file_of self.new.files.items other ≡ file_of self.old.files.items other }
    {
        if is_lost {
            self.files[index].clear();
        }
    }

    // Adds bytes at the end of the file of a shard. It fails where there is no such file, or else where memory is refused.
    fn grow(&mut self, index: usize, bytes: &[u8]) -> io::Result<()>
        ensures { OnOk result (IsAppended index bytes.now (file_of self.old.files.items) (file_of self.new.files.items)) }
    {
        if index >= self.files.len() {
            return Err(io::Error::from(io::ErrorKind::NotFound));
        }
        self.files[index].extend_from_slice(bytes)?;
        Ok(())
    }
}

impl ShardFiles for MemoryShards {
    ghost holds = { λ shards files. files ≡ file_of shards.files.items };

    fn append(&mut self, index: usize, bytes: &[u8]) -> io::Result<()> {
        self.grow(index, bytes)
    }
}

impl ShardSource for MemoryShards {
    ghost holds = { λ shards files. files ≡ holdings_of shards.files.items };

    fn count(&self) -> usize {
        self.files.len()
    }

    fn read_at(&mut self, place: usize, start: u64, bytes: &mut [u8]) -> bool {
        read_part(self.file(place), start, bytes)
    }
}

// Copies as many bytes as there is room for, from a place on, and says whether there were so many.
fn read_part(file: &[u8], start: u64, bytes: &mut [u8]) -> bool
    ensures read { IsTrue result → bytes_from file.now start (length bytes.old) ≡ Some bytes.new }
    ensures missed { result ≡ false → bytes_from file.now start (length bytes.old) ≡ None }
{
    let begin = start as usize;
    let count = bytes.len();
    if file.len() < begin || file.len() - begin < count {
        return false;
    }
    bytes.copy_from_slice(&file[begin..begin + count]);
    true
}
