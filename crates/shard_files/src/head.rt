// The head of a shard's file, 104 bytes: eight that name the format and its version, then, the lowest byte first, the code, the counts of
// shards of data and of parity and the shard's number in four bytes each, the file's length and the bytes of a shard in a stripe in eight
// bytes each, the SHA-256 of the file's bytes, which is the file's identity, and the SHA-256 of all this.
ghost use Rattle.std.specs.Prelude.{◌≡◌, ◌≢◌, ◌⊎◌, ◌+◌, ◌≤◌, ◌++◌, ◌↔◌, ℕ, List, drop};
ghost use Rattle.std.specs.Prelude.{length, slice_index, take, IfSome, IsNone, IsTrue, OnOk, Some};
ghost use Rattle.std.specs.Int.{w32, w64, from_le_bytes, to_le_bytes};
ghost use Rattle.std.specs.Io.KnownBytes.{Appends};
ghost use Rattle.sha2.specs.Hashers.{Holds256};
ghost use Rattle.sha2.specs.Sha256.{sha256};
ghost use Rattle.shard_files.specs.Heads.{format_name, head_digest, head_fields, head_file, IsHead};
ghost use Rattle.shard_files.specs.declared.head.Head.{Head};

use sha2::{Digest, Sha256};
use std::io;
use std::io::Write;

/// How many bytes a head has.
pub const HEAD: usize = 104;

/// What the heads of all shards of a file say.
#[derive(Clone, Copy, PartialEq, Eq)]
pub struct Origin {
    /// The number of the code: `MATRIX` or `TRANSFORM` of this crate.
    pub code: u32,
    /// How many shards there are of data.
    pub data_shards: u32,
    /// How many shards there are of parity.
    pub parity_shards: u32,
    /// How many bytes the file has.
    pub length: u64,
    /// How many bytes of each shard a stripe has.
    pub size: u64,
    /// The SHA-256 of the file's bytes.
    pub identity: [u8; 32],
}

/// What the head of a shard's file says.
#[derive(Clone, Copy)]
pub struct Head {
    /// What the heads of all shards of its file say.
    pub origin: Origin,
    /// The number of the shard: those of data are the first.
    pub index: u32,
}

impl Origin {
    /// Whether another says the same.
    pub fn is_same(&self, other: &Origin) -> bool
        ensures { IsTrue result ↔ (self.now ≡ other.now) }
    {
        self.has_same_code(other)
            && self.length == other.length
            && self.size == other.size
            && self.identity == other.identity
    }

    /// Whether the bytes that were hashed have the identity of the file.
    pub fn names(&self, hasher: Sha256) -> bool
        ensures { (bytes : List ℕ) → Holds256 hasher bytes → IsTrue result ↔ (sha256 bytes ≡ self.now.identity) }
    {
        hasher.finalize() == self.identity
    }

    // Whether another has the same code and the same counts.
    fn has_same_code(&self, other: &Origin) -> bool
        ensures { IsTrue result ↔ ((self.now.code ≡ other.now.code) × (self.now.data_shards ≡ other.now.data_shards)
            × (self.now.parity_shards ≡ other.now.parity_shards)) }
    {
        self.code == other.code
            && self.data_shards == other.data_shards
            && self.parity_shards == other.parity_shards
    }
}

impl Head {
    // What a head begins with.
    fn fields(&self) -> [u8; 24]
        ensures { result ≡ head_fields self.now.origin self.now.index }
    {
        let code = self.origin.code.to_le_bytes();
        let some = self.origin.data_shards.to_le_bytes();
        let more = self.origin.parity_shards.to_le_bytes();
        let index = self.index.to_le_bytes();
        [
            b's', b'h', b'a', b'r', b'd', b's', b' ', b'3', code[0], code[1], code[2], code[3],
            some[0], some[1], some[2], some[3], more[0], more[1], more[2], more[3], index[0],
            index[1], index[2], index[3],
        ]
    }

    /// The SHA-256 of what stands before it in a head.
    pub fn digest(&self) -> [u8; 32]
        ensures { result ≡ head_digest self.now }
    {
        let mut hasher = Sha256::new();
        hasher.update(&self.fields());
        hasher.update(&self.origin.length.to_le_bytes());
        hasher.update(&self.origin.size.to_le_bytes());
        hasher.update(&self.origin.identity);
        hasher.finalize()
    }

    // What a head says, whether or not its digest is right.
    fn parsed(bytes: &[u8]) -> Head
        requires { length bytes.now ≡ 104 }
        ensures code { result.origin.code ≡ from_le_bytes w32 (take 4 (drop 8 bytes.now)) }
        ensures data { result.origin.data_shards ≡ from_le_bytes w32 (take 4 (drop 12 bytes.now)) }
        ensures parity { result.origin.parity_shards ≡ from_le_bytes w32 (take 4 (drop 16 bytes.now)) }
        ensures index { result.index ≡ from_le_bytes w32 (take 4 (drop 20 bytes.now)) }
        ensures length { result.origin.length ≡ from_le_bytes w64 (take 8 (drop 24 bytes.now)) }
        ensures size { result.origin.size ≡ from_le_bytes w64 (take 8 (drop 32 bytes.now)) }
        ensures identity { result.origin.identity ≡ take 32 (drop 40 bytes.now) }
    {
        Head {
            origin: Origin {
                code: u32::from_le_bytes(bytes_at(bytes, 8)),
                data_shards: u32::from_le_bytes(bytes_at(bytes, 12)),
                parity_shards: u32::from_le_bytes(bytes_at(bytes, 16)),
                length: u64::from_le_bytes(bytes_at(bytes, 24)),
                size: u64::from_le_bytes(bytes_at(bytes, 32)),
                identity: bytes_at(bytes, 40),
            },
            index: u32::from_le_bytes(bytes_at(bytes, 20)),
        }
    }

    /// The head that was written as these bytes, and nothing where they were written of no head.
    pub fn of_bytes(bytes: &[u8]) -> Option<Head>
        ensures written { IfSome result (λ head. bytes.now ≡ head_file head) }
        ensures read { (head : Head) → IsHead head → bytes.now ≡ head_file head → result ≡ Some head }
    {
        if bytes.len() != HEAD {
            return None;
        }
        let head = Head::parsed(bytes);
        if !head.is_of(bytes) {
            return None;
        }
        Some(head)
    }

    // Whether bytes begin as this head does, and have its digest.
    fn is_of(&self, bytes: &[u8]) -> bool
        requires { length bytes.now ≡ 104 }
        ensures { IsTrue result ↔ ((take 24 bytes.now ≡ head_fields self.now.origin self.now.index)
            × (take 8 (drop 24 bytes.now) ≡ to_le_bytes w64 self.now.origin.length)
            × (take 8 (drop 32 bytes.now) ≡ to_le_bytes w64 self.now.origin.size) × (drop 72 bytes.now ≡ head_digest self.now)) }
    {
        self.begins(bytes) && self.has_lengths(bytes) && self.has_digest(bytes)
    }

    // Whether bytes begin with the fields of this head.
    fn begins(&self, bytes: &[u8]) -> bool
        requires { length bytes.now ≡ 104 }
        ensures { IsTrue result ↔ (take 24 bytes.now ≡ head_fields self.now.origin self.now.index) }
    {
        let fields = self.fields();
        bytes[0..24] == fields[..]
    }

    // Whether bytes have the lengths of this head.
    fn has_lengths(&self, bytes: &[u8]) -> bool
        requires { length bytes.now ≡ 104 }
        ensures { IsTrue result ↔ ((take 8 (drop 24 bytes.now) ≡ to_le_bytes w64 self.now.origin.length)
            × (take 8 (drop 32 bytes.now) ≡ to_le_bytes w64 self.now.origin.size)) }
    {
        is_long(bytes, 24, self.origin.length) && is_long(bytes, 32, self.origin.size)
    }

    // Whether bytes have the digest of this head.
    fn has_digest(&self, bytes: &[u8]) -> bool
        requires { length bytes.now ≡ 104 }
        ensures { IsTrue result ↔ (drop 72 bytes.now ≡ head_digest self.now) }
    {
        let digest = self.digest();
        bytes[72..] == digest[..]
    }

    /// Writes a head.
    pub fn write<W: Write>(&self, writer: &mut W) -> io::Result<()>
        ensures { OnOk result (Appends (W.contents writer.old) (W.contents writer.new) (head_file self.now)) }
    {
        writer.write_all(&self.fields())?;
        writer.write_all(&self.origin.length.to_le_bytes())?;
        writer.write_all(&self.origin.size.to_le_bytes())?;
        writer.write_all(&self.origin.identity)?;
        writer.write_all(&self.digest())?;
        Ok(())
    }
}

// So many bytes from a place on.
fn bytes_at<const N: usize>(bytes: &[u8], place: usize) -> [u8; N]
    requires { place + N ≤ length bytes.now }
    ensures { result ≡ take N (drop place bytes.now) }
{
    let mut part = [0; N];
    part.copy_from_slice(&bytes[place..place + N]);
    part
}

// Whether the eight bytes from a place on are those of a number.
fn is_long(bytes: &[u8], place: usize, number: u64) -> bool
    requires { place + 8 ≤ length bytes.now }
    ensures { IsTrue result ↔ (take 8 (drop place bytes.now) ≡ to_le_bytes w64 number) }
{
    let own = number.to_le_bytes();
    bytes[place..place + 8] == own[..]
}

/// The version of the format of a file that was written by an older program, 1 or 2, where it begins with the name of one.
pub fn older_format(bytes: &[u8]) -> Option<u8>
    ensures named { IfSome result (λ version. ((version ≡ 1) ⊎ (version ≡ 2)) × (take 8 bytes.now ≡ format_name version)) }
    ensures none { IsNone result → (version : ℕ) → (version ≡ 1) ⊎ (version ≡ 2) → take 8 bytes.now ≢ format_name version }
{
    if has_name(bytes, b"shards 1") {
        Some(1)
    } else if has_name(bytes, b"shards 2") {
        Some(2)
    } else {
        None
    }
}

// Whether bytes begin with a name.
fn has_name(bytes: &[u8], name: &[u8]) -> bool
    ensures { IsTrue result ↔ (take (length name.now) bytes.now ≡ name.now) }
{
    bytes.starts_with(name)
}
