// How many bytes of each shard the stripes of a file have.
ghost use Rattle.std.specs.Prelude.{◌≡◌, ◌≢◌, ◌+◌, ◌-◌, ◌*◌, ◌/◌, ◌%◌, ◌≤◌, ◌^◌};
ghost use Rattle.shard_files.specs.Stripes.{even_size, part_count};

use crate::TRANSFORM;
use crate::head::Origin;

/// About how many bytes of all shards of a file a stripe has at most.
const STRIPE: u64 = 1 << 24;

impl Origin {
    /// What the heads of the shards of a file say, of so many bytes and of this identity, by the code of that number. A stripe of all shards
    /// has some 16 MiB at most, and the stripes are as long as one another. A shard has whole words of a stripe, where the code has words.
    pub fn of_file(
        code: u32,
        data_shards: u32,
        parity_shards: u32,
        length: u64,
        identity: [u8; 32],
    ) -> Origin
        ensures counts { (result.code ≡ code) × (result.data_shards ≡ data_shards) × (result.parity_shards ≡ parity_shards) }
        ensures named { (result.length ≡ length) × (result.identity ≡ identity) }
        ensures size { let size = even_size data_shards (data_shards + parity_shards) length in
            (code ≢ 2 → result.size ≡ size) × (code ≡ 2 → result.size ≡ size + size % 2) }
        ensures even { code ≡ 2 → result.size % 2 ≡ 0 }
    {
        let data = data_shards as u64;
        let size = shard_size(data, data + parity_shards as u64, length);
        Origin {
            code,
            data_shards,
            parity_shards,
            length,
            size: in_words(code, size),
            identity,
        }
    }
}

// How many bytes each shard has of a stripe, where the file has as few stripes as go, all as long as one another.
fn shard_size(data_shards: u64, total: u64, length: u64) -> u64
    ensures small { result ≤ 2 ^ 24 }
    ensures size { result ≡ even_size data_shards total length }
{
    let most = parts(STRIPE, total).clamp(1, STRIPE);
    let stripes = parts(length, most.saturating_mul(data_shards));
    parts(length, stripes.saturating_mul(data_shards)).clamp(1, STRIPE)
}

// So many bytes of a shard, up to whole words where the code is over words.
fn in_words(code: u32, size: u64) -> u64
    requires { size ≤ 2 ^ 24 }
    ensures whole { (code ≢ 2 → result ≡ size) × (code ≡ 2 → result ≡ size + size % 2) }
    ensures even { code ≡ 2 → result % 2 ≡ 0 }
{
    if code == TRANSFORM {
        size + size % 2
    } else {
        size
    }
}

// How many parts of so many bytes hold all of them, of which the last may be shorter.
fn parts(length: u64, each: u64) -> u64
    ensures { result ≡ part_count length each }
{
    if each == 0 || length == 0 {
        1
    } else {
        (length - 1) / each + 1
    }
}
