// Bytes that are read, and bytes that are overwritten.
ghost use Rattle.std.specs.Prelude.{◌≡◌, ◌<◌, ℕ, length, slice_index};

use anyhow::{Context, Result, bail};
use std::io::Read;

/// How many bytes a secret has at most.
pub(crate) const SECRET_LIMIT: usize = 65536;

/// How many bytes the lines of shares have at most: 255 of the longest lines have fewer.
pub(crate) const TEXT_LIMIT: usize = 33554432;

// How many bytes are read at once.
const PIECE: usize = 4096;

/// All bytes of standard input. There is room for the most from the beginning, so that none are copied and left behind.
pub(crate) fn read_all(rt: &HostRuntime, limit: usize) -> Result<Vec<u8>> {
    let mut bytes = Vec::with_capacity(rt.alloc(), limit)?;
    let mut piece = [0; PIECE];
    let mut input = rt.stdin();
    'reads: for _ in 0..u64::MAX {
        let count = input.read(&mut piece).context("standard input")?;
        if count == 0 {
            break;
        }
        if bytes.len() > limit || count > limit - bytes.len() {
            wipe(&mut bytes);
            bail!("there are more than {limit} bytes");
        }
        bytes.extend_from_slice(&piece[..count])?;
    }
    overwrite(&mut piece);
    Ok(bytes)
}

/// Writes zeros over bytes.
pub(crate) fn wipe(bytes: &mut Vec<u8>) {
    overwrite(bytes.as_mut_slice());
}

/// Writes zeros over bytes.
pub(crate) fn overwrite(bytes: &mut [u8])
    ensures { (p : ℕ) → p < length bytes.new → slice_index bytes.new p ≡ 0 }
{
    for byte in bytes.iter_mut() {
        *byte = 0;
    }
}
