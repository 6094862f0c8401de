// The hash of what a reader gives, which is read piece by piece.
ghost use Rattle.std.specs.Prelude.{◌≡◌, ◌≢◌, ℕ, List, true, IfErr, IfOk, OnErr};
ghost use Rattle.std.specs.IoError.{error_kind};
ghost use Rattle.std.specs.Io.KnownBytes.{Consumes};
ghost use Rattle.tags.specs.Blocks.{blocks_of};
ghost use Rattle.tag.specs.Choice.{hash_named};
ghost use Rattle.tag.specs.Input.{input_failed, input_reader};
ghost use Rattle.tag.specs.Stream.{HashesAll};

use crate::Choice;
use crate::input::Input;
use std::io::{ErrorKind, Read, Result};
use tags::{Ghash, Polyval, UniversalHash};

// How many bytes are read at once, at most, and held.
const PIECE: usize = 32768;

/// The hash of the blocks of all bytes that `input` gives until its end, the last block filled up with zeros. It fails only where `input`
/// has failed; then some bytes were read, and there is no hash.
pub fn hash<R: Read>(choice: Choice, key: &[u8; 16], input: &mut Input<R>) -> Result<[u8; 16]>
    ensures ok { IfOk result
        (HashesAll (hash_named choice key.now) (R.remaining (input_reader input.old)) (R.remaining (input_reader input.new))) }
    ensures err { OnErr result ((read : List ℕ)
        × Consumes (R.remaining (input_reader input.old)) (R.remaining (input_reader input.new)) read) }
    ensures failed { OnErr result (input_failed input.new ≡ true) }
    ensures retried { IfErr result (λ error. error_kind error ≢ ErrorKind.Interrupted) }
{
    match choice {
        Choice::Ghash => hash_all::<Ghash, R>(key, input),
        Choice::Polyval => hash_all::<Polyval, R>(key, input),
    }
}

// `hash`, by the universal hash `H`.
fn hash_all<H: UniversalHash + Drop, R: Read>(
    key: &[u8; 16],
    input: &mut Input<R>,
) -> Result<[u8; 16]>
    ensures ok { IfOk result (HashesAll (λ message. H.hash key.now (blocks_of message))
        (R.remaining (input_reader input.old)) (R.remaining (input_reader input.new))) }
    ensures err { OnErr result ((read : List ℕ)
        × Consumes (R.remaining (input_reader input.old)) (R.remaining (input_reader input.new)) read) }
    ensures failed { OnErr result (input_failed input.new ≡ true) }
    ensures retried { IfErr result (λ error. error_kind error ≢ ErrorKind.Interrupted) }
{
    let mut hash = H::new(key);
    let mut piece = [0; PIECE];
    'pieces: loop {
        match input.next(&mut piece) {
            Ok(0) => return Ok(hash.finalize()),
            Ok(count) => hash.update(&piece[..count]),
            Err(error) => return Err(error),
        }
    }
}
