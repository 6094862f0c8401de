// The bytes of elements that are observed one after the other.
ghost use Rattle.transcript_elements.specs.Joined.{ElementsJoin};

use crate::byte_level::ByteLevel;
use transcripts::ByteChallenger;

/// Computes nothing; its contract is the law that a challenger of a field which observes elements one after the other, as
/// `observe_slice` does, observes the bytes of all of them, joined.
pub fn elements_join<F: ByteLevel, Inner: ByteChallenger>()
    ensures { ElementsJoin Inner.ByteChallenger F.NUM_BYTES F.repr }
{}
