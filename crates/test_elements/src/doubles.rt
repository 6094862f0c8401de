// Byte challengers for tests of what stands on byte challengers: they sample one byte always, refuse the calls that they are told
// to refuse, and note what they and their copies have seen.

ghost use Rattle.std.specs.Prelude.{◌≡◌, ℕ, IsTrue, false, true};

use std::alloc::AllocError;
use std::cell::Cell;
use transcripts::ByteChallenger;

/// What a double and its copies have seen.
#[derive(Clone, Copy, Default, PartialEq)]
pub struct Seen {
    /// The number of bytes that were observed.
    pub observed: u32,
    /// The number of bytes that were sampled.
    pub sampled: u32,
    /// The last eight bytes that were observed, the last of them as the lowest byte.
    pub bytes: u64,
}

impl Seen {
    /// Whether `observed` bytes were observed, the last eight of them in `bytes`, and `sampled` were sampled.
    pub fn is(&self, observed: u32, sampled: u32, bytes: u64) -> bool
        ensures observed { IsTrue result → self.now.observed ≡ observed }
        ensures sampled { IsTrue result → self.now.sampled ≡ sampled }
        ensures bytes { IsTrue result → self.now.bytes ≡ bytes }
    {
        self.observed == observed && self.sampled == sampled && self.bytes == bytes
    }
}

/// What `try_clone` of a double returns.
#[derive(Clone, Copy)]
pub enum Copies {
    /// It is refused memory.
    Refused,
    /// It returns a copy that refuses the byte call after so many.
    RefusingAfter(u32),
}

/// A byte challenger that samples one byte always. It refuses one byte call, that after so many, and grants the others.
#[derive(Drop)]
pub struct Double<'a> {
    byte: u8,
    calls_left: u32,
    copies: Copies,
    has_refused: bool,
    seen: &'a Cell<Seen>,
}

impl<'a> Double<'a> {
    /// A double that samples `byte`, refuses the byte call after `calls_left`, copies as `copies` says, and notes in
    /// `seen` what it sees. It has not refused.
    pub fn new(seen: &'a Cell<Seen>, byte: u8, calls_left: u32, copies: Copies) -> Double<'a>
        ensures byte { result.byte ≡ byte }
        ensures fresh { result.has_refused ≡ false }
    {
        Double {
            byte,
            calls_left,
            copies,
            has_refused: false,
            seen,
        }
    }

    /// A double that samples `byte` and refuses nothing in the first 2^32 - 1 byte calls.
    pub fn constant(seen: &'a Cell<Seen>, byte: u8) -> Double<'a>
        ensures byte { result.byte ≡ byte }
        ensures fresh { result.has_refused ≡ false }
    {
        Double::new(seen, byte, u32::MAX, Copies::RefusingAfter(u32::MAX))
    }

    // Whether this byte call is granted.
    fn grants_call(&mut self) -> bool
        ensures byte { self.new.byte ≡ self.old.byte }
        ensures granted { IsTrue result → self.new.has_refused ≡ self.old.has_refused }
        ensures refused { result ≡ false → self.new.has_refused ≡ true }
    {
        if self.calls_left == 0 {
            self.calls_left = u32::MAX;
            self.has_refused = true;
            return false;
        }
        self.calls_left -= 1;
        true
    }
}

impl<'a> ByteChallenger for Double<'a> {
    // The byte that it samples.
    ghost State = { ℕ };

    ghost state = { λ double. double.byte };

    ghost has_refused = { λ double. double.has_refused };

    ghost transitions = { record { observed = λ state _. state; sampled = λ state. (state, state) } };

    fn observe_byte(&mut self, byte: u8) -> Result<(), AllocError> {
        if !self.grants_call() {
            return Err(AllocError);
        }
        let mut seen = self.seen.get();
        seen.observed = seen.observed.saturating_add(1);
        seen.bytes = (seen.bytes & (u64::MAX >> 8)) << 8 | byte as u64;
        self.seen.set(seen);
        Ok(())
    }

    fn sample_byte(&mut self) -> Result<u8, AllocError> {
        if !self.grants_call() {
            return Err(AllocError);
        }
        let mut seen = self.seen.get();
        seen.sampled = seen.sampled.saturating_add(1);
        self.seen.set(seen);
        Ok(self.byte)
    }

    fn try_clone(&self) -> Result<Double<'a>, AllocError> {
        match self.copies {
            Copies::Refused => Err(AllocError),
            Copies::RefusingAfter(calls_left) => {
                Ok(Double::new(self.seen, self.byte, calls_left, self.copies))
            }
        }
    }

    fn refused(&self) -> bool {
        self.has_refused
    }
}
