// Bits that are sampled.
ghost use Rattle.std.specs.Prelude.{◌≡◌, ◌<◌, ℕ, true, IfOk};
ghost use Rattle.transcripts.specs.GuardedAnswers.{GuardedAnswer};
ghost use Rattle.transcripts.specs.States.{GivesByState};

use crate::error::ChallengerError;
use crate::observe::Transcript;

/// A transcript from which bits are sampled, as a number of the type `T`. The number and the state after it depend on the state
/// before alone.
pub trait CanSampleBits<T>: Transcript {
    // Whether sampling so many bits may give the number, and lead from the first transcript to the second.
    ghost gives_bits: { Self → ℕ → T → Self → Type 0 };

    /// Samples a number of `bits` bits, at most 63. It fails with `Memory` if memory was refused, and with `Failed` if an earlier
    /// call had failed.
    fn sample_bits(&mut self, bits: usize) -> Result<T, ChallengerError>
        requires { bits < 64 }
        ensures ok { IfOk result (λ number. gives_bits self.old bits number self.new) }
        ensures kept { Self.has_failed self.old ≡ true → self.new ≡ self.old }
        ensures answer { GuardedAnswer (Self.has_failed self.old) (Self.has_failed self.new) (Self.has_refused self.new) result };

    ghost gives_bits_law: { (bits : ℕ) → GivesByState Self.state
        (λ (old : Self) (number : T) (new : Self). gives_bits old bits number new) };
}

/// A transcript from which bits are sampled such that all numbers are equally likely if all bytes are. Sampled bytes need no
/// rejection, so this is `sample_bits`.
pub trait CanSampleUniformBits<F>: CanSampleBits<usize> {
    /// Samples a number of `bits` bits, at most 63. It fails with `Memory` if memory was refused, and with `Failed` if an earlier
    /// call had failed.
    final fn sample_uniform_bits(&mut self, bits: usize) -> Result<usize, ChallengerError>
        requires { bits < 64 }
        ensures ok { IfOk result (λ number. Self.gives_bits self.old bits number self.new) }
        ensures kept { Self.has_failed self.old ≡ true → self.new ≡ self.old }
        ensures answer { GuardedAnswer (Self.has_failed self.old) (Self.has_failed self.new) (Self.has_refused self.new) result }
    {
        self.sample_bits(bits)
    }
}
