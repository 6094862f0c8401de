// Proofs of work: witnesses such that the bits sampled after them are 0.
ghost use Rattle.std.specs.Prelude.{◌≡◌, ◌<◌, ℕ, Bool, false, true, Err, IfErr, IfOk, IsOk, Ok, OnErr, OnOk};
ghost use Rattle.transcripts.specs.Grinding.{FailsSearch, IsLeastPassing, MayGrind};
ghost use Rattle.transcripts.specs.GuardedAnswers.{GuardedAnswer};
ghost use Rattle.transcripts.specs.States.{LeadsByState};

use crate::error::{ChallengerError, GrindError};
use crate::sample_bits::CanSampleBits;

/// A transcript with proofs of work: a witness is an element that takes a search to find and one call to check.
pub trait GrindingChallenger: CanSampleBits<usize> {
    /// The witnesses.
    type Witness;

    // The bits of a witness, and its representation.
    ghost witness_bits: { ℕ };

    ghost number: { Self.Witness → ℕ };

    // Whether the witness of a representation passes for so many bits in a transcript, and whether checking it may lead from the
    // first transcript to the second.
    ghost passing: { Self → ℕ → ℕ → Bool };

    ghost checks: { Self → ℕ → ℕ → Self → Type 0 };

    /// Searches for a witness for `bits` bits, and checks it. The candidates are the elements in the order of their representations,
    /// from 0 on: all of them in a field below 64 bits, the first 2^64 - 1 in a wider one. It returns the first that passes, and
    /// the challenger is then as after `check_witness` of it. For 0 bits the witness is 0; nothing is then observed or sampled, and
    /// no memory is taken.
    ///
    /// `bits` is 0, or at least 8 below both 64 and the bits of the field. It fails with `NoWitness` if no candidate passes, with
    /// `Memory` if memory was refused to a copy of the challenger, on which candidates are tried, or to a call of the copy, and
    /// with `Failed` if an earlier call had failed. The challenger is then unchanged.
    fn grind(&mut self, bits: usize) -> Result<Self::Witness, GrindError>
        requires { MayGrind witness_bits bits }
        ensures least { IfOk result (λ witness. IsLeastPassing (passing self.old bits) witness_bits (number witness)) }
        ensures state { IfOk result (λ witness. checks self.old bits (number witness) self.new) }
        ensures goes_on { OnOk result (Self.has_failed self.new ≡ false) }
        ensures kept { OnErr result (self.new ≡ self.old) }
        ensures failed { Self.has_failed self.old ≡ true → result ≡ Err GrindError.Failed }
        ensures err { Self.has_failed self.old ≡ false → IfErr result (FailsSearch (passing self.old bits) witness_bits) }
        ensures none { bits ≡ 0 → Self.has_failed self.old ≡ false → IsOk result };

    /// Observes the witness, samples `bits` bits, at most 63, and returns whether they are 0. For 0 bits it returns true; nothing is
    /// then observed or sampled, and no memory is taken. It fails with `Memory` if memory was refused, and with `Failed` if an
    /// earlier call had failed.
    fn check_witness(
        &mut self,
        bits: usize,
        witness: Self::Witness,
    ) -> Result<bool, ChallengerError>
        requires { bits < 64 }
        ensures passed { IfOk result (λ passed. passed ≡ passing self.old bits (number witness)) }
        ensures state { OnOk result (checks self.old bits (number witness) self.new) }
        ensures none { bits ≡ 0 → Self.has_failed self.old ≡ false → result ≡ Ok true }
        ensures kept { Self.has_failed self.old ≡ true → self.new ≡ self.old }
        ensures answer { GuardedAnswer (Self.has_failed self.old) (Self.has_failed self.new) (Self.has_refused self.new) result };

    ghost passing_law: { (one other : Self) (bits n : ℕ) → Self.state one ≡ Self.state other → passing one bits n ≡ passing other bits n };

    ghost checks_law: { (bits n : ℕ) → LeadsByState Self.state (λ old new. checks old bits n new) };
}
