// Byte challengers, and the law of runs of their calls.
ghost use Rattle.std.specs.Prelude.{◌≡◌, ⊤, Bool, true, false, OnOk, OnErr, IfOk};
ghost use Rattle.transcripts.specs.ByteCalls.{RunsJoin, Transitions};

use std::alloc::AllocError;

/// A transcript over bytes. It has a state, which changes with each byte that is observed or sampled; what is sampled depends on
/// the state alone. A call may be refused memory; the challenger then remembers that it has refused, and its state is what
/// `may_leave` says.
pub trait ByteChallenger: Drop + Sized {
    // The states.
    ghost State: { Type 0 };

    // The state of a challenger.
    ghost state: { Self → State };

    // Whether a byte call of the challenger has been refused.
    ghost has_refused: { Self → Bool };

    // The state after a byte was observed, and the byte that is sampled with the state after it.
    ghost transitions: { Transitions State };

    // Whether a call that is refused may leave the second challenger of the first. An impl that does not say so may leave any.
    ghost may_leave: { Self → Self → Type 0 } = { λ _ _. ⊤ };

    /// Observes a byte. It fails if memory was refused; the challenger has then refused.
    fn observe_byte(&mut self, byte: u8) -> Result<(), AllocError>
        ensures ok { OnOk result (state self.new ≡ transitions.observed (state self.old) byte) }
        ensures kept { OnOk result (has_refused self.new ≡ has_refused self.old) }
        ensures err { OnErr result (may_leave self.old self.new) }
        ensures refusal { OnErr result (has_refused self.new ≡ true) };

    /// Samples a byte. It fails if memory was refused; the challenger has then refused.
    fn sample_byte(&mut self) -> Result<u8, AllocError>
        ensures ok { IfOk result (λ byte. transitions.sampled (state self.old) ≡ (byte, state self.new)) }
        ensures kept { OnOk result (has_refused self.new ≡ has_refused self.old) }
        ensures err { OnErr result (may_leave self.old self.new) }
        ensures refusal { OnErr result (has_refused self.new ≡ true) };

    /// A challenger with the same state, which has not refused. It fails if memory was refused.
    fn try_clone(&self) -> Result<Self, AllocError>
        ensures ok { IfOk result (λ copy. state copy ≡ state self.now) }
        ensures fresh { IfOk result (λ copy. has_refused copy ≡ false) };

    /// Whether `observe_byte` or `sample_byte` has failed.
    fn refused(&self) -> bool
        ensures { result ≡ has_refused self.now };
}

/// Computes nothing; its contract is the law that two lists of byte calls joined run one after the other: the second from the
/// state after the first, and the bytes sampled are those of the first followed by those of the second.
pub fn runs_join<C: ByteChallenger>()
    ensures { RunsJoin C.transitions }
{}
