// Lists of calls of a challenger, an addition to the Rust crate: calls as values, and the replies to them.
ghost use Rattle.std.specs.Prelude.{◌≡◌, All, false, true, Err, IfErr, IfOk, OnErr, OnOk};
ghost use Rattle.transcripts.specs.GuardedAnswers.{GuardedAnswer};
ghost use Rattle.transcripts.specs.declared.error.ChallengerError.TheVariants.{Failed, Memory};
ghost use Rattle.transcript_elements.specs.Calls.{AppendsReplies, byte_calls, IsReplyTo, joined_calls, MayCall, StopsEarly};
ghost use Rattle.transcript_elements.specs.Challengers.{challenger_failed, challenger_refused, state_after, state_of, StopsWithin};

use crate::byte_level::ByteLevel;
use crate::challenger::BinaryChallenger;
use std::alloc::Allocator;
use transcripts::{ByteChallenger, ChallengerError};

/// A call of a challenger of the field `F`.
#[derive(Clone, Copy, Debug, PartialEq, Eq)]
pub enum Call<F> {
    /// `observe` of an element.
    Observe(F),
    /// `sample` of an element.
    Sample,
    /// `sample_bits` of so many bits, at most 63.
    SampleBits(usize),
    /// `check_witness` of an element, for so many bits, at most 63.
    CheckWitness(usize, F),
}

/// The reply to a call.
#[derive(Clone, Copy, Debug, PartialEq, Eq)]
pub enum Reply<F> {
    /// A value was observed.
    Done,
    /// The element that was sampled.
    Element(F),
    /// The number that was sampled.
    Bits(usize),
    /// Whether the witness passes.
    Passed(bool),
}

/// Makes the calls in order, and appends a reply to each. The inner challenger then has seen the byte calls of all of them, one
/// after the other, and nothing else. Room for the replies is reserved before the first call.
///
/// It fails with `Memory` if memory was refused to that room or to a call; the replies to the calls before it are then appended, and
/// the challenger has failed. Of the call that was refused the inner challenger has seen only some byte calls, the first ones. It fails
/// with `Failed` if an earlier call had failed; nothing is then changed.
pub fn run_calls<F: ByteLevel, Inner: ByteChallenger, A: Allocator>(
    challenger: &mut BinaryChallenger<F, Inner>,
    calls: &[Call<F>],
    replies: &mut Vec<Reply<F>, A>,
) -> Result<(), ChallengerError>
    requires { All MayCall calls.now }
    ensures state { OnOk result (state_of challenger.new ≡ state_after (joined_calls F.NUM_BYTES F.repr calls.now) challenger.old) }
    ensures replies { OnOk result (AppendsReplies F.NUM_BYTES F.width F.repr calls.now challenger.old replies.old replies.new) }
    ensures failed { challenger_failed challenger.old ≡ true → result ≡ Err Failed }
    ensures kept { challenger_failed challenger.old ≡ true → (challenger.new ≡ challenger.old) × (replies.new.items ≡ replies.old.items) }
    ensures goes_on { OnOk result (challenger_failed challenger.new ≡ false) }
    ensures granted { challenger_failed challenger.new ≡ false → challenger_refused challenger.new ≡ false }
    ensures fails { OnErr result (challenger_failed challenger.new ≡ true) }
    ensures memory { challenger_failed challenger.old ≡ false → IfErr result (λ error. error ≡ Memory) }
    ensures err { challenger_failed challenger.old ≡ false
        → OnErr result (StopsEarly F.NUM_BYTES F.width F.repr calls.now challenger.old challenger.new replies.old replies.new) }
{
    if challenger.guarded.failed() {
        return Err(ChallengerError::Failed);
    }
    if replies.reserve(calls.len()).is_err() {
        challenger.guarded.fail();
        return Err(ChallengerError::Memory);
    }
    'calls: for index in 0..calls.len() {
        let reply = challenger.reply_to(&calls[index])?;
        replies.push_reserved(reply);
    }
    Ok(())
}

impl<F: ByteLevel, Inner: ByteChallenger> BinaryChallenger<F, Inner> {
    // Makes one call.
    fn reply_to(&mut self, call: &Call<F>) -> Result<Reply<F>, ChallengerError>
        requires { MayCall call.now }
        ensures state { OnOk result (state_of self.new ≡ state_after (byte_calls F.NUM_BYTES F.repr call.now) self.old) }
        ensures reply { IfOk result (λ reply. IsReplyTo F.NUM_BYTES F.width F.repr call.now self.old reply) }
        ensures answer { GuardedAnswer (challenger_failed self.old) (challenger_failed self.new) (challenger_refused self.new) result }
        ensures err { challenger_failed self.old ≡ false
            → OnErr result (StopsWithin (byte_calls F.NUM_BYTES F.repr call.now) self.old self.new) }
    {
        Ok(match call {
            Call::Observe(element) => {
                self.observe_element(*element)?;
                Reply::Done
            }
            Call::Sample => Reply::Element(self.sample_element()?),
            Call::SampleBits(bits) => Reply::Bits(self.sample_low_bits(*bits)?),
            Call::CheckWitness(bits, witness) => { Reply::Passed(self.check(*bits, *witness)?) }
        })
    }
}
