// Strings of bytes as elements.
ghost use Rattle.std.specs.Prelude.{◌≡◌, false, OnErr, OnOk};
ghost use Rattle.transcripts.specs.GuardedAnswers.{GuardedAnswer};
ghost use Rattle.transcript_elements.specs.Seeds.{BeginsPadded, ObservesPadded};

use crate::field::TranscriptField;
use transcripts::{CanObserve, ChallengerError};

/// Observes bytes as elements, the first bytes in the first element, the first of them its lowest byte; zeros fill the last element.
/// It fails if the transcript does; the elements before are then observed.
pub(crate) fn observe_padded<F: TranscriptField, C: CanObserve<F>>(
    challenger: &mut C,
    bytes: &[u8],
) -> Result<(), ChallengerError>
    requires { C.has_failed challenger.old ≡ false }
    ensures ok { OnOk result (ObservesPadded F.NUM_BYTES F.repr C.observes bytes.now challenger.old challenger.new) }
    ensures err { OnErr result (BeginsPadded F.NUM_BYTES F.repr C.observes C.may_leave bytes.now challenger.old challenger.new) }
    ensures answer { GuardedAnswer false (C.has_failed challenger.new) (C.has_refused challenger.new) result }
{
    let size = F::NUM_BYTES;
    let mut rest = bytes;
    'elements: while rest.len() > 0 {
        let (first, others) = rest.split_at(size.min(rest.len()));
        challenger.observe(F::of_low_first(first))?;
        rest = others;
    }
    Ok(())
}
