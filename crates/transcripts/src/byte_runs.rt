// Several bytes observed or sampled in one call.
ghost use Rattle.std.specs.Prelude.{◌≡◌, ℕ, ◌<◌, ◌+◌, true, OnOk, OnErr, IfOk, length};
ghost use Rattle.transcripts.specs.ByteCalls.{after, IsPartlyRun, observing, sampling, squeezed, squeezed_word};

use crate::byte_challenger::ByteChallenger;
use std::alloc::AllocError;

/// Observes the bytes in order. It fails at the first byte that is refused; the bytes before it are then observed, and the challenger
/// is what the refused call has left.
pub fn observe_bytes<C: ByteChallenger>(challenger: &mut C, bytes: &[u8]) -> Result<(), AllocError>
    ensures ok { OnOk result (C.state challenger.new ≡ after C.transitions (observing bytes.now) (C.state challenger.old)) }
    ensures kept { OnOk result (C.has_refused challenger.new ≡ C.has_refused challenger.old) }
    ensures err { OnErr result (IsPartlyRun C.transitions C.state C.may_leave (observing bytes.now)
        (C.state challenger.old) challenger.new) }
    ensures refusal { OnErr result (C.has_refused challenger.new ≡ true) }
{
    'bytes: for index in 0..bytes.len() {
        challenger.observe_byte(bytes[index])?;
    }
    Ok(())
}

/// Fills `bytes` with samples, in order. It fails at the first byte that is refused; the bytes before it are then sampled, the
/// challenger is what the refused call has left, and what `bytes` holds is left open.
pub fn sample_bytes<C: ByteChallenger>(
    challenger: &mut C,
    bytes: &mut [u8],
) -> Result<(), AllocError>
    ensures ok { OnOk result (C.state challenger.new ≡ after C.transitions (sampling (length bytes.old)) (C.state challenger.old)) }
    ensures bytes { OnOk result (bytes.new ≡ squeezed C.transitions (sampling (length bytes.old)) (C.state challenger.old)) }
    ensures kept { OnOk result (C.has_refused challenger.new ≡ C.has_refused challenger.old) }
    ensures err { OnErr result (IsPartlyRun C.transitions C.state C.may_leave (sampling (length bytes.old))
        (C.state challenger.old) challenger.new) }
    ensures refusal { OnErr result (C.has_refused challenger.new ≡ true) }
{
    'bytes: for index in 0..bytes.len() {
        bytes[index] = challenger.sample_byte()?;
    }
    Ok(())
}

/// Samples eight bytes and reads them as a number, lowest byte first. It fails at the first byte that is refused; the bytes before it
/// are then sampled, and the challenger is what the refused call has left.
pub fn sample_u64<C: ByteChallenger>(challenger: &mut C) -> Result<u64, AllocError>
    ensures ok { OnOk result (C.state challenger.new ≡ after C.transitions (sampling 8) (C.state challenger.old)) }
    ensures word { IfOk result (λ word. word ≡ squeezed_word C.transitions (sampling 8) (C.state challenger.old)) }
    ensures kept { OnOk result (C.has_refused challenger.new ≡ C.has_refused challenger.old) }
    ensures err { OnErr result (IsPartlyRun C.transitions C.state C.may_leave (sampling 8) (C.state challenger.old) challenger.new) }
    ensures refusal { OnErr result (C.has_refused challenger.new ≡ true) }
{
    let mut bytes = [0; 8];
    sample_bytes(challenger, &mut bytes)?;
    Ok(u64::from_le_bytes(bytes))
}
