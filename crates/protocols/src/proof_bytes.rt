// Proofs as bytes. A proof is a list of elements: the messages of sum-check, and behind them what a verifier is sent beside them, as
// values at the challenges, or a witness of work. The verifier knows how many of each there are.
ghost use Rattle.std.specs.Prelude.{◌≡◌, ◌≢◌, List, length, IfNone, IfOk, IfSome};
ghost use Rattle.field_bytes.specs.Bytes.{low_bytes};
ghost use Rattle.field_bytes.specs.Streams.{joined_bytes};

use field_bytes::ShortElement;
use std::alloc::{AllocError, Allocator};
use transcripts::merkle_paths::row_of;

/// The bytes of a proof: `NUM_BYTES` of each element, which are those of its representation, the lowest first. It fails if memory was
/// refused.
pub fn encode<F: ShortElement, A: Allocator>(
    alloc: A,
    elements: &[F],
) -> Result<Vec<u8, A>, AllocError>
    ensures { IfOk result (λ bytes. bytes.items ≡ joined_bytes F.NUM_BYTES F.repr elements.now) }
{
    let mut bytes = Vec::new(alloc);
    'elements: for index in 0..elements.len() {
        let word = elements[index].low_first();
        bytes.extend_from_slice(&word[..F::NUM_BYTES])?;
    }
    Ok(bytes)
}

/// The proof of which these are the bytes; None if they are of no proof, as where an element is cut off or has a bit above the field. Bytes
/// that `encode` wrote give the elements of which they were written, and what is not None is what `encode` writes of the result. It fails
/// if memory was refused.
pub fn decode<F: ShortElement, A: Allocator>(
    alloc: A,
    bytes: &[u8],
) -> Result<Option<Vec<F, A>>, AllocError>
    ensures written { IfOk result (λ read. IfSome read (λ elements. bytes.now ≡ joined_bytes F.NUM_BYTES F.repr elements.items)) }
    ensures own { IfOk result (λ read. IfSome read (λ elements. (others : List F) → bytes.now ≡ joined_bytes F.NUM_BYTES F.repr others
        → elements.items ≡ others)) }
    ensures none { IfOk result (λ read. IfNone read ((elements : List F) → bytes.now ≢ joined_bytes F.NUM_BYTES F.repr elements)) }
{
    let size = F::NUM_BYTES;
    if bytes.len() % size != 0 {
        return Ok(None);
    }
    let mut elements = Vec::new(alloc);
    'elements: for index in 0..bytes.len() / size {
        let part = row_of(bytes, size, index);
        match element_of::<F>(part) {
            Some(element) => elements.push(element)?,
            None => return Ok(None),
        }
    }
    Ok(Some(elements))
}

// The element with these bytes, and None if there is none.
fn element_of<F: ShortElement>(bytes: &[u8]) -> Option<F>
    requires { length bytes.now ≡ F.NUM_BYTES }
    ensures some { IfSome result (λ element. bytes.now ≡ low_bytes F.NUM_BYTES (F.repr element)) }
    ensures none { IfNone result ((x : F) → bytes.now ≢ low_bytes F.NUM_BYTES (F.repr x)) }
{
    let element = F::of_low_first(bytes);
    let word = element.low_first();
    if word[..F::NUM_BYTES] != bytes[..] {
        return None;
    }
    Some(element)
}
