// Openings of tables of bits and of bytes, which four elements of 32 bits pack, over SHA-256. A verifier is refused memory in turn, and accepts
// where there is memory: what acceptance says the contracts do.
ghost use Rattle.std.specs.Prelude.{◌≡◌, ◌^◌, ◌≤◌};

use super::challengers::asked::hashed;
use field_base::traits::PrimeCharacteristicRing;
use field_bytes::ShortElement;
use field_element::{BinaryField8, BinaryField32};
use field_space::BasedVectorSpace;
use linked_list_allocator::LocalHeap;
use protocols::ProtocolError;
use protocols::commitment_scheme::{Parameters, commit};
use small_tables::{OpenedSmall, SmallField, open_small, verify_small};
use std::alloc::{AllocError, Allocator, Global};
use test_elements::{Ending, Growing, Rest, is_refused_in_turn};
use transcript_elements::ByteLevel;
use transcripts::Sha256Hasher;

// What is opened of a table of small elements, and where.
#[derive(Drop)]
struct Opening<F: ShortElement> {
    small: SmallField<F>,
    root: [u8; 32],
    point: Vec<F>,
    sent: OpenedSmall<F, Global>,
}

// Elements of which each is the one before times the generator, and 1.
fn elements_from<F: ByteLevel>(
    alloc: Global,
    first: F,
    count: usize,
) -> Result<Vec<F>, AllocError> {
    let mut elements = Vec::new(alloc);
    let mut element = first;
    for _ in 0..count {
        elements.push(element)?;
        element = element * F::GENERATOR + F::ONE;
    }
    Ok(elements)
}

// The opening of a table of four packed elements.
fn made_opening<F: ByteLevel + BasedVectorSpace<F>>(
    alloc: Global,
    small: SmallField<F>,
) -> Result<Opening<F>, ProtocolError>
    requires { 26 ≤ F.width }
{
    let sizes = Parameters::new(2, 2);
    let coordinates = 2 + small.levels;
    let table = elements_from(alloc, F::GENERATOR, 4)?;
    let point = elements_from(alloc, F::ONE + F::GENERATOR, coordinates)?;
    if table.len() != 4 || point.len() != coordinates {
        return Err(ProtocolError::Shape);
    }
    let held = commit(alloc, &Sha256Hasher, &sizes, table.as_slice())?;
    let root = held.tree.commitment().root;
    let mut prover = hashed::<F, Global>(Vec::new(alloc));
    let (packed, at) = (table.as_slice(), point.as_slice());
    let sent = open_small(alloc, &mut prover, &sizes, &small, &held, packed, at)?;
    Ok(Opening {
        small,
        root,
        point,
        sent,
    })
}

// Whether an opening is accepted by a new verifier. Its field has to have 26 bits or more.
fn is_accepted<F: ByteLevel + BasedVectorSpace<F>, A: Allocator + Copy>(
    alloc: A,
    opening: &Opening<F>,
) -> Result<bool, ProtocolError> {
    let sizes = Parameters::new(2, 2);
    let (small, sent, point) = (&opening.small, &opening.sent, opening.point.as_slice());
    if F::bits() < 26 || point.len() != 2 + small.levels {
        return Err(ProtocolError::Shape);
    }
    let (hasher, root) = (&Sha256Hasher, opening.root);
    let mut verifier = hashed::<F, A>(Vec::new(alloc));
    verify_small(
        alloc,
        hasher,
        &mut verifier,
        &sizes,
        small,
        root,
        point,
        sent,
    )
}

impl<F: ByteLevel + BasedVectorSpace<F>> Growing for Opening<F> {
    fn run<'a>(&self, heap: &'a LocalHeap, rest: Rest<'a>) -> Result<Ending, AllocError> {
        let accepted = is_accepted(heap, self);
        drop(rest);
        Ok(match accepted {
            Ok(accepted) => Ending::of(true, accepted),
            Err(ProtocolError::Memory) => Ending::Refused,
            Err(_) => Ending::Wrong,
        })
    }
}

// Whether a table over a small field is opened, and what is opened is accepted, or the verifier is refused memory.
fn is_opened<F: ByteLevel + BasedVectorSpace<F>>(
    alloc: Global,
    small: SmallField<F>,
) -> Result<bool, ProtocolError>
    requires { 26 ≤ F.width }
{
    let opening = made_opening(alloc, small)?;
    Ok(is_refused_in_turn(alloc, &opening, true))
}

// The same of bits.
fn are_bits_opened<F: ByteLevel + BasedVectorSpace<F>>(alloc: Global) -> Result<bool, ProtocolError>
    requires { F.width ≡ 2 ^ 5 }
{
    is_opened(alloc, SmallField::<F>::bits(5))
}

// The same of bytes.
fn are_bytes_opened<
    F: ByteLevel + BasedVectorSpace<F> + BasedVectorSpace<S>,
    S: PrimeCharacteristicRing,
>(alloc: Global) -> Result<bool, ProtocolError>
    requires points { 26 ≤ F.width }
    requires bits { S.width ≡ 8 }
    requires dimension { F.BasedVectorSpace-2.DIMENSION ≡ 2 ^ 2 }
{
    is_opened(alloc, SmallField::<F>::of::<S>(8, 2))
}

#[test]
fn tables_of_bits_are_opened(rt: HostRuntime) {
    assert!(rt; matches!(are_bits_opened::<BinaryField32>(rt.alloc()), Ok(true)));
}

#[test]
fn tables_of_bytes_are_opened(rt: HostRuntime) {
    let told = are_bytes_opened::<BinaryField32, BinaryField8>(rt.alloc());
    assert!(rt; matches!(told, Ok(true)));
}
