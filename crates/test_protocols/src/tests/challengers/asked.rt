// Calls of challengers as rows of numbers, and what they return. Here alone the calls of a challenger of any field are made. What the
// tests do with challengers is written over `Asked`, which has no laws: a function over the bounds of fields and of byte challengers
// takes the check longer.
ghost use Rattle.std.specs.Prelude.{◌<◌};

use field_base::Unsigned;
use std::alloc::{AllocError, Allocator, Global};
use transcript_elements::{BinaryChallenger, ByteLevel};
use transcripts::{
    ByteChallenger, CanObserve, CanSampleBits, CanSampleUniformBits, ChallengerError, GrindError,
    GrindingChallenger, Hash, HashChallenger, MerkleCap, Sha256Hasher, Transcript,
};

/// A call, its bits, its operand, and what it returns, elements by their representations. 0 observes the operand, 1 samples an
/// element, 2 samples bits, 3 checks the operand as a witness and returns 1 where it passes, 4 searches for a witness, and 5
/// samples bits as uniform ones. 6 to 9 observe digests: 6 three bytes, 7 a word, 8 a cap of two roots of two bytes, which is
/// lent, and 9 one of two roots of a word, which is given away. 10 samples an element of a copy, and 11 observes the operand in one
/// slice, as often as there are bits. What is observed returns 0.
pub(crate) type Row = [u128; 4];

/// Every call of a challenger of a field.
pub(crate) static EVERY_CALL: [Row; 16] = [
    [0, 0, 0x0403_0201, 0],
    [1, 0, 0, 0],
    [2, 0, 0, 0],
    [2, 12, 0, 0],
    [3, 0, 1, 0],
    [3, 5, 1, 0],
    [4, 0, 0, 0],
    [4, 8, 0, 0],
    [5, 12, 0, 0],
    [6, 0, 0, 0],
    [7, 0, 0, 0],
    [8, 0, 0, 0],
    [9, 0, 0, 0],
    [10, 0, 0, 0],
    [11, 0, 1, 0],
    [11, 4, 0x0403_0201, 0],
];

/// What a call returned.
#[derive(Clone, Copy, PartialEq)]
pub(crate) enum Said {
    Number(u128),
    Memory,
    Failed,
    NoWitness,
    /// The call may not be made.
    Nothing,
}

/// A challenger that is asked by rows.
pub(crate) trait Asked {
    /// What the call of a row returns.
    fn answer(&mut self, alloc: Global, row: &Row) -> Said;
}

/// A challenger over SHA-256.
pub(crate) type Hashed<F, A> = BinaryChallenger<F, HashChallenger<Sha256Hasher, A>>;

/// A challenger over SHA-256 from this initial state.
pub(crate) fn hashed<F, A: Allocator + Clone>(state: Vec<u8, A>) -> Hashed<F, A> {
    BinaryChallenger::from_hasher(state, Sha256Hasher)
}

/// The element of this representation.
pub(crate) fn element<F: ByteLevel>(number: u128) -> F {
    F::from_repr(F::Repr::of_u128(number))
}

// The representation of the element.
fn number_of<F: ByteLevel>(element: F) -> u128 {
    element.to_repr().to_u128()
}

// What digests are of.
struct Tree;

// Two roots, or fewer where memory is refused.
fn roots<D: Copy + Drop>(alloc: Global, roots: [D; 2]) -> MerkleCap<Tree, D> {
    let mut kept = Vec::new(alloc);
    for root in roots {
        if kept.push(root).is_err() {
            break;
        }
    }
    MerkleCap::new(kept)
}

// The value so many times, or fewer where memory is refused.
fn repeated<T: Copy + Drop>(alloc: Global, value: T, count: usize) -> Vec<T> {
    let mut values = Vec::new(alloc);
    for _ in 0..count {
        if values.push(value).is_err() {
            break;
        }
    }
    values
}

fn observe_many<F: ByteLevel, Inner: ByteChallenger>(
    alloc: Global,
    challenger: &mut BinaryChallenger<F, Inner>,
    row: &Row,
) -> Result<(), ChallengerError> {
    let bytes: Hash<Tree, u8, 3> = Hash::from([4, 5, 6]);
    let word: Hash<Tree, u64, 1> = Hash::from([0x0102]);
    match row[0] {
        6 => challenger.observe(bytes),
        7 => challenger.observe(word),
        8 => challenger.observe(&roots(alloc, [[1u8, 2], [3, 4]])),
        9 => challenger.observe(roots(alloc, [[7u64], [8]])),
        _ => {
            let values = repeated::<F>(alloc, element(row[2]), (row[1] % 64) as usize);
            challenger.observe_slice(values.as_slice())
        }
    }
}

fn sample_uniform_bits<F, C: CanSampleUniformBits<F>>(
    challenger: &mut C,
    bits: usize,
) -> Result<usize, ChallengerError>
    requires { bits < 64 }
{
    challenger.sample_uniform_bits(bits)
}

// What a search returns.
fn searched<F: ByteLevel, Inner: ByteChallenger>(
    challenger: &mut BinaryChallenger<F, Inner>,
    bits: usize,
) -> Said {
    if bits > 0 && (bits > 56 || bits + 8 > F::bits()) {
        return Said::Nothing;
    }
    match challenger.grind(bits) {
        Ok(witness) => Said::Number(number_of(witness)),
        Err(GrindError::NoWitness) => Said::NoWitness,
        Err(GrindError::Memory) => Said::Memory,
        Err(GrindError::Failed) => Said::Failed,
    }
}

// What is said of an error.
fn error_said(error: ChallengerError) -> Said {
    match error {
        ChallengerError::Memory => Said::Memory,
        ChallengerError::Failed => Said::Failed,
    }
}

// What is said where something is observed.
fn observed_said(answer: Result<(), ChallengerError>) -> Said {
    match answer {
        Ok(()) => Said::Number(0),
        Err(error) => error_said(error),
    }
}

fn element_said<F: ByteLevel>(answer: Result<F, ChallengerError>) -> Said {
    match answer {
        Ok(element) => Said::Number(number_of(element)),
        Err(error) => error_said(error),
    }
}

fn bits_said(answer: Result<usize, ChallengerError>) -> Said {
    match answer {
        Ok(bits) => Said::Number(bits as u128),
        Err(error) => error_said(error),
    }
}

fn passed_said(answer: Result<bool, ChallengerError>) -> Said {
    match answer {
        Ok(passed) => Said::Number(u128::from(passed)),
        Err(error) => error_said(error),
    }
}

fn copy_said<F: ByteLevel, Inner: ByteChallenger>(
    copy: Result<BinaryChallenger<F, Inner>, AllocError>,
) -> Said {
    match copy {
        Ok(mut copy) => element_said(copy.sample_element()),
        Err(_) => Said::Memory,
    }
}

impl<F: ByteLevel, Inner: ByteChallenger> Asked for BinaryChallenger<F, Inner> {
    fn answer(&mut self, alloc: Global, row: &Row) -> Said {
        let bits = (row[1] % 64) as usize;
        match row[0] {
            0 => observed_said(self.observe(element::<F>(row[2]))),
            1 => element_said(self.sample_element()),
            2 => bits_said(self.sample_bits(bits)),
            3 => passed_said(self.check_witness(bits, element(row[2]))),
            4 => searched(self, bits),
            5 => bits_said(sample_uniform_bits::<F, _>(self, bits)),
            10 => copy_said(self.try_clone()),
            _ => observed_said(observe_many(alloc, self, row)),
        }
    }
}

/// Whether the calls of the rows return what these say.
pub(crate) fn follows<C: Asked>(alloc: Global, challenger: &mut C, rows: &[Row]) -> bool {
    for place in 0..rows.len() {
        if challenger.answer(alloc, &rows[place]) != Said::Number(rows[place][3]) {
            return false;
        }
    }
    true
}

/// Whether each of the calls says that the challenger has failed.
pub(crate) fn only_fails<C: Asked>(alloc: Global, challenger: &mut C, calls: &[Row]) -> bool {
    for place in 0..calls.len() {
        if challenger.answer(alloc, &calls[place]) != Said::Failed {
            return false;
        }
    }
    true
}
