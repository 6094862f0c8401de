// Calls that prove and then verify: openings of trees of 1 to 8 words with eight bits of work, and sums of the products of two tables of 1 to
// 8 elements. They are refused in turn, and accepted where there is memory. What acceptance says the contracts do.
ghost use Rattle.transcripts.specs.Grinding.{MayGrind};

use super::challengers::asked::Hashed;
use field_base::LevelKernel;
use field_base::traits::TowerLevel;
use field_bytes::ShortWord;
use field_element::{BinaryField16, Element, HasPacking};
use field_space::BasedVectorSpace;
use linked_list_allocator::LocalHeap;
use protocols::merkle_tree::MerkleTree;
use protocols::terms::{Term, are_within};
use protocols::{ProtocolError, commitment, sumcheck};
use std::alloc::{AllocError, Allocator};
use test_elements::{Ending, Growing, Rest, is_refused_in_turn};
use transcript_elements::{BinaryChallenger, ByteLevel};
use transcripts::{GrindError, Sha256Hasher};
use word_tower::{Bits64, Tower};

// Whether an opening of the tree over these 2^depth words is accepted.
fn is_opened<R: ShortWord, K: LevelKernel<R> + HasPacking<R>, A: Allocator + Copy>(
    alloc: A,
    words: &[u64],
    depth: usize,
) -> Result<bool, GrindError>
    requires work { MayGrind K.width 8 }
{
    if depth > 3 || words.len() != 1 << depth {
        return Ok(false);
    }
    let tree = MerkleTree::new(alloc, &Sha256Hasher, words, depth)?;
    let mut prover: Hashed<Element<R, K>, A> = BinaryChallenger::from_hasher(
        Vec::new(alloc),
        Sha256Hasher,
    );
    let mut verifier: Hashed<Element<R, K>, A> = BinaryChallenger::from_hasher(
        Vec::new(alloc),
        Sha256Hasher,
    );
    commitment::prove_and_verify(
        alloc,
        &Sha256Hasher,
        &mut prover,
        &mut verifier,
        &tree,
        words,
        8,
    )
}

// The first `count` of eight words, which are 2^depth.
#[derive(Drop)]
struct Opening {
    depth: usize,
    count: usize,
}

impl Growing for Opening {
    fn run<'a>(&self, heap: &'a LocalHeap, rest: Rest<'a>) -> Result<Ending, AllocError> {
        let words = [3, 1, 4, 1, 5, 9, 2, 6];
        if self.count > 8 {
            return Ok(Ending::Wrong);
        }
        let words = &words[..self.count];
        let opened = is_opened::<u64, Tower<Bits64>, &LocalHeap>(heap, words, self.depth);
        drop(rest);
        Ok(match opened {
            Ok(opened) => Ending::of(true, opened),
            Err(GrindError::Memory) => Ending::Refused,
            Err(_) => Ending::Wrong,
        })
    }
}

#[test]
fn honest_openings_are_accepted(rt: HostRuntime) {
    for depth in 0..4usize {
        let opening = Opening {
            depth,
            count: 1 << depth,
        };
        assert!(rt; is_refused_in_turn(rt.alloc(), &opening, true));
    }
}

// Whether the proof of the sum of these terms of two tables of 2^rounds elements is accepted. The values are rows of two.
fn is_proved<F: ByteLevel + BasedVectorSpace<F>, A: Allocator + Copy>(
    alloc: A,
    values: &mut [F],
    rounds: usize,
    terms: &[Term<F>],
) -> Result<bool, ProtocolError> {
    if rounds > 3 || values.len() != 2 * (1 << rounds) || !are_within(terms, 2) {
        return Ok(false);
    }
    let mut prover: Hashed<F, A> = BinaryChallenger::from_hasher(Vec::new(alloc), Sha256Hasher);
    let mut verifier: Hashed<F, A> = BinaryChallenger::from_hasher(Vec::new(alloc), Sha256Hasher);
    sumcheck::prove_and_verify(alloc, &mut prover, &mut verifier, values, rounds, 2, terms)
}

// The first `count` of sixteen elements, which are 2 2^rounds.
#[derive(Drop)]
struct Sum {
    rounds: usize,
    count: usize,
}

impl Growing for Sum {
    fn run<'a>(&self, heap: &'a LocalHeap, rest: Rest<'a>) -> Result<Ending, AllocError> {
        let mut values = [BinaryField16::from_repr(1); 16];
        for place in 0..16usize {
            values[place] = BinaryField16::from_repr(7 * place as u16 + 1);
        }
        let Some(product) = Term::new(BinaryField16::from_repr(1), &[0, 1]) else {
            return Ok(Ending::Wrong);
        };
        if self.count > 16 {
            return Ok(Ending::Wrong);
        }
        let proved = is_proved(heap, &mut values[..self.count], self.rounds, &[product]);
        drop(rest);
        Ok(match proved {
            Ok(proved) => Ending::of(true, proved),
            Err(ProtocolError::Memory) => Ending::Refused,
            Err(_) => Ending::Wrong,
        })
    }
}

#[test]
fn honest_sums_are_accepted(rt: HostRuntime) {
    for rounds in 0..4usize {
        let sum = Sum {
            rounds,
            count: 2 << rounds,
        };
        assert!(rt; is_refused_in_turn(rt.alloc(), &sum, true));
    }
}
