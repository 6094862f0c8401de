// Openings of Merkle trees that a cheating prover changed, and paths to caps. Words are drawn from the seed 20261126.
ghost use Rattle.transcripts.specs.Grinding.{MayGrind};

use super::challengers::asked::hashed;
use field_base::LevelKernel;
use field_bytes::ShortWord;
use field_element::{Element, HasPacking};
use protocols::caps::verify_to_cap;
use protocols::commitment::{accepts, prove};
use protocols::merkle_tree::MerkleTree;
use std::alloc::{AllocError, Global};
use std::test::Fail;
use test_elements::next_word;
use transcripts::{GrindError, MerkleCap, Sha256Hasher};
use word_tower::{Bits64, Tower};

// What is changed between the prover and the verifier.
#[derive(Clone, Copy, PartialEq)]
enum Change {
    Nothing,
    Index,
    Word,
    LongerPath,
    ShorterPath,
    OtherNode,
    Depth,
    DepthAndPath,
    Work,
    Root,
}

static CHANGES: [Change; 10] = [
    Change::Nothing,
    Change::Index,
    Change::Word,
    Change::LongerPath,
    Change::ShorterPath,
    Change::OtherNode,
    Change::Depth,
    Change::DepthAndPath,
    Change::Work,
    Change::Root,
];

// Eight words.
fn words() -> [u64; 8] {
    let mut state = 20261126;
    let mut words = [0; 8];
    for place in 0..8 {
        words[place] = next_word(&mut state);
    }
    words
}

// Whether an opening of a tree of depth 3, with eight bits of work, is accepted after this change.
fn is_accepted<R: ShortWord, K: LevelKernel<R> + HasPacking<R>>(
    alloc: Global,
    change: Change,
) -> Result<bool, GrindError>
    requires work { MayGrind K.width 8 }
{
    let words = words();
    let tree = MerkleTree::new(alloc, &Sha256Hasher, &words, 3)?;
    let mut prover = hashed::<Element<R, K>, Global>(Vec::new(alloc));
    let mut verifier = hashed::<Element<R, K>, Global>(Vec::new(alloc));
    let mut opening = prove(alloc, &mut prover, &tree, &words, 8)?;
    let mut commitment = tree.commitment();
    let mut bits = 8;
    match change {
        Change::Nothing => (),
        Change::Index => opening.index ^= 1,
        Change::Word => opening.word ^= 1,
        Change::LongerPath => opening.path.push([7; 32])?,
        Change::ShorterPath => {
            opening.path.pop();
        }
        Change::OtherNode => {
            if let Some(node) = opening.path.as_mut_slice().first_mut() {
                node[31] ^= 1;
            }
        }
        Change::Depth => commitment.depth = 4,
        Change::DepthAndPath => {
            commitment.depth = 2;
            opening.path.pop();
        }
        Change::Work => bits = 9,
        Change::Root => commitment.root[0] ^= 1,
    }
    accepts(&Sha256Hasher, &mut verifier, commitment, opening, bits)
}

#[test]
fn only_an_unchanged_opening_is_accepted(rt: HostRuntime) -> Result<(), Fail> {
    for change in CHANGES {
        let accepted = is_accepted::<u64, Tower<Bits64>>(rt.alloc(), change);
        let wanted = change == Change::Nothing;
        assert!(rt;
            accepted.is_ok_and(|is| is == wanted),
            "an opening that was changed, or one that was not"
        );
    }
    Ok(())
}

// Whether each path to each cap of a tree of depth 3 is accepted, and is refused beside it: at another index, for another word, over
// another count of levels, and without its last node.
fn opens_to_every_cap(alloc: Global) -> Result<bool, AllocError> {
    let words = words();
    let tree = MerkleTree::new(alloc, &Sha256Hasher, &words, 3)?;
    let depth = tree.commitment().depth;
    if depth != 3 {
        return Ok(false);
    }
    for levels in 0..4usize {
        let cap: MerkleCap<Sha256Hasher, [u8; 32]> = tree.cap(alloc, depth - levels)?;
        let roots = cap.roots();
        for index in 0..8 {
            let mut path = tree.open_to_cap(alloc, index, levels)?;
            let word = words[index];
            let hasher = Sha256Hasher;
            if roots.len() != 8 >> levels
                || !verify_to_cap(&hasher, roots, levels, index, word, path.as_slice())
                || verify_to_cap(&hasher, roots, levels, index ^ 1, word, path.as_slice())
                || verify_to_cap(&hasher, roots, levels, index + 8, word, path.as_slice())
                || verify_to_cap(&hasher, roots, levels, index, word ^ 1, path.as_slice())
                || verify_to_cap(&hasher, roots, levels + 1, index, word, path.as_slice())
            {
                return Ok(false);
            }
            if path.pop().is_some()
                && verify_to_cap(&hasher, roots, levels, index, word, path.as_slice())
            {
                return Ok(false);
            }
        }
    }
    Ok(true)
}

#[test]
fn paths_to_caps_of_every_height(rt: HostRuntime) {
    assert!(rt; opens_to_every_cap(rt.alloc()) == Ok(true));
}
