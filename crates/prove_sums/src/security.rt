// How sure an accepted proof is: the soundness error of the interactive protocol, in bits.
ghost use Rattle.std.specs.Prelude.{◌≤◌};
ghost use Rattle.prove_sums.specs.Bits.{AreMostBits};
ghost use Rattle.prove_sums.specs.SoundnessErrors.{AreSoundBits};

use crate::laws::errors_are_small;

/// The bits of soundness of a proof for two tables of 2^rounds words, rounds from 0 to 39, of which 2^queries places are opened, queries 7
/// or 8, or all where there are fewer: the largest b by which at most one of 2^b runs accepts a sum that is false, of all that a verifier
/// may draw, by the bound of `errors_are_small`. The work comes on top.
pub(crate) fn soundness_bits(queries: usize, rounds: usize) -> usize
    requires some_queries { 7 ≤ queries }
    requires few_queries { queries ≤ 8 }
    requires few { rounds ≤ 39 }
    ensures bits { AreMostBits queries rounds result }
    ensures sound { AreSoundBits queries rounds result }
{
    errors_are_small();
    most_bits(queries, rounds)
}

/// Those bits, in numbers alone.
pub(crate) fn most_bits(queries: usize, rounds: usize) -> usize
    requires some_queries { 7 ≤ queries }
    requires few_queries { queries ≤ 8 }
    requires few { rounds ≤ 39 }
    ensures { AreMostBits queries rounds result }
{
    if queries == 7 {
        bits_of_128(rounds)
    } else {
        bits_of_256(rounds)
    }
}

// Those with 2^7 places. Up to 2^5 words all columns are opened, and 2 n + 1 of 2^128 challenges are lucky. From there on
// (163 / 256)^128 < 2^-83 of all lists of places are, beside which challenges do not count.
fn bits_of_128(rounds: usize) -> usize
    requires { rounds ≤ 39 }
    ensures { AreMostBits 7 rounds result }
{
    match rounds {
        0 => 128,
        1 => 126,
        2 | 3 => 125,
        4 | 5 => 124,
        _ => 83,
    }
}

// Those with 2^8 places. Up to 2^6 words all columns are opened, and 2 n + 1 of 2^128 challenges are lucky. From there on 34 for each place
// are, of the challenge that combines the tables and of each coordinate that combines rows, beside which the lists of places, of which
// (163 / 256)^256 < 2^-166 are lucky, do not count.
fn bits_of_256(rounds: usize) -> usize
    requires { rounds ≤ 39 }
    ensures { AreMostBits 8 rounds result }
{
    match rounds {
        0 => 128,
        1 => 126,
        2 | 3 => 125,
        4 | 5 | 6 => 124,
        7 => 113,
        8 => 112,
        9 => 111,
        10 => 110,
        11 | 12 => 109,
        13 => 108,
        14 => 107,
        15 | 16 => 106,
        17 | 18 => 105,
        19 | 20 => 104,
        21 => 103,
        22 => 102,
        23 | 24 => 101,
        25 | 26 => 100,
        27 | 28 => 99,
        29 | 30 => 98,
        31 | 32 => 97,
        33 | 34 => 96,
        35 | 36 => 95,
        37 => 94,
        38 => 93,
        _ => 92,
    }
}
