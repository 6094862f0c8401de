// Commitments to tables of multilinear polynomials, as a scheme: sizes by the bits of soundness that are asked for, and the places that an
// opening draws, in any transcript. The rate of the code is 1/4.
ghost use Rattle.std.specs.Prelude.{◌≡◌, ◌⊎◌, ◌+◌, ◌*◌, ◌^◌, ◌<◌, ◌≤◌, ℕ, false, length, true};
ghost use Rattle.std.specs.Prelude.{IfErr, IfNone, IfOk, IfSome};
ghost use Rattle.transcripts.specs.{Grinding.{MayGrind}, Openings.{AreAscending}};
ghost use Rattle.sum_checks.specs.declared.error.ProtocolError.TheVariants.{Memory};
ghost use Rattle.protocols.specs.CommitmentScheme.{ArePlacesDrawn, HasBits, HasMostBits, HoldsColumns, StopsOpening};
ghost use Rattle.protocols.specs.CommitmentScheme.{block_places, matrix_rows, place_bits, place_count, row_levels, word_levels};

use crate::tables::{TableColumns, commit_table};
use field_bytes::ShortElement;
use std::alloc::{AllocError, Allocator};
use sum_checks::ProtocolError;
use transcripts::merkle_paths::power_of_two;
use transcripts::queries::{check_queries, draw_queries};
use transcripts::{ByteHasher32, CanObserve, CanSample, CanSampleUniformBits, GrindingChallenger};

/// The logarithm of what a row's code word is longer than the row itself.
pub const EXPANSION: usize = 2;

// The bits of work before places are drawn.
const WORK: usize = 16;

/// The sizes of a commitment to a table of 2^variables elements, and of its openings.
#[derive(Clone, Copy)]
pub struct Parameters {
    /// The number of coordinates of the table's polynomial.
    pub variables: usize,
    /// The logarithm of how many places are opened, where there are so many.
    pub queries: usize,
    /// The logarithm of the number of rows.
    pub rows: usize,
    /// The logarithm of the length of a row.
    pub levels: usize,
    /// The bits by which a block's places are numbered.
    pub bits: usize,
    ghost few: { variables ≤ 39 },
    ghost few_queries: { queries ≤ 8 },
    ghost rows_are: { rows ≡ matrix_rows queries variables },
    ghost few_rows: { rows ≤ 19 },
    ghost levels_are: { levels ≡ row_levels queries variables },
    ghost few_levels: { levels ≤ 24 },
    ghost bits_are: { bits ≡ place_bits queries variables },
}

impl Parameters {
    /// The sizes for tables of 2^variables elements, variables from 0 to 39, of which 2^queries places are opened, queries from 0 to 8, or
    /// all where there are fewer.
    pub fn new(variables: usize, queries: usize) -> Parameters
        requires few { variables ≤ 39 }
        requires few_queries { queries ≤ 8 }
        ensures variables { result.variables ≡ variables }
        ensures queries { result.queries ≡ queries }
    {
        let rows = variables.saturating_sub(queries) / 2;
        let levels = variables - rows;
        let bits = (EXPANSION + levels).saturating_sub(queries);
        Parameters {
            variables,
            queries,
            rows,
            levels,
            bits,
        }
    }

    /// The sizes by which at most one of 2^bits draws of a point and of places accepts a prover that cheats, over a field of 2^128
    /// elements (`laws::few_tables_cheat`, of one table): with 2^7 places opened if these reach the bits, else with 2^8. None if neither does, or if
    /// variables is below 6 or above 39. The 16 bits of work come on top.
    pub fn for_bits(variables: usize, bits: usize) -> Option<Parameters>
        ensures variables { IfSome result (λ found. found.variables ≡ variables) }
        ensures reached { IfSome result (λ found. (6 ≤ variables) × (variables ≤ 39) × HasBits found.queries variables bits
            × ((found.queries ≡ 7) ⊎ ((found.queries ≡ 8) × (HasBits 7 variables bits → ⊥)))) }
        ensures refused { IfNone result (6 ≤ variables → variables ≤ 39 → (HasBits 7 variables bits → ⊥) × (HasBits 8 variables bits → ⊥)) }
    {
        if variables < 6 || variables > 39 {
            return None;
        }
        if bits <= 83 {
            return Some(Parameters::new(variables, 7));
        }
        if bits <= most_bits(variables) {
            return Some(Parameters::new(variables, 8));
        }
        None
    }

    /// How many places are opened.
    pub fn place_count(&self) -> usize
        ensures count { result ≡ place_count self.now.queries self.now.variables }
        ensures few { result ≤ 256 }
    {
        power_of_two(EXPANSION + self.levels - self.bits)
    }

    /// The places that these numbers are, each in its block. It fails if memory was refused.
    fn places<A: Allocator>(&self, alloc: A, numbers: &[usize]) -> Result<Vec<usize, A>, AllocError>
        requires { length numbers.now ≡ place_count self.now.queries self.now.variables }
        ensures { IfOk result (λ places. places.items ≡ block_places (place_bits self.now.queries self.now.variables) numbers.now) }
    {
        let size = power_of_two(self.bits);
        let mut places = Vec::new(alloc);
        'numbers: for index in 0..numbers.len() {
            places.push(index * size + numbers[index] % size)?;
        }
        Ok(places)
    }
}

// The most bits of soundness with 2^8 places opened: 166 by the places alone, where there is one row; else the coordinates that combine
// rows have fewer.
fn most_bits(variables: usize) -> usize
    requires some { 6 ≤ variables }
    requires few { variables ≤ 39 }
    ensures { HasMostBits 8 variables result }
{
    match variables {
        6 | 7 | 8 | 9 => 166,
        10 => 111,
        11 => 110,
        12 => 109,
        13 | 14 => 108,
        15 => 107,
        16 => 106,
        17 | 18 => 105,
        19 | 20 => 104,
        21 | 22 => 103,
        23 => 102,
        24 => 101,
        25 | 26 => 100,
        27 | 28 => 99,
        29 | 30 => 98,
        31 | 32 => 97,
        33 | 34 => 96,
        35 | 36 => 95,
        37 | 38 => 94,
        _ => 93,
    }
}

/// Commits to a table of 2^variables elements of a field of at least 2^26: `tables::commit_table` with these sizes. The root is that of
/// the tree. It fails if memory was refused.
pub fn commit<F: ShortElement, H: ByteHasher32, A: Allocator + Copy>(
    alloc: A,
    hasher: &H,
    parameters: &Parameters,
    table: &[F],
) -> Result<TableColumns<F, A>, AllocError>
    requires count { length table.now ≡ 2 ^ parameters.now.variables }
    requires points { 26 ≤ F.width }
    ensures { IfOk result (λ held. HoldsColumns (H.digest hasher.now) F.repr F.NUM_BYTES F.width F.product (λ i. F.basis (F.cantor i))
        parameters.now.queries parameters.now.variables table.now held.columns.items held.tree) }
{
    let (rows, levels) = (parameters.rows, parameters.levels);
    let held = commit_table(alloc, hasher, table, rows, levels, EXPANSION)?;
    Ok(held)
}

/// What a prover draws behind what it has sent, of whatever tables and points that is: what is sent is observed, a challenge is sampled, a
/// witness of 16 bits of work is searched for, and a place is sampled in each block. It returns the witness, which works, and the places,
/// which ascend. The challenger may grind 16 bits: over a field of 24 bits or more. In a transcript that has not failed it fails only if
/// no witness is found, or if memory was refused.
pub fn grind_places<
    F: Copy,
    C: CanObserve<F> + CanSample<F> + GrindingChallenger<Witness = F> + CanSampleUniformBits<F>,
    A: Allocator + Copy,
>(
    alloc: A,
    challenger: &mut C,
    parameters: &Parameters,
    sent: &[F],
) -> Result<(F, Vec<usize, A>), ProtocolError>
    requires work { MayGrind C.witness_bits 16 }
    ensures drawn { IfOk result (λ drawn. ArePlacesDrawn C.observes C.gives C.passing C.checks C.gives_bits parameters.now.queries
        parameters.now.variables sent.now (C.number drawn.0) challenger.old true drawn.1.items challenger.new) }
    ensures ascending { IfOk result (λ drawn. AreAscending (2 ^ word_levels parameters.now.queries parameters.now.variables)
        drawn.1.items) }
    ensures error { C.has_failed challenger.old ≡ false → IfErr result (StopsOpening C.passing C.witness_bits) }
{
    challenger.observe_slice(sent)?;
    let _challenge = challenger.sample()?;
    let count = parameters.place_count();
    let (witness, numbers) = draw_queries(alloc, challenger, WORK, parameters.bits, count)?;
    let places = parameters.places(alloc, numbers.as_slice())?;
    Ok((witness, places))
}

/// What a verifier draws behind what it was sent, as `grind_places` does: what is sent is observed, a challenge is sampled, the witness is
/// checked, and a place is sampled in each block. It returns whether the witness works, and the places. A challenge is sampled in between,
/// so that a witness is tried on its digest and not on what is sent. In a transcript that has not failed it fails only if memory was
/// refused.
pub fn draw_places<
    F: Copy,
    C: CanObserve<F> + CanSample<F> + GrindingChallenger<Witness = F> + CanSampleUniformBits<F>,
    A: Allocator + Copy,
>(
    alloc: A,
    challenger: &mut C,
    parameters: &Parameters,
    sent: &[F],
    witness: F,
) -> Result<(bool, Vec<usize, A>), ProtocolError>
    ensures drawn { IfOk result (λ drawn. ArePlacesDrawn C.observes C.gives C.passing C.checks C.gives_bits parameters.now.queries
        parameters.now.variables sent.now (C.number witness) challenger.old drawn.0 drawn.1.items challenger.new) }
    ensures memory { C.has_failed challenger.old ≡ false → IfErr result (λ error. error ≡ Memory) }
{
    challenger.observe_slice(sent)?;
    let _challenge = challenger.sample()?;
    let count = parameters.place_count();
    let (works, numbers) = check_queries(alloc, challenger, witness, WORK, parameters.bits, count)?;
    let places = parameters.places(alloc, numbers.as_slice())?;
    Ok((works, places))
}
