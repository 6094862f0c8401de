// The sizes of a proof for two tables of 2^rounds elements, by the bits of soundness that are asked for, and its parts.
ghost use Rattle.std.specs.Prelude.{◌≡◌, ◌+◌, ◌*◌, ◌^◌, ◌≤◌, length, IfNone, IfSome};
ghost use Rattle.protocols.specs.CommitmentScheme.{matrix_rows, place_count, row_levels};
ghost use Rattle.prove_sums.specs.Bits.{AreFor, NoneIsFor};
ghost use Rattle.prove_sums.specs.Shapes.{columns_size, element_count, part, row_size};

use crate::security::most_bits;
use protocols::commitment_scheme::Parameters;
use protocols::merkle_paths::power_of_two;

/// The sizes of a proof for two tables of 2^rounds elements.
#[derive(Clone, Copy)]
pub struct Shape {
    /// The number of coordinates of a table's polynomial.
    pub rounds: usize,
    /// The logarithm of how many places are opened, where there are so many: 7 or 8.
    pub queries: usize,
    /// The logarithm of the number of rows.
    pub rows: usize,
    /// The logarithm of the length of a row.
    pub levels: usize,
    ghost few: { rounds ≤ 39 },
    ghost some_queries: { 7 ≤ queries },
    ghost few_queries: { queries ≤ 8 },
    ghost rows_are: { rows ≡ matrix_rows queries rounds },
    ghost few_rows: { rows ≤ 16 },
    ghost levels_are: { levels ≡ row_levels queries rounds },
    ghost few_levels: { levels ≤ 24 },
}

impl Shape {
    /// The sizes for tables of 2^rounds elements, rounds from 0 to 39, of which 2^queries places are opened, queries 7 or 8, or all where
    /// there are fewer.
    pub fn new(rounds: usize, queries: usize) -> Shape
        requires few { rounds ≤ 39 }
        requires some_queries { 7 ≤ queries }
        requires few_queries { queries ≤ 8 }
        ensures rounds { result.rounds ≡ rounds }
        ensures queries { result.queries ≡ queries }
    {
        let sizes = Parameters::new(rounds, queries);
        Shape {
            rounds,
            queries,
            rows: sizes.rows,
            levels: sizes.levels,
        }
    }

    /// The sizes for tables of 2^rounds elements, rounds from 0 to 39, by which at most one of 2^bits runs accepts a sum that is false,
    /// bits up to 128: with 2^7 places opened if these reach the bits, else with 2^8. None if neither does. The work comes on top.
    pub fn for_bits(rounds: usize, bits: usize) -> Option<Shape>
        requires few { rounds ≤ 39 }
        requires few_bits { bits ≤ 128 }
        ensures rounds { IfSome result (λ found. found.rounds ≡ rounds) }
        ensures reached { IfSome result (λ found. AreFor bits found.queries rounds) }
        ensures refused { IfNone result (NoneIsFor bits rounds) }
    {
        if bits <= most_bits(7, rounds) {
            return Some(Shape::new(rounds, 7));
        }
        if bits <= most_bits(8, rounds) {
            return Some(Shape::new(rounds, 8));
        }
        None
    }

    /// The sizes of the commitment to each table.
    pub fn sizes(&self) -> Parameters
        ensures variables { result.variables ≡ self.now.rounds }
        ensures queries { result.queries ≡ self.now.queries }
    {
        Parameters::new(self.rounds, self.queries)
    }

    /// How many places are opened.
    pub fn block_count(&self) -> usize
        ensures count { result ≡ place_count self.now.queries self.now.rounds }
        ensures few { result ≤ 256 }
    {
        self.sizes().place_count()
    }

    /// How many elements a row has.
    pub fn row_size(&self) -> usize
        ensures size { result ≡ row_size self.now.queries self.now.rounds }
        ensures few { result ≤ 2 ^ 24 }
    {
        power_of_two(self.levels)
    }

    /// How many elements a column has.
    pub fn height(&self) -> usize
        ensures size { result ≡ 2 ^ matrix_rows self.now.queries self.now.rounds }
        ensures few { result ≤ 2 ^ 16 }
    {
        power_of_two(self.rows)
    }

    /// How many elements the columns that are opened have.
    pub fn columns_size(&self) -> usize
        ensures size { result ≡ columns_size self.now.queries self.now.rounds }
        ensures few { result ≤ 2 ^ 24 }
    {
        self.block_count() * self.height()
    }

    /// How many elements a proof has.
    pub fn element_count(&self) -> usize
        ensures count { result ≡ element_count self.now.queries self.now.rounds }
        ensures few { result ≤ 2 ^ 27 }
    {
        2 * self.rounds + 4 + self.row_size() + 2 * self.columns_size()
    }
}

/// So many values, from a place on.
pub(crate) fn part<T>(values: &[T], from: usize, size: usize) -> &[T]
    requires { from + size ≤ length values.now }
    ensures values { result.now ≡ part from size values.now }
    ensures count { length result.now ≡ size }
{
    &values[from..][..size]
}
