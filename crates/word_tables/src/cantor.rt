// The Cantor vectors, a basis of each level of the tower in which x² + x takes each vector to the one before.
ghost use Rattle.std.specs.Prelude.{◌≡◌, ◌<◌};
ghost use Rattle.word_tables.specs.Cantor.{cantor_vector, AreEven, FirstIsOne, LieInLevels, OneOfEachParity, SolveTheOneBefore};

mod literals;

/// Cantor vector `i`: 1 for `i` = 0, and otherwise the even v with v² + v = vector `i` - 1. The first 2^k are elements of level k
/// of the tower.
#[inline]
pub fn cantor_vector(i: usize) -> u128
    requires { i < 128 }
    ensures { result ≡ cantor_vector i }
{
    literals::VECTORS[i]
}

/// States the rule of the Cantor vectors: the first is 1, the first 2^k are elements of level k, and each later vector is the
/// only even v with v² + v = the vector before.
pub fn cantor_vectors_are_solutions()
    ensures first { FirstIsOne }
    ensures levels { LieInLevels }
    ensures solutions { SolveTheOneBefore }
    ensures even { AreEven }
    ensures unique { OneOfEachParity }
{}
