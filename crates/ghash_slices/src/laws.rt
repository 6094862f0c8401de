// The laws of the stages of an additive transform, and of the values of polynomials at the points that the Cantor vectors span, over
// any field, and of products by one scalar, as contracts of functions that compute nothing.
ghost use Rattle.ghash_slices.specs.Cantor.{ArePointsDistinct, CantorVectorsStepDown, FactorsAreSubspaceValues, PointsAreDistinct};
ghost use Rattle.ghash_slices.specs.Cantor.{SumsAreValues};
ghost use Rattle.ghash_slices.specs.LowStages.{ghash_cantor_vector};
ghost use Rattle.ghash_slices.specs.SplitWords.{CompanionLaw};
ghost use Rattle.ghash_slices.specs.Stages.{StagesGiveSums};

/// States what any number of stages leaves at each place: the sum of the values of its block, each times the product of the
/// place's factors at the set bits of the value's number in the block.
pub fn stages_give_sums()
    ensures { StagesGiveSums }
{}

/// States that s_j, which is x for j = 0 and s² + s of the one before else, keeps sums, and takes Cantor vector b to vector
/// b - j, and to 0 where b is below j.
pub fn cantor_vectors_step_down()
    ensures { CantorVectorsStepDown }
{}

/// States that the points of a transform are distinct: a shift z plus the Cantor vectors at the set bits of p is z plus those at
/// the set bits of q only where p is q, for p and q with no more bits than there are vectors. So it is over any field with
/// Cantor vectors, and over the field of GHASH with its 128 vectors; no sum of some of the vectors is 0.
pub fn points_are_distinct()
    ensures any { PointsAreDistinct }
    ensures ghash { ArePointsDistinct 128 ghash_cantor_vector }
{}

/// States that with the shifts s_j(z), and the Cantor vectors from the second on as the basis, the factor of stage j at a
/// place is s_j at the place's point, and the sum that the stages leave there is the value of the polynomial at that point.
pub fn sums_are_values()
    ensures factors { FactorsAreSubspaceValues }
    ensures sums { SumsAreValues }
{}

/// States the law of a scalar's companion, the scalar times x^64: the product of a scalar and the double word of l and h is the product
/// of the scalar and l, and that of the companion and h.
pub fn companion_law()
    ensures { CompanionLaw }
{}
