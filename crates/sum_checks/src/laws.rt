// Completeness and soundness of the sum-check protocol, as contracts of functions that compute nothing.
ghost use Rattle.sum_checks.specs.SumcheckClaims.{FalseClaimsNeedLuck, FewChallengesSave, HonestReduces};
ghost use Rattle.sum_checks.specs.ZeroCheck.{FalseZerosNeedLuck, LinesHaveOneRoot, ZeroCheckEvaluates, ZeroNeedsRoot, ZerosReduce};

/// States completeness: the messages of an honest prover lead from a true claim to a true one, whatever the challenges are.
pub fn honest_reduces()
    ensures { HonestReduces }
{}

/// States soundness, for every prover, without probability: messages lead from a false claim to a true one only where, in some round, the
/// polynomial that is sent is not the honest one and both have the same value at the challenge.
pub fn false_claims_need_luck()
    ensures { FalseClaimsNeedLuck }
{}

/// States that few challenges save a false claim: of each round at most d, where no term has more than d factors.
pub fn few_challenges_save()
    ensures { FewChallengesSave }
{}

/// States that a multilinear polynomial that is not 0 has the value 0 at a point only where some coordinate is the root of a line that is
/// not 0: the line through its values at two corners, where the coordinates before are set.
pub fn zero_needs_root()
    ensures { ZeroNeedsRoot }
{}

/// States that a line that is not 0 has one root at most.
pub fn lines_have_one_root()
    ensures { LinesHaveOneRoot }
{}

/// States what a zero-check shows: of tables e, a, b and c, where e is eq(point, corner), the sum of e a b + e c is the value at the
/// point of the polynomial that is a b + c at each corner. So where a b and c differ at a corner, the sum is 0 only at a point of which
/// some coordinate is such a root.
pub fn zero_check_evaluates()
    ensures { ZeroCheckEvaluates }
{}

/// States completeness of a zero-check: where a b = c at every corner, the messages of an honest prover lead from the sum 0 to
/// eq(point, challenges) (a b + c) at the challenges, whatever the point and the challenges are.
pub fn zeros_reduce()
    ensures { ZerosReduce }
{}

/// States soundness of a zero-check, for every prover, without probability: where a b and c differ at a corner, messages lead from the sum
/// 0 to eq(point, challenges) (a b + c) at the challenges only where a coordinate of the point is the root of a line that is not 0, or a
/// challenge saves the claim that the sum is 0. A line has one root at most, and at most three challenges of a round save the claim.
pub fn false_zeros_need_luck()
    ensures { FalseZerosNeedLuck }
{}
