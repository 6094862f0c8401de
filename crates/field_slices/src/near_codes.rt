// Words near linear codes, and openings of matrices that a prover has chosen, as contracts of functions that compute nothing.
ghost use Rattle.field_slices.specs.Blocks.{FewBlocksMiss, FewCheatsInBlocks};
ghost use Rattle.field_slices.specs.Codes.{LinesAreNear, TriplesAreNear};
ghost use Rattle.field_slices.specs.Folds.{FarMatricesNeedLuck, FewFoldsAreNear};
ghost use Rattle.field_slices.specs.Openings.{FewCheatsAreAccepted, FewPointsFoldNear, NearIsUnique, OpeningsNeedLuck, OtherRowsMiss};

/// States the line lemma, for every linear code and e below a third of its distance: where u + x v is near the code for more than e + 1
/// different x, u and v are near it together, but for at most e places, the same for both.
pub fn lines_are_near()
    ensures { LinesAreNear }
{}

/// States the line lemma for larger e, by triples of points: where e / n is below about 1 - (c / n)^(1/3), c + d = n, s n - 1 points are
/// few. The larger s is, the nearer e comes to that bound.
pub fn triples_are_near()
    ensures { TriplesAreNear }
{}

/// States that of the folds of a matrix that is not near a code, at most as many are near it as its lines may have near points.
pub fn few_folds_are_near()
    ensures { FewFoldsAreNear }
{}

/// States that a matrix that a point folds to a word near the code is near it itself, or that a coordinate of the point is lucky. Of one
/// coordinate few values are (`few_folds_are_near`).
pub fn far_matrices_need_luck()
    ensures { FarMatricesNeedLuck }
{}

/// States the same of whole points: of a matrix that is not near the code, at most h times as many of F points fold it to a near word as its
/// lines may have near points, h the coordinates and F the elements of the field.
pub fn few_points_fold_near()
    ensures { FewPointsFoldNear }
{}

/// States that a matrix is near at most one matrix of code words, within half the distance of the code.
pub fn near_is_unique()
    ensures { NearIsUnique }
{}

/// States soundness of an opening at a point that is drawn, for every matrix that a prover has chosen before.
pub fn openings_need_luck()
    ensures { OpeningsNeedLuck }
{}

/// States soundness of an opening at any point, of a matrix that is near the code.
pub fn other_rows_miss()
    ensures { OtherRowsMiss }
{}

/// States for how many points and lists of places a prover that cheats is accepted, at most.
pub fn few_cheats_are_accepted()
    ensures { FewCheatsAreAccepted }
{}

/// States that places that are drawn one in each block miss marked places no more often than as many that are drawn one by one.
pub fn few_blocks_miss()
    ensures { FewBlocksMiss }
{}

/// States for how many points and lists of numbers, one in each block, a prover that cheats is accepted, at most.
pub fn few_cheats_in_blocks()
    ensures { FewCheatsInBlocks }
{}
