// Laws of matrices, as contracts of functions that compute nothing.
ghost use Rattle.field_slices.specs.Determinants.{DeterminantTellsInverses, DeterminantsMultiply};
ghost use Rattle.field_slices.specs.Matrices.{NullSpaceIsKept, ReducedEchelonIsUnique};

/// States that two matrices in reduced row echelon form whose rows span the same space are equal.
pub fn reduced_echelon_is_unique()
    ensures { ReducedEchelonIsUnique }
{}

/// States that matrices whose rows span the same space take the same vectors to 0, so that row operations keep the null space.
pub fn null_space_is_kept()
    ensures { NullSpaceIsKept }
{}

/// States that the determinant of a product of two square matrices is the product of their determinants.
pub fn determinants_multiply()
    ensures { DeterminantsMultiply }
{}

/// States that a square matrix has an inverse where its determinant is not 0, and that where it is 0 no matrix is an inverse from the left.
pub fn determinant_tells_inverses()
    ensures { DeterminantTellsInverses }
{}
