// Laws of the fields' definitions, as contracts of functions that compute nothing.
ghost use Rattle.field_base.specs.Basis.{RootsGiveHomomorphism};
ghost use Rattle.field_base.specs.Carryless.{CarrylessCountsPairs, CarrylessIsProduct};
ghost use Rattle.field_base.specs.Field.{FieldsHaveLaws};
ghost use Rattle.field_base.specs.Remainder.{MulModIsRemainder, MulModIsRing, RemIsRemainder, RemainderIsUnique};
ghost use Rattle.field_base.specs.Tower.{TowerIsRing};
ghost use Rattle.field_base.specs.Powers.{SquaringsArePowers};
ghost use Rattle.field_base.specs.TowerField.{LevelsLieInside, NoLevelHasARoot, NonzeroHasInverse, NormsAndConjugates};
ghost use Rattle.field_base.specs.TowerField.{RootInverse, SquaringsReturn, TowerIsField, TracesAreOne};
ghost use Rattle.field_base.specs.Codewords.{CodewordExists, CodewordIsUnique};
ghost use Rattle.field_base.specs.Interpolation.{LagrangeInterpolates};
ghost use Rattle.field_base.specs.PolynomialRoots.{ManyRootsMeanZero};

/// States that the tower's product is that of a commutative ring of characteristic two at every level.
pub fn tower_is_ring()
    ensures { TowerIsRing }
{}

/// States that every level of the tower is a field: every nonzero element has an inverse. The polynomial whose root the
/// next level adjoins has no root in the level, since the root that the level adjoined and its inverse have the trace 1.
#[tactic(auto, using(crate::proofs::LevelFacts::tower_facts))]
pub fn tower_is_field()
    ensures inverses { NonzeroHasInverse }
    ensures no_root { NoLevelHasARoot }
    ensures root_inverses { RootInverse }
    ensures traces { TracesAreOne }
    ensures field { TowerIsField }
{}

/// States what holds in every field of characteristic two whose elements are numbers: no zero divisors, one inverse, which
/// is Fermat's power, and one square root, which is reached by squarings.
pub fn fields_have_laws()
    ensures { FieldsHaveLaws }
{}

/// States that each level of the tower lies inside the levels above it: its elements are elements there, and their sums and
/// products are the same.
pub fn levels_lie_inside()
    ensures { LevelsLieInside }
{}

/// States what the norm and the conjugate over the level below are: the conjugate is half as many squarings as the element has
/// bits, the norm is the product with it, and only 0 has the norm 0.
pub fn norms_and_conjugates()
    ensures { NormsAndConjugates }
{}

/// States that 2^k squarings of an element of level k give the element back.
pub fn frobenius_returns()
    ensures { SquaringsReturn }
{}

/// States that n squarings raise an element of a ring to the power 2^n.
pub fn squarings_are_powers()
    ensures { SquaringsArePowers }
{}

/// States that each bit of a carryless product is the parity of the number of pairs of bits that meet there.
pub fn carryless_counts_pairs()
    ensures { CarrylessCountsPairs }
{}

/// States that the carryless product is that of a commutative ring, in which degrees add.
pub fn carryless_is_product()
    ensures { CarrylessIsProduct }
{}

/// States that the remainder modulo a polynomial is one, and that there is no other.
pub fn remainder_is_unique()
    ensures is_remainder { RemIsRemainder }
    ensures is_unique { RemainderIsUnique }
{}

/// States that the product modulo any polynomial is the remainder of the carryless product, and is the product of a
/// commutative ring of characteristic two.
pub fn mul_mod_is_ring()
    ensures is_remainder { MulModIsRemainder }
    ensures is_ring { MulModIsRing }
{}

/// States that the change of basis keeps 0, 1, sums and products, whatever the modulus is, where the images of the roots
/// meet the equations of the roots.
pub fn roots_give_homomorphism()
    ensures { RootsGiveHomomorphism }
{}

/// States that over every field a polynomial of at most n coefficients that is 0 at n different points is 0.
pub fn many_roots_mean_zero()
    ensures { ManyRootsMeanZero }
{}

/// States that over every field Lagrange's formula gives the one polynomial of k coefficients with given values at k points.
pub fn lagrange_interpolates()
    ensures { LagrangeInterpolates }
{}

/// States that two Reed-Solomon codewords that agree at as many places as there are data symbols agree everywhere.
pub fn codeword_is_unique()
    ensures { CodewordIsUnique }
{}

/// States that any symbols, as many as the data have and at any different places, are those of a Reed-Solomon codeword.
pub fn codeword_exists()
    ensures { CodewordExists }
{}
