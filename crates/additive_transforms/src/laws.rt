// Laws of the values of polynomials and of twiddles, as contracts of functions that compute nothing.
ghost use Rattle.additive_transforms.specs.Subfields.{TwiddlesLieInSubfield};
ghost use Rattle.additive_transforms.specs.Values.{ValuesOfImages, ValuesOfListsOfImages};

/// States that the change of basis from a level of the tower to polynomials keeps the values of polynomials: where the
/// coefficients and the point are replaced by their images, the value is the image of the value. So it does for the list of
/// the coefficients' images.
pub fn values_commute_with_images()
    ensures coefficients { ValuesOfImages }
    ensures lists { ValuesOfListsOfImages }
{}

/// States that the twiddles of a transform over the points of numbers below 2^c lie in smaller fields the higher the stage is: those of
/// stage j are below 2^w where the first c - j Cantor vectors are, and in the tower the first w vectors are elements of the level of w bits.
pub fn twiddles_lie_in_subfield()
    ensures { TwiddlesLieInSubfield }
{}
