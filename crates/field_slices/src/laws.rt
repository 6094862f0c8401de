// Laws of values of multilinear polynomials, as contracts of functions that compute nothing.
ghost use Rattle.field_slices.specs.Multilinear.{ExtendsCornerValues, FirstCoordinateIsLinear, FoldingEvaluates};

/// States that what folding by every coordinate leaves is the value of the polynomial at the point.
pub fn folding_evaluates()
    ensures { FoldingEvaluates }
{}

/// States that the value is linear in the first coordinate, and that folding by it keeps the value at the others.
pub fn first_coordinate_is_linear()
    ensures { FirstCoordinateIsLinear }
{}

/// States that the polynomial has the values that it is given by at the corners.
pub fn corner_values_extend()
    ensures { ExtendsCornerValues }
{}
