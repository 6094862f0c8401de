// Calls over slices of elements of a field that the caller chooses.
// Written by scripts/make_c_exports.py; do not edit.
ghost use Rattle.c_calls.specs.ChosenElements.{FindsIrreducible, FindsPrimitive, TakesMinimalPolynomialOver, TakesNormsOver};
ghost use Rattle.c_calls.specs.ChosenElements.{TakesOrders, TakesTracesOver};
ghost use Rattle.c_calls.specs.ChosenFields.{EmbedsOver, FindsARootOver, OverField, PreparesField, TakesLogarithms, TakesPrimitive};
ghost use Rattle.c_calls.specs.ChosenFields.{TakesQuotients, TakesTraces, chosen_field};
ghost use Rattle.c_calls.specs.Calls.{Adds, Evaluates, Inverts, Multiplies, MultipliesBy, RaisesTo, Squares, TakesDotProduct};
ghost use Rattle.c_calls.specs.Calls.{TakesRoots};
ghost use Rattle.c_calls.specs.Fields.{wide_number};

use c_calls::{ChosenField, Wide};

/// The field of the polynomials modulo x^degree + tail, for the other functions bf_field_*.
#[unsafe(no_mangle)]
pub extern "C" fn bf_field_init(field: &mut ChosenField, degree: u64, tail: &Wide) -> u32
    ensures { PreparesField degree (wide_number tail.now) field.old field.new result }
{
    c_calls::fields::init(field, degree, *tail)
}

/// The sum of the elements at each place.
#[unsafe(no_mangle)]
pub extern "C" fn bf_field_add(
    field: &ChosenField,
    left: &[Wide],
    right: &[Wide],
    sums: &mut [Wide],
) -> u32
    ensures { OverField field.now (Adds (chosen_field field.now) left.now right.now sums.old sums.new result) sums.old sums.new result }
{
    c_calls::fields::add(*field, left, right, sums)
}

/// The product of the elements at each place.
#[unsafe(no_mangle)]
pub extern "C" fn bf_field_multiply(
    field: &ChosenField,
    left: &[Wide],
    right: &[Wide],
    products: &mut [Wide],
) -> u32
    ensures { OverField field.now (Multiplies (chosen_field field.now) left.now right.now
        products.old products.new result) products.old products.new result }
{
    c_calls::fields::multiply(*field, left, right, products)
}

/// The product of each element and the scalar.
#[unsafe(no_mangle)]
pub extern "C" fn bf_field_multiply_by(
    field: &ChosenField,
    values: &[Wide],
    scalar: &Wide,
    products: &mut [Wide],
) -> u32
    ensures { OverField field.now (MultipliesBy (chosen_field field.now) scalar.now values.now
        products.old products.new result) products.old products.new result }
{
    c_calls::fields::multiply_by(*field, values, *scalar, products)
}

/// The square of each element.
#[unsafe(no_mangle)]
pub extern "C" fn bf_field_square(field: &ChosenField, values: &[Wide], squares: &mut [Wide]) -> u32
    ensures { OverField field.now (Squares (chosen_field field.now) values.now squares.old
        squares.new result) squares.old squares.new result }
{
    c_calls::fields::square(*field, values, squares)
}

/// The inverse of each element, and 0 for 0.
#[unsafe(no_mangle)]
pub extern "C" fn bf_field_inverse(
    field: &ChosenField,
    values: &[Wide],
    inverses: &mut [Wide],
) -> u32
    ensures { OverField field.now (Inverts (chosen_field field.now) values.now inverses.old
        inverses.new result) inverses.old inverses.new result }
{
    c_calls::fields::inverse(*field, values, inverses)
}

/// The square root of each element.
#[unsafe(no_mangle)]
pub extern "C" fn bf_field_square_root(
    field: &ChosenField,
    values: &[Wide],
    roots: &mut [Wide],
) -> u32
    ensures { OverField field.now (TakesRoots (chosen_field field.now) values.now roots.old roots.new result) roots.old roots.new result }
{
    c_calls::fields::square_root(*field, values, roots)
}

/// Each element to the power of the exponent; to the power 0 it is 1.
#[unsafe(no_mangle)]
pub extern "C" fn bf_field_power(
    field: &ChosenField,
    values: &[Wide],
    exponent: u64,
    powers: &mut [Wide],
) -> u32
    ensures { OverField field.now (RaisesTo (chosen_field field.now) exponent values.now powers.old
        powers.new result) powers.old powers.new result }
{
    c_calls::fields::power(*field, values, exponent, powers)
}

/// The trace of each element over GF(2), which is 0 or 1.
#[unsafe(no_mangle)]
pub extern "C" fn bf_field_trace(field: &ChosenField, values: &[Wide], traces: &mut [Wide]) -> u32
    ensures { OverField field.now (TakesTraces (chosen_field field.now) values.now traces.old
        traces.new result) traces.old traces.new result }
{
    c_calls::fields::trace(*field, values, traces)
}

/// The quotient of the elements at each place, and 0 where that of right is 0.
#[unsafe(no_mangle)]
pub extern "C" fn bf_field_divide(
    field: &ChosenField,
    left: &[Wide],
    right: &[Wide],
    quotients: &mut [Wide],
) -> u32
    ensures { OverField field.now (TakesQuotients (chosen_field field.now) left.now right.now
        quotients.old quotients.new result) quotients.old quotients.new result }
{
    c_calls::fields::divide(*field, left, right, quotients)
}

/// The sum of the products of the elements at each place, which is 0 of none.
#[unsafe(no_mangle)]
pub extern "C" fn bf_field_dot_product(
    field: &ChosenField,
    left: &[Wide],
    right: &[Wide],
    sum: &mut Wide,
) -> u32
    ensures { OverField field.now (TakesDotProduct (chosen_field field.now) left.now right.now
        sum.old sum.new result) sum.old sum.new result }
{
    c_calls::fields::dot_product(*field, left, right, sum)
}

/// The value at each point of the polynomial with these coefficients, the constant one first; of none it is 0.
#[unsafe(no_mangle)]
pub extern "C" fn bf_field_evaluate(
    field: &ChosenField,
    coefficients: &[Wide],
    points: &[Wide],
    values: &mut [Wide],
) -> u32
    ensures { OverField field.now (Evaluates (chosen_field field.now) coefficients.now points.now
        values.old values.new result) values.old values.new result }
{
    c_calls::fields::evaluate(*field, coefficients, points, values)
}

/// The least primitive element, whose powers are all elements but 0.
#[unsafe(no_mangle)]
pub extern "C" fn bf_field_primitive_element(field: &ChosenField, element: &mut Wide) -> u32
    ensures { OverField field.now (TakesPrimitive (chosen_field field.now) element.old element.new result) element.old element.new result }
{
    c_calls::fields::primitive_element(*field, element)
}

/// The logarithm of each element to the base: the least exponent to which the power of the base is the element, found in as many steps as
/// the greatest prime factor of the order of the base is.
#[unsafe(no_mangle)]
pub extern "C" fn bf_field_logarithm(
    field: &ChosenField,
    values: &[Wide],
    base: &Wide,
    logarithms: &mut [Wide],
) -> u32
    ensures { OverField field.now (TakesLogarithms (chosen_field field.now) base.now values.now
        logarithms.old logarithms.new result) logarithms.old logarithms.new result }
{
    c_calls::fields::logarithm(*field, values, *base, logarithms)
}

/// The order of each element, the least exponent above 0 to which its power is 1, and 0 for 0, which has none.
#[unsafe(no_mangle)]
pub extern "C" fn bf_field_order(field: &ChosenField, values: &[Wide], orders: &mut [Wide]) -> u32
    ensures { OverField field.now (TakesOrders (chosen_field field.now) values.now orders.old
        orders.new result) orders.old orders.new result }
{
    c_calls::field_elements::order(*field, values, orders)
}

/// The trace of each element over the subfield of 2^subfield_degree elements: the sum of its conjugates, an element of the subfield as it
/// lies in the field.
#[unsafe(no_mangle)]
pub extern "C" fn bf_field_trace_to(
    field: &ChosenField,
    values: &[Wide],
    subfield_degree: u64,
    traces: &mut [Wide],
) -> u32
    ensures { OverField field.now (TakesTracesOver (chosen_field field.now) subfield_degree
        values.now traces.old traces.new result) traces.old traces.new result }
{
    c_calls::field_elements::trace_to(*field, values, subfield_degree, traces)
}

/// The norm of each element over the subfield of 2^subfield_degree elements: the product of its conjugates, an element of the subfield as
/// it lies in the field.
#[unsafe(no_mangle)]
pub extern "C" fn bf_field_norm_to(
    field: &ChosenField,
    values: &[Wide],
    subfield_degree: u64,
    norms: &mut [Wide],
) -> u32
    ensures { OverField field.now (TakesNormsOver (chosen_field field.now) subfield_degree
        values.now norms.old norms.new result) norms.old norms.new result }
{
    c_calls::field_elements::norm_to(*field, values, subfield_degree, norms)
}

/// The minimal polynomial of the element over GF(2), which is x^degree + tail: the irreducible polynomial of which the element is a root.
#[unsafe(no_mangle)]
pub extern "C" fn bf_field_minimal_polynomial(
    field: &ChosenField,
    element: &Wide,
    degree: &mut usize,
    tail: &mut Wide,
) -> u32
    ensures { TakesMinimalPolynomialOver field.now element.now degree.old tail.old degree.new tail.new result }
{
    c_calls::field_elements::minimal_polynomial(*field, *element, degree, tail)
}

/// The least tail from tail on, as a number, with which x^degree + next is irreducible, for field_init; from tail + 1 on it is the next
/// after one.
#[unsafe(no_mangle)]
pub extern "C" fn bf_field_next_irreducible(degree: u64, tail: &Wide, next: &mut Wide) -> u32
    ensures { FindsIrreducible degree (wide_number tail.now) next.old next.new result }
{
    c_calls::moduli::irreducible(degree, *tail, next)
}

/// The least tail from tail on, as a number, with which x^degree + next is primitive: it is irreducible, and x has the order 2^degree - 1
/// modulo it.
#[unsafe(no_mangle)]
pub extern "C" fn bf_field_next_primitive(degree: u64, tail: &Wide, next: &mut Wide) -> u32
    ensures { FindsPrimitive degree (wide_number tail.now) next.old next.new result }
{
    c_calls::moduli::primitive(degree, *tail, next)
}

/// An element of target that is a root of the modulus of source, by which field_embed takes elements of source to target.
#[unsafe(no_mangle)]
pub extern "C" fn bf_field_embedding(
    source: &ChosenField,
    target: &ChosenField,
    root: &mut Wide,
) -> u32
    ensures { FindsARootOver source.now target.now root.old root.new result }
{
    c_calls::fields::embedding(*source, *target, root)
}

/// The image in target of each element of source: the value at the root of the polynomial that it is, so that sums and products are kept.
#[unsafe(no_mangle)]
pub extern "C" fn bf_field_embed(
    source: &ChosenField,
    target: &ChosenField,
    root: &Wide,
    values: &[Wide],
    images: &mut [Wide],
) -> u32
    ensures { EmbedsOver source.now target.now root.now values.now images.old images.new result }
{
    c_calls::fields::embed(*source, *target, *root, values, images)
}
