// Laws of the definitions, as contracts of functions that compute nothing.
ghost use Rattle.std.specs.Prelude.{ℕ, List};
ghost use Rattle.calculator.specs.Faults.{FaultsInOrder};
ghost use Rattle.calculator.specs.Words.{EmptyLineHasNoWord, RunIsOneWord, SpaceDividesWords};
ghost use Rattle.calculator.specs.Digits.{TextIsReadBack};
ghost use Rattle.calculator.specs.Elements.{CoefficientsStandInOrder, ElementIsReadBack};
ghost use Rattle.calculator.specs.Moduli.{FieldsAreOfIrreducibles};
ghost use Rattle.calculator.specs.Operations.{InverseInverts, RootIsRoot};

/// States what the words of a line are: an empty line has none, bytes with no space among them are one, and a space
/// divides those before it from those after it.
pub fn words_by_spaces()
    ensures empty { EmptyLineHasNoWord }
    ensures run { RunIsOneWord }
    ensures space { SpaceDividesWords }
{}

/// States that the text of a number, two digits for each byte, is an operand with that number.
pub fn text_is_read_back()
    ensures { TextIsReadBack }
{}

/// States that in every field that a line may name the text of an element is an operand that writes this element, and that the
/// text of an element of `p192` is the texts of its three coefficients, the lowest first.
pub fn element_is_read_back()
    ensures element { ElementIsReadBack }
    ensures coefficients { CoefficientsStandInOrder }
{}

/// States that in every field that a line may name `inv` gives the inverse, whose product with the operand is 1, and
/// `sqrt` the root, whose square it is.
pub fn inverse_and_root()
    ensures inverse { InverseInverts }
    ensures root { RootIsRoot }
{}

/// States that a polynomial which a line writes as the modulus of a field has one exactly if it is irreducible, of the degree that
/// the line writes, and that is 1 to 128.
pub fn moduli_of_fields()
    ensures { FieldsAreOfIrreducibles }
{}

/// States when a line is answered with each error. The answer is `error 6` exactly if the line is not UTF-8; else `error 1`
/// exactly if it has no first word, or that names no field and writes no modulus; else `error 7` exactly if it writes a modulus that
/// no field has; else `error 2` exactly if it has no second word, or that names no operation; else `error 3` exactly if its operands are not as many as the operation takes; else `error 4` exactly if the
/// length or a digit of some operand is wrong; else `error 5` exactly if some operand is above the field; else it is what the
/// operation gives.
pub fn faults_in_order()
    ensures { (line : List ℕ) → FaultsInOrder line }
{}
