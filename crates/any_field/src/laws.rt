// Laws of fields of binary polynomials modulo any irreducible one, as contracts of functions that compute nothing.
ghost use Rattle.any_field.specs.Barrett.{BarrettByWords, BarrettIsRemainder};
ghost use Rattle.any_field.specs.Contexts.{BytesOfCodesAreFields, FixedFieldsAreChosen, PublishedAreIrreducible};
ghost use Rattle.any_field.specs.Irreducible.{BenOrIsExact, FieldNeedsIrreducible, IrreducibleByDegrees, IrreducibleGivesField};
ghost use Rattle.any_field.specs.Isomorphic.{FieldsHaveRoots, FieldsOfOneSizeAreIsomorphic};
ghost use Rattle.any_field.specs.Rabin.{CoprimeBySteps, InversesGiveField, RabinIsExact};
ghost use Rattle.any_field.specs.Values.{RootsGiveEmbeddings, RootsGiveIsomorphisms, ValuesAreLinear};

/// States that a ring of 2^n elements whose nonzero elements have inverses is a field: n squarings return every element.
pub fn inverses_give_field()
    ensures { InversesGiveField }
{}

/// States that the polynomials modulo an irreducible one are a field, and modulo no other; and that a polynomial is irreducible exactly
/// where it is no product of two of degree 1 or more.
pub fn irreducible_gives_field()
    ensures field { IrreducibleGivesField }
    ensures only { FieldNeedsIrreducible }
    ensures by_degrees { IrreducibleByDegrees }
{}

/// States that a polynomial passes Ben-Or's test exactly where it is irreducible.
pub fn ben_or_is_exact()
    ensures { BenOrIsExact }
{}

/// States that a polynomial passes Rabin's test exactly where it is irreducible.
pub fn rabin_is_exact()
    ensures { RabinIsExact }
{}

/// States how the steps of Euclid's algorithm tell whether two polynomials have a common factor.
pub fn coprime_by_steps()
    ensures { CoprimeBySteps }
{}

/// States that Barrett's reduction, two products by a quotient that is computed once for a modulus, gives the remainder.
pub fn barrett_is_remainder()
    ensures polynomials { BarrettIsRemainder }
    ensures words { BarrettByWords }
{}

/// States that a root of an irreducible polynomial gives an embedding in the ring that has it, an isomorphism where that has as many elements,
/// and that it is a linear map.
pub fn roots_give_isomorphisms()
    ensures embeddings { RootsGiveEmbeddings }
    ensures isomorphisms { RootsGiveIsomorphisms }
    ensures linear { ValuesAreLinear }
{}

/// States that a field of 2^n elements has a root of each irreducible polynomial whose degree divides n, and so, where that is n, is
/// isomorphic to the polynomials modulo it.
pub fn finite_fields_are_isomorphic()
    ensures roots { FieldsHaveRoots }
    ensures isomorphic { FieldsOfOneSizeAreIsomorphic }
{}

/// States that the moduli of the three fixed fields are irreducible, since these are fields, and that their products are those of
/// `BinaryExtension`: `new(8, 0x1b)`, `new(64, 0x1b)` and `new(128, 0x87)` compute in the bytes of AES, in the words of 64 bits and in those of
/// GHASH as they stand.
pub fn published_are_irreducible()
    ensures irreducible { PublishedAreIrreducible }
    ensures fields { FixedFieldsAreChosen }
{}

/// States that fields have the moduli 0x11d and 0x187 of the bytes of Reed-Solomon codes, and that their products are those of
/// `BinaryExtension`: `new(8, 0x1d)` is that in which `reed_solomon` computes, and what `error_codes` has for QR codes, and `new(8, 0x87)` that
/// of telemetry.
pub fn bytes_of_codes_are_fields()
    ensures { BytesOfCodesAreFields }
{}
