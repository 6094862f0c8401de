// The laws of codes that correct errors and of shares of a secret, over every field of characteristic two, as the
// contracts of functions that compute nothing. A word has n symbols, at n different points; at most e of its places are
// erased, that is known to be wrong, and at most t others are wrong.
ghost use Rattle.error_codes.specs.Checks.{CheckDecodersAreRight, CheckedAreValues, ChecksHaveSolution};
ghost use Rattle.error_codes.specs.Checks.{ErasuresMultiply, NullVectorsExist, NullVectorsSolve, RegistersSolve};
ghost use Rattle.error_codes.specs.Checks.{SentIsUnique};
ghost use Rattle.error_codes.specs.Checks.{SyndromesCorrect, SyndromesDecode, ValuesAreChecked, WordsDiffer};
ghost use Rattle.error_codes.specs.Decoding.{DecodersAreRight, DecodingIsUnique, DivisionsAreExact, KeyHasSolution};
ghost use Rattle.error_codes.specs.Decoding.{RestoredIsOnly, SolutionsDecode};
ghost use Rattle.error_codes.specs.Euclid.{EuclidContinues, EuclidDecodes, EuclidStarts, EuclidStops};
ghost use Rattle.error_codes.specs.Generators.{MultiplesAreChecked, PowersAreScaled, SyndromesAreValues};
ghost use Rattle.error_codes.specs.Registers.{RegistersAreLong, RegistersAreShort, RegistersLeadOn, RegistersStart};
ghost use Rattle.error_codes.specs.Registers.{RegistersStay};
ghost use Rattle.error_codes.specs.Secrets.{FewerSharesAreCounted, SharesAreCounted, SharesHideSecret};

/// States that at most one polynomial of k coefficients has the symbols of a word as its values but for erased places
/// and at most t others, where 2 t + e + k is at most n (Reed and Solomon 1960).
pub fn decoding_is_unique()
    ensures { DecodingIsUnique }
{}

/// States that the key equation of Berlekamp and Welch (1986) has a solution where such a polynomial exists.
pub fn key_has_solution()
    ensures { KeyHasSolution }
{}

/// States that every solution of the key equation decodes: its quotient is the polynomial, and it is 0 at each wrong
/// place.
pub fn solutions_decode()
    ensures { SolutionsDecode }
{}

/// States that the symbols at places where a solution is not 0 restore the only polynomial that can be within t errors,
/// so that a decoder need not divide.
pub fn restored_is_only()
    ensures { RestoredIsOnly }
{}

/// States that long division decides whether a solution of the key equation has a quotient.
pub fn divisions_are_exact()
    ensures { DivisionsAreExact }
{}

/// States what a decoder may answer, whatever its algorithm is: any polynomial within t errors, and none where the key
/// equation has no solution, or one that leads to no such polynomial.
pub fn decoders_are_right()
    ensures { DecodersAreRight }
{}

/// States what Euclid's algorithm starts with, in the form of Gao (2003): two polynomials, and the factors 0 and 1.
pub fn euclid_starts()
    ensures { EuclidStarts }
{}

/// States that each division of Euclid's algorithm keeps what holds between two of them.
pub fn euclid_continues()
    ensures { EuclidContinues }
{}

/// States that at the first remainder of few coefficients Euclid's algorithm has a solution of the key equation.
pub fn euclid_stops()
    ensures { EuclidStops }
{}

/// States that this solution decodes.
pub fn euclid_decodes()
    ensures { EuclidDecodes }
{}

/// States that at most one word with R checks is within t errors, where 2 t + e is at most R (MacWilliams and Sloane,
/// The theory of error-correcting codes, 1977, chapter 1, theorem 2).
pub fn sent_is_unique()
    ensures { SentIsUnique }
{}

/// States that two words of a code with R checks that differ do so at more than R places, so that the distance of the
/// code is as large as any code's of so many words (Singleton 1964).
pub fn words_differ()
    ensures { WordsDiffer }
{}

/// States that the equations of the syndromes have a solution where a word of the code is within t errors (Peterson
/// 1960).
pub fn checks_have_solution()
    ensures { ChecksHaveSolution }
{}

/// States that every solution of the equations of the syndromes decodes: it is 0 at each wrong place, and only one word
/// of the code has the symbols elsewhere.
pub fn syndromes_decode()
    ensures { SyndromesDecode }
{}

/// States how a solution that is 0 at erased places is sought: as a product of their polynomial and a factor, by the
/// sums of that polynomial with the syndromes (Forney 1965).
pub fn erasures_multiply()
    ensures { ErasuresMultiply }
{}

/// States that a null vector of the matrix of such sums gives a solution (Peterson 1960).
pub fn null_vectors_solve()
    ensures { NullVectorsSolve }
{}

/// States that there is a null vector where a word of the code is within t errors.
pub fn null_vectors_exist()
    ensures { NullVectorsExist }
{}

/// States that the reverse of a shift register that gives the syndromes is a solution (Massey 1969).
pub fn registers_solve()
    ensures { RegistersSolve }
{}

/// States the symbol at each place where a solution is 0, from the syndromes alone (Forney 1965).
pub fn syndromes_correct()
    ensures { SyndromesCorrect }
{}

/// States what a decoder of a code by checks may answer, whatever its algorithm is: any word of the code within t
/// errors, and none where the equations have no solution, or one that leads to no such word.
pub fn check_decoders_are_right()
    ensures { CheckDecodersAreRight }
{}

/// States that values of polynomials, scaled in any way, are the words of a code by checks (MacWilliams and Sloane,
/// chapter 12).
pub fn values_are_checked()
    ensures { ValuesAreChecked }
{}

/// States that every word of a code by checks is one of scaled values of a polynomial.
pub fn checked_are_values()
    ensures { CheckedAreValues }
{}

/// States that the syndromes of a list of coefficients are the values of its polynomial at the roots of the generator
/// polynomial.
pub fn syndromes_are_values()
    ensures { SyndromesAreValues }
{}

/// States that different powers of an element other than 0 are the points of a code by checks, with scales that are
/// powers too.
pub fn powers_are_scaled()
    ensures { PowersAreScaled }
{}

/// States that the multiples of a generator polynomial are the words whose syndromes are 0.
pub fn multiples_are_checked()
    ensures { MultiplesAreChecked }
{}

/// States Massey's bound (1969) on the length of shift registers.
pub fn registers_are_long()
    ensures { RegistersAreLong }
{}

/// States that a shortest register stays one where it gives the next entry.
pub fn registers_stay()
    ensures { RegistersStay }
{}

/// States that behind zeros, every register as long as the entries is a shortest one.
pub fn registers_start()
    ensures { RegistersStart }
{}

/// States the step of the algorithm of Berlekamp (1968) and Massey (1969): from a shortest register of l entries to one
/// of l + 1.
pub fn registers_lead_on()
    ensures { RegistersLeadOn }
{}

/// States that a shortest register of the syndromes is no longer than t where a word of the code is within t errors.
pub fn registers_are_short()
    ensures { RegistersAreShort }
{}

/// States that for any k - 1 shares, at different points other than 0, each secret is that of exactly one list of k
/// coefficients (Shamir 1979).
pub fn shares_hide_secret()
    ensures { SharesHideSecret }
{}

/// States that of all choices of the k - 1 other coefficients exactly one gives any k - 1 shares, whatever the secret
/// is.
pub fn shares_are_counted()
    ensures { SharesAreCounted }
{}

/// States that j shares, fewer than k - 1, are given by F^(k - 1 - j) choices, whatever the secret is: F are the
/// elements of the field.
pub fn fewer_shares_are_counted()
    ensures { FewerSharesAreCounted }
{}
