// Binary BCH codes, as the words of bits of Reed-Solomon codes over bytes: a word of bits is 0 at root, root^2, .., root^(2 t) exactly where it
// is one of the code whose first root is root. So the decoder of that code corrects it, and no nearest word with other symbols is taken.
ghost use Rattle.std.specs.Prelude.{◌≡◌, ◌≢◌, ◌⊎◌, ◌+◌, ◌-◌, ◌*◌, ◌<◌, ◌≤◌, ◌↔◌, ℕ, List, IsTrue, IsOk, IfOk, IfErr, OnOk, OnErr, length};
ghost use Rattle.std.specs.Prelude.{slice_index, true, false, not, nat_eq, bit_and, bit_xor};
ghost use Rattle.field_base.specs.Powers.{power};
ghost use Rattle.field_slices.specs.Marks.{marked_below};
ghost use Rattle.error_codes.specs.BinaryBch.{AreBinary, AreConjugates, HasFewConjugates, IsMeantBits, IsSquaring, MarkConjugates};
ghost use Rattle.reed_solomon.specs.ByteFields.{byte_generator, byte_times};
ghost use Rattle.error_codes.specs.Correcting.{HasOrder, HasRoots, code_value};
ghost use Rattle.error_codes.specs.Filling.{is_marked};
ghost use Rattle.error_codes.specs.declared.error.CodeError.TheVariants.{NoSymbols, RepeatedPoints, TooLong};

use crate::code::CorrectingCode;
use crate::correcting::Corrected;
use crate::dual_basis::bytes_fit;
use crate::encoder::generator_polynomial;
use crate::error::{CodeError, TooManyErrors};
use reed_solomon::byte_field::{ByteField, multiply};

/// A binary BCH code: words of `word_length` bits, each the symbol 0 or 1, the first `dimension` of them data. The first bit is the
/// coefficient of the highest power, and the polynomials of code words are 0 at root, root^2, .., root^(2 errors). No call takes memory.
#[derive(Clone, Copy)]
pub struct BinaryBch {
    code: CorrectingCode,
    checks: usize,
    generator: [u8; 256],
    ghost narrow: { code.first_root ≡ 1 },
    ghost some_data: { checks < code.word_length },
    ghost counted: { AreConjugates (byte_times code.field) code.root (code.word_length - code.dimension) checks },
    ghost monic: { slice_index generator 0 ≡ 1 },
    ghost bits: { AreBinary (checks + 1) generator },
    ghost zeros: { (m : ℕ) → m < code.word_length - code.dimension
        → code_value (byte_times code.field) (checks + 1) (slice_index generator)
        (power 1 (byte_times code.field) code.root (1 + m)) ≡ 0 },
}

// Marks an element and its squarings.
fn mark_squarings(field: ByteField, marks: &mut [bool; 256], root: u8)
    ensures { (b : ℕ) → b < 256 → (is_marked marks.new b ≡ true)
        ↔ ((is_marked marks.old b ≡ true) ⊎ IsSquaring (byte_times field) root 8 b) }
{
    let mut next = root;
    for _ in 0..8usize {
        marks[next as usize] = true;
        next = multiply(field, next, next);
    }
}

// The roots of every word of bits that is 0 at the roots of a code.
fn marked_conjugates(code: &CorrectingCode) -> [bool; 256]
    requires { code.now.first_root ≡ 1 }
    ensures { MarkConjugates (byte_times code.now.field) code.now.root (code.now.word_length - code.now.dimension) (is_marked result) }
{
    let mut marks = [false; 256];
    for m in 0..code.word_length - code.dimension {
        mark_squarings(code.field, &mut marks, code.roots[m]);
    }
    marks
}

// Writes the bytes that are marked, and says how many there are.
fn list_bytes(marks: &[bool; 256], bytes: &mut [u8; 256]) -> usize
    ensures count { result ≡ marked_below (is_marked marks.now) 256 }
    ensures listed { (b : ℕ) → b < 256 → is_marked marks.now b ≡ true → (p : ℕ) × (p < result) × (slice_index bytes.new p ≡ b) }
{
    let mut count = 0;
    for b in 0..256 {
        if marks[b] {
            bytes[count] = b as u8;
            count += 1;
        }
    }
    count
}

// The rest of division by the generator polynomial, a bit of data further.
fn shift_bits(rest: &mut [u8; 256], count: usize, generator: &[u8; 256], bit: u8)
    requires { count < 255 }
    ensures shifted { (j : ℕ) → j < count → slice_index rest.new j ≡ bit_xor (slice_index rest.old (j + 1))
        (bit_and (bit_xor bit (slice_index rest.old 0)) (slice_index generator.now (j + 1))) }
    ensures others { (j : ℕ) → count ≤ j → slice_index rest.new j ≡ slice_index rest.old j }
{
    let factor = bit ^ rest[0];
    for j in 0..count {
        rest[j] = rest[j + 1] ^ (factor & generator[j + 1]);
    }
}

// Whether all symbols are bits.
fn are_bits(word: &[u8]) -> bool
    ensures { IsTrue result ↔ AreBinary (length word.now) word.now }
{
    for symbol in word {
        if *symbol >= 2 {
            return false;
        }
    }
    true
}

impl BinaryBch {
    /// The code that corrects so many errors in words of so many bits, at most 255. Its root is the power root_step of the field's
    /// generator, whose order is the length of a whole word: 255 for the step 1, and 15 for 17, which makes the code over the field of 16
    /// elements. A word may have fewer bits than that. The dimension is the length less the number of different elements among the roots
    /// and their squarings. The error is the first that applies: no errors or no data (`NoSymbols`), too long, points that repeat, and
    /// again no data.
    pub fn new(
        field: ByteField,
        word_length: usize,
        errors: usize,
        root_step: usize,
    ) -> Result<BinaryBch, CodeError>
        ensures accepted { let root = power 1 (byte_times field) (byte_generator field) root_step in
            IsOk result ↔ ((0 < errors) × (2 * errors < word_length) × (word_length ≤ 255)
            × HasOrder (byte_times field) root word_length × HasFewConjugates (byte_times field) root (2 * errors) word_length) }
        ensures made { IfOk result (λ bch. (bch.code.field ≡ field) × (bch.code.word_length ≡ word_length)
            × (bch.code.word_length - bch.code.dimension ≡ 2 * errors)
            × (bch.code.root ≡ power 1 (byte_times field) (byte_generator field) root_step)) }
        ensures no_errors { IfErr result (λ error. errors ≡ 0 → error ≡ NoSymbols) }
        ensures no_data { IfErr result (λ error. word_length ≤ 2 * errors → error ≡ NoSymbols) }
        ensures long { IfErr result (λ error. 0 < errors → 2 * errors < word_length → 255 < word_length → error ≡ TooLong) }
        ensures repeated { IfErr result (λ error. 0 < errors → 2 * errors < word_length → word_length ≤ 255
            → (HasOrder (byte_times field) (power 1 (byte_times field) (byte_generator field) root_step) word_length → error ≡ NoSymbols)
            × ((HasOrder (byte_times field) (power 1 (byte_times field) (byte_generator field) root_step) word_length → ⊥)
            → error ≡ RepeatedPoints)) }
    {
        if errors == 0 || errors >= word_length || errors >= word_length - errors {
            return Err(CodeError::NoSymbols);
        }
        match CorrectingCode::new(field, word_length, word_length - 2 * errors, 1, root_step) {
            Ok(code) => BinaryBch::of_code(&code),
            Err(error) => Err(error),
        }
    }

    // The words of bits of a code, if some of their bits are data.
    fn of_code(code: &CorrectingCode) -> Result<BinaryBch, CodeError>
        requires { code.now.first_root ≡ 1 }
        ensures accepted { IsOk result ↔ HasFewConjugates (byte_times code.now.field) code.now.root
            (code.now.word_length - code.now.dimension) code.now.word_length }
        ensures made { IfOk result (λ bch. bch.code ≡ code.now) }
        ensures full { IfErr result (λ error. error ≡ NoSymbols) }
    {
        let mut roots = [0; 256];
        let checks = list_bytes(&marked_conjugates(code), &mut roots);
        if checks >= code.word_length {
            return Err(CodeError::NoSymbols);
        }
        let generator = generator_polynomial(code.field, &roots, checks);
        bytes_fit(&generator);
        Ok(BinaryBch {
            code: *code,
            checks,
            generator,
        })
    }

    /// How many bits a word has.
    pub fn word_length(&self) -> usize
        ensures { result ≡ self.now.code.word_length }
    {
        self.code.word_length()
    }

    /// How many bits of a word are data.
    pub fn dimension(&self) -> usize
        ensures { result ≡ self.now.code.word_length - self.now.checks }
    {
        self.code.word_length() - self.checks
    }

    /// Whether a word has the code's length, all its symbols are bits, and the polynomial whose coefficients they are is 0 at every root.
    pub fn is_code_word(&self, word: &[u8]) -> bool
        ensures { IsTrue result ↔ ((length word.now ≡ self.now.code.word_length) × AreBinary (length word.now) word.now
            × HasRoots (byte_times self.now.code.field) self.now.code.root 1
            (self.now.code.word_length - self.now.code.dimension) word.now) }
    {
        are_bits(word) && self.code.is_code_word(word)
    }

    /// Writes the bits behind the data, so that the polynomial of the word is 0 at every root. What stood there is not read.
    pub fn encode(&self, word: &mut [u8])
        requires whole { length word.old ≡ self.now.code.word_length }
        requires bits { AreBinary (self.now.code.word_length - self.now.checks) word.old }
        ensures long { length word.new ≡ length word.old }
        ensures bits { AreBinary self.now.code.word_length word.new }
        ensures kept { (i : ℕ) → i < self.now.code.word_length - self.now.checks → slice_index word.new i ≡ slice_index word.old i }
        ensures encoded { HasRoots (byte_times self.now.code.field) self.now.code.root 1
            (self.now.code.word_length - self.now.code.dimension) word.new }
    {
        let data = self.code.word_length - self.checks;
        let mut rest = [0; 256];
        for i in 0..data {
            shift_bits(&mut rest, self.checks, &self.generator, word[i]);
        }
        for j in 0..self.checks {
            word[data + j] = rest[j];
        }
    }

    /// Corrects a word in place, some bits of which may be wrong at places that are not known, and those at the `erasures` may be wrong too.
    /// Where a code word differs from it at t places that are not listed, and 2 t and the number of listed places of the word are together
    /// at most twice the number of errors of the code, the word becomes that code word; there is no other. Elsewhere the answer is the
    /// error, and the word stays as it was. A received symbol from 2 on is wrong, as any that differs from what was sent.
    pub fn correct(&self, word: &mut [u8], erasures: &[usize]) -> Result<Corrected, TooManyErrors>
        requires { length word.old ≡ self.now.code.word_length }
        ensures long { length word.new ≡ length word.old }
        ensures found { (sent : List ℕ) → IsMeantBits (byte_times self.now.code.field) self.now.code.root self.now.code.word_length
            (self.now.code.word_length - self.now.code.dimension) word.old erasures.now sent → IsOk result × (word.new ≡ sent) }
        ensures right { OnOk result (IsMeantBits (byte_times self.now.code.field) self.now.code.root self.now.code.word_length
            (self.now.code.word_length - self.now.code.dimension) word.old erasures.now word.new) }
        ensures kept { OnErr result (word.new ≡ word.old) }
        ensures within { IfOk result (λ corrected. (i : ℕ) → i < self.now.code.word_length
            → is_marked corrected.changed i ≡ not (nat_eq (slice_index word.old i) (slice_index word.new i))) }
        ensures behind { IfOk result (λ corrected. (i : ℕ) → self.now.code.word_length ≤ i → is_marked corrected.changed i ≡ false) }
        ensures count { IfOk result (λ corrected. corrected.count
            ≡ marked_below (is_marked corrected.changed) self.now.code.word_length) }
    {
        let mut bits = [0; 255];
        let own = &mut bits[..self.code.word_length];
        own.copy_from_slice(word);
        let corrected = self.code.correct(own, erasures)?;
        if !are_bits(own) {
            return Err(TooManyErrors);
        }
        word.copy_from_slice(own);
        Ok(corrected)
    }
}
