// Correction of words over any field, some symbols of which are wrong and some erased (W. W. Peterson, Encoding and error-correction
// procedures for the Bose-Chaudhuri codes, 1960; G. D. Forney, On decoding BCH codes, 1965; J. L. Massey, Shift-register synthesis and BCH
// decoding, 1969).
ghost use Rattle.std.specs.Prelude.{◌≡◌, ◌↔◌, ◌+◌, ◌-◌, ◌*◌, ◌<◌, ◌≤◌, ◌||◌, ◌&&◌, ℕ, List, length, slice_index};
ghost use Rattle.std.specs.Prelude.{false, not, nat_eq, IsOk, IsTrue, IfOk, OnOk, OnErr};
ghost use Rattle.field_base.specs.Powers.{power};
ghost use Rattle.field_slices.specs.Marks.{marked_below};
ghost use Rattle.error_codes.specs.Checks.{IsSent};
ghost use Rattle.error_codes.specs.Correcting.{HasRoots, IsMeantIn, code_value, is_listed};
ghost use Rattle.error_codes.specs.FieldCodes.{AreSymbols, AreFallingPoints};
ghost use Rattle.error_codes.specs.Filling.{falling_point, falling_scale, is_marked};
ghost use Rattle.error_codes.specs.Words.{is_wrong};

use crate::correcting::{count_marks, count_others, mark_listed};
use crate::error::TooManyErrors;
use crate::field_code::FieldCode;
use crate::field_code::registers::write_register;
use crate::field_code::values::evaluate;
use crate::symbols::SymbolField;

// Marks where two words differ.
fn mark_differing(word: &[u16], other: &[u16], marks: &mut [bool])
    requires same { length other.now ≡ length word.now }
    requires room { length marks.old ≡ length word.now }
    ensures long { length marks.new ≡ length marks.old }
    ensures within { (i : ℕ) → i < length word.now
        → is_marked marks.new i ≡ not (nat_eq (slice_index word.now i) (slice_index other.now i)) }
{
    for i in 0..word.len() {
        marks[i] = word[i] != other[i];
    }
}

// Whether all values are 0.
fn are_zeros(values: &[u16]) -> bool
    ensures { IsTrue result ↔ ((m : ℕ) → m < length values.now → slice_index values.now m ≡ 0) }
{
    for value in values {
        if *value != 0 {
            return false;
        }
    }
    true
}

impl<F: SymbolField> FieldCode<F> {
    // Chien search: also marks each place whose point is a root of the error locator, the reverse of a register, which is given by its
    // coefficients.
    fn locate_errors(
        &self,
        points: &[u16],
        register: &[u16],
        values: &mut [u16],
        marks: &mut [bool],
    )
        requires points { AreFallingPoints (F.product self.now.field) self.now.root self.now.word_length points.now }
        requires whole { length points.now ≡ self.now.word_length }
        requires values { length values.old ≡ self.now.word_length }
        requires room { length marks.old ≡ self.now.word_length }
        ensures values { length values.new ≡ length values.old }
        ensures long { length marks.new ≡ length marks.old }
        ensures marks { let times = F.product self.now.field in let n = self.now.word_length in (i : ℕ) → i < n
            → is_marked marks.new i ≡ (is_marked marks.old i || nat_eq (code_value times (length register.now)
            (slice_index register.now) (falling_point times self.now.root n i)) 0) }
    {
        values.copy_from_slice(points);
        evaluate(self.field, register, values);
        for i in 0..self.word_length {
            if values[i] == 0 {
                marks[i] = true;
            }
        }
    }

    // Decodes into `symbols`: the one code word that differs at no more than `most` places outside the erasures, and tells whether there
    // can be one. The points and the syndromes of the word are given.
    fn decode(
        &self,
        points: &[u16],
        syndromes: &[u16],
        word: &[u16],
        erased: &[bool],
        most: usize,
        scratch: &mut [u16],
        suspected: &mut [bool],
        symbols: &mut [u16],
    ) -> bool
        requires points { AreFallingPoints (F.product self.now.field) self.now.root self.now.word_length points.now }
        requires whole { length points.now ≡ self.now.word_length }
        requires given { length syndromes.now ≡ self.now.word_length - self.now.dimension }
        requires values { (m : ℕ) → m < self.now.word_length - self.now.dimension
            → slice_index syndromes.now m ≡ code_value (F.product self.now.field) (length word.now) (slice_index word.now)
            (power 1 (F.product self.now.field) self.now.root (self.now.first_root + m)) }
        requires long { length word.now ≡ self.now.word_length }
        requires elements { AreSymbols (F.width self.now.field) self.now.word_length word.now }
        requires erased { length erased.now ≡ self.now.word_length }
        requires scratch { length scratch.old ≡ 4 * (self.now.word_length - self.now.dimension) + 3 }
        requires suspected { length suspected.old ≡ self.now.word_length }
        requires symbols { length symbols.old ≡ self.now.word_length }
        requires few { 2 * most + marked_below (is_marked erased.now) self.now.word_length
            ≤ self.now.word_length - self.now.dimension }
        ensures marks { length suspected.new ≡ length suspected.old }
        ensures room { length symbols.new ≡ length symbols.old }
        ensures found { let times = F.product self.now.field in let n = self.now.word_length in (sent : ℕ → ℕ)
            → IsSent (F.width self.now.field) times (n - self.now.dimension) n most (falling_point times self.now.root n)
            (falling_scale times self.now.root self.now.first_root n) (slice_index word.now) (is_marked erased.now) sent
            → IsTrue result × ((i : ℕ) → i < n → slice_index symbols.new i ≡ sent i) }
    {
        let checks = self.word_length - self.dimension;
        let (sums, rows) = scratch.split_at_mut(checks);
        let (coefficients, behind_coefficients) = rows.split_at_mut(checks + 1);
        let (older, spare) = behind_coefficients.split_at_mut(checks + 1);
        sums.copy_from_slice(syndromes);
        let left = self.modified_syndromes(points, sums, erased, self.word_length);
        let size = write_register(self.field, sums, left, coefficients, older, spare);
        if size > most {
            return false;
        }
        suspected.copy_from_slice(erased);
        self.locate_errors(points, &coefficients[..size + 1], symbols, suspected);
        let count = count_marks(suspected, self.word_length);
        if count > checks {
            return false;
        }
        self.fill_erasures(points, syndromes, sums, word, suspected, symbols);
        true
    }

    // Takes the decoded word in place of the received one, if it is a code word and differs at no more than `most` places besides the
    // erased. The places where they differ are marked, and it is returned how many they are. The values of the received word are given.
    fn check_decoded(
        &self,
        points: &[u16],
        word: &mut [u16],
        erased: &[bool],
        most: usize,
        fixed: &[u16],
        values: &mut [u16],
        changed: &mut [bool],
    ) -> Result<usize, TooManyErrors>
        requires points { AreFallingPoints (F.product self.now.field) self.now.root self.now.word_length points.now }
        requires whole_points { length points.now ≡ self.now.word_length }
        requires given { (m : ℕ) → m < self.now.word_length - self.now.dimension
            → slice_index values.old m ≡ code_value (F.product self.now.field) self.now.word_length (slice_index word.old)
            (power 1 (F.product self.now.field) self.now.root (self.now.first_root + m)) }
        requires long { length word.old ≡ self.now.word_length }
        requires whole { length fixed.now ≡ self.now.word_length }
        requires erased { length erased.now ≡ self.now.word_length }
        requires values { length values.old ≡ self.now.word_length - self.now.dimension }
        requires room { length changed.old ≡ self.now.word_length }
        ensures long { length word.new ≡ length word.old }
        ensures room { length changed.new ≡ length changed.old }
        ensures accepted { IsOk result ↔ (AreSymbols (F.width self.now.field) self.now.word_length fixed.now
            × HasRoots (F.product self.now.field) self.now.root self.now.first_root
            (self.now.word_length - self.now.dimension) fixed.now
            × (marked_below (is_wrong (λ i. i) (slice_index word.old) (is_marked erased.now) (slice_index fixed.now))
            self.now.word_length ≤ most)) }
        ensures taken { OnOk result (word.new ≡ fixed.now) }
        ensures kept { OnErr result (word.new ≡ word.old) }
        ensures within { IfOk result (λ count. (i : ℕ) → i < self.now.word_length
            → is_marked changed.new i ≡ not (nat_eq (slice_index word.old i) (slice_index word.new i))) }
        ensures count { IfOk result (λ count. count ≡ marked_below (is_marked changed.new) self.now.word_length) }
    {
        mark_differing(word, fixed, changed);
        let errors = count_others(changed, erased, self.word_length);
        if errors > most {
            return Err(TooManyErrors);
        }
        if !self.are_elements(fixed) {
            return Err(TooManyErrors);
        }
        self.turn_values(points, word, fixed, values);
        if !are_zeros(values) {
            return Err(TooManyErrors);
        }
        word.copy_from_slice(fixed);
        Ok(count_marks(changed, self.word_length))
    }

    /// How many numbers `correct` needs room for: two for each symbol of a word, five for each root, and three.
    pub fn room(&self) -> usize
        ensures { result ≡ 2 * self.now.word_length + 5 * (self.now.word_length - self.now.dimension) + 3 }
    {
        2 * self.word_length + 5 * (self.word_length - self.dimension) + 3
    }

    /// Corrects a word in place as `CorrectingCode::correct` does: its symbols have to be elements, some of which may be wrong at places that
    /// are not known, and those at the `erasures` may be wrong too. Where a code word differs from it at t places that are not listed, and 2 t
    /// and the number of listed places of the word are together at most the number of symbols that are not data, the word becomes that code
    /// word; there is no other. Elsewhere the answer is the error, and the word stays as it was. A place that is listed more than once counts
    /// once, and one behind the word is ignored. It is returned how many symbols changed, and `changed` becomes which did; where the answer is
    /// the error, it is not specified. There have to be `room` numbers of room, and a flag for each symbol in `erased` and `changed`. What
    /// stood there is not read, and `room` and `erased` hold nothing of use afterwards.
    pub fn correct(
        &self,
        word: &mut [u16],
        erasures: &[usize],
        room: &mut [u16],
        erased: &mut [bool],
        changed: &mut [bool],
    ) -> Result<usize, TooManyErrors>
        requires long { length word.old ≡ self.now.word_length }
        requires elements { AreSymbols (F.width self.now.field) self.now.word_length word.old }
        requires room { length room.old ≡ 2 * self.now.word_length + 5 * (self.now.word_length - self.now.dimension) + 3 }
        requires erased { length erased.old ≡ self.now.word_length }
        requires changed { length changed.old ≡ self.now.word_length }
        ensures long { length word.new ≡ length word.old }
        ensures flags { length changed.new ≡ length changed.old }
        ensures found { (sent : List ℕ) → IsMeantIn (F.width self.now.field) (F.product self.now.field) self.now.root self.now.first_root
            self.now.word_length (self.now.word_length - self.now.dimension) word.old erasures.now sent
            → IsOk result × (word.new ≡ sent) }
        ensures right { OnOk result (IsMeantIn (F.width self.now.field) (F.product self.now.field) self.now.root self.now.first_root
            self.now.word_length (self.now.word_length - self.now.dimension) word.old erasures.now word.new) }
        ensures kept { OnErr result (word.new ≡ word.old) }
        ensures within { IfOk result (λ count. (i : ℕ) → i < self.now.word_length
            → is_marked changed.new i ≡ not (nat_eq (slice_index word.old i) (slice_index word.new i))) }
        ensures count { IfOk result (λ count. count ≡ marked_below (is_marked changed.new) self.now.word_length) }
    {
        mark_listed(erasures, erased);
        let count = count_marks(erased, self.word_length);
        let checks = self.word_length - self.dimension;
        if count > checks {
            return Err(TooManyErrors);
        }
        let most = (checks - count) / 2;
        let (points, behind_points) = room.split_at_mut(self.word_length);
        let (symbols, behind_symbols) = behind_points.split_at_mut(self.word_length);
        let (syndromes, scratch) = behind_symbols.split_at_mut(checks);
        self.write_points(points);
        self.syndromes(word, syndromes);
        if !self.decode(
            points, syndromes, word, erased, most, scratch, changed, symbols,
        ) {
            return Err(TooManyErrors);
        }
        self.check_decoded(points, word, erased, most, symbols, syndromes, changed)
    }
}
