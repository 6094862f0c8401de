// Symbols at marked places, no more than there are checks, so that all syndromes are 0 where symbols do that. They come from the syndromes
// alone (G. D. Forney, On decoding BCH codes, 1965): the sum of the coefficients of a polynomial times the syndromes is the sum of its values
// times the scaled symbols, so a polynomial that is 0 at all marked places but one leaves the difference there.
ghost use Rattle.std.specs.Prelude.{◌≡◌, ◌+◌, ◌-◌, ◌<◌, ◌≤◌, ◌^◌, ℕ, length, slice_index, true, false, bit_xor};
ghost use Rattle.field_base.specs.Basis.{sum_below};
ghost use Rattle.field_base.specs.Powers.{power};
ghost use Rattle.field_slices.specs.Marks.{marked_below};
ghost use Rattle.error_codes.specs.Checks.{IsChecked, syndrome};
ghost use Rattle.error_codes.specs.FieldCodes.{AreSymbols, AreFallingPoints};
ghost use Rattle.error_codes.specs.Filling.{falling_point, falling_scale, is_marked, is_other, marked_product};
ghost use Rattle.error_codes.specs.Filling.{weighted_sum};

use crate::field_code::{FieldCode, power_of};
use crate::symbols::SymbolField;

// The sums for a polynomial g become those for (x + point) g: sum m of that is sum m + 1 and point times sum m.
fn multiply_sums<F: SymbolField>(field: F, sums: &mut [u16], count: usize, point: u16)
    requires some { 0 < count }
    requires few { count ≤ length sums.old }
    ensures long { length sums.new ≡ length sums.old }
    ensures sums { (m : ℕ) → m < count - 1 → slice_index sums.new m
        ≡ bit_xor (slice_index sums.old (m + 1)) (F.product field point (slice_index sums.old m)) }
{
    for m in 0..count - 1 {
        sums[m] = sums[m + 1] ^ field.multiply(point, sums[m]);
    }
}

impl<F: SymbolField> FieldCode<F> {
    // Writes the points of the symbols, root^(word_length - 1), .., root, 1.
    pub(crate) fn write_points(&self, points: &mut [u16])
        requires { length points.old ≡ self.now.word_length }
        ensures long { length points.new ≡ length points.old }
        ensures points { AreFallingPoints (F.product self.now.field) self.now.root self.now.word_length points.new }
    {
        let mut next = 1;
        for i in 0..points.len() {
            let place = points.len() - 1 - i;
            points[place] = next;
            next = self.field.multiply(next, self.root);
        }
    }

    // The sums for the polynomial 1, which are the syndromes, become those for the product of x + p over the points p of
    // all marked places but `skipped`. How many are left is returned.
    pub(crate) fn modified_syndromes(
        &self,
        points: &[u16],
        sums: &mut [u16],
        marked: &[bool],
        skipped: usize,
    ) -> usize
        requires points { AreFallingPoints (F.product self.now.field) self.now.root self.now.word_length points.now }
        requires whole { length points.now ≡ self.now.word_length }
        requires marks { length marked.now ≡ self.now.word_length }
        requires room { length sums.old ≡ self.now.word_length - self.now.dimension }
        requires few { marked_below (is_other marked.now skipped) self.now.word_length
            ≤ self.now.word_length - self.now.dimension }
        ensures long { length sums.new ≡ length sums.old }
        ensures left { result + marked_below (is_other marked.now skipped) self.now.word_length
            ≡ self.now.word_length - self.now.dimension }
        ensures sums { let times = F.product self.now.field in let n = self.now.word_length in
            let point = falling_point times self.now.root n in (weight : ℕ → ℕ)
            → ((m : ℕ) → m < n - self.now.dimension
            → slice_index sums.old m ≡ sum_below (λ i. times (weight i) (power 1 times (point i) m)) n)
            → (m : ℕ) → m < result → slice_index sums.new m
            ≡ weighted_sum times n point weight (marked_product times point (is_other marked.now skipped) n) m }
    {
        let mut left = self.word_length - self.dimension;
        for i in 0..self.word_length {
            if marked[i] && i != skipped {
                multiply_sums(self.field, sums, left, points[i]);
                left -= 1;
            }
        }
        left
    }

    // The scale of a marked place times the product of the differences of its point to those of the other marked places.
    fn denominator(&self, points: &[u16], marked: &[bool], place: usize) -> u16
        requires points { AreFallingPoints (F.product self.now.field) self.now.root self.now.word_length points.now }
        requires whole { length points.now ≡ self.now.word_length }
        requires marks { length marked.now ≡ self.now.word_length }
        requires inside { place < self.now.word_length }
        ensures { let times = F.product self.now.field in let n = self.now.word_length in
            let point = falling_point times self.now.root n in
            result ≡ times (falling_scale times self.now.root self.now.first_root n place)
            (marked_product times point (is_other marked.now place) n (point place)) }
    {
        let scale = power_of(self.field, self.root, self.first_root);
        let mut product = power_of(self.field, scale, self.word_length - 1 - place);
        for j in 0..self.word_length {
            if marked[j] && j != place {
                product = self.field.multiply(product, points[place] ^ points[j]);
            }
        }
        product
    }

    // What is to be added to the symbol at a marked place, so that the word becomes the code word that has all symbols
    // which are not marked.
    fn difference(
        &self,
        points: &[u16],
        syndromes: &[u16],
        sums: &mut [u16],
        marked: &[bool],
        place: usize,
    ) -> u16
        requires points { AreFallingPoints (F.product self.now.field) self.now.root self.now.word_length points.now }
        requires whole { length points.now ≡ self.now.word_length }
        requires marks { length marked.now ≡ self.now.word_length }
        requires given { length syndromes.now ≡ self.now.word_length - self.now.dimension }
        requires room { length sums.old ≡ self.now.word_length - self.now.dimension }
        requires inside { place < self.now.word_length }
        requires chosen { is_marked marked.now place ≡ true }
        requires few { marked_below (is_marked marked.now) self.now.word_length
            ≤ self.now.word_length - self.now.dimension }
        ensures long { length sums.new ≡ length sums.old }
        ensures difference { let times = F.product self.now.field in let n = self.now.word_length in
            let checks = n - self.now.dimension in
            let point = falling_point times self.now.root n in
            let scale = falling_scale times self.now.root self.now.first_root n in (word sent : ℕ → ℕ)
            → ((m : ℕ) → m < checks → slice_index syndromes.now m ≡ syndrome times n point scale word m)
            → ((i : ℕ) → i < n → word i < 2 ^ F.width self.now.field)
            → IsChecked (F.width self.now.field) times checks n point scale sent
            → ((i : ℕ) → i < n → is_marked marked.now i ≡ false → word i ≡ sent i)
            → bit_xor (word place) result ≡ sent place }
    {
        sums.copy_from_slice(syndromes);
        let _left = self.modified_syndromes(points, sums, marked, place);
        let inverse = self.field.invert(self.denominator(points, marked, place));
        self.field.multiply(sums[0], inverse)
    }

    // Writes the code word that has the symbols of a word at all places that are not marked, where there is one.
    pub(crate) fn fill_erasures(
        &self,
        points: &[u16],
        syndromes: &[u16],
        sums: &mut [u16],
        word: &[u16],
        marked: &[bool],
        symbols: &mut [u16],
    )
        requires points { AreFallingPoints (F.product self.now.field) self.now.root self.now.word_length points.now }
        requires whole { length points.now ≡ self.now.word_length }
        requires marks { length marked.now ≡ self.now.word_length }
        requires given { length syndromes.now ≡ self.now.word_length - self.now.dimension }
        requires room { length sums.old ≡ self.now.word_length - self.now.dimension }
        requires long { length word.now ≡ self.now.word_length }
        requires elements { AreSymbols (F.width self.now.field) self.now.word_length word.now }
        requires written { length symbols.old ≡ self.now.word_length }
        requires values { let times = F.product self.now.field in let n = self.now.word_length in
            (m : ℕ) → m < n - self.now.dimension → slice_index syndromes.now m
            ≡ syndrome times n (falling_point times self.now.root n)
            (falling_scale times self.now.root self.now.first_root n) (slice_index word.now) m }
        requires few { marked_below (is_marked marked.now) self.now.word_length
            ≤ self.now.word_length - self.now.dimension }
        ensures kept { length sums.new ≡ length sums.old }
        ensures long { length symbols.new ≡ length symbols.old }
        ensures filled { let times = F.product self.now.field in let n = self.now.word_length in (sent : ℕ → ℕ)
            → IsChecked (F.width self.now.field) times (n - self.now.dimension) n (falling_point times self.now.root n)
            (falling_scale times self.now.root self.now.first_root n) sent
            → ((i : ℕ) → i < n → is_marked marked.now i ≡ false → slice_index word.now i ≡ sent i)
            → (i : ℕ) → i < n → slice_index symbols.new i ≡ sent i }
    {
        for i in 0..self.word_length {
            let mut symbol = word[i];
            if marked[i] {
                symbol = symbol ^ self.difference(points, syndromes, sums, marked, i);
            }
            symbols[i] = symbol;
        }
    }
}
