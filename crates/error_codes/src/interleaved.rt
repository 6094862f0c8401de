// Many words at once, as the columns of a matrix: interleaved words of telemetry (CCSDS 131.0-B, section 4), or packets of one
// size, each of which has a symbol of every word. Where there are many, the products at a root are those of a row by one scalar.
ghost use Rattle.std.specs.Prelude.{◌≡◌, ◌≢◌, ◌↔◌, ◌+◌, ◌-◌, ◌*◌, ◌<◌, ◌≤◌, ℕ, IsTrue, bit_xor, length, nat_eq, slice_index};
ghost use Rattle.field_base.specs.LinearMaps.{linear_image};
ghost use Rattle.field_base.specs.Powers.{power};
ghost use Rattle.field_slices.specs.Marks.{marked_below};
ghost use Rattle.reed_solomon.specs.ByteFields.{byte_times};
ghost use Rattle.error_codes.specs.Correcting.{HasRoots, code_value, is_listed};
ghost use Rattle.error_codes.specs.Interleaved.{AreEncoded, AreWordValues, IsSettled, interleaved_word};

use crate::code::CorrectingCode;
use crate::correcting::{count_marks, listed_places};
use reed_solomon::byte_field::{ByteField, images_of};
use word_tables::map_bytes;

// From so many words on, a row of symbols is multiplied by a scalar faster than each word apart.
const LEAST_ROW: usize = 16;

// From so many words on they are encoded in lanes faster than each word apart.
const LEAST_LANES: usize = 4;

// Writes word c, as many symbols of it as there is room for.
fn read_word(symbols: &[u8], depth: usize, c: usize, word: &mut [u8])
    requires whole { length word.old * depth ≤ length symbols.now }
    requires inside { c < depth }
    ensures { word.new ≡ interleaved_word (length word.old) depth symbols.now c }
{
    for i in 0..word.len() {
        word[i] = symbols[i * depth + c];
    }
}

// Writes a word over word c.
fn write_word(symbols: &mut [u8], depth: usize, c: usize, word: &[u8])
    requires whole { length word.now * depth ≤ length symbols.old }
    requires inside { c < depth }
    ensures long { length symbols.new ≡ length symbols.old }
    ensures written { interleaved_word (length word.now) depth symbols.new c ≡ word.now }
    ensures others { (d : ℕ) → d < depth → d ≢ c → interleaved_word (length word.now) depth symbols.new d
        ≡ interleaved_word (length word.now) depth symbols.old d }
{
    for i in 0..word.len() {
        symbols[i * depth + c] = word[i];
    }
}

// A step of Horner's rule for each word: the value so far by the scalar that has these products, and a symbol more.
fn add_symbols(images: &[u8; 8], values: &mut [u8], symbols: &[u8])
    requires { length symbols.now ≡ length values.old }
    ensures long { length values.new ≡ length values.old }
    ensures added { (c : ℕ) → c < length values.old → slice_index values.new c
        ≡ bit_xor (linear_image images.now (slice_index values.old c)) (slice_index symbols.now c) }
{
    map_bytes(images, values);
    for c in 0..values.len() {
        values[c] ^= symbols[c];
    }
}

// The values at x of the polynomials of all words, each of which has so many symbols.
fn values_in_row(field: ByteField, words: &[u8], count: usize, x: u8, values: &mut [u8])
    requires { length words.now ≡ count * length values.old }
    ensures long { length values.new ≡ length values.old }
    ensures values { (c : ℕ) → c < length values.old → slice_index values.new c ≡ code_value (byte_times field) count
        (slice_index (interleaved_word count (length values.old) words.now c)) x }
{
    let images = images_of(field, x);
    let depth = values.len();
    values.fill(0);
    for i in 0..count {
        let start = i * depth;
        add_symbols(&images, values, &words[start..start + depth]);
    }
}

// Whether the first symbols of word c are 0.
fn is_zero_word(symbols: &[u8], depth: usize, c: usize, count: usize) -> bool
    requires whole { count * depth ≤ length symbols.now }
    requires inside { c < depth }
    ensures { IsTrue result ↔ ((m : ℕ) → m < count → slice_index (interleaved_word count depth symbols.now c) m ≡ 0) }
{
    for m in 0..count {
        if symbols[m * depth + c] != 0 {
            return false;
        }
    }
    true
}

impl CorrectingCode {
    // Writes the values of word c at the roots.
    fn write_values(&self, words: &[u8], depth: usize, c: usize, values: &mut [u8])
        requires whole { length words.now ≡ self.now.word_length * depth }
        requires room { length values.old ≡ (self.now.word_length - self.now.dimension) * depth }
        requires inside { c < depth }
        ensures long { length values.new ≡ length values.old }
        ensures own { (m : ℕ) → m < self.now.word_length - self.now.dimension
            → slice_index (interleaved_word (self.now.word_length - self.now.dimension) depth values.new c) m
            ≡ code_value (byte_times self.now.field) self.now.word_length
            (slice_index (interleaved_word self.now.word_length depth words.now c))
            (power 1 (byte_times self.now.field) self.now.root (self.now.first_root + m)) }
        ensures others { (d : ℕ) → d < depth → d ≢ c
            → interleaved_word (self.now.word_length - self.now.dimension) depth values.new d
            ≡ interleaved_word (self.now.word_length - self.now.dimension) depth values.old d }
    {
        let mut word = [0; 255];
        let own = &mut word[..self.word_length];
        read_word(words, depth, c, own);
        let found = self.syndromes(own);
        write_word(
            values,
            depth,
            c,
            &found[..self.word_length - self.dimension],
        );
    }

    // The same as `syndromes_interleaved`, a row of values at a time.
    fn write_rows(&self, words: &[u8], depth: usize, values: &mut [u8])
        requires whole { length words.now ≡ self.now.word_length * depth }
        requires room { length values.old ≡ (self.now.word_length - self.now.dimension) * depth }
        ensures long { length values.new ≡ length values.old }
        ensures values { AreWordValues (byte_times self.now.field) self.now.root self.now.first_root self.now.word_length
            (self.now.word_length - self.now.dimension) depth words.now values.new }
    {
        for m in 0..self.word_length - self.dimension {
            let start = m * depth;
            values_in_row(
                self.field,
                words,
                self.word_length,
                self.roots[m],
                &mut values[start..start + depth],
            );
        }
    }

    /// Writes the values at the roots of each of `depth` words, as `syndromes` has them: symbol i of word c is
    /// `words[i * depth + c]`, and its value at root m becomes `values[m * depth + c]`. There have to be `word_length` times
    /// `depth` symbols, and room for a value for each root and word. What stood in `values` is not read.
    pub fn syndromes_interleaved(&self, words: &[u8], depth: usize, values: &mut [u8])
        requires whole { length words.now ≡ self.now.word_length * depth }
        requires room { length values.old ≡ (self.now.word_length - self.now.dimension) * depth }
        ensures long { length values.new ≡ length values.old }
        ensures values { AreWordValues (byte_times self.now.field) self.now.root self.now.first_root self.now.word_length
            (self.now.word_length - self.now.dimension) depth words.now values.new }
    {
        if depth >= LEAST_ROW {
            self.write_rows(words, depth, values);
        } else {
            for c in 0..depth {
                self.write_values(words, depth, c, values);
            }
        }
    }

    // Encodes word c.
    fn encode_word(&self, words: &mut [u8], depth: usize, c: usize)
        requires whole { length words.old ≡ self.now.word_length * depth }
        requires inside { c < depth }
        ensures long { length words.new ≡ length words.old }
        ensures kept { (i : ℕ) → i < self.now.dimension
            → slice_index (interleaved_word self.now.word_length depth words.new c) i
            ≡ slice_index (interleaved_word self.now.word_length depth words.old c) i }
        ensures encoded { HasRoots (byte_times self.now.field) self.now.root self.now.first_root
            (self.now.word_length - self.now.dimension) (interleaved_word self.now.word_length depth words.new c) }
        ensures others { (d : ℕ) → d < depth → d ≢ c → interleaved_word self.now.word_length depth words.new d
            ≡ interleaved_word self.now.word_length depth words.old d }
    {
        let mut word = [0; 255];
        let own = &mut word[..self.word_length];
        read_word(words, depth, c, own);
        self.encode(own);
        write_word(words, depth, c, own);
    }

    /// Encodes each of `depth` words as `encode` does: symbol i of word c is `words[i * depth + c]`, so that the first
    /// `dimension` times `depth` symbols are data. There have to be `word_length` times `depth` symbols.
    pub fn encode_interleaved(&self, words: &mut [u8], depth: usize)
        requires { length words.old ≡ self.now.word_length * depth }
        ensures long { length words.new ≡ length words.old }
        ensures encoded { AreEncoded (byte_times self.now.field) self.now.root self.now.first_root self.now.word_length
            (self.now.word_length - self.now.dimension) depth self.now.dimension words.old words.new }
    {
        if depth < LEAST_LANES {
            for c in 0..depth {
                self.encode_word(words, depth, c);
            }
        } else {
            self.encode_lanes(words, depth);
        }
    }

    // Corrects word c, and tells whether it could.
    fn correct_word(&self, words: &mut [u8], depth: usize, c: usize, erasures: &[usize]) -> bool
        requires whole { length words.old ≡ self.now.word_length * depth }
        requires inside { c < depth }
        ensures long { length words.new ≡ length words.old }
        ensures settled { IsSettled (byte_times self.now.field) self.now.root self.now.first_root self.now.word_length
            (self.now.word_length - self.now.dimension) (interleaved_word self.now.word_length depth words.old c)
            erasures.now result (interleaved_word self.now.word_length depth words.new c) }
        ensures others { (d : ℕ) → d < depth → d ≢ c → interleaved_word self.now.word_length depth words.new d
            ≡ interleaved_word self.now.word_length depth words.old d }
    {
        let mut word = [0; 255];
        let own = &mut word[..self.word_length];
        read_word(words, depth, c, own);
        if self.correct(own, erasures).is_err() {
            return false;
        }
        write_word(words, depth, c, own);
        true
    }

    // The same, if the values of the word at the roots are not all 0 or too many of its symbols are erased. A code word is the
    // one that is meant as it stands.
    fn settle_word(
        &self,
        words: &mut [u8],
        depth: usize,
        c: usize,
        erasures: &[usize],
        is_clean: bool,
    ) -> bool
        requires whole { length words.old ≡ self.now.word_length * depth }
        requires inside { c < depth }
        requires roots { IsTrue is_clean → HasRoots (byte_times self.now.field) self.now.root self.now.first_root
            (self.now.word_length - self.now.dimension) (interleaved_word self.now.word_length depth words.old c) }
        requires few { IsTrue is_clean
            → marked_below (is_listed erasures.now) self.now.word_length ≤ self.now.word_length - self.now.dimension }
        ensures long { length words.new ≡ length words.old }
        ensures settled { IsSettled (byte_times self.now.field) self.now.root self.now.first_root self.now.word_length
            (self.now.word_length - self.now.dimension) (interleaved_word self.now.word_length depth words.old c)
            erasures.now result (interleaved_word self.now.word_length depth words.new c) }
        ensures others { (d : ℕ) → d < depth → d ≢ c → interleaved_word self.now.word_length depth words.new d
            ≡ interleaved_word self.now.word_length depth words.old d }
    {
        if is_clean {
            return true;
        }
        self.correct_word(words, depth, c, erasures)
    }

    /// Corrects each of `depth` words in place as `correct` does, with the same places erased in all: symbol i of word c is
    /// `words[i * depth + c]`, so that a row that is lost, as a packet, is one erased place. `corrected[c]` becomes 1 where word c
    /// is now the only code word that it can stand for; where it is not, 0, and the word stays as it was. `values` becomes what
    /// `syndromes_interleaved` writes of the received words, and only words whose values are not all 0 take time beyond that.
    /// There have to be `word_length` times `depth` symbols, room for a value for each root and word, and a flag for each word.
    pub fn correct_interleaved(
        &self,
        words: &mut [u8],
        depth: usize,
        erasures: &[usize],
        values: &mut [u8],
        corrected: &mut [u8],
    )
        requires whole { length words.old ≡ self.now.word_length * depth }
        requires room { length values.old ≡ (self.now.word_length - self.now.dimension) * depth }
        requires flags { length corrected.old ≡ depth }
        ensures long { length words.new ≡ length words.old }
        ensures room { length values.new ≡ length values.old }
        ensures flags { length corrected.new ≡ length corrected.old }
        ensures values { AreWordValues (byte_times self.now.field) self.now.root self.now.first_root self.now.word_length
            (self.now.word_length - self.now.dimension) depth words.old values.new }
        ensures settled { (c : ℕ) → c < depth → IsSettled (byte_times self.now.field) self.now.root self.now.first_root
            self.now.word_length (self.now.word_length - self.now.dimension)
            (interleaved_word self.now.word_length depth words.old c) erasures.now (nat_eq (slice_index corrected.new c) 1)
            (interleaved_word self.now.word_length depth words.new c) }
        ensures bits { (c : ℕ) → c < depth → slice_index corrected.new c < 2 }
    {
        let checks = self.word_length - self.dimension;
        self.syndromes_interleaved(words, depth, values);
        let few = count_marks(&listed_places(erasures), self.word_length) <= checks;
        for c in 0..depth {
            let is_clean = if few {
                is_zero_word(values, depth, c, checks)
            } else {
                false
            };
            corrected[c] = u8::from(self.settle_word(words, depth, c, erasures, is_clean));
        }
    }
}
