// Up to 32 words of a matrix encoded at once, a word in each lane: the shift register of the module `encoder`, each place of which has a row
// of 32 symbols. The coefficients of the generator polynomial are scalars of rows, whose products are looked up in registers by tables
// that are made once for all words.
ghost use Rattle.std.specs.Prelude.{◌≡◌, ◌⊎◌, ◌+◌, ◌-◌, ◌*◌, ◌<◌, ◌≤◌, ℕ, List, bit_xor, length, slice_index};
ghost use Rattle.std.specs.Simd.Lanes.{chunk, put_chunk};
ghost use Rattle.word_tables.specs.Nibbles.{entry_sum};
ghost use Rattle.reed_solomon.specs.ByteFields.{byte_times};
ghost use Rattle.error_codes.specs.Correcting.{HasRoots};
ghost use Rattle.error_codes.specs.Interleaved.{AreEncoded, HaveProducts, interleaved_word};

use crate::code::CorrectingCode;
use crate::dual_basis::bytes_fit;
use reed_solomon::byte_field::{ByteField, multiply};
use std::simd::prelude::*;
use word_tables::{ByteVector, entry_sums};

// How many words are encoded at once.
const LANES: usize = 32;

// Writes the 32 entries of a scalar.
fn write_table(field: ByteField, scalar: u8, tables: &mut [u8], start: usize)
    requires { start + 32 ≤ length tables.old }
    ensures long { length tables.new ≡ length tables.old }
    ensures low { (n : ℕ) → n < 16 → slice_index tables.new (start + n) ≡ byte_times field n scalar }
    ensures high { (n : ℕ) → n < 16 → slice_index tables.new (start + 16 + n) ≡ byte_times field (16 * n) scalar }
    ensures before { (p : ℕ) → p < start → slice_index tables.new p ≡ slice_index tables.old p }
{
    for n in 0..16 {
        let low = multiply(field, n as u8, scalar);
        let high = multiply(field, 16 * n as u8, scalar);
        tables[start + n] = low;
        tables[start + 16 + n] = high;
    }
}

// Writes the tables of the first scalars.
fn write_tables(field: ByteField, scalars: &[u8; 256], count: usize, tables: &mut [u8])
    requires few { count ≤ 256 }
    requires room { 32 * count ≤ length tables.old }
    ensures long { length tables.new ≡ length tables.old }
    ensures products { HaveProducts (byte_times field) scalars.now count tables.new }
{
    for j in 0..count {
        write_table(field, scalars[j], tables, 32 * j);
    }
}

// Writes a row.
#[inline(always)]
fn put_row(rows: &mut [u8], start: usize, row: u8x32)
    requires { start + 32 ≤ length rows.old }
    ensures { rows.new ≡ put_chunk start rows.old row }
{
    row.copy_to_slice(&mut rows[start..]);
}

// The row at a place, and the products of the factors by the scalar of that place.
#[inline(always)]
fn next_row(rests: &[u8], tables: &[u8], start: usize, factors: u8x32) -> u8x32
    requires rests { start + 32 ≤ length rests.now }
    requires tables { start + 32 ≤ length tables.now }
    ensures long { length result ≡ 32 }
    ensures sums { (lane : ℕ) → lane < 32 → slice_index result lane ≡ bit_xor (slice_index rests.now (start + lane))
        (entry_sum (chunk start 16 tables.now) (chunk (start + 16) 16 tables.now) (slice_index factors lane)) }
{
    let low = u8x16::from_slice(&tables[start..]);
    let high = u8x16::from_slice(&tables[start + 16..]);
    u8x32::from_slice(&rests[start..]).sum(entry_sums(low, high, factors))
}

// The rests of division by the generator polynomial, a symbol of data further in each lane: as `shift_rest` of the module `encoder`.
fn shift_rests(rests: &mut [u8], count: usize, tables: &[u8], symbols: u8x32)
    requires few { count < 255 }
    requires rests { 32 * count + 32 ≤ length rests.old }
    requires tables { 32 * count + 32 ≤ length tables.now }
    ensures long { length rests.new ≡ length rests.old }
    ensures shifted { (field : ByteField) (scalars : List ℕ) → HaveProducts (byte_times field) scalars (count + 1) tables.now
        → (j lane : ℕ) → j < count → lane < 32
        → slice_index rests.new (32 * j + lane) ≡ bit_xor (slice_index rests.old (32 * (j + 1) + lane))
        (byte_times field (bit_xor (slice_index symbols lane) (slice_index rests.old lane)) (slice_index scalars (j + 1))) }
    ensures others { (p : ℕ) → 32 * count ≤ p → slice_index rests.new p ≡ slice_index rests.old p }
{
    bytes_fit(rests);
    let factors = symbols.sum(u8x32::from_slice(rests));
    for j in 0..count {
        let row = next_row(rests, tables, 32 * (j + 1), factors);
        put_row(rests, 32 * j, row);
    }
}

// A row of so many symbols, in the first lanes.
#[inline]
fn read_row(words: &[u8], start: usize, width: usize) -> u8x32
    requires inside { start + width ≤ length words.now }
    requires few { width ≤ 32 }
    ensures { (lane : ℕ) → lane < width → slice_index result lane ≡ slice_index words.now (start + lane) }
{
    if width == LANES {
        return u8x32::from_slice(&words[start..]);
    }
    let mut row = [0; 32];
    row[..width].copy_from_slice(&words[start..start + width]);
    u8x32::from_array(row)
}

// Writes symbols over those from a place on.
#[inline]
fn write_row(words: &mut [u8], start: usize, row: &[u8])
    requires { start + length row.now ≤ length words.old }
    ensures long { length words.new ≡ length words.old }
    ensures written { (k : ℕ) → k < length row.now → slice_index words.new (start + k) ≡ slice_index row.now k }
    ensures others { (p : ℕ) → (p < start) ⊎ (start + length row.now ≤ p) → slice_index words.new p ≡ slice_index words.old p }
{
    words[start..start + row.len()].copy_from_slice(row);
}

// How many words there are from word `first` on, and at most as many as are encoded at once.
fn width_from(depth: usize, first: usize) -> usize
    requires { first ≤ depth }
    ensures few { result ≤ 32 }
    ensures inside { first + result ≤ depth }
    ensures all { result < 32 → first + result ≡ depth }
{
    if depth - first < LANES {
        depth - first
    } else {
        LANES
    }
}

impl CorrectingCode {
    // Encodes the words from word `first` on, by the tables of the generator polynomial.
    fn encode_columns(
        &self,
        words: &mut [u8],
        depth: usize,
        first: usize,
        width: usize,
        tables: &[u8; 8192],
    )
        requires whole { length words.old ≡ self.now.word_length * depth }
        requires inside { first + width ≤ depth }
        requires few { width ≤ 32 }
        requires tables { HaveProducts (byte_times self.now.field) self.now.generator
            (self.now.word_length - self.now.dimension + 1) tables.now }
        ensures long { length words.new ≡ length words.old }
        ensures kept { (c i : ℕ) → c < depth → i < self.now.dimension
            → slice_index words.new (i * depth + c) ≡ slice_index words.old (i * depth + c) }
        ensures encoded { (c : ℕ) → c < width → HasRoots (byte_times self.now.field) self.now.root self.now.first_root
            (self.now.word_length - self.now.dimension) (interleaved_word self.now.word_length depth words.new (first + c)) }
        ensures others { (c i : ℕ) → c < depth → (c < first) ⊎ (first + width ≤ c)
            → slice_index words.new (i * depth + c) ≡ slice_index words.old (i * depth + c) }
    {
        let checks = self.word_length - self.dimension;
        let mut rests = [0; 8192];
        for i in 0..self.dimension {
            let symbols = read_row(words, i * depth + first, width);
            shift_rests(&mut rests, checks, tables, symbols);
        }
        for j in 0..checks {
            let start = (self.dimension + j) * depth + first;
            write_row(words, start, &rests[32 * j..32 * j + width]);
        }
    }

    // Encodes all words.
    #[inline(never)]
    pub(crate) fn encode_lanes(&self, words: &mut [u8], depth: usize)
        requires { length words.old ≡ self.now.word_length * depth }
        ensures long { length words.new ≡ length words.old }
        ensures encoded { AreEncoded (byte_times self.now.field) self.now.root self.now.first_root self.now.word_length
            (self.now.word_length - self.now.dimension) depth self.now.dimension words.old words.new }
    {
        let mut tables = [0; 8192];
        let count = self.word_length - self.dimension + 1;
        write_tables(self.field, &self.generator, count, &mut tables);
        let mut first = 0;
        while first < depth {
            let width = width_from(depth, first);
            self.encode_columns(words, depth, first, width, &tables);
            first += width;
        }
    }
}
