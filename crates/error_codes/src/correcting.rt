// Correction of words of bytes, by the decoder over any field (`field_code::correcting`), and marks of their places.
ghost use Rattle.std.specs.Prelude.{◌≡◌, ◌+◌, ◌-◌, ◌*◌, ◌<◌, ◌≤◌, ◌&&◌, ℕ, List, length, slice_index};
ghost use Rattle.std.specs.Prelude.{false, not, nat_eq, IsOk, IfOk, OnOk, OnErr};
ghost use Rattle.field_slices.specs.Marks.{marked_below};
ghost use Rattle.reed_solomon.specs.ByteFields.{byte_times};
ghost use Rattle.error_codes.specs.Correcting.{IsMeant, is_listed};
ghost use Rattle.error_codes.specs.Filling.{is_marked};

use crate::code::CorrectingCode;
use crate::error::TooManyErrors;
use crate::field_code::FieldCode;
use crate::symbols::{narrow, widen};

/// What was corrected in a word.
#[derive(Clone, Copy, Debug, PartialEq, Eq)]
pub struct Corrected {
    /// How many symbols changed.
    pub count: usize,
    /// Whether the symbol at each place changed, and `false` behind the word.
    pub changed: [bool; 256],
}

// Marks the places that are listed, and no others. Those behind the marks are left out.
pub(crate) fn mark_listed(places: &[usize], marks: &mut [bool])
    ensures long { length marks.new ≡ length marks.old }
    ensures listed { (i : ℕ) → i < length marks.old → is_marked marks.new i ≡ is_listed places.now i }
{
    marks.fill(false);
    for place in places {
        if *place < marks.len() {
            marks[*place] = true;
        }
    }
}

// The places that are listed. Those from 256 on are left out.
pub(crate) fn listed_places(places: &[usize]) -> [bool; 256]
    ensures { (i : ℕ) → i < 256 → is_marked result i ≡ is_listed places.now i }
{
    let mut marks = [false; 256];
    mark_listed(places, &mut marks);
    marks
}

// How many of the first places are marked.
pub(crate) fn count_marks(marks: &[bool], count: usize) -> usize
    requires { count ≤ length marks.now }
    ensures { result ≡ marked_below (is_marked marks.now) count }
{
    let mut marked = 0;
    for i in 0..count {
        if marks[i] {
            marked += 1;
        }
    }
    marked
}

// How many of the first places have a first mark and no second.
pub(crate) fn count_others(marks: &[bool], left_out: &[bool], count: usize) -> usize
    requires marks { count ≤ length marks.now }
    requires left_out { count ≤ length left_out.now }
    ensures { result ≡ marked_below (λ i. not (is_marked left_out.now i) && is_marked marks.now i) count }
{
    let mut marked = 0;
    for i in 0..count {
        if !left_out[i] && marks[i] {
            marked += 1;
        }
    }
    marked
}

impl CorrectingCode {
    /// Corrects a word of `word_length` symbols in place, some of which may be wrong at places that are not known, and
    /// those at the `erasures` may be wrong too. Where a code word differs from it at t places that are not listed, and
    /// 2 t and the number of listed places of the word are together at most the number of symbols that are not data, the
    /// word becomes that code word; there is no other. Elsewhere the answer is the error, and the word stays as it was. A
    /// place that is listed more than once counts once, and one behind the word is ignored.
    pub fn correct(&self, word: &mut [u8], erasures: &[usize]) -> Result<Corrected, TooManyErrors>
        requires { length word.old ≡ self.now.word_length }
        ensures long { length word.new ≡ length word.old }
        ensures found { (sent : List ℕ) → IsMeant (byte_times self.now.field) self.now.root self.now.first_root
            self.now.word_length (self.now.word_length - self.now.dimension) word.old erasures.now sent
            → IsOk result × (word.new ≡ sent) }
        ensures right { OnOk result (IsMeant (byte_times self.now.field) self.now.root self.now.first_root
            self.now.word_length (self.now.word_length - self.now.dimension) word.old erasures.now word.new) }
        ensures kept { OnErr result (word.new ≡ word.old) }
        ensures within { IfOk result (λ corrected. (i : ℕ) → i < self.now.word_length
            → is_marked corrected.changed i ≡ not (nat_eq (slice_index word.old i) (slice_index word.new i))) }
        ensures behind { IfOk result (λ corrected. (i : ℕ) → self.now.word_length ≤ i
            → is_marked corrected.changed i ≡ false) }
        ensures count { IfOk result (λ corrected. corrected.count
            ≡ marked_below (is_marked corrected.changed) self.now.word_length) }
    {
        let mut symbols = [0; 255];
        let mut room = [0; 1783];
        let mut erased = [false; 255];
        let mut changed = [false; 256];
        let own = &mut symbols[..self.word_length];
        widen(word, own);
        let code = FieldCode {
            field: self.field,
            word_length: self.word_length,
            dimension: self.dimension,
            root: self.root as u16,
            first_root: self.first_root,
        };
        let count = code.correct(
            own,
            erasures,
            &mut room[..code.room()],
            &mut erased[..self.word_length],
            &mut changed[..self.word_length],
        )?;
        narrow(own, word);
        Ok(Corrected { count, changed })
    }
}
