// Words from the bytes of an iterator, the lowest first.
ghost use Rattle.std.specs.Prelude.{◌≡◌, ◌<◌, ◌^◌, IfSome};
ghost use Rattle.std.specs.Iterator.{MakesProgress};
ghost use Rattle.field_bytes.specs.Bytes.{IsWord, LeavesFewer, ReadsWord, TakesCounted};

use crate::little_endian::LittleEndian;

/// The word of the next bytes of an iterator, the lowest first, as many as a word has, or None where the iterator ends before. No
/// further byte is taken, so that the iterator need not end.
pub fn word_from_iter<R: LittleEndian, I: Iterator<Item = u8>>(mut iter: I) -> Option<R>
    requires { I.can_next iter }
    ensures { (rest : I) × ReadsWord I.can_next I.next_gives R.number R.SIZE iter result rest }
{
    word_from_iter_by_ref(&mut iter)
}

/// [`word_from_iter`] at an iterator that the caller keeps: what is left of it is what comes behind the bytes that were taken.
pub fn word_from_iter_by_ref<R: LittleEndian, I: Iterator<Item = u8>>(iter: &mut I) -> Option<R>
    requires { I.can_next iter.old }
    ensures { ReadsWord I.can_next I.next_gives R.number R.SIZE iter.old result iter.new }
{
    let (word, count) = take_word::<R, I>(iter);
    if count < R::SIZE { None } else { Some(word) }
}

/// The word of the next bytes of an iterator, the lowest first, as many as a word has, and how many there were. Where the
/// iterator ends before, the missing bytes are 0.
pub(crate) fn take_word<R: LittleEndian, I: Iterator<Item = u8>>(iter: &mut I) -> (R, usize)
    requires { I.can_next iter.old }
    ensures taken { TakesCounted I.next_gives R.SIZE (IsWord R.number result.0) iter.old result.1 iter.new }
    ensures goes_on { result.1 ≡ R.SIZE → I.can_next iter.new }
    ensures ends { LeavesFewer R.SIZE (I.remaining iter.old) result.1 (I.remaining iter.new) }
{
    let mut word = R::ZERO;
    for i in 0..R::SIZE {
        match next_byte(iter) {
            Some(byte) => word = word.with_byte(i, byte),
            None => return (word, i),
        }
    }
    (word, R::SIZE)
}

/// [`take_word`], compiled out of line, for a caller that seldom needs it.
#[cold]
#[inline(never)]
pub(crate) fn take_word_apart<R: LittleEndian, I: Iterator<Item = u8>>(iter: &mut I) -> (R, usize)
    requires { I.can_next iter.old }
    ensures taken { TakesCounted I.next_gives R.SIZE (IsWord R.number result.0) iter.old result.1 iter.new }
    ensures goes_on { result.1 ≡ R.SIZE → I.can_next iter.new }
    ensures ends { LeavesFewer R.SIZE (I.remaining iter.old) result.1 (I.remaining iter.new) }
{
    take_word(iter)
}

// The next byte of an iterator. A loop that calls `next` itself would have to know that the iterator ends.
#[inline]
fn next_byte<I: Iterator<Item = u8>>(iter: &mut I) -> Option<u8>
    requires { I.can_next iter.old }
    ensures steps { I.next_gives iter.old result iter.new }
    ensures goes { MakesProgress I.can_next I.remaining iter.old result iter.new }
    ensures fits { IfSome result (λ byte. byte < 2 ^ 8) }
{
    iter.next()
}
