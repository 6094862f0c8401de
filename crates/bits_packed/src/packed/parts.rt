// Packed bits as narrower packed bits, as bytes and as words.
ghost use Rattle.std.specs.Prelude.{◌≡◌, ◌<◌, ◌*◌, ◌/◌, ◌%◌, ◌^◌, ◌++◌, IfOk, IsTrue, OnOk, map};
ghost use Rattle.std.specs.List.{flat_map};
ghost use Rattle.field_base.specs.Chunks.{chunk, chunks};
ghost use Rattle.packed_lanes.specs.Parts.{IsWithPart};

use crate::packed::PackedGf2;
use packed_lanes::{Divisible, Underlier, narrow_word};
use std::alloc::{AllocError, Allocator};

// Appends the bytes of packed bits.
#[inline]
fn push_bytes<U: Underlier, A: Allocator>(
    bytes: &mut Vec<u8, A>,
    packed: &PackedGf2<U>,
) -> Result<(), AllocError>
    ensures { OnOk result (bytes.new.items ≡ bytes.old.items ++ chunks 8 (U.BITS / 8) (U.number packed.now.bits)) }
{
    for i in 0..U::BITS / 8 {
        bytes.push(packed.byte(i))?;
    }
    Ok(())
}

impl<U: Underlier> PackedGf2<U> {
    /// Part `i` of the lanes as packed bits: its lane j is lane `V::BITS * i + j`. Requires `i` below the number of parts, `RATIO`
    /// of `Divisible`.
    #[inline]
    pub fn narrow<V: Underlier>(&self, i: usize) -> PackedGf2<V>
    where
        U: Divisible<V>,
        requires { i < U.RATIO }
        ensures { V.number result.bits ≡ chunk V.BITS i (U.number self.now.bits) }
    {
        PackedGf2 {
            bits: self.bits.part(i),
        }
    }

    /// Writes part `i` of the lanes and keeps the others. Requires `i` below the number of parts, `RATIO` of `Divisible`.
    #[inline]
    pub fn set_narrow<V: Underlier>(&mut self, i: usize, part: PackedGf2<V>)
    where
        U: Divisible<V>,
        requires { i < U.RATIO }
        ensures { IsWithPart V.BITS U.RATIO (U.number self.old.bits) i (V.number part.bits) (U.number self.new.bits) }
    {
        self.bits.set_part(i, part.bits);
    }

    /// The parts of each of `packed`, one after the other, in a vector from `alloc`. It fails only where the allocator refuses.
    pub fn narrow_copied<A: Allocator, V: Underlier>(
        alloc: A,
        packed: &[PackedGf2<U>],
    ) -> Result<Vec<PackedGf2<V>, A>, AllocError>
    where
        U: Divisible<V>,
        ensures { IfOk result (λ parts. map (λ x. V.number x.bits) parts.items
            ≡ flat_map (λ x. chunks V.BITS U.RATIO (U.number x.bits)) packed.now) }
    {
        let mut parts = Vec::new(alloc);
        for place in 0..packed.len() {
            let row = &packed[place];
            parts.reserve(<U as Divisible<V>>::RATIO)?;
            for i in 0..<U as Divisible<V>>::RATIO {
                parts.push_reserved(row.narrow(i));
            }
        }
        Ok(parts)
    }

    /// Byte `i`: its bit j is lane `8 * i + j`. Requires `i` below the number of bytes, `WIDTH / 8`.
    #[inline]
    pub fn byte(&self, i: usize) -> u8
        requires { i < U.BITS / 8 }
        ensures { result ≡ chunk 8 i (U.number self.now.bits) }
    {
        narrow_word(&self.bits, i)
    }

    /// The bytes of each of `packed`, one after the other, in a vector from `alloc`. It fails only where the allocator refuses.
    pub fn bytes_copied<A: Allocator>(
        alloc: A,
        packed: &[PackedGf2<U>],
    ) -> Result<Vec<u8, A>, AllocError>
        ensures { IfOk result (λ bytes. bytes.items ≡ flat_map (λ x. chunks 8 (U.BITS / 8) (U.number x.bits)) packed.now) }
    {
        let mut bytes = Vec::new(alloc);
        for place in 0..packed.len() {
            push_bytes(&mut bytes, &packed[place])?;
        }
        Ok(bytes)
    }

    /// The words, the lowest first: bit j of word i is lane `W * i + j`, for words of `W` bits.
    #[inline]
    pub fn words(&self) -> &[U::Word]
        ensures { map U.Word.number result.now ≡ chunks U.Word.BITS U.WORD_COUNT (U.number self.now.bits) }
    {
        self.bits.words()
    }

    /// Writes word `i` and keeps the lanes of the others. Requires `i` below `WORD_COUNT` of `Underlier`.
    #[inline]
    pub fn set_word(&mut self, i: usize, word: U::Word)
        requires { i < U.WORD_COUNT }
        ensures { IsWithPart U.Word.BITS U.WORD_COUNT (U.number self.old.bits) i (U.Word.number word) (U.number self.new.bits) }
    {
        self.bits.set_word(i, word);
    }
}
