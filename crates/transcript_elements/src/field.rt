// Fields whose elements go into transcripts.
ghost use Rattle.std.specs.Prelude.{◌≡◌, ◌*◌, ◌++◌, ◌^◌, ◌<◌, ◌↔◌, Bool, cond, false, true, IfErr, IfOk, IsErr};
ghost use Rattle.std.specs.Prelude.{List, length, OnErr, OnOk, refl, ℕ, take, Ok};
ghost use Rattle.std.proofs.Common.{◌∙◌, lit<};
ghost use Rattle.field_base.proofs.TowerProducts.{tower_mul-low};
ghost use Rattle.field_base.specs.Tower.{tower_mul};
ghost use Rattle.transcripts.specs.GuardedAnswers.{GuardedAnswer};
ghost use Rattle.field_bytes.specs.BigEndian.{be_bytes};
ghost use Rattle.transcript_elements.specs.Seeds.{BeginsSeed, IsPrefixFree, ObservesSeed};
ghost use Rattle.transcript_elements.specs.Tags.{tag_of};
ghost use Rattle.transcript_elements.specs.lemmas.Tags.{poly64-two_squared, tower-two_squared};

use crate::byte_level::ByteLevel;
use crate::error::TranscriptError;
use crate::seeds::observe_padded;
use crate::tag::TypeTag;
use field_base::LevelKernel;
use field_bytes::{MOST_BYTES, ShortWord};
use field_element::{Element, HasPacking};
use many_words::Many;
use std::alloc::{AllocError, Allocator};
use transcripts::{CanObserve, ChallengerError};
use word_polynomial::Poly64Kernel;
use word_tower::{Bits8, Bits16, Bits32, Bits64, Bits128, Level, Tower};

/// A field whose elements are whole bytes. It encodes seeds as elements, and elements as bytes, the highest first, and has a tag for
/// each algebra over it.
pub trait TranscriptField: ByteLevel {
    // Whether the field is in a polynomial basis; if not, it is a level of the tower.
    ghost IN_POLYNOMIAL_BASIS: { Bool };

    /// The tag of an algebra over the field.
    fn algebra_tag(degree: usize, basis: [u8; 32]) -> TypeTag
        ensures { result ≡ tag_of IN_POLYNOMIAL_BASIS Self.width degree basis };

    ghost whole_law: { Self.width ≡ 8 * Self.NUM_BYTES };

    // Modulo a polynomial the square of x, the element 2, is x^2, and in the tower it is 3.
    ghost kind_law: { Self.product 2 2 ≡ cond IN_POLYNOMIAL_BASIS 4 3 };

    /// Observes a string of bytes: its length as eight bytes, the lowest first, and then the bytes; each is filled with zeros to
    /// whole elements, and an element's first byte is its lowest. This encoding of seeds is prefix-free. It fails if the transcript
    /// does; the elements before are then observed. On a transcript that has failed it changes nothing.
    final fn observe_seed<C: CanObserve<Self>>(
        challenger: &mut C,
        seed: &[u8],
    ) -> Result<(), ChallengerError>
        ensures ok { OnOk result (ObservesSeed Self.NUM_BYTES Self.repr C.observes seed.now challenger.old challenger.new) }
        ensures err { OnErr result (BeginsSeed Self.NUM_BYTES Self.repr C.observes C.may_leave seed.now challenger.old challenger.new) }
        ensures kept { C.has_failed challenger.old ≡ true → challenger.new ≡ challenger.old }
        ensures answer { GuardedAnswer (C.has_failed challenger.old) (C.has_failed challenger.new) (C.has_refused challenger.new) result }
        ensures apart { IsPrefixFree Self.NUM_BYTES Self.repr seed.now }
    {
        let header = (seed.len() as u64).to_le_bytes();
        if challenger.failed() {
            return Err(ChallengerError::Failed);
        }
        observe_padded::<Self, C>(challenger, &header)?;
        observe_padded::<Self, C>(challenger, seed)
    }

    /// Appends the bytes of the representation, the highest first. If memory is refused, `out` is unchanged.
    final fn encode<A: Allocator>(&self, out: &mut Vec<u8, A>) -> Result<(), AllocError>
        ensures ok { OnOk result (out.new.items ≡ out.old.items ++ be_bytes Self.NUM_BYTES (Self.repr self.now)) }
        ensures err { OnErr result (out.new.items ≡ out.old.items) }
    {
        let bytes = self.high_first();
        out.extend_from_slice(&bytes[MOST_BYTES - Self::NUM_BYTES..])
    }

    /// The element whose bytes, the highest first, are a prefix of `bytes`; the rest is ignored. It fails if there are fewer bytes
    /// than an element has.
    final fn decode(bytes: &[u8]) -> Result<Self, TranscriptError>
        ensures ok { IfOk result (λ x. be_bytes Self.NUM_BYTES (Self.repr x) ≡ take Self.NUM_BYTES bytes.now) }
        ensures encoded { (x : Self) (rest : List ℕ) → bytes.now ≡ be_bytes Self.NUM_BYTES (Self.repr x) ++ rest → result ≡ Ok x }
        ensures short { IsErr result ↔ (length bytes.now < Self.NUM_BYTES) }
        ensures err { IfErr result (λ error. error ≡ TranscriptError.Short Self.NUM_BYTES (length bytes.now)) }
    {
        if bytes.len() < Self::NUM_BYTES {
            return Err(TranscriptError::Short {
                needed: Self::NUM_BYTES,
                found: bytes.len(),
            });
        }
        Ok(Self::of_high_first(&bytes[..Self::NUM_BYTES]))
    }
}

/// A kernel of a field whose elements go into transcripts.
pub trait TranscriptKernel<R: ShortWord>: LevelKernel<R> + HasPacking<R> {
    /// Whether the field is in a polynomial basis; if not, it is a level of the tower.
    const IN_POLYNOMIAL_BASIS: bool;

    ghost IN_POLYNOMIAL_BASIS: { Bool };

    ghost whole_law: { Self.width ≡ R.bits };

    ghost kind_law: { Self.product 2 2 ≡ cond IN_POLYNOMIAL_BASIS 4 3 };
}

impl<R: ShortWord, K: TranscriptKernel<R>> TranscriptField for Element<R, K> {
    ghost IN_POLYNOMIAL_BASIS = { K.IN_POLYNOMIAL_BASIS };

    ghost whole_law = { K.whole_law ∙ R.size_law };

    ghost kind_law = { K.kind_law };

    fn algebra_tag(degree: usize, basis: [u8; 32]) -> TypeTag {
        if K::IN_POLYNOMIAL_BASIS {
            TypeTag::BinaryPoly {
                bits: K::bits(),
                degree,
                basis,
            }
        } else {
            TypeTag::BinaryTower {
                bits: K::bits(),
                degree,
                basis,
            }
        }
    }
}

/// A level of the tower whose elements have as many bits as their words.
pub trait WholeLevel<R: ShortWord>: Level<R> {
    ghost whole_law: { 2 ^ Self.LEVEL ≡ R.bits };

    ghost kind_law: { tower_mul Self.LEVEL 2 2 ≡ 3 };
}

impl WholeLevel<u8> for Bits8 {
    ghost whole_law = { refl };

    ghost kind_law = { tower_mul-low 2 1 2 2 (lit< tt) (lit< tt) ∙ tower-two_squared };
}

impl WholeLevel<u16> for Bits16 {
    ghost whole_law = { refl };

    ghost kind_law = { tower_mul-low 3 1 2 2 (lit< tt) (lit< tt) ∙ tower-two_squared };
}

impl WholeLevel<u32> for Bits32 {
    ghost whole_law = { refl };

    ghost kind_law = { tower_mul-low 4 1 2 2 (lit< tt) (lit< tt) ∙ tower-two_squared };
}

impl WholeLevel<u64> for Bits64 {
    ghost whole_law = { refl };

    ghost kind_law = { tower_mul-low 5 1 2 2 (lit< tt) (lit< tt) ∙ tower-two_squared };
}

impl WholeLevel<u128> for Bits128 {
    ghost whole_law = { refl };

    ghost kind_law = { tower_mul-low 6 1 2 2 (lit< tt) (lit< tt) ∙ tower-two_squared };
}

impl<R: ShortWord, L: WholeLevel<R>> TranscriptKernel<R> for Tower<L>
where
    Tower<L>: Many<R, R>,
{
    const IN_POLYNOMIAL_BASIS: bool = false;

    ghost IN_POLYNOMIAL_BASIS = { false };

    ghost whole_law = { L.whole_law };

    ghost kind_law = { L.kind_law };
}

impl TranscriptKernel<u64> for Poly64Kernel {
    const IN_POLYNOMIAL_BASIS: bool = true;

    ghost IN_POLYNOMIAL_BASIS = { true };

    ghost whole_law = { refl };

    ghost kind_law = { poly64-two_squared };
}
