// Soundness of sums of products of two tables, for every prover, and completeness, as contracts of functions that compute nothing.
ghost use Rattle.prove_sums.specs.Completeness.{HonestSumsAreAccepted, WrittenProofsAreAccepted};
ghost use Rattle.prove_sums.specs.Soundness.{HasPoints, SumsAreProved, SumsNeedLuck, WordFilesShowSums};
ghost use Rattle.prove_sums.specs.SoundnessErrors.{ErrorsAreSmall, FewCheatsSucceed};

use field_element::Ghash128;
use protocols::extension::parts_determine;
use protocols::laws::{
    false_claims_need_luck, honest_reduces, lines_have_one_root, opened_tables_need_luck,
    roots_hold_columns,
};
use protocols::openings::openings_have_one_count;
use transcript_elements::{ByteLevel, FieldChallenger};
use transcripts::{ByteHasher32, CanSampleUniformBits, GrindingChallenger};

/// States what messages, values and a row show of columns, whatever these are: the columns commit to two tables whose products have the
/// sum, or a round is saved, or the challenge that combines the tables is one of few, or a coordinate of the point is, or the places are.
pub fn sums_need_luck()
    ensures { SumsNeedLuck }
{
    false_claims_need_luck();
    opened_tables_need_luck();
}

// States that the fields of proofs have points for code words.
fn field_has_points<F: ByteLevel>()
    ensures { HasPoints F.repr F.NUM_BYTES F.width F.product (λ i. F.basis (F.cantor i)) }
{}

/// States what proofs show that `verify` accepts for the same roots, any number of them, in transcripts of any challenger and for every
/// hash function whose digests have one length: for each root a function of columns has all that they open, and whatever such functions
/// are, each proof shows its sum of the tables to which these commit; or two of them have two inputs of the hash function that differ and
/// have one digest.
pub fn sums_are_proved<
    F: ByteLevel,
    C: FieldChallenger<F> + GrindingChallenger<Witness = F> + CanSampleUniformBits<F>,
>()
    ensures { SumsAreProved C.observes C.gives C.passing C.checks C.gives_bits C.number F.repr F.NUM_BYTES F.width F.product
        (λ i. F.basis (F.cantor i)) }
{
    field_has_points::<F>();
    roots_hold_columns();
    sums_need_luck();
}

/// States the same of files that the program accepts for the same roots, as `answer_to` does, by hashers whose digests have 32 bytes.
pub fn files_show_sums<H: ByteHasher32>()
    ensures { WordFilesShowSums H.digest }
{
    field_has_points::<Ghash128>();
    roots_hold_columns();
    sums_need_luck();
}

/// States completeness with what `proving::prove` says: on what it makes of two tables that are committed to, in transcripts of any
/// challenger and for every hash function, `verifying::verify` says true for both roots, where its transcript begins in the same state.
pub fn honest_sums_are_accepted<
    F: ByteLevel,
    C: FieldChallenger<F> + GrindingChallenger<Witness = F> + CanSampleUniformBits<F>,
>()
    ensures { HonestSumsAreAccepted C.state C.observes C.gives C.passing C.checks C.gives_bits C.number F.repr F.NUM_BYTES F.width F.product
        (λ i. F.basis (F.cantor i)) }
{
    field_has_points::<F>();
    honest_reduces();
    openings_have_one_count();
}

/// States completeness of the program, over bytes and digits: what `prove` writes for two tables `verify` accepts, for the digits of the
/// roots that `commit` prints of them, the same field and the same bits, and prints what `prove` printed.
pub fn written_proofs_are_accepted<H: ByteHasher32>()
    ensures { WrittenProofsAreAccepted H.digest }
{
    field_has_points::<Ghash128>();
    honest_reduces();
    openings_have_one_count();
    parts_determine();
}

/// States the soundness error of the interactive protocol over every field, as a count: of all lists of challenges and places, at most the
/// share max(2 n + 1, (h + 1) lucky) / F + (1 - (e + 1) / N)^q accepts a prover that cheats, whatever its columns, messages, values and rows
/// are.
pub fn few_cheats_succeed()
    ensures { FewCheatsSucceed }
{
    lines_have_one_root();
}

/// States it in numbers over the field of GHASH: of all runs for two tables of 2^n words, of which q places are opened, 2^7 or 2^8, at most
/// the share max(2 n + 1, 34 N (h + 1)) / 2^128 + (163 / 256)^q accepts a sum that is false, by N places and 2^h rows, and
/// (2 n + 1) / 2^128 where all places are opened.
pub fn errors_are_small()
    ensures { ErrorsAreSmall }
{
    field_has_points::<Ghash128>();
    lines_have_one_root();
}
