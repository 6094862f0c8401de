// Soundness of protocols, for every prover, as contracts of functions that compute nothing: of tables of which columns are opened,
// whatever columns a prover has chosen. It passes on the laws of sum-checks.
ghost use Rattle.std.specs.Prelude.{◌*◌, ◌^◌, ◌<◌, ℕ};
ghost use Rattle.protocols.specs.CodeDistances.{CodeWordsHaveDistance, FewQuarterRateCheats, QuarterRateGap};
ghost use Rattle.protocols.specs.JointTables.{FewTablesCheat, OpenedTablesNeedLuck, TableVerdictsAgree, TablesAreBound};
ghost use Rattle.protocols.specs.OpenedTables.{OpenedRowsNeedLuck, OpenedValuesNeedLuck, TableIsOne};
ghost use Rattle.protocols.specs.RootColumns.{RootsHoldColumns};
ghost use Rattle.protocols.specs.SoundnessErrors.{FewRunsSave};

use field_base::traits::Field;
pub use sum_checks::laws::{
    false_claims_need_luck, false_zeros_need_luck, few_challenges_save, honest_reduces,
    lines_have_one_root, zero_check_evaluates, zero_needs_root, zeros_reduce,
};
use transcripts::openings::openings_bind;
use transcripts::{CanObserve, CanSample, CanSampleUniformBits, GrindingChallenger};

/// States that two code words of n symbols, of messages of 2^k, that differ at no more than n - 2^k places are the same.
pub fn code_words_have_distance()
    ensures { CodeWordsHaveDistance }
{}

/// States the lemma by triples of points in numbers for the rate 1/4: lines that are near the code within 93 of 256 columns for as many
/// values as 34 times the places are near it as a whole. For messages of 64 symbols or more.
pub fn quarter_rate_gap()
    ensures { QuarterRateGap }
{}

/// States in numbers, at the rate 1/4 and with one place in each block, for how many points and lists of numbers a prover that cheats is
/// accepted, at most; and that the share of lists that it allows is less than 2^-83 where there are 128 blocks.
pub fn few_quarter_rate_cheats()
    ensures cheats { FewQuarterRateCheats }
    ensures share { 163 ^ 128 * 2 ^ 83 < 256 ^ 128 }
{}

/// States the soundness error of sum-check: of all F^n lists of challenges, at most n d F^(n - 1) lead a false claim to a true one, by a
/// prover that sends each message by the challenges before it, where no term has more than d factors and the field has F elements.
pub fn few_runs_save()
    ensures { FewRunsSave }
{}

/// States soundness for every prover: a row that agrees with columns at places, whatever the columns are, has the values of the table to
/// which they commit, or a coordinate of the point is one of few, or the places are.
pub fn opened_rows_need_luck()
    ensures { OpenedRowsNeedLuck }
{}

/// States the same of the value at a whole point: what such a row has at the other coordinates is the value of the table to which the
/// columns commit, or a coordinate of the point is one of few, or the places are.
pub fn opened_values_need_luck()
    ensures { OpenedValuesNeedLuck }
{}

/// States the same of several tables that challenges combine: values whose combination such a row has at the other coordinates are those
/// of the tables to which the columns commit, or a challenge is the root of a line that is not 0; or a challenge or a coordinate of the point
/// is one of few, or the places are.
pub fn opened_tables_need_luck()
    ensures { OpenedTablesNeedLuck }
{
    opened_values_need_luck();
    zero_needs_root();
}

/// States what a root holds, whatever is opened under it: the columns of all openings that are accepted are those of one function, or two
/// of them have two inputs of the hash function that differ and have one digest.
pub fn roots_hold_columns()
    ensures { RootsHoldColumns }
{
    openings_bind();
}

/// States that columns commit to at most one table.
pub fn table_is_one()
    ensures { TableIsOne }
{}

/// States soundness of the commitment scheme for every prover: openings of the same roots that `joint_tables::verify_tables` accepts, any
/// number of them, in transcripts of any challenger and for every hash function whose digests have one length, each show their values of the
/// one table to which the columns of each root commit, or a challenge or a coordinate of the point is one of few, or the places are; or two of
/// them have two inputs of the hash function that differ and have one digest, under one of the roots. One root has no challenges.
pub fn tables_are_bound<
    F: Field,
    C: CanObserve<F> + CanSample<F> + GrindingChallenger<Witness = F> + CanSampleUniformBits<F>,
>()
    ensures { (size : ℕ) (vector : ℕ → ℕ)
        → TablesAreBound C.observes C.gives C.passing C.checks C.gives_bits F.repr size F.width F.product vector }
{
    opened_tables_need_luck();
    roots_hold_columns();
}

/// States completeness of the commitment scheme with what `joint_tables::open_tables` says: in transcripts of the same state, whatever the
/// challenger and the hash function are, the verdict on one opening is the same, and leads to the same state. So a verifier accepts what a
/// prover has opened, and may go on.
pub fn table_verdicts_agree<
    F: Field,
    C: CanObserve<F> + CanSample<F> + GrindingChallenger<Witness = F> + CanSampleUniformBits<F>,
>()
    ensures { (size : ℕ) (vector : ℕ → ℕ)
        → TableVerdictsAgree C.state C.observes C.gives C.passing C.checks C.gives_bits F.repr size F.width F.product vector }
{}

/// States the soundness error of an opening as a number of bits over every field of 2^128 elements: of all challenges that combine tables, of
/// which each is one coordinate more and of which one table has none, of all coordinates that combine rows and of all numbers of places, at
/// most one of 2^bits accepts a row that is not that of the tables to which the columns commit.
pub fn few_tables_cheat()
    ensures { FewTablesCheat }
{
    few_quarter_rate_cheats();
}
