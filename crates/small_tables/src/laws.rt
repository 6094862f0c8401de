// Laws of tables of small elements and of openings of their values, for every prover, as contracts of functions that compute nothing.
ghost use Rattle.std.specs.Prelude.{ℕ};
ghost use Rattle.small_tables.specs.SmallOpenings.{SmallValuesAreBound, SmallVerdictsAgree};
ghost use Rattle.small_tables.specs.SmallTables.{FalsePartsNeedRoot, MixedSumsAreParts, SmallValuesAreWeighted};

use field_base::traits::Field;
use protocols::laws::{opened_values_need_luck, tables_are_bound};
use protocols::tables::column_values_evaluate;
use sum_checks::laws::{false_claims_need_luck, zero_needs_root};
use transcripts::{CanObserve, CanSample, CanSampleUniformBits, GrindingChallenger};

/// States that the value of a table of small elements is that of its parts at the last coordinates.
pub fn small_values_are_weighted()
    ensures { SmallValuesAreWeighted }
{
    column_values_evaluate();
}

/// States that the mixed sum of parts is the sum over the corners of the weights' images times the packed elements.
pub fn mixed_sums_are_parts()
    ensures { MixedSumsAreParts }
{}

/// States that other parts have another mixed sum, or a coordinate of the point that mixes them is the root of a line that is not 0. A line
/// has one root at most (`laws::lines_have_one_root`), so that of each coordinate one value at most is lucky.
pub fn false_parts_need_root()
    ensures { FalsePartsNeedRoot }
{
    zero_needs_root();
}

/// States soundness of openings of tables of small elements for every prover: openings of one root that `verify_small` accepts,
/// any number of them, in transcripts of any challenger and for every hash function whose digests have one length, each show their value of
/// the small elements that the one table packs to which the root's columns commit; or a coordinate of the point that mixes the parts is the
/// root of a line that is not 0, or a challenge of the sum-check saves its claim, or the coordinates where it ends, or the places, are few
/// that are lucky; or two openings have two inputs of the hash function that differ and have one digest.
pub fn small_values_are_bound<
    F: Field,
    C: CanObserve<F> + CanSample<F> + GrindingChallenger<Witness = F> + CanSampleUniformBits<F>,
>()
    ensures { (size : ℕ) (vector : ℕ → ℕ)
        → SmallValuesAreBound C.observes C.gives C.passing C.checks C.gives_bits F.repr size F.width F.product vector }
{
    small_values_are_weighted();
    mixed_sums_are_parts();
    false_parts_need_root();
    false_claims_need_luck();
    opened_values_need_luck();
    tables_are_bound::<F, C>();
}

/// States completeness of openings of tables of small elements with what `open_small` says: in transcripts of the same state
/// the verdict on one opening is the same. So a verifier accepts what a prover has opened.
pub fn small_verdicts_agree<
    F: Field,
    C: CanObserve<F> + CanSample<F> + GrindingChallenger<Witness = F> + CanSampleUniformBits<F>,
>()
    ensures { (size : ℕ) (vector : ℕ → ℕ)
        → SmallVerdictsAgree C.state C.observes C.gives C.passing C.checks C.gives_bits F.repr size F.width F.product vector }
{}
