// Openings of values of tables of small elements, of which the packed table is committed to.
ghost use Rattle.std.specs.Prelude.{◌≡◌, ◌+◌, ◌*◌, ◌^◌, ◌≤◌, ◌∷◌, ◌++◌, [], List, false, length, map, slice_index};
ghost use Rattle.std.specs.Prelude.{◌↔◌, IfErr, IfOk, IsTrue, OnOk};
ghost use Rattle.field_slices.specs.Multilinear.{multilinear_value};
ghost use Rattle.transcripts.specs.Grinding.{MayGrind};
ghost use Rattle.sum_checks.specs.declared.error.ProtocolError.TheVariants.{Memory};
ghost use Rattle.protocols.specs.CommitmentScheme.{StopsOpening, matrix_rows, row_levels, word_levels};
ghost use Rattle.protocols.specs.JointTables.{VerifiesTables, sent_tables};
ghost use Rattle.small_tables.specs.SmallOpenings.{IsHonestSmall, IsPointDrawn, VerifiesSmall};
ghost use Rattle.small_tables.specs.SmallTables.{mixed_weights, point_scalars};

use crate::small_field::SmallField;
use field_base::traits::Field;
use field_bytes::ShortElement;
use field_slices::{eq_poly, evaluate_multilinear};
use protocols::commitment_scheme::Parameters;
use protocols::joint_tables::{OpenedTables, open_tables, verify_tables};
use protocols::product_sums::{prove_sum, reduce_sum};
use protocols::tables::TableColumns;
use std::alloc::{AllocError, Allocator};
use sum_checks::ProtocolError;
use sum_checks::sumcheck::Reduced;
use transcripts::merkle_paths::power_of_two;
use transcripts::{
    ByteHasher32, CanObserve, CanSample, CanSampleUniformBits, GrindingChallenger, both,
};

/// What a prover sends of a value of a table of small elements.
#[derive(Drop)]
pub struct OpenedSmall<F: Field, A: Allocator> {
    /// The value.
    pub value: F,
    /// Its parts: the values at the first coordinates of the polynomials of each place in a packed element.
    pub parts: Vec<F, A>,
    /// The messages of the sum-check, one after the other.
    pub messages: Vec<F, A>,
    /// The opening of the packed table, alone, where the sum-check ends.
    pub packed: OpenedTables<F, A>,
}

// What is observed of a value: the point, the value, and its parts.
fn sent_elements<F: Field, A: Allocator>(
    alloc: A,
    point: &[F],
    value: F,
    parts: &[F],
) -> Result<Vec<F, A>, AllocError>
    ensures { IfOk result (λ sent. sent.items ≡ point.now ++ value ∷ parts.now) }
{
    let mut sent = Vec::from_slice(alloc, point)?;
    sent.push(value)?;
    sent.extend_from_slice(parts)?;
    Ok(sent)
}

// Observes the point, the value and its parts, samples a point of `levels` coordinates, and returns its scalars.
fn draw_scalars<F: Field, C: CanObserve<F> + CanSample<F>, A: Allocator + Copy>(
    alloc: A,
    challenger: &mut C,
    levels: usize,
    point: &[F],
    value: F,
    parts: &[F],
) -> Result<Vec<F, A>, ProtocolError>
    requires { levels ≤ 7 }
    ensures drawn { IfOk result (λ scalars. (mix : List F) × IsPointDrawn C.observes C.gives challenger.old
        (point.now ++ value ∷ parts.now) levels mix challenger.new
        × (map F.repr scalars.items ≡ point_scalars F.product (map F.repr mix))) }
    ensures count { IfOk result (λ scalars. length scalars.items ≡ 2 ^ levels) }
    ensures goes_on { OnOk result (C.has_failed challenger.new ≡ false) }
    ensures memory { C.has_failed challenger.old ≡ false → IfErr result (λ error. error ≡ Memory) }
{
    let sent = sent_elements(alloc, point, value, parts)?;
    challenger.observe_slice(sent.as_slice())?;
    let mix = challenger.sample_vec(alloc, levels)?;
    let scalars = eq_poly(alloc, mix.as_slice())?;
    Ok(scalars)
}

/// Opens the value at a point of the table of small elements that a table packs, to which `commitment_scheme::commit` has committed with
/// these sizes, over a field of at least 2^26 elements. The point has as many coordinates as the packed table has, and `levels` more for
/// the place in a packed element. The point, the value and its parts are observed and a point is sampled that mixes the parts; a sum-check
/// leads to one value of the packed table, which is opened. A verifier in a transcript of the same state accepts what is sent
/// (`laws::small_verdicts_agree`). It fails as `joint_tables::open_tables` does.
pub fn open_small<
    F: ShortElement,
    C: CanObserve<F> + CanSample<F> + GrindingChallenger<Witness = F> + CanSampleUniformBits<F>,
    A: Allocator + Copy,
>(
    alloc: A,
    challenger: &mut C,
    parameters: &Parameters,
    small: &SmallField<F>,
    held: &TableColumns<F, A>,
    table: &[F],
    point: &[F],
) -> Result<OpenedSmall<F, A>, ProtocolError>
    requires work { MayGrind C.witness_bits 16 }
    requires points { 26 ≤ F.width }
    requires coordinates { length point.now ≡ parameters.now.variables + small.now.levels }
    requires table { length table.now ≡ 2 ^ parameters.now.variables }
    requires depth { held.now.tree.depth ≡ word_levels parameters.now.queries parameters.now.variables }
    requires count { length held.now.columns.items ≡ 2 ^ 2 * 2 ^ row_levels parameters.now.queries parameters.now.variables
        * 2 ^ matrix_rows parameters.now.queries parameters.now.variables }
    ensures honest { IfOk result (λ opened. IsHonestSmall C.observes C.gives C.passing C.checks C.gives_bits F.repr F.NUM_BYTES F.width
        F.product (λ i. F.basis (F.cantor i)) parameters.now.queries parameters.now.variables small.now.width small.now.levels table.now
        held.now.columns.items held.now.tree point.now opened.value (record {
          parts = opened.parts.items;
          messages = opened.messages.items;
          packed = sent_tables opened.packed.values.items opened.packed.row.items (C.number opened.packed.witness)
              (map (λ list. list.items) opened.packed.columns.items) (map (λ list. list.items) opened.packed.nodes.items);
        }) challenger.old) }
    ensures error { C.has_failed challenger.old ≡ false → IfErr result (StopsOpening C.passing C.witness_bits) }
{
    let (first, last) = point.split_at(parameters.variables);
    let corners = eq_poly(alloc, first)?;
    let corners = corners.as_slice();
    let parts = small.parts(alloc, table, corners)?;
    let sent = parts.as_slice();
    let value = evaluate_multilinear(sent, last);
    let scalars = draw_scalars(alloc, challenger, small.levels, point, value, sent)?;
    let weights = small.images(alloc, scalars.as_slice(), corners)?;
    let weights = weights.as_slice();
    let summed = prove_sum(alloc, challenger, weights, table, parameters.variables)?;
    let tables = [held];
    let packed = open_tables(
        alloc,
        challenger,
        parameters,
        &tables,
        summed.point.as_slice(),
    )?;
    Ok(OpenedSmall {
        value,
        parts,
        messages: summed.messages,
        packed,
    })
}

// Whether what the sum-check leaves is the weights' value at its point times a value.
fn claim_holds<F: ShortElement, A: Allocator + Copy>(
    alloc: A,
    small: &SmallField<F>,
    scalars: &[F],
    first: &[F],
    reduced: &Reduced<F, A>,
    value: F,
) -> Result<bool, AllocError>
    requires count { length scalars.now ≡ 2 ^ small.now.levels }
    requires coordinates { length reduced.now.point.items ≡ length first.now }
    ensures { IfOk result (λ holds. IsTrue holds ↔ (F.repr reduced.now.claim ≡ F.product (multilinear_value F.product
        (mixed_weights F.product small.now.width (map F.repr scalars.now) (map F.repr first.now)) (map F.repr reduced.now.point.items))
        (F.repr value))) }
{
    let weight = small.weights_value(alloc, scalars, first, reduced.point.as_slice())?;
    Ok(reduced.claim == weight * value)
}

// The first value of these, and zero where there is none.
fn first_value<F: Field>(values: &[F]) -> F
    ensures { F.repr result ≡ slice_index (map F.repr values.now) 0 }
{
    if values.is_empty() {
        return F::ZERO;
    }
    values[0]
}

// Whether the packed table is opened where the sum-check ends.
fn opens_packed<
    F: ShortElement,
    H: ByteHasher32,
    C: CanObserve<F> + CanSample<F> + GrindingChallenger<Witness = F> + CanSampleUniformBits<F>,
    A: Allocator + Copy,
    B: Allocator,
>(
    alloc: A,
    hasher: &H,
    challenger: &mut C,
    parameters: &Parameters,
    root: [u8; 32],
    reduced: &Reduced<F, A>,
    packed: &OpenedTables<F, B>,
) -> Result<bool, ProtocolError>
    requires points { 26 ≤ F.width }
    requires coordinates { length reduced.now.point.items ≡ parameters.now.variables }
    ensures verdict { IfOk result (λ accepted. VerifiesTables C.observes C.gives C.passing C.checks C.gives_bits F.repr (H.digest hasher.now)
        F.NUM_BYTES F.width F.product (λ i. F.basis (F.cantor i)) parameters.now.queries parameters.now.variables (root ∷ [])
        reduced.now.point.items (sent_tables packed.now.values.items packed.now.row.items (C.number packed.now.witness)
        (map (λ list. list.items) packed.now.columns.items) (map (λ list. list.items) packed.now.nodes.items)) challenger.old accepted
        challenger.new) }
    ensures memory { C.has_failed challenger.old ≡ false → IfErr result (λ error. error ≡ Memory) }
{
    let point = reduced.point.as_slice();
    let roots = [root];
    verify_tables(alloc, hasher, challenger, parameters, &roots, point, packed)
}

/// Whether the table of small elements that a committed table packs, over a field of at least 2^26 elements, has a value at a point, as far
/// as an opening says: what `open_small` observes and samples is observed and sampled, the parts have the value, and the opening of the
/// packed table has what the sum-check leaves. What may be lucky where it accepts, `laws::small_values_are_bound` says. It fails with
/// `Length` if the parts are not 2^levels or the messages not two values for each coordinate of the packed table, and else, in a transcript
/// that has not failed, only if memory was refused.
pub fn verify_small<
    F: ShortElement,
    H: ByteHasher32,
    C: CanObserve<F> + CanSample<F> + GrindingChallenger<Witness = F> + CanSampleUniformBits<F>,
    A: Allocator + Copy,
    B: Allocator,
>(
    alloc: A,
    hasher: &H,
    challenger: &mut C,
    parameters: &Parameters,
    small: &SmallField<F>,
    root: [u8; 32],
    point: &[F],
    opened: &OpenedSmall<F, B>,
) -> Result<bool, ProtocolError>
    requires points { 26 ≤ F.width }
    requires coordinates { length point.now ≡ parameters.now.variables + small.now.levels }
    ensures verdict { IfOk result (λ accepted. VerifiesSmall C.observes C.gives C.passing C.checks C.gives_bits F.repr (H.digest hasher.now)
        F.NUM_BYTES F.width F.product (λ i. F.basis (F.cantor i)) parameters.now.queries parameters.now.variables small.now.width
        small.now.levels root point.now opened.now.value (record {
          parts = opened.now.parts.items;
          messages = opened.now.messages.items;
          packed = sent_tables opened.now.packed.values.items opened.now.packed.row.items (C.number opened.now.packed.witness)
              (map (λ list. list.items) opened.now.packed.columns.items) (map (λ list. list.items) opened.now.packed.nodes.items);
        })
        challenger.old accepted) }
    ensures memory { C.has_failed challenger.old ≡ false → length opened.now.parts.items ≡ 2 ^ small.now.levels
        → length opened.now.messages.items ≡ 2 * parameters.now.variables → IfErr result (λ error. error ≡ Memory) }
{
    let parts = opened.parts.as_slice();
    if parts.len() != power_of_two(small.levels) {
        return Err(ProtocolError::Length);
    }
    let (first, last) = point.split_at(parameters.variables);
    let value = opened.value;
    let scalars = draw_scalars(alloc, challenger, small.levels, point, value, parts)?;
    let scalars = scalars.as_slice();
    let sum = small.mixed_sum(scalars, parts);
    let messages = opened.messages.as_slice();
    let reduced = reduce_sum(alloc, challenger, parameters.variables, sum, messages)?;
    let packed = &opened.packed;
    let opens = opens_packed(
        alloc, hasher, challenger, parameters, root, &reduced, packed,
    )?;
    let left = first_value(packed.values.as_slice());
    let holds = claim_holds(alloc, small, scalars, first, &reduced, left)?;
    let adds = value == evaluate_multilinear(parts, last);
    Ok(both(opens, both(adds, holds)))
}
