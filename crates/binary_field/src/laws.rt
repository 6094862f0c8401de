//! Laws of the definitions, as contracts of functions that compute nothing.

// rings, fields and polynomials
pub use field_base::laws::{
    carryless_counts_pairs, carryless_is_product, codeword_exists, codeword_is_unique,
    fields_have_laws, frobenius_returns, lagrange_interpolates, levels_lie_inside,
    many_roots_mean_zero, mul_mod_is_ring, norms_and_conjugates, remainder_is_unique,
    roots_give_homomorphism, squarings_are_powers, tower_is_field, tower_is_ring,
};

// masked products
pub use word_carryless::{carry_isolation, carry_isolation_in_lanes, class_is_places};

// changes of basis, and linear maps
pub use word_tables::{images_give_linear_map, isomorphism_8, isomorphism_64, isomorphism_128};

// tables
pub use word_tables::{
    cantor_vectors_are_solutions, columns_give_maps, generators_have_full_order, tables_are_powers,
};

// the cubic extension
pub use word_polynomial::cubic_is_field;

// matrices over the bits of a byte
pub use field_space::{columns_are_transposed, zero_and_identity};

// packed bits
pub use bits_packed::transposing_twice_returns;

// transforms
pub use additive_transforms::{twiddles_lie_in_subfield, values_commute_with_images};
pub use ghash_slices::{
    butterflies_restore, cantor_vectors_step_down, points_are_distinct, stages_give_sums,
    sums_are_values,
};

// polynomials in many variables, and the sum-check protocol
pub use field_slices::{
    corner_values_extend, first_coordinate_is_linear, folding_evaluates, honest_is_accepted,
};

// universal hashes
pub use tags::{few_keys_collide, gcm_is_message, parts_are_encoded, products_are_reversed};

// Reed-Solomon codes
pub use reed_solomon::{added_shards_encode, changes_are_seen, erasure_field, lost_shards_return};

// transcripts
pub use transcript_elements::elements_join;
pub use transcripts::runs_join;

// lines of text and their answers
pub use calculator::{
    element_is_read_back, faults_in_order, inverse_and_root, lines_law, text_is_read_back,
    words_by_spaces,
};
