// Searches for witnesses over SHA-256, outside vectors, and the texts of the errors.
use std::alloc::Global;
use std::fmt::Display;
use test_elements::is_text;
use transcript_elements::TranscriptError;
use transcripts::{ChallengerError, GrindError};

/// An initial state as eight bytes from the lowest, the least witness of eight bits at `BinaryField16`, and the element that is
/// sampled after it, by the Rust crate p3-binary-field 0.8.0. The states were drawn by splitmix64 from the seed 7.
pub(crate) static LEAST_WITNESSES: [(u64, u16, u16); 16] = [
    (0x63cb_e1e4_5932_0dd7, 0x022a, 0xf127),
    (0x044c_3cd7_f43c_661c, 0x0087, 0xede7),
    (0xe698_4080_bab1_2a02, 0x0133, 0x87a0),
    (0x953a_eb70_673e_29cb, 0x002d, 0x3c07),
    (0x73d3_3b66_6a1e_21da, 0x0119, 0xdebd),
    (0x3fda_be86_cbbe_aa11, 0x0034, 0x7d66),
    (0x77cb_c4a1_33c2_d0f6, 0x0042, 0x8732),
    (0x53fc_d651_3d02_befe, 0x015f, 0xe0c5),
    (0x225e_c07a_9950_6761, 0x0385, 0x36a6),
    (0x69c3_a276_8879_5369, 0x009f, 0x814b),
    (0x1a82_e79b_05b5_faeb, 0x016d, 0x4e48),
    (0xf5ba_4eb7_28dd_632c, 0x0143, 0x0849),
    (0xeb03_54df_4a45_b34e, 0x005d, 0xf26c),
    (0xdf0f_9924_a301_6430, 0x0108, 0x7ad7),
    (0xdd2f_9b2d_0b5f_15e6, 0x0122, 0x6277),
    (0x8c5c_906b_1aeb_85f8, 0x008a, 0xa993),
];

// Printed text: whether `{}` prints `text` of the error.
fn reads<E: Display>(alloc: Global, error: &E, text: &str) -> bool {
    is_text(format!(in alloc; "{error}"), text)
}

#[test]
fn errors_read_as_sentences(rt: HostRuntime) {
    let alloc = rt.alloc();
    let short = TranscriptError::Short {
        needed: 2,
        found: 1,
    };
    assert!(rt;
        reads(alloc, &GrindError::NoWitness, "no candidate passes")
            && reads(alloc, &GrindError::Memory, "out of memory")
            && reads(
                alloc,
                &GrindError::from(ChallengerError::Failed),
                "the challenger has failed"
            )
            && reads(alloc, &short, "an element has 2 bytes, and there are 1")
    );
}
