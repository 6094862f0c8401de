// The hash of AES-GCM-SIV on the examples of RFC 8452, appendix C.1, with plaintexts of 8, 12, 32 and 64 bytes. Those of GHASH and of
// POLYVAL are worked in the tests of the C library, which does not have this one.
use tags::gcm_siv_polyval;

// The record authentication key of the examples.
const RECORD_KEY: u128 = 0xd9b3_6027_9694_941a_c5db_c698_7ada_7377;

// The bytes of the plaintexts, and their hashes. Each block of a plaintext begins with its number.
static EXAMPLES: [(usize, u128); 4] = [
    (8, 0xeb93_b774_0962_c5e4_9d2a_90a7_dc5c_ec74),
    (12, 0x48eb_6c6c_5a2d_be4a_1dde_508f_ee06_361b),
    (32, 0xce6e_dc9a_50b3_6d9a_9898_6bbf_6a26_1c3b),
    (64, 0x1e39_b6d3_344d_348f_6044_f899_35d1_cf78),
];

// Whether the hash of the first bytes of the plaintext, without associated data, is this.
fn text_is(length: usize, wanted: u128) -> bool {
    let mut text = [0; 64];
    text[0] = 1;
    text[16] = 2;
    text[32] = 3;
    text[48] = 4;
    if length > 64 {
        return false;
    }
    gcm_siv_polyval(&RECORD_KEY.to_be_bytes(), &[], &text[..length]) == wanted.to_be_bytes()
}

#[test]
fn the_examples_of_the_standard(rt: HostRuntime) {
    for (length, wanted) in &EXAMPLES {
        assert!(rt; text_is(*length, *wanted), "{length} bytes");
    }
}
