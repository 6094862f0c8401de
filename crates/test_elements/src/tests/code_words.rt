// Words of telemetry in the dual basis, which no other language has, as libfec writes them. What codes compute the contracts say, and published
// words of other codes stand in the tests of the C library.
use error_codes::{CorrectingCode, from_dual_basis, to_dual_basis};

// The last symbols of the word with the data 7 i + 3 for i = 0, 1, .., modulo 256, by `encode_rs_ccsds` of libfec 1.0.
static SENT_CHECKS: [u8; 32] = [
    0x0c, 0x29, 0xd5, 0x65, 0xdd, 0x7f, 0xb9, 0x65, 0x4b, 0xa2, 0x32, 0x07, 0xf8, 0xd9, 0x96, 0x2e,
    0x04, 0x69, 0x97, 0x84, 0xe7, 0xe2, 0x8d, 0x63, 0xc0, 0x17, 0xba, 0xd5, 0x4b, 0x58, 0x2b, 0xc4,
];

#[test]
fn a_word_is_sent_in_the_dual_basis(rt: HostRuntime) {
    let mut word = [0; 255];
    for i in 0..223usize {
        word[i] = ((7 * i + 3) % 256) as u8;
    }
    from_dual_basis(&mut word);
    CorrectingCode::ccsds_223().encode(&mut word);
    to_dual_basis(&mut word);
    assert!(rt; word.get(223..) == Some(SENT_CHECKS.as_slice()));
}
