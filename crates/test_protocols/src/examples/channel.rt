// A text through a channel that changes bytes, by the code of telemetry (CCSDS 131.0-B, section 4): words of 255 bytes, 223 of them
// text. A word comes back as it was sent wherever at most sixteen of its bytes changed; `CorrectingCode::correct` says so for every word.
use error_codes::{CorrectingCode, TooManyErrors};
use rand::rngs::SmallRng;
use rand::{RngExt, SeedableRng};
use std::alloc::{AllocError, Global};
use std::test::Fail;
use thiserror::Error;

/// Why a text did not arrive.
#[derive(Clone, Copy, Debug, Error)]
pub enum ChannelError {
    /// Memory was refused.
    #[error("memory was refused")]
    Memory(#[from] AllocError),
    /// More than sixteen bytes of a word are wrong.
    #[error("a word has too many wrong bytes")]
    Word(#[from] TooManyErrors),
}

/// The words that are sent for a text: 223 bytes of it in each, with zeros behind the last, and 32 that are computed.
fn words_of(alloc: Global, text: &[u8]) -> Result<Vec<u8>, AllocError> {
    let code = CorrectingCode::ccsds_223();
    let mut words = Vec::new(alloc);
    for data in text.chunks(223) {
        let mut word = [0; 255];
        for place in 0..223 {
            if let Some(byte) = data.get(place) {
                word[place] = *byte;
            }
        }
        code.encode(&mut word);
        words.extend_from_slice(&word)?;
    }
    Ok(words)
}

/// The text that came, with the zeros behind its end: each word corrected, and its first 223 bytes.
fn text_of(alloc: Global, words: &mut [u8]) -> Result<Vec<u8>, ChannelError> {
    let code = CorrectingCode::ccsds_223();
    let mut text = Vec::new(alloc);
    for word in words.chunks_exact_mut(255) {
        code.correct(word, &[])?;
        for byte in word.iter().take(223) {
            text.push(*byte).map_err(AllocError::from)?;
        }
    }
    Ok(text)
}

/// The channel: it adds a drawn byte to so many drawn bytes of each word.
fn disturb(words: &mut [u8], count: usize, rng: &mut SmallRng) {
    for word in words.chunks_exact_mut(255) {
        for _ in 0..count {
            let place = usize::from(rng.random::<u8>()) % 255;
            word[place] ^= rng.random::<u8>();
        }
    }
}

/// Whether a text of a thousand bytes arrives through a channel that adds to so many bytes of each word.
fn arrives(alloc: Global, count: usize) -> Result<bool, ChannelError> {
    let text = [b'A'; 1000];
    let mut words = words_of(alloc, &text)?;
    disturb(&mut words, count, &mut SmallRng::seed_from_u64(16));
    let received = text_of(alloc, &mut words)?;
    Ok(received.as_slice().starts_with(&text))
}

#[test]
fn a_text_arrives_or_is_refused(rt: HostRuntime) -> Result<(), Fail> {
    assert!(rt; arrives(rt.alloc(), 16)? && arrives(rt.alloc(), 60).is_err());
    Ok(())
}
