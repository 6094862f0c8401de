// A share as a line of text: `share-1-`, and its record and the first 8 bytes of the SHA-256 of the record in hexadecimal. A record is
// the number of the field, how many shares are needed, the index, 8 bytes of the set, and the share.
ghost use Rattle.std.specs.Prelude.{◌≡◌, ◌≢◌, ◌⊎◌, ◌↔◌, ◌++◌, ℕ, List, [], ◌∷◌, codes, string_bytes, IfErr, IfOk, IsTrue, OnOk};
ghost use Rattle.hex.specs.declared.error.FromHexError.TheVariants.{OutOfMemory};
ghost use Rattle.secret.specs.Records.{check_sum, line_of, number_of, record_of, IsEnd, SaysRecord};
ghost use Rattle.secret.specs.declared.lines.LineFault.TheVariants.{Memory};

use error_codes::ByteField;
use hex::FromHexError;
use sha2::{Digest, Sha256};
use std::alloc::{AllocError, Global};

/// What a line begins with: the format and its version.
const NAME: &str = "share-1-";

/// How many bytes of a record stand before the share.
pub(crate) const HEAD: usize = 11;

// How many bytes of the SHA-256 are written.
const SUM: usize = 8;

/// Why a line says no share.
#[derive(Clone, Copy)]
pub(crate) enum LineFault {
    /// It does not begin as one does, or is too short.
    NoShare,
    /// The digits or the sum are wrong.
    Mistyped,
    /// Memory was refused.
    Memory,
}

/// The low byte of the modulus of a field, by which a record names it.
pub(crate) fn number_of(field: ByteField) -> u8
    ensures { result ≡ number_of field }
{
    match field {
        ByteField::Rijndael => 0x1b,
        ByteField::Qr => 0x1d,
        ByteField::Ccsds => 0x87,
    }
}

/// The record of a share.
pub(crate) fn record_of(
    alloc: Global,
    field: ByteField,
    needed: u8,
    index: u8,
    identity: &[u8; 8],
    share: &[u8],
) -> Result<Vec<u8>, AllocError>
    ensures { IfOk result (λ entry. entry.items ≡ record_of field needed index identity.now share.now) }
{
    let mut entry = Vec::from_slice(alloc, &[number_of(field), needed, index])?;
    entry.extend_from_slice(identity)?;
    entry.extend_from_slice(share)?;
    Ok(entry)
}

/// Puts the line of a record, and a line feed, behind a text.
pub(crate) fn push_line(alloc: Global, text: &mut String, entry: &[u8]) -> Result<(), AllocError>
    ensures { OnOk result (string_bytes text.new ≡ string_bytes text.old ++ (line_of entry.now ++ 10 ∷ [])) }
{
    let sum = Sha256::digest(entry);
    let mut bytes = Vec::from_slice(alloc, entry)?;
    bytes.extend_from_slice(&sum[..SUM])?;
    let digits = hex::encode(alloc, bytes.as_slice())?;
    text.push_str(NAME)?;
    text.push_str(digits.as_str())?;
    text.push_str("\n")
}

// Whether bytes are the name that a line begins with.
fn has_name(bytes: &[u8]) -> bool
    ensures { IsTrue result ↔ (bytes.now ≡ codes "share-1-") }
{
    bytes == NAME.as_bytes()
}

// Whether a sum is that of a record.
fn has_sum(entry: &[u8], sum: &[u8]) -> bool
    ensures { IsTrue result ↔ (sum.now ≡ check_sum entry.now) }
{
    let digest = Sha256::digest(entry);
    sum == &digest[..SUM]
}

// Why digits are not decoded.
fn fault_of(error: FromHexError) -> LineFault
    ensures { (result ≡ Memory) ↔ (error ≡ OutOfMemory) }
{
    if error == FromHexError::OutOfMemory {
        LineFault::Memory
    } else {
        LineFault::Mistyped
    }
}

/// The record that a line says.
pub(crate) fn read_record(alloc: Global, line: &[u8]) -> Result<Vec<u8>, LineFault>
    ensures said { IfOk result (λ entry. SaysRecord line.now entry.items) }
    ensures refused { IfErr result (λ fault. fault ≢ Memory → (entry : List ℕ) → SaysRecord line.now entry → ⊥) }
{
    if line.len() < 8 {
        return Err(LineFault::NoShare);
    }
    let parts = line.split_at(8);
    let is_named = has_name(parts.0);
    if !is_named {
        return Err(LineFault::NoShare);
    }
    let mut entry = match hex::decode(alloc, parts.1) {
        Ok(bytes) => bytes,
        Err(error) => return Err(fault_of(error)),
    };
    let end = end_of(entry.as_slice())?;
    entry.truncate(end);
    Ok(entry)
}

// Where the sum begins in bytes that are a record and its sum.
fn end_of(bytes: &[u8]) -> Result<usize, LineFault>
    ensures whole { IfOk result (IsEnd bytes.now) }
    ensures refused { IfErr result (λ fault. (end : ℕ) → IsEnd bytes.now end → ⊥) }
    ensures known { IfErr result (λ fault. fault ≢ Memory) }
{
    if bytes.len() <= HEAD + SUM {
        return Err(LineFault::NoShare);
    }
    let end = bytes.len() - SUM;
    let halves = bytes.split_at(end);
    let is_summed = has_sum(halves.0, halves.1);
    if !is_summed {
        return Err(LineFault::Mistyped);
    }
    Ok(end)
}
