// Text of shares from a secret, and a secret from text of shares.
ghost use Rattle.std.specs.Prelude.{◌≡◌, ◌≢◌, ◌⊎◌, ◌↔◌, ◌+◌, ◌-◌, ◌*◌, ◌<◌, ◌≤◌, ◌++◌, ℕ, List, [], ◌∷◌, length, slice_index};
ghost use Rattle.std.specs.Prelude.{string_bytes, IfErr, IfOk, IsTrue, MatchOption, OnOk};
ghost use Rattle.error_codes.specs.Filling.{is_marked};
ghost use Rattle.secret.specs.Combining.{entries_at, IsSecretOf};
ghost use Rattle.secret.specs.Records.{HasField, lines_of, IsNumber};
ghost use Rattle.secret.specs.Texts.{AreGathered, AreOfSet, AreOneSet, CutsLine, IsSecretOfText, TextSays};
ghost use Rattle.secret.specs.declared.fault.Fault.TheVariants.{Memory, Mistyped, NoShare, Sharing};
ghost use Rattle.secret.specs.declared.lines.LineFault.TheVariants as line_fault;
ghost use Rattle.error_codes.specs.Refusals.{RefusesSplit};
ghost use Rattle.error_codes.specs.declared.sharing_error.SharingError.{SharingError};
ghost use Rattle.error_codes.specs.Sharing.{AreSplit};
ghost use Rattle.reed_solomon.specs.declared.byte_field.ByteField.{ByteField};

use crate::bytes::wipe;
use crate::fault::Fault;
use crate::lines::{HEAD, LineFault, push_line, read_record, record_of};
use crate::sets::{Choice, Drawn};
use error_codes::{ByteField, combine_correcting, split};
use memchr::memchr;
use std::alloc::{AllocError, Global};

/// The lines of the shares of a secret. It fails where memory is refused, or where `split` of `error_codes` does, with its error.
pub(crate) fn split_text(
    alloc: Global,
    choice: &Choice,
    secret: &[u8],
    drawn: &Drawn,
) -> Result<String, Fault>
    ensures said { IfOk result (λ text. (shares : List ℕ)
        × AreSplit choice.now.field (choice.now.needed - 1) choice.now.count secret.now drawn.now.coefficients.items shares
        × (length shares ≡ choice.now.count * length secret.now)
        × (string_bytes text ≡ lines_of choice.now.field choice.now.needed drawn.now.identity (length secret.now) shares choice.now.count)) }
    ensures refused { IfErr result (λ fault. (fault ≡ Memory) ⊎ ((error : SharingError) × (fault ≡ Sharing error)
        × RefusesSplit choice.now.needed choice.now.count (length secret.now) (length drawn.now.coefficients.items)
        (choice.now.count * length secret.now) error)) }
{
    let mut shares = rows_of_zeros(alloc, choice.count as usize, secret.len())?;
    let done = split(
        choice.field,
        choice.needed as usize,
        secret,
        drawn.coefficients.as_slice(),
        choice.count as usize,
        shares.as_mut_slice(),
    );
    if let Err(error) = done {
        return Err(Fault::Sharing(error));
    }
    let text = text_of(
        alloc,
        choice,
        &drawn.identity,
        shares.as_slice(),
        secret.len(),
    );
    wipe(&mut shares);
    Ok(text?)
}

// So many rows of so many zeros.
fn rows_of_zeros(alloc: Global, count: usize, size: usize) -> Result<Vec<u8>, AllocError>
    ensures { IfOk result (λ zeros. length zeros.items ≡ count * size) }
{
    let mut zeros = Vec::new(alloc);
    'rows: for _ in 0..count {
        'places: for _ in 0..size {
            zeros.push(0)?;
        }
    }
    Ok(zeros)
}

// The lines of shares that stand one after the other.
fn text_of(
    alloc: Global,
    choice: &Choice,
    identity: &[u8; 8],
    shares: &[u8],
    size: usize,
) -> Result<String, AllocError>
    requires { length shares.now ≡ choice.now.count * size }
    ensures { IfOk result (λ text. string_bytes text
        ≡ lines_of choice.now.field choice.now.needed identity.now size shares.now choice.now.count) }
{
    let mut text = String::new(alloc);
    for i in 0..choice.count {
        let start = i as usize * size;
        let share = &shares[start..start + size];
        let entry = record_of(alloc, choice.field, choice.needed, i + 1, identity, share)?;
        push_line(alloc, &mut text, entry.as_slice())?;
    }
    Ok(text)
}

/// A secret, and the indexes of the shares that are wrong, in the order of their lines.
#[derive(Drop)]
pub(crate) struct Restored {
    pub(crate) secret: Vec<u8>,
    pub(crate) wrong: Vec<u8>,
}

/// The secret of the shares that the lines of a text say. Empty lines are passed over. It fails where memory is refused, and else only
/// where the text has no secret.
pub(crate) fn combine_text(alloc: Global, text: &[u8]) -> Result<Restored, Fault>
    ensures restored { IfOk result (λ answer. IsSecretOfText text.now answer.secret.items answer.wrong.items) }
    ensures refused { IfErr result (λ fault. fault ≢ Memory → (secret wrong : List ℕ) → IsSecretOfText text.now secret wrong → ⊥) }
{
    let mut shares = Gathered {
        first: Vec::new(alloc),
        indexes: Vec::new(alloc),
        bytes: Vec::new(alloc),
    };
    let said = match gather(alloc, text, &mut shares) {
        Ok(()) => combined(alloc, &shares),
        Err(fault) => Err(fault),
    };
    wipe(&mut shares.first);
    wipe(&mut shares.bytes);
    said
}

// Shares of one set: the record of the first, and the indexes and the bytes of all.
#[derive(Drop)]
struct Gathered {
    first: Vec<u8>,
    indexes: Vec<u8>,
    bytes: Vec<u8>,
}

// Gathers the shares of a text. An error names the line, counted from 1.
fn gather(alloc: Global, text: &[u8], shares: &mut Gathered) -> Result<(), Fault>
    requires first { shares.old.first.items ≡ [] }
    requires indexes { shares.old.indexes.items ≡ [] }
    requires bytes { shares.old.bytes.items ≡ [] }
    ensures gathered { OnOk result ((entries : List (List ℕ)) × TextSays text.now entries
        × AreGathered entries shares.new.first.items shares.new.indexes.items shares.new.bytes.items
        × ((others : List (List ℕ)) → TextSays text.now others → others ≡ entries)) }
    ensures refused { IfErr result (λ fault. fault ≢ Memory
        → (entries : List (List ℕ)) → TextSays text.now entries → AreOneSet entries → ⊥) }
{
    let mut rest = text;
    let mut number = 0;
    'lines: while !rest.is_empty() {
        let parts = cut_line(rest);
        rest = parts.1;
        number += 1;
        if !parts.0.is_empty() {
            let mut entry = match read_record(alloc, parts.0) {
                Ok(entry) => entry,
                Err(fault) => return Err(fault_in(fault, number)),
            };
            let put = put_record(entry.as_slice(), number, shares);
            wipe(&mut entry);
            put?;
        }
    }
    Ok(())
}

// The first line of a text, and what stands behind its line feed.
fn cut_line(text: &[u8]) -> (&[u8], &[u8])
    ensures cut { CutsLine text.now result.0.now result.1.now }
    ensures shorter { 0 < length text.now → length result.1.now < length text.now }
{
    match memchr(b'\n', text) {
        Some(end) => (&text[..end], &text[end + 1..]),
        None => (text, &text[text.len()..]),
    }
}

// What is wrong with a line.
fn fault_in(fault: LineFault, number: usize) -> Fault
    ensures memory { fault ≡ line_fault.Memory → result ≡ Memory }
    ensures mistyped { fault ≡ line_fault.Mistyped → result ≡ Mistyped number }
    ensures no_share { fault ≡ line_fault.NoShare → result ≡ NoShare number }
{
    match fault {
        LineFault::NoShare => Fault::NoShare(number),
        LineFault::Mistyped => Fault::Mistyped(number),
        LineFault::Memory => Fault::Memory,
    }
}

// Puts the share of a record to the others, if it is of their set.
fn put_record(entry: &[u8], number: usize, shares: &mut Gathered) -> Result<(), Fault>
    ensures put { OnOk result ((entries : List (List ℕ))
        → AreGathered entries shares.old.first.items shares.old.indexes.items shares.old.bytes.items
        → AreGathered (entries ++ entry.now ∷ []) shares.new.first.items shares.new.indexes.items shares.new.bytes.items) }
    ensures refused { IfErr result (λ fault. fault ≢ Memory → (entries more : List (List ℕ))
        → AreGathered entries shares.old.first.items shares.old.indexes.items shares.old.bytes.items
        → AreOneSet (entries ++ entry.now ∷ more) → ⊥) }
{
    if !is_of_field(entry) {
        return Err(Fault::NoShare(number));
    }
    if shares.first.is_empty() {
        shares.first.extend_from_slice(entry)?;
    }
    if !is_of_set(shares.first.as_slice(), entry) {
        return Err(Fault::OtherSet(number));
    }
    shares.indexes.push(entry[2])?;
    shares.bytes.extend_from_slice(&entry[HEAD..])?;
    Ok(())
}

// Whether bytes are a record with a share, of a field that there is.
fn is_of_field(entry: &[u8]) -> bool
    ensures { IsTrue result ↔ ((11 < length entry.now) × HasField entry.now) }
{
    HEAD < entry.len() && field_of(entry[0]).is_some()
}

// Whether two records are of one set: all but the index and the share is the same, and the shares are of one length.
fn is_of_set(first: &[u8], entry: &[u8]) -> bool
    ensures { IsTrue result ↔ AreOfSet first.now entry.now }
{
    first.len() == entry.len()
        && HEAD < entry.len()
        && &first[..2] == &entry[..2]
        && &first[3..HEAD] == &entry[3..HEAD]
}

// The field with that number, if secrets are shared over it.
fn field_of(number: u8) -> Option<ByteField>
    ensures { MatchOption result ((field : ByteField) → ¬ IsNumber field number) (λ field. IsNumber field number) }
{
    match number {
        0x1b => Some(ByteField::Rijndael),
        0x1d => Some(ByteField::Qr),
        _ => None,
    }
}

// The secret of shares, and those that are wrong.
fn combined(alloc: Global, shares: &Gathered) -> Result<Restored, Fault>
    ensures restored { IfOk result (λ answer. IsSecretOf shares.now.first.items shares.now.indexes.items shares.now.bytes.items
        answer.secret.items answer.wrong.items) }
    ensures refused { IfErr result (λ fault. fault ≢ Memory → (secret wrong : List ℕ) → length shares.now.first.items ≡ 11 + length secret
        → IsSecretOf shares.now.first.items shares.now.indexes.items shares.now.bytes.items secret wrong → ⊥) }
{
    let first = shares.first.as_slice();
    if first.len() <= HEAD {
        return Err(Fault::Nothing);
    }
    let mut secret = rows_of_zeros(alloc, 1, first.len() - HEAD)?;
    let indexes = shares.indexes.as_slice();
    let marks = combine_into(
        first,
        indexes,
        shares.bytes.as_slice(),
        secret.as_mut_slice(),
    )?;
    match marked_entries(alloc, &marks, indexes) {
        Ok(wrong) => Ok(Restored { secret, wrong }),
        Err(_) => {
            wipe(&mut secret);
            Err(Fault::Memory)
        }
    }
}

// Writes the secret of shares, the first of which has this record, and returns which are wrong.
fn combine_into(
    first: &[u8],
    indexes: &[u8],
    bytes: &[u8],
    secret: &mut [u8],
) -> Result<[bool; 256], Fault>
    requires { 1 < length first.now }
    ensures long { length secret.new ≡ length secret.old }
    ensures few { IfOk result (λ marks. length indexes.now ≤ 255) }
    ensures written { IfOk result (λ marks. IsSecretOf first.now indexes.now bytes.now secret.new
        (entries_at (is_marked marks) indexes.now (length indexes.now))) }
    ensures refused { IfErr result (λ fault. (other wrong : List ℕ) → length other ≡ length secret.old
        → IsSecretOf first.now indexes.now bytes.now other wrong → ⊥) }
{
    let Some(field) = field_of(first[0]) else {
        return Err(Fault::Nothing);
    };
    match combine_correcting(field, first[1] as usize, indexes, bytes, secret) {
        Ok(marks) => Ok(marks),
        Err(error) => Err(Fault::Sharing(error)),
    }
}

// The entries at the places that are marked.
fn marked_entries(alloc: Global, marks: &[bool; 256], entries: &[u8]) -> Result<Vec<u8>, AllocError>
    requires { length entries.now ≤ 256 }
    ensures { IfOk result (λ some. some.items ≡ entries_at (is_marked marks.now) entries.now (length entries.now)) }
{
    let mut some = Vec::new(alloc);
    for i in 0..entries.len() {
        if marks[i] {
            some.push(entries[i])?;
        }
    }
    Ok(some)
}
