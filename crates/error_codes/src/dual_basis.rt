// The dual basis in which the symbols of CCSDS are sent (CCSDS 131.0-B, section 4 and the annex on both representations).
ghost use Rattle.std.specs.Prelude.{◌≡◌, ◌<◌, ℕ, map, slice_index, bit_xor};
ghost use Rattle.error_codes.specs.DualBasis.{dual_byte};

use word_tables::map_bytes;

// The images of each bit of a symbol, the lowest first, by the map into the dual basis and by its inverse.
const TO_DUAL: [u8; 8] = [0x7b, 0xaf, 0x99, 0xfa, 0x86, 0xec, 0xef, 0x8d];

const FROM_DUAL: [u8; 8] = [0xcc, 0xac, 0x79, 0xf0, 0xfd, 0x2e, 0x42, 0xc5];

// States that bytes are below 256. It computes nothing.
pub(crate) fn bytes_fit(bytes: &[u8])
    ensures { (i : ℕ) → slice_index bytes.now i < 256 }
{}

/// Writes over each symbol of the field of CCSDS, as `ByteField::Ccsds` has it, the byte that the standard sends for it
/// (CCSDS 131.0-B).
pub fn to_dual_basis(symbols: &mut [u8])
    ensures { symbols.new ≡ map dual_byte symbols.old }
{
    map_bytes(&TO_DUAL, symbols);
}

/// Writes over each byte that was sent the symbol of the field of CCSDS, as `ByteField::Ccsds` has it, that
/// `to_dual_basis` takes to this byte. There is no other (`dual_bytes_differ`).
pub fn from_dual_basis(symbols: &mut [u8])
    ensures { map dual_byte symbols.new ≡ symbols.old }
{
    bytes_fit(symbols);
    map_bytes(&FROM_DUAL, symbols);
}

/// States that different bytes are different in the dual basis, and that sums are kept.
pub fn dual_bytes_differ()
    ensures each { (x y : ℕ) → x < 256 → y < 256 → dual_byte x ≡ dual_byte y → x ≡ y }
    ensures sums { (x y : ℕ) → dual_byte (bit_xor x y) ≡ bit_xor (dual_byte x) (dual_byte y) }
{}
