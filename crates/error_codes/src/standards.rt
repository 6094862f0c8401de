// Codes of standards, by name.
ghost use Rattle.std.specs.Prelude.{◌≡◌, ◌<◌, ◌≤◌, ◌↔◌, IsOk, IfOk};
ghost use Rattle.field_base.specs.Powers.{power};
ghost use Rattle.reed_solomon.specs.ByteFields.{byte_times};
ghost use Rattle.reed_solomon.specs.declared.byte_field.ByteField.TheVariants.{Ccsds, Qr};

use crate::code::CorrectingCode;
use crate::error::CodeError;
use reed_solomon::byte_field::ByteField;

impl CorrectingCode {
    /// The code of telemetry with words of 255 symbols, 223 of them data (CCSDS 131.0-B, section 4): the roots are
    /// (2^11)^112 to (2^11)^143. The symbols are bytes as `ByteField::Ccsds` has them; the standard sends each in the
    /// dual basis, to which and from which `to_dual_basis` and `from_dual_basis` take it.
    pub fn ccsds_223() -> CorrectingCode
        ensures field { result.field ≡ Ccsds }
        ensures length { result.word_length ≡ 255 }
        ensures dimension { result.dimension ≡ 223 }
        ensures first { result.first_root ≡ 112 }
        ensures root { result.root ≡ power 1 (byte_times Ccsds) 2 11 }
    {
        match CorrectingCode::new(ByteField::Ccsds, 255, 223, 112, 11) {
            Ok(code) => code,
            Err(_) => unreachable!(),
        }
    }

    /// The code of DVB with words of 204 symbols, 188 of them data (ETSI EN 300 421, section 4.4.2): the roots are 2^0
    /// to 2^15.
    pub fn dvb_188() -> CorrectingCode
        ensures field { result.field ≡ Qr }
        ensures length { result.word_length ≡ 204 }
        ensures dimension { result.dimension ≡ 188 }
        ensures first { result.first_root ≡ 0 }
        ensures root { result.root ≡ 2 }
    {
        match CorrectingCode::new(ByteField::Qr, 204, 188, 0, 1) {
            Ok(code) => code,
            Err(_) => unreachable!(),
        }
    }

    /// The code of a block of a QR code with so many symbols, of which so many are data (ISO/IEC 18004, section 7.5):
    /// the roots are 2^0, 2^1, .. The error is that of `new`.
    pub fn qr(word_length: usize, dimension: usize) -> Result<CorrectingCode, CodeError>
        ensures accepted { IsOk result ↔ ((0 < dimension) × (dimension < word_length) × (word_length ≤ 255)) }
        ensures made { IfOk result (λ code. (code.field ≡ Qr) × (code.word_length ≡ word_length)
            × (code.dimension ≡ dimension) × (code.first_root ≡ 0)
            × (code.root ≡ power 1 (byte_times Qr) 2 1)) }
    {
        CorrectingCode::new(ByteField::Qr, word_length, dimension, 0, 1)
    }
}
