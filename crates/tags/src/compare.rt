// Tags compared.
ghost use Rattle.std.specs.Prelude.{◌≡◌, ◌↔◌, true};

/// Whether two tags are the same bytes. It reads all bytes of both, whatever they are, unless their lengths differ.
///
/// Nothing is claimed on the time that it takes.
pub fn tags_are_equal(left: &[u8], right: &[u8]) -> bool
    ensures { (result ≡ true) ↔ (left.now ≡ right.now) }
{
    if left.len() != right.len() {
        return false;
    }
    let mut difference = 0u8;
    'bytes: for i in 0..left.len() {
        difference |= left[i] ^ right[i];
    }
    difference == 0
}
