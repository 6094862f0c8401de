// What a verifier says of several tests.
ghost use Rattle.std.specs.Prelude.{◌↔◌, IsTrue};

/// Whether both tests were passed.
pub fn both(one: bool, other: bool) -> bool
    ensures { IsTrue result ↔ (IsTrue one × IsTrue other) }
{
    one && other
}
