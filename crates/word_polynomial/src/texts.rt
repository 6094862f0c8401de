// Three words as text, and for `serde` as an array of three numbers, c0 first.
ghost use Rattle.std.specs.Prelude.{◌++◌, [], ◌∷◌, Some, codes, true, false};
ghost use Rattle.std.specs.Fmt.{WritesOnOk, decimal};
ghost use Rattle.word_polynomial.specs.Triple.{hexadecimal_of};

use crate::triple::Triple;
use serde::{Described, Serialize, Serializer};
use std::fmt;

impl fmt::Display for Triple {
    ghost output = { λ x. Some (decimal x.c0 ++ codes " + " ++ decimal x.c1 ++ codes "*y + " ++ decimal x.c2 ++ codes "*y^2") };

    fn fmt<W: fmt::Write>(&self, f: &mut fmt::Formatter<W>) -> fmt::Result {
        write!(f, "{} + {}*y + {}*y^2", self.c0, self.c1, self.c2)
    }
}

// Each coefficient with its prefix `0x` under `#`; other options are ignored, as by `Display`.
impl fmt::LowerHex for Triple {
    fn fmt<W: fmt::Write>(&self, f: &mut fmt::Formatter<W>) -> fmt::Result
        ensures { WritesOnOk W.write_str_gives f.old result (hexadecimal_of false self.now) f.new }
    {
        if f.alternate() {
            return write!(f, "{:#x} + {:#x}*y + {:#x}*y^2", self.c0, self.c1, self.c2);
        }
        write!(f, "{:x} + {:x}*y + {:x}*y^2", self.c0, self.c1, self.c2)
    }
}

impl fmt::UpperHex for Triple {
    fn fmt<W: fmt::Write>(&self, f: &mut fmt::Formatter<W>) -> fmt::Result
        ensures { WritesOnOk W.write_str_gives f.old result (hexadecimal_of true self.now) f.new }
    {
        if f.alternate() {
            return write!(f, "{:#X} + {:#X}*y + {:#X}*y^2", self.c0, self.c1, self.c2);
        }
        write!(f, "{:X} + {:X}*y + {:X}*y^2", self.c0, self.c1, self.c2)
    }
}

impl Described for Triple {
    ghost writes = { λ x. ⟦<[u64; 3] as Described>⟧.writes (x.c0 ∷ x.c1 ∷ x.c2 ∷ []) };
}

impl Serialize for Triple {
    fn serialize<S: Serializer>(&self, out: &mut S) -> Result<(), S::Error> {
        [self.c0, self.c1, self.c2].serialize(out)
    }
}
