// Generators of the multiplicative groups of the tower's levels.
ghost use Rattle.word_tables.specs.Generators.{GeneratorsHaveFullOrder};

/// States that at the levels of up to 16 bits every nonzero element is a power of the generator: its power by the number of
/// nonzero elements is 1, and no smaller positive one is.
pub fn generators_have_full_order()
    ensures { GeneratorsHaveFullOrder }
{}
