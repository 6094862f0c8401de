// The laws of linear maps.
ghost use Rattle.word_tables.specs.Linear.{AgreeAtPowers, ColumnsGiveTheMap};

/// States that the value of an additive map is the sum of its images of the powers of two at the set bits, and that two
/// additive maps that agree at the powers of two are equal.
pub fn columns_give_maps()
    ensures columns { ColumnsGiveTheMap }
    ensures unique { AgreeAtPowers }
{}
