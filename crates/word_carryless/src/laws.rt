// Laws of the definitions, as contracts of functions that compute nothing.
ghost use Rattle.word_carryless.specs.Masked.{CarryIsolation, CarryIsolationInLanes, ClassIsPlaces};

/// States carry isolation: the integer product of two words with holes, masked to the class of the product, is the low
/// half of their carryless product, for all words of two classes.
pub fn carry_isolation()
    ensures { CarryIsolation }
{}

/// States carry isolation in lanes: the integer products of two lists of words with holes, place by place, masked to the class
/// of the products, are the low halves of their carryless products, for any number of lanes.
pub fn carry_isolation_in_lanes()
    ensures { CarryIsolationInLanes }
{}

/// States that the words of a class are those whose set bits are at the places of the class.
pub fn class_is_places()
    ensures { ClassIsPlaces }
{}
