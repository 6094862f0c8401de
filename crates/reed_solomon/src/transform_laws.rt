// The laws of the codes, as contracts of functions that compute nothing.
ghost use Rattle.additive_transforms.specs.Words.{level_element};
ghost use Rattle.reed_solomon.specs.Determined.{LostSymbolsReturn, ShardsDetermine};
ghost use Rattle.reed_solomon.specs.Located.{LostSymbolsAreLocated};

use field_base::Unsigned;
use word_tower::Level;

/// States that any shards, as many as there are of data, determine the others: two code words of one code that agree in k shards of k of
/// data and m of parity agree in all, in every level that has the points.
pub fn shards_determine()
    ensures { ShardsDetermine }
{}

/// States that an inverse transform, a derivative and a forward transform give the lost symbols of a code word, as long as as many are known
/// as its polynomial has coefficients: from the products of the symbols and the locator of the lost ones to the coefficients of that product,
/// to those of its derivative, and to its values. At a lost point that is the symbol times the locator of the other lost ones, which is not 0
/// there, and which the derivative of the locator gives as well.
pub fn lost_symbols_are_located()
    ensures { LostSymbolsAreLocated }
{}

/// States that shards that were encoded and then lost come back: where `encode` left the shards, and those at hand are as it left them,
/// what `reconstruct` makes has its symbols in all shards, whatever the missing ones are overwritten by. A symbol is an element of the
/// level `L`, by as many bits of a word as that has. `reconstruct` asks that no more are missing than there are of parity.
pub fn lost_symbols_return<R: Unsigned, L: Level<R>>()
    ensures { LostSymbolsReturn (level_element R.number L.LEVEL) R.ZERO L.LEVEL }
{}
