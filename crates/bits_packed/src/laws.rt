// Laws of the definitions, as contracts of functions that compute nothing.
ghost use Rattle.bits_packed.specs.Lanes.{TransposingTwiceReturns};

/// States that transposing a square matrix twice gives the matrix back.
pub fn transposing_twice_returns()
    ensures { TransposingTwiceReturns }
{}
