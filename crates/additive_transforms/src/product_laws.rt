// Laws of products by a scalar, as contracts of functions that compute nothing.
ghost use Rattle.additive_transforms.specs.Products.{ThreeProducts};

/// States that three products of the level below give the product by a scalar of the next level, with one sum of the halves.
#[tactic(auto, using(crate::proofs::Scalars::three_products))]
pub fn three_products_multiply()
    ensures { ThreeProducts }
{}
