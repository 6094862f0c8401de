// Secret sharing over any field (A. Shamir, How to Share a Secret, 1979): the secret is the value at 0 of a line, and two of
// its points give it back.
use binary_field::{Field, Ghash128, PrimeCharacteristicRing};

/// The point of the line at `place`.
fn share<F: Field>(secret: F, slope: F, place: F) -> (F, F) {
    (place, secret + slope * place)
}

/// The value at 0 of the line through two points; None when both have the same place.
fn secret_of<F: Field>(left: (F, F), right: (F, F)) -> Option<F> {
    let scale = (left.0 + right.0).try_inverse()?;
    Some((left.0 * right.1 + right.0 * left.1) * scale)
}

/// Whether the shares at 1 and at the generator give the secret back, and one share twice does not.
fn is_recovered<F: Field>(secret: F, slope: F) -> bool {
    let left = share(secret, slope, F::ONE);
    let right = share(secret, slope, F::GENERATOR);
    secret_of(left, right) == Some(secret) && secret_of(left, left) == None
}

#[test]
fn two_shares_give_the_secret(rt: HostRuntime) {
    assert!(rt; is_recovered(Ghash128::new(5), Ghash128::new(7)));
}
