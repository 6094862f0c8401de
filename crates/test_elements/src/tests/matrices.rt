// The order in which elimination exchanges rows, of which no contract says more than that it is one: a row whose entry on the diagonal is 0 with
// the first below it whose entry there is not, and no other.
use field_base::Gf2;
use field_base::traits::PrimeCharacteristicRing;
use field_slices::matrices::{Elements, plu_decompose};

#[test]
fn the_first_row_that_can_is_exchanged(rt: HostRuntime) {
    let (zero, one) = (Gf2::ZERO, Gf2::ONE);
    let mut matrix = [zero, one, one, one, one, zero, one, zero, zero];
    let mut lower = [zero; 9];
    let mut order = [0; 3];
    plu_decompose(
        Elements::<Gf2>::new(),
        &mut matrix,
        3,
        3,
        &mut lower,
        &mut order,
    );
    assert!(rt; order == [1, 0, 2]);
}
