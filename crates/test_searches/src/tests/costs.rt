//! The ends of cost types, and the arithmetic of signed costs.

use pf_base::{Cost, SignedCost};

#[test]
fn costs_lie_between_ends_and_are_subtracted_and_negated(rt: HostRuntime) {
    assert!(rt; u8::least() == 0 && u8::greatest() == 255);
    assert!(rt; i8::least() == -128 && i8::greatest() == 127);
    assert!(rt; 3i8.minus(5) == -2 && 127i8.negated() == -127);
}
