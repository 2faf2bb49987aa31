//! Powers of ten, of which no contract takes the last one.

use decimal::pow10;

#[test]
fn powers_are_exact(rt: HostRuntime) {
    assert_eq!(rt; pow10(0), 1);
    assert_eq!(rt;
        pow10(38),
        100_000_000_000_000_000_000_000_000_000_000_000_000
    );
}
