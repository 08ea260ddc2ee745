// The rule at a counter.

use induct_rule::counter::Counter;
use induct_rule::{counter, k_induction, window_of_break, windows_may_start};

#[test]
fn rules_of_a_counter() {
    k_induction::<Counter>();
    window_of_break::<Counter>();
    windows_may_start();
    counter::never_three();
}
