//! The cost and the test of duals at rows worked by hand.

use super::{RowCell, is_feasible, row_cost, row_shown};

/// Two cells of width 2 that would both stand where the other is: two rows of positions are the best.
const TIED: [RowCell; 2] = [
    RowCell {
        width: 2,
        target: 5,
        weight: 1,
    },
    RowCell {
        width: 2,
        target: 6,
        weight: 1,
    },
];

/// Two cells with targets beyond either end of a row from 10 to 20.
const PUSHED: [RowCell; 2] = [
    RowCell {
        width: 3,
        target: -100,
        weight: 2,
    },
    RowCell {
        width: 3,
        target: 500,
        weight: 1,
    },
];

fn is_tie_shown(first: u8, second: u8, duals: &[u64; 3]) -> bool {
    let places = [i64::from(first), i64::from(second)];
    row_shown(&TIED, 0, 20, &places, duals)
}

#[test]
fn both_ends_of_a_tie_are_shown(rt: HostRuntime) {
    assert!(rt; is_tie_shown(4, 6, &[0, 1, 0]));
    assert!(rt; is_tie_shown(5, 7, &[0, 1, 0]));
    assert!(rt; !is_tie_shown(4, 6, &[0, 2, 0]));
    assert!(rt; !is_feasible(&TIED, 0, 20, &[18, 18]));
    assert!(rt; is_feasible(&TIED, 0, 20, &[16, 18]));
}

#[test]
fn costs_are_weighted_squares(rt: HostRuntime) {
    assert_eq!(rt; row_cost(&PUSHED, &[10, 17]), 257_489);
}
