//! Rows worked by hand, in both measures.

ghost use Rattle.std.specs.Prelude.{◌≡◌};
ghost use Rattle.fp_rows.specs.Squares.{IsRow};

use super::{Absolute, RowCost, Span, Squared, convex_shown, place_convex};
use fp_rows::{RowCell, row_cost};

const fn cell(width: i64, target: i64, weight: i64) -> RowCell
    ensures { result ≡ record { width = width; target = target; weight = weight } }
{
    RowCell {
        width,
        target,
        weight,
    }
}

fn place_squared(cells: &[RowCell; 2], lo: i64, hi: i64) -> [i64; 2]
    requires { IsRow cells.now lo hi }
{
    let costs = Squared::new(cells);
    let mut work = [Span::EMPTY; 2];
    let mut xs = [0; 2];
    let mut duals = [0; 3];
    place_convex(&costs, lo, hi, &mut work, &mut xs, &mut duals);
    xs
}

fn place_absolute(cells: &[RowCell; 2], lo: i64, hi: i64) -> [i64; 2]
    requires { IsRow cells.now lo hi }
{
    let costs = Absolute::new(cells);
    let mut work = [Span::EMPTY; 2];
    let mut xs = [0; 2];
    let mut duals = [0; 3];
    place_convex(&costs, lo, hi, &mut work, &mut xs, &mut duals);
    xs
}

#[test]
fn rows_of_two_cells_by_squares(rt: HostRuntime) {
    let pushed_left = [cell(4, 0, 1), cell(4, 1, 1)];
    assert_eq!(rt; place_squared(&pushed_left, 0, 20), [0, 4]);
    assert_eq!(rt; row_cost(&pushed_left, &[0, 4]), 9);

    let tied = [cell(2, 5, 1), cell(2, 6, 1)];
    let places = place_squared(&tied, 0, 20);
    assert!(rt; places == [4, 6] || places == [5, 7]);

    let beyond_both_ends = [cell(3, -100, 2), cell(3, 500, 1)];
    assert_eq!(rt; place_squared(&beyond_both_ends, 10, 20), [10, 17]);
    assert_eq!(rt; row_cost(&beyond_both_ends, &[10, 17]), 257_489);

    let full = [cell(3, 2, 1), cell(4, 2, 1)];
    assert_eq!(rt; place_squared(&full, 0, 7), [0, 3]);
    assert_eq!(rt; row_cost(&full, &[0, 3]), 5);

    let crossed = [cell(4, 12, 1), cell(4, -100, 1)];
    assert_eq!(rt; place_squared(&crossed, 0, 20), [0, 4]);
    assert_eq!(rt; row_cost(&crossed, &[0, 4]), 10_960);
}

fn is_shown(cells: &[RowCell; 2], lo: i64, hi: i64, duals: &[u64; 3]) -> bool
    requires { IsRow cells.now lo hi }
{
    let costs = Absolute::new(cells);
    convex_shown(&costs, lo, hi, &[0, 4], duals)
}

// They touch wherever they stand between the targets, and cost 116 in all.
#[test]
fn opposite_targets_by_distances(rt: HostRuntime) {
    let crossed = [cell(4, 12, 1), cell(4, -100, 1)];
    assert_eq!(rt; place_absolute(&crossed, 0, 20), [0, 4]);
    let costs = Absolute::new(&crossed);
    assert_eq!(rt; costs.cost(0, 0), 12);
    assert_eq!(rt; costs.cost(1, 4), 104);
    assert!(rt; is_shown(&crossed, 0, 20, &[0, 1, 0]));
    assert!(rt; !is_shown(&crossed, 0, 20, &[0, 2, 0]));
}

#[test]
fn a_row_without_cells_has_one_dual(rt: HostRuntime) {
    let costs = Absolute::new(&[]);
    let mut duals = [7];
    place_convex(&costs, 0, 20, &mut [], &mut [], &mut duals);
    assert_eq!(rt; duals, [0]);
}
