//! Rows worked by hand, and a long one.

ghost use Rattle.std.specs.Prelude.{◌≡◌, ◌^◌, ◌<◌, ◌≤◌, ◌≤ℤ◌, pos, IfOk, vec_len};
ghost use Rattle.fp_rows.specs.Squares.{IsCell, IsRow};

use super::{Cluster, place_row};
use fp_rows::{RowCell, row_cost};
use std::alloc::{AllocError, Global};

const fn cell(width: i64, target: i64, weight: i64) -> RowCell
    ensures { result ≡ record { width = width; target = target; weight = weight } }
{
    RowCell {
        width,
        target,
        weight,
    }
}

fn mixed_cell(i: u32) -> RowCell
    requires { i < 100000 }
    ensures cell { IsCell result }
    ensures narrow { result.width ≤ℤ pos 5 }
    ensures light { result.weight ≤ℤ pos 3 }
{
    RowCell {
        width: i64::from(i % 5) + 1,
        target: i64::from(i * 7919 % 400_000),
        weight: i64::from(i % 3) + 1,
    }
}

/// So many cells, whose widths, targets and weights differ.
fn mixed(alloc: Global, count: u32) -> Result<Vec<RowCell>, AllocError>
    requires { count ≤ 100000 }
    ensures row { IfOk result (λ cells. IsRow cells.items (pos 0) (pos (2 ^ 20))) }
    ensures count { IfOk result (λ cells. vec_len cells ≡ count) }
{
    let mut cells = Vec::new(alloc);
    for i in 0..count {
        cells.push(mixed_cell(i))?;
    }
    Ok(cells)
}

fn place_two(cells: &[RowCell; 2], lo: i64, hi: i64) -> [i64; 2]
    requires { IsRow cells.now lo hi }
{
    let mut work = [Cluster::EMPTY; 2];
    let mut xs = [0; 2];
    let mut duals = [0; 3];
    place_row(cells, lo, hi, &mut work, &mut xs, &mut duals);
    xs
}

#[test]
fn rows_of_two_cells(rt: HostRuntime) {
    let pushed_left = [cell(4, 0, 1), cell(4, 1, 1)];
    assert_eq!(rt; place_two(&pushed_left, 0, 20), [0, 4]);
    assert_eq!(rt; row_cost(&pushed_left, &[0, 4]), 9);

    let tied = [cell(2, 5, 1), cell(2, 6, 1)];
    let places = place_two(&tied, 0, 20);
    assert!(rt; places == [4, 6] || places == [5, 7]);

    let beyond_both_ends = [cell(3, -100, 2), cell(3, 500, 1)];
    assert_eq!(rt; place_two(&beyond_both_ends, 10, 20), [10, 17]);
    assert_eq!(rt; row_cost(&beyond_both_ends, &[10, 17]), 257_489);

    let full = [cell(3, 2, 1), cell(4, 2, 1)];
    assert_eq!(rt; place_two(&full, 0, 7), [0, 3]);
    assert_eq!(rt; row_cost(&full, &[0, 3]), 5);

    let crossed = [cell(4, 12, 1), cell(4, -100, 1)];
    assert_eq!(rt; place_two(&crossed, 0, 20), [0, 4]);
    assert_eq!(rt; row_cost(&crossed, &[0, 4]), 10_960);
}

#[test]
fn a_row_without_cells_has_one_dual(rt: HostRuntime) {
    let mut duals = [7];
    place_row(&[], 0, 20, &mut [], &mut [], &mut duals);
    assert_eq!(rt; duals, [0]);
}

#[test]
fn a_row_of_many_cells(rt: HostRuntime) -> Result<(), AllocError> {
    let count = 100_000;
    let cells = mixed(rt.alloc(), count)?;
    let mut work = vec![in rt.alloc(); Cluster::EMPTY; count as usize]?;
    let mut xs = vec![in rt.alloc(); 0i64; count as usize]?;
    let mut duals = vec![in rt.alloc(); 0u64; count as usize + 1]?;
    place_row(&cells, 0, 1 << 20, &mut work, &mut xs, &mut duals);
    assert!(rt; xs[0] < xs[99_999]);
    Ok(())
}
