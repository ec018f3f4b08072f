//! What no clause says: that memory is enough, and totals that another method gives.

ghost use Rattle.std.specs.Prelude.{◌≡◌, ◌<◌, ◌≤◌, ◌+◌, ◌-◌, ◌*◌, ◌^◌, min, max, length, slice_index};

use crate::{Choice, ChoiceFault, Costs, Matcher, prices_shown};
use fp_base::NoMemory;
use std::alloc::Global;
use std::ops::Range;
use std::process::Abort;
use std::test::Fail;

const MOST: u64 = 1 << 36;

/// Costs that stand in a list, row by row. What is not in the list costs nothing.
#[derive(Clone, Copy)]
struct Table<'a> {
    cells: &'a [u64],
    rows: u8,
    columns: u8,
    stripe: u8,
}

impl Costs for Table<'_> {
    ghost row_count = { λ t. t.rows };

    ghost column_count = { λ t. t.columns };

    ghost cost_of = { λ t n s. min (slice_index t.cells.now (n * t.columns + s)) (2 ^ 36) };

    ghost stripe_width = { λ t. max t.stripe 1 };

    fn rows(&self) -> u32 {
        self.rows as u32
    }

    fn columns(&self) -> u32 {
        self.columns as u32
    }

    fn cost(&self, row: u32, column: u32) -> u64 {
        let place = row as usize * self.columns as usize + column as usize;
        if place < self.cells.len() {
            self.cells[place].min(MOST)
        } else {
            0
        }
    }

    fn stripe(&self) -> u32 {
        self.stripe.max(1) as u32
    }
}

/// Rows that all want one column of a line: a cost is how far away a column lies.
#[derive(Clone, Copy)]
struct Crowd {
    wanted: u8,
    rows: u8,
    columns: u8,
}

impl Costs for Crowd {
    ghost row_count = { λ c. c.rows };

    ghost column_count = { λ c. c.columns };

    ghost cost_of = { λ c _ s. (c.wanted - s) + (s - c.wanted) };

    ghost stripe_width = { λ _. 8 };

    fn rows(&self) -> u32 {
        let _columns = self.columns as u32;
        let _wanted = self.wanted as u32;
        self.rows as u32
    }

    fn columns(&self) -> u32 {
        self.columns as u32
    }

    fn cost(&self, _row: u32, column: u32) -> u64 {
        let wanted = self.wanted as u32;
        (wanted.saturating_sub(column) + column.saturating_sub(wanted)) as u64
    }

    fn stripe(&self) -> u32 {
        8
    }

    fn floor(&self, _row: u32, stripe: u32) -> u64 {
        let wanted = self.wanted as u32;
        let first = stripe * 8;
        (first.saturating_sub(wanted) + wanted.saturating_sub(first + 7)) as u64
    }

    fn near(&self, _row: u32, _stripe: u32, limit: u64) -> Range<u32> {
        let wanted = self.wanted as u32;
        let reach = limit.min(256) as u32;
        (wanted + 1).saturating_sub(reach)..wanted + reach
    }
}

/// The total cost of a solution, the column of each row and the price of each column.
fn solution<C: Costs>(alloc: Global, costs: &C) -> Result<(u64, Vec<u32>, Vec<u64>), NoMemory>
    requires { C.row_count costs.now ≤ C.column_count costs.now }
{
    let rows = costs.rows();
    let columns = costs.columns();
    let mut matcher = Matcher::with_room(alloc, rows, columns)?;
    matcher.solve(costs);
    let mut total = 0u64;
    let mut chosen = Vec::new(alloc);
    for row in 0..rows {
        let column = matcher.column_of(row);
        total = total.wrapping_add(costs.cost(row, column));
        chosen.push(column)?;
    }
    let mut prices = Vec::new(alloc);
    for column in 0..columns {
        prices.push(matcher.price(column))?;
    }
    Ok((total, chosen, prices))
}

// Two rows want the first column; the second row pays more for another one, so the first gives way.
fn one_row_gives_way(rt: &impl Abort, alloc: Global, stripe: u8) -> Result<(), Fail> {
    let table = Table {
        cells: &[0, 3, 0, 5],
        rows: 2,
        columns: 2,
        stripe,
    };
    let (total, chosen, prices) = solution(alloc, &table)?;
    assert_eq!(rt; total, 3);
    assert_eq!(rt; chosen.as_slice(), [1, 0].as_slice());
    assert_eq!(rt; prices.len(), 2);
    let apart = prices[0].wrapping_sub(prices[1]);
    assert!(rt; 3 <= apart && apart <= 5, "{apart}");
    Ok(())
}

// Two rows alike: the better column's price is what it is better by.
fn equal_rows(rt: &impl Abort, alloc: Global, stripe: u8) -> Result<(), Fail> {
    let table = Table {
        cells: &[1, 2, 1, 2],
        rows: 2,
        columns: 2,
        stripe,
    };
    let (total, _, prices) = solution(alloc, &table)?;
    assert_eq!(rt; total, 3);
    assert_eq!(rt; prices.len(), 2);
    assert_eq!(rt; prices[0].wrapping_sub(prices[1]), 1);
    Ok(())
}

// Where a column stays unused that is as good as any, or there is no row, no column has a price.
fn no_prices(rt: &impl Abort, alloc: Global, stripe: u8) -> Result<(), Fail> {
    let one = Table {
        cells: &[4, 4],
        rows: 1,
        columns: 2,
        stripe,
    };
    let (total, _, prices) = solution(alloc, &one)?;
    assert_eq!(rt; total, 4);
    assert_eq!(rt; prices.as_slice(), [0, 0].as_slice());
    let none = Table {
        cells: &[],
        rows: 0,
        columns: 3,
        stripe,
    };
    let (total, chosen, prices) = solution(alloc, &none)?;
    assert_eq!(rt; (total, chosen.len()), (0, 0));
    assert_eq!(rt; prices.as_slice(), [0, 0, 0].as_slice());
    Ok(())
}

#[test]
fn small_tables(rt: HostRuntime) -> Result<(), Fail> {
    for stripe in [1, 2] {
        one_row_gives_way(&rt, rt.alloc(), stripe)?;
        equal_rows(&rt, rt.alloc(), stripe)?;
        no_prices(&rt, rt.alloc(), stripe)?;
    }
    Ok(())
}

#[test]
fn choices(rt: HostRuntime) -> Result<(), Fail> {
    let clash = Choice::new(rt.alloc(), 2, &[1, 1]);
    match clash {
        Err(fault) => assert_eq!(rt;
            fault,
            ChoiceFault::Same {
                first: 0,
                second: 1
            }
        ),
        Ok(_) => assert!(rt; false, "two rows with one column"),
    }
    for (stripe, prices, want) in [
        (1, [3, 0], true),
        (1, [2, 0], false),
        (2, [3, 0], true),
        (2, [2, 0], false),
    ] {
        match Choice::new(rt.alloc(), 2, &[1, 0]) {
            Ok(choice) => {
                let costs = Table {
                    cells: &[0, 3, 0, 5],
                    rows: 2,
                    columns: 2,
                    stripe,
                };
                assert_eq!(rt; prices_shown(&costs, &choice, prices.as_slice()), want);
            }
            Err(_) => assert!(rt; false, "no memory"),
        }
    }
    Ok(())
}

/// A cost is a row's weight times a column's: then the rows take the lightest columns, the heaviest
/// row the lightest, whatever the search does.
#[test]
fn weights(rt: HostRuntime) -> Result<(), Fail> {
    let mut rows = Vec::new(rt.alloc());
    for row in 0..200u64 {
        rows.push(row.wrapping_mul(37) % 101)?;
    }
    let mut columns = Vec::new(rt.alloc());
    for column in 0..230u64 {
        columns.push(column.wrapping_mul(53) % 97 % 20)?;
    }
    let mut cells = Vec::new(rt.alloc());
    for row in &rows {
        for column in &columns {
            cells.push(row.wrapping_mul(*column))?;
        }
    }
    rows.sort()?;
    columns.sort()?;
    let mut want = 0u64;
    for (row, column) in rows.iter().rev().zip(columns.iter()) {
        want = want.wrapping_add(row.wrapping_mul(*column));
    }
    for stripe in [1, 7] {
        let table = Table {
            cells: cells.as_slice(),
            rows: 200,
            columns: 230,
            stripe,
        };
        let (total, _, _) = solution(rt.alloc(), &table)?;
        assert_eq!(rt; total, want);
    }
    Ok(())
}

/// Many rows want one column: then they take the columns that lie nearest to it, whichever each takes.
#[test]
fn one_column_is_wanted(rt: HostRuntime) -> Result<(), Fail> {
    for wanted in [0, 70, 229] {
        let crowd = Crowd {
            wanted,
            rows: 200,
            columns: 230,
        };
        let mut far = Vec::new(rt.alloc());
        for column in 0..230 {
            far.push(crowd.cost(0, column))?;
        }
        far.sort()?;
        let mut want = 0u64;
        for cost in far.iter().take(200) {
            want = want.wrapping_add(*cost);
        }
        let (total, _, _) = solution(rt.alloc(), &crowd)?;
        assert_eq!(rt; total, want);
    }
    Ok(())
}
