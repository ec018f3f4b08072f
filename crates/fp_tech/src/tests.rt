//! Tests of dies: how blockages cut their rows, what is refused, and that memory is enough.

ghost use Rattle.std.specs.Prelude.{◌≡◌, ◌≤◌, ◌^◌, IsTrue, All, length};
ghost use Rattle.fp_tech.specs.Plan.{IsBlock, IsDieSpec};

use crate::cutting::cut_rows;
use crate::{Block, DieSpec, Dies, DiesFault, Frame, Grid, Segment, TechBook, TermSpec};
use fp_base::{Bottom, Die, TechId, Top};
use std::alloc::Global;
use std::process::Abort;
use std::test::Fail;

// Two rows of 20 by 10 from the origin.
const ROWS: DieSpec = DieSpec {
    percent: 80,
    tech: TechId(0),
    start_x: 0,
    start_y: 0,
    length: 20,
    height: 10,
    repeat: 2,
};

// A blockage of the bottom die.
fn bottom(llx: u32, lly: u32, urx: u32, ury: u32) -> Block {
    Block {
        die: Die::Bottom,
        llx,
        lly,
        urx,
        ury,
    }
}

// A blockage of the top die.
fn top(llx: u32, lly: u32, urx: u32, ury: u32) -> Block {
    Block {
        die: Die::Top,
        ..bottom(llx, lly, urx, ury)
    }
}

fn are_blocks(blocks: &[Block]) -> bool
    ensures { IsTrue result → All IsBlock blocks.now }
{
    blocks.iter().all(|block| {
        block.llx < block.urx
            && block.lly < block.ury
            && block.urx <= 1 << 30
            && block.ury <= 1 << 30
    })
}

// Whether a die of a book with one technology is within the input's ranges.
fn is_die(spec: DieSpec) -> bool
    ensures { IsTrue result → IsDieSpec 1 spec }
{
    let below = 1 << 30;
    spec.percent <= 100
        && spec.tech.0 < 1
        && spec.start_x <= below
        && spec.start_y <= below
        && 1 <= spec.length
        && spec.length <= below
        && 1 <= spec.height
        && spec.height <= below
        && 1 <= spec.repeat
        && spec.repeat <= 1 << 16
}

// The two rows of the bottom die are cut into the segments of these y, starts and lengths.
fn expect_cut(
    rt: &impl Abort,
    alloc: Global,
    blocks: &[Block],
    expected: &[(i64, i64, i64)],
) -> Result<(), Fail> {
    assert!(rt; are_blocks(blocks));
    let segments = cut_rows(alloc, Die::Bottom, ROWS, blocks)?;
    assert_eq!(rt; segments.len(), expected.len());
    for (segment, wanted) in segments.iter().zip(expected) {
        assert!(rt; (segment.y, segment.start, segment.length) == *wanted);
    }
    Ok(())
}

#[test]
fn blockages_cut_rows(rt: HostRuntime) -> Result<(), Fail> {
    let whole = (0, 0, 20);
    let upper = (10, 0, 20);
    let table: [(&[Block], &[(i64, i64, i64)]); 10] = [
        (&[], &[whole, upper]),
        (&[bottom(3, 0, 6, 10)], &[(0, 0, 3), (0, 6, 14), upper]),
        // They overlap, and one lies within another.
        (
            &[bottom(8, 2, 12, 9), bottom(3, 0, 9, 4), bottom(4, 1, 5, 2)],
            &[(0, 0, 3), (0, 12, 8), upper],
        ),
        // They lie outside the frame, wholly and partly.
        (&[bottom(30, 0, 40, 10)], &[whole, upper]),
        (&[bottom(15, 15, 40, 40)], &[whole, (10, 0, 15)]),
        // No place of a row is left.
        (&[bottom(0, 0, 20, 10)], &[upper]),
        (&[bottom(0, 0, 20, 20)], &[]),
        // Two touch, and there is no segment between them.
        (
            &[bottom(6, 0, 9, 10), bottom(3, 0, 6, 10)],
            &[(0, 0, 3), (0, 9, 11), upper],
        ),
        // One is of the other die.
        (&[top(3, 0, 6, 10)], &[whole, upper]),
        // One begins at the upper edge of the lower row.
        (&[bottom(3, 10, 6, 20)], &[whole, (10, 0, 3), (10, 6, 14)]),
    ];
    for (blocks, expected) in table {
        expect_cut(&rt, rt.alloc(), blocks, expected)?;
    }
    Ok(())
}

// Dies of a book with one technology, in a frame of 20 by this height.
fn dies_of(
    rt: &impl Abort,
    alloc: Global,
    height: u32,
    top: DieSpec,
    bottom: DieSpec,
    blocks: &[Block],
) -> Result<Dies, DiesFault>
    requires some { 1 ≤ height }
    requires small { height ≤ 2 ^ 30 }
{
    let frame = Frame {
        llx: 0,
        lly: 0,
        urx: 20,
        ury: height,
    };
    let terminal = TermSpec {
        size_x: 2,
        size_y: 2,
        spacing: 1,
        cost: 0,
    };
    assert!(rt; is_die(top));
    assert!(rt; is_die(bottom));
    assert!(rt; are_blocks(blocks));
    assert!(rt; blocks.len() <= 1024);
    let mut book = TechBook::new(alloc);
    assert!(rt; book.add_tech(b"TA").is_ok());
    assert!(rt; book.techs() == 1);
    Dies::new(alloc, book, frame, top, bottom, terminal, blocks)
}

fn expect_kept(rt: &impl Abort, dies: &Dies, blocks: &[Block]) {
    assert_eq!(rt; dies.blocks(), blocks);
    let rows = dies.segments::<Top>();
    assert_eq!(rt; rows.len(), 2);
    assert_eq!(rt;
        rows[1],
        Segment {
            y: 10,
            start: 0,
            length: 20
        }
    );
    assert_eq!(rt; dies.segments::<Bottom>().len(), 3);
    assert_eq!(rt; dies.segments_of(Die::Bottom), dies.segments::<Bottom>());
    assert_eq!(rt; Grid::of(dies).slots(), 36);
}

#[test]
fn dies_of_small_rows(rt: HostRuntime) -> Result<(), Fail> {
    let blocks = [bottom(3, 0, 6, 10)];
    let dies = dies_of(&rt, rt.alloc(), 20, ROWS, ROWS, &blocks)?;
    expect_kept(&rt, &dies, &blocks);
    drop(dies);
    Ok(())
}

// Why dies in a frame of 20 by 40,000 are refused.
fn expect_refused(
    rt: &impl Abort,
    alloc: Global,
    top: DieSpec,
    bottom: DieSpec,
    blocks: &[Block],
    fault: DiesFault,
) {
    let refused = match dies_of(rt, alloc, 40_000, top, bottom, blocks) {
        Ok(dies) => {
            drop(dies);
            None
        }
        Err(found) => Some(found),
    };
    assert_eq!(rt; refused, Some(fault));
}

#[test]
fn refused_dies(rt: HostRuntime) -> Result<(), Fail> {
    let outside = DieSpec { start_x: 1, ..ROWS };
    let high = DieSpec {
        length: 3,
        height: 1,
        repeat: 40_000,
        ..ROWS
    };
    let top_cut = top(1, 0, 2, 40_000);
    let both_cut = [top_cut, bottom(1, 0, 2, 40_000)];
    let table: [(DieSpec, DieSpec, &[Block], DiesFault); 6] = [
        (outside, outside, &[], DiesFault::RowsOutside(Die::Top)),
        (ROWS, outside, &[], DiesFault::RowsOutside(Die::Bottom)),
        (
            high,
            outside,
            &both_cut,
            DiesFault::RowsOutside(Die::Bottom),
        ),
        (high, ROWS, &both_cut, DiesFault::TooMany(Die::Top)),
        (ROWS, high, &both_cut, DiesFault::TooMany(Die::Bottom)),
        (high, high, &both_cut, DiesFault::TooMany(Die::Top)),
    ];
    for (top, bottom, blocks, fault) in table {
        expect_refused(&rt, rt.alloc(), top, bottom, blocks, fault);
    }
    Ok(())
}
