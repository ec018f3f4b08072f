//! The segments of a die: its rows, cut by its blockages.

ghost use Rattle.std.specs.Prelude.{◌≡◌, ◌+◌, ◌≤◌, ◌<◌, ◌^◌, ◌++◌, All, IfOk, OnOk};
ghost use Rattle.std.specs.List.Sorted.{IsNonDecreasingBy};
ghost use Rattle.fp_tech.specs.Cutting.{AreOwn, Cuts, piece, pieces};
ghost use Rattle.fp_tech.specs.Plan.{IsBlock};

use crate::dies::{Block, DieSpec, DiesFault, Segment};
use fp_base::Die;
use std::alloc::{AllocError, Global};

// The greatest number of a die's segments.
const SEGMENTS: usize = 1 << 16;

/// The segments of a die, row by row upwards and in a row from the left. `TooMany` exactly where they are more than 2^16.
pub fn cut_rows(
    alloc: Global,
    die: Die,
    spec: DieSpec,
    blocks: &[Block],
) -> Result<Vec<Segment>, DiesFault>
    requires right { spec.start_x + spec.length ≤ 2 ^ 31 }
    requires repeat { spec.repeat ≤ 2 ^ 16 }
    requires blocks { All IsBlock blocks.now }
    ensures { Cuts spec die blocks.now result }
{
    let own = blocks_of(alloc, die, blocks)?;
    let mut segments = Vec::with_capacity(alloc, spec.repeat as usize)?;
    for row in 0..spec.repeat {
        cut_row(spec, row, own.as_slice(), &mut segments)?;
        if segments.len() > SEGMENTS {
            return Err(DiesFault::TooMany(die));
        }
    }
    Ok(segments)
}

// The blockages of a die by their left edge.
fn blocks_of(alloc: Global, die: Die, blocks: &[Block]) -> Result<Vec<Block>, AllocError>
    ensures { IfOk result (λ own. AreOwn die blocks.now own.items) }
{
    let mut own = Vec::from_slice(alloc, blocks)?;
    own.retain(|block| block.die == die);
    own.sort_unstable_by_key(|block| block.llx);
    Ok(own)
}

// Adds the segments of a row, in one sweep over the blockages by their left edge: what lies between those that meet the
// row. No blockage so far covers `at` or a place behind it.
fn cut_row(
    spec: DieSpec,
    row: u32,
    own: &[Block],
    segments: &mut Vec<Segment>,
) -> Result<(), AllocError>
    requires right { spec.start_x + spec.length ≤ 2 ^ 31 }
    requires row { row < 2 ^ 16 }
    requires own { All IsBlock own.now }
    requires by_left { IsNonDecreasingBy (λ (block : Block). block.llx) own.now }
    ensures { OnOk result (segments.new.items ≡ segments.old.items ++ pieces spec own.now row) }
{
    let lower = u64::from(spec.start_y) + u64::from(row) * u64::from(spec.height);
    let upper = lower + u64::from(spec.height);
    let end = spec.start_x + spec.length;
    let mut at = spec.start_x;
    for block in own {
        if u64::from(block.lly) < upper && lower < u64::from(block.ury) {
            push_piece(segments, lower, at, block.llx.min(end))?;
            at = at.max(block.urx);
        }
    }
    push_piece(segments, lower, at, end)
}

// Adds the segment from a place up to another, if there is a place between them.
fn push_piece(segments: &mut Vec<Segment>, y: u64, at: u32, end: u32) -> Result<(), AllocError>
    requires { y < 2 ^ 63 }
    ensures { OnOk result (segments.new.items ≡ segments.old.items ++ piece y at end) }
{
    if at < end {
        segments.push(Segment {
            y: y as i64,
            start: i64::from(at),
            length: i64::from(end - at),
        })?;
    }
    Ok(())
}
