//! The free lengths of a die's segments.

ghost use Rattle.std.specs.Prelude.{◌≡◌, ℕ, ◌+◌, ◌-◌, ◌/◌, ◌<◌, ◌≤◌, ◌^◌, ◌≤ℤ◌, ◌-ℤ◌, pos, false, IfOk, IsTrue, length, get_or, set};
ghost use Rattle.fp_coarse.specs.Rooms.{lengths, has_free, AreRooms, AreShut, IsBounded};

use fp_base::NoMemory;
use fp_tech::Segment;
use std::alloc::Global;

/// As many segments as a block has.
const BLOCK: usize = 64;

/// The free length of each segment, and for each block of segments a bound that none of its free lengths is above, so that full blocks are
/// passed over.
#[derive(Drop)]
pub struct Rooms {
    pub free: Vec<i64>,
    pub most: Vec<i64>,
}

impl Rooms {
    /// All segments are free.
    pub fn new(alloc: Global, segments: &[Segment]) -> Result<Rooms, NoMemory>
        requires { length segments.now ≤ 2 ^ 16 }
        ensures rooms { IfOk result (λ rooms. AreRooms rooms.free.items rooms.most.items) }
        ensures free { IfOk result (λ rooms. rooms.free.items ≡ lengths segments.now) }
    {
        let free = free_lengths(alloc, segments)?;
        let most = bounds(alloc, free.as_slice())?;
        Ok(Rooms { free, most })
    }

    /// Whether a segment has room for a width.
    pub fn is_open(&self, width: i64, segment: usize) -> bool
        requires { segment < length self.now.free.items }
        ensures { result ≡ has_free self.now.free.items width segment }
    {
        width <= self.free[segment]
    }

    // How many segments, from one without room on, are known to have none: the rest of its block, or it alone.
    fn shut_from(&self, width: i64, segment: usize) -> usize
        requires rooms { AreRooms self.now.free.items self.now.most.items }
        requires within { segment < length self.now.free.items }
        requires shut { has_free self.now.free.items width segment ≡ false }
        ensures some { 1 ≤ result }
        ensures few { result ≤ 64 }
        ensures shut { (number : ℕ) → segment ≤ number → number < segment + result → number < length self.now.free.items
            → has_free self.now.free.items width number ≡ false }
    {
        let block = segment / BLOCK;
        if self.most[block] < width {
            (block + 1) * BLOCK - segment
        } else {
            1
        }
    }

    /// The first segment from a number on that has room for a width, or the number of segments where none has.
    pub fn next_open(&self, width: i64, from: usize) -> usize
        requires rooms { AreRooms self.now.free.items self.now.most.items }
        requires within { from ≤ length self.now.free.items }
        ensures from { from ≤ result }
        ensures within { result ≤ length self.now.free.items }
        ensures shut { AreShut self.now.free.items width from result }
        ensures open { result < length self.now.free.items → IsTrue (has_free self.now.free.items width result) }
    {
        let count = self.free.len();
        let mut at = from;
        while at < count {
            if self.is_open(width, at) {
                return at;
            }
            at += self.shut_from(width, at);
        }
        count
    }

    // The first of the segments below a number, the last of them without room, from which on all are known to have none.
    fn shut_down_to(&self, width: i64, below: usize) -> usize
        requires rooms { AreRooms self.now.free.items self.now.most.items }
        requires some { 1 ≤ below }
        requires within { below ≤ length self.now.free.items }
        requires shut { has_free self.now.free.items width (below - 1) ≡ false }
        ensures lower { result < below }
        ensures shut { AreShut self.now.free.items width result below }
    {
        let block = (below - 1) / BLOCK;
        if self.most[block] < width {
            block * BLOCK
        } else {
            below - 1
        }
    }

    /// One more than the last segment below a number that has room for a width, or 0 where none has.
    pub fn last_open(&self, width: i64, below: usize) -> usize
        requires rooms { AreRooms self.now.free.items self.now.most.items }
        requires within { below ≤ length self.now.free.items }
        ensures below { result ≤ below }
        ensures shut { AreShut self.now.free.items width result below }
        ensures open { 0 < result → IsTrue (has_free self.now.free.items width (result - 1)) }
    {
        let mut low = below;
        while low > 0 {
            if self.is_open(width, low - 1) {
                return low;
            }
            low = self.shut_down_to(width, low);
        }
        0
    }

    /// A segment's free length falls by a width.
    pub fn take(&mut self, segment: usize, width: i64)
        requires rooms { AreRooms self.old.free.items self.old.most.items }
        requires within { segment < length self.old.free.items }
        requires some { pos 0 ≤ℤ width }
        requires room { IsTrue (has_free self.old.free.items width segment) }
        ensures rooms { AreRooms self.new.free.items self.new.most.items }
        ensures free { self.new.free.items ≡ set self.old.free.items segment (get_or self.old.free.items segment (pos 0) -ℤ width) }
    {
        lower(&mut self.free, segment, width);
        set_bound(&mut self.most, self.free.as_slice(), segment / BLOCK);
    }
}

// A free length falls by a width.
fn lower(free: &mut Vec<i64>, segment: usize, width: i64)
    requires within { segment < length free.old.items }
    requires some { pos 0 ≤ℤ width }
    requires room { IsTrue (has_free free.old.items width segment) }
    ensures { free.new.items ≡ set free.old.items segment (get_or free.old.items segment (pos 0) -ℤ width) }
{
    free[segment] -= width;
}

// Sets the bound of a block to its greatest free length.
fn set_bound(most: &mut Vec<i64>, free: &[i64], block: usize)
    requires few { length free.now ≤ 2 ^ 16 }
    requires within { block ≤ length free.now }
    requires there { block < length most.old.items }
    ensures { IsBounded free.now block most.old.items most.new.items }
{
    most[block] = greatest(free, block);
}

fn free_lengths(alloc: Global, segments: &[Segment]) -> Result<Vec<i64>, NoMemory>
    ensures { IfOk result (λ free. free.items ≡ lengths segments.now) }
{
    let free = segments
        .iter()
        .map(|segment| segment.length)
        .collect(alloc)?;
    Ok(free)
}

// The bounds of all blocks.
fn bounds(alloc: Global, free: &[i64]) -> Result<Vec<i64>, NoMemory>
    requires { length free.now ≤ 2 ^ 16 }
    ensures { IfOk result (λ most. AreRooms free.now most.items) }
{
    let blocks = free.len() / BLOCK + 1;
    let mut most = Vec::with_capacity(alloc, blocks)?;
    for block in 0..blocks {
        most.push(greatest(free, block))?;
    }
    Ok(most)
}

// The greatest free length of a block.
fn greatest(free: &[i64], block: usize) -> i64
    requires few { length free.now ≤ 2 ^ 16 }
    requires within { block ≤ length free.now }
    ensures { (number : ℕ) → number < length free.now → number / 64 ≡ block → get_or free.now number (pos 0) ≤ℤ result }
{
    let from = block * BLOCK;
    let to = free.len().min(from + BLOCK);
    let mut most = 0;
    for number in from..to {
        most = most.max(free[number]);
    }
    most
}
