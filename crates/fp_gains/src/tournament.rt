//! A tournament tree over slots, each with a cell and a key: a greater key wins, and a lesser cell among equal keys.
//!
//! After the tree selection of D. E. Knuth, "The Art of Computer Programming", volume 3, 1973, with four players to a match.

ghost use Rattle.std.specs.Prelude.{◌≡◌, ◌+◌, ◌-◌, ◌*◌, ◌/◌, ◌%◌, ◌<◌, ◌≤◌, ◌^◌, ◌++◌, IfOk, length, set, map, drop, replicate};
ghost use Rattle.std.specs.List.{All};
ghost use Rattle.fp_gains.specs.Contests.{leader_of, leader_at, unkeyed, unkeyed_rank, keyed_rank, rekeyed, dealt, leaders_in, rank_at, IsWinner, IsMost, IsGreatest, IsLaidOut, IsTree, IsKept, IsWaiting, IsTop, IsOuter, IsBestSlot};

use fp_base::{CellId, NoMemory};
use std::alloc::Global;
use std::marker::Model;

/// A cell and its key. A greater key goes first, and a lesser cell among equal keys.
#[derive(Clone, Copy, Debug, PartialEq, Eq)]
pub struct Leader {
    pub cell: CellId,
    pub key: u32,
}

// How many cells there may be.
const CELLS: u64 = 1 << 18;

// How many nodes play in a match.
const PLAYERS: usize = 4;

/// So many slots, each with a cell and a key. Setting a key and asking for the best of the first slots take a number of steps that is
/// logarithmic in the slots. A slot is one number, its rank, which is greater for a better leader. The ranks stand in one flat list, of
/// which node k holds the greatest of the nodes 4k + 1 to 4k + 4. The slots stand behind the inner nodes, and the at most two nodes
/// behind the slots, which fill the last match, hold 0.
#[derive(Drop)]
pub struct Tournament {
    inner: usize,
    slots: usize,
    nodes: Vec<u64>,
}

impl Model for Tournament {
    ghost use Rattle.std.specs.Prelude.{List};
    ghost use Rattle.fp_gains.specs.declared.tournament.Leader.{Leader};
    ghost use Rattle.fp_gains.specs.KeptTournament.{leaves_of, HoldsTree};

    ghost Value = { List Leader };

    ghost view = { leaves_of };

    ghost invariant = { HoldsTree };
}

impl Tournament {
    /// A slot of key 0 for each of these cells, in this order. The only call that takes memory, at most 11 bytes for each cell and 19
    /// more; it fails where there is none.
    pub fn new(alloc: Global, cells: &[CellId]) -> Result<Tournament, NoMemory>
        requires few { length cells.now ≤ 2 ^ 18 }
        requires small { All (λ cell. cell.0 < 2 ^ 18) cells.now }
        ensures { IfOk result (λ tournament. tournament ≡ map unkeyed cells.now) }
    {
        let slots = cells.len();
        let inner = (slots + 1) / (PLAYERS - 1);
        let mut nodes = seats(alloc, cells, inner)?;
        play(&mut nodes, inner);
        Ok(Tournament {
            inner,
            slots,
            nodes,
        })
    }

    /// The number of slots.
    pub fn len(&self) -> usize
        ensures { result ≡ length self.now }
    {
        self.slots
    }

    /// The cell of a slot.
    pub fn cell(&self, slot: usize) -> CellId
        requires { slot < length self.now }
        ensures { result ≡ (leader_at self.now slot).cell }
    {
        leader_with(self.nodes[self.inner + slot]).cell
    }

    /// Gives a slot another key.
    pub fn set(&mut self, slot: usize, key: u32)
        requires { slot < length self.old }
        ensures { self.new ≡ rekeyed self.old slot key }
    {
        rekey(&mut self.nodes, self.inner, slot, key);
    }

    /// Gives each slot the key that its cell has in a list of keys by cell.
    pub fn deal(&mut self, keys: &[u32])
        requires { All (λ leaf. leaf.cell.0 < length keys.now) self.old }
        ensures { self.new ≡ map (dealt keys.now) self.old }
    {
        rekey_all(&mut self.nodes, self.inner, self.slots, keys);
    }

    /// The best of all slots; none where there are none.
    pub fn leader(&self) -> Option<Leader>
        ensures { IsBestSlot self.now (length self.now) result }
    {
        if self.slots == 0 {
            return None;
        }
        Some(leader_with(self.nodes[0]))
    }

    /// The best of the first `count` slots; none where that is 0.
    pub fn first(&self, count: usize) -> Option<Leader>
        requires { count ≤ length self.now }
        ensures { IsBestSlot self.now count result }
    {
        if count == self.slots {
            return self.leader();
        }
        if count == 0 {
            return None;
        }
        Some(leader_with(best_of(&self.nodes, self.inner, count)))
    }
}

/// The better of two.
pub fn winner(one: Leader, other: Leader) -> Leader
    ensures { IsWinner one other result }
{
    if other.key > one.key || other.key == one.key && other.cell.0 < one.cell.0 {
        other
    } else {
        one
    }
}

// The leader with a rank.
fn leader_with(rank: u64) -> Leader
    requires { rank < 2 ^ 50 }
    ensures { result ≡ leader_of rank }
{
    Leader {
        cell: CellId((CELLS - 1 - rank % CELLS) as u32),
        key: (rank / CELLS) as u32,
    }
}

// A rank with another key.
fn with_key(rank: u64, key: u32) -> u64
    ensures { result ≡ keyed_rank rank key }
{
    u64::from(key) * CELLS + rank % CELLS
}

// The ranks of the cells, each with key 0, behind so many nodes that are not played yet, and nodes of 0 up to the end of the last match.
fn seats(alloc: Global, cells: &[CellId], inner: usize) -> Result<Vec<u64>, NoMemory>
    requires few { length cells.now ≤ 2 ^ 18 }
    requires small { All (λ cell. cell.0 < 2 ^ 18) cells.now }
    requires inner { inner ≤ 2 ^ 18 }
    requires fits { length cells.now ≤ 3 * inner + 1 }
    ensures { IfOk result (λ nodes. nodes.items ≡ replicate inner 0 ++ map unkeyed_rank cells.now ++ replicate (3 * inner + 1 - length cells.now) 0) }
{
    let full = PLAYERS * inner + 1;
    let mut nodes = Vec::with_capacity(alloc, full)?;
    nodes.resize(inner, 0)?;
    for cell in cells {
        nodes.push(CELLS - 1 - u64::from(cell.0))?;
    }
    nodes.resize(full, 0)?;
    Ok(nodes)
}

// Plays all matches, the last nodes first.
fn play(nodes: &mut [u64], inner: usize)
    requires { IsLaidOut inner nodes.old }
    ensures tree { IsTree inner nodes.new }
    ensures leaves { drop inner nodes.new ≡ drop inner nodes.old }
{
    for node in (0..inner).rev() {
        nodes[node] = greatest(nodes, node);
    }
}

// The greatest of the four nodes below a node.
fn greatest(nodes: &[u64], node: usize) -> u64
    requires { 4 * node + 4 < length nodes.now }
    ensures { IsGreatest nodes.now node result }
{
    let first = PLAYERS * node + 1;
    let early = nodes[first].max(nodes[first + 1]);
    let late = nodes[first + 2].max(nodes[first + 3]);
    early.max(late)
}

// The greatest of four nodes at most, those from `start` on and up to `last`. It has no branch: where there are fewer, the last one
// is asked again.
fn most(nodes: &[u64], start: usize, last: usize) -> u64
    requires order { start ≤ last }
    requires inside { last < length nodes.now }
    ensures { IsMost nodes.now start last result }
{
    let second = (start + 1).min(last);
    let third = (start + 2).min(last);
    let fourth = (start + 3).min(last);
    let early = nodes[start].max(nodes[second]);
    let late = nodes[third].max(nodes[fourth]);
    early.max(late)
}

// Gives a slot another key and plays its matches again.
fn rekey(nodes: &mut [u64], inner: usize, slot: usize, key: u32)
    requires tree { IsTree inner nodes.old }
    requires slot { inner + slot < length nodes.old }
    ensures tree { IsTree inner nodes.new }
    ensures leaves { drop inner nodes.new ≡ drop inner (set nodes.old (inner + slot) (keyed_rank (rank_at nodes.old (inner + slot)) key)) }
{
    let leaf = inner + slot;
    let held = nodes[leaf];
    nodes[leaf] = with_key(held, key);
    replay(nodes, inner, leaf, held);
}

// Gives each slot the key that its cell has in a list of keys by cell, and plays all matches.
fn rekey_all(nodes: &mut [u64], inner: usize, slots: usize, keys: &[u32])
    requires kept { IsKept inner slots nodes.old }
    requires cells { All (λ leaf. leaf.cell.0 < length keys.now) (leaders_in inner slots nodes.old) }
    ensures kept { IsKept inner slots nodes.new }
    ensures leaves { leaders_in inner slots nodes.new ≡ map (dealt keys.now) (leaders_in inner slots nodes.old) }
{
    for slot in 0..slots {
        let rank = nodes[inner + slot];
        let cell = leader_with(rank).cell;
        nodes[inner + slot] = with_key(rank, keys[cell.0 as usize]);
    }
    play(nodes, inner);
}

// Plays the matches above a changed node again, up to the first whose winner stays.
fn replay(nodes: &mut [u64], inner: usize, mut node: usize, mut held: u64)
    requires { IsWaiting inner nodes.old node held }
    ensures tree { IsTree inner nodes.new }
    ensures leaves { drop inner nodes.new ≡ drop inner nodes.old }
{
    while node > 0 {
        let above = (node - 1) / PLAYERS;
        let best = winner_above(nodes, inner, node, held);
        held = nodes[above];
        if best == held {
            return;
        }
        nodes[above] = best;
        node = above;
    }
}

// The winner of the match that a changed node plays in. Where it was the best of them and is so no more, all are asked.
fn winner_above(nodes: &[u64], inner: usize, node: usize, held: u64) -> u64
    requires waiting { IsWaiting inner nodes.now node held }
    requires below { 0 < node }
    ensures { IsGreatest nodes.now ((node - 1) / 4) result }
{
    let above = (node - 1) / PLAYERS;
    let best = nodes[above];
    let rank = nodes[node];
    if rank >= best {
        rank
    } else if held < best {
        best
    } else {
        greatest(nodes, above)
    }
}

// The best of the first slots. The nodes from `low` on and below `high` stand for slots that are still to be asked: the outermost
// of them are asked at each turn, and the nodes above the others stand for them at the next.
fn best_of(nodes: &[u64], inner: usize, count: usize) -> u64
    requires tree { IsTree inner nodes.now }
    requires some { 0 < count }
    requires within { inner + count < length nodes.now }
    ensures { IsTop inner nodes.now count result }
{
    let mut best = nodes[inner];
    let mut low = inner;
    let mut high = inner + count;
    while low < high {
        best = best.max(outermost(nodes, low, high));
        low = (low - 1) / PLAYERS + 1;
        high = (high - 2) / PLAYERS;
    }
    best
}

// The greatest of the first four and the last four of the nodes from `low` on and below `high`: among them are all that play with the
// first or with the last.
fn outermost(nodes: &[u64], low: usize, high: usize) -> u64
    requires less { low < high }
    requires within { high ≤ length nodes.now }
    ensures { IsOuter nodes.now low high result }
{
    let last = high - 1;
    let start = high.saturating_sub(PLAYERS).max(low);
    most(nodes, low, last).max(most(nodes, start, last))
}
