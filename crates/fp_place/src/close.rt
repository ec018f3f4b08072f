//! Terminals that are too close to each other.

ghost use Rattle.std.specs.Prelude.{◌≡◌, ◌+◌, ◌-◌, ◌*◌, ◌<◌, ◌≤◌, ◌^◌, ◌↔◌, false, All, Any, IfOk, IfSome, IsTrue, length};
ghost use Rattle.std.specs.List.{Contains};
ghost use Rattle.std.specs.List.Sorted.{IsPermutation};
ghost use Rattle.fp_tech.specs.Plan.{IsTermSpec};
ghost use Rattle.fp_tech.specs.Slots.{AreApart};
ghost use Rattle.fp_place.specs.Buckets.{column, row, bucket, entry_of, AreEntries, AreInOrder, AreFar, IsPlaced, StandsNear, IsTooClose};
ghost use Rattle.fp_place.specs.Closeness.{IsApart, FindsClose};
ghost use Rattle.fp_place.specs.Placed.{IsCentre};

use fp_base::{NoMemory, Point};
use fp_tech::TermSpec;
use std::alloc::Global;

/// The first net whose terminal is too close to that of some other net: nearer than a pitch on both axes. A pitch is a terminal's size
/// and a spacing. A net's place in the list is its number; a net without a terminal is close to none. `Err` where memory is refused.
pub fn first_close(
    alloc: Global,
    terminal: TermSpec,
    centres: &[Option<Point>],
) -> Result<Option<usize>, NoMemory>
    requires terminal { IsTermSpec terminal }
    requires few { length centres.now ≤ 2 ^ 18 }
    requires range { All (λ centre. IfSome centre IsCentre) centres.now }
    ensures { IfOk result (FindsClose terminal centres.now) }
{
    let mut entries = entries_of(alloc, terminal, centres)?;
    put_in_order(&mut entries);
    for net in 0..centres.len() {
        if is_close(terminal, centres, &entries, net) {
            return Ok(Some(net));
        }
    }
    Ok(None)
}

/// A net's terminal, and the bucket in which it stands. Buckets are as wide and as high as a pitch, so whatever is too close to a
/// terminal stands in its bucket or in one of the eight round it. They are numbered row by row.
#[derive(Clone, Copy)]
struct Entry {
    bucket: u64,
    net: usize,
    centre: Point,
}

// The numbers in a row of buckets: more than there are columns.
const ROW_LENGTH: u64 = 1 << 31;

// The column of buckets in which a centre stands.
#[tactic(auto, unfolding(crate::specs::Buckets::column))]
fn column_of(terminal: TermSpec, centre: Point) -> u64
    requires terminal { IsTermSpec terminal }
    requires centre { IsCentre centre }
    ensures value { result ≡ column terminal centre }
    ensures small { result ≤ 2 ^ 30 }
{
    centre.x.unsigned_abs() / u64::from(terminal.size_x + terminal.spacing)
}

// The row of buckets in which a centre stands.
#[tactic(auto, unfolding(crate::specs::Buckets::row))]
fn row_of(terminal: TermSpec, centre: Point) -> u64
    requires terminal { IsTermSpec terminal }
    requires centre { IsCentre centre }
    ensures value { result ≡ row terminal centre }
    ensures small { result ≤ 2 ^ 30 }
{
    centre.y.unsigned_abs() / u64::from(terminal.size_y + terminal.spacing)
}

// The entries of the nets that have a terminal, in the order of the nets.
fn entries_of(
    alloc: Global,
    terminal: TermSpec,
    centres: &[Option<Point>],
) -> Result<Vec<Entry>, NoMemory>
    requires terminal { IsTermSpec terminal }
    requires range { All (λ centre. IfSome centre IsCentre) centres.now }
    ensures { IfOk result (λ entries. AreEntries terminal centres.now entries.items) }
{
    let mut entries = Vec::new(alloc);
    for (net, centre) in centres.iter().enumerate() {
        if let Some(centre) = centre {
            entries.push(entry_of(terminal, net, *centre))?;
        }
    }
    Ok(entries)
}

// The entry of a net with this terminal.
fn entry_of(terminal: TermSpec, net: usize, centre: Point) -> Entry
    requires terminal { IsTermSpec terminal }
    requires centre { IsCentre centre }
    ensures { result ≡ entry_of terminal net centre }
{
    Entry {
        bucket: row_of(terminal, centre) * ROW_LENGTH + column_of(terminal, centre),
        net,
        centre,
    }
}

// Puts entries in the order of their buckets.
fn put_in_order(entries: &mut Vec<Entry>)
    ensures order { AreInOrder entries.new.items }
    ensures kept { IsPermutation entries.old.items entries.new.items }
{
    entries.sort_unstable_by_key(|entry| entry.bucket);
}

// Whether the terminal of a net is too close to that of some other net.
fn is_close(terminal: TermSpec, centres: &[Option<Point>], entries: &[Entry], net: usize) -> bool
    requires terminal { IsTermSpec terminal }
    requires range { All (λ centre. IfSome centre IsCentre) centres.now }
    requires entries { AreEntries terminal centres.now entries.now }
    requires order { AreInOrder entries.now }
    requires net { net < length centres.now }
    ensures close { IsTrue result → IsApart terminal centres.now net → ⊥ }
    ensures apart { result ≡ false → IsApart terminal centres.now net }
{
    match centres[net] {
        Some(centre) => meets_any(terminal, entries, net, centre),
        None => false,
    }
}

// Whether some entry of another net is too close to a net's terminal: it would stand in one of three rows of buckets.
fn meets_any(terminal: TermSpec, entries: &[Entry], net: usize, centre: Point) -> bool
    requires terminal { IsTermSpec terminal }
    requires centre { IsCentre centre }
    requires entries { All (IsPlaced terminal) entries.now }
    requires order { AreInOrder entries.now }
    ensures { IsTrue result ↔ Any (IsTooClose terminal net centre) entries.now }
{
    let row = row_of(terminal, centre);
    for near in row.saturating_sub(1)..row + 2 {
        if meets_in_row(terminal, entries, net, centre, near) {
            return true;
        }
    }
    false
}

// Whether some entry of another net is too close to a net's terminal, of those in this row of buckets and in the terminal's column or
// one beside it.
fn meets_in_row(terminal: TermSpec, entries: &[Entry], net: usize, centre: Point, row: u64) -> bool
    requires terminal { IsTermSpec terminal }
    requires centre { IsCentre centre }
    requires order { AreInOrder entries.now }
    requires row { row < 2 ^ 31 }
    ensures met { IsTrue result → Any (IsTooClose terminal net centre) entries.now }
    ensures missed { result ≡ false → All (λ entry. StandsNear terminal centre row entry → IsTooClose terminal net centre entry → ⊥) entries.now }
{
    let start = row * ROW_LENGTH;
    let column = column_of(terminal, centre);
    let first = start + column.saturating_sub(1);
    let last = start + (column + 1);
    meets_one_of(terminal, net, centre, run(entries, first, last))
}

// Whether one of these entries is of another net and not apart from a net's terminal.
fn meets_one_of(terminal: TermSpec, net: usize, centre: Point, entries: &[Entry]) -> bool
    requires { IsTermSpec terminal }
    ensures { IsTrue result ↔ Any (IsTooClose terminal net centre) entries.now }
{
    entries
        .iter()
        .any(|entry| is_too_close(terminal, net, centre, *entry))
}

// Whether an entry is of another net and not apart from a net's terminal.
fn is_too_close(terminal: TermSpec, net: usize, centre: Point, entry: Entry) -> bool
    requires { IsTermSpec terminal }
    ensures { IsTrue result ↔ IsTooClose terminal net centre entry }
{
    entry.net != net && !are_apart(terminal, centre, entry.centre)
}

// The entries of the buckets from `first` to `last`.
fn run(entries: &[Entry], first: u64, last: u64) -> &[Entry]
    requires { AreInOrder entries.now }
    ensures within { All (Contains entries.now) result.now }
    ensures all { (entry : Entry) → Contains entries.now entry → first ≤ entry.bucket → entry.bucket ≤ last → Contains result.now entry }
{
    let rest = &entries[entries.partition_point(|entry| entry.bucket < first)..];
    &rest[..rest.partition_point(|entry| entry.bucket <= last)]
}

// Whether two terminals with these centres are apart: a pitch or more on one axis.
fn are_apart(terminal: TermSpec, a: Point, b: Point) -> bool
    requires { IsTermSpec terminal }
    ensures { IsTrue result ↔ AreApart terminal a b }
{
    are_far(a.x, b.x, terminal.size_x + terminal.spacing)
        || are_far(a.y, b.y, terminal.size_y + terminal.spacing)
}

// Whether two coordinates are a pitch or more apart.
fn are_far(a: i64, b: i64, pitch: u32) -> bool
    ensures { IsTrue result ↔ AreFar pitch a b }
{
    a.abs_diff(b) >= u64::from(pitch)
}

#[cfg(test)]
mod tests {
    use super::*;

    const TERMINAL: TermSpec = TermSpec {
        size_x: 6,
        size_y: 6,
        spacing: 4,
        cost: 0,
    };

    fn at(x: u8, y: u8) -> Option<Point>
        ensures { IfSome result IsCentre }
    {
        Some(Point {
            x: i64::from(x),
            y: i64::from(y),
        })
    }

    fn first_of(
        alloc: Global,
        a: Option<Point>,
        b: Option<Point>,
        c: Option<Point>,
    ) -> Result<Option<usize>, NoMemory>
        requires a { IfSome a IsCentre }
        requires b { IfSome b IsCentre }
        requires c { IfSome c IsCentre }
    {
        first_close(alloc, TERMINAL, &[a, b, c])
    }

    #[test]
    fn a_pitch_on_one_axis_is_enough(rt: HostRuntime) {
        let here = at(7, 7);
        assert_eq!(&rt; first_of(rt.alloc(), here, at(17, 7), at(7, 17)), Ok(None));
        assert_eq!(&rt; first_of(rt.alloc(), at(16, 7), None, here), Ok(Some(0)));
        assert_eq!(&rt; first_of(rt.alloc(), None, here, at(7, 16)), Ok(Some(1)));
        assert_eq!(&rt; first_of(rt.alloc(), here, at(37, 7), here), Ok(Some(0)));
        assert_eq!(&rt;
            first_of(rt.alloc(), at(37, 7), at(16, 16), here),
            Ok(Some(1))
        );
    }
}
