//! The bounding box of a net's points on each die.

ghost use Rattle.std.specs.Prelude.{◌≡◌, ◌≤◌, ◌^◌, ◌+ℤ◌, pos, IfSome};
ghost use Rattle.fp_score.specs.Reaches.{joined, half, none_reached, with_point, with_terminal, IsNear, IsNearReach, AreNear};

use crate::reach::Reach;
use fp_base::{Die, Point};

/// The bounding box of the points on each die, none where there are no points.
#[derive(Clone, Copy, Debug, PartialEq, Eq)]
pub struct Reaches {
    pub top: Option<Reach>,
    pub bottom: Option<Reach>,
}

// A bounding box with one point more, or of that point alone.
fn joined(reach: Option<Reach>, point: Point) -> Reach
    requires point { IsNear point }
    requires reach { IfSome reach IsNearReach }
    ensures joined { result ≡ joined reach point }
    ensures near { IsNearReach result }
{
    match reach {
        Some(reach) => reach.stretched(point),
        None => Reach::of(point),
    }
}

// The half perimeter, 0 where there are no points.
fn half(reach: Option<Reach>) -> u64
    requires { IfSome reach IsNearReach }
    ensures length { pos result ≡ half reach }
    ensures most { result ≤ 2 ^ 32 }
{
    match reach {
        Some(reach) => reach.half_perimeter(),
        None => 0,
    }
}

impl Reaches {
    /// The bounding boxes of no points: none on either die.
    pub fn none() -> Reaches
        ensures none { result ≡ none_reached }
        ensures near { AreNear result }
    {
        Reaches {
            top: None,
            bottom: None,
        }
    }

    /// The bounding boxes with one point more on a die.
    pub fn with(self, die: Die, point: Point) -> Reaches
        requires point { IsNear point }
        requires reaches { AreNear self }
        ensures with { result ≡ with_point self die point }
        ensures near { AreNear result }
    {
        match die {
            Die::Top => Reaches {
                top: Some(joined(self.top, point)),
                bottom: self.bottom,
            },
            Die::Bottom => Reaches {
                top: self.top,
                bottom: Some(joined(self.bottom, point)),
            },
        }
    }

    /// The bounding boxes with a net's terminal, which is one point more on each die.
    pub fn with_terminal(self, terminal: Option<Point>) -> Reaches
        requires terminal { IfSome terminal IsNear }
        requires reaches { AreNear self }
        ensures with { result ≡ with_terminal self terminal }
        ensures near { AreNear result }
    {
        match terminal {
            Some(centre) => self.with(Die::Top, centre).with(Die::Bottom, centre),
            None => self,
        }
    }

    /// The half-perimeter wirelength on both dies, at most 2^33.
    pub fn length(self) -> u64
        requires { AreNear self }
        ensures length { pos result ≡ (half self.top +ℤ half self.bottom) }
        ensures most { result ≤ 2 ^ 33 }
    {
        half(self.top) + half(self.bottom)
    }
}
