//! Bounding boxes of points.

ghost use Rattle.std.specs.Prelude.{◌≡◌, ◌≤◌, ◌^◌, pos};
ghost use Rattle.fp_score.specs.Score.{reach_of, stretched, half_perimeter};
ghost use Rattle.fp_score.specs.Reaches.{IsNear, IsNearReach};

use fp_base::Point;

/// The bounding box of points: their least and their greatest coordinates.
#[derive(Clone, Copy, Debug, PartialEq, Eq)]
pub struct Reach {
    pub left: i64,
    pub right: i64,
    pub low: i64,
    pub high: i64,
}

impl Reach {
    /// The bounding box of one point.
    pub fn of(point: Point) -> Reach
        ensures { result ≡ reach_of point }
    {
        Reach {
            left: point.x,
            right: point.x,
            low: point.y,
            high: point.y,
        }
    }

    /// The bounding box with one point more.
    pub fn stretched(self, point: Point) -> Reach
        ensures { result ≡ stretched self point }
    {
        Reach {
            left: self.left.min(point.x),
            right: self.right.max(point.x),
            low: self.low.min(point.y),
            high: self.high.max(point.y),
        }
    }

    /// The half perimeter, at most 2^32: the width and the height together. The points are from 0 to 2^31 on each axis.
    pub fn half_perimeter(self) -> u64
        requires { IsNearReach self }
        ensures length { pos result ≡ half_perimeter self }
        ensures most { result ≤ 2 ^ 32 }
    {
        self.right.abs_diff(self.left) + self.high.abs_diff(self.low)
    }
}
