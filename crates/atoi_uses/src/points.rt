//! Reads three signed numbers with commas between them.
ghost use Rattle.std.specs.Prelude.{IfSome, IfNone};
ghost use Rattle.atoi_uses.specs.Points.{IsPoint};
ghost use Rattle.atoi_uses.specs.declared.points.Point.{Point as PointValue};

use atoi_formats::{number, number_then};

/// A point in space.
#[derive(Clone, Copy, Debug, PartialEq, Eq)]
pub struct Point {
    pub x: i64,
    pub y: i64,
    pub z: i64,
}

/// Parses `text` as a point such as `-3,+40,12`. Each number may have a sign and leading zeros.
pub fn parse_point(text: &[u8]) -> Option<Point>
    ensures some { IfSome result (λ point. IsPoint text.now point) }
    ensures none { IfNone result ((any : PointValue) → ¬ IsPoint text.now any) }
{
    let (x, rest) = number_then::<i64>(text, b',')?;
    let (y, rest) = number_then::<i64>(rest, b',')?;
    let z = number::<i64>(rest)?;
    Some(Point { x, y, z })
}
