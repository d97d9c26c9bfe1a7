// Planes and directions as numbers. Methods, not a `From`: C has another number of a direction.
ghost use Rattle.std.specs.Prelude.{◌≡◌};
ghost use Rattle.circle.specs.Rule.{plane_number, direction_number};

use super::{Direction, Plane};

impl Plane {
    // 0, 1 or 2.
    pub fn number(self) -> u8
        ensures { result ≡ plane_number self }
    {
        match self {
            Plane::XY => 0,
            Plane::XZ => 1,
            Plane::YZ => 2,
        }
    }
}

impl Direction {
    // 0 or -1.
    pub fn number(self) -> i8
        ensures { result ≡ direction_number self }
    {
        match self {
            Direction::Clockwise => 0,
            Direction::Counter => -1,
        }
    }
}
