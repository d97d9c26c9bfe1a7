// The plane and the direction of circles.
ghost use Rattle.std.specs.Prelude.{◌≡◌};
ghost use Rattle.circle.specs.Plan.{at_first, plane_of, direction_of};
ghost use Rattle.engine.specs.State.{with_circling, with_plane, with_direction};

use super::Engine;
use circle::{Circling, Direction, Plane};

// Plane 0, clockwise.
pub(crate) fn circling_first() -> Circling
    ensures { result ≡ at_first }
{
    Circling {
        plane: Plane::XY,
        direction: Direction::Clockwise,
    }
}

impl Engine {
    fn with_circling(self, circling: Circling) -> Engine
        ensures { result ≡ with_circling self circling }
    {
        Engine { circling, ..self }
    }

    // The plane, by its number.
    pub fn set_plane(self, w: u32) -> Engine
        ensures { result ≡ with_plane (plane_of w) self }
    {
        self.with_circling(Circling {
            plane: circle::plane_of(w),
            ..self.circling
        })
    }

    // The direction, by its number.
    pub fn set_direction(self, w: u32) -> Engine
        ensures { result ≡ with_direction (direction_of w) self }
    {
        self.with_circling(Circling {
            direction: circle::direction_of(w),
            ..self.circling
        })
    }
}
