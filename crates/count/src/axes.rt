// The axes of an axes number.
ghost use Rattle.std.specs.Prelude.{◌≡◌, ◌<◌, ◌/◌, ◌%◌, eqb};
ghost use Rattle.count.specs.Axes.{part, has, axes_set};

use super::Axis;

// An axis's part of an axes number. A function, not a `From`: an axis has no number but as a part of others.
fn part_of(axis: Axis) -> u32
    ensures { (result ≡ part axis) × (0 < result) }
{
    match axis {
        Axis::X => 1,
        Axis::Y => 2,
        Axis::Z => 4,
        Axis::A => 8,
    }
}

// Whether an axes number names the axis of this part.
fn is_named(axes: u32, part: u32) -> bool
    requires { 0 < part }
    ensures { result ≡ eqb (axes / part % 2) 1 }
{
    axes / part % 2 == 1
}

// Whether an axes number names an axis.
pub fn has(axes: u32, axis: Axis) -> bool
    ensures { result ≡ has axes axis }
{
    is_named(axes, part_of(axis))
}

// Whether axes are those that lines set: 1, 3, 7, 8 or 15.
pub fn axes_set(axes: u8) -> bool
    ensures { result ≡ axes_set axes }
{
    matches!(axes, 1 | 3 | 7 | 8 | 15)
}
