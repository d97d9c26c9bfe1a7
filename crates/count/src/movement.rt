// The numbers of a movement under the axes set: one pair for x or A alone, two for x and y, four for x, y and z and for all four.
#![tactic(auto, unfolding(crate::specs::Ranges::right_count, crate::specs::Ranges::right_z2, crate::specs::Ranges::right_distances, crate::specs::Ranges::right_speeds))]

ghost use Rattle.std.specs.Prelude.{◌≡◌};
ghost use Rattle.count.specs.Numbers.{signed};
ghost use Rattle.count.specs.Ranges.{right_count, right_z2, right_distances, right_speeds};

use super::ranges::{is_24, is_speed, is_zero};

// Whether a movement under these axes has this many numbers.
pub fn right_count(axes: u8, n: usize) -> bool
    ensures { result ≡ right_count axes n }
{
    match axes {
        1 | 8 => n == 2,
        3 => n == 4,
        7 | 15 => n == 8,
        _ => false,
    }
}

fn right_z2(absolute: bool, w: u32) -> bool
    ensures { result ≡ right_z2 absolute (signed w) }
{
    if absolute { is_zero(w) } else { is_24(w) }
}

// Whether a movement's distances or targets are in range.
pub fn right_distances(axes: u8, absolute: bool, words: [u32; 8]) -> bool
    ensures { result ≡ right_distances axes absolute words }
{
    match axes {
        1 | 8 => is_24(words[0]),
        3 => is_24(words[0]) & is_24(words[2]),
        7 | 15 => {
            let fourth = right_z2(absolute & (axes == 7), words[6]);
            is_24(words[0]) & is_24(words[2]) & is_24(words[4]) & fourth
        }
        _ => false,
    }
}

// Whether a movement's speeds, used or not, are in range.
pub fn right_speeds(axes: u8, words: [u32; 8]) -> bool
    ensures { result ≡ right_speeds axes words }
{
    match axes {
        1 | 8 => is_speed(words[1]),
        3 => is_speed(words[1]) & is_speed(words[3]),
        7 | 15 => is_speed(words[1]) & is_speed(words[3]) & is_speed(words[5]) & is_speed(words[7]),
        _ => false,
    }
}
