// The numbers of a circle: arc length, speed, D, the start on both axes and their two ways.
#![tactic(auto, unfolding(crate::specs::Ranges::right_arc))]

ghost use Rattle.std.specs.Prelude.{◌≡◌, ◌&&◌, not};
ghost use Rattle.count.specs.Numbers.{signed};
ghost use Rattle.count.specs.Ranges.{in_start, in_zero, right_arc};

use super::ranges::{is_24, is_arc, is_start, is_way, is_zero};

// A start on both axes, not at the centre.
fn right_start(a: u32, b: u32) -> bool
    ensures { result ≡ in_start (signed a) && in_start (signed b) && not (in_zero (signed a) && in_zero (signed b)) }
{
    is_start(a) & is_start(b) & !(is_zero(a) & is_zero(b))
}

// Whether a circle's numbers but its speed are in range.
pub fn right_arc(words: [u32; 8]) -> bool
    ensures { result ≡ right_arc words }
{
    let length = is_arc(words[0]) & is_24(words[2]);
    let start = right_start(words[3], words[4]);
    let ways = is_way(words[5]) & is_way(words[6]);
    length & start & ways
}
