// Where a record at a place sends a run, and the open loops.
ghost use Rattle.std.specs.Prelude.{◌≡◌, ◌<◌, ◌≤◌, ◌-◌, get_or};
ghost use Rattle.count.specs.Numbers.{signed};
ghost use Rattle.count.specs.Ranges.{nth};
ghost use Rattle.program.specs.Going.{To, way_by, way_in};
ghost use Rattle.program.specs.Onward.{no_loops, onward_of, aimed, looped, again, opens, counter};
ghost use Rattle.program.specs.work.Target.{leads};
ghost use Rattle.program.specs.work.Leap.{leap_by, leap_of, loops_by, lead_in};

use crate::{Going, Lead, Loop, Loops, Way};
use record::Record;

impl Loops {
    // None is open.
    pub fn none() -> Loops
        ensures { result ≡ no_loops }
    {
        Loops {
            at: [Loop { place: 0, left: 0 }; 7],
            depth: 0,
        }
    }
}

// The entry of the loop opened last; the first one if none is open.
fn top_of(depth: u8) -> u8
    ensures { result ≡ depth - 1 }
{
    depth.saturating_sub(1)
}

fn entry(loops: Loops, top: u8) -> Loop
    ensures { result ≡ get_or loops.at top (counter 0 0) }
{
    loops
        .at
        .get(usize::from(top))
        .copied()
        .unwrap_or(Loop { place: 0, left: 0 })
}

// The open loops stay as they are.
fn stays(going: Going, loops: Loops) -> Lead
    ensures { lead_in result ≡ leap_by loops (way_by going loops) }
{
    let top = top_of(loops.depth);
    Lead {
        going,
        depth: loops.depth,
        top,
        last: entry(loops, top),
    }
}

// On to a place, with another counter at an entry, and another number of open loops.
fn sets(place: u16, top: u8, last: Loop, depth: u8) -> Lead
    ensures { lead_in result ≡ record { going = To; place = place; target = 0; depth = depth; top = top; last = last } }
{
    Lead {
        going: Going::To(place),
        depth,
        top,
        last,
    }
}

// Own place plus the offset of word `w`.
fn target_of(place: u16, w: u32, end: u16) -> Option<u16>
    ensures { result ≡ leads place (signed w) end }
{
    let p = u32::from(place);
    let e = u32::from(end);
    if w < 2147483648 {
        if p + w <= e {
            return Some((p + w) as u16);
        }
        return None;
    }
    let b = 4294967295 - w;
    if p <= b {
        return None;
    }
    if p - b - 1 <= e {
        return Some((p - b - 1) as u16);
    }
    None
}

// The counter opened last is used.
fn again(place: u16, target: u16, loops: Loops) -> Lead
    requires { (0 < loops.depth) × (loops.depth ≤ 7) × (place < 65535) }
    ensures { lead_in result ≡ leap_by loops (again place target loops) }
{
    let top = loops.depth - 1;
    let left = entry(loops, top).left;
    if left == 0 {
        return sets(place + 1, top, Loop { place: 0, left: 0 }, top);
    }
    let less = Loop {
        place,
        left: left - 1,
    };
    sets(target, top, less, loops.depth)
}

// A new counter opens, and makes the first of its goes back.
fn opens(place: u16, target: u16, number: u16, loops: Loops) -> Lead
    requires { 0 < number }
    ensures { lead_in result ≡ leap_by loops (opens place target number loops) }
{
    let depth = loops.depth;
    if 7 <= depth {
        return stays(Going::Wrong, loops);
    }
    let first = Loop {
        place,
        left: number - 1,
    };
    sets(target, depth, first, depth + 1)
}

fn looped(place: u16, target: u16, number: u16, loops: Loops) -> Lead
    requires { (0 < number) × (place < 65535) }
    ensures { lead_in result ≡ leap_by loops (looped place target number loops) }
{
    let depth = loops.depth;
    if 7 < depth {
        return stays(Going::Wrong, loops);
    }
    if 0 < depth {
        let last = entry(loops, depth - 1);
        if last.place == place {
            return again(place, target, loops);
        }
    }
    opens(place, target, number, loops)
}

// A jump, a loop or a wait.
fn aimed(item: Record, place: u16, end: u16, loops: Loops) -> Lead
    requires { place < end }
    ensures { lead_in result ≡ leap_by loops (aimed place end (nth item.words 1) item loops) }
{
    let Some(target) = target_of(place, item.words[1], end) else {
        return stays(Going::Wrong, loops);
    };
    if item.code == b'2' {
        return stays(
            Going::Waits {
                place: place + 1,
                target,
            },
            loops,
        );
    }
    let number = item.words[0];
    if number == 0 {
        return stays(Going::To(target), loops);
    }
    if 32767 < number {
        return stays(Going::Wrong, loops);
    }
    looped(place, target, number as u16, loops)
}

// Where a record at a place sends a run, with the one entry of the open loops that it sets.
pub fn leap(item: Record, place: u16, end: u16, loops: Loops) -> Lead
    ensures { lead_in result ≡ leap_of item place end loops }
{
    if end <= place {
        return stays(Going::Wrong, loops);
    }
    if (item.code == b'3') | (item.code == b'2') {
        return aimed(item, place, end, loops);
    }
    stays(Going::To(place + 1), loops)
}

impl Lead {
    // The open loops afterwards, made of those before.
    pub fn loops(self, before: Loops) -> Loops
        ensures { result ≡ loops_by (lead_in self) before }
    {
        let mut at = before.at;
        if self.top < 7 {
            at[usize::from(self.top)] = self.last;
        }
        Loops {
            at,
            depth: self.depth,
        }
    }
}

// Where a record at a place sends a run: the next place, or a wait and its target, and the open loops.
pub fn onward(item: Record, place: u16, end: u16, loops: Loops) -> Way
    ensures { way_in result ≡ onward_of item place end loops }
{
    let w = leap(item, place, end, loops);
    Way {
        going: w.going,
        loops: w.loops(loops),
    }
}
