// The pulses of the movements and circles on standard input. The first number says how many follow. Each is the axes, 3D, absolute, the
// positions, the origins, the eight numbers, and how many of its first and last pulses to print. A circle has 2 for absolute, and its plane
// and direction for the first two origins.
#![tactic(auto)]

mod arcs;

use arcs::show_arc;
use motion::{Counters, Move, Signs};
use std::io;
use std::io::Read;

// What pulses are made of: a movement or an arc.
trait Pulsing: Copy {
    // The pulses still to make.
    fn left(self) -> u32;

    // Whether it passes the test of 103 at these counters.
    fn sound(self, at: Counters) -> bool;

    // The next pulse's signs and speed, the counters after it, and what follows it.
    fn next(self, at: Counters) -> Option<(Signs, u16, Counters, Self)>;
}

impl Pulsing for Move {
    fn left(self) -> u32 {
        Move::left(self)
    }

    fn sound(self, at: Counters) -> bool {
        Move::sound(self, at)
    }

    fn next(self, at: Counters) -> Option<(Signs, u16, Counters, Move)> {
        let s = Move::next(self, at)?;
        Some((s.signs, s.speed, s.at, s.rest))
    }
}

fn narrow(w: u32) -> u8 {
    u8::try_from(w).unwrap_or(0)
}

fn counted(w: u32) -> u32 {
    count::count_of(w).unwrap_or(0)
}

fn point(x: u32, y: u32, z: u32, a: u32) -> Counters {
    Counters {
        x: counted(x),
        y: counted(y),
        z: counted(z),
        a: counted(a),
    }
}

// The number of a count.
fn number_of(c: u32) -> i64 {
    i64::from(c) - 8388608
}

fn show_pulse(rt: &impl Print, s: Signs, speed: u16) -> io::Result<()> {
    println!(rt; "P {s} {speed}")
}

// Whether it passes the test of 103 here, and one count beside.
fn show_sound<P: Pulsing>(rt: &impl Print, p: P, at: Counters) -> io::Result<()> {
    let beside = Counters { y: at.y ^ 1, ..at };
    println!(rt; "S {} {}", u8::from(p.sound(at)), u8::from(p.sound(beside)))
}

// All pulses, of which the first and the last few are printed; answers what is left after them.
fn show_pulses<P: Pulsing>(
    rt: &impl Print,
    start: P,
    from: Counters,
    few: u32,
) -> io::Result<Option<P>> {
    let total = start.left();
    let mut p = start;
    let mut at = from;
    for made in 0..total {
        let Some((signs, speed, there, rest)) = p.next(at) else {
            return Ok(None);
        };
        if made < few || total - made <= few {
            show_pulse(rt, signs, speed)?;
        }
        p = rest;
        at = there;
    }
    show_sound(rt, p, at)?;
    println!(rt; "E {at}")?;
    Ok(Some(p))
}

fn show_straight(rt: &impl Print, words: [u32; 20]) -> io::Result<()> {
    let [axes, three, absolute, x, y, z, a, ox, oy, oz, oa, ..] = words;
    let at = point(x, y, z, a);
    let origin = point(ox, oy, oz, oa);
    let given = *words[11..].first_chunk().unwrap();
    let planned = motion::plan(narrow(axes), three == 1, at, origin, absolute == 1, given);
    let Some(m) = planned else {
        return println!(rt; "9");
    };
    println!(rt; "N {}", m.left())?;
    show_sound(rt, m, at)?;
    if let Some(rest) = show_pulses(rt, m, at, words[19])? {
        println!(rt; "R {}", rest.resting())?;
    }
    Ok(())
}

// At most 65,536 bytes are read.
fn main(rt: HostRuntime) -> io::Result<()> {
    let mut text = Vec::new(rt.alloc());
    rt.stdin().take(65536).read_to_end(&mut text)?;
    let first = reader::next_number(&text, 0);
    let mut at = first.at;
    let mut words = [0; 20];
    for _ in 0..first.word {
        at = reader::next_numbers(&text, at, &mut words);
        if words[2] == 2 {
            show_arc(&rt, words)?;
        } else {
            show_straight(&rt, words)?;
        }
    }
    Ok(())
}
