// The pulses of a circle.
use super::{Pulsing, narrow, number_of, point, show_pulses, show_sound};
use circle::{Arc, Circling};
use motion::{Counters, Signs};
use std::io;

impl Pulsing for Arc {
    fn left(self) -> u32 {
        Arc::left(self)
    }

    fn sound(self, at: Counters) -> bool {
        Arc::sound(self, at)
    }

    fn next(self, at: Counters) -> Option<(Signs, u16, Counters, Arc)> {
        let b = self.beat(at)?;
        Some((b.signs, b.speed, b.at, self.with_made(b.mark.made)))
    }
}

fn show_going(rt: &impl Print, arc: Arc, at: Counters, few: u32) -> io::Result<()> {
    println!(rt; "N {}", arc.left())?;
    println!(rt;
        "C {} {}",
        number_of(arc.centre.first),
        number_of(arc.centre.second)
    )?;
    show_sound(rt, arc, at)?;
    show_pulses(rt, arc, at, few)?;
    Ok(())
}

pub(crate) fn show_arc(rt: &impl Print, words: [u32; 20]) -> io::Result<()> {
    let [axes, _, _, x, y, z, a, plane, direction, ..] = words;
    let at = point(x, y, z, a);
    let circling = Circling {
        plane: circle::plane_of(plane),
        direction: circle::direction_of(direction),
    };
    let given = *words[11..].first_chunk().unwrap();
    match circle::bend(narrow(axes), circling, at, given) {
        Ok(arc) => show_going(rt, arc, at, words[19]),
        Err(fault) => rt.write_all(&[fault.letter(), b'\n']),
    }
}
