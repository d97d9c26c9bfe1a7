// The next pulse of a movement, and the counters after it. The movement is only read: a pulse answers its mark.
ghost use Rattle.std.specs.Prelude.{◌≡◌, ◌≤◌, ◌<◌, ◌+◌, ◌-◌, eqb};
ghost use Rattle.count.specs.Pick.{pick};
ghost use Rattle.motion.specs.work.Here.{sign_here};
ghost use Rattle.motion.specs.Phase.{moved, moved_all};
ghost use Rattle.motion.specs.work.Here.{next_of, within_of};
ghost use Rattle.motion.specs.work.Beat.{mark_of, at_mark, beat_of, beaten, next_back};
ghost use Rattle.motion.specs.Next.{from_of, to_of, leg, speed_at, at_phase, skipped, settled, signs_by, stepped, left_of, after_of};
ghost use Rattle.motion.specs.work.Room.{RoomFor, HasRoom, NoFurther};

use super::phase::{pulses_of, sign_here};
use super::{Beat, Counters, Mark, Move, Sign, Signs, Stepped};

// A count with one pulse's sign.
fn moved_by(c: u32, s: Sign) -> u32
    requires { RoomFor c s }
    ensures { result ≡ moved c s }
{
    match s {
        Sign::Minus => c - 1,
        Sign::Rest => c,
        Sign::Plus => c + 1,
    }
}

// The counters with one pulse's signs, by value.
fn pulsed(c: Counters, s: Signs) -> Counters
    requires { HasRoom c s }
    ensures { result ≡ moved_all c s }
{
    Counters {
        x: moved_by(c.x, s.x),
        y: moved_by(c.y, s.y),
        z: moved_by(c.z, s.z),
        a: moved_by(c.a, s.a),
    }
}

// The counters, lent, with one pulse's signs.
fn add_pulse(c: &mut Counters, s: Signs)
    requires { HasRoom c.old s }
    ensures { c.new ≡ moved_all c.old s }
{
    *c = pulsed(*c, s);
}

// The counters lent to `add_pulse`, and handed back.
pub(crate) fn with_pulse(c: Counters, s: Signs) -> Counters
    requires { HasRoom c s }
    ensures { result ≡ moved_all c s }
{
    let mut counters = c;
    add_pulse(&mut counters, s);
    counters
}

// One of four counts by the phase: where it starts. They are of one axis at four points, and go together nowhere else.
fn from_by(p: u8, a: u32, b: u32, c: u32, d: u32) -> u32
    ensures { result ≡ pick (eqb p 0) a (pick (eqb p 1) b (pick (eqb p 2) c d)) }
{
    match p {
        0 => a,
        1 => b,
        2 => c,
        _ => d,
    }
}

// One of three: where it ends.
fn to_by(p: u8, a: u32, b: u32, c: u32) -> u32
    ensures { result ≡ pick (eqb p 0) a (pick (eqb p 1) b c) }
{
    match p {
        0 => a,
        1 => b,
        _ => c,
    }
}

// The same as `from_by`, by tests that need no jump: in a loop over a phase they are then made once, before it.
fn from_in(p: u8, a: u32, b: u32, c: u32, d: u32) -> u32
    ensures { result ≡ pick (eqb p 0) a (pick (eqb p 1) b (pick (eqb p 2) c d)) }
{
    let last = count::chosen(p == 2, c, d);
    let late = count::chosen(p == 1, b, last);
    count::chosen(p == 0, a, late)
}

// The same as `to_by`.
fn to_in(p: u8, a: u32, b: u32, c: u32) -> u32
    ensures { result ≡ pick (eqb p 0) a (pick (eqb p 1) b c) }
{
    let late = count::chosen(p == 1, b, c);
    count::chosen(p == 0, a, late)
}

// What the pulse after pulse k of n shows on the axes.
pub(crate) fn signs_at(at: Counters, from: Counters, to: Counters, k: u32, n: u32) -> Signs
    requires { (k < n) × (n < 16777216) × NoFurther from to n }
    ensures { (result ≡ signs_by sign_here at from to k n) × HasRoom at result }
{
    Signs {
        x: sign_here(at.x, from.x, to.x, k, n),
        y: sign_here(at.y, from.y, to.y, k, n),
        z: sign_here(at.z, from.z, to.z, k, n),
        a: sign_here(at.a, from.a, to.a, k, n),
    }
}

impl Move {
    // Where it stands.
    pub(crate) fn mark(self) -> Mark
        ensures { result ≡ mark_of self }
    {
        Mark {
            phase: self.phase,
            made: self.made,
        }
    }

    // Where the phase of a mark starts: chosen count by count, so that no copy of the movement is needed.
    pub(crate) fn from_at(self, mark: Mark) -> Counters
        ensures { result ≡ from_of (at_mark self mark) }
    {
        let p = mark.phase;
        let a = self.start;
        let b = self.first;
        let c = self.second;
        let d = self.third;
        Counters {
            x: from_by(p, a.x, b.x, c.x, d.x),
            y: from_by(p, a.y, b.y, c.y, d.y),
            z: from_by(p, a.z, b.z, c.z, d.z),
            a: from_by(p, a.a, b.a, c.a, d.a),
        }
    }

    // Where it ends.
    pub(crate) fn to_at(self, mark: Mark) -> Counters
        ensures { result ≡ to_of (at_mark self mark) }
    {
        let p = mark.phase;
        let b = self.first;
        let c = self.second;
        let d = self.third;
        Counters {
            x: to_by(p, b.x, c.x, d.x),
            y: to_by(p, b.y, c.y, d.y),
            z: to_by(p, b.z, c.z, d.z),
            a: to_by(p, b.a, c.a, d.a),
        }
    }

    // The pulses of the phase of a mark.
    fn leg_at(self, mark: Mark) -> u32
        ensures { result ≡ leg (at_mark self mark) }
    {
        pulses_of(self.from_at(mark), self.to_at(mark))
    }

    // The speed of pulse k of the phase of a mark.
    fn speed_at(self, mark: Mark, k: u32) -> u16
        ensures { result ≡ speed_at (at_mark self mark) k }
    {
        match mark.phase {
            0 => self.speed1,
            1 => self.speed2,
            _ => self.speed3,
        }
    }

    // The movement at another mark.
    pub fn at_mark(self, mark: Mark) -> Move
        ensures { result ≡ at_mark self mark }
    {
        Move {
            phase: mark.phase,
            made: mark.made,
            ..self
        }
    }

    // The mark past a phase that has no pulse left.
    fn skip(self, mark: Mark) -> Mark
        ensures { result ≡ mark_of (skipped (at_mark self mark)) }
    {
        if 3 <= mark.phase {
            return mark;
        }
        if mark.made < self.leg_at(mark) {
            return mark;
        }
        Mark {
            phase: mark.phase + 1,
            made: 0,
        }
    }

    // The mark at the first phase that has a pulse left.
    fn settle(self) -> Mark
        ensures { result ≡ mark_of (settled self) }
    {
        let mark = self.mark();
        if self.made < self.leg_at(mark) {
            return mark;
        }
        self.skip(self.skip(self.skip(mark)))
    }

    // The pulse after a mark, with its signs.
    pub(crate) fn beat_by(self, mark: Mark, at: Counters, signs: Signs) -> Beat
        requires { HasRoom at signs × (mark.made < 16777216) }
        ensures { result ≡ beat_of (stepped (at_mark self mark) at signs) }
    {
        let made = mark.made + 1;
        Beat {
            signs,
            speed: self.speed_at(mark, made),
            at: with_pulse(at, signs),
            mark: Mark { made, ..mark },
        }
    }

    // The pulse after a mark, or that none is left of its phase.
    fn beat_at(self, mark: Mark, at: Counters) -> Option<Beat>
        ensures { result ≡ beaten (within_of (at_mark self mark) at) }
    {
        let from = self.from_at(mark);
        let to = self.to_at(mark);
        let n = pulses_of(from, to);
        if mark.made < n {
            let signs = signs_at(at, from, to, mark.made, n);
            return Some(self.beat_by(mark, at, signs));
        }
        None
    }

    // The next pulse, or that none is left.
    pub fn beat(self, at: Counters) -> Option<Beat>
        ensures { result ≡ beaten (next_of self at) }
    {
        self.beat_at(self.settle(), at)
    }

    // Where the phase under way starts, for a loop over it.
    fn phase_from(self) -> Counters
        ensures { result ≡ from_of self }
    {
        let p = self.phase;
        let a = self.start;
        let b = self.first;
        let c = self.second;
        let d = self.third;
        Counters {
            x: from_in(p, a.x, b.x, c.x, d.x),
            y: from_in(p, a.y, b.y, c.y, d.y),
            z: from_in(p, a.z, b.z, c.z, d.z),
            a: from_in(p, a.a, b.a, c.a, d.a),
        }
    }

    // Where it ends.
    fn phase_to(self) -> Counters
        ensures { result ≡ to_of self }
    {
        let p = self.phase;
        let b = self.first;
        let c = self.second;
        let d = self.third;
        Counters {
            x: to_in(p, b.x, c.x, d.x),
            y: to_in(p, b.y, c.y, d.y),
            z: to_in(p, b.z, c.z, d.z),
            a: to_in(p, b.a, c.a, d.a),
        }
    }

    // The pulse after `made` of the phase under way, or that none is left of it. It is `beat_at` once more, since a function with one caller
    // becomes a part of it: in a loop over a phase, what is the same for each pulse is then worked out once.
    pub fn beat_in(self, made: u32, at: Counters) -> Option<Beat>
        ensures { result ≡ beaten (within_of (at_phase self self.phase made) at) }
    {
        let mark = Mark {
            phase: self.phase,
            made,
        };
        let from = self.phase_from();
        let to = self.phase_to();
        let n = pulses_of(from, to);
        if made < n {
            let signs = signs_at(at, from, to, made, n);
            return Some(self.beat_by(mark, at, signs));
        }
        None
    }

    // A pulse with the movement after it.
    fn as_next(self, beat: Option<Beat>) -> Option<Stepped>
        ensures { result ≡ next_back self beat }
    {
        beat.map(|b| Stepped {
            signs: b.signs,
            speed: b.speed,
            at: b.at,
            rest: self.at_mark(b.mark),
        })
    }

    // The same as `beat_in`, with the movement after it.
    pub fn within(self, made: u32, at: Counters) -> Option<Stepped>
        ensures { result ≡ within_of (at_phase self self.phase made) at }
    {
        let mark = Mark {
            phase: self.phase,
            made,
        };
        self.as_next(self.beat_at(mark, at))
    }

    // The same as `beat`.
    pub fn next(self, at: Counters) -> Option<Stepped>
        ensures { result ≡ next_of self at }
    {
        self.as_next(self.beat(at))
    }

    // The pulses of the phases after the one under way.
    fn after(self) -> u32
        ensures { result ≡ after_of self }
    {
        let last = pulses_of(self.second, self.third);
        match self.phase {
            0 => pulses_of(self.first, self.second) + last,
            1 => last,
            _ => 0,
        }
    }

    // The pulses still to make.
    pub fn left(self) -> u32
        ensures { result ≡ left_of self }
    {
        self.leg_at(self.mark()).saturating_sub(self.made) + self.after()
    }

    // The last resting point.
    pub fn resting(self) -> Counters
        ensures { result ≡ self.third }
    {
        self.third
    }
}
