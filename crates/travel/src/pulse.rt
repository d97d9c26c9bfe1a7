// The next pulse of either kind. What moves is only read: a pulse answers its mark. Each method asks the kind for its own: a function over
// the methods, or a trait of the two kinds, would be no plainer.
ghost use Rattle.std.specs.Prelude.{◌≡◌};
ghost use Rattle.travel.specs.Next.{left_of};
ghost use Rattle.travel.specs.Sound.{under_way};
ghost use Rattle.travel.specs.work.Beat.{made_of, with_made, next_of, within_of, at_mark, beaten, look_of};

use super::Travel;
use motion::{Beat, Counters, Look, Mark};

impl Travel {
    // The next pulse, or that none is left.
    pub fn beat(self, at: Counters) -> Option<Beat>
        ensures { result ≡ beaten (next_of self at) }
    {
        match self {
            Travel::Straight(m) => m.beat(at),
            Travel::Round(a) => a.beat(at),
        }
    }

    // The pulse after `made` of the phase under way, or that none is left of it.
    pub fn beat_in(self, made: u32, at: Counters) -> Option<Beat>
        ensures { result ≡ beaten (within_of (with_made self made) at) }
    {
        match self {
            Travel::Straight(m) => m.beat_in(made, at),
            Travel::Round(a) => a.beat_in(made, at),
        }
    }

    // 103's test and the next pulse in one.
    pub fn look(self, at: Counters) -> Look
        ensures { result ≡ look_of self at }
    {
        match self {
            Travel::Straight(m) => m.look(at),
            Travel::Round(a) => a.look(at),
        }
    }

    // Whether what is under way is such that 103 lets it pass.
    pub fn sound(self, at: Counters) -> bool
        ensures { result ≡ under_way self at }
    {
        match self {
            Travel::Straight(m) => m.sound(at),
            Travel::Round(a) => a.sound(at),
        }
    }

    // The pulses still to make.
    pub fn left(self) -> u32
        ensures { result ≡ left_of self }
    {
        match self {
            Travel::Straight(m) => m.left(),
            Travel::Round(a) => a.left(),
        }
    }

    // The same at another mark.
    pub fn at_mark(self, mark: Mark) -> Travel
        ensures { result ≡ at_mark self mark }
    {
        match self {
            Travel::Straight(m) => Travel::Straight(m.at_mark(mark)),
            Travel::Round(a) => Travel::Round(a.with_made(mark.made)),
        }
    }

    // The pulses made of the phase under way.
    pub fn made(self) -> u32
        ensures { result ≡ made_of self }
    {
        match self {
            Travel::Straight(m) => m.made,
            Travel::Round(a) => a.made,
        }
    }

    // The same with so many pulses of that phase made.
    pub fn with_made(self, made: u32) -> Travel
        ensures { result ≡ with_made self made }
    {
        match self {
            Travel::Straight(m) => Travel::Straight(m.at_mark(Mark {
                phase: m.phase,
                made,
            })),
            Travel::Round(a) => Travel::Round(a.with_made(made)),
        }
    }
}
