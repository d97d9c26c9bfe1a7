// What 103 asks of an engine.
ghost use Rattle.std.specs.Prelude.{◌≡◌};
ghost use Rattle.motion.specs.Sound.{counted};
ghost use Rattle.engine.specs.Sound.{axes_known, job_sound, sound_of};
ghost use Rattle.engine.specs.work.Acts.{fits_of};

use super::{Engine, Job};
use motion::Counters;

// Axes or store axes: none, or those that lines set.
fn is_known(axes: u8) -> bool
    ensures { result ≡ axes_known axes }
{
    (axes == 0) | count::axes_set(axes)
}

// Whether a movement under way is one that 103 lets pass.
fn is_sound(job: Job, at: Counters) -> bool
    ensures { result ≡ job_sound job at }
{
    match job {
        Job::Direct(m) | Job::Moving(m) => m.sound(at),
        Job::Idle | Job::Storing | Job::Ready | Job::Delay(_) | Job::Wait(_, _) => true,
    }
}

impl Engine {
    // What 103 asks of all but the movement.
    pub(crate) fn fits(self) -> bool
        ensures { result ≡ fits_of self }
    {
        let points = motion::counted_at(self.at) & motion::counted_at(self.origin);
        let axes = is_known(self.axes) & is_known(self.held.axes);
        let used = (self.held.used <= 16384) & (self.held.records <= 1000);
        points & axes & used & (self.run.loops.depth <= 7)
    }

    pub fn sound(self) -> bool
        ensures { result ≡ sound_of self }
    {
        self.fits() & is_sound(self.run.job, self.at)
    }
}
