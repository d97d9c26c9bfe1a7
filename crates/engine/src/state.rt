// The engine's state: a fresh one, one part of it made anew, and what lines and control codes do to it.
ghost use Rattle.std.specs.Prelude.{◌≡◌};
ghost use Rattle.count.specs.Pick.{pick};
ghost use Rattle.program.specs.Onward.{no_loops};
ghost use Rattle.engine.specs.work.Glide.{glided};
ghost use Rattle.engine.specs.State.{with_at, with_origin, with_three, with_output, with_held, with_run, running, with_job, zeroes, mixed, beside_a, turntable_of, axes_of, origin_of, zero_of, idle, ceased, started, nothing_held, emptied, fresh, storing_of, kept_by, reset_of, heard, begun, begun_by, begun_in, begin_of, circle_begun};

use super::circles::circling_first;
use super::{Engine, Job, Run};
use count::{Axis, Fault};
use motion::Counters;
use program::Loops;
use record::Held;
use travel::Travel;

// The counters of all axes at 0.
fn at_zero() -> Counters
    ensures { result ≡ zeroes }
{
    Counters {
        x: 8388608,
        y: 8388608,
        z: 8388608,
        a: 8388608,
    }
}

// The part in use of an empty store.
fn held_none(axes: u8) -> Held
    ensures { result ≡ record { used = 0; records = 0; axes = axes } }
{
    Held {
        used: 0,
        records: 0,
        axes,
    }
}

// The axes set and A.
fn beside_a(axes: u8) -> u8
    ensures { result ≡ beside_a axes }
{
    if count::has(axes as u32, Axis::A) {
        return axes;
    }
    axes + 8
}

// The counters of the axes named from one, the others from another.
#[tactic(auto, unfolding(crate::specs::State::mixed))]
fn mix(axes: u32, c: Counters, d: Counters) -> Counters
    ensures { result ≡ mixed axes c d }
{
    Counters {
        x: count::chosen(count::has(axes, Axis::X), c.x, d.x),
        y: count::chosen(count::has(axes, Axis::Y), c.y, d.y),
        z: count::chosen(count::has(axes, Axis::Z), c.z, d.z),
        a: count::chosen(count::has(axes, Axis::A), c.a, d.a),
    }
}

impl Run {
    // A run at place 0 with no loop open.
    fn first(job: Job) -> Run
        ensures { result ≡ running job 0 no_loops }
    {
        Run {
            job,
            place: 0,
            loops: Loops::none(),
        }
    }

    pub(crate) fn with_job(self, job: Job) -> Run
        ensures { result ≡ running job self.place self.loops }
    {
        Run { job, ..self }
    }

    pub(crate) fn at_place(self, job: Job, place: u16) -> Run
        ensures { result ≡ running job place self.loops }
    {
        Run { job, place, ..self }
    }
}

impl Engine {
    pub fn fresh() -> Engine
        ensures { result ≡ fresh }
    {
        Engine {
            axes: 0,
            at: at_zero(),
            origin: at_zero(),
            three: false,
            circling: circling_first(),
            output: 0,
            held: held_none(0),
            run: Run::first(Job::Idle),
        }
    }

    pub(crate) fn with_run(self, run: Run) -> Engine
        ensures { result ≡ with_run self run }
    {
        Engine { run, ..self }
    }

    pub(crate) fn with_job(self, job: Job) -> Engine
        ensures { result ≡ with_job self job }
    {
        self.with_run(self.run.with_job(job))
    }

    // The turntable's line: A beside the axes set, A's position and origin 0, all else as it was.
    fn set_turntable(self) -> Engine
        ensures { result ≡ turntable_of self }
    {
        Engine {
            axes: beside_a(self.axes),
            ..self.set_zero(8)
        }
    }

    // Setting axes: positions and origins 0, 2.5D on; plane 0, clockwise. 8 adds the turntable.
    pub fn set_axes(self, axes: u8) -> Engine
        ensures { result ≡ axes_of axes self }
    {
        if axes == 8 {
            return self.set_turntable();
        }
        Engine {
            axes,
            at: at_zero(),
            origin: at_zero(),
            three: false,
            circling: circling_first(),
            ..self
        }
    }

    // Positions and origins of the axes named := 0.
    pub fn set_zero(self, axes: u8) -> Engine
        ensures { result ≡ zero_of axes self }
    {
        Engine {
            at: mix(axes as u32, at_zero(), self.at),
            origin: mix(axes as u32, at_zero(), self.origin),
            ..self
        }
    }

    pub(crate) fn origin_at(self, axes: u32) -> Engine
        ensures { result ≡ origin_of axes self }
    {
        Engine {
            origin: mix(axes, self.at, self.origin),
            ..self
        }
    }

    // Origins of the axes named := positions.
    pub fn set_origin(self, axes: u8) -> Engine
        ensures { result ≡ origin_of axes self }
    {
        self.origin_at(axes as u32)
    }

    pub fn set_three(self, on: bool) -> Engine
        ensures { result ≡ with_three self on }
    {
        Engine { three: on, ..self }
    }

    pub fn set_output(self, v: u8) -> Engine
        ensures { result ≡ with_output self v }
    {
        Engine { output: v, ..self }
    }

    pub fn set_held(self, held: Held) -> Engine
        ensures { result ≡ with_held self held }
    {
        Engine { held, ..self }
    }

    // The store emptied; its bytes stay.
    pub fn empty(self) -> Engine
        ensures { result ≡ emptied self }
    {
        self.set_held(held_none(0))
    }

    // Storing begins with an emptied store, under the axes set.
    pub fn store(self) -> Engine
        ensures { result ≡ storing_of self }
    {
        Engine {
            held: held_none(self.axes),
            run: Run::first(Job::Storing),
            ..self
        }
    }

    // A program's start.
    pub fn start(self) -> Engine
        ensures { result ≡ started self }
    {
        self.with_run(Run::first(Job::Ready))
    }

    // Nothing runs.
    pub fn cease(self) -> Engine
        ensures { result ≡ ceased self }
    {
        self.with_run(Run::first(Job::Idle))
    }

    // A reset: a fresh engine, but the store kept, unless it is being written.
    #[tactic(auto, unfolding(crate::specs::State::reset_of))]
    pub fn reset(self) -> Engine
        ensures { result ≡ reset_of self }
    {
        match self.run.job {
            Job::Storing => Engine::fresh(),
            _ => Engine::fresh().set_held(self.held),
        }
    }

    // A byte at a wait.
    #[tactic(auto, unfolding(crate::specs::State::heard))]
    pub fn hear(self, byte: u8) -> Engine
        ensures { result ≡ heard byte self }
    {
        let Job::Wait(c, t) = self.run.job else {
            return self;
        };
        if byte == c {
            return self.with_run(self.run.at_place(Job::Ready, t));
        }
        self.with_job(Job::Ready)
    }

    // A direct movement or circle as it is planned: the engine that moves, or none where there is no pulse to make.
    fn begin_by(self, plan: Result<Travel, Fault>) -> Result<Option<Engine>, Fault>
        ensures { begun_in self result ≡ begun_by plan self }
    {
        let m = plan?;
        if m.left() == 0 {
            return Ok(None);
        }
        Ok(Some(self.with_job(Job::Direct(m))))
    }

    // A direct movement's line.
    #[tactic(auto, unfolding(crate::specs::State::begin_of))]
    pub fn begin(self, absolute: bool, words: [u32; 8]) -> Result<Option<Engine>, Fault>
        ensures { begun_in self result ≡ begin_of absolute words self }
    {
        self.begin_by(travel::plan(self.axes, self.three, self.at, self.origin, absolute, words))
    }

    // A direct circle's line.
    #[tactic(auto, unfolding(crate::specs::State::circle_begun))]
    pub fn begin_circle(self, words: [u32; 8]) -> Result<Option<Engine>, Fault>
        ensures { begun_in self result ≡ circle_begun words self }
    {
        self.begin_by(travel::circle(self.axes, self.circling, self.at, words))
    }

    // What moves with its counters and what is left of it, further on.
    #[tactic(auto, unfolding(crate::specs::work::Glide::glided))]
    pub fn glide(self, at: Counters, rest: Travel) -> Engine
        ensures { result ≡ glided at rest self }
    {
        match self.run.job {
            Job::Direct(_) => self.move_to(at, Job::Direct(rest)),
            Job::Moving(_) => self.move_to(at, Job::Moving(rest)),
            Job::Idle | Job::Storing | Job::Ready | Job::Delay(_) | Job::Wait(_, _) => self,
        }
    }

    fn move_to(self, at: Counters, job: Job) -> Engine
        ensures { result ≡ with_job (with_at self at) job }
    {
        Engine {
            at,
            ..self.with_job(job)
        }
    }
}
