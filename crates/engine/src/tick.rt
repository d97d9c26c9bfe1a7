// One clock call: the next pulse, one pause, or one record. It is decided first, on the job and the counters alone, and then done.
ghost use Rattle.std.specs.Prelude.{◌≡◌};
ghost use Rattle.travel.specs.work.Beat.{next_of};
ghost use Rattle.record.specs.Memory.{memory};
ghost use Rattle.record.specs.Table.{fetch_of};
ghost use Rattle.engine.specs.State.{running};
ghost use Rattle.engine.specs.Tick.{fetched, ticked, runs_of};
ghost use Rattle.engine.specs.work.Acts.{under_of, rest_of, act_by, look_by, seen_of, marked_job, pulsed, acted_by};

use super::records::after_pause;
use super::{Act, Answer, Engine, Job, Told};
use motion::{Beat, Counters, Look, Mark};
use record::Found;
use travel::Travel;

// What moves, if something does.
fn under_way(job: Job) -> Option<Travel>
    ensures { result ≡ under_of job }
{
    match job {
        Job::Direct(m) | Job::Moving(m) => Some(m),
        Job::Idle | Job::Storing | Job::Ready | Job::Delay(_) | Job::Wait(_, _) => None,
    }
}

// What is done where no pulse is left.
fn rest_of(job: Job) -> Act
    ensures { result ≡ rest_of job }
{
    match job {
        Job::Idle | Job::Storing | Job::Wait(_, _) => Act::Still,
        Job::Direct(_) => Act::Finish,
        Job::Ready | Job::Moving(_) => Act::Record,
        Job::Delay(q) => Act::Pause(q),
    }
}

// What a clock call does, whatever 103 says.
fn act_of(job: Job, at: Counters) -> Act
    ensures { result ≡ act_by next_of job at }
{
    let Some(m) = under_way(job) else {
        return rest_of(job);
    };
    match m.beat(at) {
        Some(b) => Act::Pulse(b),
        None => rest_of(job),
    }
}

// The same, or that 103 refuses the movement.
fn look_at(job: Job, at: Counters) -> Act
    ensures { result ≡ look_by job at }
{
    let Some(m) = under_way(job) else {
        return rest_of(job);
    };
    match m.look(at) {
        Look::Wrong => Act::Wrong,
        Look::Made(b) => Act::Pulse(b),
        Look::Over => rest_of(job),
    }
}

impl Job {
    // The same movement at another mark.
    fn at_mark(self, mark: Mark) -> Job
        ensures { result ≡ marked_job mark self }
    {
        match self {
            Job::Direct(m) => Job::Direct(m.at_mark(mark)),
            Job::Moving(m) => Job::Moving(m.at_mark(mark)),
            Job::Idle | Job::Storing | Job::Ready | Job::Delay(_) | Job::Wait(_, _) => self,
        }
    }
}

impl Engine {
    // What moves, if something does.
    pub fn under_way(self) -> Option<Travel>
        ensures { result ≡ under_of self.run.job }
    {
        under_way(self.run.job)
    }

    // A pulse of the movement under way.
    fn step(self, b: Beat) -> Told
        ensures { result ≡ pulsed (running (marked_job b.mark self.run.job) self.run.place self.run.loops) b self }
    {
        let job = self.run.job.at_mark(b.mark);
        self.pulse(self.run.with_job(job), b)
    }

    // The record at the place; the 0 at the end place; G where none can be found and read.
    fn ready(self, store: &[u8], table: &[u16]) -> Told
        ensures { result ≡ fetched next_of (fetch_of self.held (memory store.now table.now) self.run.place) self }
    {
        match record::fetch(store, table, self.held, self.run.place) {
            Found::Got(item) => self.perform(item),
            Found::End => self.finish(b'0'),
            Found::Wrong => self.fail(),
        }
    }

    // What a clock call does, or that 103 refuses the state.
    pub fn see(self) -> Act
        ensures { result ≡ seen_of self }
    {
        let act = look_at(self.run.job, self.at);
        if !self.fits() {
            return Act::Wrong;
        }
        act
    }

    // It is done.
    pub fn act(self, act: Act, store: &[u8], table: &[u16]) -> Told
        ensures { result ≡ acted_by next_of (fetch_of self.held (memory store.now table.now)) act self }
    {
        match act {
            Act::Wrong | Act::Still => self.tell(Answer::Nothing),
            Act::Pulse(b) => self.step(b),
            Act::Pause(q) => self.with_job(after_pause(q)).tell(Answer::Pause),
            Act::Finish => self.finish(b'0'),
            Act::Record => self.ready(store, table),
        }
    }

    // One clock call.
    pub fn tick(self, store: &[u8], table: &[u16]) -> Told
        ensures { result ≡ ticked next_of (fetch_of self.held (memory store.now table.now)) self }
    {
        self.act(act_of(self.run.job, self.at), store, table)
    }

    // Whether a clock call has something to do.
    #[tactic(auto, unfolding(crate::specs::Tick::runs_of))]
    pub fn runs(self) -> bool
        ensures { result ≡ runs_of self }
    {
        matches!(
            self.run.job,
            Job::Direct(_) | Job::Ready | Job::Moving(_) | Job::Delay(_)
        )
    }
}
