// What each record does when its place is reached, and how a run ends.
ghost use Rattle.std.specs.Prelude.{◌≡◌, ◌<◌, ◌+◌, get_or};
ghost use Rattle.motion.specs.Plan.{asked};
ghost use Rattle.travel.specs.Plan.{plan_of, circle_of};
ghost use Rattle.travel.specs.work.Beat.{next_of};
ghost use Rattle.program.specs.Onward.{onward_of};
ghost use Rattle.engine.specs.State.{with_run, running};
ghost use Rattle.engine.specs.Tick.{told, finished, failed, on_to, moving, moving_by, after_pause, delaying, leading, performed};
ghost use Rattle.engine.specs.work.Work.{Fits};
ghost use Rattle.engine.specs.work.Acts.{pulsed};

use super::{Answer, Engine, Job, Run, Told};
use count::Fault;
use motion::Beat;
use program::{Going, Loops};
use record::Record;
use travel::Travel;

// The pauses after one.
pub(crate) fn after_pause(q: u16) -> Job
    ensures { result ≡ after_pause q }
{
    if q == 0 {
        return Job::Ready;
    }
    Job::Delay(q - 1)
}

impl Engine {
    // An answer that moves nothing.
    pub(crate) fn tell(self, answer: Answer) -> Told
        ensures { result ≡ record { engine = self; answer = answer } }
    {
        Told {
            engine: self,
            answer,
        }
    }

    // A pulse, with the run after it.
    pub(crate) fn pulse(self, run: Run, b: Beat) -> Told
        ensures { result ≡ pulsed run b self }
    {
        let e = Engine {
            at: b.at,
            run,
            ..self
        };
        e.tell(Answer::Pulse(b.signs, b.speed))
    }

    // The run is over and its last character sent.
    pub(crate) fn finish(self, byte: u8) -> Told
        ensures { result ≡ finished byte self }
    {
        self.cease().tell(Answer::Send(byte))
    }

    // G, with the store emptied.
    pub(crate) fn fail(self) -> Told
        ensures { result ≡ failed self }
    {
        self.empty().finish(b'G')
    }

    // On to the next record, with a job. That a place comes after is asked here and of those who call it: a type that holds it would be made
    // anew behind each setter in `perform`.
    fn on_to(self, job: Job) -> Engine
        requires { self.run.place < 65535 }
        ensures { result ≡ on_to job self }
    {
        self.with_run(self.run.at_place(job, self.run.place + 1))
    }

    // A movement's first pulse, or done without one.
    fn first_pulse(self, m: Travel) -> Told
        requires { self.run.place < 65535 }
        ensures { result ≡ moving (next_of m self.at) self }
    {
        match m.beat(self.at) {
            Some(b) => {
                let job = Job::Moving(m.at_mark(b.mark));
                self.pulse(self.run.at_place(job, self.run.place + 1), b)
            }
            None => self.on_to(Job::Ready).tell(Answer::Done),
        }
    }

    // What moves as it is planned; what refuses it ends the program without a pulse of it.
    fn travel_by(self, plan: Result<Travel, Fault>) -> Told
        requires { self.run.place < 65535 }
        ensures { result ≡ moving_by next_of plan self }
    {
        match plan {
            Ok(m) => self.first_pulse(m),
            Err(fault) => self.finish(fault.letter()),
        }
    }

    // A movement, planned under the store's axes.
    fn travel(self, absolute: bool, words: [u32; 8]) -> Told
        requires { self.run.place < 65535 }
        ensures { result ≡ moving_by next_of (plan_of (asked self.held.axes self.three self.at self.origin absolute words)) self }
    {
        let axes = self.held.axes;
        self.travel_by(travel::plan(axes, self.three, self.at, self.origin, absolute, words))
    }

    // A circle, planned under the store's axes.
    fn turn(self, words: [u32; 8]) -> Told
        requires { self.run.place < 65535 }
        ensures { result ≡ moving_by next_of (circle_of self.held.axes self.circling self.at words) self }
    {
        self.travel_by(travel::circle(self.held.axes, self.circling, self.at, words))
    }

    // A delay's first pause, or done without one.
    fn delay(self, t: u16) -> Told
        requires { self.run.place < 65535 }
        ensures { result ≡ delaying t self }
    {
        if t == 0 {
            return self.on_to(Job::Ready).tell(Answer::Done);
        }
        self.on_to(after_pause(t - 1)).tell(Answer::Pause)
    }

    fn go_to(self, job: Job, place: u16, loops: Loops) -> Told
        ensures { result ≡ told (with_run self (running job place loops)) Answer.Done }
    {
        let run = Run { job, place, loops };
        self.with_run(run).tell(Answer::Done)
    }

    // A jump, a loop or a wait.
    fn lead(self, item: Record) -> Told
        requires { Fits item }
        ensures { result ≡ leading (onward_of item self.run.place self.held.records self.run.loops)
            (onward_of item self.run.place self.held.records self.run.loops).going (get_or item.words 0 0) self }
    {
        let run = self.run;
        let way = program::leap(item, run.place, self.held.records, run.loops);
        let loops = way.loops(run.loops);
        match way.going {
            Going::To(place) => self.go_to(Job::Ready, place, loops),
            Going::Waits { place, target } => {
                let c = item.words[0] as u8;
                self.go_to(Job::Wait(c, target), place, loops)
            }
            Going::Wrong => self.fail(),
        }
    }

    // What the record at the place asks for.
    pub(crate) fn perform(self, item: Record) -> Told
        requires { (self.run.place < 65535) × Fits item }
        ensures { result ≡ performed next_of item self }
    {
        let w = item.words[0];
        match item.code {
            b'0' | b'm' => self.travel(item.code == b'm', item.words),
            b'n' => self.origin_at(w).on_to(Job::Ready).tell(Answer::Done),
            b'z' => self.set_three(w == 1).on_to(Job::Ready).tell(Answer::Done),
            b'5' => self.delay(w as u16),
            b'1' => self.on_to(Job::Ready).tell(Answer::Send(w as u8)),
            b'e' => self.set_plane(w).on_to(Job::Ready).tell(Answer::Done),
            b'f' => self.set_direction(w).on_to(Job::Ready).tell(Answer::Done),
            b'y' => self.turn(item.words),
            _ => self.lead(item),
        }
    }
}
