// One received byte: gathered, dropped or taken by a wait, and the three control codes.
ghost use Rattle.std.specs.Prelude.{◌≡◌, ◌≤◌, false, ◌||◌};
ghost use Rattle.record.specs.Memory.{memory};
ghost use Rattle.engine.specs.State.{heard};
ghost use Rattle.board.specs.Calls.{received};
ghost use Rattle.board.specs.State.{board, gathered, with_line};
ghost use Rattle.board.specs.Receive.{is_storing, holds_by, ends_by, returned};
ghost use Rattle.board.specs.work.Work.{spoke_of, spoke, stop_spoke, break_spoke, reset_spoke, gathers_by, waits_by};
ghost use Rattle.board.specs.work.Ears.{line_ear, job_ear, byte_ear, ear_for, is_gather, heard_as};
ghost use Rattle.board.specs.work.Take.{taken_of};

use crate::{Board, Ear, Line, Received, Saying, Spoke, Taken};
use count::Fault;
use engine::Job;

fn is_storing(job: Job) -> bool
    ensures { result ≡ is_storing job }
{
    matches!(job, Job::Storing)
}

// Whether lines are gathered.
fn is_gathering(job: Job) -> bool
    ensures { result ≡ gathers_by job }
{
    matches!(job, Job::Idle | Job::Storing)
}

fn is_waiting(job: Job) -> bool
    ensures { result ≡ waits_by job }
{
    matches!(job, Job::Wait(_, _))
}

// Whether a stop holds it.
fn is_held(job: Job) -> bool
    ensures { result ≡ holds_by job }
{
    matches!(job, Job::Direct(_) | Job::Ready | Job::Moving(_))
}

// Whether a break ends it.
fn is_ended(job: Job) -> bool
    ensures { result ≡ ends_by job }
{
    !matches!(job, Job::Idle | Job::Storing)
}

// What an ordinary byte is taken for where lines are gathered.
fn line_ear(byte: u8) -> Ear
    ensures { result ≡ line_ear byte }
{
    if byte == b'\r' {
        return Ear::Return;
    }
    Ear::Gather
}

// What an ordinary byte is taken for.
fn job_ear(job: Job, standing: bool, byte: u8) -> Ear
    ensures { result ≡ job_ear job standing byte }
{
    if standing | is_gathering(job) {
        return line_ear(byte);
    }
    if is_waiting(job) {
        return Ear::Listen;
    }
    Ear::Ignore
}

fn byte_ear(job: Job, standing: bool, byte: u8) -> Ear
    ensures { result ≡ byte_ear job standing byte }
{
    if byte == 253 {
        return Ear::Stop;
    }
    if byte == 254 {
        return Ear::Reset;
    }
    if byte == 255 {
        return Ear::Quit;
    }
    job_ear(job, standing, byte)
}

impl Board {
    fn stop(self) -> Spoke
        ensures { result ≡ stop_spoke self }
    {
        if is_held(self.engine.run.job) & !self.standing {
            let stopped = Board {
                standing: true,
                ..self
            };
            return stopped.says(Saying::One(b'F'));
        }
        self.says(Saying::Silent)
    }

    fn quit(self) -> Spoke
        ensures { result ≡ break_spoke self }
    {
        if is_ended(self.engine.run.job) | self.standing {
            let ended = Board {
                engine: self.engine.cease(),
                standing: false,
                ..self
            };
            return ended.says(Saying::One(b'F'));
        }
        self.says(Saying::Silent)
    }

    fn reset(self) -> Spoke
        ensures { result ≡ reset_spoke self }
    {
        let board = Board {
            engine: self.engine.reset(),
            standing: false,
            line: Line::empty(),
        };
        board.says(Saying::Silent)
    }

    // A byte at a wait.
    fn listen(self, byte: u8) -> Spoke
        ensures { result ≡ spoke_of (board (heard byte self.engine) self.standing self.line) Saying.Silent }
    {
        let board = Board {
            engine: self.engine.hear(byte),
            ..self
        };
        board.says(Saying::Silent)
    }

    // One byte more in the line.
    pub(crate) fn gather(self, byte: u8) -> Board
        ensures { result ≡ with_line self (gathered byte self.line) }
    {
        Board {
            line: self.line.gather(byte),
            ..self
        }
    }

    // What a byte is taken for.
    pub(crate) fn ear(self, byte: u8) -> Ear
        ensures { result ≡ ear_for byte self }
    {
        byte_ear(self.engine.run.job, self.standing, byte)
    }

    // A carriage return ends the line.
    fn end_line(self, ports: [u8; 4], store: &mut [u8], table: &mut [u16]) -> Spoke
        requires { self.line.len ≤ 80 }
        ensures { spoke result (memory store.new table.new) ≡ returned ports self (memory store.old table.old) }
    {
        if self.line.over {
            return self.replies(self.engine, Fault::Shape.letter());
        }
        if is_storing(self.engine.run.job) & !self.standing {
            return self.store_line(store, table);
        }
        // Of a copy: read where it stands, a line takes longer.
        let l = self.line;
        self.obey(line::direct_line(l.text()), ports)
    }

    // No reply. Of the shape of `refuse`, but another outcome.
    pub(crate) fn quiet(self) -> Received
        ensures { received result ≡ record { board = self; len = 0; refusal = 0 } }
    {
        Received {
            board: self,
            reply: Ok(0),
        }
    }

    // What a byte comes to that is not gathered.
    pub(crate) fn hear(
        self,
        ear: Ear,
        byte: u8,
        ports: [u8; 4],
        store: &mut [u8],
        table: &mut [u16],
    ) -> Spoke
        requires { (self.line.len ≤ 80) × (is_gather ear ≡ false) }
        ensures { spoke result (memory store.new table.new) ≡ heard_as ear byte ports self (memory store.old table.old) }
    {
        match ear {
            Ear::Gather => self.says(Saying::Silent),
            Ear::Return => self.end_line(ports, store, table),
            Ear::Listen => self.listen(byte),
            Ear::Ignore => self.says(Saying::Silent),
            Ear::Stop => self.stop(),
            Ear::Reset => self.reset(),
            Ear::Quit => self.quit(),
        }
    }

    // Whether a byte that is no carriage return and no control code goes into the line.
    fn gathers(self) -> bool
        ensures { result ≡ self.standing || gathers_by self.engine.run.job }
    {
        self.standing | is_gathering(self.engine.run.job)
    }

    // The bytes at the front of an input that only go into the line, all at once.
    pub fn take(self, input: &[u8]) -> Taken
        ensures { result ≡ taken_of input.now self }
    {
        let mut b = self;
        let mut count = 0;
        if self.gathers() {
            if self.sound() {
                let l = self.line;
                let g = l.gather_all(input);
                let line = g.line;
                b.line = line;
                count = g.count;
            }
        }
        Taken { board: b, count }
    }
}
