// The effects of a line outside storing whose letter and numbers are right, and its reply.
ghost use Rattle.std.specs.Prelude.{◌≡◌, ◌%◌, get_or};
ghost use Rattle.line.specs.Said.{letter_said, direct_found};
ghost use Rattle.engine.specs.State.{begun_in};
ghost use Rattle.board.specs.State.{board, no_line};
ghost use Rattle.board.specs.work.Work.{spoke_of, replied_with, begun_with, started_by, affected, obeyed};

use crate::{Board, Line, Saying, Spoke, letters};
use count::Fault;
use engine::Engine;
use line::{Direct, Letter};

// The lowest byte of a word.
fn low(w: u32) -> u8
    ensures { result ≡ w % 256 }
{
    (w % 256) as u8
}

// The byte of an input port; there is none past the fourth.
fn port_at(ports: [u8; 4], port: u32) -> u8
    ensures { result ≡ get_or ports port 0 }
{
    if port < 4 {
        let i = port as usize;
        return ports[i];
    }
    0
}

impl Board {
    // Another engine, and an empty line.
    pub(crate) fn with_engine(self, engine: Engine) -> Board
        ensures { result ≡ board engine self.standing no_line }
    {
        Board {
            engine,
            line: Line::empty(),
            ..self
        }
    }

    pub(crate) fn says(self, say: Saying) -> Spoke
        ensures { result ≡ spoke_of self say }
    {
        Spoke { board: self, say }
    }

    // Another engine, an empty line, and a reply of one byte.
    pub(crate) fn replies(self, engine: Engine, byte: u8) -> Spoke
        ensures { result ≡ replied_with self engine byte }
    {
        self.with_engine(engine).says(Saying::One(byte))
    }

    // A movement or circle that runs replies nothing yet; one that is refused or has no pulse replies at once.
    fn begin(self, begun: Result<Option<Engine>, Fault>) -> Spoke
        ensures { result ≡ begun_with self (begun_in self.engine begun) }
    {
        match begun {
            Ok(moving) => match moving {
                Some(engine) => self.with_engine(engine).says(Saying::Silent),
                None => self.replies(self.engine, b'0'),
            },
            Err(fault) => self.replies(self.engine, fault.letter()),
        }
    }

    // S: go on with what stands, else start the program; 8 and G.
    fn start(self) -> Spoke
        ensures { result ≡ started_by self }
    {
        let e = self.engine;
        if self.standing {
            let going = Board {
                standing: false,
                ..self.with_engine(e)
            };
            return going.says(Saying::Silent);
        }
        if e.held.records == 0 {
            return self.replies(e, Fault::Empty.letter());
        }
        if e.axes != e.held.axes {
            return self.replies(e, Fault::Refused.letter());
        }
        self.with_engine(e.start()).says(Saying::Silent)
    }

    fn affect(self, letter: Letter, words: [u32; 8], ports: [u8; 4]) -> Spoke
        ensures { result ≡ affected (letter_said letter) words ports self }
    {
        let e = self.engine;
        let w = words[0];
        let named = low(w);
        match letter {
            Letter::Axes => self.replies(e.set_axes(named), b'0'),
            Letter::Relative => self.begin(e.begin(false, words)),
            Letter::Absolute => self.begin(e.begin(true, words)),
            Letter::Origin => self.replies(e.set_origin(named), b'0'),
            Letter::Zero => self.replies(e.set_zero(named), b'0'),
            Letter::Three => self.replies(e.set_three(w == 1), b'0'),
            Letter::Position => self.with_engine(e).says(Saying::Positions),
            Letter::Input => {
                let byte = port_at(ports, w);
                self.with_engine(e).says(Saying::Port(byte))
            }
            Letter::Output => self.replies(e.set_output(low(words[1])), b'0'),
            Letter::Store => self.replies(e.store(), b'0'),
            Letter::Empty => self.replies(e.empty(), b'0'),
            Letter::Start => self.start(),
            Letter::Plane => self.replies(e.set_plane(w), b'0'),
            Letter::Direction => self.replies(e.set_direction(w), b'0'),
            Letter::Circle => self.begin(e.begin_circle(words)),
        }
    }

    // A line outside storing: 5 where its shape is wrong, its first fault, or its effect.
    #[tactic(auto, unfolding(crate::specs::work::Work::obeyed))]
    pub(crate) fn obey(self, d: Option<Direct>, ports: [u8; 4]) -> Spoke
        ensures { result ≡ obeyed (direct_found d) ports self }
    {
        let e = self.engine;
        let Some(d) = d else {
            return self.replies(e, Fault::Shape.letter());
        };
        match letters::line_fault(e.axes, self.standing, d) {
            Ok(()) => self.affect(d.letter, d.words, ports),
            Err(fault) => self.replies(e, fault.letter()),
        }
    }
}
