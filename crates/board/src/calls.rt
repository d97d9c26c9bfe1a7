// The calls, with their refusals 101, 102, 103 and 104 in this order, and what a host reads of a board.
ghost use Rattle.std.specs.Prelude.{◌≡◌};
ghost use Rattle.record.specs.Memory.{memory};
ghost use Rattle.record.specs.Listing.{told};
ghost use Rattle.engine.specs.work.Acts.{is_wrong};
ghost use Rattle.board.specs.State.{sound};
ghost use Rattle.count.specs.Refusals.{number_of};
ghost use Rattle.record.specs.Table.{refused};
ghost use Rattle.board.specs.Calls.{lent, did, received, receiving, clocked, clocked_by, answer_in, len_in, clocking, listing, fresh, point};

use crate::{Board, Ear, Line, Point, Received, Ticked};
use count::Refusal;
use engine::{Act, Answer, Engine};
use motion::Counters;

// Counters as numbers.
fn as_point(c: Counters) -> Point
    ensures { result ≡ point c }
{
    Point {
        x: count::number(c.x),
        y: count::number(c.y),
        z: count::number(c.z),
        a: count::number(c.a),
    }
}

// Whether 103 refuses the engine.
fn is_refused(act: Act) -> bool
    ensures { result ≡ is_wrong act }
{
    matches!(act, Act::Wrong)
}

impl Received {
    // The bytes of the reply; none where the call is refused.
    pub fn len(self) -> usize
        ensures { result ≡ len_in self.reply }
    {
        match self.reply {
            Ok(n) => n,
            Err(_) => 0,
        }
    }
}

impl Board {
    pub fn fresh() -> Board
        ensures { result ≡ fresh }
    {
        Board {
            engine: Engine::fresh(),
            standing: false,
            line: Line::empty(),
        }
    }

    // Whether the state is one that no call refuses with 103.
    pub fn sound(self) -> bool
        ensures { result ≡ sound self }
    {
        self.engine.sound() & (self.line.len <= 80)
    }

    pub fn position(self) -> Point
        ensures { result ≡ point self.engine.at }
    {
        as_point(self.engine.at)
    }

    pub fn origin(self) -> Point
        ensures { result ≡ point self.engine.origin }
    {
        as_point(self.engine.origin)
    }

    fn refuse(self, refusal: Refusal) -> Received
        ensures { received result ≡ record { board = self; len = 0; refusal = number_of refusal } }
    {
        Received {
            board: self,
            reply: Err(refusal),
        }
    }

    // A byte received, with the input ports; the reply stands at the front of its buffer.
    pub fn receive(
        self,
        byte: u8,
        ports: [u8; 4],
        reply: &mut [u8],
        store: &mut [u8],
        table: &mut [u16],
    ) -> Received
        ensures { did (received result) (lent reply.new (memory store.new table.new)) ≡ receiving byte ports self (lent reply.old (memory store.old table.old)) }
    {
        if reply.len() < 32 {
            return self.refuse(Refusal::Reply);
        }
        if store.len() != 16384 {
            return self.refuse(Refusal::Store);
        }
        if !self.sound() {
            return self.refuse(Refusal::State);
        }
        if table.len() != 1000 {
            return self.refuse(Refusal::Table);
        }
        let ear = self.ear(byte);
        if let Ear::Gather = ear {
            return self.gather(byte).quiet();
        }
        self.hear(ear, byte, ports, store, table).answer(reply)
    }

    fn still(self, answer: Result<Answer, Refusal>) -> Ticked
        ensures { clocked_by result ≡ clocked (refused answer) self (answer_in answer) }
    {
        Ticked {
            board: self,
            answer,
        }
    }

    // A clock call; what stands stopped answers nothing.
    pub fn clock(self, store: &[u8], table: &[u16]) -> Ticked
        ensures { clocked_by result ≡ clocking self (memory store.now table.now) }
    {
        if store.len() != 16384 {
            return self.still(Err(Refusal::Store));
        }
        let act = self.engine.see();
        if is_refused(act) | (80 < self.line.len) {
            return self.still(Err(Refusal::State));
        }
        if table.len() != 1000 {
            return self.still(Err(Refusal::Table));
        }
        if self.standing {
            return self.still(Ok(Answer::Nothing));
        }
        let told = self.engine.act(act, store, table);
        Ticked {
            board: Board {
                engine: told.engine,
                ..self
            },
            answer: Ok(told.answer),
        }
    }

    // The listing of the store; refused with 106 for a short text buffer, then with G.
    pub fn list(self, store: &[u8], text: &mut [u8]) -> Result<u32, Refusal>
        ensures { told result text.new ≡ listing self store.now text.old }
    {
        if store.len() != 16384 {
            return Err(Refusal::Store);
        }
        if !self.sound() {
            return Err(Refusal::State);
        }
        record::list(store, self.engine.held, text)
    }
}
