// Replies into the lent buffer; the bytes past a reply stay.
ghost use Rattle.std.specs.Prelude.{◌≡◌, [], ◌∷◌, ◌++◌, ◌+◌, ◌≤◌, length, take, drop, eqb};
ghost use Rattle.count.specs.Axes.{shown_axes, end_to_end};
ghost use Rattle.motion.specs.Axes.{on};
ghost use Rattle.count.specs.Text.{written, report, two_hex, four_digits};
ghost use Rattle.board.specs.Calls.{received};
ghost use Rattle.board.specs.work.Work.{bytes_of, put_of, text_of, received_of};

use crate::{Received, Saying, Spoke};
use motion::Counters;

fn put_one(reply: &mut [u8; 32], byte: u8) -> usize
    ensures { written result reply.new ≡ put_of (byte ∷ []) reply.old }
{
    reply[0] = byte;
    1
}

// A position at byte `at`.
fn put_at(reply: &mut [u8; 32], at: usize, c: u32)
    requires { at ≤ 26 }
    ensures { reply.new ≡ take at reply.old ++ report c ++ drop (at + 6) reply.old }
{
    count::put_report(&mut reply[at..], c);
}

// 0 and the positions of x, y and z.
fn put_three(reply: &mut [u8; 32], at: Counters) -> usize
    ensures { written result reply.new ≡ put_of (48 ∷ report at.x ++ report at.y ++ report at.z) reply.old }
{
    reply[0] = b'0';
    put_at(&mut *reply, 1, at.x);
    put_at(&mut *reply, 7, at.y);
    put_at(&mut *reply, 13, at.z);
    19
}

// 0 and the positions: of x, y and z, and with four axes of A.
fn put_positions(reply: &mut [u8; 32], axes: u8, at: Counters) -> usize
    ensures { written result reply.new ≡ put_of (48 ∷ end_to_end (λ i. report (on i at)) (shown_axes (eqb axes 15))) reply.old }
{
    let three = put_three(&mut *reply, at);
    if axes != 15 {
        return three;
    }
    put_at(reply, 19, at.a);
    25
}

// 0 and a port's byte.
fn put_port(reply: &mut [u8; 32], byte: u8) -> usize
    ensures { written result reply.new ≡ put_of (48 ∷ two_hex byte) reply.old }
{
    count::put_byte(&mut reply[1..], byte);
    reply[0] = b'0';
    3
}

// G, the letter of a fault, and its place.
fn put_fault(reply: &mut [u8; 32], letter: u8, place: u16) -> usize
    ensures { written result reply.new ≡ put_of (71 ∷ letter ∷ four_digits place) reply.old }
{
    count::put_place(&mut reply[2..], place);
    reply[0] = b'G';
    reply[1] = letter;
    6
}

fn put(say: Saying, axes: u8, at: Counters, reply: &mut [u8; 32]) -> usize
    ensures { written result reply.new ≡ put_of (bytes_of say axes at) reply.old }
{
    match say {
        Saying::Silent => 0,
        Saying::One(b) => put_one(reply, b),
        Saying::Positions => put_positions(reply, axes, at),
        Saying::Port(b) => put_port(reply, b),
        Saying::Fault(letter, place) => put_fault(reply, letter, place),
    }
}

impl Spoke {
    // The reply written.
    pub(crate) fn answer(self, reply: &mut [u8]) -> Received
        requires { 32 ≤ length reply.old }
        ensures { (received result ≡ received_of self) × (reply.new ≡ text_of self ++ drop (length (text_of self)) reply.old) }
    {
        let e = self.board.engine;
        let front = reply.first_chunk_mut().unwrap();
        let len = put(self.say, e.axes, e.at, front);
        Received {
            board: self.board,
            reply: Ok(len),
        }
    }
}
