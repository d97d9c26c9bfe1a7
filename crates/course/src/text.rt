// What `walk` prints of an answer and of a reply, written at the front of a lent part.
ghost use Rattle.std.specs.Prelude.{◌≡◌, [], ◌∷◌, ◌++◌, ◌≤◌, ◌<◌, ◌+◌, ◌%◌, length, drop};
ghost use Rattle.count.specs.Text.{digits};
ghost use Rattle.course.specs.Text.{pulse_text, answer_text};
ghost use Rattle.course.specs.work.Work.{Wrote};

use engine::Answer;
use motion::Signs;

// The last decimal digit of a number.
fn digit(n: u16) -> u8
    ensures { result ≡ 48 + n % 10 }
{
    (48 + n % 10) as u8
}

// A speed and a line feed: at most six bytes.
fn put_speed(out: &mut [u8], v: u16) -> usize
    requires { 6 ≤ length out.old }
    ensures { Wrote (digits v ++ 10 ∷ []) out.old result out.new × (result ≤ 6) }
{
    if 10000 <= v {
        out[0] = digit(v / 10000);
        out[1] = digit(v / 1000);
        out[2] = digit(v / 100);
        out[3] = digit(v / 10);
        out[4] = digit(v);
        out[5] = b'\n';
        return 6;
    }
    if 1000 <= v {
        out[0] = digit(v / 1000);
        out[1] = digit(v / 100);
        out[2] = digit(v / 10);
        out[3] = digit(v);
        out[4] = b'\n';
        return 5;
    }
    if 100 <= v {
        out[0] = digit(v / 100);
        out[1] = digit(v / 10);
        out[2] = digit(v);
        out[3] = b'\n';
        return 4;
    }
    if 10 <= v {
        out[0] = digit(v / 10);
        out[1] = digit(v);
        out[2] = b'\n';
        return 3;
    }
    out[0] = digit(v);
    out[1] = b'\n';
    2
}

// `P`, the signs, of A too where it is set, and the speed: at most thirteen bytes.
pub(crate) fn put_pulse(out: &mut [u8], turns: bool, signs: Signs, speed: u16) -> usize
    requires { 13 ≤ length out.old }
    ensures { Wrote (pulse_text turns signs speed) out.old result out.new × (result ≤ 13) }
{
    let x = signs.x.character();
    let y = signs.y.character();
    let z = signs.z.character();
    if turns {
        let a = signs.a.character();
        out[..7].copy_from_slice(&[b'P', b' ', x, y, z, a, b' ']);
        let j = put_speed(&mut out[7..], speed);
        return 7 + j;
    }
    out[..6].copy_from_slice(&[b'P', b' ', x, y, z, b' ']);
    let k = put_speed(&mut out[6..], speed);
    6 + k
}

// What a clock call's answer prints: at most thirteen bytes.
pub(crate) fn put_answer(out: &mut [u8], turns: bool, a: Answer) -> usize
    requires { 13 ≤ length out.old }
    ensures { Wrote (answer_text turns a) out.old result out.new × (result ≤ 13) }
{
    match a {
        Answer::Pulse(signs, speed) => put_pulse(out, turns, signs, speed),
        Answer::Send(b) => {
            out[..4].copy_from_slice(&[b'R', b' ', b, b'\n']);
            4
        }
        Answer::Pause | Answer::Done | Answer::Nothing => 0,
    }
}
