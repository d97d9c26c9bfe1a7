// The lines that `walk` prints besides its answers: the first, a reply, the limit and the end.
ghost use Rattle.std.specs.Prelude.{◌≡◌, [], ◌∷◌, ◌++◌, ◌+◌, ◌≤◌, length, take, drop};
ghost use Rattle.count.specs.Numbers.{value};
ghost use Rattle.count.specs.Text.{shown};
ghost use Rattle.course.specs.Text.{head_text, limit_text, positions_text, reply_text};
ghost use Rattle.course.specs.work.Work.{Wrote, last_field};

use motion::Counters;

// One byte.
fn put_one(out: &mut [u8], b: u8) -> usize
    requires { 1 ≤ length out.old }
    ensures { Wrote (b ∷ []) out.old result out.new × (result ≡ 1) }
{
    out[0] = b;
    1
}

// The first line: five bytes.
pub(crate) fn put_head(out: &mut [u8]) -> usize
    requires { 64 ≤ length out.old }
    ensures { Wrote head_text out.old result out.new }
{
    out[..5].copy_from_slice(b"walk\n");
    5
}

// The limit's line: nine bytes.
pub(crate) fn put_limit(out: &mut [u8]) -> usize
    requires { 64 ≤ length out.old }
    ensures { Wrote limit_text out.old result out.new × (result ≡ 9) }
{
    out[..9].copy_from_slice(b"L 100000\n");
    9
}

// A space and a position: at most twelve bytes.
fn put_field(out: &mut [u8], c: u32) -> usize
    requires { 12 ≤ length out.old }
    ensures { Wrote (32 ∷ shown (value c)) out.old result out.new × (result ≤ 12) }
{
    let k = count::put_count(&mut out[1..], c);
    out[0] = b' ';
    k + 1
}

// The position of A, where it is set.
fn put_last(out: &mut [u8], turns: bool, c: u32) -> usize
    requires { 12 ≤ length out.old }
    ensures { Wrote (last_field turns c) out.old result out.new × (result ≤ 12) }
{
    if turns {
        return put_field(out, c);
    }
    0
}

// `E` and the positions, of A too where it is set: at most fifty bytes.
pub(crate) fn put_end(out: &mut [u8], turns: bool, at: Counters) -> usize
    requires { 50 ≤ length out.old }
    ensures { Wrote (positions_text turns at) out.old result out.new × (result ≤ 50) }
{
    let e = put_one(&mut *out, b'E');
    let x = put_field(&mut out[e..], at.x);
    let p = e + x;
    let y = put_field(&mut out[p..], at.y);
    let q = p + y;
    let z = put_field(&mut out[q..], at.z);
    let r = q + z;
    let a = put_last(&mut out[r..], turns, at.a);
    let s = r + a;
    let f = put_one(&mut out[s..], b'\n');
    s + f
}

// `R` before a reply of so many bytes that stands at byte 2, and a line feed behind it; no reply prints nothing.
pub(crate) fn put_reply(out: &mut [u8], n: usize) -> usize
    requires { n + 3 ≤ length out.old }
    ensures { Wrote (reply_text (take n (drop 2 out.old))) out.old result out.new }
{
    if n == 0 {
        return 0;
    }
    out[0] = b'R';
    out[1] = b' ';
    let e = n + 2;
    out[e] = b'\n';
    n + 3
}
