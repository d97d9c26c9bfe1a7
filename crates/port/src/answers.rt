// An answer by its kind, signs, and speed or byte.
ghost use Rattle.std.specs.Prelude.{◌≡◌};
ghost use Rattle.port.specs.Calls.{kind_of, value_of, at_rest, signs_of, clocked_by};

use crate::{Clocked, State};
use engine::Answer;
use motion::{Sign, Signs};

fn kind_of(a: Answer) -> u8
    ensures { result ≡ kind_of a }
{
    match a {
        Answer::Pulse(_, _) => 1,
        Answer::Pause => 2,
        Answer::Send(_) => 3,
        Answer::Done => 4,
        Answer::Nothing => 5,
    }
}

fn value_of(a: Answer) -> u16
    ensures { result ≡ value_of a }
{
    match a {
        Answer::Pulse(_, v) => v,
        Answer::Send(b) => b as u16,
        Answer::Pause | Answer::Done | Answer::Nothing => 0,
    }
}

fn at_rest() -> Signs
    ensures { result ≡ at_rest }
{
    Signs {
        x: Sign::Rest,
        y: Sign::Rest,
        z: Sign::Rest,
        a: Sign::Rest,
    }
}

fn signs_of(a: Answer) -> Signs
    ensures { result ≡ signs_of a }
{
    match a {
        Answer::Pulse(s, _) => s,
        Answer::Pause | Answer::Send(_) | Answer::Done | Answer::Nothing => at_rest(),
    }
}

// A state with an answer and a refusal.
pub(crate) fn clocked(state: State, a: Answer, refusal: u16) -> Clocked
    ensures { result ≡ clocked_by refusal state a }
{
    let signs = signs_of(a);
    Clocked {
        state,
        kind: kind_of(a),
        x: signs.x.value(),
        y: signs.y.value(),
        z: signs.z.value(),
        a: signs.a.value(),
        value: value_of(a),
        refusal,
    }
}
