// A state read as a board, and what a board says written back over a state.
ghost use Rattle.std.specs.Prelude.{◌≡◌};
ghost use Rattle.port.specs.work.Work.{straight_under, round_under, kind_under};
ghost use Rattle.port.specs.Code.{flag, direction_code, circling_of, arc_of, round_of, travel_of, job_of, code_of, byte_over, number_over, known, engine_of, board_of, coded_over, over, no_point, no_move, no_round, blank};

use crate::{Round, State};
use board::{Board, Line};
use circle::{Arc, Circling, Direction, Pair};
use engine::{Engine, Job, Run};
use motion::{Counters, Move};
use program::Loops;
use record::Held;
use travel::Travel;

pub(crate) fn as_flag(b: bool) -> u8
    ensures { result ≡ flag b }
{
    u8::from(b)
}

// ---- circles

fn direction_code(direction: Direction) -> u8
    ensures { result ≡ direction_code direction }
{
    match direction {
        Direction::Clockwise => 0,
        Direction::Counter => 1,
    }
}

fn circling_of(plane: u8, direction: u8) -> Circling
    ensures { result ≡ circling_of plane direction }
{
    Circling {
        plane: circle::plane_of(plane as u32),
        direction: circle::direction_of(direction as u32),
    }
}

fn arc_of(r: Round) -> Arc
    ensures { result ≡ arc_of r }
{
    Arc {
        circling: circling_of(r.plane, r.direction),
        centre: r.centre,
        start: r.start,
        speed: r.speed,
        length: r.length,
        made: r.made,
    }
}

fn round_of(a: Arc) -> Round
    ensures { result ≡ round_of a }
{
    Round {
        centre: a.centre,
        start: a.start,
        length: a.length,
        made: a.made,
        speed: a.speed,
        plane: a.circling.plane.number(),
        direction: direction_code(a.circling.direction),
    }
}

// ---- what moves

fn travel_of(kind: u8, straight: Move, round: Round) -> Travel
    ensures { result ≡ travel_of kind straight round }
{
    if kind == 0 {
        return Travel::Straight(straight);
    }
    Travel::Round(arc_of(round))
}

// The straight movement under way, or what stood there.
#[tactic(auto, unfolding(crate::specs::work::Work::straight_under))]
fn straight_over(u: Option<Travel>, old: Move) -> Move
    ensures { result ≡ straight_under u old }
{
    match u {
        Some(Travel::Straight(m)) => m,
        _ => old,
    }
}

// The arc under way, or what stood there.
#[tactic(auto, unfolding(crate::specs::work::Work::round_under))]
fn round_over(u: Option<Travel>, old: Round) -> Round
    ensures { result ≡ round_under u old }
{
    match u {
        Some(Travel::Round(a)) => round_of(a),
        _ => old,
    }
}

// Which of the two moves, or what stood there.
#[tactic(auto, unfolding(crate::specs::work::Work::kind_under))]
fn kind_over(u: Option<Travel>, old: u8) -> u8
    ensures { result ≡ kind_under u old }
{
    match u {
        Some(Travel::Straight(_)) => 0,
        Some(Travel::Round(_)) => 1,
        None => old,
    }
}

// ---- the job

fn code_of(job: Job) -> u8
    ensures { result ≡ code_of job }
{
    match job {
        Job::Idle => 0,
        Job::Storing => 1,
        Job::Direct(_) => 2,
        Job::Ready => 3,
        Job::Moving(_) => 4,
        Job::Delay(_) => 5,
        Job::Wait(_, _) => 6,
    }
}

// The character of a wait, or what stood there.
fn byte_over(job: Job, old: u8) -> u8
    ensures { result ≡ byte_over job old }
{
    match job {
        Job::Wait(c, _) => c,
        Job::Idle | Job::Storing | Job::Direct(_) | Job::Ready | Job::Moving(_) | Job::Delay(_) =>
            old,
    }
}

// The pauses of a delay or the target of a wait, or what stood there.
fn number_over(job: Job, old: u16) -> u16
    ensures { result ≡ number_over job old }
{
    match job {
        Job::Delay(n) => n,
        Job::Wait(_, t) => t,
        Job::Idle | Job::Storing | Job::Direct(_) | Job::Ready | Job::Moving(_) => old,
    }
}

fn job_of(code: u8, travel: Travel, number: u16, byte: u8) -> Job
    ensures { result ≡ job_of code travel number byte }
{
    match code {
        0 => Job::Idle,
        1 => Job::Storing,
        2 => Job::Direct(travel),
        3 => Job::Ready,
        4 => Job::Moving(travel),
        5 => Job::Delay(number),
        _ => Job::Wait(byte, number),
    }
}

// ---- nothing

fn no_point() -> Counters
    ensures { result ≡ no_point }
{
    Counters {
        x: 0,
        y: 0,
        z: 0,
        a: 0,
    }
}

fn no_move(none: Counters) -> Move
    ensures { result ≡ no_move none }
{
    Move {
        start: none,
        first: none,
        second: none,
        third: none,
        speed1: 0,
        speed2: 0,
        speed3: 0,
        phase: 0,
        made: 0,
    }
}

fn no_round() -> Round
    ensures { result ≡ no_round }
{
    let none = Pair {
        first: 0,
        second: 0,
    };
    Round {
        centre: none,
        start: none,
        length: 0,
        made: 0,
        speed: 0,
        plane: 0,
        direction: 0,
    }
}

// ---- the board

impl State {
    // Whether each code and flag is one that a board has.
    pub(crate) fn is_known(self) -> bool
        ensures { result ≡ known self }
    {
        let r = self.round;
        let job = (self.job <= 6) & (self.kind <= 1);
        let flags = (self.over <= 1) & (self.standing <= 1) & (self.three <= 1);
        let circles = (self.plane <= 2)
            & (self.direction <= 1)
            & (r.plane <= 2)
            & (r.direction <= 1);
        job & flags & circles
    }

    pub(crate) fn engine(self) -> Engine
        ensures { result ≡ engine_of self }
    {
        let travel = travel_of(self.kind, self.straight, self.round);
        Engine {
            axes: self.axes,
            at: self.at,
            origin: self.origin,
            three: self.three == 1,
            circling: circling_of(self.plane, self.direction),
            output: self.output,
            held: self.held,
            run: Run {
                job: job_of(self.job, travel, self.number, self.byte),
                place: self.place,
                loops: self.loops,
            },
        }
    }

    // The board of a state.
    pub(crate) fn open(self) -> Board
        ensures { result ≡ board_of self }
    {
        let bytes = self.line;
        Board {
            engine: self.engine(),
            standing: self.standing == 1,
            line: Line {
                bytes,
                len: self.len,
                over: self.over == 1,
            },
        }
    }

    // An engine written over a state; what its job has no use for stays.
    pub(crate) fn with_engine(self, e: Engine) -> State
        ensures { result ≡ coded_over self e self.line self.len self.over self.standing }
    {
        let job = e.run.job;
        let under = e.under_way();
        State {
            at: e.at,
            origin: e.origin,
            straight: straight_over(under, self.straight),
            round: round_over(under, self.round),
            held: e.held,
            place: e.run.place,
            number: number_over(job, self.number),
            loops: e.run.loops,
            axes: e.axes,
            three: as_flag(e.three),
            plane: e.circling.plane.number(),
            direction: direction_code(e.circling.direction),
            output: e.output,
            job: code_of(job),
            kind: kind_over(under, self.kind),
            byte: byte_over(job, self.byte),
            ..self
        }
    }

    // A board written over a state.
    pub(crate) fn with_board(self, b: Board) -> State
        ensures { result ≡ over self b }
    {
        let line = b.line.bytes;
        State {
            line,
            len: b.line.len,
            over: as_flag(b.line.over),
            standing: as_flag(b.standing),
            ..self.with_engine(b.engine)
        }
    }

    // Every number 0.
    pub(crate) fn blank() -> State
        ensures { result ≡ blank }
    {
        let none = no_point();
        let held = Held {
            used: 0,
            records: 0,
            axes: 0,
        };
        State {
            at: none,
            origin: none,
            straight: no_move(none),
            round: no_round(),
            held,
            place: 0,
            number: 0,
            loops: Loops::none(),
            line: [0u8; 80],
            len: 0,
            over: 0,
            standing: 0,
            axes: 0,
            three: 0,
            plane: 0,
            direction: 0,
            output: 0,
            job: 0,
            kind: 0,
            byte: 0,
        }
    }
}
