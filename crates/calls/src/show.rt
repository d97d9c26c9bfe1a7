// What is printed.
use board::Board;
use count::Refusal;
use engine::{Answer, Job};
use std::alloc::Global;
use std::io;

// A clock call: its refusal, or its answer.
pub(crate) fn show_ticked(rt: &impl Print, answer: Result<Answer, Refusal>) -> io::Result<()> {
    match answer {
        Err(refusal) => println!(rt; "C {refusal}"),
        Ok(Answer::Pulse(signs, speed)) => println!(rt; "C Pulse {signs} {speed}"),
        Ok(Answer::Pause) => println!(rt; "C Pause"),
        Ok(Answer::Send(b)) => println!(rt; "C Send {b}"),
        Ok(Answer::Done) => println!(rt; "C Done"),
        Ok(Answer::Nothing) => println!(rt; "C Nothing"),
    }
}

// A byte received: its refusal, or its reply.
pub(crate) fn show_heard(
    rt: &impl Print,
    heard: Result<usize, Refusal>,
    reply: &[u8],
) -> io::Result<()> {
    if let Err(refusal) = heard {
        return println!(rt; "B {refusal}");
    }
    if reply.is_empty() {
        return println!(rt; "B -");
    }
    print!(rt; "B ")?;
    rt.write_all(reply)?;
    println!(rt;)
}

// The lines of a listing, each behind `L `. They end by a carriage return there, and by a line feed here.
fn show_lines(rt: &impl Print, alloc: Global, text: &[u8]) -> io::Result<()> {
    let mut out = Vec::new(alloc);
    for (i, line) in text.split(|b| *b == b'\r').enumerate() {
        if i != 0 {
            out.push(b'\n')?;
        }
        if !line.is_empty() {
            out.extend_from_slice(b"L ")?;
            out.extend_from_slice(line)?;
        }
    }
    rt.write_all(&out)
}

// A listing: its refusal, or its lines.
pub(crate) fn show_listing(
    rt: &impl Print,
    alloc: Global,
    listed: Result<u32, Refusal>,
    text: &[u8],
) -> io::Result<()> {
    match listed {
        Ok(_) => show_lines(rt, alloc, text),
        Err(refusal) => println!(rt; "L {refusal}"),
    }
}

// A filling of the table: its refusal, or 0.
pub(crate) fn show_filled(rt: &impl Print, filled: Result<(), Refusal>) -> io::Result<()> {
    match filled {
        Ok(()) => println!(rt; "F 0"),
        Err(refusal) => println!(rt; "F {refusal}"),
    }
}

pub(crate) fn job_name(job: Job) -> &'static str {
    match job {
        Job::Idle => "Idle",
        Job::Storing => "Storing",
        Job::Direct(_) => "Direct",
        Job::Ready => "Ready",
        Job::Moving(_) => "Moving",
        Job::Delay(_) => "Delay",
        Job::Wait(_, _) => "Wait",
    }
}

// The state as one line.
pub(crate) fn show_state(rt: &impl Print, board: Board) -> io::Result<()> {
    let e = board.engine;
    print!(rt; "S axes {} position {} origin {}", e.axes, e.at, e.origin)?;
    print!(rt; " three {} output {}", u8::from(e.three), e.output)?;
    print!(rt; " used {} records {}", e.held.used, e.held.records)?;
    print!(rt; " store_axes {} job {}", e.held.axes, job_name(e.run.job))?;
    print!(rt; " standing {}", u8::from(board.standing))?;
    print!(rt; " loops {}", e.run.loops.depth)?;
    let plane = e.circling.plane.number();
    let direction = e.circling.direction.number();
    println!(rt; " plane {plane} direction {direction}")
}
