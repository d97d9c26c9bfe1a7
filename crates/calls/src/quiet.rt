// A run of clock calls until the board has nothing more to do, `Q`, and what is printed of it.
use crate::Play;
use crate::show::{job_name, show_ticked};
use board::{Board, Ticked};
use engine::Answer;
use std::io;

// Whether a pulse just made was the first of its phase.
fn is_first(board: Board) -> bool {
    match board.engine.under_way() {
        Some(t) => t.made() == 1,
        None => false,
    }
}

// Whether a call did nothing, or was refused.
fn is_nothing(ticked: Ticked) -> bool {
    matches!(ticked.answer, Ok(Answer::Nothing) | Err(_))
}

// What the board is at after a call: its job, the next record's place before the call and after it, and the origin.
fn show_place(rt: &impl Print, from: u16, board: Board) -> io::Result<()> {
    let e = board.engine;
    print!(rt;
        "T job {} from {from} place {}",
        job_name(e.run.job),
        e.run.place
    )?;
    println!(rt; " origin {}", e.origin)
}

// A call of a run: its refusal, or its answer with what the board is at. The nothing at the end is not printed.
fn show_run(rt: &impl Print, ticked: Ticked, from: u16) -> io::Result<()> {
    match ticked.answer {
        Ok(Answer::Nothing) => Ok(()),
        Err(_) => show_ticked(rt, ticked.answer),
        Ok(Answer::Pulse(_, _)) if !is_first(ticked.board) => show_ticked(rt, ticked.answer),
        Ok(_) => {
            show_ticked(rt, ticked.answer)?;
            show_place(rt, from, ticked.board)
        }
    }
}

impl Play {
    // One call of a run, and whether the run is over with it.
    fn step(&mut self, rt: &impl Print) -> io::Result<()> {
        let from = self.board.engine.run.place;
        let ticked = self.board.clock(self.store(), self.entries());
        self.over = is_nothing(ticked);
        self.called(ticked.board);
        show_run(rt, ticked, from)
    }

    // Whether a run that was not over in its calls is over now.
    fn look(&mut self) {
        let ticked = self.board.clock(self.store(), self.entries());
        self.over = is_nothing(ticked);
        self.called(self.board);
    }

    // Clock calls until one answers nothing, at most so many, and whether they were enough.
    pub(crate) fn run(&mut self, rt: &impl Print, n: u32) -> io::Result<()> {
        for _ in 0..n {
            self.step(rt)?;
            if self.over {
                return println!(rt; "Q over");
            }
        }
        self.look();
        if self.over {
            println!(rt; "Q over")
        } else {
            println!(rt; "Q more")
        }
    }
}
