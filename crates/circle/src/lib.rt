// Circles: which way the axes of a plane go, the next pulse of an arc, its plan, and what 103 asks of one under way.
#![tactic(auto)]

mod beats;
mod counted;
mod numbers;
mod plan;
mod rule;
mod sound;

use motion::Sign;
pub use plan::{bend, direction_of, plane_of};

// The plane of a circle, by its first and second axis.
#[derive(Clone, Copy)]
pub enum Plane {
    XY,
    XZ,
    YZ,
}

#[derive(Clone, Copy)]
pub enum Direction {
    Clockwise,
    Counter,
}

// How circles go: their plane and direction.
#[derive(Clone, Copy)]
pub struct Circling {
    pub plane: Plane,
    pub direction: Direction,
}

// A point of a plane by its first and second axis, as counts.
#[repr(C)]
#[derive(Clone, Copy)]
pub struct Pair {
    pub first: u32,
    pub second: u32,
}

// Which way the two axes of a plane go.
#[derive(Clone, Copy)]
pub struct Ways {
    pub first: Sign,
    pub second: Sign,
}

// An arc: how it goes, its centre, its start counted from there, its speed, its length in pulses and the pulses made.
#[derive(Clone, Copy)]
pub struct Arc {
    pub circling: Circling,
    pub centre: Pair,
    pub start: Pair,
    pub speed: u16,
    pub length: u32,
    pub made: u32,
}
