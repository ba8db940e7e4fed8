//! What senders sent, flow after flow; the moves of a script of a simulated network; and laws of what a receiver plays out
//! of them. A contract sees the course of a run (`Course`), and its moves one after another (`MakesAll`).
#![tactic(auto)]

pub mod laws;
mod moves;

pub use moves::Move;
