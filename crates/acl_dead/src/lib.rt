//! Dead terms: for a term and a target a packet that the term decides there, or that there is none. What is asked is the
//! first point of a grid that lies in no box of numbers.
#![tactic(auto)]

mod apartness;
mod axes;
mod blocking;
mod coordinates;
mod cuts;
mod cutting;
mod decisions;
mod grid_laws;
mod grids;
mod laws;
mod levels;
mod places;
mod questions;
mod rows;
mod searches;
mod sides;
mod spaces;
mod walks;

pub use decisions::{Decided, decide};
pub use grid_laws::points_round_down;
pub use laws::answers_are_one;
