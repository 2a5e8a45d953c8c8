//! The domain and the problem of two families of planning problems, of any size in a range. `specs/Line.antt` and
//! `specs/Bombs.antt` say which texts they are, line by line.
#![tactic(auto)]

mod bombs;
mod line;
mod lines;

pub use bombs::bombs_problem;
pub use line::line_problem;
