//! Difference constraints `x_b <= x_a + m` between whole-number variables, and heaviest paths along
//! arcs that lead forward. It knows no tables, no widths and no heights. Its one contract: what it
//! returns is true of all assignments that satisfy the constraints, and of all paths, and is reached
//! by some.
#![tactic(auto)]

mod closed_bounds;
mod insertion;
mod matrix;
mod paths;

pub use matrix::{MAX_BOUND, MAX_MARKS, MAX_VARIABLES, Matrix};
pub use paths::{Arc, MAX_PATH_WEIGHT, chain, heaviest};
