//! Three cells in a row, of which one is full, and a step to the left.

use crate::literals::Sign;
use crate::problems::Change;

/// What is stated of three cells of which one is full.
pub const ONE_OF_THREE: [&[Sign]; 4] = [
    &[(0, true), (1, true), (2, true)],
    &[(0, false), (1, false)],
    &[(0, false), (2, false)],
    &[(1, false), (2, false)],
];

/// The changes of a step to the left: what is in a cell comes into the one before it.
pub const LEFT: [Change<'static>; 4] = [
    (&[(2, true)], (1, true)),
    (&[(2, true)], (2, false)),
    (&[(1, true)], (0, true)),
    (&[(1, true)], (1, false)),
];
