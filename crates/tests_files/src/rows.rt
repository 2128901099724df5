//! Tests of the rows of households: verdicts, fractions rounded down, faults, how ids and kept texts are quoted, and the
//! rows of whole long files, with verdicts and with bounds at new prices.

mod bounds;
mod panels;
mod rows;
mod wide;
mod wide_bounds;
