//! JSON forms and their errors, also if memory fails, and rows of sums of deltas.

mod errors;
mod fixed;
mod memory;
mod numbers;
mod tags;
