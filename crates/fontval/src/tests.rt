//! Runs of `serve`, devices of std, and texts of errors.

mod device;
mod error;
mod serve;
