//! Tests of the library's crates, as a caller of them: a change here proves nothing else again.
#![tactic(auto)]

#[cfg(test)]
mod tests;
