//! Tests of what no clause and no run of `invite threads` says of links, of turns at a locked node and of runs in threads, through public calls:
//! what a gate holds up, on real threads, what is refused memory and made again, and ends of two links. The crate has no code beside its tests. They stand apart from the crates that they try,
//! each of which would else be proved twice.
#![tactic(auto)]

#[cfg(test)]
mod tests;
