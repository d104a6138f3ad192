//! Tests of groups, messages, seals, a node's core, what changes at a node, jobs, sectors, slots, cells, journals and stores, through their public calls: of what no clause says and no
//! line of the program's input shows. Bytes and texts from outside, how many device calls a call makes, what stops and crashes leave, and rows of the
//! core by itself. The crate has no code beside its tests. They stand apart from the crates that they try, each of which would else be proved twice.
#![tactic(auto)]

#[cfg(test)]
mod tests;
