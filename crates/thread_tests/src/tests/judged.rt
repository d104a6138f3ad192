//! Whether what was gathered of a run in threads is a run, as the checker of traces sees it.

use group_task::NODES;
use node_threads::Gathered;
use std::alloc::Global;
use std::process::Abort;
use threads_console::trace_of;
use trace_check::{Verdict, check};

/// Whether some order of all entries is a run.
pub(crate) fn is_run(rt: &impl Abort, alloc: Global, run: &Gathered) -> bool {
    if usize::from(NODES) < run.histories.len() {
        return false;
    }
    let trace = trace_of(alloc, run).expect(rt, "memory for a trace");
    let verdict = check(alloc, &trace).expect(rt, "memory for a verdict");
    matches!(verdict, Verdict::Run(_))
}
