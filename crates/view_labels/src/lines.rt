//! The lines at which processes of a proctype can stand.

use run_state::live::Live;

/// Whether a process of the proctype with this number can stand at a line: before a statement that begins there, or at its closing brace.
pub fn can_stand_at(live: &Live<'_, '_>, sort: usize, line: u32) -> bool {
    let Some(body) = live.body(sort) else {
        return false;
    };
    for node in 0..body.graph.node_count() {
        if body.graph.line(node) == line {
            return true;
        }
    }
    body.proctype.end.line() == line
}
