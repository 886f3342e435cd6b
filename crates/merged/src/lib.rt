// What an accepted merge counts, and how much memory a caller lends. The definition of the merge stands in specs/.
#![tactic(auto)]

use numbers::Clock;

// Files, machines and events, and the trace-time clock: none for a sheet without files.
#[derive(Clone, Copy)]
pub struct Summary {
    pub files: u8,
    pub machines: u8,
    pub events: usize,
    pub trace: Option<Clock>,
}

// How long the lent memories are: of the outputs a byte for each source, and for each event its time, kind and steps; of the work memories the
// matrix, and for each event its reading and its clock.
#[derive(Clone, Copy)]
pub struct Room {
    pub machines: usize,
    pub times: usize,
    pub kinds: usize,
    pub steps: usize,
    pub matrix: usize,
    pub readings: usize,
    pub clocks: usize,
}
