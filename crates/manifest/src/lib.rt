// What a manifest means. The rules and the meaning stand in specs/; here are the kinds of answer in which the meaning is told.
#![tactic(auto)]

use numbers::Machine;

// A clock that a manifest cites: the private clock of the file that an entry lists, or a domain, 1 to 6, of a machine.
#[derive(Clone, Copy)]
pub enum Cited {
    Private(u8),
    Domain(u8, Machine),
}

// Where `from` reads T, `to` reads T + offset. A file is pinned if `from` is its own private clock.
#[derive(Clone, Copy)]
pub struct Relation {
    pub from: Cited,
    pub to: Cited,
    pub offset: i64,
}

// What an entry's `clocks` say.
#[derive(Clone, Copy)]
pub enum Link {
    Unrelated,
    Related(Relation),
}

// What `trace_time` says: nothing, or a domain, 1 to 6, of a machine.
#[derive(Clone, Copy)]
pub enum Timeline {
    Unset,
    Set(u8, Machine),
}
