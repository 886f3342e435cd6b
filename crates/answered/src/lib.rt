// The answer of a manifest and a sheet that fit each other, in memory that the caller lends.
#![tactic(auto)]

ghost use Rattle.std.specs.Prelude.{◌≡◌, map, ◌≤◌, pos, length, replicate};
ghost use Rattle.merged.specs.Answers.{Merged};
ghost use Rattle.merged.specs.Merged.{padded};
ghost use Rattle.placed.specs.Placed.{world_in, cells};
ghost use Rattle.answered.specs.Answered.{as_byte, machines_in, clocks_in, readings_in, summed, events_in};
ghost use Rattle.answered.specs.laws.Marks.{Marked};

use merged::Summary;
use placed::{Given, Known};

// The most sources of a sheet.
const SOURCES: usize = 32;

// The most events that 32 bits count.
const COUNTED: usize = 4294967295;

// A byte for each two clocks.
const CELLS: usize = numbers::CLOCKS * numbers::CLOCKS;

// A number as a byte, or the largest byte where it is larger.
fn byte(n: usize) -> u8
    ensures { result ≡ as_byte n }
{
    n.min(255) as u8
}

// Writes the machine of each source, and zeros past them.
fn write_machines(each: &[usize], machines: &mut [u8])
    requires { length each.now ≤ length machines.old }
    ensures { machines.new ≡ padded 0 (length machines.old) (map as_byte each.now) }
{
    machines.fill(0);
    for j in 0..each.len() {
        machines[j] = byte(each[j]);
    }
}

// What is counted: the trace-time clock is none for a sheet without files.
fn summary(given: Given) -> Summary
    ensures { Merged result ≡ summed given }
{
    Summary {
        files: given.files,
        machines: given.machines,
        events: given.events,
        trace: (given.files != 0).then_some(given.trace),
    }
}

// Writes the machine of each source, zeros past them, and the clock and the reading of each event.
fn mark(
    t: &[u32; 324],
    b: &[u8],
    sources: usize,
    at: u32,
    events: usize,
    machines: &mut [u8],
    clocks: &mut [u16],
    readings: &mut [i64],
)
    ensures { Marked t.now b.now sources at events machines.old clocks.old readings.old machines.new clocks.new readings.new }
{
    let mut each: [usize; 32] = [0; 32];
    checks::machines(t, &mut each);
    let n = sources.min(SOURCES.min(machines.len()));
    write_machines(&each[..n], machines);
    let k = events.min(COUNTED) as u32;
    lines::events(t, &each, b, at, k, clocks, readings);
}

// The memories are parameters: each clause on a struct of `&mut` would also say that its fields are the same references.
// Answers by the tables: `machines` holds the machine of each source, `times`, `kinds` and `steps` each event's answer, as placed::place gives
// them; zeros follow, and the work memories hold zeros. What place uses of the matrix it leaves as zeros, so that only the rest is cleared.
pub fn answer<'a>(
    t: &[u32; 324],
    b: &[u8],
    a: &'a [u16],
    x: &'a [i64],
    c: &'a [u16],
    y: &'a [i64],
    known: Known,
    machines: &mut [u8],
    times: &mut [i64],
    kinds: &mut [u8],
    steps: &mut [u16],
    matrix: &mut [u8],
    readings: &mut [i64],
    clocks: &mut [u16],
) -> Summary
    ensures answer { Merged result ≡ summed known.given }
    ensures machines { machines.new ≡ padded 0 (length machines.old) (machines_in t.now known.sources (length machines.old)) }
    ensures times { times.exit.now ≡ (events_in t.now b.now known (world_in known.given a.now x.now c.now y.now) clocks.old readings.old (record { times = length times.entry.now; kinds = length kinds.old; steps = length steps.old; matrix = cells matrix.old })).times }
    ensures kinds { kinds.new ≡ (events_in t.now b.now known (world_in known.given a.now x.now c.now y.now) clocks.old readings.old (record { times = length times.entry.now; kinds = length kinds.old; steps = length steps.old; matrix = cells matrix.old })).kinds }
    ensures steps { steps.new ≡ (events_in t.now b.now known (world_in known.given a.now x.now c.now y.now) clocks.old readings.old (record { times = length times.entry.now; kinds = length kinds.old; steps = length steps.old; matrix = cells matrix.old })).steps }
    ensures matrix { matrix.new ≡ replicate (length matrix.old) 0 }
    ensures readings { readings.new ≡ replicate (length readings.old) (pos 0) }
    ensures clocks { clocks.new ≡ replicate (length clocks.old) 0 }
{
    let given = known.given;
    mark(
        t,
        b,
        known.sources,
        known.at,
        given.events,
        machines,
        clocks,
        readings,
    );
    placed::place(
        a, x, c, y, given, clocks, readings, times, kinds, steps, matrix,
    );
    zeros::work(CELLS, matrix, readings, clocks);
    summary(given)
}
