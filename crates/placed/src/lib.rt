// Each event's answer in lent memory, from correspondences and events that stand at the front of longer lists.
#![tactic(auto)]

ghost use Rattle.std.specs.Prelude.{◌≡◌, ◌++◌, length, take, drop, replicate};
ghost use Rattle.clocks.specs.Answers.{filled};
ghost use Rattle.placed.specs.Placed.{world_in, cells, cleared};

use numbers::Clock;

// A byte for each two clocks.
const CELLS: usize = numbers::CLOCKS * numbers::CLOCKS;

// What is given beside the lists: how many correspondences and events there are, and the numbers of the world.
#[derive(Clone, Copy)]
pub struct Given {
    pub links: usize,
    pub events: usize,
    pub machines: u8,
    pub files: u8,
    pub pinned: u32,
    pub trace: Clock,
}

// What an accepted manifest and an accepted sheet that fit each other give beside the lists.
#[derive(Clone, Copy)]
pub struct Known {
    pub sources: usize,
    pub at: u32,
    pub given: Given,
}

// The first n of a list, or all where there are fewer.
fn front<T>(xs: &[T], n: usize) -> &[T]
    ensures { result.now ≡ take n xs.now }
{
    &xs[..n.min(xs.len())]
}

// Each event's answer, as clocks::answers gives it in a matrix of a byte for each two clocks; a longer matrix keeps its rest.
pub fn place<'a>(
    a: &'a [u16],
    x: &'a [i64],
    c: &'a [u16],
    y: &'a [i64],
    given: Given,
    on: &'a [u16],
    reads: &'a [i64],
    times: &mut [i64],
    kinds: &mut [u8],
    steps: &mut [u16],
    matrix: &mut [u8],
)
    ensures times { times.exit.now ≡ (filled (world_in given a.now x.now c.now y.now) (take given.events on.now) (take given.events reads.now) (record { times = length times.entry.now; kinds = length kinds.old; steps = length steps.old; matrix = cells matrix.old })).times }
    ensures kinds { kinds.new ≡ (filled (world_in given a.now x.now c.now y.now) (take given.events on.now) (take given.events reads.now) (record { times = length times.entry.now; kinds = length kinds.old; steps = length steps.old; matrix = cells matrix.old })).kinds }
    ensures steps { steps.new ≡ (filled (world_in given a.now x.now c.now y.now) (take given.events on.now) (take given.events reads.now) (record { times = length times.entry.now; kinds = length kinds.old; steps = length steps.old; matrix = cells matrix.old })).steps }
    ensures matrix { matrix.new ≡ cleared matrix.old }
{
    let n = given.links;
    let k = given.events;
    let used = CELLS.min(matrix.len());
    clocks::answers(
        front(a, n),
        front(x, n),
        front(c, n),
        front(y, n),
        given.machines,
        given.files,
        given.pinned,
        given.trace,
        front(on, k),
        front(reads, k),
        times,
        kinds,
        steps,
        &mut matrix[..used],
    );
}
