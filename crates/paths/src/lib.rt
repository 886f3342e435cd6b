// The best paths to a target in a graph of clocks, which a matrix of bytes holds.
#![tactic(auto)]

ghost use Rattle.std.specs.Prelude.{◌≡◌, false, ◌++◌, ℕ, ◌+◌, ◌*◌, ◌≤◌, ◌<◌, length, get_or, drop, MatchOption};
ghost use Rattle.numbers.specs.Numbers.{clocks};
ghost use Rattle.paths.specs.Matrix.{pair_of, is_graph, held, graph_of, distances, nexts, along, traced};
ghost use Rattle.paths.specs.laws.Graph.{Whole};
ghost use Rattle.paths.specs.laws.Search.{Bare, First, NoneOf, Marked, Apart, Selves, Rest, State};

// No path: more than any distance.
const FAR: u16 = 65535;

// The distance and the next clock of each clock.
#[derive(Clone, Copy)]
pub struct Found {
    pub dist: [u16; numbers::CLOCKS],
    pub next: [u16; numbers::CLOCKS],
}

// Where the queue ends, and how many clocks are left without a distance.
#[derive(Clone, Copy)]
struct Ends {
    tail: usize,
    left: usize,
}

// Why there is no path to write: none leads to the target, or the memory is too short for it.
#[derive(Clone, Copy)]
pub enum NoRoute {
    Nowhere,
    Short,
}

// Whether the matrix has n rows of n bytes, for no more clocks than there are, and the target is one of them.
// n is tested first, so that n * n does not wrap.
#[tactic(auto, unfolding(crate::specs::Matrix::is_graph))]
fn is_graph(matrix: &[u8], n: usize, target: usize) -> bool
    ensures { result ≡ is_graph matrix.now n target }
{
    n <= numbers::CLOCKS && matrix.len() == n * n && target < n
}

// Whether a pair leads from c to d: the one place that knows where a cell stands.
fn pair(matrix: &[u8], n: usize, c: usize, d: usize) -> bool
    requires { (length matrix.now ≡ n * n) × (n ≤ clocks) × (c < n) × (d < n) }
    ensures { result ≡ pair_of matrix.now n c d }
{
    0 < matrix[c * n + d]
}

// Whether a pair leads from clock c. All of its row is looked at, with no way out between, since that becomes a few instructions for 16
// bytes together.
fn has_pair(matrix: &[u8], n: usize, c: usize) -> bool
    requires { (length matrix.now ≡ n * n) × (n ≤ clocks) × (c < n) }
    ensures { result ≡ false → Bare matrix.now n c }
{
    let mut most = 0;
    for cell in &matrix[c * n..c * n + n] {
        most = most.max(*cell);
    }
    0 < most
}

// Lists the clocks other than the target from which a pair leads, in rising order, and answers how many they are: most often a few, and no
// other clock has a path or is on one.
fn others(matrix: &[u8], n: usize, target: usize, out: &mut [u16; numbers::CLOCKS]) -> usize
    requires { Whole matrix.now n target × (length out.old ≡ clocks) }
    ensures { (result < n) × (length out.new ≡ clocks) × Rest (held matrix.now n target) 1 out.new result n }
{
    let mut count = 0;
    for c in 0..n {
        if c != target && has_pair(matrix, n, c) {
            out[count] = c as u16;
            count += 1;
        }
    }
    count
}

// The first clock of a level to which a pair leads from e. It looks along e's row of the matrix, at no more than the clocks up to the one
// that it finds.
fn nearer(matrix: &[u8], n: usize, level: &[u16], e: usize) -> Option<usize>
    requires matrix_len { (length matrix.now ≡ n * n) × (n ≤ clocks) × (e < n) }
    requires by_index { (i : ℕ) → i < length level.now → get_or level.now i 0 < n }
    ensures { MatchOption result (NoneOf (pair_of matrix.now n e) level.now 0 (length level.now)) (λ c. First (pair_of matrix.now n e) level.now 0 (length level.now) c) }
{
    for clock in level {
        let c = usize::from(*clock);
        if pair(matrix, n, e, c) {
            return Some(c);
        }
    }
    None
}

// For each clock a byte: 255 if it stands in the level, else 0. The contract says no more than that these clocks' bytes are not 0.
fn mask_of(level: &[u16]) -> [u8; numbers::CLOCKS]
    requires { (i : ℕ) → i < length level.now → get_or level.now i 0 < clocks }
    ensures { Marked result level.now 0 (length level.now) }
{
    let mut mask = [0u8; numbers::CLOCKS];
    for clock in level {
        mask[usize::from(*clock)] = 255;
    }
    mask
}

// Whether a pair leads from clock e to one whose byte of the mask is not 0. All of its row is looked at, with no way out between, as in
// `has_pair`.
fn meets(matrix: &[u8], n: usize, e: usize, mask: &[u8; numbers::CLOCKS]) -> bool
    requires { (length matrix.now ≡ n * n) × (n ≤ clocks) × (e < n) }
    ensures { result ≡ false → Apart matrix.now n e mask.now }
{
    let mut most = 0;
    for d in 0..n {
        most = most.max(mask[d].min(matrix[e * n + d]));
    }
    0 < most
}

// The same as `nearer`, which is asked for a level of more than 12 clocks only where the level's mask says that there is such a clock.
fn nearer_in(
    matrix: &[u8],
    n: usize,
    level: &[u16],
    e: usize,
    mask: &[u8; numbers::CLOCKS],
) -> Option<usize>
    requires matrix_len { (length matrix.now ≡ n * n) × (n ≤ clocks) × (e < n) }
    requires by_index { (i : ℕ) → i < length level.now → get_or level.now i 0 < n }
    requires marked { Marked mask.now level.now 0 (length level.now) }
    ensures { MatchOption result (NoneOf (pair_of matrix.now n e) level.now 0 (length level.now)) (λ c. First (pair_of matrix.now n e) level.now 0 (length level.now) c) }
{
    if 12 < level.len() && !meets(matrix, n, e, mask) {
        return None;
    }
    nearer(matrix, n, level, e)
}

// Gives the distance k to each clock of the rest from which a pair leads to the level before, the clocks at one pair less, which are the last
// of the queue. A level is in rising order, so the first of it to which a pair leads is the next clock. Each such clock is put at the queue's
// end, so the new level is in rising order too. The others stay in the rest, moved together, so no clock that has a distance is looked at
// again. Only the contract speaks of the target.
fn level(
    matrix: &[u8],
    n: usize,
    target: usize,
    rest: &mut [u16; numbers::CLOCKS],
    left: usize,
    found: &mut Found,
    queue: &mut [u16; numbers::CLOCKS],
    from: usize,
    end: usize,
    k: u16,
) -> Ends
    requires whole { Whole matrix.now n target × (from < end) }
    requires state { State (held matrix.now n target) clocks found.old.dist found.old.next rest.old left queue.old from end k }
    ensures { State (held matrix.now n target) clocks found.new.dist found.new.next rest.new result.left queue.new end result.tail (k + 1) }
{
    let mask = mask_of(&queue[from..end]);
    let mut tail = end;
    let mut kept = 0;
    for d in 0..left {
        let e = usize::from(rest[d]);
        match nearer_in(matrix, n, &queue[from..end], e, &mask) {
            Some(c) => {
                found.dist[e] = k;
                found.next[e] = c as u16;
                queue[tail] = e as u16;
                tail += 1;
            }
            None => {
                rest[kept] = e as u16;
                kept += 1;
            }
        }
    }
    Ends { tail, left: kept }
}

// Names each clock as its own next one.
fn name_selves(next: &mut [u16; numbers::CLOCKS])
    requires { length next.old ≡ clocks }
    ensures { Selves clocks next.new }
{
    for c in 0..numbers::CLOCKS {
        next[c] = c as u16;
    }
}

// The distance and the next clock of each clock, level by level from the target, until a level is empty. The target and a clock without a path
// name themselves. Where the matrix is no graph with that target, no clock has a path.
pub fn search(matrix: &[u8], n: usize, target: usize) -> Found
    ensures { (result.dist ≡ distances (graph_of matrix.now n target)) × (result.next ≡ nexts (graph_of matrix.now n target)) }
{
    let mut found = Found {
        dist: [FAR; numbers::CLOCKS],
        next: [0; numbers::CLOCKS],
    };
    name_selves(&mut found.next);
    if !is_graph(matrix, n, target) {
        return found;
    }
    let mut queue = [0u16; numbers::CLOCKS];
    let mut rest = [0u16; numbers::CLOCKS];
    let mut left = others(matrix, n, target, &mut rest);
    found.dist[target] = 0;
    queue[0] = target as u16;
    let mut from = 0;
    let mut end = 1;
    let mut k = 1;
    while from < end {
        let ends = level(
            matrix, n, target, &mut rest, left, &mut found, &mut queue, from, end, k,
        );
        from = end;
        end = ends.tail;
        left = ends.left;
        k += 1;
    }
    found
}

// Writes the clocks of k steps from c to the start of out, c left out.
fn follow(next: &[u16; numbers::CLOCKS], c: usize, k: usize, out: &mut [u16])
    requires by_index { (i : ℕ) → i < clocks → get_or next.now i 0 < clocks }
    requires c_lt_clocks { (c < clocks) × (k ≤ length out.old) }
    ensures { out.new ≡ along next.now k c ++ drop k out.old }
{
    let mut at = c;
    for s in 0..k {
        let to = next[at];
        out[s] = to;
        at = usize::from(to);
    }
}

// The best path from one clock to the target: its clocks, the first left out, are written to out, and out's rest is set to zeros. The answer
// is the number of its steps.
pub fn path(
    matrix: &[u8],
    n: usize,
    target: usize,
    from: usize,
    out: &mut [u16],
) -> Result<u16, NoRoute>
    ensures answer { result ≡ (traced (graph_of matrix.now n target) from (length out.old)).answer }
    ensures written { out.new ≡ (traced (graph_of matrix.now n target) from (length out.old)).out }
{
    out.fill(0);
    if numbers::CLOCKS <= from {
        return Err(NoRoute::Nowhere);
    }
    let found = search(matrix, n, target);
    let k = found.dist[from];
    if k == FAR {
        return Err(NoRoute::Nowhere);
    }
    if out.len() < usize::from(k) {
        return Err(NoRoute::Short);
    }
    follow(&found.next, from, usize::from(k), out);
    Ok(k)
}
