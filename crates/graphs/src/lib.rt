// Correspondences between clocks, and the three graphs that they and the guesses make.
#![tactic(auto)]

ghost use Rattle.std.specs.Prelude.{◌≡◌, [], ◌&&◌, ◌||◌, ◌+◌, ◌*◌, ◌-◌, ◌/◌, ◌%◌, ◌^◌, ◌≤◌, ◌<◌, ltb, leb, eqb, length, replicate};
ghost use Rattle.numbers.specs.Numbers.{clocks};
ghost use Rattle.graphs.specs.Links.{links_of};
ghost use Rattle.graphs.specs.Graphs.{world_of, guess as guessed, linked, marked};
ghost use Rattle.graphs.specs.laws.Matrix.{Marks, joins};
ghost use Rattle.graphs.specs.laws.Added.{Added};
ghost use Rattle.graphs.specs.laws.Guesses.{Row, Part, Free};

// A byte for each two clocks.
const CELLS: usize = numbers::CLOCKS * numbers::CLOCKS;

// How many correspondences four lists make: as far as all four go.
pub fn count<'a>(a: &'a [u16], x: &'a [i64], b: &'a [u16], y: &'a [i64]) -> usize
    ensures { result ≡ length (links_of a.now x.now b.now y.now) }
{
    a.len().min(x.len()).min(b.len()).min(y.len())
}

// Whether graph g guesses that a domain reads the same on all machines: REALTIME from graph 2 on, the others in graph 3.
fn is_guessed(g: u8, d: u8) -> bool
    ensures { result ≡ (leb 3 g || eqb d 1) }
{
    3 <= g || d == 1
}

// Whether file f is listed and not pinned.
fn is_free(files: u8, pinned: u32, f: u8) -> bool
    ensures { result ≡ (ltb f files && eqb (pinned / 2 ^ f % 2) 0) }
{
    f < files && (31 < f || (pinned >> f) % 2 == 0)
}

// Joins two clocks, in both directions; what is no clock is left out.
fn join(matrix: &mut [u8], c: u16, d: u16)
    requires { length matrix.old ≡ clocks * clocks }
    ensures { Marks (joins c d) matrix.old matrix.new }
{
    let e = usize::from(c);
    let f = usize::from(d);
    if e < numbers::CLOCKS && f < numbers::CLOCKS {
        matrix[e * numbers::CLOCKS + f] = 1;
        matrix[f * numbers::CLOCKS + e] = 1;
    }
}

// Joins domain d of machine m to that of each machine before it.
fn join_row(d: u8, m: u8, matrix: &mut [u8])
    requires { (length matrix.old ≡ clocks * clocks) × (1 ≤ d) × (d ≤ 6) }
    ensures { Added (Row d m m) matrix.old matrix.new }
{
    let p = numbers::domain_clock(d, numbers::Machine(m));
    for n in 0..m {
        let q = numbers::domain_clock(d, numbers::Machine(n));
        join(matrix, p.0, q.0);
    }
}

// The same if graph g guesses the domain.
fn join_domain(g: u8, d: u8, m: u8, matrix: &mut [u8])
    requires { (length matrix.old ≡ clocks * clocks) × (1 ≤ d) × (d ≤ 6) }
    ensures { Added (Part g (6 * m + d - 1) (6 * m + d)) matrix.old matrix.new }
{
    if is_guessed(g, d) {
        join_row(d, m, matrix);
    }
}

// The same of each domain.
fn join_machine(g: u8, m: u8, matrix: &mut [u8])
    requires { length matrix.old ≡ clocks * clocks }
    ensures { Added (Part g (6 * m) (6 * m + 6)) matrix.old matrix.new }
{
    for d in 1..7 {
        join_domain(g, d, m, matrix);
    }
}

// The same of each machine.
fn join_machines(g: u8, machines: u8, matrix: &mut [u8])
    requires { length matrix.old ≡ clocks * clocks }
    ensures { Added (Part g 0 (6 * machines)) matrix.old matrix.new }
{
    for m in 0..machines {
        join_machine(g, m, matrix);
    }
}

// Joins trace time to the private clock of file f, if the file isn't pinned and its clock is another.
fn join_file(files: u8, pinned: u32, trace: u16, f: u8, matrix: &mut [u8])
    requires { (length matrix.old ≡ clocks * clocks) × (f < files) }
    ensures { Added (Free pinned trace f (f + 1)) matrix.old matrix.new }
{
    let d = numbers::private_clock(numbers::File(f)).0;
    if is_free(files, pinned, f) && d != trace {
        join(matrix, trace, d);
    }
}

// The same of each file.
fn join_files(files: u8, pinned: u32, trace: u16, matrix: &mut [u8])
    requires { length matrix.old ≡ clocks * clocks }
    ensures { Added (Free pinned trace 0 files) matrix.old matrix.new }
{
    for f in 0..files {
        join_file(files, pinned, trace, f, matrix);
    }
}

// Joins the pairs that graph g guesses.
fn join_guesses(g: u8, machines: u8, files: u8, pinned: u32, trace: u16, matrix: &mut [u8])
    requires { length matrix.old ≡ clocks * clocks }
    ensures { Marks (guessed g (world_of [] [] [] [] machines files pinned trace)) matrix.old matrix.new }
{
    if g < 2 {
        return;
    }
    join_machines(g, machines, matrix);
    if g < 3 {
        return;
    }
    join_files(files, pinned, trace, matrix);
}

// Joins the two clocks of each correspondence.
fn join_links<'a>(a: &'a [u16], x: &'a [i64], b: &'a [u16], y: &'a [i64], matrix: &mut [u8])
    requires { length matrix.old ≡ clocks * clocks }
    ensures { Marks (linked (links_of a.now x.now b.now y.now)) matrix.old matrix.new }
{
    for k in 0..count(a, x, b, y) {
        join(matrix, a[k], b[k]);
    }
}

// Sets the matrix to zeros and, if it has a byte for each two clocks, joins the two clocks of each correspondence in it.
pub fn start<'a>(a: &'a [u16], x: &'a [i64], b: &'a [u16], y: &'a [i64], matrix: &mut [u8])
    ensures { matrix.new ≡ marked (linked (links_of a.now x.now b.now y.now)) (replicate (length matrix.old) 0) }
{
    matrix.fill(0);
    if matrix.len() != CELLS {
        return;
    }
    join_links(a, x, b, y, matrix);
}

// Joins in the matrix, if it has a byte for each two clocks, the pairs that graph g guesses. They contain those of the graphs before, so a
// matrix to which graph after graph was added holds the pairs of the last.
pub fn add(g: u8, machines: u8, files: u8, pinned: u32, trace: numbers::Clock, matrix: &mut [u8])
    ensures { matrix.new ≡ marked (guessed g (world_of [] [] [] [] machines files pinned trace.0)) matrix.old }
{
    if matrix.len() != CELLS {
        return;
    }
    join_guesses(g, machines, files, pinned, trace.0, matrix);
}
