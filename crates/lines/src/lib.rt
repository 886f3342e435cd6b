// Correspondences and events as arrays, for the clocks.
#![tactic(auto)]

ghost use Rattle.std.specs.Prelude.{◌≡◌, List, [], ◌∷◌, map, ℕ, ◌+◌, ◌*◌, ◌<◌, ◌≤◌, min, length, get_or, pos};
ghost use Rattle.manifest.specs.Rows.{first_or};
ghost use Rattle.records.specs.Readers.{snapshot_at};
ghost use Rattle.meant.specs.Meant.{link_of};
ghost use Rattle.merged.specs.Merged.{padded};
ghost use Rattle.merged.specs.Refusals.{listed_by, is_pinned};
ghost use Rattle.merged.specs.Timeline.{private_clock, domain_clock, file_at, source_at, clock_for, link_from};
ghost use Rattle.checks.specs.Table.{files_in, sources_held, facts_by};
ghost use Rattle.lines.specs.Lines.{link_by, entry_links, snapshot_links, links_by, clock_by, events_at, over, reach};
ghost use Rattle.lines.specs.laws.Written.{line, Sized, Adds};

use manifest::{Cited, Link};
use numbers::{File, Machine};
use records::Event;

// A count, or a limit where it is larger.
fn at_most(n: usize, limit: usize) -> usize
    ensures { result ≡ min limit n }
{
    if n < limit { n } else { limit }
}

// A number of the table as a place.
fn wide(n: u32) -> usize
    ensures { (result ≡ n) × (result < 4294967296) }
{
    n as usize
}

// How many files the table holds.
fn files(t: &[u32; 324]) -> usize
    ensures { (result ≡ files_in t.now) × (result ≤ 32) }
{
    at_most(wide(t[0]), 32)
}

// How many sources the table holds.
fn sources(t: &[u32; 324]) -> usize
    ensures { (result ≡ sources_held t.now) × (result ≤ 32) }
{
    at_most(wide(t[1]), 32)
}

// The clock of a domain on a machine; no clock for a number that is no machine's.
fn clock_of(d: u8, m: usize) -> u16
    ensures { result ≡ domain_clock d m }
{
    if 31 < m {
        return 224;
    }
    let clock = numbers::domain_clock(d, Machine(m as u8));
    clock.0
}

// The private clock of a file; no clock for a number that is no file's.
fn private_of(f: usize) -> u16
    ensures { result ≡ private_clock f }
{
    if 31 < f {
        return 224;
    }
    let clock = numbers::private_clock(File(f as u8));
    clock.0
}

// The first file that an entry lists; 32 if it lists none.
fn file_of(t: &[u32; 324], e: u8) -> usize
    ensures { result ≡ first_or 32 (listed_by e) (facts_by t.now).files 0 }
{
    let n = files(t);
    let mut f: usize = 0;
    // Number 0 of a file is its entry.
    while f < n {
        if t[4 + (6 * f + 0)] == e as u32 {
            return f;
        }
        f += 1;
    }
    32
}

// The clock that a manifest cites.
fn cited_clock(t: &[u32; 324], cited: Cited) -> u16
    ensures { result ≡ clock_for (facts_by t.now) cited }
{
    match cited {
        Cited::Private(e) => private_of(file_of(t, e)),
        Cited::Domain(d, m) => clock_on(d, m),
    }
}

// The clock of a domain on a machine, as a number.
fn clock_on(d: u8, m: Machine) -> u16
    ensures { result ≡ domain_clock d m.0 }
{
    let clock = numbers::domain_clock(d, m);
    clock.0
}

// The clock of a domain on the machine of a source; past the last source that is the host.
fn source_clock(machines: &[usize; 32], j: u8, d: u8) -> u16
    ensures { result ≡ domain_clock d (get_or machines.now j 0) }
{
    let held: &[usize] = machines;
    if 31 < j {
        return clock_of(d, 0);
    }
    clock_of(d, held[j as usize])
}

// Writes one correspondence behind the first k; how many there are then.
fn put(
    a: &mut [u16; 288],
    x: &mut [i64; 288],
    c: &mut [u16; 288],
    y: &mut [i64; 288],
    k: usize,
    p: u16,
    reads: i64,
    q: u16,
    gives: i64,
) -> usize
    requires { (k < 288) × Sized a.old x.old c.old y.old }
    ensures { Adds (line p reads q gives ∷ []) k result a.old x.old c.old y.old a.new x.new c.new y.new }
{
    a[k] = p;
    x[k] = reads;
    c[k] = q;
    y[k] = gives;
    k + 1
}

// Writes the correspondence that entry i gives, if it gives one, behind the first k.
fn entry_link(
    s: &[u8],
    ix: &[usize; 2470],
    lookups: &[usize; 129],
    t: &[u32; 324],
    i: usize,
    a: &mut [u16; 288],
    x: &mut [i64; 288],
    c: &mut [u16; 288],
    y: &mut [i64; 288],
    k: usize,
) -> usize
    requires { (k < 288) × Sized a.old x.old c.old y.old }
    ensures { Adds (link_from (facts_by t.now) (link_of s.now ix.now lookups.now i)) k result a.old x.old c.old y.old a.new x.new c.new y.new }
{
    match meant::link(s, ix, lookups, i) {
        Link::Unrelated => k,
        Link::Related(r) => {
            let from = r.from;
            let to = r.to;
            let offset = r.offset;
            let p = cited_clock(t, from);
            let q = cited_clock(t, to);
            put(a, x, c, y, k, p, 0, q, offset)
        }
    }
}

// Writes the correspondences of the entries from the front on; how many there are.
fn entry_links(
    s: &[u8],
    ix: &[usize; 2470],
    lookups: &[usize; 129],
    t: &[u32; 324],
    a: &mut [u16; 288],
    x: &mut [i64; 288],
    c: &mut [u16; 288],
    y: &mut [i64; 288],
) -> usize
    requires { Sized a.old x.old c.old y.old }
    ensures { Adds (entry_links s.now ix.now lookups.now t.now) 0 result a.old x.old c.old y.old a.new x.new c.new y.new }
{
    let n = meant::count(ix);
    let mut k: usize = 0;
    let mut i: usize = 0;
    while i < n {
        k = entry_link(s, ix, lookups, t, i, a, x, c, y, k);
        i += 1;
    }
    k
}

// Writes the correspondence of the snapshot at a bit position behind the first k.
fn snapshot_link(
    machines: &[usize; 32],
    b: &[u8],
    at: usize,
    a: &mut [u16; 288],
    x: &mut [i64; 288],
    c: &mut [u16; 288],
    y: &mut [i64; 288],
    k: usize,
) -> usize
    requires { (k < 288) × Sized a.old x.old c.old y.old }
    ensures { (t : List ℕ) → Adds (link_by t machines.now (snapshot_at b.now at) ∷ []) k result a.old x.old c.old y.old a.new x.new c.new y.new }
{
    let n = records::snapshot_at(b, at);
    let p = source_clock(machines, n.source, n.clock);
    let q = source_clock(machines, n.source, n.clock2);
    put(a, x, c, y, k, p, n.reading, q, n.reading2)
}

// Writes the correspondences of the first 256 of n snapshots behind the first `from`; how many there are then.
fn snapshot_links(
    machines: &[usize; 32],
    b: &[u8],
    at: u32,
    n: usize,
    a: &mut [u16; 288],
    x: &mut [i64; 288],
    c: &mut [u16; 288],
    y: &mut [i64; 288],
    from: usize,
) -> usize
    requires { (from ≤ 32) × Sized a.old x.old c.old y.old }
    ensures { (t : List ℕ) → Adds (snapshot_links t machines.now b.now at n) from result a.old x.old c.old y.old a.new x.new c.new y.new }
{
    let m = at_most(n, 256);
    let base = wide(at);
    let mut k = from;
    let mut i: usize = 0;
    while i < m {
        k = snapshot_link(machines, b, base + 142 * i, a, x, c, y, k);
        i += 1;
    }
    k
}

// Writes the correspondences of the entries, then those of the first 256 of n snapshots, the first of which lies at a bit position: where
// clock a[k] reads x[k], clock c[k] reads y[k]; zeros past them. Answers how many there are.
pub fn links(
    s: &[u8],
    ix: &[usize; 2470],
    lookups: &[usize; 129],
    t: &[u32; 324],
    machines: &[usize; 32],
    b: &[u8],
    at: u32,
    n: usize,
    a: &mut [u16; 288],
    x: &mut [i64; 288],
    c: &mut [u16; 288],
    y: &mut [i64; 288],
) -> usize
    ensures count { result ≡ length (links_by s.now ix.now lookups.now t.now machines.now b.now at n) }
    ensures from { a.new ≡ padded 0 288 (map (λ l. l.a) (links_by s.now ix.now lookups.now t.now machines.now b.now at n)) }
    ensures reads { x.new ≡ padded (pos 0) 288 (map (λ l. l.x) (links_by s.now ix.now lookups.now t.now machines.now b.now at n)) }
    ensures to { c.new ≡ padded 0 288 (map (λ l. l.b) (links_by s.now ix.now lookups.now t.now machines.now b.now at n)) }
    ensures gives { y.new ≡ padded (pos 0) 288 (map (λ l. l.y) (links_by s.now ix.now lookups.now t.now machines.now b.now at n)) }
{
    let clocks: [u16; 288] = [0; 288];
    let readings: [i64; 288] = [0; 288];
    *a = clocks;
    *x = readings;
    *c = clocks;
    *y = readings;
    let k = entry_links(s, ix, lookups, t, a, x, c, y);
    snapshot_links(machines, b, at, n, a, x, c, y, k)
}

// The file of a source; file 0 past the last source.
fn source_file(t: &[u32; 324], j: u8) -> usize
    ensures { (result ≡ (source_at (facts_by t.now) j).file) × (result < 4294967296) }
{
    let j = j as usize;
    // Number 0 of a source is its file.
    if j < sources(t) {
        return wide(t[196 + (4 * j + 0)]);
    }
    0
}

// Whether a file is pinned; a number that is no file's is not.
fn is_pinned_file(t: &[u32; 324], f: usize) -> bool
    ensures { result ≡ is_pinned (file_at (facts_by t.now) f).tie }
{
    // Number 1 of a file is its tie, 2 if pinned.
    if f < files(t) {
        return t[4 + (6 * f + 1)] == 2;
    }
    false
}

// The clock of an event.
fn event_clock(t: &[u32; 324], machines: &[usize; 32], e: Event) -> u16
    ensures { result ≡ clock_by t.now machines.now e }
{
    let f = source_file(t, e.source);
    if is_pinned_file(t, f) {
        return private_of(f);
    }
    if e.clock == 0 {
        return private_of(f);
    }
    source_clock(machines, e.source, e.clock)
}

// How many of n events two memories take.
fn least(n: u32, p: usize, q: usize) -> usize
    ensures { result ≡ reach n p q }
{
    let m = at_most(q, p);
    at_most(m, wide(n))
}

// Writes the clock and the reading of each of n events, the first of which lies at a bit position, as far as both memories go; the rest
// of the memories stays.
pub fn events(
    t: &[u32; 324],
    machines: &[usize; 32],
    b: &[u8],
    at: u32,
    n: u32,
    on: &mut [u16],
    readings: &mut [i64],
)
    ensures on { on.new ≡ over (map (clock_by t.now machines.now) (events_at b.now at (reach n (length on.old) (length readings.old)))) on.old }
    ensures readings { readings.new ≡ over (map (λ e. e.reading) (events_at b.now at (reach n (length on.old) (length readings.old)))) readings.old }
{
    let m = least(n, on.len(), readings.len());
    let base = wide(at);
    let mut k: usize = 0;
    while k < m {
        let e = records::event_at(b, base + 75 * k);
        let reading = e.reading;
        on[k] = event_clock(t, machines, e);
        readings[k] = reading;
        k += 1;
    }
}
