// A sheet: the refusals 25 to 31, or a table of where its records lie.
#![tactic(auto)]

ghost use Rattle.std.specs.Prelude.{◌≡◌, ◌+◌, ◌-◌, ◌*◌, ◌<◌, ◌≤◌, length};
ghost use Rattle.records.specs.Layout.{bytes_at, path_here, file_here, size_of};
ghost use Rattle.records.specs.Readers.{path_at};
ghost use Rattle.sheet.specs.Twice.{same_bytes, same_source, among, repeats};
ghost use Rattle.sheet.specs.Places.{paths_from, sources_from, place_of, file_places};
ghost use Rattle.sheet.specs.Sheets.{told, read_of};
ghost use Rattle.sheet.specs.laws.Ended.{Held, told_end, ended_of, table_at};
ghost use Rattle.sheet.specs.laws.Prints.{step, print_here, Printed};
ghost use Rattle.sheet.specs.laws.Keys.{key_of, Keyed};

use bits::Cursor;
use records::{Fault, Source, State};
use refusals::Refusal;

// The longest sheet, in bytes. It stands here alone: nothing below rests on it.
const LONGEST: usize = 65536;

// Records of one kind that have one size: how many there are, and the bit position of the first.
#[derive(Clone, Copy, Debug, PartialEq, Eq)]
pub struct Run {
    pub count: usize,
    pub at: usize,
}

// An accepted sheet. Kinds never go down and files start at bit 0, so these seven numbers are the whole table: source i lies 40 * i bits
// after the first, snapshot i 142 * i, event i 75 * i, and each is read where it is asked for. There is nothing to fill, to copy
// or to lend, and nothing to promise of memory past the last record.
#[derive(Clone, Copy, Debug, PartialEq, Eq)]
pub struct Table {
    pub files: usize,
    pub sources: Run,
    pub snapshots: Run,
    pub events: Run,
}

// All records: the state before the end record, or the first refusal.
fn scan(s: &[u8]) -> Result<State, Refusal>
    requires { length s.now ≤ 0xffffffff }
    ensures { told_end result ≡ ended_of s.now }
{
    let mut st = State::default();
    loop {
        match records::step_over(s, st) {
            Ok(Some(next)) => st = next,
            Ok(None) => return Ok(st),
            Err(Fault::Refused(refusal)) => return Err(refusal),
            Err(Fault::NoState) => unreachable!(),
        }
    }
}

// Whether the n bytes at bit a are those at bit b: until the first that differs.
fn same_bytes(s: &[u8], a: usize, b: usize, n: usize) -> bool
    requires { (a + 8 * n ≤ 0x2000000000) × (b + 8 * n ≤ 0x2000000000) }
    ensures { result ≡ same_bytes (bytes_at s.now a n) (bytes_at s.now b n) }
{
    for k in 0..n {
        let x = Cursor { at: a + 8 * k }.take(s, 8);
        let y = Cursor { at: b + 8 * k }.take(s, 8);
        if x.value != y.value {
            return false;
        }
    }
    true
}

// Whether the files at a and b, whose paths have the prints x and y, have one path: their prints settle nearly all pairs.
fn paths_match(s: &[u8], a: usize, x: u64, b: usize, y: u64) -> bool
    requires { (a < 0x1000000000) × (b < 0x1000000000) × (x ≡ print_here s.now a) × (y ≡ print_here s.now b) }
    ensures { result ≡ same_bytes (path_here s.now a) (path_here s.now b) }
{
    if x != y {
        return false;
    }
    let g = records::head_at(s, a);
    let h = records::head_at(s, b);
    g.length == h.length && same_bytes(s, a + 15, b + 15, usize::from(g.length))
}

// Whether the path of the file at a bit position is t.
pub fn same_path(s: &[u8], at: usize, t: &[u8]) -> bool
    ensures { result ≡ same_bytes (path_at s.now at) t.now }
{
    let h = records::head_at(s, at);
    if usize::from(h.length) != t.len() {
        return false;
    }
    for (i, b) in t.iter().enumerate() {
        let x = Cursor {
            at: at + 15 + 8 * i,
        }
        .take(s, 8);
        if x.value != u64::from(*b) {
            return false;
        }
    }
    true
}

// The bit position past the file at a.
fn past_file(s: &[u8], a: usize) -> usize
    requires { a < 0x1000000000 }
    ensures { (result ≡ a + size_of (file_here s.now a)) × (result ≤ a + 2055) }
{
    let h = records::head_at(s, a);
    a + (15 + 8 * usize::from(h.length))
}

// The bit position of each of the first n files, and 0 past them, so that each is reached in one step.
pub fn file_places(s: &[u8], n: usize) -> [u32; 32]
    ensures { result ≡ file_places s.now n }
{
    let mut places = [0; 32];
    let mut p = 0;
    let most = n.min(32);
    for i in 0..most {
        places[i] = p as u32;
        p = past_file(s, p);
    }
    places
}

// ---- the print of a path: a number that equal paths share, and few others

// A print with one field more: both halves of it count, and no sum passes 64 bits.
fn with_field(print: u64, x: u64) -> u64
    ensures { result ≡ step print x }
{
    print % 0x1_0000_0000 * 0x100_0193 + x / 0x1_0000_0000 * 0x9e37_79b1 + x % 0x1_0000_0000
}

// The print of the path of the file at a: of its length, of its bytes by eights, and of those that are left.
fn print_of(s: &[u8], a: usize) -> u64
    requires { a < 0x1000000000 }
    ensures { result ≡ print_here s.now a }
{
    let n = usize::from(records::head_at(s, a).length);
    let eights = n / 8;
    let mut print = n as u64;
    for k in 0..eights {
        let x = Cursor {
            at: a + 15 + 64 * k,
        }
        .take(s, 64);
        print = with_field(print, x.value);
    }
    let rest = Cursor {
        at: a + 15 + 64 * eights,
    }
    .take(s, (8 * (n % 8)) as u32);
    with_field(print, rest.value)
}

// The prints of the paths of the first n files, whose places are known.
fn print_paths(s: &[u8], n: usize, places: &[u32; 32]) -> [u64; 32]
    requires { (n ≤ 32) × (places.now ≡ file_places s.now n) }
    ensures { Printed s.now result n }
{
    let mut prints = [0; 32];
    for path in 0..n {
        prints[path] = print_of(s, places[path] as usize);
    }
    prints
}

// Whether a file past file i, of the first n, has the path of file i.
fn path_again(s: &[u8], i: usize, n: usize, places: &[u32; 32], prints: &[u64; 32]) -> bool
    requires { (i < n) × (n ≤ 32) × (places.now ≡ file_places s.now n) × Printed s.now prints.now n }
    ensures { result ≡ among same_bytes (path_here s.now (place_of s.now 0 i)) (paths_from s.now (place_of s.now 0 (i + 1)) (n - (i + 1))) }
{
    let a = places[i] as usize;
    for j in i + 1..n {
        if paths_match(s, a, prints[i], places[j] as usize, prints[j]) {
            return true;
        }
    }
    false
}

// 31 of paths: whether two of the first n files have one path.
fn paths_twice(s: &[u8], n: usize) -> bool
    requires { n ≤ 32 }
    ensures { result ≡ repeats same_bytes (paths_from s.now 0 n) }
{
    let places = file_places(s, n);
    let prints = print_paths(s, n, &places);
    for file in 0..n {
        if path_again(s, file, n, &places, &prints) {
            return true;
        }
    }
    false
}

// ---- the key of a source: its file and its id as one number, so that each source is read once and not with each other one

// The key of a source. An id has 32 bits, so no two pairs of a file and an id have one key.
fn key_of(x: Source) -> u64
    ensures { result ≡ key_of x }
{
    u64::from(x.file.0) * 0x1_0000_0000 + u64::from(x.id)
}

// The keys of the n sources from bit position `from` on.
fn source_keys(s: &[u8], from: usize, n: usize) -> [u64; 32]
    requires { (n ≤ 32) × (from + 40 * n < 0x1000000000) }
    ensures { Keyed s.now from result n }
{
    let mut keys = [0; 32];
    for source in 0..n {
        keys[source] = key_of(records::source_at(s, from + 40 * source));
    }
    keys
}

// 31 of sources: whether two of the n sources from bit position `from` on have one file and id.
fn sources_twice(s: &[u8], from: usize, n: usize) -> bool
    requires { (n ≤ 32) × (from + 40 * n < 0x1000000000) }
    ensures { result ≡ repeats same_source (sources_from s.now from n) }
{
    let keys = source_keys(s, from, n);
    for i in 0..n {
        if keys[i + 1..n].contains(&keys[i]) {
            return true;
        }
    }
    false
}

// The table of a sheet that ended in this state: the first of each kind lies before all that came from it on.
fn table_at(st: State) -> Table
    requires { Held st }
    ensures { result ≡ table_at st }
{
    let events = st.at - 75 * st.events;
    let snapshots = events - 142 * st.snapshots;
    let sources = snapshots - 40 * st.sources;
    Table {
        files: st.files,
        sources: Run {
            count: st.sources,
            at: sources,
        },
        snapshots: Run {
            count: st.snapshots,
            at: snapshots,
        },
        events: Run {
            count: st.events,
            at: events,
        },
    }
}

// The counts and places of the records, or the refusal, 25 to 31.
pub fn read(s: &[u8]) -> Result<Table, Refusal>
    ensures { told result ≡ read_of s.now }
{
    if s.is_empty() || LONGEST < s.len() {
        return Err(Refusal::SheetEmptyOrTooLong);
    }
    let table = table_at(scan(s)?);
    if paths_twice(s, table.files) || sources_twice(s, table.sources.at, table.sources.count) {
        return Err(Refusal::PathOrSourceTwice);
    }
    Ok(table)
}
