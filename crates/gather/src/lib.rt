// What is known of files and sources, gathered from a sheet and a manifest's tables.
#![tactic(auto)]

ghost use Rattle.std.specs.Prelude.{◌≡◌, [], ◌∷◌, ◌+◌, ◌*◌, ◌<◌, ◌≤◌, length, take};
ghost use Rattle.records.specs.Layout.{bytes_at};
ghost use Rattle.records.specs.Readers.{path_at, source_at, snapshot_at};
ghost use Rattle.sheet.specs.Places.{place_of};
ghost use Rattle.sheet.specs.Sheets.{read_of, told};
ghost use Rattle.grammar.specs.Tree.{same};
ghost use Rattle.manifest.specs.Rows.{holds};
ghost use Rattle.index.specs.Index.{text_cell, rows, entries_in};
ghost use Rattle.index.proofs.laws.Put.{Put};
ghost use Rattle.named.specs.Named.{count_in};
ghost use Rattle.meant.specs.Meant.{owned_of, part_of};
ghost use Rattle.gather.specs.Gathered.{part_code, owned_code, flag as flag_of, entry_with, row_in, file_row, source_row, gathered_in, gathered};
ghost use Rattle.gather.specs.laws.Near.{Near, Cites, Known, Recorded};

use bits::Cursor;
use meant::{Owned, Part};
use refusals::Refusal;
use sheet::Table;

// A number of 8 bits as one of the table's.
fn small(x: u8) -> u32
    ensures { result ≡ x }
{
    x as u32
}

// A number of 8 bits, where sums are made of it.
fn long(x: u8) -> usize
    ensures { (result ≡ x) × (result < 256) }
{
    x as usize
}

// A number of the table, where sums are made of it.
fn wide(x: u32) -> usize
    ensures { (result ≡ x) × (result < 4294967296) }
{
    x as usize
}

// A flag as a number.
fn flag(c: bool) -> u32
    ensures { result ≡ flag_of c }
{
    if c { 1 } else { 0 }
}

// The eight bytes from a bit position on are put into a path, from byte i on: one reading of the sheet serves all eight.
fn put_word(b: &[u8], at: usize, path: &mut [u8; 256], i: usize)
    requires { (at < 0x2000000000) × (length path.old ≡ 256) × (i + 8 ≤ 256) }
    ensures { Put path.old i (bytes_at b.now at 8) path.new }
{
    let x = Cursor { at }.take(b, 64);
    let v = x.value;
    path[i] = (v >> 56) as u8;
    path[i + 1] = ((v >> 48) % 256) as u8;
    path[i + 2] = ((v >> 40) % 256) as u8;
    path[i + 3] = ((v >> 32) % 256) as u8;
    path[i + 4] = ((v >> 24) % 256) as u8;
    path[i + 5] = ((v >> 16) % 256) as u8;
    path[i + 6] = ((v >> 8) % 256) as u8;
    path[i + 7] = (v % 256) as u8;
}

// A path stands at a position, and it is the given one: its string is unescaped once, and the bytes are compared.
fn is_path(s: &[u8], at: usize, path: &[u8]) -> bool
    requires { length path.now ≤ 256 }
    ensures { result ≡ holds (same path.now) (text_cell s.now at) }
{
    if at == 0 {
        return false;
    }
    let mut text: [u8; 256] = [0; 256];
    let n = prints::unescape(s, at, &mut text);
    if n != path.len() {
        return false;
    }
    starts_with(&text, path)
}

// A text begins with the bytes of a path.
fn starts_with(text: &[u8; 256], path: &[u8]) -> bool
    requires { (length text.now ≡ 256) × (length path.now ≤ 256) }
    ensures { result ≡ same path.now (take (length path.now) text.now) }
{
    let mut i: usize = 0;
    while i < path.len() {
        if text[i] != path[i] {
            return false;
        }
        i += 1;
    }
    true
}

// Which entry has this path; 32 if none has. Only a path that has its print is compared with it.
fn listing(s: &[u8], ix: &[usize; 2470], lookups: &[usize; 129], path: &[u8]) -> usize
    requires { length path.now ≤ 256 }
    ensures { result ≡ entry_with s.now ix.now lookups.now path.now }
{
    let print = wide(prints::print_of(path));
    let n = meant::count(ix);
    let mut i: usize = 0;
    while i < n {
        if lookups[96 + i] == print {
            if is_path(s, index::col(ix, i, 0), path) {
                return i;
            }
        }
        i += 1;
    }
    32
}

// Which entry lists the file at a bit position; 32 if none does.
fn path_entry(s: &[u8], ix: &[usize; 2470], lookups: &[usize; 129], b: &[u8], at: usize) -> usize
    requires { at < 0x1000000000 }
    ensures { (result ≡ entry_with s.now ix.now lookups.now (path_at b.now at)) × (result ≤ 32) }
{
    let h = records::head_at(b, at);
    let n = long(h.length);
    let mut path = [0u8; 256];
    let mut i: usize = 0;
    while i < n {
        // The last word may reach past the path's end: those bytes are not looked at.
        put_word(b, at + 15 + 8 * i, &mut path, i);
        i += 8;
    }
    listing(s, ix, lookups, &path[0..n])
}

// The file of the source that snapshot i is by.
fn snapshot_file(b: &[u8], t: Table, i: usize) -> usize
    requires { (Near t) × (i < 256) }
    ensures { result ≡ (source_at b.now (t.sources.at + 40 * (snapshot_at b.now (t.snapshots.at + 142 * i)).source)).file.0 }
{
    let n = records::snapshot_at(b, t.snapshots.at + 142 * i);
    let x = records::source_at(b, t.sources.at + 40 * long(n.source));
    long(x.file.0)
}

// For each file number, 1 if one of the snapshots is by a source of that file, else 0: one pass serves all files.
fn recorded_files(b: &[u8], t: Table) -> [u8; 32]
    requires { Near t }
    ensures { Recorded b.now t result }
{
    let n = t.snapshots.count;
    let mut out = [0u8; 32];
    let mut i: usize = 0;
    while i < n {
        out[snapshot_file(b, t, i)] = 1;
        i += 1;
    }
    out
}

// The numbers of file f, which stands at a bit position; zeros past the last file.
fn file_row(
    s: &[u8],
    ix: &[usize; 2470],
    lookups: &[usize; 129],
    b: &[u8],
    t: Table,
    f: usize,
    at: usize,
    recorded: &[u8; 32],
) -> [u32; 6]
    requires { (Near t) × (at < 0x1000000000) × (f < t.files → at ≡ place_of b.now 0 f) × (Recorded b.now t recorded.now) }
    ensures { result ≡ row_in t.files 6 (file_row s.now ix.now lookups.now b.now t) f }
{
    if t.files <= f {
        return [0u32; 6];
    }
    let e = path_entry(s, ix, lookups, b, at);
    let tie = meant::tie(ix, lookups, e);
    let base = meant::base(s, ix, lookups, e);
    let machine = small(base.0);
    let h = records::head_at(b, at);
    let container = flag(h.container);
    let claim = small(h.claim);
    let seen = small(recorded[f]);
    [e as u32, tie, machine, container, claim, seen]
}

// What is said of the machine of an id in a split file.
fn part_code(p: Part) -> [u32; 2]
    ensures { result ≡ part_code p }
{
    match p {
        Part::Undeclared => [3, 0],
        Part::Of(m) => [2, small(m.0)],
    }
}

// What entry e says of the machine of an id.
fn owned_code(s: &[u8], ix: &[usize; 2470], lookups: &[usize; 129], e: usize, id: u32) -> [u32; 2]
    ensures { result ≡ owned_code (owned_of s.now ix.now lookups.now e) (part_of s.now ix.now lookups.now e id) }
{
    match meant::owned_of(s, ix, lookups, e) {
        Owned::Nobody => [0, 0],
        Owned::Whole(m) => [1, small(m.0)],
        Owned::Split => part_code(meant::part_of(s, ix, lookups, e, id)),
    }
}

// The numbers of source j, whose file's entry is in the table already; zeros past the last source.
fn source_row(
    s: &[u8],
    ix: &[usize; 2470],
    lookups: &[usize; 129],
    b: &[u8],
    t: Table,
    j: usize,
    out: &[u32; 324],
) -> [u32; 4]
    requires { (Near t) × (Cites b.now t) × (Known s.now ix.now lookups.now b.now t out.now) }
    ensures { result ≡ row_in t.sources.count 4 (source_row s.now ix.now lookups.now b.now t) j }
{
    if t.sources.count <= j {
        return [0u32; 4];
    }
    let x = records::source_at(b, t.sources.at + 40 * j);
    let f = x.file.0;
    let id = x.id;
    let e = wide(out[4 + 6 * long(f)]);
    let said = owned_code(s, ix, lookups, e, id);
    [small(f), id, said[0], said[1]]
}

// The numbers of a row are put into the table, from a place on.
fn store(out: &mut [u32; 324], base: usize, row: &[u32])
    requires { (length out.old ≡ 324) × (base + length row.now ≤ 324) }
    ensures { Put out.old base row.now out.new }
{
    let mut j: usize = 0;
    while j < row.len() {
        out[base + j] = row[j];
        j += 1;
    }
}

// The numbers of the files are put into the table.
fn put_files(
    s: &[u8],
    ix: &[usize; 2470],
    lookups: &[usize; 129],
    b: &[u8],
    t: Table,
    out: &mut [u32; 324],
)
    requires { (Near t) × (length out.old ≡ 324) }
    ensures { Put out.old 4 (rows (row_in t.files 6 (file_row s.now ix.now lookups.now b.now t)) 32) out.new }
{
    let places = sheet::file_places(b, t.files);
    let recorded = recorded_files(b, t);
    let mut f: usize = 0;
    while f < 32 {
        let row = file_row(s, ix, lookups, b, t, f, wide(places[f]), &recorded);
        store(out, 4 + 6 * f, &row);
        f += 1;
    }
}

// The numbers of the sources are put into the table.
fn put_sources(
    s: &[u8],
    ix: &[usize; 2470],
    lookups: &[usize; 129],
    b: &[u8],
    t: Table,
    out: &mut [u32; 324],
)
    requires { (Near t) × (length out.old ≡ 324) × (Cites b.now t) × (Known s.now ix.now lookups.now b.now t out.old) }
    ensures { Put out.old 196 (rows (row_in t.sources.count 4 (source_row s.now ix.now lookups.now b.now t)) 32) out.new }
{
    let mut j: usize = 0;
    while j < 32 {
        let row = source_row(s, ix, lookups, b, t, j, out);
        store(out, 196 + 4 * j, &row);
        j += 1;
    }
}

// The first numbers of the table: how many files, sources, entries and names there are.
fn head_row(ix: &[usize; 2470], lookups: &[usize; 129], t: Table) -> [u32; 4]
    requires { Near t }
    ensures { result ≡ t.files ∷ t.sources.count ∷ entries_in ix.now ∷ count_in lookups.now ∷ [] }
{
    // A slice tells its length: the count of names is at most 32.
    let table: &[usize] = lookups;
    let entries = meant::count(ix);
    let machines = meant::named(lookups);
    [
        t.files as u32,
        t.sources.count as u32,
        entries as u32,
        machines as u32,
    ]
}

// The whole table of an accepted sheet.
fn fill(
    s: &[u8],
    ix: &[usize; 2470],
    lookups: &[usize; 129],
    b: &[u8],
    t: Table,
    out: &mut [u32; 324],
)
    requires { (Near t) × (length out.old ≡ 324) × (Cites b.now t) }
    ensures { out.new ≡ gathered_in s.now ix.now lookups.now b.now t }
{
    let row = head_row(ix, lookups, t);
    store(out, 0, &row);
    put_files(s, ix, lookups, b, t, out);
    put_sources(s, ix, lookups, b, t, out);
}

// Reads the sheet, and writes the table of what is known of its files and sources; zeros for a refused sheet.
pub fn gather(
    s: &[u8],
    ix: &[usize; 2470],
    lookups: &[usize; 129],
    b: &[u8],
    t: &mut [u32; 324],
) -> Result<Table, Refusal>
    ensures { (told result ≡ read_of b.now) × (t.new ≡ gathered s.now ix.now lookups.now b.now) }
{
    *t = [0; 324];
    let table = sheet::read(b)?;
    fill(s, ix, lookups, b, table, t);
    Ok(table)
}
