// The index of a manifest is made from its text by one walk: it goes into each known member where it is first met, notes where its value stands, and
// goes on where that value ends.
#![tactic(auto)]

ghost use Rattle.std.specs.Prelude.{◌≡◌, ℕ, ◌+◌, ◌*◌, ◌≤◌, ◌<◌, length, get_or, set};
ghost use Rattle.text.specs.Reading.{Text, pick};
ghost use Rattle.text.specs.Class.{skip};
ghost use Rattle.values.specs.laws.Outs.{Gives};
ghost use Rattle.places.specs.Places.{member_place};
ghost use Rattle.manifest.specs.Names.{bytes};
ghost use Rattle.index.specs.Index.{column, items_of, block, rows, item_row, index_of, too_many};
ghost use Rattle.index.proofs.laws.Put.{Put};
ghost use Rattle.fills.specs.laws.Blank.{Blank};
ghost use Rattle.fills.specs.laws.Held.{PutHeld};
ghost use Rattle.fills.specs.laws.Walked.{There, IsThere, Ends, reached, is_first, line_of, four, Opens, Follows, RowTo, ClockMet, ClocksMet, EntryMet, HeadMet};

// Where the next member or item starts, 0 after the last one; and then where the object or the array ends.
#[derive(Clone, Copy)]
struct Next {
    start: usize,
    end: usize,
}

// The items of an array: how many they are, and where the array ends.
#[derive(Clone, Copy)]
struct Items {
    count: usize,
    end: usize,
}

// Where a reading ended.
fn end_of(scan: text::Scan) -> usize
    ensures { result ≡ reached scan }
{
    match scan {
        text::Scan::Done(j) => j,
        text::Scan::Bad(p) => p,
        text::Scan::Deep(p) => p,
    }
}

// Where the value at a position ends.
fn past(s: &[u8], p: usize) -> usize
    ensures { Ends s.now p result }
{
    end_of(grammar::value(s, p, 16))
}

// A value stands at a position other than 0. Where none does, no member is found.
fn is_there(s: &[u8], p: usize) -> bool
    ensures { IsThere s.now p result }
{
    if p == 0 {
        return false;
    }
    match grammar::value(s, p, 16) {
        text::Scan::Done(_) => true,
        text::Scan::Bad(_) => false,
        text::Scan::Deep(_) => false,
    }
}

// The first member or item of the value at a position, which may be no object or no array.
fn first_in(s: &[u8], p: usize, opening: u32, closing: u32) -> Next
    requires { (opening < 256) × (closing < 256) }
    ensures { Opens s.now p opening closing result }
{
    if text::byte(s, p) != opening {
        return Next {
            start: 0,
            end: past(s, p),
        };
    }
    let i = text::blank(s, p + 1);
    if text::byte(s, i) == closing {
        Next {
            start: 0,
            end: i + 1,
        }
    } else {
        Next { start: i, end: 0 }
    }
}

// What comes after the member or the item that ends at a position.
fn after(s: &[u8], e: usize) -> Next
    requires { skip s.now e < length s.now }
    ensures { Follows s.now e result }
{
    let f = text::blank(s, e);
    if text::byte(s, f) == 44 {
        Next {
            start: text::blank(s, f + 1),
            end: 0,
        }
    } else {
        Next {
            start: 0,
            end: f + 1,
        }
    }
}

// Where the value of the member whose name starts at a starts.
fn value_of(s: &[u8], a: usize) -> usize
    ensures { Gives (λ m n. result ≡ m.1) (member_place s.now a) }
{
    text::blank(s, end_of(grammar::name(s, a)))
}

// The member whose name starts at a is the first with a name: none was found before.
fn is_first(s: &[u8], a: usize, name: &[u8], found: usize) -> bool
    ensures { result ≡ is_first s.now a name.now found }
{
    if found == 0 {
        values::same_as(s, a, name)
    } else {
        false
    }
}

// Where the first member with a name has its value: where it was found; or at v, if the name that starts at a is the one.
fn noted(s: &[u8], a: usize, v: usize, name: &[u8], found: usize) -> usize
    ensures { result ≡ pick (is_first s.now a name.now found) v found }
{
    if is_first(s, a, name, found) {
        v
    } else {
        found
    }
}

// Where the members with three names of the object at p have their values, 0 for none; and where the object ends.
fn row_to(s: &[u8], p: usize, n0: &[u8], n1: &[u8], n2: &[u8]) -> [usize; 4]
    requires { There s.now p }
    ensures { RowTo s.now p n0.now n1.now n2.now result }
{
    let mut p0: usize = 0;
    let mut p1: usize = 0;
    let mut p2: usize = 0;
    let mut at = first_in(s, p, 123, 125);
    while at.start != 0 {
        let v = value_of(s, at.start);
        p0 = noted(s, at.start, v, n0, p0);
        p1 = noted(s, at.start, v, n1, p1);
        p2 = noted(s, at.start, v, n2, p2);
        at = after(s, past(s, v));
    }
    [p0, p1, p2, at.end]
}

// Which known member of `clocks` has the name that starts at a, if it is the first with it: 0 `clock`, 1 `machine`, 2 `sync_to`, 3 `offset_ns`; else 4.
fn clock_line(s: &[u8], a: usize, clock: usize, machine: usize, sync: usize, offset: usize) -> u8
    ensures { result ≡ line_of (is_first s.now a (bytes "clock") clock) (is_first s.now a (bytes "machine") machine) (is_first s.now a (bytes "sync_to") sync) (is_first s.now a (bytes "offset_ns") offset) }
{
    if is_first(s, a, b"clock", clock) {
        return 0;
    }
    if is_first(s, a, b"machine", machine) {
        return 1;
    }
    if is_first(s, a, b"sync_to", sync) {
        return 2;
    }
    if is_first(s, a, b"offset_ns", offset) {
        3
    } else {
        4
    }
}

// The `sync_to` at v and its members are noted in the entry's row; where it ends.
fn sync_met(s: &[u8], v: usize, row: &mut [usize; 13]) -> usize
    requires { There s.now v × (length row.old ≡ 13) }
    ensures { Ends s.now v result × (row.new ≡ four s.now row.old 7 v (bytes "file") (bytes "machine") (bytes "clock")) }
{
    let own = row_to(s, v, b"file", b"machine", b"clock");
    row[7] = v;
    row[8] = own[0];
    row[9] = own[1];
    row[10] = own[2];
    own[3]
}

// A member of an entry's `clocks` is noted in the entry's row, if it is known and the first with its name; where its value ends.
fn clock_met(s: &[u8], a: usize, v: usize, row: &mut [usize; 13]) -> usize
    requires { There s.now v × (length row.old ≡ 13) }
    ensures { Ends s.now v result × ClockMet s.now a v row.old row.new }
{
    match clock_line(s, a, row[5], row[6], row[7], row[11]) {
        0 => {
            row[5] = v;
            past(s, v)
        }
        1 => {
            row[6] = v;
            past(s, v)
        }
        2 => sync_met(s, v, row),
        3 => {
            row[11] = v;
            past(s, v)
        }
        _ => past(s, v),
    }
}

// The `clocks` at p are noted in their entry's row; where they end.
fn clocks_met(s: &[u8], p: usize, row: &mut [usize; 13]) -> usize
    requires { There s.now p × (length row.old ≡ 13) }
    ensures { Ends s.now p result × ClocksMet s.now p row.old row.new }
{
    row[4] = p;
    let mut at = first_in(s, p, 123, 125);
    while at.start != 0 {
        let v = value_of(s, at.start);
        let e = clock_met(s, at.start, v, row);
        at = after(s, e);
    }
    at.end
}

// The numbers of a row are put into the index, from a place on.
fn store(ix: &mut [usize; 2470], base: usize, row: &[usize])
    requires { (length ix.old ≡ 2470) × (base + length row.now ≤ 2470) }
    ensures { Put ix.old base row.now ix.new }
{
    let mut j: usize = 0;
    while j < row.len() {
        ix[base + j] = row[j];
        j += 1;
    }
}

// The numbers of an item are put into the index, if the index holds as many; where the item ends.
fn store_item(s: &[u8], p: usize, number: usize, base: usize, ix: &mut [usize; 2470]) -> usize
    requires { (length ix.old ≡ 2470) × (base + 64 ≤ 2470) × There s.now p }
    ensures { Ends s.now p result × PutHeld number ix.old (base + 2 * number) (item_row s.now p) ix.new }
{
    if number < 32 {
        let row = row_to(s, p, b"id", b"name", b"");
        let both = [row[0], row[1]];
        store(ix, base + 2 * number, &both);
        return row[3];
    }
    past(s, p)
}

// The numbers of an array's items are put into the index, as many as it holds, and all items are counted. Past them it has zeros already.
fn store_items(s: &[u8], p: usize, base: usize, ix: &mut [usize; 2470]) -> Items
    requires { (length ix.old ≡ 2470) × (base + 64 ≤ 2470) × There s.now p × Blank ix.old base }
    ensures { (result.count ≡ length (items_of s.now p)) × Ends s.now p result.end × Put ix.old base (rows (λ k. item_row s.now (get_or (items_of s.now p) k 0)) 32) ix.new }
{
    let mut k: usize = 0;
    let mut at = first_in(s, p, 91, 93);
    while at.start != 0 {
        let e = store_item(s, at.start, k, base, ix);
        k += 1;
        at = after(s, e);
    }
    Items {
        count: k,
        end: at.end,
    }
}

// Which known member of an entry has the name that starts at a, if it is the first with it: 0 `path`, 1 `machine`, 2 `machines`, 3 `clocks`; else 4.
fn entry_line(s: &[u8], a: usize, path: usize, machine: usize, machines: usize, clocks: usize) -> u8
    ensures { result ≡ line_of (is_first s.now a (bytes "path") path) (is_first s.now a (bytes "machine") machine) (is_first s.now a (bytes "machines") machines) (is_first s.now a (bytes "clocks") clocks) }
{
    if is_first(s, a, b"path", path) {
        return 0;
    }
    if is_first(s, a, b"machine", machine) {
        return 1;
    }
    if is_first(s, a, b"machines", machines) {
        return 2;
    }
    if is_first(s, a, b"clocks", clocks) {
        3
    } else {
        4
    }
}

// The `machine` at v and its name are noted in the entry's row; where it ends.
fn machine_met(s: &[u8], v: usize, row: &mut [usize; 13]) -> usize
    requires { There s.now v × (length row.old ≡ 13) }
    ensures { Ends s.now v result × (row.new ≡ set (set row.old 1 v) 2 (column s.now v (bytes "name"))) }
{
    let own = row_to(s, v, b"name", b"", b"");
    row[1] = v;
    row[2] = own[0];
    own[3]
}

// The `machines` at v are noted in the entry's row with how many they are, and their rows are put into the index; where they end.
fn machines_met(
    s: &[u8],
    v: usize,
    base: usize,
    row: &mut [usize; 13],
    ix: &mut [usize; 2470],
) -> usize
    requires { There s.now v × (length row.old ≡ 13) × (length ix.old ≡ 2470) × (base + 64 ≤ 2470) × Blank ix.old base }
    ensures { Ends s.now v result × (row.new ≡ set (set row.old 3 v) 12 (length (items_of s.now v))) × Put ix.old base (rows (λ k. item_row s.now (get_or (items_of s.now v) k 0)) 32) ix.new }
{
    let items = store_items(s, v, base, ix);
    row[3] = v;
    row[12] = items.count;
    items.end
}

// A member of an entry is noted in the entry's row, if it is known and the first with its name, and its items are put into the index; where its value ends.
fn entry_met(
    s: &[u8],
    a: usize,
    v: usize,
    base: usize,
    row: &mut [usize; 13],
    ix: &mut [usize; 2470],
) -> usize
    requires { There s.now v × (length row.old ≡ 13) × (length ix.old ≡ 2470) × (base + 77 ≤ 2470) × (get_or row.old 3 0 ≡ 0 → Blank ix.old (base + 13)) }
    ensures { Ends s.now v result × EntryMet s.now a v base row.old row.new ix.old ix.new }
{
    match entry_line(s, a, row[0], row[1], row[3], row[4]) {
        0 => {
            row[0] = v;
            past(s, v)
        }
        1 => machine_met(s, v, row),
        2 => machines_met(s, v, base + 13, row, ix),
        3 => clocks_met(s, v, row),
        _ => past(s, v),
    }
}

// An entry's numbers and those of its items are put into the index; where the entry ends.
fn store_entry(s: &[u8], p: usize, base: usize, ix: &mut [usize; 2470]) -> usize
    requires { (length ix.old ≡ 2470) × (base + 77 ≤ 2470) × There s.now p × Blank ix.old base }
    ensures { Ends s.now p result × Put ix.old base (block s.now p) ix.new }
{
    let mut row: [usize; 13] = [0; 13];
    let mut at = first_in(s, p, 123, 125);
    while at.start != 0 {
        let v = value_of(s, at.start);
        let e = entry_met(s, at.start, v, base, &mut row, ix);
        at = after(s, e);
    }
    store(ix, base, &row);
    at.end
}

// An entry is put into the index, if the index holds as many; where it ends.
fn store_held(s: &[u8], p: usize, i: usize, ix: &mut [usize; 2470]) -> usize
    requires { (length ix.old ≡ 2470) × There s.now p × (i < 32 → Blank ix.old (6 + 77 * i)) }
    ensures { Ends s.now p result × PutHeld i ix.old (6 + 77 * i) (block s.now p) ix.new }
{
    if i < 32 {
        return store_entry(s, p, 6 + 77 * i, ix);
    }
    past(s, p)
}

// The entries are put into the index, as many as it holds, and all are counted. Past them it has zeros already.
fn store_entries(s: &[u8], p: usize, ix: &mut [usize; 2470]) -> Items
    requires { (length ix.old ≡ 2470) × There s.now p × Blank ix.old 6 }
    ensures { (result.count ≡ length (items_of s.now p)) × Ends s.now p result.end × Put ix.old 6 (rows (λ i. block s.now (get_or (items_of s.now p) i 0)) 32) ix.new }
{
    let mut i: usize = 0;
    let mut at = first_in(s, p, 91, 93);
    while at.start != 0 {
        let e = store_held(s, at.start, i, ix);
        i += 1;
        at = after(s, e);
    }
    Items {
        count: i,
        end: at.end,
    }
}

// The `trace_time` at v and its members are noted in the row of the manifest object; where it ends.
fn trace_met(s: &[u8], v: usize, row: &mut [usize; 6]) -> usize
    requires { There s.now v × (length row.old ≡ 6) }
    ensures { Ends s.now v result × (row.new ≡ four s.now row.old 1 v (bytes "clock") (bytes "file") (bytes "machine")) }
{
    let own = row_to(s, v, b"clock", b"file", b"machine");
    row[1] = v;
    row[2] = own[0];
    row[3] = own[1];
    row[4] = own[2];
    own[3]
}

// The `files` at v are noted in the row of the manifest object with how many they are, and their blocks are put into the index; where they end.
fn files_met(s: &[u8], v: usize, row: &mut [usize; 6], ix: &mut [usize; 2470]) -> usize
    requires { There s.now v × (length row.old ≡ 6) × (length ix.old ≡ 2470) × Blank ix.old 6 }
    ensures { Ends s.now v result × (row.new ≡ set (set row.old 0 v) 5 (length (items_of s.now v))) × Put ix.old 6 (rows (λ k. block s.now (get_or (items_of s.now v) k 0)) 32) ix.new }
{
    let entries = store_entries(s, v, ix);
    row[0] = v;
    row[5] = entries.count;
    entries.end
}

// A member of the manifest object is noted in its row, if it is known and the first with its name, and its entries are put into the index; where its value ends.
fn head_met(s: &[u8], a: usize, v: usize, row: &mut [usize; 6], ix: &mut [usize; 2470]) -> usize
    requires { There s.now v × (length row.old ≡ 6) × (length ix.old ≡ 2470) × (get_or row.old 0 0 ≡ 0 → Blank ix.old 6) }
    ensures { Ends s.now v result × HeadMet s.now a v row.old row.new ix.old ix.new }
{
    if is_first(s, a, b"files", row[0]) {
        return files_met(s, v, row, ix);
    }
    if is_first(s, a, b"trace_time", row[1]) {
        return trace_met(s, v, row);
    }
    past(s, v)
}

// The numbers of the manifest object at a position and those of its entries are put into the index, which has zeros.
fn store_head(s: &[u8], p: usize, ix: &mut [usize; 2470])
    requires { There s.now p × (length ix.old ≡ 2470) × Blank ix.old 0 }
    ensures { ix.new ≡ index_of s.now p }
{
    let mut row: [usize; 6] = [0; 6];
    let mut at = first_in(s, p, 123, 125);
    while at.start != 0 {
        let v = value_of(s, at.start);
        let e = head_met(s, at.start, v, &mut row, ix);
        at = after(s, e);
    }
    store(ix, 0, &row);
}

// Some entry's `machines` has more than 32 items, or `files` has: then the index cannot hold them all. The counts stand in the index.
fn too_many(ix: &[usize; 2470]) -> bool
    ensures { (s : Text) (v : ℕ) → ix.now ≡ index_of s v → result ≡ too_many s v }
{
    let n = ix[5];
    if 32 < n {
        return true;
    }
    let mut i: usize = 0;
    while i < n {
        if 32 < ix[6 + (77 * i + 12)] {
            return true;
        }
        i += 1;
    }
    false
}

// The index of the manifest object at a position; and whether it has more entries or items than an index holds.
pub fn fill(s: &[u8], at: usize, ix: &mut [usize; 2470]) -> bool
    ensures { (result ≡ too_many s.now at) × (ix.new ≡ index_of s.now at) }
{
    let zeros: [usize; 2470] = [0; 2470];
    *ix = zeros;
    if is_there(s, at) {
        store_head(s, at, ix);
        return too_many(ix);
    }
    false
}
