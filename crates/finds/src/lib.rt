// What is found in an index: the name for an id, the name of a file's base machine; and a table of what is looked up often.
#![tactic(auto)]

ghost use Rattle.std.specs.Prelude.{◌≡◌, [], ◌∷◌, ◌++◌, map, ◌≤◌, ◌<◌, pos, length, get_or};
ghost use Rattle.manifest.specs.Rows.{holds};
ghost use Rattle.manifest.specs.Rules.{same_id};
ghost use Rattle.index.specs.Index.{id_cell};
ghost use Rattle.named.specs.Named.{name_table, print_table};
ghost use Rattle.finds.specs.Finds.{from_one, of_entries, name_for, base_at};

// Fills the table of what is looked up often: the names of machines, their prints, and, as they are given, which entry each entry cites, the prints of the entries' paths and which
// entry `trace_time` cites.
pub fn fill(
    s: &[u8],
    ix: &[usize; 2470],
    cites: &[usize; 32],
    prints: &[u32; 32],
    trace: usize,
    table: &mut [usize; 129],
)
    ensures { table.new ≡ name_table s.now ix.now ++ (print_table s.now ix.now ++ (map from_one cites.now ++ (of_entries ix.now prints.now ++ (from_one trace ∷ [])))) }
{
    let zeros: [usize; 129] = [0; 129];
    *table = zeros;
    table[128] = from_one(trace);
    let names = named::fill(s, ix);
    let positions = names.positions;
    let name_prints = names.prints;
    let n = index::entries(ix);
    // (a slice tells its length)
    let entries: &[usize] = cites;
    let mut i: usize = 0;
    while i < 32 {
        table[i] = positions[i];
        table[32 + i] = wide(name_prints[i]);
        table[64 + i] = from_one(entries[i]);
        table[96 + i] = path_print(prints, n, i);
        i += 1;
    }
}

// The print of entry i's path as a number of the table; 0 from n on, where there are no entries.
fn path_print(prints: &[u32; 32], n: usize, i: usize) -> usize
    requires { i < 32 }
    ensures { (i < n → result ≡ get_or prints.now i 0) × (n ≤ i → result ≡ 0) }
{
    if i < n { wide(prints[i]) } else { 0 }
}

// A print as a number of the table.
fn wide(print: u32) -> usize
    ensures { result ≡ print }
{
    print as usize
}

// The number of a cited entry from 1 on; 0 for none.
fn from_one(e: usize) -> usize
    ensures { result ≡ from_one e }
{
    if e < 32 { e + 1 } else { 0 }
}

// The integer at p is the id. Where none stands, or p is 0, it is not.
fn is_id(s: &[u8], p: usize, id: u32) -> bool
    ensures { result ≡ holds (same_id (pos id)) (id_cell s.now p) }
{
    if p == 0 {
        return false;
    }
    match values::integer_at(s, p) {
        values::Integer::In(z) => z == id as i64,
        values::Integer::Below => false,
        values::Integer::Above => false,
        values::Integer::None => false,
    }
}

// Where entry i has the name for an id; 0 if it has none.
pub fn name_for(s: &[u8], ix: &[usize; 2470], i: usize, id: u32) -> usize
    ensures { result ≡ name_for s.now ix.now i id }
{
    let n = index::items(ix, i);
    let mut k: usize = 0;
    while k < n {
        let p = index::item(ix, i, k, 0);
        if is_id(s, p, id) {
            return index::item(ix, i, k, 1);
        }
        k += 1;
    }
    0
}

// Where the name of the base machine of entry i's file stands; 0 for the host.
pub fn base_at(s: &[u8], ix: &[usize; 2470], i: usize) -> usize
    ensures { result ≡ base_at s.now ix.now i }
{
    if index::col(ix, i, 1) != 0 {
        let name = index::col(ix, i, 2);
        if name != 0 {
            return name;
        }
    }
    name_for(s, ix, i, 0)
}
