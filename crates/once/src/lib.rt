// Refusals 14 to 18: ids, what stands twice, and members that ask for others.
#![tactic(auto)]

ghost use Rattle.std.specs.Prelude.{◌≡◌, true, false, [], ◌∷◌, ◌≤◌, length};
ghost use Rattle.manifest.specs.Rows.{the, holds, any, ids};
ghost use Rattle.manifest.specs.Rules.{applies, first, no_id, same_id, twice_in, refusal_14_id_out_of_range, refusal_16_clocks_without_sync_to, refusal_17_machine_without_file, refusal_18_sync_to_without_file};
ghost use Rattle.index.specs.Index.{items_in, id_cell, entry_at, manifest_of};
ghost use Rattle.once.specs.Once.{twice_rule, once_rules};
ghost use Rattle.once.specs.laws.Parts.{in_entry, id_of, ids_in, Numbered};

// The number of the first of these rules that applies to the manifest; 0 if none does. `twice` tells whether a path stands in two entries.
pub fn refusal(s: &[u8], ix: &[usize; 2470], twice: bool) -> u8
    ensures { result ≡ first (once_rules twice) (manifest_of s.now ix.now) }
{
    let found = ids_judged(s, ix);
    if found.out {
        return 14;
    }
    if twice {
        return 15;
    }
    if found.twice {
        return 15;
    }
    if refusal_16_clocks_without_sync_to(s, ix) {
        return 16;
    }
    if refusal_17_machine_without_file(s, ix) {
        return 17;
    }
    if refusal_18_sync_to_without_file(s, ix) {
        return 18;
    }
    0
}

// ---- 14, and the ids of 15

// What is found of ids: one is out of range; one stands twice in an entry. Twice is looked for only where none is out of range.
#[derive(Clone, Copy)]
struct Found {
    out: bool,
    twice: bool,
}

// `id` integer outside 0 to 4294967295, in any entry; and an id twice in one `machines`.
fn ids_judged(s: &[u8], ix: &[usize; 2470]) -> Found
    ensures { (result.out ≡ applies refusal_14_id_out_of_range (manifest_of s.now ix.now)) × (result.out ≡ false → result.twice ≡ applies (twice_rule false) (manifest_of s.now ix.now)) }
{
    let n = index::entries(ix);
    let mut twice = false;
    let mut i: usize = 0;
    while i < n {
        let found = ids_in(s, ix, i);
        if found.out {
            return Found {
                out: true,
                twice: false,
            };
        }
        if found.twice {
            twice = true;
        }
        i += 1;
    }
    Found { out: false, twice }
}

// The same of entry i. Each id is read once, and they are compared as numbers of a table.
fn ids_in(s: &[u8], ix: &[usize; 2470], i: usize) -> Found
    ensures { (result.out ≡ in_entry refusal_14_id_out_of_range s.now ix.now i) × (result.out ≡ false → result.twice ≡ twice_in (ids (entry_at s.now ix.now i))) }
{
    let mut table: [u64; 32] = [0; 32];
    if read_ids(s, ix, i, &mut table) {
        return Found {
            out: true,
            twice: false,
        };
    }
    let n = index::items(ix, i);
    let twice = number_twice(&table, n);
    Found { out: false, twice }
}

// An id of entry i is out of range; else its ids are the first numbers of a table, as many as it has items.
fn read_ids(s: &[u8], ix: &[usize; 2470], i: usize, table: &mut [u64; 32]) -> bool
    requires { length table.old ≡ 32 }
    ensures { (result ≡ in_entry refusal_14_id_out_of_range s.now ix.now i) × (length table.new ≡ 32) × (result ≡ false → ids (entry_at s.now ix.now i) ≡ ids_in table.new (items_in ix.now i) 0) }
{
    let n = index::items(ix, i);
    let mut k: usize = 0;
    while k < n {
        let v = id_number(s, index::item(ix, i, k, 0));
        if 4294967296 < v {
            return true;
        }
        table[k] = v;
        k += 1;
    }
    false
}

// The id at a position as a number; 0 where there is none, and more than 4294967296 for one that is out of range.
fn id_number(s: &[u8], p: usize) -> u64
    ensures { Numbered (holds no_id (id_cell s.now p)) (the (id_cell s.now p)) result }
{
    if p == 0 {
        return 0;
    }
    match values::integer_at(s, p) {
        values::Integer::In(z) => number_of(z),
        values::Integer::Below => 4294967297,
        values::Integer::Above => 4294967297,
        values::Integer::None => 0,
    }
}

// One more than an id, since 0 stands for none; more than 4294967296 for an integer out of range.
fn number_of(z: i64) -> u64
    ensures { Numbered (no_id z) (z ∷ []) result }
{
    if z < 0 {
        return 4294967297;
    }
    if 4294967295 < z {
        return 4294967297;
    }
    z as u64 + 1
}

// Each of the first n numbers of a table is greater than the one before it, so no two are the same. Most ids are listed so.
fn rising(table: &[u64; 32], n: usize) -> bool
    requires { (length table.now ≡ 32) × (n ≤ 32) }
    ensures { result ≡ true → twice_in (ids_in table.now n 0) ≡ false }
{
    let mut k: usize = 1;
    while k < n {
        if table[k] <= table[k - 1] {
            return false;
        }
        k += 1;
    }
    true
}

// Two of the first n numbers of a table stand for one id.
fn number_twice(table: &[u64; 32], n: usize) -> bool
    requires { (length table.now ≡ 32) × (n ≤ 32) }
    ensures { result ≡ twice_in (ids_in table.now n 0) }
{
    if rising(table, n) {
        return false;
    }
    let mut k: usize = 0;
    while k < n {
        if number_among(table, n, table[k], k + 1) {
            return true;
        }
        k += 1;
    }
    false
}

// The number v stands for an id, and so does one of the first n numbers of a table, from a place on.
fn number_among(table: &[u64; 32], n: usize, v: u64, from: usize) -> bool
    requires { (length table.now ≡ 32) × (n ≤ 32) }
    ensures { result ≡ any (λ z. any (same_id z) (ids_in table.now n from)) (id_of v) }
{
    if v == 0 {
        return false;
    }
    let mut k = from;
    while k < n {
        if table[k] == v {
            return true;
        }
        k += 1;
    }
    false
}

// ---- 16

// `clocks` without `sync_to`.
fn refusal_16_clocks_without_sync_to(s: &[u8], ix: &[usize; 2470]) -> bool
    ensures { result ≡ applies refusal_16_clocks_without_sync_to (manifest_of s.now ix.now) }
{
    let n = index::entries(ix);
    let mut i: usize = 0;
    while i < n {
        if clocks_without_sync_to_in(s, ix, i) {
            return true;
        }
        i += 1;
    }
    false
}

// 16 in entry i.
fn clocks_without_sync_to_in(s: &[u8], ix: &[usize; 2470], i: usize) -> bool
    ensures { result ≡ in_entry refusal_16_clocks_without_sync_to s.now ix.now i }
{
    if index::col(ix, i, 4) == 0 {
        return false;
    }
    let sync_to = index::col(ix, i, 7);
    sync_to == 0
}

// ---- 17

// `machine` without `file` in `sync_to` or `trace_time`.
fn refusal_17_machine_without_file(s: &[u8], ix: &[usize; 2470]) -> bool
    ensures { result ≡ applies refusal_17_machine_without_file (manifest_of s.now ix.now) }
{
    if machine_without_file_in_trace_time(s, ix) {
        return true;
    }
    let n = index::entries(ix);
    let mut i: usize = 0;
    while i < n {
        if machine_without_file_in(s, ix, i) {
            return true;
        }
        i += 1;
    }
    false
}

// 17 in `trace_time`.
fn machine_without_file_in_trace_time(s: &[u8], ix: &[usize; 2470]) -> bool
    ensures { result ≡ refusal_17_machine_without_file.outside (manifest_of s.now ix.now) }
{
    if ix[1] == 0 {
        return false;
    }
    if ix[4] == 0 {
        return false;
    }
    ix[3] == 0
}

// 17 in entry i.
fn machine_without_file_in(s: &[u8], ix: &[usize; 2470], i: usize) -> bool
    ensures { result ≡ in_entry refusal_17_machine_without_file s.now ix.now i }
{
    if index::col(ix, i, 4) == 0 {
        return false;
    }
    if index::col(ix, i, 7) == 0 {
        return false;
    }
    if index::col(ix, i, 9) == 0 {
        return false;
    }
    index::col(ix, i, 8) == 0
}

// ---- 18

// `sync_to` without `file`.
fn refusal_18_sync_to_without_file(s: &[u8], ix: &[usize; 2470]) -> bool
    ensures { result ≡ applies refusal_18_sync_to_without_file (manifest_of s.now ix.now) }
{
    let n = index::entries(ix);
    let mut i: usize = 0;
    while i < n {
        if sync_to_without_file_in(s, ix, i) {
            return true;
        }
        i += 1;
    }
    false
}

// 18 in entry i.
fn sync_to_without_file_in(s: &[u8], ix: &[usize; 2470], i: usize) -> bool
    ensures { result ≡ in_entry refusal_18_sync_to_without_file s.now ix.now i }
{
    if index::col(ix, i, 4) == 0 {
        return false;
    }
    if index::col(ix, i, 7) == 0 {
        return false;
    }
    let file = index::col(ix, i, 8);
    file == 0
}
