// The paths and the names of a manifest, each read once. Of paths: which entries are cited, their prints, whether a size is broken, and whether one stands twice. Of names: where each first
// stands, whether a size is broken, and whether one is empty.
#![tactic(auto)]

ghost use Rattle.std.specs.Prelude.{◌≡◌, true, not, ◌||◌, ◌&&◌, ◌+◌, ◌≤◌, ◌<◌, eqb, ltb, length, take, get_or, replicate};
ghost use Rattle.grammar.specs.Tree.{same};
ghost use Rattle.text.specs.Reading.{pick};
ghost use Rattle.manifest.specs.Rows.{holds, any, declared, cited_machines};
ghost use Rattle.manifest.specs.Rules.{applies, no_name, outside_of, is_empty, refusal_13_empty_machine_name};
ghost use Rattle.index.specs.Index.{entries_in, items_in, listed, text_at, text_cell, entry_at, manifest_of};
ghost use Rattle.prints.specs.Prints.{print_at, path_prints};
ghost use Rattle.index.specs.Cited.{entry_cited, cites_of, trace_cited};
ghost use Rattle.sizes.specs.Sizes.{broken_paths, broken_names};
ghost use Rattle.once.specs.Once.{path_twice};
ghost use Rattle.listed.specs.laws.Rules.{own_10, cited_10, paths_15};
ghost use Rattle.listed.specs.Settled.{settled_in, firsts_in, item_cell, entry_cells, cell_settled, cells_settled};
ghost use Rattle.listed.specs.laws.Parts.{size_broken, path_before, slot, Kept, Held, Measured, Agree, Read, Table, Placed, so_far, size_at, item_names};

use prints::Measure;

// What is known of the paths of a manifest: which entry each entry cites, and `trace_time`; the print of each entry's path; whether one is of a broken size; whether one stands in two entries.
#[derive(Clone, Copy)]
pub struct PathFacts {
    pub cites: [usize; 32],
    pub trace: usize,
    pub prints: [u32; 32],
    pub broken: bool,
    pub twice: bool,
}

// The paths of the manifest that an index stands for. Each is measured once; two are compared only where they have one print.
pub fn paths(s: &[u8], ix: &[usize; 2470]) -> PathFacts
    ensures cites { result.cites ≡ cites_of s.now ix.now }
    ensures trace { result.trace ≡ trace_cited s.now ix.now }
    ensures prints { result.prints ≡ path_prints s.now ix.now }
    ensures broken { result.broken ≡ broken_paths (manifest_of s.now ix.now) }
    ensures twice { result.twice ≡ path_twice (manifest_of s.now ix.now) }
{
    let mut texts: [u8; 8448] = [0; 8448];
    let own = read_paths(s, ix, &mut texts);
    let prints = own.prints;
    let lengths = own.lengths;
    let twice = path_twice(s, ix, &prints, &lengths, &texts);
    let cited = read_cited(s, ix, &prints, &lengths, &mut texts);
    let cites = cited.cites;
    let file = ix[3];
    let measure = measured(s, file, &mut texts, 32);
    let outside = size_broken(inside(ix[1], file), measure.length);
    let trace = cited_entry(s, ix, file, measure, &prints, &lengths, &texts);
    let within = either(own.broken, cited.broken);
    let broken = either(outside, within);
    PathFacts {
        cites,
        trace,
        prints,
        broken,
        twice,
    }
}

// ---- the prints and sizes, with one look at each path

// The position p of a value inside the value at another position; none, if there is nothing at that one.
fn inside(outer: usize, p: usize) -> usize
    ensures { result ≡ pick (eqb outer 0) 0 p }
{
    if outer == 0 { 0 } else { p }
}

// One of two tests holds.
fn either(a: bool, b: bool) -> bool
    ensures { result ≡ (a || b) }
{
    if a { true } else { b }
}

// There is a text at p, and its length is no path's: "Paths 1 to 255 bytes".
fn size_broken(p: usize, length: usize) -> bool
    ensures { result ≡ size_broken p length }
{
    if p == 0 {
        return false;
    }
    if length < 1 {
        return true;
    }
    255 < length
}

// The first bytes of a text are kept in a slot: slot i from byte 256 i on.
fn keep(texts: &mut [u8; 8448], slot: usize, text: &[u8; 256])
    requires { (slot ≤ 32) × (length texts.old ≡ 8448) × (length text.now ≡ 256) }
    ensures { Kept texts.old slot text.now texts.new }
{
    let base = 256 * slot;
    let mut k: usize = 0;
    while k < 256 {
        texts[base + k] = text[k];
        k += 1;
    }
}

// A slot is set to zeros.
fn clear(texts: &mut [u8; 8448], slot: usize)
    requires { (slot ≤ 32) × (length texts.old ≡ 8448) }
    ensures { Kept texts.old slot (replicate 256 0) texts.new }
{
    let base = 256 * slot;
    let mut k: usize = 0;
    while k < 256 {
        texts[base + k] = 0;
        k += 1;
    }
}

// The length and the print of the text at p, which is kept in a slot. Most entries of an index have no file, so where no string stands no text is read.
fn measured(s: &[u8], p: usize, texts: &mut [u8; 8448], slot: usize) -> Measure
    requires { (slot ≤ 32) × (length texts.old ≡ 8448) }
    ensures { Measured s.now p texts.old slot texts.new result.length result.print }
{
    if text::byte(s, p) != 34 {
        clear(texts, slot);
        return Measure {
            length: 0,
            print: 0,
        };
    }
    let mut text: [u8; 256] = [0; 256];
    let m = prints::measure_at(s, p, &mut text);
    keep(texts, slot, &text);
    m
}

// What is read of the paths of entries 0 to 31: their prints and lengths, and whether one is of a broken size.
#[derive(Clone, Copy)]
struct Own {
    prints: [u32; 32],
    lengths: [usize; 32],
    broken: bool,
}

// A size was broken so far, or it is in entry i: only the first n are entries.
fn broken_so_far(broken: bool, i: usize, n: usize, here: bool) -> bool
    ensures { result ≡ (broken || (ltb i n && here)) }
{
    if i < n {
        return either(broken, here);
    }
    broken
}

// Of the entries of an index. Each path is kept in the slot of its entry.
fn read_paths(s: &[u8], ix: &[usize; 2470], texts: &mut [u8; 8448]) -> Own
    requires { length texts.old ≡ 8448 }
    ensures { Read s.now ix.now result.prints result.lengths texts.new 32 × (result.broken ≡ applies own_10 (manifest_of s.now ix.now)) }
{
    let mut prints: [u32; 32] = [0; 32];
    let mut lengths: [usize; 32] = [0; 32];
    let n = index::entries(ix);
    let mut broken = false;
    let mut i: usize = 0;
    while i < 32 {
        let at = index::col(ix, i, 0);
        let m = measured(s, at, texts, i);
        prints[i] = m.print;
        lengths[i] = m.length;
        broken = broken_so_far(broken, i, n, size_broken(at, m.length));
        i += 1;
    }
    Own {
        prints,
        lengths,
        broken,
    }
}

// ---- which entries are cited

// What is read of the files that entries 0 to 31 cite: which entry each names, and whether one is of a broken size.
#[derive(Clone, Copy)]
struct Cites {
    cites: [usize; 32],
    broken: bool,
}

// For each entry, which entry the `file` of its `sync_to` names; 32 if it names none, and where there is no such `file`. It counts as broken only where it stands in a `sync_to` in
// `clocks`. Each is kept in the last slot while it is looked for.
fn read_cited(
    s: &[u8],
    ix: &[usize; 2470],
    prints: &[u32; 32],
    lengths: &[usize; 32],
    texts: &mut [u8; 8448],
) -> Cites
    requires { Read s.now ix.now prints.now lengths.now texts.old 32 }
    ensures { (result.cites ≡ cites_of s.now ix.now) × (result.broken ≡ applies cited_10 (manifest_of s.now ix.now)) × Read s.now ix.now prints.now lengths.now texts.new 32 }
{
    let mut cites: [usize; 32] = [32; 32];
    let n = index::entries(ix);
    let mut broken = false;
    let mut i: usize = 0;
    while i < 32 {
        let file = index::col(ix, i, 8);
        let m = measured(s, file, texts, 32);
        let sync = inside(index::col(ix, i, 4), index::col(ix, i, 7));
        let here = size_broken(inside(sync, file), m.length);
        broken = broken_so_far(broken, i, n, here);
        cites[i] = cited_entry(s, ix, file, m, prints, lengths, texts);
        i += 1;
    }
    Cites { cites, broken }
}

// Which entry the file at a position names, whose text is in the last slot; 32 if it names none, and for position 0. Only a path that has its print is compared with it.
fn cited_entry(
    s: &[u8],
    ix: &[usize; 2470],
    file: usize,
    m: Measure,
    prints: &[u32; 32],
    lengths: &[usize; 32],
    texts: &[u8; 8448],
) -> usize
    requires { Read s.now ix.now prints.now lengths.now texts.now 32 × Held s.now texts.now 32 file m.length × (m.print ≡ print_at s.now file) }
    ensures { result ≡ entry_cited s.now ix.now file }
{
    if file == 0 {
        return 32;
    }
    let n = index::entries(ix);
    let print = m.print;
    let length = m.length;
    let mut j: usize = 0;
    while j < n {
        if prints[j] == print {
            let at = index::col(ix, j, 0);
            if same_path(s, file, 32, length, at, j, lengths[j], texts) {
                return j;
            }
        }
        j += 1;
    }
    32
}

// A path stands at q, and it is the text at p: by their lengths and the slots a and b in which they are kept; by the texts if they are longer than a slot.
fn same_path(
    s: &[u8],
    p: usize,
    a: usize,
    length: usize,
    q: usize,
    b: usize,
    other: usize,
    texts: &[u8; 8448],
) -> bool
    requires { Held s.now texts.now a p length × Held s.now texts.now b q other }
    ensures { result ≡ holds (same (text_at s.now p)) (text_cell s.now q) }
{
    if q == 0 {
        return false;
    }
    if length != other {
        return false;
    }
    if 256 < length {
        return values::same_texts(s, q, p);
    }
    same_slots(texts, a, b, length)
}

// The first n bytes of two slots are the same.
fn same_slots(texts: &[u8; 8448], a: usize, b: usize, n: usize) -> bool
    requires { (length texts.now ≡ 8448) × (a ≤ 32) × (b ≤ 32) × (n ≤ 256) }
    ensures { result ≡ same (take n (slot texts.now a)) (take n (slot texts.now b)) }
{
    let i = 256 * a;
    let j = 256 * b;
    let mut k = same_blocks(texts, i, j, n);
    while k < n {
        if texts[i + k] != texts[j + k] {
            return false;
        }
        k += 1;
    }
    true
}

// How many of n bytes at two places are the same, by whole blocks.
fn same_blocks(texts: &[u8; 8448], i: usize, j: usize, n: usize) -> usize
    requires { (i + n ≤ 8448) × (j + n ≤ 8448) }
    ensures { (result ≤ n) × Agree texts.now i j result }
{
    let mut k: usize = 0;
    while 16 <= n - k {
        if !same_block(texts, i + k, j + k) {
            return k;
        }
        k += 16;
    }
    k
}

// The 16 bytes at two places are the same. All are counted, with no way out between, since that becomes a few instructions for the 16 together.
fn same_block(texts: &[u8; 8448], i: usize, j: usize) -> bool
    requires { (i + 16 ≤ 8448) × (j + 16 ≤ 8448) }
    ensures { result ≡ true → Agree texts.now i j 16 }
{
    let mut m: usize = 0;
    for q in 0..16 {
        m += same_one(texts[i + q], texts[j + q]);
    }
    m == 16
}

// 1 for two bytes that are the same, so that they can be counted without a branch.
fn same_one(a: u8, b: u8) -> usize
    ensures { (result ≤ 1) × (result ≡ 1 → a ≡ b) }
{
    if a == b { 1 } else { 0 }
}

// ---- a path in two entries

// An entry has the path of an entry before it.
fn path_twice(
    s: &[u8],
    ix: &[usize; 2470],
    prints: &[u32; 32],
    lengths: &[usize; 32],
    texts: &[u8; 8448],
) -> bool
    requires { Read s.now ix.now prints.now lengths.now texts.now 32 }
    ensures { result ≡ applies paths_15 (manifest_of s.now ix.now) }
{
    let n = index::entries(ix);
    let mut i: usize = 0;
    while i < n {
        if path_before(s, ix, i, prints, lengths, texts) {
            return true;
        }
        i += 1;
    }
    false
}

// The same for entry i. Only paths with one print are compared.
fn path_before(
    s: &[u8],
    ix: &[usize; 2470],
    i: usize,
    prints: &[u32; 32],
    lengths: &[usize; 32],
    texts: &[u8; 8448],
) -> bool
    requires { (i < entries_in ix.now) × Read s.now ix.now prints.now lengths.now texts.now 32 }
    ensures { result ≡ path_before s.now ix.now i }
{
    let p = index::col(ix, i, 0);
    if p == 0 {
        return false;
    }
    let print = prints[i];
    let length = lengths[i];
    let mut j: usize = 0;
    while j < i {
        if prints[j] == print {
            if same_path(s, p, i, length, index::col(ix, j, 0), j, lengths[j], texts) {
                return true;
            }
        }
        j += 1;
    }
    false
}

// ---- the names of machines

// What is known of the names of a manifest: the positions at which different ones first stand, as far as 32 go, then zeros; whether one is of a broken size; whether a declared one is empty.
#[derive(Clone, Copy)]
pub struct NameFacts {
    pub firsts: [usize; 32],
    pub broken: bool,
    pub empty: bool,
}

// Each name is read once, and where the index tells of a name, it is told by where its text first stands.
pub fn names(s: &[u8], ix: &mut [usize; 2470]) -> NameFacts
    ensures index { ix.new ≡ settled_in s.now ix.old }
    ensures firsts { result.firsts ≡ firsts_in s.now ix.old }
    ensures broken { result.broken ≡ broken_names (manifest_of s.now ix.old) }
    ensures empty { result.empty ≡ applies refusal_13_empty_machine_name (manifest_of s.now ix.old) }
{
    let mut firsts: [usize; 32] = [0; 32];
    let mut prints: [u32; 32] = [0; 32];
    let mut lengths: [usize; 32] = [0; 32];
    let mut texts: [u8; 8448] = [0; 8448];
    let outer = ix[1];
    let trace = settle(
        s,
        ix,
        4,
        &mut firsts,
        &mut prints,
        &mut lengths,
        &mut texts,
        0,
    );
    let mut broken = no_name(outer, trace.length);
    let mut empty = false;
    let mut held = trace.held;
    let n = index::entries(ix);
    let mut i: usize = 0;
    while i < n {
        let found = settle_entry(
            s,
            ix,
            i,
            &mut firsts,
            &mut prints,
            &mut lengths,
            &mut texts,
            held,
        );
        held = found.held;
        broken = either(broken, found.broken);
        empty = either(empty, found.empty);
        i += 1;
    }
    NameFacts {
        firsts,
        broken,
        empty,
    }
}

// What is found of names: how many places of the table are taken then, whether a size is broken, whether a declared name is empty.
#[derive(Clone, Copy)]
struct Found {
    held: usize,
    broken: bool,
    empty: bool,
}

// The names of entry i: of its `machine`, its `clocks`, its `sync_to`, and its items.
fn settle_entry(
    s: &[u8],
    ix: &mut [usize; 2470],
    i: usize,
    firsts: &mut [usize; 32],
    prints: &mut [u32; 32],
    lengths: &mut [usize; 32],
    texts: &mut [u8; 8448],
    n: usize,
) -> Found
    requires { (i < 32) × Table s.now firsts.old prints.old lengths.old texts.old n }
    ensures { Table s.now firsts.new prints.new lengths.new texts.new result.held × (so_far firsts.new result.held ix.new ≡ cells_settled s.now (entry_cells ix.old i) (so_far firsts.old n ix.old)) × (result.broken ≡ (any no_name (cited_machines (entry_at s.now ix.old i)) || any (outside_of 0 64) (declared (entry_at s.now ix.old i)))) × (result.empty ≡ any is_empty (declared (entry_at s.now ix.old i))) }
{
    let machine = index::col(ix, i, 1);
    let clocks = index::col(ix, i, 4);
    let sync = inside(clocks, index::col(ix, i, 7));
    let items = index::items(ix, i);
    let row = 77 * i;
    let name = settle(s, ix, 6 + (row + 2), firsts, prints, lengths, texts, n);
    let own = settle(
        s,
        ix,
        6 + (row + 6),
        firsts,
        prints,
        lengths,
        texts,
        name.held,
    );
    let other = settle(
        s,
        ix,
        6 + (row + 9),
        firsts,
        prints,
        lengths,
        texts,
        own.held,
    );
    let found = settle_items(s, ix, i, items, firsts, prints, lengths, texts, other.held);
    let cited = either(no_name(clocks, own.length), no_name(sync, other.length));
    let declared = either(long_name(machine, name.length), found.broken);
    let broken = either(cited, declared);
    let empty = either(empty_name(machine, name.length), found.empty);
    Found {
        held: found.held,
        broken,
        empty,
    }
}

// The names of the first items of entry i.
fn settle_items(
    s: &[u8],
    ix: &mut [usize; 2470],
    i: usize,
    items: usize,
    firsts: &mut [usize; 32],
    prints: &mut [u32; 32],
    lengths: &mut [usize; 32],
    texts: &mut [u8; 8448],
    n: usize,
) -> Found
    requires { (i < 32) × (items ≡ items_in ix.old i) × Table s.now firsts.old prints.old lengths.old texts.old n }
    ensures { Table s.now firsts.new prints.new lengths.new texts.new result.held × (so_far firsts.new result.held ix.new ≡ cells_settled s.now (listed (item_cell i) 0 items) (so_far firsts.old n ix.old)) × (result.broken ≡ any (outside_of 0 64) (item_names s.now ix.old i)) × (result.empty ≡ any is_empty (item_names s.now ix.old i)) }
{
    let mut held = n;
    let mut broken = false;
    let mut empty = false;
    let mut k: usize = 0;
    while k < items {
        let name = settle(
            s,
            ix,
            6 + (77 * i + (13 + (2 * k + 1))),
            firsts,
            prints,
            lengths,
            texts,
            held,
        );
        held = name.held;
        broken = either(broken, 64 < name.length);
        empty = either(empty, name.length == 0);
        k += 1;
    }
    Found {
        held,
        broken,
        empty,
    }
}

// A name of n bytes in a value that is there, and no machine's: "names 1 to 64 bytes".
fn no_name(outer: usize, length: usize) -> bool
    ensures { result ≡ (not (eqb outer 0) && (ltb length 1 || ltb 64 length)) }
{
    if outer == 0 {
        return false;
    }
    if length < 1 {
        return true;
    }
    64 < length
}

// A name in a value that is there is longer than a name may be.
fn long_name(outer: usize, length: usize) -> bool
    ensures { result ≡ (not (eqb outer 0) && ltb 64 length) }
{
    if outer == 0 { false } else { 64 < length }
}

// A name in a value that is there is empty.
fn empty_name(outer: usize, length: usize) -> bool
    ensures { result ≡ (not (eqb outer 0) && eqb length 0) }
{
    if outer == 0 { false } else { length == 0 }
}

// How many places of the table are taken, and the length of the name that was read; 1 where there was none, of which no rule speaks.
#[derive(Clone, Copy)]
struct Tally {
    held: usize,
    length: usize,
}

// The name that cell c of an index tells of is read, and the cell set to where its text first stands. One whose text the table does not have is added to it, while there is room.
fn settle(
    s: &[u8],
    ix: &mut [usize; 2470],
    c: usize,
    firsts: &mut [usize; 32],
    prints: &mut [u32; 32],
    lengths: &mut [usize; 32],
    texts: &mut [u8; 8448],
    n: usize,
) -> Tally
    requires { (c < 2470) × Table s.now firsts.old prints.old lengths.old texts.old n }
    ensures { Table s.now firsts.new prints.new lengths.new texts.new result.held × (so_far firsts.new result.held ix.new ≡ cell_settled s.now c (so_far firsts.old n ix.old)) × (result.length ≡ size_at s.now (get_or ix.old c 0)) }
{
    let p = ix[c];
    if p == 0 {
        return Tally { held: n, length: 1 };
    }
    let m = measured(s, p, texts, n);
    let print = m.print;
    let length = m.length;
    let k = place_of(s, p, m, firsts, prints, lengths, texts, n);
    if k < n {
        ix[c] = firsts[k];
        return Tally { held: n, length };
    }
    if 32 <= n {
        return Tally { held: n, length };
    }
    firsts[n] = p;
    prints[n] = print;
    lengths[n] = length;
    Tally {
        held: n + 1,
        length,
    }
}

// At which of the first n places of the table the text at p stands first, which is in slot n; n if at none. Only texts with one print are compared.
fn place_of(
    s: &[u8],
    p: usize,
    m: Measure,
    firsts: &[usize; 32],
    prints: &[u32; 32],
    lengths: &[usize; 32],
    texts: &[u8; 8448],
    n: usize,
) -> usize
    requires { Table s.now firsts.now prints.now lengths.now texts.now n × Held s.now texts.now n p m.length × (m.print ≡ print_at s.now p) }
    ensures { Placed s.now firsts.now n p result }
{
    let print = m.print;
    let length = m.length;
    let mut k: usize = 0;
    while k < n {
        if prints[k] == print {
            if same_path(s, p, n, length, firsts[k], k, lengths[k], texts) {
                return k;
            }
        }
        k += 1;
    }
    n
}
