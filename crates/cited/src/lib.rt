// Refusals 19 to 24: cited files and machines, offsets, and clocks related to themselves.
#![tactic(auto)]

ghost use Rattle.std.specs.Prelude.{◌≡◌, true, ◌<◌, eqb};
ghost use Rattle.text.specs.Reading.{Text, pick};
ghost use Rattle.grammar.specs.Tree.{same};
ghost use Rattle.manifest.specs.Rows.{holds, any, declared};
ghost use Rattle.manifest.specs.Rules.{refusal_13_empty_machine_name};
ghost use Rattle.manifest.specs.Rules.{applies, first, not_declared, no_integer, too_far, same_machine, same_clock};
ghost use Rattle.manifest.specs.Rules.{refusal_19_file_names_no_entry, refusal_20_no_machine_of_a_split_file, refusal_21_machine_not_declared};
ghost use Rattle.manifest.specs.Rules.{refusal_22_offset_not_an_integer, refusal_23_offset_out_of_range, refusal_24_clock_related_to_itself};
ghost use Rattle.index.specs.Index.{text_at, text_cell, offset_cell, entry_at, manifest_of, whose_at};
ghost use Rattle.prints.specs.Prints.{path_prints};
ghost use Rattle.index.specs.Cited.{cites_of, trace_cited};
ghost use Rattle.finds.specs.Finds.{base_at};
ghost use Rattle.sizes.specs.Sizes.{broken_paths, broken_names};
ghost use Rattle.listed.specs.Settled.{settled_in, firsts_in};
ghost use Rattle.once.specs.Once.{path_twice};
ghost use Rattle.cited.specs.Cited.{cited_rules};
ghost use Rattle.cited.specs.Itself.{own_clock, other_clock};
ghost use Rattle.cited.specs.laws.Within.{outside_of, within_at};
ghost use Rattle.cited.specs.laws.Declared.{machine_is};
ghost use Rattle.cited.specs.laws.Rule20.{split_at, ownless, unnamed};
ghost use Rattle.cited.specs.laws.Rule21.{strange_in};
ghost use Rattle.cited.specs.laws.Apart.{Apart, Among};
ghost use Rattle.cited.specs.laws.Clocks.{own_shared, other_shared};

use listed::{NameFacts, PathFacts};

// 19 in `trace_time`. (`trace` tells, here and below, which entry its `file` names.)
fn refusal_19_outside(s: &[u8], ix: &[usize; 2470], trace: usize) -> bool
    requires { trace ≡ trace_cited s.now ix.now }
    ensures { result ≡ outside_of refusal_19_file_names_no_entry s.now ix.now }
{
    if ix[1] == 0 {
        return false;
    }
    if ix[3] == 0 {
        return false;
    }
    let known = trace < 32;
    !known
}

// 19 in entry i. (`cites` tells, here and below, which entry the `file` of each entry's `sync_to` names: it is looked for once.)
fn refusal_19_in(s: &[u8], ix: &[usize; 2470], i: usize, cites: &[usize; 32]) -> bool
    requires { (i < 32) × (cites.now ≡ cites_of s.now ix.now) }
    ensures { result ≡ within_at refusal_19_file_names_no_entry s.now ix.now i }
{
    if index::col(ix, i, 4) == 0 {
        return false;
    }
    if index::col(ix, i, 7) == 0 {
        return false;
    }
    if index::col(ix, i, 8) == 0 {
        return false;
    }
    let known = cites[i] < 32;
    !known
}

// 19: a `file` in `sync_to` or `trace_time` names no entry.
fn refusal_19_file_names_no_entry(
    s: &[u8],
    ix: &[usize; 2470],
    cites: &[usize; 32],
    trace: usize,
) -> bool
    requires { (cites.now ≡ cites_of s.now ix.now) × (trace ≡ trace_cited s.now ix.now) }
    ensures { result ≡ applies refusal_19_file_names_no_entry (manifest_of s.now ix.now) }
{
    if refusal_19_outside(s, ix, trace) {
        return true;
    }
    let n = index::entries(ix);
    let mut i: usize = 0;
    while i < n {
        if refusal_19_in(s, ix, i, cites) {
            return true;
        }
        i += 1;
    }
    false
}

// Entry e is split; none from 32 on is.
fn is_split(ix: &[usize; 2470], e: usize) -> bool
    ensures { result ≡ split_at ix.now e }
{
    index::col(ix, e, 3) != 0
}

// Entry i is split, and its `clocks` names no machine.
fn is_ownless(ix: &[usize; 2470], i: usize) -> bool
    ensures { result ≡ ownless ix.now i }
{
    if is_split(ix, i) {
        return index::col(ix, i, 6) == 0;
    }
    false
}

// The `sync_to` of entry i names no machine, and a file that is split.
fn is_unnamed(s: &[u8], ix: &[usize; 2470], i: usize, cites: &[usize; 32]) -> bool
    requires { (i < 32) × (cites.now ≡ cites_of s.now ix.now) }
    ensures { result ≡ unnamed s.now ix.now i }
{
    if index::col(ix, i, 9) != 0 {
        return false;
    }
    let e = cites[i];
    is_split(ix, e)
}

// 20 in entry i.
fn refusal_20_in(s: &[u8], ix: &[usize; 2470], i: usize, cites: &[usize; 32]) -> bool
    requires { (i < 32) × (cites.now ≡ cites_of s.now ix.now) }
    ensures { result ≡ within_at refusal_20_no_machine_of_a_split_file s.now ix.now i }
{
    let clocks = index::col(ix, i, 4);
    if clocks == 0 {
        return false;
    }
    if is_ownless(ix, i) {
        return true;
    }
    if index::col(ix, i, 7) == 0 {
        return false;
    }
    is_unnamed(s, ix, i, cites)
}

// 20: no `machine` in the `clocks` of a split file, or in a `sync_to` that names one.
fn refusal_20_no_machine_of_a_split_file(s: &[u8], ix: &[usize; 2470], cites: &[usize; 32]) -> bool
    requires { cites.now ≡ cites_of s.now ix.now }
    ensures { result ≡ applies refusal_20_no_machine_of_a_split_file (manifest_of s.now ix.now) }
{
    let n = index::entries(ix);
    let mut i: usize = 0;
    while i < n {
        if refusal_20_in(s, ix, i, cites) {
            return true;
        }
        i += 1;
    }
    false
}

// The name at q is the one at p; no name stands at 0.
fn same_name(s: &[u8], p: usize, q: usize) -> bool
    ensures { result ≡ holds (same (text_at s.now p)) (text_cell s.now q) }
{
    if q == 0 {
        return false;
    }
    index::same_at(s, p, q)
}

// The name at p is that of the `machine` of entry e.
fn is_machine(s: &[u8], ix: &[usize; 2470], e: usize, p: usize) -> bool
    ensures { result ≡ machine_is s.now ix.now e (text_at s.now p) }
{
    if index::col(ix, e, 1) == 0 {
        return false;
    }
    let name = index::col(ix, e, 2);
    same_name(s, p, name)
}

// Entry e declares the name at p.
fn declares(s: &[u8], ix: &[usize; 2470], e: usize, p: usize) -> bool
    ensures { result ≡ any (same (text_at s.now p)) (declared (entry_at s.now ix.now e)) }
{
    if is_machine(s, ix, e, p) {
        return true;
    }
    let n = index::items(ix, e);
    let mut k: usize = 0;
    while k < n {
        let name = index::item(ix, e, k, 1);
        if same_name(s, p, name) {
            return true;
        }
        k += 1;
    }
    false
}

// The name at p is one that entry e declares, at the very same position. (Names that are the same stand at one place, if the index is settled: then no text is read)
fn stands_in(ix: &[usize; 2470], e: usize, p: usize) -> bool
    requires { p ≡ 0 → ⊥ }
    ensures { (s : Text) → result ≡ true → any (same (text_at s p)) (declared (entry_at s ix.now e)) ≡ true }
{
    if index::col(ix, e, 1) != 0 {
        if index::col(ix, e, 2) == p {
            return true;
        }
    }
    let n = index::items(ix, e);
    let mut k: usize = 0;
    while k < n {
        if index::item(ix, e, k, 1) == p {
            return true;
        }
        k += 1;
    }
    false
}

// A machine is named at p, and entry e does not declare it. Texts are compared only where no declared name stands at p itself.
fn is_undeclared(s: &[u8], ix: &[usize; 2470], e: usize, p: usize) -> bool
    ensures { result ≡ holds (not_declared (entry_at s.now ix.now e)) (text_cell s.now p) }
{
    if p == 0 {
        return false;
    }
    if stands_in(ix, e, p) {
        return false;
    }
    let declared = declares(s, ix, e, p);
    !declared
}

// There is an entry e, and a machine is named at q that it does not declare.
fn is_strange(s: &[u8], ix: &[usize; 2470], e: usize, q: usize) -> bool
    ensures { result ≡ strange_in s.now ix.now e q }
{
    if e < 32 {
        return is_undeclared(s, ix, e, q);
    }
    false
}

// 21 in `trace_time`.
fn refusal_21_outside(s: &[u8], ix: &[usize; 2470], trace: usize) -> bool
    requires { trace ≡ trace_cited s.now ix.now }
    ensures { result ≡ outside_of refusal_21_machine_not_declared s.now ix.now }
{
    if ix[1] == 0 {
        return false;
    }
    let machine = ix[4];
    is_strange(s, ix, trace, machine)
}

// 21 in entry i.
fn refusal_21_in(s: &[u8], ix: &[usize; 2470], i: usize, cites: &[usize; 32]) -> bool
    requires { (i < 32) × (cites.now ≡ cites_of s.now ix.now) }
    ensures { result ≡ within_at refusal_21_machine_not_declared s.now ix.now i }
{
    if index::col(ix, i, 4) == 0 {
        return false;
    }
    let own = index::col(ix, i, 6);
    if is_undeclared(s, ix, i, own) {
        return true;
    }
    if index::col(ix, i, 7) == 0 {
        return false;
    }
    let named = cites[i];
    let machine = index::col(ix, i, 9);
    is_strange(s, ix, named, machine)
}

// 21: a `machine` in `clocks`, `sync_to` or `trace_time` is not declared by that file.
fn refusal_21_machine_not_declared(
    s: &[u8],
    ix: &[usize; 2470],
    cites: &[usize; 32],
    trace: usize,
) -> bool
    requires { (cites.now ≡ cites_of s.now ix.now) × (trace ≡ trace_cited s.now ix.now) }
    ensures { result ≡ applies refusal_21_machine_not_declared (manifest_of s.now ix.now) }
{
    if refusal_21_outside(s, ix, trace) {
        return true;
    }
    let n = index::entries(ix);
    let mut i: usize = 0;
    while i < n {
        if refusal_21_in(s, ix, i, cites) {
            return true;
        }
        i += 1;
    }
    false
}

// A value stands at p that is no integer.
fn no_integer(s: &[u8], p: usize) -> bool
    ensures { result ≡ holds no_integer (offset_cell s.now p) }
{
    if p == 0 {
        return false;
    }
    match values::integer_at(s, p) {
        values::Integer::In(_) => false,
        values::Integer::Below => false,
        values::Integer::Above => false,
        values::Integer::None => true,
    }
}

// 22 in entry i.
fn refusal_22_in(s: &[u8], ix: &[usize; 2470], i: usize) -> bool
    ensures { result ≡ within_at refusal_22_offset_not_an_integer s.now ix.now i }
{
    if index::col(ix, i, 4) == 0 {
        return false;
    }
    let offset = index::col(ix, i, 11);
    no_integer(s, offset)
}

// 22: an `offset_ns` is not an integer.
fn refusal_22_offset_not_an_integer(s: &[u8], ix: &[usize; 2470]) -> bool
    ensures { result ≡ applies refusal_22_offset_not_an_integer (manifest_of s.now ix.now) }
{
    let n = index::entries(ix);
    let mut i: usize = 0;
    while i < n {
        if refusal_22_in(s, ix, i) {
            return true;
        }
        i += 1;
    }
    false
}

// An integer stands at p that is out of range: -2^63 is, though 64 bits hold it.
fn too_far(s: &[u8], p: usize) -> bool
    ensures { result ≡ holds too_far (offset_cell s.now p) }
{
    if p == 0 {
        return false;
    }
    match values::integer_at(s, p) {
        values::Integer::In(z) => z < -9223372036854775807,
        values::Integer::Below => true,
        values::Integer::Above => true,
        values::Integer::None => false,
    }
}

// 23 in entry i.
fn refusal_23_in(s: &[u8], ix: &[usize; 2470], i: usize) -> bool
    ensures { result ≡ within_at refusal_23_offset_out_of_range s.now ix.now i }
{
    if index::col(ix, i, 4) == 0 {
        return false;
    }
    let offset = index::col(ix, i, 11);
    too_far(s, offset)
}

// 23: an `offset_ns` is below -(2^63-1) or above 2^63-1.
fn refusal_23_offset_out_of_range(s: &[u8], ix: &[usize; 2470]) -> bool
    ensures { result ≡ applies refusal_23_offset_out_of_range (manifest_of s.now ix.now) }
{
    let n = index::entries(ix);
    let mut i: usize = 0;
    while i < n {
        if refusal_23_in(s, ix, i) {
            return true;
        }
        i += 1;
    }
    false
}

// The position p is among those of different names.
fn is_first(firsts: &[usize; 32], p: usize) -> bool
    ensures { result ≡ true → Among firsts.now p }
{
    // (a slice tells its length)
    let held: &[usize] = firsts;
    let mut k: usize = 0;
    while k < 32 {
        if held[k] == p {
            return true;
        }
        k += 1;
    }
    false
}

// The machines whose names stand at p and q are one. 0 stands for the host, which no name names. (`firsts` has, here and below, positions of different names: two of them need not be read.)
fn same_machine(s: &[u8], p: usize, q: usize, firsts: &[usize; 32]) -> bool
    requires { Apart s.now firsts.now }
    ensures { result ≡ same_machine (whose_at s.now p) (whose_at s.now q) }
{
    if p == 0 {
        return q == 0;
    }
    if q == 0 {
        return false;
    }
    if p == q {
        return true;
    }
    if is_first(firsts, p) {
        if is_first(firsts, q) {
            return false;
        }
    }
    index::same_at(s, p, q)
}

// Where the name of a cited machine stands, or else that of the base machine of entry i's file.
fn machine_or_base(s: &[u8], ix: &[usize; 2470], p: usize, i: usize) -> usize
    ensures { result ≡ pick (eqb p 0) (base_at s.now ix.now i) p }
{
    if p == 0 {
        return finds::base_at(s, ix, i);
    }
    p
}

// Entry i relates a named clock to a named clock for the file of entry e, and the two are one.
fn same_shared(s: &[u8], ix: &[usize; 2470], i: usize, e: usize, firsts: &[usize; 32]) -> bool
    requires { Apart s.now firsts.now }
    ensures { result ≡ same_clock (own_shared s.now ix.now i) (other_shared s.now ix.now i e) }
{
    let own_machine = machine_or_base(s, ix, index::col(ix, i, 6), i);
    let other_machine = machine_or_base(s, ix, index::col(ix, i, 9), e);
    if !same_machine(s, own_machine, other_machine, firsts) {
        return false;
    }
    let own = outline::domain(s, index::col(ix, i, 5));
    let other = outline::domain(s, index::col(ix, i, 10));
    own == other
}

// The clock that entry i relates is the one that it relates it to, for the file of entry e. Without a name it is the file's private clock.
fn same_clocks(s: &[u8], ix: &[usize; 2470], i: usize, e: usize, firsts: &[usize; 32]) -> bool
    requires { Apart s.now firsts.now }
    ensures { result ≡ same_clock (own_clock s.now ix.now i) (other_clock s.now ix.now i e) }
{
    let own = index::col(ix, i, 5);
    let other = index::col(ix, i, 10);
    if own == 0 {
        if other == 0 {
            return i == e;
        }
        return false;
    }
    if other == 0 {
        return false;
    }
    same_shared(s, ix, i, e, firsts)
}

// Entry i relates a clock to itself. Without `clocks`, `sync_to`, its `file`, or an entry of that path it relates none: the table of what each entry cites has 32 then.
fn itself_in(
    s: &[u8],
    ix: &[usize; 2470],
    i: usize,
    cites: &[usize; 32],
    firsts: &[usize; 32],
) -> bool
    requires { (i < 32) × (cites.now ≡ cites_of s.now ix.now) × Apart s.now firsts.now }
    ensures { result ≡ within_at refusal_24_clock_related_to_itself s.now ix.now i }
{
    if index::col(ix, i, 4) == 0 {
        return false;
    }
    if index::col(ix, i, 7) == 0 {
        return false;
    }
    let reference = cites[i];
    if reference < 32 {
        return same_clocks(s, ix, i, reference, firsts);
    }
    false
}

// 24: some entry relates a clock to itself.
fn refusal_24_clock_related_to_itself(
    s: &[u8],
    ix: &[usize; 2470],
    cites: &[usize; 32],
    firsts: &[usize; 32],
) -> bool
    requires { (cites.now ≡ cites_of s.now ix.now) × Apart s.now firsts.now }
    ensures { result ≡ applies refusal_24_clock_related_to_itself (manifest_of s.now ix.now) }
{
    let n = index::entries(ix);
    let mut i: usize = 0;
    while i < n {
        if itself_in(s, ix, i, cites, firsts) {
            return true;
        }
        i += 1;
    }
    false
}

// What is judged: the number of the first of these rules that applies, and what is known of the paths and the names, by which others are judged.
#[derive(Clone, Copy)]
pub struct Judged {
    pub refusal: u8,
    pub paths: PathFacts,
    pub names: NameFacts,
}

// The number of the first of these rules that applies to the manifest; 0 if none does.
fn first_rule(
    s: &[u8],
    ix: &[usize; 2470],
    cites: &[usize; 32],
    trace: usize,
    firsts: &[usize; 32],
) -> u8
    requires { (cites.now ≡ cites_of s.now ix.now) × (trace ≡ trace_cited s.now ix.now) × Apart s.now firsts.now }
    ensures { result ≡ first cited_rules (manifest_of s.now ix.now) }
{
    if refusal_19_file_names_no_entry(s, ix, cites, trace) {
        return 19;
    }
    if refusal_20_no_machine_of_a_split_file(s, ix, cites) {
        return 20;
    }
    if refusal_21_machine_not_declared(s, ix, cites, trace) {
        return 21;
    }
    if refusal_22_offset_not_an_integer(s, ix) {
        return 22;
    }
    if refusal_23_offset_out_of_range(s, ix) {
        return 23;
    }
    if refusal_24_clock_related_to_itself(s, ix, cites, firsts) {
        return 24;
    }
    0
}

// The same, with what is known of the paths and the names: they are read once, here. The index is settled first: then names that are the same stand at one place.
pub fn refusal(s: &[u8], ix: &mut [usize; 2470]) -> Judged
    ensures index { ix.new ≡ settled_in s.now ix.old }
    ensures refusal { result.refusal ≡ first cited_rules (manifest_of s.now ix.new) }
    ensures cites { result.paths.cites ≡ cites_of s.now ix.new }
    ensures trace { result.paths.trace ≡ trace_cited s.now ix.new }
    ensures prints { result.paths.prints ≡ path_prints s.now ix.new }
    ensures broken { result.paths.broken ≡ broken_paths (manifest_of s.now ix.new) }
    ensures twice { result.paths.twice ≡ path_twice (manifest_of s.now ix.new) }
    ensures names_broken { result.names.broken ≡ broken_names (manifest_of s.now ix.new) }
    ensures names_empty { result.names.empty ≡ applies refusal_13_empty_machine_name (manifest_of s.now ix.new) }
    ensures names_firsts { result.names.firsts ≡ firsts_in s.now ix.old }
{
    let names = listed::names(s, ix);
    let paths = listed::paths(s, ix);
    let cites = paths.cites;
    let firsts = names.firsts;
    let refusal = first_rule(s, ix, &cites, paths.trace, &firsts);
    Judged {
        refusal,
        paths,
        names,
    }
}
