// What a manifest means: what upper crates may ask of its tables, answered on every text and all tables.
#![tactic(auto)]

ghost use Rattle.std.specs.Prelude.{◌≡◌, List, ℕ, ◌<◌};
ghost use Rattle.index.specs.Index.{entries_in};
ghost use Rattle.named.specs.Named.{count_in};
ghost use Rattle.meant.specs.Meant.{base_of, owned_of, part_of, cited_name, cited_at, offset_at, related_to, link_of, tied_by, trace_machine_at, timeline_of};

use manifest::{Cited, Link, Relation, Timeline};
use numbers::Machine;

// The machine that an entry declares for its file: none, one for the whole file, or one for each id.
#[derive(Clone, Copy)]
pub enum Owned {
    Nobody,
    Whole(Machine),
    Split,
}

// The machine that a split file names for an id.
#[derive(Clone, Copy)]
pub enum Part {
    Undeclared,
    Of(Machine),
}

// How many entries there are.
pub fn count(ix: &[usize; 2470]) -> usize
    ensures { result ≡ entries_in ix.now }
{
    index::entries(ix)
}

// How many named machines there are; 32 also if there are more.
pub fn named(lookups: &[usize; 129]) -> usize
    ensures { result ≡ count_in lookups.now }
{
    named::count(lookups)
}

// The machine that entry i declares for its file.
pub fn owned_of(s: &[u8], ix: &[usize; 2470], lookups: &[usize; 129], i: usize) -> Owned
    ensures { result ≡ owned_of s.now ix.now lookups.now i }
{
    if index::col(ix, i, 3) != 0 {
        return Owned::Split;
    }
    if index::col(ix, i, 1) == 0 {
        return Owned::Nobody;
    }
    let machine = base(s, ix, lookups, i);
    Owned::Whole(machine)
}

// The machine that entry i names for an id.
pub fn part_of(s: &[u8], ix: &[usize; 2470], lookups: &[usize; 129], i: usize, id: u32) -> Part
    ensures { result ≡ part_of s.now ix.now lookups.now i id }
{
    let name = finds::name_for(s, ix, i, id);
    if name == 0 {
        return Part::Undeclared;
    }
    let machine = named::number_at(s, lookups, name);
    Part::Of(machine)
}

// The base machine of the file that entry i lists.
pub fn base(s: &[u8], ix: &[usize; 2470], lookups: &[usize; 129], i: usize) -> Machine
    ensures { result ≡ base_of s.now ix.now lookups.now i }
{
    let at = finds::base_at(s, ix, i);
    named::number_at(s, lookups, at)
}

// Where the name of a cited machine stands: that of the base machine of entry i's file, if it is not split, since no other can be cited for it, or if none is cited; else where it is cited.
fn machine_at(s: &[u8], ix: &[usize; 2470], i: usize, machine: usize) -> usize
    ensures { result ≡ cited_name s.now ix.now i machine }
{
    if index::col(ix, i, 3) == 0 {
        return finds::base_at(s, ix, i);
    }
    if machine == 0 {
        return finds::base_at(s, ix, i);
    }
    machine
}

// The clock of the file of entry i that a `clock` and a `machine` at two positions name; without a `clock` its private one.
fn cited_at(
    s: &[u8],
    ix: &[usize; 2470],
    lookups: &[usize; 129],
    i: usize,
    clock: usize,
    machine: usize,
) -> Cited
    requires { i < 32 }
    ensures { result ≡ cited_at s.now ix.now lookups.now i clock machine }
{
    if clock == 0 {
        return Cited::Private(i as u8);
    }
    let domain = outline::domain(s, clock);
    let name = machine_at(s, ix, i, machine);
    let whose = named::number_at(s, lookups, name);
    Cited::Domain(domain, whose)
}

// The offset at a position; 0 without one, and where 64 bits do not hold it.
fn offset_at(s: &[u8], p: usize) -> i64
    ensures { (ix lookups : List ℕ) → result ≡ offset_at s.now ix lookups p }
{
    if p == 0 {
        return 0;
    }
    match values::integer_at(s, p) {
        values::Integer::In(n) => n,
        values::Integer::Below => 0,
        values::Integer::Above => 0,
        values::Integer::None => 0,
    }
}

// How entry i relates its file to the file of entry e.
fn related_to(s: &[u8], ix: &[usize; 2470], lookups: &[usize; 129], i: usize, e: usize) -> Link
    requires { (i < 32) × (e < 32) }
    ensures { result ≡ related_to s.now ix.now lookups.now i e }
{
    let own_clock = index::col(ix, i, 5);
    let own_machine = index::col(ix, i, 6);
    let from = cited_at(s, ix, lookups, i, own_clock, own_machine);
    let its_clock = index::col(ix, i, 10);
    let its_machine = index::col(ix, i, 9);
    let to = cited_at(s, ix, lookups, e, its_clock, its_machine);
    let offset = offset_at(s, index::col(ix, i, 11));
    let relation = Relation {
        from: from,
        to: to,
        offset: offset,
    };
    Link::Related(relation)
}

// How entry i relates its file's clock.
pub fn link(s: &[u8], ix: &[usize; 2470], lookups: &[usize; 129], i: usize) -> Link
    ensures { result ≡ link_of s.now ix.now lookups.now i }
{
    if index::col(ix, i, 4) == 0 {
        return Link::Unrelated;
    }
    if index::col(ix, i, 7) == 0 {
        return Link::Unrelated;
    }
    let cited = lookups[64 + i];
    if cited == 0 {
        return Link::Unrelated;
    }
    if 32 < cited {
        return Link::Unrelated;
    }
    related_to(s, ix, lookups, i, cited - 1)
}

// How entry i ties its file's clocks: 0 not at all, 1 by a clock that it names, 2 by the private one.
pub fn tie(ix: &[usize; 2470], lookups: &[usize; 129], i: usize) -> u32
    ensures { result ≡ tied_by ix.now lookups.now i }
{
    if index::col(ix, i, 4) == 0 {
        return 0;
    }
    if index::col(ix, i, 7) == 0 {
        return 0;
    }
    let cited = lookups[64 + i];
    if cited == 0 {
        return 0;
    }
    if 32 < cited {
        return 0;
    }
    if index::col(ix, i, 5) == 0 { 2 } else { 1 }
}

// Where the name of trace time's machine stands; 0 for the host.
fn trace_machine_at(s: &[u8], ix: &[usize; 2470], lookups: &[usize; 129]) -> usize
    ensures { result ≡ trace_machine_at s.now ix.now lookups.now }
{
    let machine = ix[4];
    if machine != 0 {
        return machine;
    }
    let cited = lookups[128];
    if cited == 0 {
        return 0;
    }
    if 32 < cited {
        return 0;
    }
    finds::base_at(s, ix, cited - 1)
}

// What `trace_time` says.
pub fn timeline(s: &[u8], ix: &[usize; 2470], lookups: &[usize; 129]) -> Timeline
    ensures { result ≡ timeline_of s.now ix.now lookups.now }
{
    if ix[1] == 0 {
        return Timeline::Unset;
    }
    let domain = outline::domain(s, ix[2]);
    let at = trace_machine_at(s, ix, lookups);
    let whose = named::number_at(s, lookups, at);
    Timeline::Set(domain, whose)
}
