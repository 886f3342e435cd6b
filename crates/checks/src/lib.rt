// Refusals 32 to 37 and the machines of the sources, over a table of what is known of files and sources.
#![tactic(auto)]

ghost use Rattle.std.specs.Prelude.{◌≡◌, ◌&&◌, ◌||◌, ◌<◌, ◌≤◌, eqb, leb, length};
ghost use Rattle.refusals.specs.Refusals.{refused};
ghost use Rattle.manifest.specs.Rows.{any};
ghost use Rattle.merged.specs.Machines.{sources_in, is_silent, by_id, machine_count};
ghost use Rattle.merged.specs.Refusals.{checks, first_of, listed_by, has_clocks, is_whole, is_pinned, refusal_32_path_not_in_sheet, refusal_33_clocks_on_a_container, refusal_34_id_not_declared, refusal_35_machine_on_several_sources, refusal_36_pinned_file_with_a_snapshot, refusal_37_too_many_machines};
ghost use Rattle.checks.specs.Table.{file_number, source_number, file_by, source_by, files_in, sources_held, facts_by};
ghost use Rattle.checks.specs.Machines.{machine_table};
ghost use Rattle.checks.specs.laws.Ids.{place_in, firsts};
ghost use Rattle.checks.specs.laws.Given.{machine_given};
ghost use Rattle.checks.specs.laws.Met.{Enrolled, machine_met};

use refusals::Refusal;

// A table holds so many files at most, and so many sources.
const MOST: u32 = 32;

// The numbers of a file, in their order. TIE and GIVEN are numbers that specs/Table.antt reads by `tie_of` and `given_of`.
pub const ENTRY: usize = 0;

pub const TIE: usize = 1;

pub const BASE: usize = 2;

pub const CONTAINER: usize = 3;

pub const CLAIM: usize = 4;

pub const RECORDED: usize = 5;

// The ties that are told apart. They and what is said of a source are numbers, no enums: the table holds numbers, which `facts_by` reads.
pub const TIED: u32 = 1;

pub const PINNED: u32 = 2;

// The numbers of a source, in their order.
pub const FILE: usize = 0;

pub const ID: usize = 1;

pub const GIVEN: usize = 2;

pub const MACHINE: usize = 3;

// What is said of a source's machine, where something is.
pub const WHOLE: u32 = 1;

pub const NAMED: u32 = 2;

pub const UNDECLARED: u32 = 3;

// How many files the table holds.
pub fn files(t: &[u32; 324]) -> usize
    ensures { result ≡ files_in t.now }
{
    MOST.min(t[0]) as usize
}

// How many sources the table holds.
pub fn sources(t: &[u32; 324]) -> usize
    ensures { result ≡ sources_held t.now }
{
    MOST.min(t[1]) as usize
}

// How many machines have a name.
fn names(t: &[u32; 324]) -> usize
    ensures { (result ≡ (facts_by t.now).names) × (result < 4294967296) }
{
    t[3] as usize
}

// A number of file f.
fn file_number(t: &[u32; 324], f: usize, which: usize) -> u32
    requires { (f < 32) × (which < 6) }
    ensures { result ≡ file_number t.now f which }
{
    t[4 + (6 * f + which)]
}

// A number of source j.
fn source_number(t: &[u32; 324], j: usize, which: usize) -> u32
    requires { (j < 32) × (which < 4) }
    ensures { result ≡ source_number t.now j which }
{
    t[196 + (4 * j + which)]
}

// How many of the sources belong to a file.
fn sources_in(t: &[u32; 324], file: u32) -> usize
    ensures { result ≡ sources_in file (facts_by t.now).sources }
{
    let mut count = 0;
    for j in 0..sources(t) {
        if source_number(t, j, FILE) == file {
            count += 1;
        }
    }
    count
}

// The file of source j has several sources.
fn has_several(t: &[u32; 324], j: usize) -> bool
    requires { j < 32 }
    ensures { result ≡ leb 2 (sources_in (source_by t.now j).file (facts_by t.now).sources) }
{
    2 <= sources_in(t, source_number(t, j, FILE))
}

// What is said of a source names a machine.
fn has_machine(said: u32) -> bool
    ensures { result ≡ (eqb said 1 || eqb said 2) }
{
    said == WHOLE || said == NAMED
}

// Nothing is said of source j's machine.
fn is_silent(t: &[u32; 324], j: usize) -> bool
    requires { j < 32 }
    ensures { result ≡ is_silent (source_by t.now j).given }
{
    let said = source_number(t, j, GIVEN);
    !has_machine(said) && said != UNDECLARED
}

// The machine of source j is that of its id: nothing is said of it, its file has several sources, and the id isn't 0.
fn by_id(t: &[u32; 324], j: usize) -> bool
    requires { j < 32 }
    ensures { result ≡ by_id (facts_by t.now) (source_by t.now j) }
{
    is_silent(t, j) && has_several(t, j) && source_number(t, j, ID) != 0
}

// The machine that is given for source j; where none is, the host.
fn given_machine(t: &[u32; 324], j: usize) -> usize
    requires { j < 32 }
    ensures { result ≡ machine_given (source_by t.now j).given }
{
    if has_machine(source_number(t, j, GIVEN)) {
        return source_number(t, j, MACHINE) as usize;
    }
    0
}

// The place of an id among the first n; n if it isn't there.
fn place_of(ids: &[u32; 32], n: usize, id: u32) -> usize
    requires { n ≤ 32 }
    ensures { result ≡ place_in n id (firsts ids.now n) }
{
    ids[..n].iter().position(|met| id == *met).unwrap_or(n)
}

// The id of source j is added to the first n unless it is there, if the source's machine is that of its id; how many there are then.
fn enrol(t: &[u32; 324], j: usize, ids: &mut [u32; 32], n: usize) -> usize
    requires { (j < 32) × (n < 32) × (length ids.old ≡ 32) }
    ensures { Enrolled (facts_by t.now) (source_by t.now j) ids.old n ids.new result }
{
    if !by_id(t, j) {
        return n;
    }
    let id = source_number(t, j, ID);
    if place_of(ids, n, id) < n {
        return n;
    }
    ids[n] = id;
    n + 1
}

// The machine of source j, if the ids up to its own are the first n.
fn machine_at(t: &[u32; 324], j: usize, ids: &[u32; 32], n: usize) -> usize
    requires { (j < 32) × (n ≤ 32) }
    ensures { result ≡ machine_met (facts_by t.now) (source_by t.now j) n (firsts ids.now n) }
{
    if !by_id(t, j) {
        return given_machine(t, j);
    }
    let place = place_of(ids, n, source_number(t, j, ID));
    1 + (names(t) + place)
}

// How many machines there are; and the machine of each source, then zeros.
pub fn machines(t: &[u32; 324], out: &mut [usize; 32]) -> usize
    ensures { (result ≡ machine_count (facts_by t.now)) × (out.new ≡ machine_table t.now) }
{
    *out = [0; 32];
    let mut ids = [0; 32];
    let mut n = 0;
    for j in 0..sources(t) {
        n = enrol(t, j, &mut ids, n);
        out[j] = machine_at(t, j, &ids, n);
    }
    1 + (names(t) + n)
}

// A file is the one that an entry lists.
fn any_listed(t: &[u32; 324], entry: u32) -> bool
    ensures { result ≡ any (listed_by entry) (facts_by t.now).files }
{
    (0..files(t)).any(
        |f|
            requires { f < 32 }
        { file_number(t, f, ENTRY) == entry },
    )
}

// There is a file, and an entry lists none of the files.
fn refusal_32_path_not_in_sheet(t: &[u32; 324]) -> bool
    ensures { result ≡ refusal_32_path_not_in_sheet.applies (facts_by t.now) }
{
    files(t) != 0 && (0..t[2]).any(|entry| !any_listed(t, entry))
}

// File f is a container, and has `clocks`.
fn clocks_on_container(t: &[u32; 324], f: usize) -> bool
    requires { f < 32 }
    ensures { result ≡ ((file_by t.now f).container && has_clocks (file_by t.now f).tie) }
{
    let tie = file_number(t, f, TIE);
    file_number(t, f, CONTAINER) != 0 && (tie == TIED || tie == PINNED)
}

// A container has `clocks`.
fn refusal_33_clocks_on_a_container(t: &[u32; 324]) -> bool
    ensures { result ≡ refusal_33_clocks_on_a_container.applies (facts_by t.now) }
{
    (0..files(t)).any(
        |f|
            requires { f < 32 }
        { clocks_on_container(t, f) },
    )
}

// A source's id isn't declared in its file's `machines`.
fn refusal_34_id_not_declared(t: &[u32; 324]) -> bool
    ensures { result ≡ refusal_34_id_not_declared.applies (facts_by t.now) }
{
    (0..sources(t)).any(
        |j|
            requires { j < 32 }
        { source_number(t, j, GIVEN) == UNDECLARED },
    )
}

// The file of source j has a `machine`, and several sources.
fn whole_of_several(t: &[u32; 324], j: usize) -> bool
    requires { j < 32 }
    ensures { result ≡ (is_whole (source_by t.now j).given && leb 2 (sources_in (source_by t.now j).file (facts_by t.now).sources)) }
{
    source_number(t, j, GIVEN) == WHOLE && has_several(t, j)
}

// A `machine` stands on a file with two or more sources.
fn refusal_35_machine_on_several_sources(t: &[u32; 324]) -> bool
    ensures { result ≡ refusal_35_machine_on_several_sources.applies (facts_by t.now) }
{
    (0..sources(t)).any(
        |j|
            requires { j < 32 }
        { whole_of_several(t, j) },
    )
}

// File f is pinned, and has a snapshot.
fn pinned_with_snapshot(t: &[u32; 324], f: usize) -> bool
    requires { f < 32 }
    ensures { result ≡ (is_pinned (file_by t.now f).tie && (file_by t.now f).recorded) }
{
    file_number(t, f, TIE) == PINNED && file_number(t, f, RECORDED) != 0
}

// A pinned file has a snapshot.
fn refusal_36_pinned_file_with_a_snapshot(t: &[u32; 324]) -> bool
    ensures { result ≡ refusal_36_pinned_file_with_a_snapshot.applies (facts_by t.now) }
{
    (0..files(t)).any(
        |f|
            requires { f < 32 }
        { pinned_with_snapshot(t, f) },
    )
}

// There are more than 32 machines.
fn refusal_37_too_many_machines(t: &[u32; 324]) -> bool
    ensures { result ≡ refusal_37_too_many_machines.applies (facts_by t.now) }
{
    32 < machines(t, &mut [0; 32])
}

// The first of 32 to 37 that applies.
pub fn refusal(t: &[u32; 324]) -> Result<(), Refusal>
    ensures { refused result ≡ first_of checks (facts_by t.now) }
{
    if refusal_32_path_not_in_sheet(t) {
        return Err(Refusal::PathNotInSheet);
    }
    if refusal_33_clocks_on_a_container(t) {
        return Err(Refusal::ClocksOnAContainer);
    }
    if refusal_34_id_not_declared(t) {
        return Err(Refusal::IdNotDeclared);
    }
    if refusal_35_machine_on_several_sources(t) {
        return Err(Refusal::MachineOnSeveralSources);
    }
    if refusal_36_pinned_file_with_a_snapshot(t) {
        return Err(Refusal::PinnedFileWithASnapshot);
    }
    if refusal_37_too_many_machines(t) {
        return Err(Refusal::TooManyMachines);
    }
    Ok(())
}
