// Refusals 10 to 13: sizes, clock names, machine with machines, empty names. Of paths and names it is told.
#![tactic(auto)]

ghost use Rattle.std.specs.Prelude.{◌≡◌, eqb};
ghost use Rattle.text.specs.Reading.{pick};
ghost use Rattle.manifest.specs.View.{one};
ghost use Rattle.manifest.specs.Rows.{holds};
ghost use Rattle.manifest.specs.Rules.{applies, first, no_clock, refusal_11_unknown_clock_name, refusal_12_machine_with_machines};
ghost use Rattle.index.specs.Index.{text_cell, entry_at, manifest_of};
ghost use Rattle.sizes.specs.Sizes.{sizes_rules};

// The position p of a value inside the value at another position; none, if there is nothing at that one.
fn inside(outer: usize, p: usize) -> usize
    ensures { result ≡ pick (eqb outer 0) 0 p }
{
    if outer == 0 { 0 } else { p }
}

// ---- 11: unknown clock name

// There is a text at p, and it is no clock's name.
fn unknown_clock(s: &[u8], p: usize) -> bool
    ensures { result ≡ holds no_clock (text_cell s.now p) }
{
    if p == 0 {
        return false;
    }
    let number = outline::domain(s, p);
    number == 0
}

// In `trace_time`.
fn refusal_11_outside(s: &[u8], ix: &[usize; 2470]) -> bool
    ensures { result ≡ refusal_11_unknown_clock_name.outside (manifest_of s.now ix.now) }
{
    let clock = inside(ix[1], ix[2]);
    unknown_clock(s, clock)
}

// In entry i.
fn refusal_11_within(s: &[u8], ix: &[usize; 2470], i: usize) -> bool
    ensures { result ≡ refusal_11_unknown_clock_name.within (manifest_of s.now ix.now) i (one (entry_at s.now ix.now i)) }
{
    let clocks = index::col(ix, i, 4);
    let sync = inside(clocks, index::col(ix, i, 7));
    let own_clock = inside(clocks, index::col(ix, i, 5));
    let clock = inside(sync, index::col(ix, i, 10));
    if unknown_clock(s, own_clock) {
        return true;
    }
    unknown_clock(s, clock)
}

fn refusal_11_unknown_clock_name(s: &[u8], ix: &[usize; 2470]) -> bool
    ensures { result ≡ applies refusal_11_unknown_clock_name (manifest_of s.now ix.now) }
{
    if refusal_11_outside(s, ix) {
        return true;
    }
    let n = index::entries(ix);
    let mut i: usize = 0;
    while i < n {
        if refusal_11_within(s, ix, i) {
            return true;
        }
        i += 1;
    }
    false
}

// ---- 12: `machine` with `machines`

// In entry i, whatever the text.
fn refusal_12_within(s: &[u8], ix: &[usize; 2470], i: usize) -> bool
    ensures { result ≡ refusal_12_machine_with_machines.within (manifest_of s.now ix.now) i (one (entry_at s.now ix.now i)) }
{
    let machine = index::col(ix, i, 1);
    if machine == 0 {
        return false;
    }
    let machines = index::col(ix, i, 3);
    machines != 0
}

fn refusal_12_machine_with_machines(s: &[u8], ix: &[usize; 2470]) -> bool
    ensures { result ≡ applies refusal_12_machine_with_machines (manifest_of s.now ix.now) }
{
    let n = index::entries(ix);
    let mut i: usize = 0;
    while i < n {
        if refusal_12_within(s, ix, i) {
            return true;
        }
        i += 1;
    }
    false
}

// The number of the first of these rules that applies to the manifest; 0 if none does. `broken` tells whether a path or a name is of a size that none has, `empty` whether a declared name is empty; an index holds no more entries and items than may be.
pub fn refusal(s: &[u8], ix: &[usize; 2470], broken: bool, empty: bool) -> u8
    ensures { result ≡ first (sizes_rules broken empty) (manifest_of s.now ix.now) }
{
    if broken {
        return 10;
    }
    if refusal_11_unknown_clock_name(s, ix) {
        return 11;
    }
    if refusal_12_machine_with_machines(s, ix) {
        return 12;
    }
    if empty { 13 } else { 0 }
}
