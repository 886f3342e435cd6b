// The survey of a manifest: refusals 1 to 9, 10 where the index cannot hold it, and the index.
#![tactic(auto)]

ghost use Rattle.std.specs.Prelude.{◌≡◌, true, false, ℕ, ◌+◌, ◌<◌, ◌≤◌, length, get_or, replicate};
ghost use Rattle.text.specs.Reading.{scan};
ghost use Rattle.text.specs.Strings.{string as stringOf};
ghost use Rattle.text.specs.declared.Scan.TheVariants.{Done};
ghost use Rattle.grammar.specs.Document.{name as name_of, value as value_of};
ghost use Rattle.table.specs.Table.{line_at, value_kind};
ghost use Rattle.outline.specs.Outline.{not_1_at};
ghost use Rattle.index.specs.Index.{index_of};
ghost use Rattle.index.proofs.laws.Put.{Put};
ghost use Rattle.survey.specs.Survey.{early_of, object_refusal, survey_of, surveyed};
ghost use Rattle.survey.specs.laws.Bare.{Bare};
ghost use Rattle.survey.specs.laws.Sole.{Closes};
ghost use Rattle.survey.specs.laws.Walked.{Fits, Entered, Noted, Complete, Row, Kept, RowAt, Clocks, Machines, EntryPuts, EntryHolds, Told, Files, ManifestPuts, ManifestHolds, Manifest, Holds, Puts, Clear};

// The kinds by number: 0 text, 1 integer, 2 any value, 3 `sync_to`, 4 `clocks`, 5 an item of `machines`, 6 `machine`, 7 `machines`, 8 an entry, 9 `files`,
// 10 `trace_time`, 11 the manifest object.

// A member that was walked over: the line about it, where its value stands, and where that ends; 0 if it is unclear.
#[derive(Clone, Copy)]
struct Step {
    line: usize,
    at: usize,
    end: usize,
}

// The value at a position, with at most so many levels. A string, a literal or a number is read without the walk that objects and arrays need.
fn read(s: &[u8], at: usize, levels: u8) -> text::Scan
    ensures { result ≡ scan (value_of levels s.now at) }
{
    match text::byte(s, at) {
        91 | 123 => grammar::value(s, at, levels),
        _ => grammar::scalar(s, at),
    }
}

// The value at a position ends here if it has the JSON type that a kind asks for and at most so many levels; 0 if it has not.
fn typed(s: &[u8], at: usize, kind: u8, levels: u8) -> usize
    requires { levels ≤ 15 }
    ensures { (result ≡ 0 → ⊥) → Fits kind levels s.now at result }
{
    match read(s, at, levels) {
        text::Scan::Done(end) => {
            if table::tag_at(s, at) == table::wanted(kind) {
                end
            } else {
                0
            }
        }
        text::Scan::Bad(_) => 0,
        text::Scan::Deep(_) => 0,
    }
}

// The same for a value of any type.
fn any(s: &[u8], at: usize, levels: u8) -> usize
    ensures { (result ≡ 0 → ⊥) → Fits 2 levels s.now at result }
{
    match read(s, at, levels) {
        text::Scan::Done(end) => end,
        text::Scan::Bad(_) => 0,
        text::Scan::Deep(_) => 0,
    }
}

// The string at a position ends here, if it has fewer than 16 characters and all are plain bytes; else 0. By a loop of its own, which costs such a string less than
// the blocks that longer ones are read by.
fn plain_end(s: &[u8], at: usize) -> usize
    ensures { (result ≡ 0 → ⊥) → scan (stringOf s.now at) ≡ Done result }
{
    if text::byte(s, at) != 34 {
        return 0;
    }
    let mut i = at + 1;
    let mut left: u8 = 16;
    while 0 < left {
        let b = text::byte(s, i);
        if b == 34 {
            return i + 1;
        }
        if b < 32 {
            return 0;
        }
        if 127 < b {
            return 0;
        }
        if b == 92 {
            return 0;
        }
        i += 1;
        left -= 1;
    }
    0
}

// The string at a position ends here; 0 if none stands there. Most are short and of plain bytes, so that is tried first.
fn string_end(s: &[u8], at: usize) -> usize
    ensures { (result ≡ 0 → ⊥) → scan (stringOf s.now at) ≡ Done result }
{
    let end = plain_end(s, at);
    if 0 < end {
        return end;
    }
    match text::string(s, at) {
        text::Scan::Done(j) => j,
        text::Scan::Bad(_) => 0,
        text::Scan::Deep(_) => 0,
    }
}

// The same, said of the string as a value, whatever the number of levels.
fn text_end(s: &[u8], at: usize) -> usize
    ensures { (result ≡ 0 → ⊥) → (l : ℕ) → Fits 0 l s.now at result }
{
    string_end(s, at)
}

// The same for each kind. Most values are texts, for which the string alone is read.
fn passed(s: &[u8], at: usize, kind: u8, levels: u8) -> usize
    requires { levels ≤ 15 }
    ensures { (result ≡ 0 → ⊥) → Fits kind levels s.now at result }
{
    if kind == 2 {
        return any(s, at, levels);
    }
    if kind == 0 {
        return text_end(s, at);
    }
    typed(s, at, kind, levels)
}

// Past the member's name at a position and its colon; 0 if they do not stand there.
fn name_end(s: &[u8], at: usize) -> usize
    ensures { (result ≡ 0 → ⊥) → scan (name_of s.now at) ≡ Done result }
{
    let end = string_end(s, at);
    if end == 0 {
        return 0;
    }
    let colon = text::blank(s, end);
    if text::byte(s, colon) == 58 {
        colon + 1
    } else {
        0
    }
}

// A member of an object of a kind, from its name on.
fn member(s: &[u8], at: usize, object: u8, levels: u8) -> Step
    requires { (object < 12) × (levels ≤ 15) }
    ensures { (result.end ≡ 0 → ⊥) → Entered object levels s.now at result.line result.at result.end }
{
    let j = name_end(s, at);
    if j == 0 {
        return Step {
            line: 20,
            at: 0,
            end: 0,
        };
    }
    let line = table::line_of(s, at, object);
    let v = text::blank(s, j);
    let end = passed(s, v, table::value_kind(line), levels);
    Step {
        line: line,
        at: v,
        end: end,
    }
}

// The place of a member's value is noted in its line's column, if that is free: the first number of a row is the object's end, then come the columns.
fn noted(found: &mut [usize; 5], object: u8, line: usize, at: usize) -> bool
    requires { (length found.old ≡ 5) × (object < 12) × (line < 20 → (line_at line).place ≡ object) }
    ensures { result ≡ true → Noted object line at found.old found.new }
{
    if line < 20 {
        let column = line - table::first(object) + 1;
        if found[column] != 0 {
            return false;
        }
        found[column] = at;
    }
    true
}

// A member that refusal 9 asks for in an object of a kind was not noted.
fn lacking(found: &[usize; 5], object: u8) -> bool
    requires { (length found.now ≡ 5) × (object < 12) }
    ensures { result ≡ false → Complete object found.now }
{
    let start = table::first(object);
    let past = table::first(object + 1);
    let mut line = start;
    while line < past {
        if table::asked(line) {
            if found[line - start + 1] == 0 {
                return true;
            }
        }
        line += 1;
    }
    false
}

// The object of a kind at a position, its members' values with at most so many levels: its end and where its known members have their values. The end is 0 if it
// is unclear: something that is not JSON, twice, of a wrong type or lacking, or no member at all.
fn row(s: &[u8], at: usize, object: u8, levels: u8) -> [usize; 5]
    requires { (object < 12) × (levels ≤ 15) }
    ensures { (get_or result 0 0 ≡ 0 → ⊥) → Row object levels s.now at result }
{
    let mut found: [usize; 5] = [0; 5];
    if text::byte(s, at) != 123 {
        return found;
    }
    let mut i = text::blank(s, at + 1);
    loop {
        let m = member(s, i, object, levels);
        if m.end == 0 || !noted(&mut found, object, m.line, m.at) {
            return [0, 0, 0, 0, 0];
        }
        let e = text::blank(s, m.end);
        let b = text::byte(s, e);
        if b == 125 {
            if lacking(&found, object) {
                return [0, 0, 0, 0, 0];
            }
            found[0] = e + 1;
            return found;
        }
        if b != 44 {
            return [0, 0, 0, 0, 0];
        }
        i = text::blank(s, e + 1);
    }
}

// The end of the array at a position, if nothing is in it; 0 if something is.
fn bare(s: &[u8], at: usize) -> usize
    ensures { (result ≡ 0 → ⊥) → Bare s.now at result }
{
    if text::byte(s, at) != 91 {
        return 0;
    }
    let i = text::blank(s, at + 1);
    if text::byte(s, i) == 93 { i + 1 } else { 0 }
}

// The row of the object of a kind at a position is kept; its end, 0 if something is unclear.
fn kept(s: &[u8], at: usize, object: u8, levels: u8, into: &mut [usize; 5]) -> usize
    requires { (object < 12) × (levels ≤ 15) }
    ensures { (result ≡ 0 → ⊥) → Kept object levels s.now at result into.new }
{
    let found = row(s, at, object, levels);
    *into = found;
    found[0]
}

// A member of `clocks`, from its name on. The row of `sync_to` is kept at once.
fn clocks_member(s: &[u8], at: usize, sync: &mut [usize; 5]) -> Step
    ensures { (result.end ≡ 0 → ⊥) → Entered 4 11 s.now at result.line result.at result.end × Puts (RowAt 3 10 s.now) 5 result.line result.at sync.old sync.new }
{
    let j = name_end(s, at);
    if j == 0 {
        return Step {
            line: 20,
            at: 0,
            end: 0,
        };
    }
    let line = table::line_of(s, at, 4);
    let v = text::blank(s, j);
    let end = if line == 5 {
        kept(s, v, 3, 10, sync)
    } else {
        passed(s, v, table::value_kind(line), 11)
    };
    Step {
        line: line,
        at: v,
        end: end,
    }
}

// The row of `clocks`, as `row` gives it; the row of its `sync_to` is kept.
fn clocks_row(s: &[u8], at: usize, sync: &mut [usize; 5]) -> [usize; 5]
    ensures { (get_or result 0 0 ≡ 0 → ⊥) → Row 4 11 s.now at result × Holds (RowAt 3 10 s.now) (get_or result 3 0) sync.old sync.new }
{
    let mut found: [usize; 5] = [0; 5];
    if text::byte(s, at) != 123 {
        return found;
    }
    let mut i = text::blank(s, at + 1);
    loop {
        let m = clocks_member(s, i, sync);
        if m.end == 0 || !noted(&mut found, 4, m.line, m.at) {
            return [0, 0, 0, 0, 0];
        }
        let e = text::blank(s, m.end);
        let b = text::byte(s, e);
        if b == 125 {
            if lacking(&found, 4) {
                return [0, 0, 0, 0, 0];
            }
            found[0] = e + 1;
            return found;
        }
        if b != 44 {
            return [0, 0, 0, 0, 0];
        }
        i = text::blank(s, e + 1);
    }
}

// The row of `clocks` at a position is kept, and behind it the columns of its `sync_to`, of which it has three; its end, 0 if something is unclear.
fn clocks_kept(s: &[u8], at: usize, into: &mut [usize; 8]) -> usize
    ensures { (result ≡ 0 → ⊥) → Clocks s.now at result into.new }
{
    let mut sync: [usize; 5] = [0; 5];
    let own = clocks_row(s, at, &mut sync);
    *into = [
        own[0], own[1], own[2], own[3], own[4], sync[1], sync[2], sync[3],
    ];
    own[0]
}

// The items of `machines`: their number and their columns are put into the index. The end is 0 if there are more than 32 or none, or something is unclear.
fn machines(s: &[u8], at: usize, base: usize, ix: &mut [usize; 2470]) -> usize
    requires { (at ≡ 0 → ⊥) × (length ix.old ≡ 2470) × (base + 65 ≤ 2470) }
    ensures { (result ≡ 0 → ⊥) → Machines s.now base at result ix.old ix.new }
{
    if text::byte(s, at) != 91 {
        return 0;
    }
    let mut i = text::blank(s, at + 1);
    let mut n: usize = 0;
    while n < 32 {
        let item = row(s, i, 5, 10);
        if item[0] == 0 {
            return 0;
        }
        ix[base + 1 + 2 * n] = item[1];
        ix[base + 1 + 2 * n + 1] = item[2];
        n += 1;
        let e = text::blank(s, item[0]);
        let b = text::byte(s, e);
        if b == 93 {
            ix[base] = n;
            return e + 1;
        }
        if b != 44 {
            return 0;
        }
        i = text::blank(s, e + 1);
    }
    0
}

// The same, and there may be no item: then nothing is put, for all is 0 there.
fn any_machines(s: &[u8], at: usize, base: usize, ix: &mut [usize; 2470]) -> usize
    requires { (at ≡ 0 → ⊥) × (length ix.old ≡ 2470) × (base + 65 ≤ 2470) }
    ensures { (result ≡ 0 → ⊥) → Machines s.now base at result ix.old ix.new }
{
    let end = bare(s, at);
    if end != 0 {
        return end;
    }
    machines(s, at, base, ix)
}

// The value of an entry's member, which a line is about: its end, 0 if it is unclear. Each is read once, so what the index has of an object is kept here.
fn entry_value(
    s: &[u8],
    at: usize,
    line: usize,
    base: usize,
    ix: &mut [usize; 2470],
    machine: &mut [usize; 5],
    clocks: &mut [usize; 8],
) -> usize
    requires { (at ≡ 0 → ⊥) × (length ix.old ≡ 2470) × (base + 77 ≤ 2470) }
    ensures { (result ≡ 0 → ⊥) → Fits (value_kind line) 12 s.now at result × EntryPuts s.now base line at ix.old ix.new machine.old machine.new clocks.old clocks.new }
{
    match line {
        11 => kept(s, at, 6, 11, machine),
        12 => any_machines(s, at, base + 12, ix),
        13 => clocks_kept(s, at, clocks),
        _ => passed(s, at, table::value_kind(line), 12),
    }
}

// A member of an entry, from its name on. The items of `machines` go into the index at once, and `machine` and `clocks` are kept.
fn entry_member(
    s: &[u8],
    at: usize,
    base: usize,
    ix: &mut [usize; 2470],
    machine: &mut [usize; 5],
    clocks: &mut [usize; 8],
) -> Step
    requires { (length ix.old ≡ 2470) × (base + 77 ≤ 2470) }
    ensures { (result.end ≡ 0 → ⊥) → Entered 8 12 s.now at result.line result.at result.end × EntryPuts s.now base result.line result.at ix.old ix.new machine.old machine.new clocks.old clocks.new }
{
    let j = name_end(s, at);
    if j == 0 {
        return Step {
            line: 20,
            at: 0,
            end: 0,
        };
    }
    let line = table::line_of(s, at, 8);
    let v = text::blank(s, j);
    let end = entry_value(s, v, line, base, ix, machine, clocks);
    Step {
        line: line,
        at: v,
        end: end,
    }
}

// The row of an entry, as `row` gives it; the items of its `machines` go into the index, and its `machine` and `clocks` are kept.
fn entry_row(
    s: &[u8],
    at: usize,
    base: usize,
    ix: &mut [usize; 2470],
    machine: &mut [usize; 5],
    clocks: &mut [usize; 8],
) -> [usize; 5]
    requires { (length ix.old ≡ 2470) × (base + 77 ≤ 2470) }
    ensures { (get_or result 0 0 ≡ 0 → ⊥) → Row 8 12 s.now at result × EntryHolds s.now base result ix.old ix.new machine.old machine.new clocks.old clocks.new }
{
    let mut found: [usize; 5] = [0; 5];
    if text::byte(s, at) != 123 {
        return found;
    }
    let mut i = text::blank(s, at + 1);
    loop {
        let m = entry_member(s, i, base, ix, machine, clocks);
        if m.end == 0 || !noted(&mut found, 8, m.line, m.at) {
            return [0, 0, 0, 0, 0];
        }
        let e = text::blank(s, m.end);
        let b = text::byte(s, e);
        if b == 125 {
            if lacking(&found, 8) {
                return [0, 0, 0, 0, 0];
            }
            found[0] = e + 1;
            return found;
        }
        if b != 44 {
            return [0, 0, 0, 0, 0];
        }
        i = text::blank(s, e + 1);
    }
}

// The numbers of a row are put into the index, from a place on.
fn store(ix: &mut [usize; 2470], base: usize, row: &[usize])
    requires { (length ix.old ≡ 2470) × (base + length row.now ≤ 2470) }
    ensures { Put ix.old base row.now ix.new }
{
    let mut j: usize = 0;
    while j < row.len() {
        ix[base + j] = row[j];
        j += 1;
    }
}

// An entry: its end, and its numbers are put into the index. The end is 0 if something is unclear.
fn entry(s: &[u8], at: usize, base: usize, ix: &mut [usize; 2470]) -> usize
    requires { (at ≡ 0 → ⊥) × (length ix.old ≡ 2470) × (base + 77 ≤ 2470) }
    ensures { (result ≡ 0 → ⊥) → Told s.now base at result ix.old ix.new }
{
    let mut machine: [usize; 5] = [0; 5];
    let mut clocks: [usize; 8] = [0; 8];
    let own = entry_row(s, at, base, ix, &mut machine, &mut clocks);
    if own[0] == 0 {
        return 0;
    }
    let row = [
        own[1], own[2], machine[1], own[3], own[4], clocks[1], clocks[2], clocks[3], clocks[5],
        clocks[6], clocks[7], clocks[4],
    ];
    store(ix, base, &row);
    own[0]
}

// The entries of `files`: their number and their blocks are put into the index. The end is 0 if there are more than 32 or none, or something is unclear.
fn files(s: &[u8], at: usize, ix: &mut [usize; 2470]) -> usize
    requires { (at ≡ 0 → ⊥) × (length ix.old ≡ 2470) }
    ensures { (result ≡ 0 → ⊥) → Files s.now at result ix.old ix.new }
{
    if text::byte(s, at) != 91 {
        return 0;
    }
    let mut i = text::blank(s, at + 1);
    let mut n: usize = 0;
    while n < 32 {
        let end = entry(s, i, 6 + 77 * n, ix);
        if end == 0 {
            return 0;
        }
        n += 1;
        let e = text::blank(s, end);
        let b = text::byte(s, e);
        if b == 93 {
            ix[5] = n;
            return e + 1;
        }
        if b != 44 {
            return 0;
        }
        i = text::blank(s, e + 1);
    }
    0
}

// The same, and there may be no entry: then nothing is put, for all is 0 there.
fn any_files(s: &[u8], at: usize, ix: &mut [usize; 2470]) -> usize
    requires { (at ≡ 0 → ⊥) × (length ix.old ≡ 2470) }
    ensures { (result ≡ 0 → ⊥) → Files s.now at result ix.old ix.new }
{
    let end = bare(s, at);
    if end != 0 {
        return end;
    }
    files(s, at, ix)
}

// The value at a position isn't the integer 1.
fn not_one(s: &[u8], at: usize) -> bool
    ensures { result ≡ not_1_at s.now at }
{
    match values::integer_at(s, at) {
        values::Integer::In(n) => n != 1,
        values::Integer::Below => true,
        values::Integer::Above => true,
        values::Integer::None => true,
    }
}

// The value of a member of the manifest object, which a line is about: its end, 0 if it is unclear. As in an entry each is read once.
fn manifest_value(
    s: &[u8],
    at: usize,
    line: usize,
    ix: &mut [usize; 2470],
    trace: &mut [usize; 5],
) -> usize
    requires { (at ≡ 0 → ⊥) × (length ix.old ≡ 2470) }
    ensures { (result ≡ 0 → ⊥) → Fits (value_kind line) 14 s.now at result × ManifestPuts s.now line at ix.old ix.new trace.old trace.new }
{
    match line {
        18 => kept(s, at, 10, 13, trace),
        19 => any_files(s, at, ix),
        _ => passed(s, at, table::value_kind(line), 14),
    }
}

// A member of the manifest object, from its name on. The entries of `files` go into the index at once, and `trace_time` is kept.
fn manifest_member(s: &[u8], at: usize, ix: &mut [usize; 2470], trace: &mut [usize; 5]) -> Step
    requires { length ix.old ≡ 2470 }
    ensures { (result.end ≡ 0 → ⊥) → Entered 11 14 s.now at result.line result.at result.end × ManifestPuts s.now result.line result.at ix.old ix.new trace.old trace.new }
{
    let j = name_end(s, at);
    if j == 0 {
        return Step {
            line: 20,
            at: 0,
            end: 0,
        };
    }
    let line = table::line_of(s, at, 11);
    let v = text::blank(s, j);
    let end = manifest_value(s, v, line, ix, trace);
    Step {
        line: line,
        at: v,
        end: end,
    }
}

// The row of the manifest object, as `row` gives it; the entries of its `files` go into the index, and its `trace_time` is kept.
fn manifest_row(s: &[u8], at: usize, ix: &mut [usize; 2470], trace: &mut [usize; 5]) -> [usize; 5]
    requires { length ix.old ≡ 2470 }
    ensures { (get_or result 0 0 ≡ 0 → ⊥) → Row 11 14 s.now at result × ManifestHolds s.now result ix.old ix.new trace.old trace.new }
{
    let mut found: [usize; 5] = [0; 5];
    if text::byte(s, at) != 123 {
        return found;
    }
    let mut i = text::blank(s, at + 1);
    loop {
        let m = manifest_member(s, i, ix, trace);
        if m.end == 0 || !noted(&mut found, 11, m.line, m.at) {
            return [0, 0, 0, 0, 0];
        }
        let e = text::blank(s, m.end);
        let b = text::byte(s, e);
        if b == 125 {
            if lacking(&found, 11) {
                return [0, 0, 0, 0, 0];
            }
            found[0] = e + 1;
            return found;
        }
        if b != 44 {
            return [0, 0, 0, 0, 0];
        }
        i = text::blank(s, e + 1);
    }
}

// The manifest object: its end, and its index, if the index has been all 0. The end is 0 if something is unclear.
fn manifest(s: &[u8], at: usize, ix: &mut [usize; 2470]) -> usize
    requires { (at ≡ 0 → ⊥) × (length ix.old ≡ 2470) }
    ensures { (result ≡ 0 → ⊥) → Manifest s.now at result ix.old ix.new }
{
    let mut trace: [usize; 5] = [0; 5];
    let own = manifest_row(s, at, ix, &mut trace);
    if own[0] == 0 || own[1] == 0 || not_one(s, own[1]) {
        return 0;
    }
    let row = [own[3], own[2], trace[1], trace[2], trace[3]];
    store(ix, 0, &row);
    own[0]
}

// All of the index is 0.
fn clear(ix: &mut [usize; 2470])
    ensures { ix.new ≡ replicate 2470 0 }
{
    let zeros: [usize; 2470] = [0; 2470];
    *ix = zeros;
}

// After the outermost object's first member, which ends at a position, the object ends, and the text with it.
fn closes(s: &[u8], past: usize) -> bool
    ensures { result ≡ true → Closes s.now past }
{
    let end = text::blank(s, past);
    if text::byte(s, end) != 125 {
        return false;
    }
    text::byte(s, text::blank(s, end + 1)) == 256
}

// One walk over the text: none of 1 to 10 refuses it, and this is its index. Most manifests are read but once so; whatever is unusual is left to `in_turn`.
fn walked(s: &[u8], ix: &mut [usize; 2470]) -> bool
    ensures { result ≡ true → Clear s.now ix.new }
{
    if 65536 < s.len() || !outline::opens(s) {
        return false;
    }
    let start = text::blank(s, 0);
    if text::byte(s, start) != 123 {
        return false;
    }
    let j = name_end(s, text::blank(s, start + 1));
    if j == 0 {
        return false;
    }
    clear(ix);
    let end = manifest(s, text::blank(s, j), ix);
    if end == 0 {
        return false;
    }
    closes(s, end)
}

// Refusals 1 to 4 of a text that has bytes; 0 if none applies. Between 3 and 4 the byte that comes first decides.
fn early(s: &[u8]) -> u8
    ensures { result ≡ early_of s.now }
{
    if s.len() > 65536 {
        return 1;
    }
    if !outline::opens(s) {
        return 2;
    }
    match grammar::document(s) {
        text::Scan::Done(_) => 0,
        text::Scan::Bad(_) => 3,
        text::Scan::Deep(_) => 4,
    }
}

// Refusals 6 to 10 of the manifest object, which stands at v; and its index, if none applies.
fn object(s: &[u8], v: usize, ix: &mut [usize; 2470]) -> u8
    ensures { (result ≡ object_refusal s.now v) × (result ≡ 0 → ix.new ≡ index_of s.now v) }
{
    let version = outline::versions(s, v);
    if version != 0 {
        return version;
    }
    let member = members::judge(s, v);
    if member != 0 {
        return member;
    }
    if fills::fill(s, v, ix) { 10 } else { 0 }
}

// Refusals 1 to 10 of a text that has bytes, each judged by itself; and its index, if none applies.
fn in_turn(s: &[u8], ix: &mut [usize; 2470]) -> u8
    requires { length s.now ≡ 0 → ⊥ }
    ensures { (result ≡ survey_of s.now) × (result ≡ 0 → ix.new ≡ surveyed s.now) }
{
    let refusal = early(s);
    if refusal != 0 {
        return refusal;
    }
    match outline::root(s) {
        outline::Standing::At(v) => object(s, v, ix),
        outline::Standing::Refused => 5,
    }
}

// The first of refusals 1 to 9 of a text, or 10 if the index cannot hold its entries or their items, or 0; and its index. A refusal leaves zeros, and so do no bytes.
pub fn survey(s: &[u8], ix: &mut [usize; 2470]) -> u8
    ensures { (result ≡ survey_of s.now) × (ix.new ≡ surveyed s.now) }
{
    if s.len() == 0 {
        clear(ix);
        return 0;
    }
    if walked(s, ix) {
        return 0;
    }
    let refusal = in_turn(s, ix);
    if refusal != 0 {
        clear(ix);
    }
    refusal
}
