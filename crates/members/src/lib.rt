// Refusals 8 and 9 over the text of a manifest object, before anything of it is kept: a known member twice in one object; a known member of a
// wrong JSON type, an item that is no object, or a required member absent. One recursive walk serves all seven known objects and both refusals.
#![tactic(auto)]

ghost use Rattle.std.specs.Prelude.{◌≡◌, false, ◌||◌, ◌<◌, eqb, length, get_or, set};
ghost use Rattle.text.specs.Reading.{pick};
ghost use Rattle.grammar.specs.Tree.{no_members};
ghost use Rattle.grammar.specs.Document.{many, member, value, most};
ghost use Rattle.values.specs.laws.Outs.{Gives};
ghost use Rattle.places.specs.Places.{inner};
ghost use Rattle.members.specs.Members.{member_refusal_at};
ghost use Rattle.members.specs.laws.Walked.{Reads, reached, ills, said_in, Over, Told, ItemsTold, MemberTold, MembersTold};
ghost use Rattle.table.specs.laws.Some.{some};

// The kinds by number: 0 text, 1 integer, 2 any value, 3 `sync_to`, 4 `clocks`, 5 an item of `machines`, 6 `machine`, 7 `machines`, 8 an entry, 9 `files`,
// 10 `trace_time`, 11 the manifest object.

// What a walk over a value finds: where it ends; a known member twice in one object; and if there is none, one of a wrong type or absent.
#[derive(Clone, Copy)]
struct Walk {
    end: usize,
    twice: bool,
    ill: bool,
}

// A member that was walked over: the line about it, and what was found in its value.
#[derive(Clone, Copy)]
struct Known {
    line: usize,
    walk: Walk,
}

// The kind of the items of an array of a kind.
fn item_kind(kind: u8) -> u8
    ensures { result ≡ pick (eqb kind 7) 5 8 }
{
    if kind == 7 { 5 } else { 8 }
}

// One or the other.
fn either(a: bool, b: bool) -> bool
    ensures { result ≡ (a || b) }
{
    if a { true } else { b }
}

// Where a reading ended.
fn end_of(scan: text::Scan) -> usize
    ensures { result ≡ reached scan }
{
    match scan {
        text::Scan::Done(j) => j,
        text::Scan::Bad(p) => p,
        text::Scan::Deep(p) => p,
    }
}

// A value that is not entered is passed over.
fn passed(s: &[u8], at: usize, ill: bool) -> Walk
    ensures { Gives (λ t n. Over result n false ill) (value most s.now at) }
{
    let end = end_of(grammar::value(s, at, 16));
    Walk {
        end: end,
        twice: false,
        ill: ill,
    }
}

// The member of a line was seen before; and now it is.
fn noted(seen: &mut [u8; 20], line: usize) -> bool
    requires { length seen.old ≡ 20 }
    ensures { (result ≡ eqb (get_or seen.old line 0) 1) × (seen.new ≡ set seen.old line 1) }
{
    if line < 20 {
        let before = seen[line];
        seen[line] = 1;
        return before == 1;
    }
    false
}

// A member that refusal 9 asks for in an object of a kind was not seen.
fn lacking(seen: &[u8; 20], object: u8) -> bool
    requires { object < 12 }
    ensures { result ≡ some (said_in ills object seen.now no_members) 20 }
{
    let past = table::first(object + 1);
    let mut line = table::first(object);
    while line < past {
        if table::asked(line) {
            if seen[line] != 1 {
                return true;
            }
        }
        line += 1;
    }
    false
}

// The value at a position, where one of a kind has to stand, is walked over. A member's and an item's kind have a smaller number than what they are in, so the walk ends.
#[cycle(items_walked_member_walked_members_walked_walked)]
fn walked(s: &[u8], at: usize, kind: u8) -> Walk
    requires { (kind < 12) × Reads (value most s.now at) }
    ensures { Gives (Told kind result) (value most s.now at) }
{
    if kind == 2 {
        return passed(s, at, false);
    }
    let tag = table::tag_at(s, at);
    if tag != table::wanted(kind) {
        return passed(s, at, true);
    }
    match tag {
        5 => items_walked(s, at + 1, item_kind(kind)),
        6 => members_walked(s, at + 1, kind),
        _ => passed(s, at, false),
    }
}

// The items of an array, of a kind, from behind its bracket.
#[cycle(items_walked_member_walked_members_walked_walked)]
fn items_walked(s: &[u8], at: usize, kind: u8) -> Walk
    requires { (kind < 12) × Reads (many (value inner) 93 s.now at) }
    ensures { Gives (ItemsTold kind result) (many (value inner) 93 s.now at) }
{
    let mut i = text::blank(s, at);
    if text::byte(s, i) == 93 {
        return Walk {
            end: i + 1,
            twice: false,
            ill: false,
        };
    }
    let mut twice = false;
    let mut ill = false;
    loop {
        let w = walked(s, i, kind);
        twice = either(twice, w.twice);
        ill = either(ill, w.ill);
        let after = text::blank(s, w.end);
        if text::byte(s, after) != 44 {
            return Walk {
                end: after + 1,
                twice: twice,
                ill: ill,
            };
        }
        i = text::blank(s, after + 1);
    }
}

// A member of an object of a kind, from its name on. The value of an unknown one may be any.
#[cycle(items_walked_member_walked_members_walked_walked)]
fn member_walked(s: &[u8], at: usize, object: u8) -> Known
    requires { (2 < object) × (object < 12) × Reads (member (value inner) s.now at) }
    ensures { Gives (MemberTold object result) (member (value inner) s.now at) }
{
    let line = table::line_of(s, at, object);
    let j = end_of(grammar::name(s, at));
    let w = walked(s, text::blank(s, j), table::value_kind(line));
    Known {
        line: line,
        walk: w,
    }
}

// The members of an object of a kind, from behind its brace.
#[cycle(items_walked_member_walked_members_walked_walked)]
fn members_walked(s: &[u8], at: usize, object: u8) -> Walk
    requires { (2 < object) × (object < 12) × Reads (many (member (value inner)) 125 s.now at) }
    ensures { Gives (MembersTold object result) (many (member (value inner)) 125 s.now at) }
{
    let mut i = text::blank(s, at);
    let mut seen: [u8; 20] = [0; 20];
    if text::byte(s, i) == 125 {
        return Walk {
            end: i + 1,
            twice: false,
            ill: lacking(&seen, object),
        };
    }
    let mut twice = false;
    let mut ill = false;
    loop {
        let m = member_walked(s, i, object);
        let w = m.walk;
        let again = noted(&mut seen, m.line);
        twice = either(twice, either(again, w.twice));
        ill = either(ill, w.ill);
        let e = text::blank(s, w.end);
        if text::byte(s, e) != 44 {
            return Walk {
                end: e + 1,
                twice: twice,
                ill: either(ill, lacking(&seen, object)),
            };
        }
        i = text::blank(s, e + 1);
    }
}

// Refusal 8 or 9 of the manifest object at a position; 0 if neither applies, and where no value stands.
pub fn judge(s: &[u8], at: usize) -> u8
    ensures { result ≡ member_refusal_at s.now at }
{
    match grammar::value(s, at, 16) {
        text::Scan::Done(_) => {
            let w = walked(s, at, 11);
            if w.twice {
                return 8;
            }
            if w.ill { 9 } else { 0 }
        }
        text::Scan::Bad(_) => 0,
        text::Scan::Deep(_) => 0,
    }
}
