// The members of the object at a position of a JSON text and the items of the array at a position, by their places. Each question is
// answered on every text, at every position.
#![tactic(auto)]

ghost use Rattle.std.specs.Prelude.{◌≡◌};
ghost use Rattle.places.specs.Places.{member_at, item_from, first_item, next_item, entry_from, first_member, next_member};
ghost use Rattle.places.specs.laws.Tally.{noted};

// How many members have a name, 0, 1 or 2 for more, and where the first one's value starts.
#[derive(Clone, Copy)]
pub struct Member {
    pub count: u8,
    pub at: usize,
}

// An item of an array: where its value starts and where it ends; or the end of the array.
#[derive(Clone, Copy)]
pub enum Step {
    Item(usize, usize),
    End,
}

// A member of an object: where its name starts, where its value starts and where that ends; or the end of the object.
#[derive(Clone, Copy)]
pub enum Entry {
    Named(usize, usize, usize),
    Last,
}

// The item whose value starts at a position.
fn item_from(s: &[u8], v: usize) -> Step
    ensures { result ≡ item_from s.now v }
{
    match grammar::value(s, v, 15) {
        text::Scan::Done(j) => Step::Item(v, j),
        text::Scan::Bad(_) => Step::End,
        text::Scan::Deep(_) => Step::End,
    }
}

// The member whose name starts at a position.
fn entry_from(s: &[u8], i: usize) -> Entry
    ensures { result ≡ entry_from s.now i }
{
    match grammar::name(s, i) {
        text::Scan::Done(j) => {
            match item_from(s, text::blank(s, j)) {
                Step::Item(v, e) => Entry::Named(i, v, e),
                Step::End => Entry::Last,
            }
        }
        text::Scan::Bad(_) => Entry::Last,
        text::Scan::Deep(_) => Entry::Last,
    }
}

// One value more, at v, if its name is the one that is looked for.
fn note(m: Member, hit: bool, v: usize) -> Member
    ensures { result ≡ noted m hit v }
{
    if hit {
        if m.count == 0 {
            Member { count: 1, at: v }
        } else {
            Member { count: 2, at: m.at }
        }
    } else {
        m
    }
}

// The members with a name of the object at a position, none where no object stands: one pass over the object.
pub fn member_at(s: &[u8], at: usize, name: &[u8]) -> Member
    ensures { result ≡ member_at s.now at name.now }
{
    let none = Member { count: 0, at: 0 };
    if text::byte(s, at) != 123 {
        return none;
    }
    let mut i = text::blank(s, at + 1);
    if text::byte(s, i) == 125 {
        return none;
    }
    let mut m = none;
    loop {
        match entry_from(s, i) {
            Entry::Named(a, v, e) => {
                m = note(m, values::same_as(s, a, name), v);
                let f = text::blank(s, e);
                let b = text::byte(s, f);
                if b == 125 {
                    return m;
                }
                if b != 44 {
                    return none;
                }
                i = text::blank(s, f + 1);
            }
            Entry::Last => return none,
        }
    }
}

// The first item of the array at a position.
pub fn first_item(s: &[u8], at: usize) -> Step
    ensures { result ≡ first_item s.now at }
{
    if text::byte(s, at) != 91 {
        return Step::End;
    }
    let v = text::blank(s, at + 1);
    if text::byte(s, v) == 93 {
        Step::End
    } else {
        item_from(s, v)
    }
}

// The item after the one that ends at a position.
pub fn next_item(s: &[u8], past: usize) -> Step
    ensures { result ≡ next_item s.now past }
{
    let f = text::blank(s, past);
    if text::byte(s, f) == 44 {
        item_from(s, text::blank(s, f + 1))
    } else {
        Step::End
    }
}

// The first member of the object at a position.
pub fn first_member(s: &[u8], at: usize) -> Entry
    ensures { result ≡ first_member s.now at }
{
    if text::byte(s, at) != 123 {
        return Entry::Last;
    }
    let a = text::blank(s, at + 1);
    if text::byte(s, a) == 125 {
        Entry::Last
    } else {
        entry_from(s, a)
    }
}

// The member after the one that ends at a position.
pub fn next_member(s: &[u8], past: usize) -> Entry
    ensures { result ≡ next_member s.now past }
{
    let g = text::blank(s, past);
    if text::byte(s, g) == 44 {
        entry_from(s, text::blank(s, g + 1))
    } else {
        Entry::Last
    }
}
