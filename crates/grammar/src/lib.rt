// A whole JSON text: values with so many levels of objects and arrays, names of members, documents.
#![tactic(auto)]

ghost use Rattle.std.specs.Prelude.{◌≡◌};
ghost use Rattle.text.specs.Reading.{scan};
ghost use Rattle.grammar.specs.Document.{scalar as scalarOf, name as name_of, many, value as value_of, read};
ghost use Rattle.grammar.specs.Items.{item as item_of, closer};

use text::Scan;

// A reading as it is. It is made anew from its parts, since the compiler copies one that a call gave with all that lies between them.
fn told(r: Scan) -> Scan
    ensures { result ≡ r }
{
    match r {
        Scan::Done(j) => Scan::Done(j),
        Scan::Bad(p) => Scan::Bad(p),
        Scan::Deep(p) => Scan::Deep(p),
    }
}

// A string, a literal or a number, by its first byte.
pub fn scalar(s: &[u8], at: usize) -> Scan
    ensures { result ≡ scan (scalarOf s.now at) }
{
    let b = text::byte(s, at);
    if b == 34 {
        return told(text::string(s, at));
    }
    if b == 116 {
        return text::literal(s, at, b"true");
    }
    if b == 102 {
        return text::literal(s, at, b"false");
    }
    if b == 110 {
        return text::literal(s, at, b"null");
    }
    told(text::number(s, at))
}

// A member's name and its colon.
pub fn name(s: &[u8], at: usize) -> Scan
    ensures { result ≡ scan (name_of s.now at) }
{
    match text::string(s, at) {
        Scan::Done(j) => {
            let k = text::blank(s, j);
            if text::byte(s, k) == 58 {
                Scan::Done(k + 1)
            } else {
                Scan::Bad(k)
            }
        }
        Scan::Bad(p) => Scan::Bad(p),
        Scan::Deep(p) => Scan::Deep(p),
    }
}

// A value with at most so many levels of objects and arrays. The levels fall with each bracket and brace, so the stack is bounded by them.
#[cycle(held_item_items_value)]
pub fn value(s: &[u8], at: usize, levels: u8) -> Scan
    ensures { result ≡ scan (value_of levels s.now at) }
{
    let b = text::byte(s, at);
    match b {
        91 | 123 => {
            if levels == 0 {
                return Scan::Deep(at);
            }
            items(s, at + 1, levels - 1, b == 123)
        }
        _ => scalar(s, at),
    }
}

// A value within an object or an array. What is no object and no array is read here, since a call of `value` costs more.
#[cycle(held_item_items_value)]
fn held(s: &[u8], at: usize, levels: u8) -> Scan
    ensures { result ≡ scan (value_of levels s.now at) }
{
    match text::byte(s, at) {
        91 | 123 => value(s, at, levels),
        _ => scalar(s, at),
    }
}

// A member of an object, or an item of an array.
#[cycle(held_item_items_value)]
fn item(s: &[u8], at: usize, levels: u8, object: bool) -> Scan
    ensures { result ≡ scan (item_of object levels s.now at) }
{
    if object {
        match name(s, at) {
            Scan::Done(j) => held(s, text::blank(s, j), levels),
            Scan::Bad(p) => Scan::Bad(p),
            Scan::Deep(p) => Scan::Deep(p),
        }
    } else {
        held(s, at, levels)
    }
}

// The members of an object or the items of an array, and what closes them: one loop serves both, and costs no stack for each item.
#[cycle(held_item_items_value)]
fn items(s: &[u8], at: usize, levels: u8, object: bool) -> Scan
    ensures { result ≡ scan (many (item_of object levels) (closer object) s.now at) }
{
    let close: u32 = if object { 125 } else { 93 };
    let k = text::blank(s, at);
    if text::byte(s, k) == close {
        return Scan::Done(k + 1);
    }
    let mut i = k;
    loop {
        match item(s, i, levels, object) {
            Scan::Done(j) => {
                let e = text::blank(s, j);
                let b = text::byte(s, e);
                if b == close {
                    return Scan::Done(e + 1);
                }
                if b != 44 {
                    return Scan::Bad(e);
                }
                i = text::blank(s, e + 1);
            }
            Scan::Bad(p) => return Scan::Bad(p),
            Scan::Deep(p) => return Scan::Deep(p),
        }
    }
}

// A whole text: whitespace, a value with at most 16 levels, whitespace, and nothing more.
pub fn document(s: &[u8]) -> Scan
    ensures { result ≡ scan (read s.now) }
{
    match value(s, text::blank(s, 0), 16) {
        Scan::Done(j) => {
            let end = text::blank(s, j);
            if text::byte(s, end) == 256 {
                Scan::Done(end)
            } else {
                Scan::Bad(end)
            }
        }
        Scan::Bad(p) => Scan::Bad(p),
        Scan::Deep(p) => Scan::Deep(p),
    }
}
