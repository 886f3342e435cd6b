// The table of known members as code holds it: a line for each, with its name, the kind of its value and whether refusal 9 asks for it; and the JSON type of a value.
#![tactic(auto)]

ghost use Rattle.std.specs.Prelude.{◌≡◌, ◌+◌, ◌<◌, eqb};
ghost use Rattle.text.specs.Reading.{pick, peek};
ghost use Rattle.manifest.specs.Names.{bytes};
ghost use Rattle.values.specs.Strings.{rest, ends_in};
ghost use Rattle.values.specs.Integer.{integer_at};
ghost use Rattle.table.specs.Table.{line_at, wanted_of, value_kind, first_line, LineAt, tag_of_number, tag_at};
ghost use Rattle.table.specs.laws.Heads.{Heads};
ghost use Rattle.table.specs.laws.Names.{name_at, Named};
ghost use Rattle.table.specs.laws.Looking.{LineOf};

// The kinds by number: 0 text, 1 integer, 2 any value, 3 `sync_to`, 4 `clocks`, 5 an item of `machines`, 6 `machine`, 7 `machines`, 8 an entry, 9 `files`,
// 10 `trace_time`, 11 the manifest object. The table of known members has a line for each, those of one object together: the kind of its value.
const KIND: [u8; 20] =
    *b"\x00\x00\x00\x00\x00\x03\x02\x01\x00\x00\x00\x06\x07\x04\x00\x00\x00\x02\x0a\x09";

// 1 if refusal 9 asks for it.
const ASKED: [u8; 20] =
    *b"\x00\x00\x00\x00\x00\x00\x00\x01\x01\x01\x01\x00\x00\x00\x01\x00\x00\x00\x00\x00";

// The names by number: 0 `file`, 1 `files`, 2 `machine`, 3 `machines`, 4 `clock`, 5 `clocks`, 6 `sync_to`, 7 `offset_ns`, 8 `id`, 9 `name`, 10 `path`, 11 `version`,
// 12 `trace_time`. That of each line.
const NAME: [u8; 20] =
    *b"\x00\x02\x04\x04\x02\x06\x07\x08\x09\x09\x0a\x02\x03\x05\x04\x00\x02\x0b\x0c\x01";

// The first line about an object of a kind; its lines end where those of the next kind start.
const FIRST: [u8; 13] = *b"\x00\x00\x00\x00\x03\x07\x09\x0a\x0a\x0e\x0e\x11\x14";

// A number of 8 bits as a place in a table.
fn wide(x: u8) -> usize
    ensures { result ≡ x }
{
    x as usize
}

// A number of 8 bits as a code point.
fn point(x: u8) -> u32
    ensures { result ≡ x }
{
    x as u32
}

// The kind of the value that a line asks for.
fn kind(line: usize) -> u8
    requires { line < 20 }
    ensures { result ≡ (line_at line).kind }
{
    KIND[line]
}

// The kind of the value of a member by its line: a member of which no line tells may have any value.
pub fn value_kind(line: usize) -> u8
    ensures { result ≡ value_kind line }
{
    if line < 20 { kind(line) } else { 2 }
}

// Refusal 9 asks for the member.
pub fn asked(line: usize) -> bool
    ensures { result ≡ (line_at line).asked }
{
    if 20 <= line {
        return false;
    }
    ASKED[line] == 1
}

// The first line about an object of a kind.
pub fn first(kind: u8) -> usize
    ensures { result ≡ first_line kind }
{
    if 13 <= kind {
        return 20;
    }
    wide(FIRST[wide(kind)])
}

// What a string begins with, if that is one of ASCII, and where it goes on.
#[derive(Clone, Copy)]
struct Opening {
    letter: u32,
    next: usize,
}

// What `head` tells of a string that begins with an escape. Those that stand for a character of ASCII are told first, as they cost least.
fn escaped_head(s: &[u8], at: usize) -> Opening
    requires { (peek s.now at ≡ 34) × (peek s.now (at + 1) ≡ 92) }
    ensures { Heads s.now at result.letter result.next }
{
    let a = text::short(s, at + 1);
    if 0 < a {
        return Opening {
            letter: a,
            next: at + 3,
        };
    }
    let v = values::ascii_escape(s, at + 1);
    if 0 < v {
        return Opening {
            letter: v,
            next: at + 7,
        };
    }
    match text::character(s, at + 1) {
        text::Code::Of(v, j) => Opening { letter: v, next: j },
        text::Code::No(_) => Opening {
            letter: 128,
            next: at,
        },
    }
}

// The code point that the string at a position begins with, and where it goes on; 128 if it begins with none of ASCII, is empty, or is none. A byte that is
// no character by itself and escapes none is a quote, one that no string has, or begins a character that is none of ASCII.
fn head(s: &[u8], at: usize) -> Opening
    ensures { Heads s.now at result.letter result.next }
{
    let none = Opening {
        letter: 128,
        next: at,
    };
    if s.len() <= at {
        return none;
    }
    if s.len() - at < 2 {
        return none;
    }
    if s[at] != 34 {
        return none;
    }
    if text::plain(s[at + 1]) {
        return Opening {
            letter: point(s[at + 1]),
            next: at + 2,
        };
    }
    if s[at + 1] != 92 {
        return none;
    }
    // (a copy, so that the slice itself stays in registers: what is handed on has to lie in memory)
    let string = s;
    escaped_head(string, at)
}

// The number of a name that has a length past its first letter, if n is that length; else 13.
fn one(n: usize, length: usize, number: u8) -> u8
    ensures { result ≡ pick (eqb n length) number 13 }
{
    if n == length { number } else { 13 }
}

// The same of two names: the second is one byte longer, and has the next number.
fn two(n: usize, length: usize, number: u8) -> u8
    requires { (length < 13) × (number < 13) }
    ensures { result ≡ pick (eqb n length) number (pick (eqb n (length + 1)) (number + 1) 13) }
{
    if n == length {
        return number;
    }
    one(n, length + 1, number + 1)
}

// How many bytes are left of a string from a position on, if those of `clocks` past its first letter begin with them; else 6.
fn in_clocks(s: &[u8], next: usize) -> usize
    ensures { result ≡ ends_in (rest s.now next) (bytes "locks") }
{
    values::begun(s, next, b"locks")
}

// How many bytes are left of a string from a position on, if those of `files` past its first letter begin with them; else 5.
fn in_files(s: &[u8], next: usize) -> usize
    ensures { result ≡ ends_in (rest s.now next) (bytes "iles") }
{
    values::begun(s, next, b"iles")
}

// How many bytes are left of a string from a position on, if those of `id` past its first letter begin with them; else 2.
fn in_id(s: &[u8], next: usize) -> usize
    ensures { result ≡ ends_in (rest s.now next) (bytes "d") }
{
    values::begun(s, next, b"d")
}

// How many bytes are left of a string from a position on, if those of `machines` past its first letter begin with them; else 8.
fn in_machines(s: &[u8], next: usize) -> usize
    ensures { result ≡ ends_in (rest s.now next) (bytes "achines") }
{
    values::begun(s, next, b"achines")
}

// How many bytes are left of a string from a position on, if those of `name` past its first letter begin with them; else 4.
fn in_name(s: &[u8], next: usize) -> usize
    ensures { result ≡ ends_in (rest s.now next) (bytes "ame") }
{
    values::begun(s, next, b"ame")
}

// How many bytes are left of a string from a position on, if those of `offset_ns` past its first letter begin with them; else 9.
fn in_offset_ns(s: &[u8], next: usize) -> usize
    ensures { result ≡ ends_in (rest s.now next) (bytes "ffset_ns") }
{
    values::begun(s, next, b"ffset_ns")
}

// How many bytes are left of a string from a position on, if those of `path` past its first letter begin with them; else 4.
fn in_path(s: &[u8], next: usize) -> usize
    ensures { result ≡ ends_in (rest s.now next) (bytes "ath") }
{
    values::begun(s, next, b"ath")
}

// How many bytes are left of a string from a position on, if those of `sync_to` past its first letter begin with them; else 7.
fn in_sync_to(s: &[u8], next: usize) -> usize
    ensures { result ≡ ends_in (rest s.now next) (bytes "ync_to") }
{
    values::begun(s, next, b"ync_to")
}

// How many bytes are left of a string from a position on, if those of `trace_time` past its first letter begin with them; else 10.
fn in_trace_time(s: &[u8], next: usize) -> usize
    ensures { result ≡ ends_in (rest s.now next) (bytes "race_time") }
{
    values::begun(s, next, b"race_time")
}

// How many bytes are left of a string from a position on, if those of `version` past its first letter begin with them; else 7.
fn in_version(s: &[u8], next: usize) -> usize
    ensures { result ≡ ends_in (rest s.now next) (bytes "ersion") }
{
    values::begun(s, next, b"ersion")
}

// The number of the known name that the string at a position is; 13 if it is none. Its first letter tells the one word that it is compared with. All byte strings of
// a function are laid out on the stack when it is called, so each has a function of its own.
fn name_of(s: &[u8], at: usize) -> u8
    ensures { Named s.now at result }
{
    let h = head(s, at);
    let next = h.next;
    let letter = h.letter;
    match letter {
        99 => two(in_clocks(s, next), 4, 4),
        102 => two(in_files(s, next), 3, 0),
        105 => one(in_id(s, next), 1, 8),
        109 => two(in_machines(s, next), 6, 2),
        110 => one(in_name(s, next), 3, 9),
        111 => one(in_offset_ns(s, next), 8, 7),
        112 => one(in_path(s, next), 3, 10),
        115 => one(in_sync_to(s, next), 6, 6),
        116 => one(in_trace_time(s, next), 9, 12),
        118 => one(in_version(s, next), 6, 11),
        _ => 13,
    }
}

// The line about members with the name of a number, of an object of a kind; 20 if the object knows no such name. A constant is laid out on the stack for each use, so
// that is done once for all lines.
fn look(name: u8, object: u8) -> usize
    requires { name < 13 }
    ensures { LineOf object (name_at name) result }
{
    if 12 <= object {
        return 20;
    }
    let names = NAME;
    let past = first(object + 1);
    let mut line = first(object);
    while line < past {
        if names[line] == name {
            return line;
        }
        line += 1;
    }
    20
}

// The line about the member whose name stands at a position, of an object of a kind; 20 if the object knows no such name.
pub fn line_of(s: &[u8], at: usize, object: u8) -> usize
    ensures { LineAt object s.now at result }
{
    let name = name_of(s, at);
    if name == 13 { 20 } else { look(name, object) }
}

// The JSON type that a value of a kind has, as `tag_at` tells it. Kind 2 takes any.
pub fn wanted(kind: u8) -> u8
    ensures { result ≡ wanted_of kind }
{
    if kind == 0 {
        return 2;
    }
    if kind == 1 {
        return 3;
    }
    if kind == 7 {
        return 5;
    }
    if kind == 9 { 5 } else { 6 }
}

// The type of a number: an integer, or another number.
fn number_tag(s: &[u8], at: usize) -> u8
    ensures { result ≡ tag_of_number (integer_at s.now at) }
{
    match values::integer_at(s, at) {
        values::Integer::In(_) => 3,
        values::Integer::Below => 3,
        values::Integer::Above => 3,
        values::Integer::None => 4,
    }
}

// The JSON type of the value at a position, as a number.
pub fn tag_at(s: &[u8], at: usize) -> u8
    ensures { result ≡ tag_at s.now at }
{
    match values::kind_at(s, at) {
        values::Kind::Nothing => 0,
        values::Kind::Null => 0,
        values::Kind::Truth => 1,
        values::Kind::Number => number_tag(s, at),
        values::Kind::String => 2,
        values::Kind::Array => 5,
        values::Kind::Object => 6,
    }
}
