// The outline of a manifest's bytes: its start bytes (2), its outermost object (5), its version (6, 7), and the number of a clock's name.
// Each question is answered on every text, at every position.
#![tactic(auto)]

ghost use Rattle.std.specs.Prelude.{◌≡◌, true, ◌<◌};
ghost use Rattle.values.specs.Strings.{rest};
ghost use Rattle.places.specs.Places.{next_member};
ghost use Rattle.manifest.specs.Names.{bytes};
ghost use Rattle.manifest.specs.Manifest.{starts};
ghost use Rattle.outline.specs.Outline.{alone as aloneOf, root_at, not_1_at, versions_at, domain_at};
ghost use Rattle.outline.specs.laws.Versions.{misnumbered};
ghost use Rattle.outline.specs.laws.Names.{names as allNames, capitals, Behind, ended_as, coarse_as};

// Where the manifest object stands; or the document is refused as 5.
#[derive(Clone, Copy)]
pub enum Standing {
    At(usize),
    Refused,
}

// The manifest starts with its 20 bytes, after whitespace. (If not: 2)
pub fn opens(s: &[u8]) -> bool
    ensures { result ≡ starts s.now }
{
    match text::literal(s, text::blank(s, 0), b"{\"perfetto_manifest\"") {
        text::Scan::Done(_) => true,
        text::Scan::Bad(_) => false,
        text::Scan::Deep(_) => false,
    }
}

// The value at v, which ends at a position, if no member comes after it and it is an object. The first byte tells an object.
fn alone(s: &[u8], v: usize, past: usize) -> Standing
    ensures { result ≡ aloneOf s.now v (next_member s.now past) }
{
    match places::next_member(s, past) {
        places::Entry::Named(_, _, _) => Standing::Refused,
        places::Entry::Last => {
            if text::byte(s, v) == 123 {
                Standing::At(v)
            } else {
                Standing::Refused
            }
        }
    }
}

// The manifest object: the one member of the outermost object. Its name need not be compared, since the start bytes fix it.
pub fn root(s: &[u8]) -> Standing
    ensures { result ≡ root_at s.now }
{
    match places::first_member(s, text::blank(s, 0)) {
        places::Entry::Named(_, v, past) => alone(s, v, past),
        places::Entry::Last => Standing::Refused,
    }
}

// The value at v isn't the integer 1.
fn not_one_at(s: &[u8], v: usize) -> bool
    ensures { result ≡ not_1_at s.now v }
{
    match values::integer_at(s, v) {
        values::Integer::In(n) => n != 1,
        values::Integer::Below => true,
        values::Integer::Above => true,
        values::Integer::None => true,
    }
}

// The member whose name starts at a position and whose value starts at v is a version that isn't the integer 1.
fn wrong_version(s: &[u8], at: usize, v: usize) -> bool
    ensures { result ≡ misnumbered s.now at v }
{
    if !values::same_as(s, at, b"version") {
        return false;
    }
    not_one_at(s, v)
}

// 6 if the object at a position has no version, 7 if one of its versions isn't the integer 1, else 0: all of them are looked at.
// The one version of most manifests was found with its place, so they are gone through but once.
pub fn versions(s: &[u8], at: usize) -> u8
    ensures { result ≡ versions_at s.now at }
{
    let found = places::member_at(s, at, b"version");
    if found.count == 0 {
        return 6;
    }
    if found.count == 1 {
        if not_one_at(s, found.at) {
            return 7;
        }
        return 0;
    }
    let mut member = places::first_member(s, at);
    loop {
        match member {
            places::Entry::Named(name, v, past) => {
                if wrong_version(s, name, v) {
                    return 7;
                }
                member = places::next_member(s, past);
            }
            places::Entry::Last => return 0,
        }
    }
}

// Where each clock's name starts among all of them, one after the other, and where the last one ends.
const STARTS: [usize; 7] = [0, 8, 23, 32, 48, 61, 69];

// Behind a word with which what is left of a string from a position on begins; 0 if it does not begin with it. The word has only capital letters and underscores, which no
// escape of two bytes stands for.
fn past(s: &[u8], from: usize, word: &[u8]) -> usize
    requires { (0 < from) × (capitals word.now ≡ true) }
    ensures { Behind s.now from word.now result }
{
    let mut i = from;
    let mut k: usize = 0;
    while k < word.len() {
        let b = text::byte(s, i);
        let c = text::byte(word, k);
        if b == 92 {
            if values::ascii_escape(s, i) != c {
                return 0;
            }
            i += 6;
            k += 1;
            continue;
        }
        if b != c {
            return 0;
        }
        i += 1;
        k += 1;
    }
    i
}

// The number, if the string ends at p; else 0.
fn ended(s: &[u8], p: usize, number: u8) -> u8
    ensures { result ≡ ended_as (rest s.now p) number }
{
    if text::byte(s, p) == 34 { number } else { 0 }
}

// The number of the clock whose name is a word, or that word and another, which has the next number, where the string goes on at p behind the word; 0 if it is neither.
fn coarse(s: &[u8], p: usize, number: u8, more: &[u8]) -> u8
    requires { (0 < p) × (number < 255) × (more.now ≡ bytes "_COARSE") }
    ensures { result ≡ coarse_as (rest s.now p) number }
{
    if text::byte(s, p) == 34 {
        return number;
    }
    let q = past(s, p, more);
    if q == 0 {
        return 0;
    }
    ended(s, q, number + 1)
}

// The number of the clock whose name is the string at a position, given all names one after the other. One that begins with another is compared from there on, so that
// each is read once.
fn numbered(s: &[u8], at: usize, names: &[u8]) -> u8
    requires { names.now ≡ allNames }
    ensures { result ≡ domain_at s.now at }
{
    if text::byte(s, at) != 34 {
        return 0;
    }
    let b = past(s, at + 1, &names[STARTS[5]..STARTS[6]]);
    if b != 0 {
        return ended(s, b, 6);
    }
    let r = past(s, at + 1, &names[STARTS[0]..STARTS[1]]);
    if r != 0 {
        return coarse(s, r, 1, &names[STARTS[1] + 8..STARTS[2]]);
    }
    let m = past(s, at + 1, &names[STARTS[2]..STARTS[3]]);
    if m == 0 {
        return 0;
    }
    let n = coarse(s, m, 3, &names[STARTS[3] + 9..STARTS[4]]);
    if n != 0 {
        return n;
    }
    let w = past(s, m, &names[STARTS[4] + 9..STARTS[5]]);
    if w == 0 {
        return 0;
    }
    ended(s, w, 5)
}

// The number, 1 to 6, of the clock whose name is the string at a position; 0 where that is no clock's name.
pub fn domain(s: &[u8], at: usize) -> u8
    ensures { result ≡ domain_at s.now at }
{
    let names = b"REALTIMEREALTIME_COARSEMONOTONICMONOTONIC_COARSEMONOTONIC_RAWBOOTTIME";
    numbered(s, at, names)
}
