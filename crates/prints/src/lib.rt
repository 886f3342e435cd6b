// A text unescaped: its length, and its print, a number by which texts are told apart quickly.
#![tactic(auto)]

ghost use Rattle.std.specs.Prelude.{◌≡◌, [], ◌∷◌, ◌+◌, ◌^◌, ◌≤◌, ◌<◌, length};
ghost use Rattle.text.specs.Reading.{Text, peek, part};
ghost use Rattle.text.specs.Strings.{utf8};
ghost use Rattle.text.specs.laws.Plain.{own};
ghost use Rattle.index.specs.Index.{text_at};
ghost use Rattle.prints.specs.Prints.{step, word_of, print_from, told_of, print_of, print_at, front};
ghost use Rattle.prints.specs.laws.Fronts.{Room, Puts};
ghost use Rattle.prints.specs.laws.Walks.{Written, Whole};

// ---- the print of a text: a number that equal texts share, and few others

// A byte as a number of 64 bits.
fn long(b: u8) -> u64
    ensures { (result ≡ b) × (result < 256) }
{
    b as u64
}

// Eight bytes at a position as one number, the first the lowest.
fn word(s: &[u8], i: usize) -> u64
    requires { i + 8 ≤ length s.now }
    ensures { result ≡ word_of (part s.now i (i + 8)) }
{
    let low = long(s[i])
        + long(s[i + 1]) * 256
        + long(s[i + 2]) * 65536
        + long(s[i + 3]) * 16777216;
    let high = long(s[i + 4])
        + long(s[i + 5]) * 256
        + long(s[i + 6]) * 65536
        + long(s[i + 7]) * 16777216;
    low + high * 4294967296
}

// A print with a number more: both halves of it count, and no sum passes 64 bits.
fn with_word(print: u64, w: u64) -> u64
    ensures { result ≡ step print w }
{
    print % 4294967296 * 16777619 + w % 4294967296 + w / 4294967296 * 2654435761
}

// The print of the bytes from a position up to an end, by eights as far as they go.
fn print_bytes(s: &[u8], from: usize, end: usize) -> u64
    requires { end ≤ length s.now }
    ensures { result ≡ print_from 0 (part s.now from end) }
{
    let mut print: u64 = 0;
    let mut i = from;
    while i < end {
        if 8 <= end - i {
            print = with_word(print, word(s, i));
            i += 8;
        } else {
            print = with_word(print, long(s[i]));
            i += 1;
        }
    }
    print
}

// The print that is told of n bytes, in 32 bits: 0 of none alone.
fn told(print: u64, n: usize) -> u32
    ensures { result ≡ told_of print n }
{
    if n == 0 {
        0
    } else {
        (print % 2147483648 + 1) as u32
    }
}

// How many of k bytes have room in a text of 256, behind n.
fn room(n: usize, k: usize) -> usize
    ensures { Room n k result }
{
    if 256 <= n {
        return 0;
    }
    if 256 - n < k { 256 - n } else { k }
}

// The print of a text that is given by its bytes.
pub fn print_of(t: &[u8]) -> u32
    ensures { result ≡ print_of t.now }
{
    told(print_bytes(t, 0, room(0, t.len())), t.len())
}

// ---- a text unescaped

// A byte is put behind the first n of a text, if there is room: how many bytes the text has then.
fn put(text: &mut [u8; 256], n: usize, b: u32) -> usize
    requires { (n < 2 ^ 63 + 16) × (b < 256) }
    ensures { Puts text.old n (b ∷ []) text.new result }
{
    if n < 256 {
        text[n] = b as u8;
    }
    n + 1
}

// The bytes of a code point are put behind the first n of a text, as far as there is room: how many bytes the text has then.
fn put_code(text: &mut [u8; 256], n: usize, v: u32) -> usize
    requires { (n < 2 ^ 63) × (v < 1114112) }
    ensures { Puts text.old n (utf8 v) text.new result }
{
    if v < 128 {
        return put(text, n, v);
    }
    if v < 2048 {
        let one = put(text, n, 192 + v / 64);
        return put(text, one, 128 + v % 64);
    }
    if v < 65536 {
        let one = put(text, n, 224 + v / 4096);
        let two = put(text, one, 128 + v / 64 % 64);
        return put(text, two, 128 + v % 64);
    }
    let one = put(text, n, 240 + v / 262144);
    let two = put(text, one, 128 + v / 4096 % 64);
    let three = put(text, two, 128 + v / 64 % 64);
    put(text, three, 128 + v % 64)
}

// The bytes from a position up to an end are put behind the first n of a text, as far as there is room: how many bytes the text has then.
fn put_row(s: &[u8], from: usize, end: usize, text: &mut [u8; 256], n: usize) -> usize
    requires { (n ≤ from) × (from ≤ end) × (end ≤ length s.now) }
    ensures { Puts text.old n (part s.now from end) text.new result }
{
    let k = room(n, end - from);
    let mut i: usize = 0;
    while i < k {
        text[n + i] = s[from + i];
        i += 1;
    }
    n + (end - from)
}

// A plain byte stands at a position.
fn plain_at(s: &[u8], at: usize) -> bool
    ensures { result ≡ own (peek s.now at) }
{
    if at < s.len() {
        text::plain(s[at])
    } else {
        false
    }
}

// A text is written on from a position of its string, where its first bytes are written, and its length told: character by character, those that cost least first.
fn write_on(s: &[u8], from: usize, count: usize, text: &mut [u8; 256]) -> usize
    requires { (from ≤ length s.now) × (count ≤ from) }
    ensures { (t : Text) → Written s.now t from count text.old → Whole t result text.new }
{
    let mut i = from;
    let mut n = count;
    loop {
        let a = text::short(s, i);
        if 0 < a {
            n = put(text, n, a);
            i += 2;
            continue;
        }
        let b = text::byte(s, i);
        if b == 34 {
            return n;
        }
        if plain_at(s, i) {
            n = put(text, n, b);
            i += 1;
            continue;
        }
        let e = text::long(s, i);
        if e % 16 == 6 {
            n = put_code(text, n, e / 16);
            i += 6;
            continue;
        }
        if 0 < e {
            n = put_code(text, n, e / 16);
            i += 12;
            continue;
        }
        let k = text::several(s, i);
        if k == 0 {
            *text = [0; 256];
            return 0;
        }
        n = put_row(s, i, i + k, text, n);
        i += k;
    }
}

// The text at p is written, and its length told: the bytes that stand for themselves up to the first escape in a row, then the rest.
pub fn unescape(s: &[u8], p: usize, text: &mut [u8; 256]) -> usize
    ensures { (result ≡ length (text_at s.now p)) × (text.new ≡ front (text_at s.now p)) }
{
    *text = [0; 256];
    if text::byte(s, p) != 34 {
        return 0;
    }
    let i = text::past_raw(s, p + 1);
    let n = put_row(s, p + 1, i, text, 0);
    write_on(s, i, n, text)
}

// The length of a text, and its print.
#[derive(Clone, Copy)]
pub struct Measure {
    pub length: usize,
    pub print: u32,
}

// The length and the print of the text at p; its first bytes are written.
pub fn measure_at(s: &[u8], p: usize, text: &mut [u8; 256]) -> Measure
    ensures length { result.length ≡ length (text_at s.now p) }
    ensures print { result.print ≡ print_at s.now p }
    ensures text { text.new ≡ front (text_at s.now p) }
{
    let n = unescape(s, p, text);
    let print = told(print_bytes(text, 0, room(0, n)), n);
    Measure { length: n, print }
}

// The print of the text at p: 0 of an empty text alone.
pub fn print_at(s: &[u8], p: usize) -> u32
    ensures { result ≡ print_at s.now p }
{
    let mut text: [u8; 256] = [0; 256];
    let m = measure_at(s, p, &mut text);
    m.print
}
