// The bytes of a JSON text: classes, strings, numbers, literals, whitespace.
#![tactic(auto)]

ghost use Rattle.std.specs.Prelude.{◌≡◌, suc, ◌+◌, ◌*◌, ◌/◌, ◌≤◌, ◌<◌, ◌^◌, true, false, ◌&&◌, ◌||◌, eqb, length};
ghost use Rattle.std.specs.Int.Count.{count_trailing_zeros};
ghost use Rattle.text.specs.Reading.{pick, peek, run, word, scan};
ghost use Rattle.text.specs.Class.{class_of, skip, whitespace, digit as digitOf};
ghost use Rattle.text.specs.Strings.{hex_of, escape_of, pair_of, quad as quadOf, low as low_of, paired as pairedOf, escape as escapeAt, second as second_of, two as twoOf, three as threeOf, four as fourOf, character as characterOf, code_of, characters, string as stringOf};
ghost use Rattle.text.specs.Raw.{past_raw};
ghost use Rattle.text.specs.Escapes.{short_at, long_at, bytes_in, several_at};
ghost use Rattle.text.specs.Numbers.{digits as digitsOf, minus as minusOf, sign as sign_of, int as int_of, frac as fracOf, exp as expOf, rest as rest_of, number as number_of};
ghost use Rattle.text.specs.laws.Marks.{marks};
ghost use Rattle.text.specs.laws.Plain.{own, own_at, past_own, Near};
ghost use Rattle.text.specs.laws.Escapes.{digits_at};
ghost use Rattle.text.specs.laws.Raw.{Wide};

// Where a reading ends; or the first position after which no well-formed text is possible; or the byte that opens one level too many.
#[derive(Clone, Copy)]
pub enum Scan {
    Done(usize),
    Bad(usize),
    Deep(usize),
}

// A code point with the position past it; or the first position after which no character is possible.
#[derive(Clone, Copy)]
pub enum Code {
    Of(u32, usize),
    No(usize),
}

// The class of each byte.
const CLASS: [u8; 256] = *b"\x00\x00\x00\x00\x00\x00\x00\x00\x00\x01\x01\x00\x00\x01\x00\x00\
    \x00\x00\x00\x00\x00\x00\x00\x00\x00\x00\x00\x00\x00\x00\x00\x00\
    \x04\x11\x02\x11\x11\x11\x11\x11\x11\x11\x11\x08\x0f\x07\x09\x11\
    \x05\x06\x06\x06\x06\x06\x06\x06\x06\x06\x0e\x11\x11\x11\x11\x11\
    \x11\x10\x10\x10\x10\x10\x10\x10\x10\x10\x10\x10\x10\x10\x10\x10\
    \x10\x10\x10\x10\x10\x10\x10\x10\x10\x10\x10\x0a\x03\x0b\x11\x11\
    \x11\x10\x10\x10\x10\x10\x10\x10\x10\x10\x10\x10\x10\x10\x10\x10\
    \x10\x10\x10\x10\x10\x10\x10\x10\x10\x10\x10\x0c\x11\x0d\x11\x11\
    \x12\x12\x12\x12\x12\x12\x12\x12\x12\x12\x12\x12\x12\x12\x12\x12\
    \x12\x12\x12\x12\x12\x12\x12\x12\x12\x12\x12\x12\x12\x12\x12\x12\
    \x12\x12\x12\x12\x12\x12\x12\x12\x12\x12\x12\x12\x12\x12\x12\x12\
    \x12\x12\x12\x12\x12\x12\x12\x12\x12\x12\x12\x12\x12\x12\x12\x12\
    \x16\x16\x13\x13\x13\x13\x13\x13\x13\x13\x13\x13\x13\x13\x13\x13\
    \x13\x13\x13\x13\x13\x13\x13\x13\x13\x13\x13\x13\x13\x13\x13\x13\
    \x14\x14\x14\x14\x14\x14\x14\x14\x14\x14\x14\x14\x14\x14\x14\x14\
    \x15\x15\x15\x15\x15\x16\x16\x16\x16\x16\x16\x16\x16\x16\x16\x16";

// A byte as an index.
fn index(b: u8) -> usize
    ensures { result ≡ b }
{
    b as usize
}

// A byte as a number that can also be 256.
fn widen(b: u8) -> u32
    ensures { result ≡ b }
{
    b as u32
}

// The class of a byte.
pub fn class(b: u8) -> u8
    ensures { result ≡ class_of b }
{
    CLASS[index(b)]
}

// The byte at a position, and 256 past the end: so that no caller has a case for the end.
pub fn byte(s: &[u8], at: usize) -> u32
    ensures { result ≡ peek s.now at }
{
    if at < s.len() { widen(s[at]) } else { 256 }
}

// Whether a byte is whitespace. By comparing alone, which costs less than the class; most bytes are above the space, so that is asked first.
fn white(b: u8) -> bool
    ensures { result ≡ whitespace b }
{
    if 32 < b {
        return false;
    }
    if b == 9 {
        return true;
    }
    if b == 10 {
        return true;
    }
    b == 13 || b == 32
}

// Past the whitespace at a position.
pub fn blank(s: &[u8], at: usize) -> usize
    ensures { result ≡ skip s.now at }
{
    let mut i = at;
    while i < s.len() {
        if !white(s[i]) {
            return i;
        }
        i += 1;
    }
    i
}

// The value of a hexadecimal digit; 16 for what is none. By comparing, since a table is laid out on the stack for each use; a small letter is told by three tests.
fn hex_of(b: u32) -> u32
    ensures { result ≡ hex_of b }
{
    if b < 58 {
        return if b < 48 { 16 } else { b - 48 };
    }
    if b < 97 {
        if b < 65 {
            return 16;
        }
        return if b < 71 { b - 55 } else { 16 };
    }
    if b < 103 { b - 87 } else { 16 }
}

// The value of the hexadecimal digit at a position; 16 for a byte that is none, and for the end.
fn hex_at(s: &[u8], at: usize) -> u32
    ensures { result ≡ hex_of (peek s.now at) }
{
    hex_of(byte(s, at))
}

// What a backslash and a byte stand for; 0 for a byte that ends no escape.
fn escape_of(b: u32) -> u32
    ensures { result ≡ escape_of b }
{
    match b {
        34 => 34,
        47 => 47,
        92 => 92,
        98 => 8,
        102 => 12,
        110 => 10,
        114 => 13,
        116 => 9,
        _ => 0,
    }
}

// What a backslash and the byte at a position stand for; 0 for a byte that ends no escape, and for the end.
fn escape_of_at(s: &[u8], at: usize) -> u32
    ensures { result ≡ escape_of (peek s.now at) }
{
    escape_of(byte(s, at))
}

// What a backslash and a letter at a position stand for; 0 where no such escape stands.
pub fn short(s: &[u8], at: usize) -> u32
    ensures { result ≡ short_at s.now at }
{
    if byte(s, at) != 92 {
        return 0;
    }
    escape_of_at(s, at + 1)
}

// Whether two bytes are both the digit 0.
fn zeros(p: u8, q: u8) -> bool
    ensures { result ≡ (eqb p 48 && eqb q 48) }
{
    if p == 48 { q == 48 } else { false }
}

// The four hexadecimal digits at a position as a number; 65536 if one is none. The last two first: most escapes are of control characters or Latin-1, and begin with zeros.
fn four_digits(s: &[u8], at: usize) -> u32
    requires { at + 4 ≤ length s.now }
    ensures { result ≡ digits_at s.now at }
{
    let c = hex_of(widen(s[at + 2]));
    if 15 < c {
        return 65536;
    }
    let d = hex_of(widen(s[at + 3]));
    if 15 < d {
        return 65536;
    }
    let low = c * 16 + d;
    if zeros(s[at], s[at + 1]) {
        return low;
    }
    let a = hex_of(widen(s[at]));
    if 15 < a {
        return 65536;
    }
    let b = hex_of(widen(s[at + 1]));
    if 15 < b {
        return 65536;
    }
    (a * 16 + b) * 256 + low
}

// The same as `long`, where a backslash, a u and the digits of a surrogate v stand: a low one is no character, and a high one asks for a low one after it.
fn low_after(s: &[u8], at: usize, v: u32) -> u32
    requires { (peek s.now at ≡ 92) × (peek s.now (at + 1) ≡ 117) × (v ≡ digits_at s.now (at + 2)) × (v / 2048 ≡ 27) }
    ensures { result ≡ long_at s.now at }
{
    if v / 1024 != 54 {
        return 0;
    }
    if s.len() - at < 12 {
        return 0;
    }
    if s[at + 6] != 92 {
        return 0;
    }
    if s[at + 7] != 117 {
        return 0;
    }
    let w = four_digits(s, at + 8);
    if w / 1024 != 55 {
        return 0;
    }
    (65536 + v % 1024 * 1024 + w % 1024) * 16 + 12
}

// The same as `long`, where a backslash stands. One test of the length for all six bytes, since most such escapes are whole.
fn long_escape(s: &[u8], at: usize) -> u32
    requires { peek s.now at ≡ 92 }
    ensures { result ≡ long_at s.now at }
{
    if s.len() - at < 6 {
        return 0;
    }
    if s[at + 1] != 117 {
        return 0;
    }
    let v = four_digits(s, at + 2);
    if 65535 < v {
        return 0;
    }
    if v / 2048 != 27 {
        return v * 16 + 6;
    }
    low_after(s, at, v)
}

// The escape of a backslash and a u at a position as one number: its code point times 16, and how many bytes it has, 6 or 12; 0 where none stands.
pub fn long(s: &[u8], at: usize) -> u32
    ensures { result ≡ long_at s.now at }
{
    if byte(s, at) != 92 {
        return 0;
    }
    long_escape(s, at)
}

// Two hexadecimal digits, after the number v.
fn pair(s: &[u8], at: usize, v: u32) -> Code
    requires { (at < 2 ^ 63 + 16) × (v < 256) }
    ensures { result ≡ code_of (pair_of v s.now at) }
{
    let d0 = hex_at(s, at);
    if 16 <= d0 {
        return Code::No(at);
    }
    let d1 = hex_at(s, at + 1);
    if 16 <= d1 {
        return Code::No(at + 1);
    }
    Code::Of((v * 16 + d0) * 16 + d1, at + 2)
}

// The least number that no second digit is: after D it is 12, so that no low surrogate is taken.
fn second_end(d0: u32) -> u32
    ensures { (result ≡ pick (eqb d0 13) 12 16) × (result < 17) }
{
    if d0 == 13 { 12 } else { 16 }
}

// Four hexadecimal digits that are no low surrogate.
fn quad(s: &[u8], at: usize) -> Code
    requires { at < 2 ^ 63 + 8 }
    ensures { result ≡ code_of (quadOf s.now at) }
{
    let d0 = hex_at(s, at);
    if 16 <= d0 {
        return Code::No(at);
    }
    let d1 = hex_at(s, at + 1);
    if second_end(d0) <= d1 {
        return Code::No(at + 1);
    }
    pair(s, at + 2, d0 * 16 + d1)
}

// A backslash, a u and a low surrogate.
fn low(s: &[u8], at: usize) -> Code
    ensures { result ≡ code_of (low_of s.now at) }
{
    if byte(s, at) != 92 {
        return Code::No(at);
    }
    if byte(s, at + 1) != 117 {
        return Code::No(at + 1);
    }
    if hex_at(s, at + 2) != 13 {
        return Code::No(at + 2);
    }
    let d = hex_at(s, at + 3);
    if d / 4 != 3 {
        return Code::No(at + 3);
    }
    pair(s, at + 4, 208 + d)
}

// After the digits of v, which end at a position: a high surrogate asks for a low one, and the two are one code point.
fn paired(s: &[u8], v: u32, at: usize) -> Code
    ensures { result ≡ code_of (pairedOf s.now v at) }
{
    if v / 1024 != 54 {
        return Code::Of(v, at);
    }
    match low(s, at) {
        Code::Of(w, j) => Code::Of(65536 + v % 1024 * 1024 + w % 1024, j),
        Code::No(p) => Code::No(p),
    }
}

// A backslash at a position, and what follows it.
fn escape(s: &[u8], at: usize) -> Code
    requires { at < 2 ^ 63 }
    ensures { result ≡ code_of (escapeAt s.now at) }
{
    if byte(s, at + 1) == 117 {
        return match quad(s, at + 2) {
            Code::Of(v, j) => paired(s, v, j),
            Code::No(p) => Code::No(p),
        };
    }
    let v = escape_of_at(s, at + 1);
    if v == 0 {
        return Code::No(at + 1);
    }
    Code::Of(v, at + 2)
}

// The least second byte after the first byte b: no longer form of a code point than need be.
fn least(b: u32) -> u32
    ensures { result ≡ pick (eqb b 224) 160 (pick (eqb b 240) 144 128) }
{
    if b == 224 {
        160
    } else if b == 240 {
        144
    } else {
        128
    }
}

// The greatest second byte after the first byte b: no surrogate, and no code point past 10FFFF.
fn greatest(b: u32) -> u32
    ensures { result ≡ pick (eqb b 237) 159 (pick (eqb b 244) 143 191) }
{
    if b == 237 {
        159
    } else if b == 244 {
        143
    } else {
        191
    }
}

// Whether c may come second after the first byte b.
fn second(b: u32, c: u32) -> bool
    ensures { result ≡ second_of b c }
{
    least(b) <= c && c <= greatest(b)
}

// A character of two bytes.
fn two(s: &[u8], at: usize) -> Code
    requires { at < 2 ^ 63 }
    ensures { result ≡ code_of (twoOf s.now at) }
{
    let b = byte(s, at);
    let c = byte(s, at + 1);
    if !second(b, c) {
        return Code::No(at + 1);
    }
    Code::Of(b % 32 * 64 + c % 64, at + 2)
}

// A character of three bytes.
fn three(s: &[u8], at: usize) -> Code
    requires { at < 2 ^ 63 }
    ensures { result ≡ code_of (threeOf s.now at) }
{
    let b = byte(s, at);
    let c = byte(s, at + 1);
    if !second(b, c) {
        return Code::No(at + 1);
    }
    let d = byte(s, at + 2);
    if d / 64 != 2 {
        return Code::No(at + 2);
    }
    Code::Of((b % 16 * 64 + c % 64) * 64 + d % 64, at + 3)
}

// A character of four bytes.
fn four(s: &[u8], at: usize) -> Code
    requires { at < 2 ^ 63 }
    ensures { result ≡ code_of (fourOf s.now at) }
{
    let b = byte(s, at);
    let c = byte(s, at + 1);
    if !second(b, c) {
        return Code::No(at + 1);
    }
    let d = byte(s, at + 2);
    if d / 64 != 2 {
        return Code::No(at + 2);
    }
    let e = byte(s, at + 3);
    if e / 64 != 2 {
        return Code::No(at + 3);
    }
    Code::Of(((b % 8 * 64 + c % 64) * 64 + d % 64) * 64 + e % 64, at + 4)
}

// Whether a byte is a character by itself, as those of the classes 4 to 17 are. By comparing alone, which costs less than the class.
pub fn plain(b: u8) -> bool
    ensures { result ≡ own b }
{
    if b < 32 {
        return false;
    }
    if 127 < b {
        return false;
    }
    b != 34 && b != 92
}

// 1 for a plain byte, so that they can be counted without a branch.
fn plain_one(b: u8) -> usize
    ensures { (result ≤ 1) × (result ≡ 1 → own b ≡ true) }
{
    if plain(b) { 1 } else { 0 }
}

// The 16 bytes at a position are plain. All are counted, with no way out between, since that becomes a few instructions for the 16 together.
fn plain_block(s: &[u8], at: usize) -> bool
    requires { at + 16 ≤ length s.now }
    ensures { result ≡ true → past_own s.now at ≡ past_own s.now (at + 16) }
{
    let mut n: usize = 0;
    for i in 0..16 {
        n += plain_one(s[at + i]);
    }
    n == 16
}

// Past plain bytes at a position by whole blocks.
fn past_blocks(s: &[u8], at: usize) -> usize
    requires { at ≤ length s.now }
    ensures { (past_own s.now at ≡ past_own s.now result) × (result ≤ length s.now) }
{
    let mut i = at;
    while 16 <= s.len() - i {
        if !plain_block(s, i) {
            return i;
        }
        i += 16;
    }
    i
}

// Past plain bytes at a position one by one, up to an end.
fn past_singly(s: &[u8], at: usize, end: usize) -> usize
    requires { (at ≤ end) × (end ≤ length s.now) }
    ensures { (past_own s.now at ≡ past_own s.now result) × ((result ≤ end) × (result < end → past_own s.now result ≡ result)) }
{
    let mut i = at;
    while i < end {
        if !plain(s[i]) {
            return i;
        }
        i += 1;
    }
    i
}

// The place of the lowest binary digit that is set.
pub fn lowest(m: u16) -> usize
    ensures { result ≡ count_trailing_zeros 16 m }
{
    u16::trailing_zeros(m) as usize
}

// A weight for a byte that is not plain, and nothing for one that is.
fn weight(b: u8, w: u16) -> u16
    ensures { result ≡ w * pick (own b) 0 1 }
{
    if plain(b) { 0 } else { w }
}

// The 8 bytes at a position as binary digits, the first the lowest: 1 for a byte that is not plain, and a 1 above them; three times that. No way out between them,
// and weights that are no powers of 2, since so the compiler sums the 8 together.
fn plain_marks(s: &[u8], at: usize) -> u16
    requires { at + 8 ≤ length s.now }
    ensures { result ≡ 3 * marks (own_at s.now at) 0 8 }
{
    let mut m: u16 = 0;
    let mut w: u16 = 3;
    for i in 0..8 {
        m += weight(s[at + i], w);
        w *= 2;
    }
    m + w
}

// How many of the 8 bytes at a position are plain, up to the first that is not.
fn plain_near(s: &[u8], at: usize) -> usize
    requires { at + 8 ≤ length s.now }
    ensures { Near s.now at 8 result }
{
    lowest(plain_marks(s, at))
}

// Past the plain bytes at a position. The first 16 by eights: most strings are shorter, and a block that fails costs time.
pub fn past_plain(s: &[u8], at: usize) -> usize
    ensures { result ≡ past_own s.now at }
{
    if s.len() <= at {
        return at;
    }
    if s.len() - at < 16 {
        return past_singly(s, at, s.len());
    }
    let near = plain_near(s, at);
    if near < 8 {
        return at + near;
    }
    let next = plain_near(s, at + 8);
    if next < 8 {
        return at + 8 + next;
    }
    past_singly(s, past_blocks(s, at + 16), s.len())
}

// A character of a string whose first byte is not plain: by comparing that byte, since a table is laid out on the stack for each use. `closed` alone calls it, for the
// bad position.
fn odd(s: &[u8], at: usize) -> Code
    requires { (at < length s.now) × (own (peek s.now at) ≡ false) }
    ensures { result ≡ code_of (characterOf s.now at) }
{
    let b = s[at];
    if b == 92 {
        return escape(s, at);
    }
    if b < 194 {
        return Code::No(at);
    }
    if b < 224 {
        return two(s, at);
    }
    if b < 240 {
        return three(s, at);
    }
    if b < 245 { four(s, at) } else { Code::No(at) }
}

// A character of a string: its code point. A plain byte and an escape are told at once, without the table.
pub fn character(s: &[u8], at: usize) -> Code
    ensures { result ≡ code_of (characterOf s.now at) }
{
    if s.len() <= at {
        return Code::No(at);
    }
    if plain(s[at]) {
        return Code::Of(byte(s, at), at + 1);
    }
    if s[at] == 92 {
        return escape(s, at);
    }
    match class(s[at]) {
        19 => two(s, at),
        20 => three(s, at),
        21 => four(s, at),
        _ => Code::No(at),
    }
}

// The same as `second`: after a first byte of two any byte that goes on a character may come.
fn follows(b: u32, c: u32) -> bool
    ensures { result ≡ second_of b c }
{
    if b < 224 {
        return c / 64 == 2;
    }
    second(b, c)
}

// How many bytes the character of several bytes at a position has; 0 where none stands. By comparing alone, and without its code point.
fn wide(s: &[u8], at: usize) -> usize
    requires { (at < length s.now) × (128 ≤ peek s.now at) }
    ensures { Wide s.now at result }
{
    let b = byte(s, at);
    if b < 194 {
        return 0;
    }
    if 244 < b {
        return 0;
    }
    if !follows(b, byte(s, at + 1)) {
        return 0;
    }
    if b < 224 {
        return 2;
    }
    if byte(s, at + 2) / 64 != 2 {
        return 0;
    }
    if b < 240 {
        return 3;
    }
    if byte(s, at + 3) / 64 == 2 { 4 } else { 0 }
}

// How many bytes the character of several bytes at a position has; 0 where none stands.
pub fn several(s: &[u8], at: usize) -> usize
    ensures { result ≡ several_at s.now at }
{
    if s.len() <= at {
        return 0;
    }
    if s[at] < 128 {
        return 0;
    }
    wide(s, at)
}

// The same as `past_plain`, where often no plain byte is left: that is seen at once.
fn past_others(s: &[u8], at: usize) -> usize
    ensures { result ≡ past_own s.now at }
{
    if s.len() <= at {
        return at;
    }
    if !plain(s[at]) {
        return at;
    }
    past_plain(s, at)
}

// Past the characters at a position that stand for their own bytes: all but escapes. Up to the first that does not, or is none.
pub fn past_raw(s: &[u8], at: usize) -> usize
    ensures { result ≡ past_raw s.now at }
{
    let mut i = at;
    while i < s.len() {
        let b = s[i];
        if b < 128 {
            if !plain(b) {
                return i;
            }
            i = past_others(s, i + 1);
        } else {
            let n = wide(s, i);
            if n == 0 {
                return i;
            }
            i += n;
        }
    }
    i
}

// How many bytes the escape at a position has, 2, 6 or 12; 0 where none stands. Each number stands behind a branch, so that the next position does not wait for the digits' value.
fn escape_width(s: &[u8], at: usize) -> usize
    requires { peek s.now at ≡ 92 }
    ensures { result ≡ bytes_in at (characterOf s.now at) }
{
    if 0 < escape_of_at(s, at + 1) {
        return 2;
    }
    let e = long(s, at);
    if e % 16 == 6 {
        return 6;
    }
    if e == 0 {
        return 0;
    }
    12
}

// How many bytes the character at a position has whose first byte is not plain; 0 where none stands, as at a quote.
fn odd_width(s: &[u8], at: usize) -> usize
    requires { (at < length s.now) × (own (peek s.now at) ≡ false) }
    ensures { result ≡ bytes_in at (characterOf s.now at) }
{
    let lead = s[at];
    if 127 < lead {
        return wide(s, at);
    }
    if lead == 92 {
        return escape_width(s, at);
    }
    0
}

// The characters at a position, to the closing quote. Each is passed by its width; where none stands, `odd` tells the bad position.
fn closed(s: &[u8], at: usize) -> Scan
    requires { at ≤ length s.now }
    ensures { result ≡ scan (characters (suc (length s.now)) s.now at) }
{
    let mut i = at;
    while i < s.len() {
        let b = s[i];
        if plain(b) {
            i += 1;
            continue;
        }
        if b == 34 {
            return Scan::Done(i + 1);
        }
        let n = odd_width(s, i);
        if n == 0 {
            return match odd(s, i) {
                Code::Of(_, j) => Scan::Bad(j),
                Code::No(p) => Scan::Bad(p),
            };
        }
        i += n;
    }
    Scan::Bad(i)
}

// A string, from its opening quote on. One that is empty, and one of plain bytes, is told at once; one that begins with a character of several bytes has none to pass.
// (With two calls of `closed` the compiler leaves it a function of its own, and this one is short enough to be laid into its callers.)
pub fn string(s: &[u8], at: usize) -> Scan
    ensures { result ≡ scan (stringOf s.now at) }
{
    if byte(s, at) != 34 {
        return Scan::Bad(at);
    }
    let first = at + 1;
    if byte(s, first) == 34 {
        return Scan::Done(first + 1);
    }
    if 127 < byte(s, first) {
        return closed(s, first);
    }
    let end = past_plain(s, first);
    if byte(s, end) == 34 {
        return Scan::Done(end + 1);
    }
    closed(s, end)
}

// Whether a byte is a digit. By comparing alone, which costs less than the class.
fn digit(b: u8) -> bool
    ensures { result ≡ digitOf b }
{
    if b < 48 {
        return false;
    }
    b <= 57
}

// Past the digits at a position.
fn past_digits(s: &[u8], at: usize) -> usize
    ensures { result ≡ run digitOf s.now at }
{
    let mut i = at;
    while i < s.len() {
        if !digit(s[i]) {
            return i;
        }
        i += 1;
    }
    i
}

// One digit or more: the run of digits takes a byte.
fn digits(s: &[u8], at: usize) -> Scan
    ensures { result ≡ scan (digitsOf s.now at) }
{
    let end = past_digits(s, at);
    if end == at {
        Scan::Bad(at)
    } else {
        Scan::Done(end)
    }
}

// Past the minus at a position, if there is one.
fn minus(s: &[u8], at: usize) -> usize
    ensures { result ≡ minusOf s.now at }
{
    if byte(s, at) == 45 { at + 1 } else { at }
}

// Whether a byte is one of two.
fn either(b: u32, x: u32, y: u32) -> bool
    ensures { result ≡ (eqb b x || eqb b y) }
{
    b == x || b == y
}

// Past the minus or plus at a position, if there is one.
fn sign(s: &[u8], at: usize) -> usize
    ensures { result ≡ sign_of s.now at }
{
    if either(byte(s, at), 45, 43) {
        at + 1
    } else {
        at
    }
}

// A zero, or digits that start with none.
fn int(s: &[u8], at: usize) -> Scan
    ensures { result ≡ scan (int_of s.now at) }
{
    if byte(s, at) == 48 {
        Scan::Done(at + 1)
    } else {
        digits(s, at)
    }
}

// A point and digits, or nothing.
fn frac(s: &[u8], at: usize) -> Scan
    ensures { result ≡ scan (fracOf s.now at) }
{
    if byte(s, at) == 46 {
        digits(s, at + 1)
    } else {
        Scan::Done(at)
    }
}

// The letter e, a sign or none, and digits; or nothing.
fn exp(s: &[u8], at: usize) -> Scan
    ensures { result ≡ scan (expOf s.now at) }
{
    if either(byte(s, at), 101, 69) {
        digits(s, sign(s, at + 1))
    } else {
        Scan::Done(at)
    }
}

// What may follow the whole part of a number.
fn rest(s: &[u8], at: usize) -> Scan
    ensures { result ≡ scan (rest_of s.now tt at) }
{
    match frac(s, at) {
        Scan::Done(j) => exp(s, j),
        Scan::Bad(p) => Scan::Bad(p),
        Scan::Deep(p) => Scan::Deep(p),
    }
}

// A number.
pub fn number(s: &[u8], at: usize) -> Scan
    ensures { result ≡ scan (number_of s.now at) }
{
    match int(s, minus(s, at)) {
        Scan::Done(j) => rest(s, j),
        Scan::Bad(p) => Scan::Bad(p),
        Scan::Deep(p) => Scan::Deep(p),
    }
}

// The bytes of w, one after the other.
pub fn literal(s: &[u8], at: usize, w: &[u8]) -> Scan
    ensures { result ≡ scan (word w.now s.now at) }
{
    let mut i = at;
    let mut k = 0;
    while k < w.len() {
        if byte(s, i) != widen(w[k]) {
            return Scan::Bad(i);
        }
        i += 1;
        k += 1;
    }
    Scan::Done(i)
}
