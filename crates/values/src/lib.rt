// Questions about the value at a position of a JSON text: its kind, its text, its integer. Each is answered on every text, at every position.
#![tactic(auto)]

ghost use Rattle.std.specs.Prelude.{◌≡◌, ◌+◌, ◌*◌, ◌-◌, ◌<◌, ◌≤◌, ◌^◌, min, true, false, ◌&&◌, ◌||◌, eqb, length, pos, neg_ℤ};
ghost use Rattle.text.specs.Reading.{pick, peek, part};
ghost use Rattle.text.specs.Class.{digit};
ghost use Rattle.text.specs.Strings.{utf8};
ghost use Rattle.values.specs.Stands.{kind_by, kind_at};
ghost use Rattle.values.specs.Strings.{length_at, is_text, same_as, rest, ends_in, both_text, same_texts, ascii_at};
ghost use Rattle.values.specs.Integer.{whole, broken as brokenOf, decimal, ranged, integer, integer_at};
ghost use Rattle.text.specs.Escapes.{short_at};
ghost use Rattle.text.specs.laws.Plain.{own};
ghost use Rattle.values.specs.laws.Compared.{starts_from, ends_from, Went, Agrees};
ghost use Rattle.values.specs.laws.Rest.{Coded};
ghost use Rattle.values.specs.laws.Ordinary.{Ordinary};
ghost use Rattle.values.specs.laws.Alike.{twice, Alike};
ghost use Rattle.values.specs.laws.Raws.{Equal, Raws, Passed};

// What kind of value begins at a position.
#[derive(Clone, Copy)]
pub enum Kind {
    Nothing,
    Null,
    Truth,
    Number,
    String,
    Array,
    Object,
}

// An integer as far as 64 bits hold it; None where no integer stands.
#[derive(Clone, Copy)]
pub enum Integer {
    In(i64),
    Below,
    Above,
    None,
}

// A byte is one of two.
fn either(b: u8, x: u8, y: u8) -> bool
    ensures { result ≡ (eqb b x || eqb b y) }
{
    b == x || b == y
}

// A number begins with a byte: a minus or a digit.
fn begins_number(b: u8) -> bool
    ensures { result ≡ (eqb b 45 || digit b) }
{
    if b == 45 {
        return true;
    }
    if b < 48 {
        return false;
    }
    b <= 57
}

// The kind of value that a byte begins.
fn kind_by(b: u8) -> Kind
    ensures { result ≡ kind_by b }
{
    if b == 123 {
        return Kind::Object;
    }
    if b == 91 {
        return Kind::Array;
    }
    if b == 34 {
        return Kind::String;
    }
    if begins_number(b) {
        return Kind::Number;
    }
    if either(b, 116, 102) {
        return Kind::Truth;
    }
    if b == 110 { Kind::Null } else { Kind::Nothing }
}

// The kind of the value that begins at a position: its first byte tells it.
pub fn kind_at(s: &[u8], at: usize) -> Kind
    ensures { result ≡ kind_at s.now at }
{
    if at < s.len() {
        kind_by(s[at])
    } else {
        Kind::Nothing
    }
}

// How many bytes a code point has in UTF-8.
pub fn width(v: u32) -> usize
    ensures { (result ≡ length (utf8 v)) × (result ≤ 4) }
{
    if v < 128 {
        return 1;
    }
    if v < 2048 {
        return 2;
    }
    if v < 65536 { 3 } else { 4 }
}

// The length of the string at a position, unescaped; 0 where no string stands. The plain bytes that it begins with are counted in a row, and what follows by how it is written.
pub fn length_at(s: &[u8], at: usize) -> usize
    ensures { result ≡ length_at s.now at }
{
    if text::byte(s, at) != 34 {
        return 0;
    }
    let first = at + 1;
    let mut i = text::past_plain(s, first);
    let mut n = i - first;
    loop {
        if 0 < text::short(s, i) {
            n += 1;
            i += 2;
            continue;
        }
        let b = text::byte(s, i);
        if b == 34 {
            return n;
        }
        if ordinary(b) {
            n += 1;
            i += 1;
            continue;
        }
        let e = text::long(s, i);
        if 0 < e {
            n += width(e / 16);
            i += (e % 16) as usize;
            continue;
        }
        let k = text::several(s, i);
        if k == 0 {
            return 0;
        }
        n += k;
        i += k;
    }
}

// So far the same, and x stands at k.
fn more(t: &[u8], k: usize, ok: bool, x: u32) -> bool
    ensures { result ≡ (ok && eqb x (peek t.now k)) }
{
    if ok { x == text::byte(t, k) } else { false }
}

// The bytes of a code point stand in a text at a position.
fn starts(t: &[u8], k: usize, v: u32) -> bool
    requires { k < 2 ^ 63 }
    ensures { result ≡ starts_from true (utf8 v) t.now k }
{
    if v < 128 {
        return more(t, k, true, v);
    }
    let k1 = k + 1;
    if v < 2048 {
        return more(t, k1, more(t, k, true, 192 + v / 64), 128 + v % 64);
    }
    let k2 = k1 + 1;
    if v < 65536 {
        let two = more(t, k1, more(t, k, true, 224 + v / 4096), 128 + v / 64 % 64);
        return more(t, k2, two, 128 + v % 64);
    }
    let two = more(
        t,
        k1,
        more(t, k, true, 240 + v / 262144),
        128 + v / 4096 % 64,
    );
    let three = more(t, k2, two, 128 + v / 64 % 64);
    let k3 = k2 + 1;
    more(t, k3, three, 128 + v % 64)
}

// A byte that is a character by itself, if it is no quote. Most are, and such are compared as bytes.
fn ordinary(b: u32) -> bool
    ensures { (result ≡ true → Ordinary b) × (result ≡ false → own b ≡ false) }
{
    if b < 32 {
        return false;
    }
    if 127 < b {
        return false;
    }
    b != 92
}

// The string at a position, unescaped, is a text; false where no string stands. No copy is made: a text with no room for a block is compared byte by byte.
pub fn same_as(s: &[u8], at: usize, t: &[u8]) -> bool
    ensures { result ≡ same_as s.now at t.now }
{
    if text::byte(s, at) != 34 {
        return false;
    }
    if t.len() < 16 {
        return begun(s, at + 1, t) == t.len();
    }
    same_long(s, at + 1, t)
}

// What is left of a string from a position on is a text: plain bytes are compared in blocks, and what is left then as `begun_rest` does.
fn same_long(s: &[u8], first: usize, t: &[u8]) -> bool
    requires { first ≤ length s.now }
    ensures { result ≡ is_text (rest s.now first) t.now }
{
    let n = alike_blocks(s, first, t, 0);
    begun_rest(s, first + n, t, n) == t.len()
}

// How many bytes at two positions are the same, up to the first that is no part of a character that stands for its own bytes: a control byte, a quote, a backslash.
fn same_bytes(s: &[u8], i: usize, t: &[u8], k: usize) -> usize
    requires { (i ≤ length s.now) × (k ≤ length t.now) }
    ensures { Equal s.now i t.now k result }
{
    let last = room(s, i, t, k);
    let mut n: usize = 0;
    while n < last {
        let b = s[i + n];
        if b != t[k + n] {
            return n;
        }
        if b < 128 {
            if !text::plain(b) {
                return n;
            }
        }
        n += 1;
    }
    n
}

// How many bytes at two positions are the same and are whole characters that stand for them; 0 where b, the first, is below 128. The characters are looked for among the
// bytes that are the same alone, so that each byte is passed over a few times at most, however the two go on.
fn raw_alike(s: &[u8], i: usize, t: &[u8], k: usize, b: u32) -> usize
    ensures { Raws s.now i t.now k result }
{
    if b < 128 {
        return 0;
    }
    if s.len() <= i {
        return 0;
    }
    if t.len() <= k {
        return 0;
    }
    let n = same_bytes(s, i, t, k);
    text::past_raw(&s[..i + n], i) - i
}

// Past the bytes of a code point that stand in a text at a position; past the end of the text if they do not.
fn past_code(t: &[u8], k: usize, v: u32) -> usize
    requires { k ≤ length t.now }
    ensures { Went t.now k v result }
{
    let other = t.len() + 1;
    if !starts(t, k, v) {
        return other;
    }
    let end = k + width(v);
    if t.len() < end { other } else { end }
}

// The character at a position, where b stands, as one number: its code point times 16, and how many bytes it has; 0 where none stands. Not for escapes of two bytes.
fn wide_code(s: &[u8], i: usize, b: u32) -> u32
    requires { (b ≡ peek s.now i) × (short_at s.now i ≡ 0) }
    ensures { Coded s.now i result }
{
    if b == 92 {
        return text::long(s, i);
    }
    match text::character(s, i) {
        text::Code::Of(v, j) => v * 16 + (j - i) as u32,
        text::Code::No(_) => 0,
    }
}

// The same for any character.
fn code_at(s: &[u8], i: usize, b: u32) -> u32
    requires { (b ≡ peek s.now i) × (b ≡ 34 → ⊥) }
    ensures { Coded s.now i result }
{
    if ordinary(b) {
        return b * 16 + 1;
    }
    let a = text::short(s, i);
    if 0 < a {
        return a * 16 + 2;
    }
    wide_code(s, i, b)
}

// The character of ASCII for which an escape of a backslash, a u and four digits at a position stands; 0 where none stands, and for the character 0.
pub fn ascii_escape(s: &[u8], i: usize) -> u32
    ensures { result ≡ ascii_at s.now i }
{
    let e = text::long(s, i);
    if e < 2048 { e / 16 } else { 0 }
}

// Where what is left of a string ends in a text, with which it agreed up to `start`; past the end of the text if it goes on otherwise. For `begun`, with any characters:
// those that cost least are tried first, and characters of several bytes that are the same in both are passed in a row.
fn begun_rest(s: &[u8], from: usize, t: &[u8], start: usize) -> usize
    requires { start ≤ length t.now }
    ensures { result ≡ ends_from (rest s.now from) t.now start }
{
    let other = t.len() + 1;
    let mut i = from;
    let mut end = start;
    while end <= t.len() {
        let a = text::short(s, i);
        if 0 < a {
            if text::byte(t, end) != a {
                return other;
            }
            end += 1;
            i += 2;
            continue;
        }
        let b = text::byte(s, i);
        if b == 34 {
            return end;
        }
        if ordinary(b) {
            if text::byte(t, end) != b {
                return other;
            }
            end += 1;
            i += 1;
            continue;
        }
        if b == 92 {
            let v = ascii_escape(s, i);
            if 0 < v {
                if text::byte(t, end) != v {
                    return other;
                }
                end += 1;
                i += 6;
                continue;
            }
        }
        let n = raw_alike(s, i, t, end, b);
        if 0 < n {
            i += n;
            end += n;
            continue;
        }
        let e = wide_code(s, i, b);
        if e == 0 {
            return other;
        }
        end = past_code(t, end, e / 16);
        i += (e % 16) as usize;
    }
    end
}

// What `begun_plain` gives of a text of a size where its first n bytes do not decide: two more than its size, and n. Where they are all of it, a string that goes on is another.
fn undecided(size: usize, n: usize) -> usize
    requires { size < 2 ^ 63 }
    ensures { (n < size → result ≡ size + 2 + n) × (size ≤ n → result ≡ size + 1) }
{
    if n < size { size + 2 + n } else { size + 1 }
}

// What `begun` gives where bytes decide it: such as are characters by themselves, or one that differs from the text's and is no backslash. Where another is met first,
// two more than the text has, and how many bytes were the same. Only `text::byte` is given the texts, so that they stay in registers through the loop.
fn begun_plain(s: &[u8], from: usize, t: &[u8]) -> usize
    ensures { (result ≤ length t.now + 1 → result ≡ ends_in (rest s.now from) t.now)
        × (length t.now + 2 ≤ result → Agrees s.now from t.now (result - length t.now - 2)) }
{
    let mut i = from;
    let mut n = 0;
    loop {
        let b = text::byte(s, i);
        if b == 34 {
            return n;
        }
        if b == 92 {
            return undecided(t.len(), n);
        }
        if text::byte(t, n) != b {
            return t.len() + 1;
        }
        if !ordinary(b) {
            return undecided(t.len(), n);
        }
        i += 1;
        n += 1;
    }
}

// How many bytes are left, unescaped, of a string that goes on at a position, if a text begins with them; one more than the text has if it does not, or the string
// goes wrong. Most strings have only bytes that are characters by themselves; from another character on, one is compared by `begun_rest`.
pub fn begun(s: &[u8], from: usize, t: &[u8]) -> usize
    ensures { result ≡ ends_in (rest s.now from) t.now }
{
    let n = begun_plain(s, from, t);
    if n <= t.len() + 1 {
        return n;
    }
    // (copies, so that the slices themselves stay in registers: what is handed on has to lie in memory)
    let string = s;
    let word = t;
    let k = n - t.len() - 2;
    begun_rest(string, from + k, word, k)
}

// 1 for a plain byte twice, so that they can be counted without a branch.
fn twice_one(b: u8, d: u8) -> usize
    ensures { (result ≤ 1) × (result ≡ 1 → twice b d ≡ true) }
{
    if b != d {
        return 0;
    }
    if text::plain(b) { 1 } else { 0 }
}

// The 16 bytes at two positions, of two texts or of one, are plain and the same. All are counted, with no way out between, since that becomes a few instructions for the
// 16 together.
fn twice_block(s: &[u8], i: usize, t: &[u8], k: usize) -> bool
    requires { (i + 16 ≤ length s.now) × (k + 16 ≤ length t.now) }
    ensures { result ≡ true → Alike s.now i t.now k 16 }
{
    let mut n: usize = 0;
    for j in 0..16 {
        n += twice_one(s[i + j], t[k + j]);
    }
    n == 16
}

// How many bytes are left in both texts from two positions on.
fn room(s: &[u8], i: usize, t: &[u8], k: usize) -> usize
    requires { (i ≤ length s.now) × (k ≤ length t.now) }
    ensures { (i + result ≤ length s.now) × (k + result ≤ length t.now) }
{
    let left = s.len() - i;
    let right = t.len() - k;
    if left < right { left } else { right }
}

// How many plain bytes at two positions are the same, by whole blocks.
fn alike_blocks(s: &[u8], i: usize, t: &[u8], k: usize) -> usize
    requires { (i ≤ length s.now) × (k ≤ length t.now) }
    ensures { Alike s.now i t.now k result }
{
    let last = room(s, i, t, k);
    let mut n: usize = 0;
    while 16 <= last - n {
        if !twice_block(s, i + n, t, k + n) {
            return n;
        }
        n += 16;
    }
    n
}

// How many bytes can be passed at two positions, since the same escapes of two bytes stand at both, in a row; 0 where the first are to be read.
fn short_twice(s: &[u8], i: usize, k: usize) -> usize
    ensures { Passed s.now i k result }
{
    let mut n: usize = 0;
    while 0 < text::short(s, i + n) {
        if text::byte(s, k + n) != 92 {
            return n;
        }
        if text::byte(s, i + n + 1) != text::byte(s, k + n + 1) {
            return n;
        }
        n += 2;
    }
    n
}

// The same where a backslash stands at both: by the letter after it, or by the number of a longer escape, which tells how many bytes it has.
fn escape_twice(s: &[u8], i: usize, k: usize) -> usize
    requires { (peek s.now i ≡ 92) × (peek s.now k ≡ 92) }
    ensures { Passed s.now i k result }
{
    let n = short_twice(s, i, k);
    if 0 < n {
        return n;
    }
    let e = text::long(s, i);
    if e == 0 {
        return 0;
    }
    if e != text::long(s, k) {
        return 0;
    }
    (e % 16) as usize
}

// How many bytes can be passed at two positions, where b and d stand, since they are the same and are whole characters; 0 where the characters are to be read.
fn row(s: &[u8], i: usize, k: usize, b: u32, d: u32) -> usize
    requires { (b ≡ peek s.now i) × (d ≡ peek s.now k) × (b ≡ 34 → ⊥) }
    ensures { Passed s.now i k result }
{
    if b != d {
        return 0;
    }
    if b == 92 {
        return escape_twice(s, i, k);
    }
    if ordinary(b) {
        return 1;
    }
    raw_alike(s, i, s, k, b)
}

// What is left of two strings from two positions on is one text; false where either goes wrong. Equal texts have equal characters; those that are written alike in both
// are not read.
fn same_rest(s: &[u8], p: usize, q: usize) -> bool
    ensures { result ≡ both_text (rest s.now p) (rest s.now q) }
{
    let mut i = p;
    let mut k = q;
    loop {
        let b = text::byte(s, i);
        let d = text::byte(s, k);
        if b == 34 {
            return d == 34;
        }
        if d == 34 {
            return false;
        }
        let n = row(s, i, k, b, d);
        if 0 < n {
            i += n;
            k += n;
            continue;
        }
        let e = code_at(s, i, b);
        if e == 0 {
            return false;
        }
        let f = code_at(s, k, d);
        if f == 0 {
            return false;
        }
        if e / 16 != f / 16 {
            return false;
        }
        i += (e % 16) as usize;
        k += (f % 16) as usize;
    }
}

// A byte that is a character by itself.
fn itself(b: u32) -> bool
    ensures { result ≡ true → Ordinary b × (b ≡ 34 → ⊥) }
{
    if ordinary(b) { b != 34 } else { false }
}

// Two bytes that are characters by themselves.
fn both_itself(b: u32, d: u32) -> bool
    ensures { result ≡ true → (Ordinary b × (b ≡ 34 → ⊥)) × (Ordinary d × (d ≡ 34 → ⊥)) }
{
    if itself(b) { itself(d) } else { false }
}

// The same as `same_rest`. Most texts that differ do so among their first bytes: these are compared one by one, with no call between, and then blocks of them.
fn same_first(s: &[u8], p: usize, q: usize) -> bool
    requires { (p ≤ length s.now) × (q ≤ length s.now) }
    ensures { result ≡ both_text (rest s.now p) (rest s.now q) }
{
    let mut i = p;
    let mut k = q;
    let mut left: u8 = 8;
    while 0 < left {
        let b = text::byte(s, i);
        let d = text::byte(s, k);
        if !both_itself(b, d) {
            return same_rest(s, i, k);
        }
        if b != d {
            return false;
        }
        i += 1;
        k += 1;
        left -= 1;
    }
    let n = alike_blocks(s, i, s, k);
    same_rest(s, i + n, k + n)
}

// The strings at two positions, unescaped, are one text; false where either is none.
pub fn same_texts(s: &[u8], p: usize, q: usize) -> bool
    ensures { result ≡ same_texts s.now p q }
{
    if text::byte(s, p) != 34 {
        return false;
    }
    if text::byte(s, q) != 34 {
        return false;
    }
    same_first(s, p + 1, q + 1)
}

// A point or an e: what stands in a number with a fraction or an exponent.
fn marks(b: u8) -> bool
    ensures { result ≡ (eqb b 46 || (eqb b 101 || eqb b 69)) }
{
    if b == 46 {
        return true;
    }
    either(b, 101, 69)
}

// A point or an e stands from a position up to an end.
fn broken(s: &[u8], from: usize, end: usize) -> bool
    requires { end ≤ length s.now }
    ensures { result ≡ brokenOf (part s.now from end) }
{
    let mut i = from;
    while i < end {
        if marks(s[i]) {
            return true;
        }
        i += 1;
    }
    false
}

// What a digit is worth.
fn worth(b: u8) -> u64
    ensures { (result ≡ b - 48) × (result < 256) }
{
    if b < 48 { 0 } else { (b - 48) as u64 }
}

// One digit more, with every number past 64 bits told as the greatest of them.
fn grown(v: u64, d: u64) -> u64
    requires { d < 256 }
    ensures { result ≡ min (v * 10 + d) 18446744073709551615 }
{
    if v <= (18446744073709551615 - d) / 10 {
        v * 10 + d
    } else {
        18446744073709551615
    }
}

// The number that the digits from a position up to an end write, or the greatest of 64 bits for any past it.
fn natural(s: &[u8], from: usize, end: usize) -> u64
    requires { end ≤ length s.now }
    ensures { result ≡ min (decimal 0 (part s.now from end)) 18446744073709551615 }
{
    let mut v: u64 = 0;
    let mut i = from;
    while i < end {
        v = grown(v, worth(s[i]));
        i += 1;
    }
    v
}

// A sign and a number as an integer of 64 bits, or below, or above. There is no -0, and !(n - 1) is -n.
fn within(negative: bool, n: u64) -> Integer
    ensures { result ≡ ranged (whole (pick negative (neg_ℤ (pos n)) (pos n))) }
{
    if negative {
        if n == 0 {
            return Integer::In(0);
        }
        if n <= 0x8000_0000_0000_0000 {
            Integer::In(!((n - 1) as i64))
        } else {
            Integer::Below
        }
    } else if n < 0x8000_0000_0000_0000 {
        Integer::In(n as i64)
    } else {
        Integer::Above
    }
}

// The integer that the characters from a position up to an end write.
fn written(s: &[u8], at: usize, end: usize) -> Integer
    requires { end ≤ length s.now }
    ensures { result ≡ ranged (integer (part s.now at end)) }
{
    if broken(s, at, end) {
        return Integer::None;
    }
    if text::byte(s, at) == 45 {
        return within(true, natural(s, at + 1, end));
    }
    within(false, natural(s, at, end))
}

// The integer at a position: no fraction, no exponent, digits of any length.
pub fn integer_at(s: &[u8], at: usize) -> Integer
    ensures { result ≡ integer_at s.now at }
{
    match text::number(s, at) {
        text::Scan::Done(end) => written(s, at, end),
        text::Scan::Bad(_) => Integer::None,
        text::Scan::Deep(_) => Integer::None,
    }
}
