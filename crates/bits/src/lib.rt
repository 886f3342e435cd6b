// A slice of bytes as bits: a cursor over it, and the fields of up to 64 bits that it reads, the most significant bit first.
#![tactic(auto)]

ghost use Rattle.std.specs.Prelude.{◌≡◌, ◌+◌, ◌*◌, ◌%◌, ◌^◌, ◌<◌, ◌≤◌, length, get_or};
ghost use Rattle.bits.specs.Bits.{number, end_of, field_at, taken_at, reading_at};

// A bit position, from the most significant bit of byte 0.
#[derive(Clone, Copy, Debug, PartialEq, Eq)]
pub struct Cursor {
    pub at: usize,
}

// What was read, and the cursor past it.
#[derive(Clone, Copy, Debug, PartialEq, Eq)]
pub struct Taken<T> {
    pub value: T,
    pub next: Cursor,
}

// Byte k, 0 past the end, so that no reader of bits has a case for the end.
fn byte(s: &[u8], k: usize) -> u8
    ensures { result ≡ get_or s.now k 0 }
{
    s.get(k).copied().unwrap_or(0)
}

// The n bits at position p, which lie in one byte: what follows them is shifted out, what precedes them cut away.
fn chunk(s: &[u8], p: usize, n: usize) -> u64
    requires { p % 8 + n ≤ 8 }
    ensures { result ≡ number s.now p n }
{
    (u64::from(byte(s, p / 8)) >> (8 - p % 8 - n)) % (1 << n)
}

// The 64 bits that start r bits into byte i: eight bytes, the first r bits shifted out, and r bits of the ninth.
fn word(s: &[u8], i: usize, r: usize) -> u64
    requires { (r < 8) × (i + 9 ≤ length s.now) }
    ensures { result ≡ number s.now (8 * i + r) 64 }
{
    let eight = u64::from_be_bytes([
        s[i],
        s[i + 1],
        s[i + 2],
        s[i + 3],
        s[i + 4],
        s[i + 5],
        s[i + 6],
        s[i + 7],
    ]);
    (eight << r) + (u64::from(s[i + 8]) >> (8 - r))
}

// The w bits at position `at` as a number, taken byte by byte: in each step as many of those that are left as lie in one byte.
fn by_bytes(s: &[u8], at: usize, w: usize) -> u64
    requires { (w ≤ 64) × (at + w < 2 ^ 64) }
    ensures { result ≡ number s.now at w }
{
    let mut v = 0;
    let mut k = 0;
    while k < w {
        let p = at + k;
        let n = (w - k).min(8 - p % 8);
        v = (v << n) + chunk(s, p, n);
        k += n;
    }
    v
}

// The w bits at position `at` as a number: the first of 64 that are read at once where the slice has a ninth byte, as it mostly has.
fn gather(s: &[u8], at: usize, w: usize) -> u64
    requires { (w ≤ 64) × (at + w < 2 ^ 64) }
    ensures { result ≡ number s.now at w }
{
    let i = at / 8;
    if 0 < w && i + 9 <= s.len() {
        word(s, i, at % 8) >> (64 - w)
    } else {
        by_bytes(s, at, w)
    }
}

// The position past `width` bits at `at`, if a number holds so many, and a cursor can stand past them.
#[tactic(auto, unfolding(crate::specs::Bits::may_stand))]
fn end_of(at: usize, width: u32) -> Option<usize>
    ensures { result ≡ end_of at width }
{
    if width <= 64 {
        at.checked_add(width as usize)
    } else {
        None
    }
}

impl Cursor {
    // The next `width` bits, most significant first, and the cursor past them, if all of them lie in the slice.
    pub fn field(self, s: &[u8], width: u32) -> Option<Taken<u64>>
        ensures { result ≡ field_at s.now self.at width }
    {
        let end = end_of(self.at, width)?;
        // Counted in bytes, since the bits of a slice may be too many for a usize.
        if s.len() < end.div_ceil(8) {
            return None;
        }
        Some(self.take(s, width))
    }

    // The same where bits past the end are 0, for readers that judge the end once, after several fields.
    pub fn take(self, s: &[u8], width: u32) -> Taken<u64>
        ensures { result ≡ taken_at s.now self.at width }
    {
        match end_of(self.at, width) {
            Some(end) => Taken {
                value: gather(s, self.at, width as usize),
                next: Cursor { at: end },
            },
            None => Taken {
                value: 0,
                next: self,
            },
        }
    }

    // The next 64 bits as a reading, in two's complement.
    #[tactic(auto, unfolding(crate::specs::Bits::reading_at))]
    pub fn reading(self, s: &[u8]) -> Option<Taken<i64>>
        ensures { result ≡ reading_at s.now self.at }
    {
        self.field(s, 64).map(|bits| Taken {
            value: bits.value.cast_signed(),
            next: bits.next,
        })
    }
}
