// Readings and offsets, 64-bit two's complement, as whole numbers: their patterns, their keys, the exact sum t + y - x, and the
// conversion of a reading along a list of correspondences.
#![tactic(auto)]

ghost use Rattle.std.specs.Prelude.{◌≡◌, length};
ghost use Rattle.std.specs.Int.{w64};
ghost use Rattle.std.proofs.Common.{of_z, to_z};
ghost use Rattle.whole.specs.Whole.{excess, of_excess, shifted_of};
ghost use Rattle.whole.specs.Pairs.{pairs, better, place_for, converted, converted_back};

// 2^63: what a key is in excess of its reading.
const HALF: u64 = 0x8000_0000_0000_0000;

// The two's complement pattern of x.
pub fn pattern_of(x: i64) -> u64
    ensures { result ≡ of_z w64 x }
{
    x.cast_unsigned()
}

// The reading whose two's complement pattern is u: a field of 64 bits is read by it.
pub fn of_pattern(u: u64) -> i64
    ensures { result ≡ to_z w64 u }
{
    u.cast_signed()
}

// x + 2^63: readings as unsigned numbers in the same order, to sort and to search by.
pub fn key(x: i64) -> u64
    ensures { result ≡ excess x }
{
    pattern_of(x).wrapping_add(HALF)
}

// k - 2^63: the reading whose key is k.
pub fn of_key(k: u64) -> i64
    ensures { result ≡ of_excess k }
{
    of_pattern(k.wrapping_sub(HALF))
}

// t + y - x, exactly, where 64 bits hold it: subtracted and added with wrapping. As a number of 64 bits the difference is 2^64 too large where t is below
// x; the sum is held where the key of y brings that carry, or where neither is so.
pub fn shifted(t: i64, x: i64, y: i64) -> Option<i64>
    ensures { result ≡ shifted_of t x y }
{
    let difference = t.wrapping_sub(x);
    let (_, carry) = pattern_of(difference).overflowing_add(key(y));
    if (t < x) == carry {
        Some(difference.wrapping_add(y))
    } else {
        None
    }
}

// Whether x serves t better than b, so that the search below is one test for each x.
fn closer(t: i64, b: i64, x: i64) -> bool
    ensures { result ≡ better t b x }
{
    if b <= t { b < x && x <= t } else { x < b }
}

// The place of the x that carries t: of the greatest x at most t, else of the smallest x; of equals the first. 0 where there is none.
pub fn pick<'a>(xs: &'a [i64], t: i64) -> usize
    ensures { result ≡ place_for t xs.now }
{
    let mut best = 0;
    for i in 1..xs.len() {
        if closer(t, xs[best], xs[i]) {
            best = i;
        }
    }
    best
}

// t on the other clock, by the correspondence that carries it; None where there is none, or where 64 bits do not hold the sum.
pub fn convert<'a>(xs: &'a [i64], ys: &'a [i64], t: i64) -> Option<i64>
    ensures { result ≡ converted t (pairs xs.now ys.now) }
{
    let n = xs.len().min(ys.len());
    let k = pick(&xs[..n], t);
    shifted(t, *xs.get(k)?, *ys.get(k)?)
}

// The same backwards: u, read on the clock of the ys, on that of the xs.
pub fn convert_back<'a>(xs: &'a [i64], ys: &'a [i64], u: i64) -> Option<i64>
    ensures { result ≡ converted_back u (pairs xs.now ys.now) }
{
    convert(ys, xs, u)
}
