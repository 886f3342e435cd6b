// Trace time, and which files are pinned, over the table of what is known of files and sources.
#![tactic(auto)]

ghost use Rattle.std.specs.Prelude.{◌≡◌, ◌<◌};
ghost use Rattle.merged.specs.Refusals.{is_pinned};
ghost use Rattle.merged.specs.Timeline.{bits_of, claims as claims_of, domain_clock, claimed as claimed_of, trace_by};
ghost use Rattle.checks.specs.Table.{file_by, facts_by};
ghost use Rattle.traced.specs.laws.Files.{claim_from};

use checks::{BASE, CLAIM, CONTAINER, PINNED, TIE};
use manifest::Timeline;
use numbers::{Clock, File, Machine};

// The clock of a domain on a machine; no clock for numbers that are none of these.
fn clock_of(d: u32, m: u32) -> Clock
    ensures { result.0 ≡ domain_clock d m }
{
    if 6 < d {
        return numbers::domain_clock(0, Machine(0));
    }
    if 31 < m {
        return numbers::domain_clock(0, Machine(0));
    }
    numbers::domain_clock(d as u8, Machine(m as u8))
}

// Whether file f claims a clock for trace time, and is neither pinned nor a container.
fn claims(t: &[u32; 324], f: usize) -> bool
    requires { f < 32 }
    ensures { result ≡ claims_of (facts_by t.now) (file_by t.now f) }
{
    if t[4 + (6 * f + CLAIM)] == 0 {
        return false;
    }
    if t[4 + (6 * f + TIE)] == PINNED {
        return false;
    }
    t[4 + (6 * f + CONTAINER)] == 0
}

// The claimed clock of the first file that claims one; else file 0's private clock.
fn claimed(t: &[u32; 324]) -> Clock
    ensures { result.0 ≡ claimed_of (facts_by t.now) (claim_from t.now 0) }
{
    let n = checks::files(t);
    for f in 0..n {
        if claims(t, f) {
            return clock_of(t[4 + (6 * f + CLAIM)], t[4 + (6 * f + BASE)]);
        }
    }
    numbers::private_clock(File(0))
}

// The trace-time clock, given what `trace_time` asks for.
pub fn clock(t: &[u32; 324], asked: Timeline) -> Clock
    ensures { result.0 ≡ trace_by (facts_by t.now) asked }
{
    match asked {
        Timeline::Set(d, m) => numbers::domain_clock(d, m),
        Timeline::Unset => claimed(t),
    }
}

// Bit k says whether file k is pinned: from the last file on, each is put in below those after it.
pub fn pinned(t: &[u32; 324]) -> u32
    ensures { result ≡ bits_of (λ f. is_pinned f.tie) (facts_by t.now).files }
{
    let mut bits: u32 = 0;
    for k in (0..checks::files(t)).rev() {
        bits = 2 * bits;
        if t[4 + (6 * k + TIE)] == PINNED {
            bits += 1;
        }
    }
    bits
}
