// Memories set to zeros: what a caller lends, all of it or the work memories alone.
#![tactic(auto)]

ghost use Rattle.std.specs.Prelude.{◌≡◌, ◌++◌, ◌-◌, pos, length, take, replicate};

// Sets the work memories to zeros, the matrix past its first `kept` bytes.
pub fn work(kept: usize, matrix: &mut [u8], readings: &mut [i64], clocks: &mut [u16])
    ensures matrix { matrix.new ≡ take kept matrix.old ++ replicate (length matrix.old - kept) 0 }
    ensures readings { readings.new ≡ replicate (length readings.old) (pos 0) }
    ensures clocks { clocks.new ≡ replicate (length clocks.old) 0 }
{
    let front = kept.min(matrix.len());
    matrix[front..].fill(0);
    readings.fill(0);
    clocks.fill(0);
}

// Sets all lent memories to zeros: one parameter for each that the C interface lends.
pub fn all(
    machines: &mut [u8],
    times: &mut [i64],
    kinds: &mut [u8],
    steps: &mut [u16],
    matrix: &mut [u8],
    readings: &mut [i64],
    clocks: &mut [u16],
)
    ensures machines { machines.new ≡ replicate (length machines.old) 0 }
    ensures times { times.new ≡ replicate (length times.old) (pos 0) }
    ensures kinds { kinds.new ≡ replicate (length kinds.old) 0 }
    ensures steps { steps.new ≡ replicate (length steps.old) 0 }
    ensures matrix { matrix.new ≡ replicate (length matrix.old) 0 }
    ensures readings { readings.new ≡ replicate (length readings.old) (pos 0) }
    ensures clocks { clocks.new ≡ replicate (length clocks.old) 0 }
{
    machines.fill(0);
    times.fill(0);
    kinds.fill(0);
    steps.fill(0);
    work(0, matrix, readings, clocks);
}
