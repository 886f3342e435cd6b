// The merge: from a manifest's bytes and a sheet's bytes to the answer, in memory that the caller lends.
#![tactic(auto)]

ghost use Rattle.std.specs.Prelude.{◌≡◌, pos, length, replicate};
ghost use Rattle.merged.specs.Answers.{told};
ghost use Rattle.merged.specs.Merged.{merged};
ghost use Rattle.merge.specs.Memories.{room_of};

use merged::{Room, Summary};
use refusals::Refusal;

// The most correspondences that count: 32 entries and 256 snapshots.
const LINKS: usize = 288;

// Merges: reads the manifest and the sheet, and answers a refusal, 1 to 38, or what the merge counts. The memories are lent by the caller and
// may hold anything. At acceptance `machines` holds the machine of each source, and `times`, `kinds` and `steps` each event's answer, as
// clocks::answers gives them; zeros follow, and the work memories `matrix`, `readings` and `clocks` hold zeros. A refusal leaves zeros alone.
pub fn merge(
    manifest: &[u8],
    sheet: &[u8],
    machines: &mut [u8],
    times: &mut [i64],
    kinds: &mut [u8],
    steps: &mut [u16],
    matrix: &mut [u8],
    readings: &mut [i64],
    clocks: &mut [u16],
) -> Result<Summary, Refusal>
    ensures answer { told result ≡ (merged manifest.now sheet.now (room_of machines.old times.old kinds.old steps.old matrix.old readings.old clocks.old)).answer }
    ensures machines { machines.new ≡ (merged manifest.now sheet.now (room_of machines.old times.old kinds.old steps.old matrix.old readings.old clocks.old)).machines }
    ensures times { times.new ≡ (merged manifest.now sheet.now (room_of machines.old times.old kinds.old steps.old matrix.old readings.old clocks.old)).times }
    ensures kinds { kinds.new ≡ (merged manifest.now sheet.now (room_of machines.old times.old kinds.old steps.old matrix.old readings.old clocks.old)).kinds }
    ensures steps { steps.new ≡ (merged manifest.now sheet.now (room_of machines.old times.old kinds.old steps.old matrix.old readings.old clocks.old)).steps }
    ensures matrix { matrix.new ≡ replicate (length matrix.old) 0 }
    ensures readings { readings.new ≡ replicate (length readings.old) (pos 0) }
    ensures clocks { clocks.new ≡ replicate (length clocks.old) 0 }
{
    let mut t: [u32; 324] = [0; 324];
    let mut a = [0u16; LINKS];
    let mut x = [0i64; LINKS];
    let mut c = [0u16; LINKS];
    let mut y = [0i64; LINKS];
    let room = Room {
        machines: machines.len(),
        times: times.len(),
        kinds: kinds.len(),
        steps: steps.len(),
        matrix: matrix.len(),
        readings: readings.len(),
        clocks: clocks.len(),
    };
    let both = known::read(manifest, sheet, &mut t, &mut a, &mut x, &mut c, &mut y);
    let found = settled::fitted(both, room);
    settled::settle(
        found, &t, sheet, &a, &x, &c, &y, machines, times, kinds, steps, matrix, readings, clocks,
    )
}
