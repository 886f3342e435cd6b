// The merge for programs in C and Rust: one function, whose answer is plain numbers.
#![tactic(auto)]

ghost use Rattle.std.specs.Prelude.{◌≡◌, ◌<◌, pos, length, replicate};
ghost use Rattle.merged.specs.Answers.{told};
ghost use Rattle.merged.specs.Merged.{merged};
ghost use Rattle.merge.specs.Memories.{room_of};
ghost use Rattle.narguvesh_c.specs.Plain.{number_of, clock_of, counts_of, summary_of, events_in};

use merged::Summary;
use numbers::Clock;
use refusals::Refusal;

// What is told of a sheet without files. specs/Plain.antt says the same of `untraced`.
const UNTRACED: u32 = 0xffffffff;

// The trace-time clock's number.
fn clock_number(trace: Option<Clock>) -> u32
    ensures { result ≡ clock_of trace }
{
    match trace {
        Some(clock) => u32::from(clock.0),
        None => UNTRACED,
    }
}

// What an accepted merge counts, as the summary has it.
fn counted(s: Summary) -> [u32; 4]
    requires { s.events < 4294967296 }
    ensures { result ≡ counts_of s }
{
    let machines = u32::from(s.machines);
    let events = s.events as u32;
    [u32::from(s.files), machines, events, clock_number(s.trace)]
}

// Writes the summary, zeros at a refusal, and gives the refusal's number, 0 of an accepted merge.
fn tell(answer: Result<Summary, Refusal>, summary: &mut [u32; 4]) -> u8
    requires { events_in (told answer) < 4294967296 }
    ensures { (result ≡ number_of (told answer)) × (summary.new ≡ summary_of (told answer)) }
{
    match answer {
        Ok(s) => {
            *summary = counted(s);
            0
        }
        Err(refusal) => {
            summary.fill(0);
            refusal.number()
        }
    }
}

// Merges. The number that is returned is the refusal's, 0 of an accepted merge; the summary is files, machines, events and the
// trace-time clock. What the lent memories hold at the end is what `merge` promises.
#[unsafe(no_mangle)]
pub extern "C" fn narguvesh_merge(
    manifest: &[u8],
    sheet: &[u8],
    machines: &mut [u8],
    times: &mut [i64],
    kinds: &mut [u8],
    steps: &mut [u16],
    matrix: &mut [u8],
    readings: &mut [i64],
    clocks: &mut [u16],
    summary: &mut [u32; 4],
) -> u8
    ensures number { result ≡ number_of (merged manifest.now sheet.now (room_of machines.old times.old kinds.old steps.old matrix.old readings.old clocks.old)).answer }
    ensures summary { summary.new ≡ summary_of (merged manifest.now sheet.now (room_of machines.old times.old kinds.old steps.old matrix.old readings.old clocks.old)).answer }
    ensures machines { machines.new ≡ (merged manifest.now sheet.now (room_of machines.old times.old kinds.old steps.old matrix.old readings.old clocks.old)).machines }
    ensures times { times.new ≡ (merged manifest.now sheet.now (room_of machines.old times.old kinds.old steps.old matrix.old readings.old clocks.old)).times }
    ensures kinds { kinds.new ≡ (merged manifest.now sheet.now (room_of machines.old times.old kinds.old steps.old matrix.old readings.old clocks.old)).kinds }
    ensures steps { steps.new ≡ (merged manifest.now sheet.now (room_of machines.old times.old kinds.old steps.old matrix.old readings.old clocks.old)).steps }
    ensures matrix { matrix.new ≡ replicate (length matrix.old) 0 }
    ensures readings { readings.new ≡ replicate (length readings.old) (pos 0) }
    ensures clocks { clocks.new ≡ replicate (length clocks.old) 0 }
{
    let answer = merge::merge(
        manifest, sheet, machines, times, kinds, steps, matrix, readings, clocks,
    );
    tell(answer, summary)
}
