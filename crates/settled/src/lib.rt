// What was told of a manifest and a sheet, settled in memory that the caller lends: a refusal leaves zeros, and what is known is answered.
#![tactic(auto)]

ghost use Rattle.std.specs.Prelude.{◌≡◌, pos, length, replicate};
ghost use Rattle.merged.specs.Answers.{told as answer_told};
ghost use Rattle.placed.specs.Told.{as_told};
ghost use Rattle.joins.specs.Joined.{roomy_for};
ghost use Rattle.settled.specs.Settled.{room_in, fitted_in, settled_in};

use merged::{Room, Summary};
use placed::Known;
use refusals::Refusal;

// A byte for each two clocks.
const CELLS: usize = numbers::CLOCKS * numbers::CLOCKS;

// Whether the lent memories are long enough for what is known.
fn is_roomy(known: Known, room: Room) -> bool
    ensures { result ≡ roomy_for known.sources known.given.events room }
{
    let events = known.given.events;
    let asked_and_lent = [
        (known.sources, room.machines),
        (events, room.times),
        (events, room.kinds),
        (events, room.steps),
        (CELLS, room.matrix),
        (events, room.readings),
        (events, room.clocks),
    ];
    asked_and_lent.iter().all(|(asked, lent)| *asked <= *lent)
}

// What was told, or the refusal of a lent memory that is too short for it.
pub fn fitted(told: Result<Known, Refusal>, room: Room) -> Result<Known, Refusal>
    ensures { as_told result ≡ fitted_in room (as_told told) }
{
    let known = told?;
    if !is_roomy(known, room) {
        return Err(Refusal::MemoryTooShort);
    }
    Ok(known)
}

// Settles: the memories may hold anything. A refusal leaves zeros alone; what is known is answered as answered::answer does, and zeros are left
// in the work memories. (They are parameters: each clause on a struct of `&mut` would also say that its fields are the same references.)
pub fn settle<'a>(
    told: Result<Known, Refusal>,
    t: &[u32; 324],
    b: &[u8],
    a: &'a [u16],
    x: &'a [i64],
    c: &'a [u16],
    y: &'a [i64],
    machines: &mut [u8],
    times: &mut [i64],
    kinds: &mut [u8],
    steps: &mut [u16],
    matrix: &mut [u8],
    readings: &mut [i64],
    clocks: &mut [u16],
) -> Result<Summary, Refusal>
    ensures answer { answer_told result ≡ (settled_in t.now b.now a.now x.now c.now y.now clocks.old readings.old (room_in machines.old times.old kinds.old steps.old matrix.old readings.old clocks.old) (as_told told)).answer }
    ensures machines { machines.new ≡ (settled_in t.now b.now a.now x.now c.now y.now clocks.old readings.old (room_in machines.old times.old kinds.old steps.old matrix.old readings.old clocks.old) (as_told told)).machines }
    ensures times { times.new ≡ (settled_in t.now b.now a.now x.now c.now y.now clocks.old readings.old (room_in machines.old times.old kinds.old steps.old matrix.old readings.old clocks.old) (as_told told)).times }
    ensures kinds { kinds.new ≡ (settled_in t.now b.now a.now x.now c.now y.now clocks.old readings.old (room_in machines.old times.old kinds.old steps.old matrix.old readings.old clocks.old) (as_told told)).kinds }
    ensures steps { steps.new ≡ (settled_in t.now b.now a.now x.now c.now y.now clocks.old readings.old (room_in machines.old times.old kinds.old steps.old matrix.old readings.old clocks.old) (as_told told)).steps }
    ensures matrix { matrix.new ≡ replicate (length matrix.old) 0 }
    ensures readings { readings.new ≡ replicate (length readings.old) (pos 0) }
    ensures clocks { clocks.new ≡ replicate (length clocks.old) 0 }
{
    match told {
        Ok(known) => Ok(answered::answer(
            t, b, a, x, c, y, known, machines, times, kinds, steps, matrix, readings, clocks,
        )),
        Err(refusal) => {
            zeros::all(machines, times, kinds, steps, matrix, readings, clocks);
            Err(refusal)
        }
    }
}
