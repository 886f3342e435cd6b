// Asks the examples of document 01 and some small graphs, one event each, and writes each answer as `kind time steps`: kinds 1 to 3 are
// the graphs, 4 to 6 the drops.
#![tactic(auto)]

use std::io;

// Writes a number and a blank.
fn number(rt: &impl Print, n: u64) -> io::Result<()> {
    print!(rt; "{n} ")
}

fn of_byte(x: u8) -> u64 {
    x as u64
}

fn of_short(x: u16) -> u64 {
    x as u64
}

// Asks for one event and writes its answer. A time that was placed is not negative, so that its pattern is the time.
fn ask(
    rt: &impl Print,
    a: &[u16],
    x: &[i64],
    b: &[u16],
    y: &[i64],
    pinned: u32,
    trace: u16,
    clock: u16,
    reading: i64,
) -> io::Result<()> {
    let on = [clock; 1];
    let reads = [reading; 1];
    let mut times = [0i64; 1];
    let mut kinds = [0u8; 1];
    let mut steps = [0u16; 1];
    let mut matrix = [0u8; numbers::CLOCKS * numbers::CLOCKS];
    clocks::answers(
        a,
        x,
        b,
        y,
        2,
        3,
        pinned,
        numbers::Clock(trace),
        &on,
        &reads,
        &mut times,
        &mut kinds,
        &mut steps,
        &mut matrix,
    );
    number(rt, of_byte(kinds[0]))?;
    number(rt, whole::pattern_of(times[0]))?;
    rt.println(of_short(steps[0]))
}

// A log file, pinned to the second machine's BOOTTIME by an offset: with trace time on the host's BOOTTIME, and on that clock itself.
fn log(rt: &impl Print, offset: i64, trace: u16) -> io::Result<()> {
    let a = [194u16; 1];
    let x = [0i64; 1];
    let b = [11u16; 1];
    let y = [offset; 1];
    ask(rt, &a, &x, &b, &y, 4, trace, 194, 7)
}

// The pair of clocks 0 and 1 with the list (100, 1000), (200, 1110).
fn pair(rt: &impl Print, trace: u16, clock: u16, reading: i64) -> io::Result<()> {
    let a = [0u16; 2];
    let x = [100i64, 200];
    let b = [1u16; 2];
    let y = [1000i64, 1110];
    ask(rt, &a, &x, &b, &y, 0, trace, clock, reading)
}

// The pair of clocks 0 and 1 with one correspondence.
fn one(rt: &impl Print, x: i64, y: i64, reading: i64) -> io::Result<()> {
    let a = [0u16; 1];
    let b = [1u16; 1];
    let xs = [x; 1];
    let ys = [y; 1];
    ask(rt, &a, &xs, &b, &ys, 0, 1, 0, reading)
}

// No correspondences: guesses alone.
fn guess(rt: &impl Print, pinned: u32, trace: u16, clock: u16) -> io::Result<()> {
    let a = [0u16; 0];
    let x = [0i64; 0];
    ask(rt, &a, &x, &a, &x, pinned, trace, clock, 9)
}

fn main(rt: HostRuntime) -> io::Result<()> {
    log(&rt, 250000000, 5)?;
    log(&rt, 250000000, 11)?;
    log(&rt, -8, 11)?;
    pair(&rt, 1, 0, 150)?;
    pair(&rt, 1, 0, 199)?;
    pair(&rt, 1, 0, 200)?;
    pair(&rt, 1, 0, 50)?;
    pair(&rt, 0, 1, 1105)?;
    one(&rt, 0, 1, 9223372036854775807)?;
    one(&rt, 9223372036854775807, 9223372036854775807, -5)?;
    guess(&rt, 0, 5, 5)?;
    guess(&rt, 0, 0, 6)?;
    guess(&rt, 0, 2, 8)?;
    guess(&rt, 0, 2, 6)?;
    guess(&rt, 0, 0, 12)?;
    guess(&rt, 0, 0, 193)?;
    guess(&rt, 2, 0, 193)
}
