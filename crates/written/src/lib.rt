// The lines that the programs write, as bytes.
#![tactic(auto)]

ghost use Rattle.std.specs.Prelude.{◌≡◌, ◌++◌, ◌+◌, ◌-◌, ◌*◌, ◌≤◌, ◌<◌, pos, length, take, get_or};
ghost use Rattle.manifest.specs.Names.{bytes};
ghost use Rattle.merged.specs.Merged.{padded};
ghost use Rattle.written.specs.Written.{decimal, signed, trace_text, numbered, first_line, event_line, events_of, event_lines, lines_in};
ghost use Rattle.written.specs.laws.Put.{Put};

use merged::Summary;
use numbers::Clock;

// A text is put into a memory from a place on; the place past it.
fn put(text: &[u8], at: usize, out: &mut [u8]) -> usize
    requires { at + length text.now ≤ length out.old }
    ensures { Put out.old at text.now result out.new }
{
    let end = at + text.len();
    out[at..end].copy_from_slice(text);
    end
}

// The digit of a number below ten.
fn digit(n: u64) -> u8
    requires { n < 10 }
    ensures { result ≡ 48 + n }
{
    48 + n as u8
}

// A number is put into a line: its tenth first, then its last digit.
fn put_decimal(n: u64, at: usize, out: &mut [u8; 96]) -> usize
    requires { (length out.old ≡ 96) × (at + length (decimal n) ≤ 96) }
    ensures { Put out.old at (decimal n) result out.new }
{
    if n < 10 {
        out[at] = digit(n);
        return at + 1;
    }
    let end = put_decimal(n / 10, at, out);
    out[end] = digit(n % 10);
    end + 1
}

// A whole number is put into a line, by its pattern: -2^63 has a distance from zero, and no negation that an i64 holds.
fn put_signed(z: i64, at: usize, out: &mut [u8; 96]) -> usize
    requires { (length out.old ≡ 96) × (at + length (signed z) ≤ 96) }
    ensures { Put out.old at (signed z) result out.new }
{
    let p = whole::pattern_of(z);
    if p < 0x8000_0000_0000_0000 {
        return put_decimal(p, at, out);
    }
    let next = put(b"-", at, out);
    put_decimal(!p + 1, next, out)
}

// What a placed event is told by is put into a line.
fn put_placed(time: i64, graph: u8, steps: u16, at: usize, out: &mut [u8; 96]) -> usize
    requires { (length out.old ≡ 96) × (at ≤ 20) }
    ensures { (result ≤ at + 46) × Put out.old at (bytes " at " ++ (signed time ++ (bytes " graph " ++ (decimal graph ++ (bytes " steps " ++ decimal steps))))) result out.new }
{
    let a = put(b" at ", at, out);
    let b = put_signed(time, a, out);
    let c = put(b" graph ", b, out);
    let d = put_decimal(graph as u64, c, out);
    let e = put(b" steps ", d, out);
    put_decimal(steps as u64, e, out)
}

// What a dropped event is told by is put into a line.
fn put_dropped(drop: u8, at: usize, out: &mut [u8; 96]) -> usize
    requires { (length out.old ≡ 96) × (at ≤ 20) }
    ensures { (result ≤ at + 12) × Put out.old at (bytes " dropped " ++ decimal drop) result out.new }
{
    let a = put(b" dropped ", at, out);
    put_decimal(drop as u64, a, out)
}

// The trace-time clock is put into a line.
fn put_trace(trace: Option<Clock>, at: usize, out: &mut [u8; 96]) -> usize
    requires { (length out.old ≡ 96) × (at ≤ 32) }
    ensures { (result ≤ at + 5) × Put out.old at (trace_text trace) result out.new }
{
    match trace {
        Some(clock) => put_decimal(clock.0 as u64, at, out),
        None => put(b"-", at, out),
    }
}

// What an accepted merge is told by is put at the start of a line.
fn put_summary(files: u8, machines: u8, trace: Option<Clock>, out: &mut [u8; 96]) -> usize
    requires { length out.old ≡ 96 }
    ensures { (result ≤ 37) × Put out.old 0 (bytes "ok files " ++ (decimal files ++ (bytes " machines " ++ (decimal machines ++ (bytes " trace " ++ trace_text trace))))) result out.new }
{
    let a = put(b"ok files ", 0, out);
    let b = put_decimal(files as u64, a, out);
    let c = put(b" machines ", b, out);
    let d = put_decimal(machines as u64, c, out);
    let e = put(b" trace ", d, out);
    put_trace(trace, e, out)
}

// The first line of an answer, a refusal by its number, then zeros; how many bytes the line has.
pub fn first_line(answer: Result<Summary, u8>, out: &mut [u8; 96]) -> usize
    ensures { (result ≡ length (first_line (numbered answer))) × (out.new ≡ padded 0 96 (first_line (numbered answer))) }
{
    *out = [0; 96];
    match answer {
        Ok(s) => {
            let a = put_summary(s.files, s.machines, s.trace, out);
            put(b"\n", a, out)
        }
        Err(number) => {
            let a = put(b"refused ", 0, out);
            let b = put_decimal(number as u64, a, out);
            put(b"\n", b, out)
        }
    }
}

// The line of event k, then zeros; how many bytes the line has.
pub fn event_line(k: usize, time: i64, kind: u8, steps: u16, out: &mut [u8; 96]) -> usize
    ensures { (result ≡ length (event_line k time kind steps)) × (out.new ≡ padded 0 96 (event_line k time kind steps)) }
{
    *out = [0; 96];
    let a = put_decimal(k as u64, 0, out);
    if kind < 4 {
        let b = put_placed(time, kind, steps, a, out);
        return put(b"\n", b, out);
    }
    let b = put_dropped(kind - 3, a, out);
    put(b"\n", b, out)
}

// The first line is put at the front of the memory of all lines.
fn put_first(answer: Result<Summary, u8>, out: &mut [u8]) -> usize
    requires { 96 ≤ length out.old }
    ensures { (result ≤ 96) × Put out.old 0 (first_line (numbered answer)) result out.new }
{
    let mut line: [u8; 96] = [0; 96];
    let n = first_line(answer, &mut line);
    put(&line[..n], 0, out)
}

// What a list tells of event k; past its end, what stands for nothing.
fn told_at<T: Copy>(list: &[T], k: usize, nothing: T) -> T
    ensures { result ≡ get_or list.now k nothing }
{
    if k < list.len() { list[k] } else { nothing }
}

// The line of event k is put into the memory of all lines.
fn put_event(k: usize, time: i64, kind: u8, steps: u16, at: usize, out: &mut [u8]) -> usize
    requires { at + 96 ≤ length out.old }
    ensures { (result ≤ at + 96) × Put out.old at (event_line k time kind steps) result out.new }
{
    let mut line: [u8; 96] = [0; 96];
    let n = event_line(k, time, kind, steps, &mut line);
    put(&line[..n], at, out)
}

// The lines of the first n events are put from a place on.
fn put_events<'a>(
    n: usize,
    times: &'a [i64],
    kinds: &'a [u8],
    steps: &'a [u16],
    at: usize,
    out: &mut [u8],
) -> usize
    requires { at + 96 * n ≤ length out.old }
    ensures { Put out.old at (event_lines n times.now kinds.now steps.now) result out.new }
{
    let mut end = at;
    for k in 0..n {
        end = put_event(
            k,
            told_at(times, k, 0),
            told_at(kinds, k, 0),
            told_at(steps, k, 0),
            end,
            out,
        );
    }
    end
}

// How many events an answer tells of.
fn events_of(answer: Result<Summary, u8>) -> usize
    ensures { result ≡ events_of (numbered answer) }
{
    answer.map_or(0, |s| s.events)
}

// All lines of an answer, then zeros; how many bytes the lines have. A memory with fewer than 96 bytes for each line gets none.
pub fn lines<'a>(
    answer: Result<Summary, u8>,
    times: &'a [i64],
    kinds: &'a [u8],
    steps: &'a [u16],
    out: &mut [u8],
) -> usize
    ensures value { result ≡ length (lines_in (length out.old) (numbered answer) times.now kinds.now steps.now) }
    ensures out_after { out.new ≡ padded 0 (length out.old) (lines_in (length out.old) (numbered answer) times.now kinds.now steps.now) }
    ensures upper_bound { result ≤ length out.new }
{
    out.fill(0);
    let n = events_of(answer);
    if n < out.len() / 96 {
        let at = put_first(answer, out);
        return put_events(n, times, kinds, steps, at, out);
    }
    0
}
