// Runs the examples of document 01 that are not proved, and its refusal 38, through the library: the programs lend memory that is long enough, so
// none of them shows 38. For each a name is written, and then the answer's lines.
#![tactic(auto)]

ghost use Rattle.std.specs.Prelude.{◌≤◌};

use merged::Summary;
use refusals::Refusal;
use std::io;

// Writes the lines of an answer. The memory fits every answer (docs/MEMORY.md).
fn write_lines(
    rt: &impl Print,
    answer: Result<Summary, Refusal>,
    times: &[i64],
    kinds: &[u8],
    steps: &[u16],
) -> io::Result<()> {
    let mut out = [0u8; 671136];
    let n = written::lines(
        answer.map_err(|r| r.number()),
        times,
        kinds,
        steps,
        &mut out,
    );
    rt.write_all(&out[..n])
}

// Merges with memory that fits every input (docs/MEMORY.md), and writes.
fn show(rt: &impl Print, manifest: &[u8], sheet: &[u8]) -> io::Result<()> {
    let mut machines = [0u8; 32];
    let mut times = [0i64; 6990];
    let mut kinds = [0u8; 6990];
    let mut steps = [0u16; 6990];
    let mut matrix = [0u8; 50176];
    let mut readings = [0i64; 6990];
    let mut clocks = [0u16; 6990];
    let answer = merge::merge(
        manifest,
        sheet,
        &mut machines,
        &mut times,
        &mut kinds,
        &mut steps,
        &mut matrix,
        &mut readings,
        &mut clocks,
    );
    write_lines(rt, answer, &times, &kinds, &steps)
}

// A trial: its name, and then what a manifest and a sheet give.
fn named(rt: &impl Print, name: &[u8], manifest: &[u8], sheet: &[u8]) -> io::Result<()> {
    rt.write_all(name)?;
    show(rt, manifest, sheet)
}

// A sheet without records.
fn bare(rt: &impl Print, name: &[u8], manifest: &[u8]) -> io::Result<()> {
    named(rt, name, manifest, b"\x00")
}

fn starts(rt: &impl Print) -> io::Result<()> {
    bare(
        rt,
        b"a blank after the brace\n",
        b"{ \"perfetto_manifest\": {\"version\": 1}}",
    )
}

fn levels(rt: &impl Print) -> io::Result<()> {
    bare(
        rt,
        b"sixteen levels\n",
        b"{\"perfetto_manifest\": {\"version\": 1, \"x\": [[[[[[[[[[[[[[]]]]]]]]]]]]]]}}",
    )?;
    bare(
        rt,
        b"seventeen levels\n",
        b"{\"perfetto_manifest\": {\"version\": 1, \"x\": [[[[[[[[[[[[[[[]]]]]]]]]]]]]]]}}",
    )
}

fn ids(rt: &impl Print) -> io::Result<()> {
    bare(
        rt,
        b"id 4294967295\n",
        b"{\"perfetto_manifest\": {\"version\": 1, \"files\": [{\"path\": \"a\", \"machines\": [{\"id\": 4294967295, \"name\": \"m\"}]}]}}",
    )?;
    bare(
        rt,
        b"id 4294967296\n",
        b"{\"perfetto_manifest\": {\"version\": 1, \"files\": [{\"path\": \"a\", \"machines\": [{\"id\": 4294967296, \"name\": \"m\"}]}]}}",
    )
}

fn offsets(rt: &impl Print) -> io::Result<()> {
    bare(
        rt,
        b"offset -9223372036854775807\n",
        b"{\"perfetto_manifest\": {\"version\": 1, \"files\": [{\"path\": \"a\", \"clocks\": {\"sync_to\": {\"file\": \"a\", \"clock\": \"BOOTTIME\"}, \"offset_ns\": -9223372036854775807}}]}}",
    )?;
    bare(
        rt,
        b"offset -9223372036854775808\n",
        b"{\"perfetto_manifest\": {\"version\": 1, \"files\": [{\"path\": \"a\", \"clocks\": {\"sync_to\": {\"file\": \"a\", \"clock\": \"BOOTTIME\"}, \"offset_ns\": -9223372036854775808}}]}}",
    )
}

// "For no manifest and `2C 02 C2 80 00 00 00 01 01 80 00 00 00 00 00 00 01 40` it writes exactly two lines"
fn sheets(rt: &impl Print) -> io::Result<()> {
    named(
        rt,
        b"eighteen bytes\n",
        b"",
        b"\x2c\x02\xc2\x80\x00\x00\x00\x01\x01\x80\x00\x00\x00\x00\x00\x00\x01\x40",
    )
}

// Document 000's example, with three lines of the log.
fn log(rt: &impl Print, name: &[u8], manifest: &[u8]) -> io::Result<()> {
    named(
        rt,
        name,
        manifest,
        b"\x20\x1a\xe0\xd0\xde\xdc\xca\x5c\xe0\xcc\xe8\xe4\xc2\xc6\xca\x40\x35\xdd\x85\xd1\x8d\xa0\xb9\xc1\x99\xd1\xc9\x85\x8d\x94\x80\x63\x0b\x83\x82\xfb\x63\x7b\x39\x73\x53\x9b\x7b\x72\x00\x00\x00\x00\x02\x08\x00\x00\x00\x02\x10\x00\x00\x00\x04\x10\x00\x00\x00\x00\x00\x00\x00\x07\x82\x00\x00\x00\x00\x00\x00\x00\x01\x10\x40\x00\x00\x00\x00\x00\x00\x00\x24\x00",
    )
}

fn logs(rt: &impl Print) -> io::Result<()> {
    log(
        rt,
        b"the log\n",
        b"{\"perfetto_manifest\": {\"version\": 1, \"trace_time\": {\"clock\": \"BOOTTIME\"}, \"files\": [{\"path\": \"phone.pftrace\", \"machine\": {\"name\": \"phone\"}}, {\"path\": \"watch.pftrace\", \"machine\": {\"name\": \"watch\"}}, {\"path\": \"app_log.json\", \"clocks\": {\"sync_to\": {\"file\": \"phone.pftrace\", \"clock\": \"BOOTTIME\"}, \"offset_ns\": 250000000}}]}}",
    )?;
    log(
        rt,
        b"the log, with a file in trace_time\n",
        b"{\"perfetto_manifest\": {\"version\": 1, \"trace_time\": {\"clock\": \"BOOTTIME\", \"file\": \"phone.pftrace\"}, \"files\": [{\"path\": \"phone.pftrace\", \"machine\": {\"name\": \"phone\"}}, {\"path\": \"watch.pftrace\", \"machine\": {\"name\": \"watch\"}}, {\"path\": \"app_log.json\", \"clocks\": {\"sync_to\": {\"file\": \"phone.pftrace\", \"clock\": \"BOOTTIME\"}, \"offset_ns\": 250000000}}]}}",
    )
}

// Whether all is zeros.
fn is_zero<T: Copy + Default + PartialEq>(xs: &[T]) -> bool {
    xs.iter().all(|x| *x == T::default())
}

fn word(rt: &impl Print, zero: bool) -> io::Result<()> {
    if zero {
        rt.write_all(b"zeros\n")
    } else {
        rt.write_all(b"not zeros\n")
    }
}

// Writes an answer's lines, and whether the outputs are all zeros.
fn tell_outputs(
    rt: &impl Print,
    answer: Result<Summary, Refusal>,
    machines: &[u8],
    times: &[i64],
    kinds: &[u8],
    steps: &[u16],
) -> io::Result<()> {
    write_lines(rt, answer, times, kinds, steps)?;
    word(
        rt,
        is_zero(machines) && is_zero(times) && is_zero(kinds) && is_zero(steps),
    )
}

// Writes whether the work memories are all zeros.
fn tell_work(rt: &impl Print, matrix: &[u8], readings: &[i64], clocks: &[u16]) -> io::Result<()> {
    word(rt, is_zero(matrix) && is_zero(readings) && is_zero(clocks))
}

// Merges the log's example with the memories that are lent here; then one line for the outputs and one for the work memories.
fn tried(
    rt: &impl Print,
    machines: &mut [u8],
    times: &mut [i64],
    kinds: &mut [u8],
    steps: &mut [u16],
    matrix: &mut [u8],
    readings: &mut [i64],
    clocks: &mut [u16],
) -> io::Result<()> {
    let answer = merge::merge(
        b"{\"perfetto_manifest\": {\"version\": 1, \"trace_time\": {\"clock\": \"BOOTTIME\", \"file\": \"phone.pftrace\"}, \"files\": [{\"path\": \"phone.pftrace\", \"machine\": {\"name\": \"phone\"}}, {\"path\": \"watch.pftrace\", \"machine\": {\"name\": \"watch\"}}, {\"path\": \"app_log.json\", \"clocks\": {\"sync_to\": {\"file\": \"phone.pftrace\", \"clock\": \"BOOTTIME\"}, \"offset_ns\": 250000000}}]}}",
        b"\x20\x1a\xe0\xd0\xde\xdc\xca\x5c\xe0\xcc\xe8\xe4\xc2\xc6\xca\x40\x35\xdd\x85\xd1\x8d\xa0\xb9\xc1\x99\xd1\xc9\x85\x8d\x94\x80\x63\x0b\x83\x82\xfb\x63\x7b\x39\x73\x53\x9b\x7b\x72\x00\x00\x00\x00\x02\x08\x00\x00\x00\x02\x10\x00\x00\x00\x04\x10\x00\x00\x00\x00\x00\x00\x00\x07\x82\x00\x00\x00\x00\x00\x00\x00\x01\x10\x40\x00\x00\x00\x00\x00\x00\x00\x24\x00",
        machines,
        times,
        kinds,
        steps,
        matrix,
        readings,
        clocks,
    );
    tell_outputs(rt, answer, machines, times, kinds, steps)?;
    tell_work(rt, matrix, readings, clocks)
}

// n, or one less where this is the memory to be too short.
fn lent(n: usize, this: u8, short: u8) -> usize
    ensures { result ≤ n }
{
    if this == short && n > 0 { n - 1 } else { n }
}

// Lends memories that are just long enough, for three sources and three events, and hold no zero: number `short` is one too short.
fn short_of(rt: &impl Print, short: u8) -> io::Result<()> {
    let mut machines = [1u8; 3];
    let mut times = [1i64; 3];
    let mut kinds = [1u8; 3];
    let mut steps = [1u16; 3];
    let mut matrix = [1u8; 50176];
    let mut readings = [1i64; 3];
    let mut clocks = [1u16; 3];
    let a = lent(3, 1, short);
    let b = lent(3, 2, short);
    let c = lent(3, 3, short);
    let d = lent(3, 4, short);
    let e = lent(50176, 5, short);
    let f = lent(3, 6, short);
    let g = lent(3, 7, short);
    tried(
        rt,
        &mut machines[..a],
        &mut times[..b],
        &mut kinds[..c],
        &mut steps[..d],
        &mut matrix[..e],
        &mut readings[..f],
        &mut clocks[..g],
    )
}

// A trial of memories: its name, and then what is given where memory `short` is too short.
fn memories(rt: &impl Print, name: &[u8], short: u8) -> io::Result<()> {
    rt.write_all(name)?;
    short_of(rt, short)
}

fn too_short(rt: &impl Print) -> io::Result<()> {
    memories(rt, b"all long enough\n", 0)?;
    memories(rt, b"machines too short\n", 1)?;
    memories(rt, b"times too short\n", 2)?;
    memories(rt, b"kinds too short\n", 3)
}

fn too_short_too(rt: &impl Print) -> io::Result<()> {
    memories(rt, b"steps too short\n", 4)?;
    memories(rt, b"matrix too short\n", 5)?;
    memories(rt, b"readings too short\n", 6)?;
    memories(rt, b"clocks too short\n", 7)
}

fn main(rt: HostRuntime) -> io::Result<()> {
    starts(&rt)?;
    levels(&rt)?;
    ids(&rt)?;
    offsets(&rt)?;
    sheets(&rt)?;
    logs(&rt)?;
    too_short(&rt)?;
    too_short_too(&rt)
}
