// Merges many pairs in one run. On standard input each manifest stands as its length, 4 bytes with the least significant first, and its bytes,
// then its sheet likewise; for each pair the answer's lines are written and then a line `.`. Input that ends inside a pair ends the run with the
// line `cut off`.
#![tactic(auto)]

ghost use Rattle.std.specs.Prelude.{◌≤◌, length, IfOk};

use merged::Summary;
use refusals::Refusal;
use std::io;
use std::io::Read;

// One byte more than the longest text that is not refused, so that a longer one is seen to be longer.
const SPACE: usize = 65537;

// What `frame` answers in the place of a number of bytes: the input ends before a text, or inside it.
const ENDED: isize = -1;

const CUT: isize = -2;

fn wide(b: u8) -> usize {
    b as usize
}

// The number of four bytes, the least significant first.
fn number(head: &[u8; 4]) -> usize {
    wide(head[0]) | wide(head[1]) << 8 | wide(head[2]) << 16 | wide(head[3]) << 24
}

// Reads until a buffer is full or the input ends; how many bytes the buffer has then.
fn read_full(input: &mut impl Read, buf: &mut [u8]) -> io::Result<usize>
    ensures { IfOk result (λ n. n ≤ length buf.new) }
{
    let mut done: usize = 0;
    while done < buf.len() {
        let n = input.read(&mut buf[done..])?;
        if n == 0 {
            break;
        }
        done += n;
    }
    Ok(done)
}

// Fills the first n bytes of a buffer from the input; whether the input has them and the buffer holds them.
fn fill(input: &mut impl Read, n: usize, buf: &mut [u8]) -> io::Result<bool> {
    if buf.len() < n {
        return Ok(false);
    }
    Ok(read_full(input, &mut buf[..n])? == n)
}

// Passes over n bytes of the input, 4,096 at a time; whether it has them and the buffer holds as many.
fn skip(input: &mut impl Read, n: usize, buf: &mut [u8]) -> io::Result<bool> {
    let mut left = n / 4096;
    while left > 0 {
        if !fill(input, 4096, buf)? {
            return Ok(false);
        }
        left -= 1;
    }
    fill(input, n % 4096, buf)
}

// Reads a text of n bytes; how many of them the buffer has. What lies past the buffer's end is passed over.
fn body(input: &mut impl Read, n: usize, buf: &mut [u8]) -> io::Result<isize> {
    let space = buf.len();
    if n <= space {
        if fill(input, n, buf)? {
            return Ok(n as isize);
        }
        return Ok(CUT);
    }
    let mut over = [0u8; 4096];
    if fill(input, space, buf)? && skip(input, n - space, &mut over)? {
        return Ok(space as isize);
    }
    Ok(CUT)
}

// Reads a length and its text.
fn frame(input: &mut impl Read, buf: &mut [u8]) -> io::Result<isize> {
    let mut head = [0u8; 4];
    let got = read_full(input, &mut head)?;
    if got == 0 {
        return Ok(ENDED);
    }
    if got < 4 {
        return Ok(CUT);
    }
    body(input, number(&head), buf)
}

// The number of bytes that an answer of `frame` stands for: 0 if it is negative, and never more than the buffer has.
fn count(got: isize, buf: &[u8]) -> usize
    ensures { result ≤ length buf.now }
{
    if got < 0 {
        return 0;
    }
    (got as usize).min(buf.len())
}

// Writes the lines of an answer. The memory fits every answer (docs/MEMORY.md).
fn write_lines(
    rt: &impl Print,
    answer: Result<Summary, Refusal>,
    times: &[i64],
    kinds: &[u8],
    steps: &[u16],
) -> io::Result<()> {
    let mut out = [0u8; 671136];
    let n = written::lines(
        answer.map_err(|r| r.number()),
        times,
        kinds,
        steps,
        &mut out,
    );
    rt.write_all(&out[..n])
}

// Merges and writes. The lengths fit every input (docs/MEMORY.md).
fn tell(rt: &impl Print, manifest: &[u8], sheet: &[u8]) -> io::Result<()> {
    let mut machines = [0u8; 32];
    let mut times = [0i64; 6990];
    let mut kinds = [0u8; 6990];
    let mut steps = [0u16; 6990];
    let mut matrix = [0u8; 50176];
    let mut readings = [0i64; 6990];
    let mut clocks = [0u16; 6990];
    let answer = merge::merge(
        manifest,
        sheet,
        &mut machines,
        &mut times,
        &mut kinds,
        &mut steps,
        &mut matrix,
        &mut readings,
        &mut clocks,
    );
    write_lines(rt, answer, &times, &kinds, &steps)
}

fn cut_off(rt: &impl Print) -> io::Result<bool> {
    rt.write_all(b"cut off\n")?;
    Ok(false)
}

// Reads the sheet of a pair, and writes what it and the manifest give and a dot; whether to go on.
fn with_sheet(rt: &impl Print, input: &mut impl Read, manifest: &[u8]) -> io::Result<bool> {
    let mut sheet = [0u8; SPACE];
    let s = frame(input, &mut sheet)?;
    if s < 0 {
        return cut_off(rt);
    }
    let k = count(s, &sheet);
    tell(rt, manifest, &sheet[..k])?;
    rt.write_all(b".\n")?;
    Ok(true)
}

// One pair; whether to go on.
fn pair(rt: &impl Print, input: &mut impl Read) -> io::Result<bool> {
    let mut manifest = [0u8; SPACE];
    let m = frame(input, &mut manifest)?;
    if m == ENDED {
        return Ok(false);
    }
    if m < 0 {
        return cut_off(rt);
    }
    let n = count(m, &manifest);
    with_sheet(rt, input, &manifest[..n])
}

// A proved loop has to end, and nothing says that the input does: the loop counts up to a number that no run reaches.
fn main(rt: HostRuntime) -> io::Result<()> {
    let mut input = rt.reader();
    for _ in 0..u64::MAX {
        if !pair(&rt, &mut input)? {
            break;
        }
    }
    Ok(())
}
