// Merges `manifest.json` and `sheet.bits` of the folder that it is run in, and writes the answer's lines. A file that is absent has no bytes; one
// that is there and can't be read ends the run with a word on standard error and nothing else.
#![tactic(auto)]

ghost use Rattle.std.specs.Prelude.{◌≤◌, length, IfOk};

use anyhow::{Context, Result};
use merged::Summary;
use refusals::Refusal;
use std::fs::File;
use std::io;
use std::io::{ErrorKind, Read};
use std::rt::Files;

// One byte more than the longest file that is not refused, so that a longer one is seen to be longer.
const SPACE: usize = 65537;

// Reads until a buffer is full or the input ends; how many bytes the buffer has then.
fn read_open<R: Read>(input: &mut R, buf: &mut [u8]) -> io::Result<usize>
    ensures { IfOk result (λ n. n ≤ length buf.new) }
{
    let mut done: usize = 0;
    while done < buf.len() {
        let n = input.read(&mut buf[done..])?;
        if n == 0 {
            break;
        }
        done += n;
    }
    Ok(done)
}

// Reads a file by its name, as far as the buffer goes; an absent one has no bytes.
fn read_file<R: Files>(rt: &R, name: &str, buf: &mut [u8]) -> io::Result<usize>
    ensures { IfOk result (λ n. n ≤ length buf.new) }
{
    match File::open(rt, name) {
        Ok(mut file) => read_open(&mut file, buf),
        Err(e) => {
            if e.kind() == ErrorKind::NotFound {
                return Ok(0);
            }
            Err(e)
        }
    }
}

// Writes the lines of an answer. The memory fits every answer (docs/MEMORY.md).
fn write_lines(
    rt: &impl Print,
    answer: std::result::Result<Summary, Refusal>,
    times: &[i64],
    kinds: &[u8],
    steps: &[u16],
) -> io::Result<()> {
    let mut out = [0u8; 671136];
    let n = written::lines(
        answer.map_err(|r| r.number()),
        times,
        kinds,
        steps,
        &mut out,
    );
    rt.write_all(&out[..n])
}

// Merges and writes. The lengths fit every input (docs/MEMORY.md).
fn tell(rt: &impl Print, manifest: &[u8], sheet: &[u8]) -> io::Result<()> {
    let mut machines = [0u8; 32];
    let mut times = [0i64; 6990];
    let mut kinds = [0u8; 6990];
    let mut steps = [0u16; 6990];
    let mut matrix = [0u8; 50176];
    let mut readings = [0i64; 6990];
    let mut clocks = [0u16; 6990];
    let answer = merge::merge(
        manifest,
        sheet,
        &mut machines,
        &mut times,
        &mut kinds,
        &mut steps,
        &mut matrix,
        &mut readings,
        &mut clocks,
    );
    write_lines(rt, answer, &times, &kinds, &steps)
}

// Reads the sheet, and tells what it and a manifest give.
fn with_sheet(rt: &(impl Files + Print), manifest: &[u8]) -> Result<()> {
    let mut sheet = [0u8; SPACE];
    let n = read_file(rt, "sheet.bits", &mut sheet).context("sheet.bits")?;
    tell(rt, manifest, &sheet[..n])?;
    Ok(())
}

fn main(rt: HostRuntime) -> Result<()> {
    let mut manifest = [0u8; SPACE];
    let n = read_file(&rt, "manifest.json", &mut manifest).context("manifest.json")?;
    with_sheet(&rt, &manifest[..n])
}
