// What `grammar::document` says of each text on standard input, a line each. A text stands as its length, 4 bytes with the least significant
// first, and then its bytes.
#![tactic(auto)]

ghost use Rattle.std.specs.Prelude.{◌+◌, ◌≤◌, length, IfOk};
ghost use Rattle.texts.specs.Frames.{Inside};

use std::io;
use std::io::Read;

// Where a text lies in the input; or that the input ends before the text does.
#[derive(Clone, Copy)]
pub enum Frame {
    Text(usize, usize),
    Cut,
}

fn wide(b: u8) -> usize
    ensures { result ≤ 255 }
{
    b as usize
}

// The text whose length stands at a position.
fn frame_at(s: &[u8], at: usize) -> Frame
    requires { at ≤ length s.now }
    ensures { Inside (length s.now) at result }
{
    if s.len() - at < 4 {
        return Frame::Cut;
    }
    let low = wide(s[at]) + 256 * wide(s[at + 1]);
    let high = wide(s[at + 2]) + 256 * wide(s[at + 3]);
    let n = low + 65536 * high;
    let from = at + 4;
    if s.len() - from < n {
        return Frame::Cut;
    }
    Frame::Text(from, from + n)
}

fn number(rt: &impl Print, n: usize) -> io::Result<()> {
    println!(rt; "{n}")
}

// One line for an answer.
fn tell(rt: &impl Print, r: text::Scan) -> io::Result<()> {
    match r {
        text::Scan::Done(n) => {
            rt.write_all(b"done ")?;
            number(rt, n)
        }
        text::Scan::Bad(p) => {
            rt.write_all(b"bad ")?;
            number(rt, p)
        }
        text::Scan::Deep(p) => {
            rt.write_all(b"deep ")?;
            number(rt, p)
        }
    }
}

fn each(rt: &impl Print, s: &[u8]) -> io::Result<()> {
    let mut at: usize = 0;
    while at < s.len() {
        match frame_at(s, at) {
            Frame::Text(from, to) => {
                tell(rt, grammar::document(&s[from..to]))?;
                at = to;
            }
            Frame::Cut => {
                return rt.write_all(b"cut off\n");
            }
        }
    }
    Ok(())
}

// Reads until a buffer is full or the input ends; how many bytes the buffer has then.
fn read_full(input: &mut impl Read, buf: &mut [u8]) -> io::Result<usize>
    ensures { IfOk result (λ n. n ≤ length buf.new) }
{
    let mut done: usize = 0;
    while done < buf.len() {
        let n = input.read(&mut buf[done..])?;
        if n == 0 {
            break;
        }
        done += n;
    }
    Ok(done)
}

fn main(rt: HostRuntime) -> io::Result<()> {
    let mut space = [0u8; 65536];
    let n = read_full(&mut rt.reader(), &mut space)?;
    each(&rt, &space[..n])
}
