// What `reader::read` says of each manifest on standard input, a line each: its name and its refusal, 0 if it is accepted.
// A line of the input is a comment from `#` on; or a name, a blank, and the manifest's bytes up to the line's end. `^` and two
// hexadecimal digits are that byte, and `^=` is as many blanks as bring the manifest to 65,536 bytes.
#![tactic(auto)]

ghost use Rattle.std.specs.Prelude.{◌≡◌, true, ◌+◌, ◌<◌, ◌≤◌, length, IfOk};

use std::io;
use std::io::Read;

// A byte that a line stands for, and the position past it.
#[derive(Clone, Copy)]
struct Piece {
    byte: u8,
    past: usize,
}

// The position of the first byte b from a position on, below an end; else the end.
fn find(s: &[u8], b: u8, from: usize, end: usize) -> usize
    requires { (from ≤ end) × (end ≤ length s.now) }
    ensures { (from ≤ result) × (result ≤ end) }
{
    let mut i = from;
    while i < end {
        if s[i] == b {
            return i;
        }
        i += 1;
    }
    i
}

// The value of a hexadecimal digit.
fn digit(b: u8) -> u8 {
    match b {
        b'0'..=b'9' => b - b'0',
        b'a'..=b'f' => b - b'a' + 10,
        _ => 0,
    }
}

// Two hexadecimal digits as a byte.
fn pair(high: u8, low: u8) -> u8 {
    digit(high) << 4 | digit(low)
}

// The byte that stands at a position, by itself or as an escape.
fn piece_at(s: &[u8], at: usize, end: usize) -> Piece
    requires { (at < end) × (end ≤ length s.now) }
    ensures { (at < result.past) × (result.past ≤ end) }
{
    let b = s[at];
    if b == b'^' {
        if end - at > 2 {
            return Piece {
                byte: pair(s[at + 1], s[at + 2]),
                past: at + 3,
            };
        }
    }
    Piece {
        byte: b,
        past: at + 1,
    }
}

// Whether `^=` stands at a position.
fn fills(s: &[u8], at: usize, end: usize) -> bool
    requires { (at < end) × (end ≤ length s.now) }
    ensures { result ≡ true → at + 2 ≤ end }
{
    if end - at < 2 {
        return false;
    }
    s[at] == b'^' && s[at + 1] == b'='
}

// Blanks up to 65,536 bytes; how many bytes there are then.
fn blanks(m: &mut [u8; 65537], from: usize) -> usize
    requires { (from ≤ 65537) × (length m.old ≡ 65537) }
    ensures { (result ≤ 65537) × (length m.new ≡ 65537) }
{
    let mut n = from;
    while n < 65536 {
        m[n] = b' ';
        n += 1;
    }
    n
}

// The manifest that a part of a line stands for, as far as there is room; how many bytes it has.
fn manifest(s: &[u8], from: usize, end: usize, m: &mut [u8; 65537]) -> usize
    requires { (from ≤ end) × (end ≤ length s.now) × (length m.old ≡ 65537) }
    ensures { (result ≤ 65537) × (length m.new ≡ 65537) }
{
    let mut i = from;
    let mut n: usize = 0;
    while i < end && n < 65537 {
        if fills(s, i, end) {
            n = blanks(m, n);
            i += 2;
        } else {
            let p = piece_at(s, i, end);
            m[n] = p.byte;
            n += 1;
            i = p.past;
        }
    }
    n
}

// One line for a manifest.
fn tell(rt: &impl Print, name: &[u8], m: &[u8]) -> io::Result<()> {
    let mut ix: [usize; 2470] = [0; 2470];
    let mut lookups: [usize; 129] = [0; 129];
    let refusal = reader::read(m, &mut ix, &mut lookups);
    rt.write_all(name)?;
    println!(rt; " {refusal}")
}

// Past the blank after a name, where there is one.
fn past(gap: usize, end: usize) -> usize
    requires { gap ≤ end }
    ensures { result ≤ end }
{
    if gap < end { gap + 1 } else { end }
}

// A line of the input that is no comment.
fn line(rt: &impl Print, s: &[u8], from: usize, end: usize) -> io::Result<()>
    requires { (from ≤ end) × (end ≤ length s.now) }
{
    let gap = find(s, b' ', from, end);
    let start = past(gap, end);
    let mut m: [u8; 65537] = [0; 65537];
    let n = manifest(s, start, end, &mut m);
    tell(rt, &s[from..gap], &m[..n])
}

fn each(rt: &impl Print, s: &[u8]) -> io::Result<()> {
    let mut at: usize = 0;
    while at < s.len() {
        let end = find(s, b'\n', at, s.len());
        if s[at] != b'#' {
            line(rt, s, at, end)?;
        }
        at = end + 1;
    }
    Ok(())
}

// Reads until a buffer is full or the input ends; how many bytes the buffer has then.
fn read_full(input: &mut impl Read, buf: &mut [u8]) -> io::Result<usize>
    ensures { IfOk result (λ n. n ≤ length buf.new) }
{
    let mut done: usize = 0;
    while done < buf.len() {
        let n = input.read(&mut buf[done..])?;
        if n == 0 {
            break;
        }
        done += n;
    }
    Ok(done)
}

fn main(rt: HostRuntime) -> io::Result<()> {
    let mut space = [0u8; 65536];
    let n = read_full(&mut rt.reader(), &mut space)?;
    each(&rt, &space[..n])
}
