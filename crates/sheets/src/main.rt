// What `sheet::read` says of each sheet on standard input, a line each: its name, and its refusal or its table. Then what the readers give of
// single records of one sheet, and whether it is what was written there.
// A line of the input is empty; or a comment, from `#` on; or a name, a colon, and the sheet's bytes, each as two hexadecimal digits in lower
// case. `=` is as many zero bytes as bring the sheet to 65,536 bytes. Any other byte is passed over.
#![tactic(auto)]

ghost use Rattle.std.specs.Prelude.{◌≡◌, ◌≤◌, length, IfOk};

use numbers::File;
use records::{Head, Source};
use sheet::{Run, Table};
use std::io;
use std::io::Read;

// The most bytes that are read of the input.
const ROOM: usize = 65536;

// The value of a hexadecimal digit; None of any other byte.
fn digit(b: u8) -> Option<u8> {
    match b {
        b'0'..=b'9' => Some(b - b'0'),
        b'a'..=b'f' => Some(b - b'a' + 10),
        _ => None,
    }
}

// The byte that the two digits at the head of a text stand for, where it has two.
fn pair(s: &[u8]) -> Option<u8> {
    let high = digit(*s.first()?)?;
    let low = digit(*s.get(1)?)?;
    Some(high << 4 | low)
}

// How long a sheet of n bytes is past a byte of the line that is in no pair: `=` brings it to 65,536 bytes.
fn filled(n: usize, b: u8) -> usize
    requires { n ≤ 65537 }
    ensures { result ≤ 65537 }
{
    if b == b'=' { n.max(65536) } else { n }
}

// The sheet that a text stands for, as far as there is room; how many bytes it has. The room is zeros, so that `=` has nothing to write.
fn bytes(s: &[u8], m: &mut [u8; 65537]) -> usize
    requires { length m.old ≡ 65537 }
    ensures { (result ≤ 65537) × (length m.new ≡ 65537) }
{
    let mut i = 0;
    let mut n = 0;
    while i < s.len() && n < m.len() {
        match pair(&s[i..]) {
            Some(byte) => {
                m[n] = byte;
                n += 1;
                i += 2;
            }
            None => {
                n = filled(n, s[i]);
                i += 1;
            }
        }
    }
    n
}

// A number behind what it counts.
fn tell_number(rt: &impl Print, what: &[u8], n: u64) -> io::Result<()> {
    rt.write_all(what)?;
    rt.print(n)
}

// How many records of a kind there are, and where the first lies.
fn tell_run(rt: &impl Print, kind: &[u8], r: Run) -> io::Result<()> {
    tell_number(rt, kind, r.count as u64)?;
    tell_number(rt, b" at ", r.at as u64)
}

// What an accepted sheet holds.
fn tell_table(rt: &impl Print, t: Table) -> io::Result<()> {
    tell_number(rt, b": files ", t.files as u64)?;
    tell_run(rt, b" sources ", t.sources)?;
    tell_run(rt, b" snapshots ", t.snapshots)?;
    tell_run(rt, b" events ", t.events)
}

// One line for a sheet.
fn tell(rt: &impl Print, name: &[u8], m: &[u8]) -> io::Result<()> {
    rt.write_all(name)?;
    match sheet::read(m) {
        Ok(t) => tell_table(rt, t)?,
        Err(refusal) => tell_number(rt, b": refused ", u64::from(refusal.number()))?,
    }
    rt.write_all(b"\n")
}

// A line of the input that is neither empty nor a comment. The colon is no digit, so that it may stay in front of the bytes.
fn line(rt: &impl Print, s: &[u8]) -> io::Result<()> {
    let colon = s.iter().position(|b| *b == b':').unwrap_or(s.len());
    let mut m = [0; 65537];
    let n = bytes(&s[colon..], &mut m);
    tell(rt, &s[..colon], &m[..n])
}

// Every line of the input.
fn each(rt: &impl Print, s: &[u8]) -> io::Result<()> {
    for text in s.split(|b| *b == b'\n') {
        if text.first().is_some_and(|b| *b != b'#') {
            line(rt, text)?;
        }
    }
    Ok(())
}

// The line of one trial of a reader.
fn told(rt: &impl Print, ok: bool, what: &[u8]) -> io::Result<()> {
    rt.write_all(what)?;
    if ok {
        rt.write_all(b": yes\n")
    } else {
        rt.write_all(b": NO\n")
    }
}

// Where the files of a sheet lie.
fn read_places(rt: &impl Print, s: &[u8]) -> io::Result<()> {
    let places = sheet::file_places(s, 2);
    told(
        rt,
        places[0] == 0 && places[1] == 23 && places[2] == 0,
        b"the places of two files",
    )
}

// The head of a file that is not the first.
fn read_head(rt: &impl Print, s: &[u8]) -> io::Result<()> {
    let head = Head {
        container: true,
        claim: 0,
        length: 2,
    };
    told(
        rt,
        records::head_at(s, 23) == head,
        b"the second file, a container with no claim",
    )
}

// Its path, and paths that differ in a byte or in their length.
fn read_path(rt: &impl Print, s: &[u8]) -> io::Result<()> {
    told(rt, sheet::same_path(s, 23, b"bc"), b"its path")?;
    told(rt, !sheet::same_path(s, 23, b"bd"), b"no other path")?;
    told(rt, !sheet::same_path(s, 23, b"b"), b"no shorter path")
}

// A source with the highest id.
fn read_source(rt: &impl Print, s: &[u8]) -> io::Result<()> {
    let source = Source {
        file: File(0),
        id: u32::MAX,
    };
    told(
        rt,
        records::source_at(s, 94) == source,
        b"the second source",
    )
}

// A snapshot with a negative reading and another.
fn read_snapshot(rt: &impl Print, s: &[u8]) -> io::Result<()> {
    let n = records::snapshot_at(s, 134);
    told(
        rt,
        n.source == 1 && n.clock == 1 && n.reading == -1,
        b"the snapshot, on its first clock",
    )?;
    told(
        rt,
        n.clock2 == 2 && n.reading2 == 5,
        b"the snapshot, on its second clock",
    )
}

// An event whose reading is the lowest of 64 bits.
fn read_event(rt: &impl Print, s: &[u8]) -> io::Result<()> {
    let e = records::event_at(s, 276);
    told(
        rt,
        e.source == 0 && e.clock == 0,
        b"the event, on the private clock",
    )?;
    told(
        rt,
        e.reading == i64::MIN,
        b"the event, at the lowest reading",
    )
}

// What the readers give at the places of a sheet's records.
fn read_back(rt: &impl Print) -> io::Result<()> {
    let s: &[u8] =
        b"\x2c\x02\xc2\x60\x09\x89\x8d\x00\x00\x00\x00\x01\x03\xff\xff\xff\xfd\x84\xff\xff\xff\xff\xff\xff\xff\xff\xa0\x00\x00\x00\x00\x00\x00\x00\x58\x01\x00\x00\x00\x00\x00\x00\x00\x00\x00";
    read_places(rt, s)?;
    read_head(rt, s)?;
    read_path(rt, s)?;
    read_source(rt, s)?;
    read_snapshot(rt, s)?;
    read_event(rt, s)
}

// Reads until a buffer is full or the input ends; how many bytes the buffer has then.
fn read_full(input: &mut impl Read, buf: &mut [u8]) -> io::Result<usize>
    ensures { IfOk result (λ n. n ≤ length buf.new) }
{
    let mut done: usize = 0;
    while done < buf.len() {
        let n = input.read(&mut buf[done..])?;
        if n == 0 {
            break;
        }
        done += n;
    }
    Ok(done)
}

// The input lies in a buffer, so that no memory is asked for that can lack.
fn main(rt: HostRuntime) -> io::Result<()> {
    let mut space = [0u8; ROOM];
    let n = read_full(&mut rt.reader(), &mut space)?;
    each(&rt, &space[..n])?;
    read_back(&rt)
}
