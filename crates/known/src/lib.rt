// What a manifest's bytes and a sheet's bytes say together: their refusal, 1 to 37, or all that events are placed by.
#![tactic(auto)]

ghost use Rattle.std.specs.Prelude.{◌≡◌, map, ◌<◌, min, pos, length};
ghost use Rattle.merged.specs.Merged.{padded};
ghost use Rattle.refusals.specs.Refusals.{refused};
ghost use Rattle.placed.specs.Told.{as_told};
ghost use Rattle.sheet.specs.Sheets.{told as sheet_told};
ghost use Rattle.known.specs.Known.{table_in, verdict, given_by, fact_table, links_in, told};
ghost use Rattle.known.specs.laws.Drawn.{Drawn};

use placed::{Given, Known};
use refusals::Refusal;
use sheet::{Run, Table};

mod numbered;

// A number as a byte, or the largest byte where it is larger.
fn byte(n: usize) -> u8
    ensures { result ≡ min 255 n }
{
    n.min(255) as u8
}

// Where a sheet's records lie; nowhere in a refused sheet.
fn table_in(sheet: Result<Table, Refusal>) -> Table
    ensures { result ≡ table_in (sheet_told sheet) }
{
    const NONE: Run = Run { count: 0, at: 0 };
    sheet.unwrap_or(Table {
        files: 0,
        sources: NONE,
        snapshots: NONE,
        events: NONE,
    })
}

// The correspondences of the manifest's entries and the sheet's snapshots.
fn draw(
    s: &[u8],
    ix: &[usize; 2470],
    lookups: &[usize; 129],
    t: &[u32; 324],
    b: &[u8],
    run: Run,
    a: &mut [u16; 288],
    x: &mut [i64; 288],
    c: &mut [u16; 288],
    y: &mut [i64; 288],
) -> usize
    requires { run.at < 4294967296 }
    ensures { Drawn s.now ix.now lookups.now t.now b.now run result a.new x.new c.new y.new }
{
    let mut each: [usize; 32] = [0; 32];
    checks::machines(t, &mut each);
    let at = run.at as u32;
    let n = run.count;
    lines::links(s, ix, lookups, t, &each, b, at, n, a, x, c, y)
}

// What is given beside the lists.
fn give(
    s: &[u8],
    ix: &[usize; 2470],
    lookups: &[usize; 129],
    t: &[u32; 324],
    table: Table,
    links: usize,
) -> Given
    ensures { result ≡ given_by s.now ix.now lookups.now t.now table links }
{
    let mut each: [usize; 32] = [0; 32];
    let count = checks::machines(t, &mut each);
    let asked = meant::timeline(s, ix, lookups);
    let trace = traced::clock(t, asked);
    Given {
        links,
        events: table.events.count,
        machines: byte(count),
        files: byte(table.files),
        pinned: traced::pinned(t),
        trace,
    }
}

// The first refusal: the manifest's, the sheet's, or that of both together.
fn tell(
    manifest: Result<(), Refusal>,
    sheet: Result<Table, Refusal>,
    both: Result<(), Refusal>,
    given: Given,
) -> Result<Known, Refusal>
    requires { (table_in (sheet_told sheet)).events.at < 4294967296 }
    ensures { as_told result ≡ verdict (refused manifest) (sheet_told sheet) (refused both) given }
{
    manifest?;
    let table = sheet?;
    both?;
    Ok(Known {
        sources: table.sources.count,
        at: table.events.at as u32,
        given,
    })
}

// Reads both: `t` then holds what is known of the sheet's files and sources, and where clock a[k] reads x[k], clock c[k] reads y[k]. At a
// refusal the lists still hold what the tables come to, which nobody asks for.
pub fn read(
    s: &[u8],
    b: &[u8],
    t: &mut [u32; 324],
    a: &mut [u16; 288],
    x: &mut [i64; 288],
    c: &mut [u16; 288],
    y: &mut [i64; 288],
) -> Result<Known, Refusal>
    ensures told { as_told result ≡ told s.now b.now }
    ensures facts { t.new ≡ fact_table s.now b.now }
    ensures from { a.new ≡ padded 0 288 (map (λ l. l.a) (links_in s.now b.now)) }
    ensures reads { x.new ≡ padded (pos 0) 288 (map (λ l. l.x) (links_in s.now b.now)) }
    ensures to { c.new ≡ padded 0 288 (map (λ l. l.b) (links_in s.now b.now)) }
    ensures gives { y.new ≡ padded (pos 0) 288 (map (λ l. l.y) (links_in s.now b.now)) }
{
    let mut ix: [usize; 2470] = [0; 2470];
    let mut lookups: [usize; 129] = [0; 129];
    let manifest = numbered::judged(reader::read(s, &mut ix, &mut lookups));
    let sheet = gather::gather(s, &ix, &lookups, b, t);
    let both = checks::refusal(t);
    let table = table_in(sheet);
    let n = draw(s, &ix, &lookups, t, b, table.snapshots, a, x, c, y);
    let given = give(s, &ix, &lookups, t, table, n);
    tell(manifest, sheet, both, given)
}
