// The named machines: a table of where the name of each first stands in the text, and the number of a machine by its name.
#![tactic(auto)]

ghost use Rattle.std.specs.Prelude.{◌≡◌, true, ◌≤◌, ◌<◌, length, get_or};
ghost use Rattle.grammar.specs.Tree.{same};
ghost use Rattle.index.specs.Index.{text_at};
ghost use Rattle.named.specs.Named.{place, declared_at, name_table, print_table, stands_at, count_in, is_called, number_by, number_at};
ghost use Rattle.prints.specs.Prints.{print_at};
ghost use Rattle.named.specs.laws.Held.{Added};
ghost use Rattle.named.specs.laws.Kept.{Printed, Place};
ghost use Rattle.named.specs.laws.Filled.{machine_at};

// How many names the table holds so far, and at which place the next is looked for first: most entries name their machines in one order.
#[derive(Clone, Copy)]
struct Tally {
    held: usize,
    next: usize,
}

// The names of machines 1, 2, .. by where each first stands, at most 32 of them, then zeros; and their prints.
#[derive(Clone, Copy)]
pub struct Names {
    pub positions: [usize; 32],
    pub prints: [u32; 32],
}

// The names that the entries of an index declare. Names that are the same mostly stand at one position, since the index is settled before: then only the first is read.
pub fn fill(s: &[u8], ix: &[usize; 2470]) -> Names
    ensures { (result.positions ≡ name_table s.now ix.now) × (result.prints ≡ print_table s.now ix.now) }
{
    let mut positions: [usize; 32] = [0; 32];
    let mut prints: [u32; 32] = [0; 32];
    let entries = index::entries(ix);
    let mut t = Tally { held: 0, next: 0 };
    let mut i: usize = 0;
    while i < entries {
        t = add_entry(s, ix, i, &mut positions, &mut prints, t);
        i += 1;
    }
    Names { positions, prints }
}

// A print as a number of the table.
fn wide(print: u32) -> usize
    ensures { result ≡ print }
{
    print as usize
}

// How many names a table holds.
pub fn count(table: &[usize; 129]) -> usize
    ensures { result ≡ count_in table.now }
{
    stands_at(table, 0)
}

// At which of its 32 places a table of names has the position p; 32 if at none.
fn stands_at(table: &[usize; 129], p: usize) -> usize
    ensures { result ≡ stands_at table.now p }
{
    // (a slice tells its length)
    let held: &[usize] = table;
    let mut k: usize = 0;
    while k < 32 {
        if held[k] == p {
            return k;
        }
        k += 1;
    }
    32
}

// The number of the machine whose name stands at p; 0, which is the host's, for position 0 and for a name that the table does not hold. A name that the table has from p itself is not read.
pub fn number_at(s: &[u8], table: &[usize; 129], p: usize) -> numbers::Machine
    ensures { result ≡ number_at s.now table.now p }
{
    if p == 0 {
        return numbers::Machine(0);
    }
    let k = stands_at(table, p);
    if k < 32 {
        return numbers::Machine((k + 1) as u8);
    }
    numbers::Machine(number_by(s, table, p))
}

// The number of the machine whose name is the text at p, by the prints and texts of the table; 0 for a name that it does not hold.
fn number_by(s: &[u8], table: &[usize; 129], p: usize) -> u8
    ensures { result ≡ number_by s.now table.now p }
{
    let print = prints::print_at(s, p);
    let wanted = wide(print);
    let held: &[usize] = table;
    let mut k: usize = 0;
    while k < 32 {
        if held[32 + k] == wanted {
            if is_called(s, p, print, held[k]) {
                return (k + 1) as u8;
            }
        }
        k += 1;
    }
    0
}

// A name stands at q, and it is the text at p, whose print is known: 0 tells an empty text.
fn is_called(s: &[u8], p: usize, print: u32, q: usize) -> bool
    requires { print ≡ print_at s.now p }
    ensures { result ≡ is_called s.now p q }
{
    if q == 0 {
        return false;
    }
    if q == p {
        return true;
    }
    if print == 0 {
        return index::length_at(s, q) == 0;
    }
    values::same_texts(s, q, p)
}

// The names that entry i declares are added to those of the table.
fn add_entry(
    s: &[u8],
    ix: &[usize; 2470],
    i: usize,
    names: &mut [usize; 32],
    prints: &mut [u32; 32],
    t: Tally,
) -> Tally
    requires { (length names.old ≡ 32) × (t.held ≤ 32) × Printed s.now names.old prints.old t.held }
    ensures { Added s.now (declared_at ix.now i) names.old t.held names.new result.held × Printed s.now names.new prints.new result.held }
{
    let name = machine_name(ix, i);
    let mut m = add(s, name, names, prints, t);
    let items = index::items(ix, i);
    let mut k: usize = 0;
    while k < items {
        let p = index::item(ix, i, k, 1);
        m = add(s, p, names, prints, m);
        k += 1;
    }
    m
}

// Where the name of the `machine` of entry i stands; 0 without one.
fn machine_name(ix: &[usize; 2470], i: usize) -> usize
    ensures { result ≡ machine_at ix.now i }
{
    if index::col(ix, i, 1) == 0 {
        return 0;
    }
    index::col(ix, i, 2)
}

// The name at p is added to those of the table, unless it is there or there is no room. Equal names are one machine.
fn add(s: &[u8], p: usize, names: &mut [usize; 32], prints: &mut [u32; 32], t: Tally) -> Tally
    requires { (length names.old ≡ 32) × (t.held ≤ 32) × Printed s.now names.old prints.old t.held }
    ensures { Added s.now (place p) names.old t.held names.new result.held × Printed s.now names.new prints.new result.held }
{
    if p == 0 {
        return t;
    }
    let n = t.held;
    if 32 <= n {
        return t;
    }
    if is_expected(p, names, n, t.next) {
        return Tally {
            held: n,
            next: t.next + 1,
        };
    }
    let j = place_at(p, names, n);
    if j < n {
        return Tally {
            held: n,
            next: j + 1,
        };
    }
    let print = prints::print_at(s, p);
    let k = place_by_print(s, p, names, prints, n, print);
    if k < n {
        return Tally {
            held: n,
            next: k + 1,
        };
    }
    names[n] = p;
    prints[n] = print;
    Tally {
        held: n + 1,
        next: n + 1,
    }
}

// The name at the place where p is expected, if that is one of the first n, stands at p.
fn is_expected(p: usize, names: &[usize; 32], n: usize, expected: usize) -> bool
    requires { n ≤ 32 }
    ensures { result ≡ true → (expected < n) × (get_or names.now expected 0 ≡ p) }
{
    if n <= expected {
        return false;
    }
    names[expected] == p
}

// At which of the first n places p itself stands; n if at none.
fn place_at(p: usize, names: &[usize; 32], n: usize) -> usize
    requires { n ≤ 32 }
    ensures { result < n → get_or names.now result 0 ≡ p }
{
    let mut k: usize = 0;
    while k < n {
        if names[k] == p {
            return k;
        }
        k += 1;
    }
    n
}

// At which place among the first n names the text at p stands, whose print is known; n if at none. Only texts with one print are compared.
fn place_by_print(
    s: &[u8],
    p: usize,
    names: &[usize; 32],
    prints: &[u32; 32],
    n: usize,
    print: u32,
) -> usize
    requires { (length names.now ≡ 32) × (n ≤ 32) × Printed s.now names.now prints.now n × (print ≡ print_at s.now p) }
    ensures { Place s.now p names.now n result }
{
    let mut k: usize = 0;
    while k < n {
        if prints[k] == print {
            if same_by_print(s, p, names[k], print) {
                return k;
            }
        }
        k += 1;
    }
    n
}

// The texts at p and q, which share one print, are the same. That of an empty text is 0, and of no other.
fn same_by_print(s: &[u8], p: usize, q: usize, shared: u32) -> bool
    requires { (shared ≡ print_at s.now p) × (shared ≡ print_at s.now q) }
    ensures { result ≡ same (text_at s.now p) (text_at s.now q) }
{
    if shared == 0 {
        return true;
    }
    values::same_texts(s, q, p)
}
