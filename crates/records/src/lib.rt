// The records of a sheet: how each lies in the bits, and which of the refusals 26 to 30 applies in it.
// Reading and judging are apart: a reader turns bits into a record, and a test looks at the record and a small state.
#![tactic(auto)]

ghost use Rattle.std.specs.Prelude.{◌≡◌, ◌+◌, ◌*◌, ◌^◌, ◌<◌, ◌≤◌, length, IfErr};
ghost use Rattle.refusals.specs.Refusals.{number, refused};
ghost use Rattle.records.specs.Layout.{file_here, source_here, snapshot_here, event_here, source, snapshot, event, ending, unknown};
ghost use Rattle.records.specs.Readers.{head_at, source_at, snapshot_at, event_at};
ghost use Rattle.records.specs.Faults.{bit, is_container, clocks_wrong, after_end, fault_of, told, step_for, step_at};
ghost use Rattle.records.specs.States.{may_be, step_of, fault_number, Fit};

use bits::Cursor;
use numbers::File;
use refusals::Refusal;

// No sheet of fewer than 2^32 bytes has a record at a bit position from this one on: there is nothing to read.
const FAR: usize = 0x10_0000_0000;

// The longest slice that is judged, so that its bits can be counted. The limit of a sheet, 65,536 bytes, is not a record's.
const LONGEST: usize = 0xffff_ffff;

// A file record up to its path, which starts 15 bits after the record. A claim of 0 is none: the definitions have the layout's numbers, so it is no Option.
#[derive(Clone, Copy, Debug, Default, PartialEq, Eq)]
pub struct Head {
    pub container: bool,
    pub claim: u8,
    pub length: u8,
}

// A source record: a file of the sheet, and the embedded machine id.
#[derive(Clone, Copy, Debug, Default, PartialEq, Eq)]
pub struct Source {
    pub file: File,
    pub id: u32,
}

// A snapshot record: one source's two clocks, 1 to 6, and what each read.
#[derive(Clone, Copy, Debug, Default, PartialEq, Eq)]
pub struct Snapshot {
    pub source: u8,
    pub clock: u8,
    pub reading: i64,
    pub clock2: u8,
    pub reading2: i64,
}

// An event record: its source, a clock, 1 to 6 or 0 for the file's private clock, and the reading.
#[derive(Clone, Copy, Debug, Default, PartialEq, Eq)]
pub struct Event {
    pub source: u8,
    pub clock: u8,
    pub reading: i64,
}

// What judging an event record needs of it: its source and its clock. The 64 bits of the reading decide nothing.
#[derive(Clone, Copy, Default)]
struct Label {
    source: u8,
    clock: u8,
}

// What judging a record needs of those before it: the bit position, the last kind, how many of each kind there were,
// and which files are containers (bit f of `containers` is file f). Plain numbers, so that no earlier byte is needed; the definitions order kinds by number,
// so `last` is one.
#[derive(Clone, Copy, Debug, Default, PartialEq, Eq)]
pub struct State {
    pub at: usize,
    pub last: u8,
    pub files: usize,
    pub containers: u64,
    pub sources: usize,
    pub snapshots: usize,
    pub events: usize,
}

// Why there is no step over a record.
#[derive(Clone, Copy, Debug, PartialEq, Eq)]
pub enum Fault {
    // One of the refusals 26 to 30 applies in it.
    Refused(Refusal),
    // No sheet is in such a state.
    NoState,
}

// Which of the refusals 26 to 30 apply in a record: it is cut off, of a lower or no kind, with a wrong field, with something after the end, one too many.
#[derive(Clone, Copy)]
struct Faults {
    cut: bool,
    low: bool,
    wrong: bool,
    after: bool,
    full: bool,
}

impl Faults {
    // The first of them that applies.
    #[tactic(auto, unfolding(crate::specs::Faults::fault_of, crate::specs::Layout::pick))]
    fn verdict(self) -> Result<(), Refusal>
        ensures first { refused result ≡ fault_of self.cut self.low self.wrong self.after self.full }
        ensures some { IfErr result (λ r. 0 < number r) }
    {
        if self.cut {
            return Err(Refusal::RecordCutOff);
        }
        if self.low {
            return Err(Refusal::WrongKindOfRecord);
        }
        if self.wrong {
            return Err(Refusal::WrongField);
        }
        if self.after {
            return Err(Refusal::SomethingAfterTheEnd);
        }
        if self.full {
            return Err(Refusal::TooManyRecords);
        }
        Ok(())
    }
}

// The file record at a bit position, without its path.
pub fn head_at(s: &[u8], at: usize) -> Head
    ensures { result ≡ head_at s.now at }
{
    if FAR <= at {
        return Head::default();
    }
    let kind = Cursor { at }.take(s, 3);
    let container = kind.next.take(s, 1);
    let claim = container.next.take(s, 3);
    let length = claim.next.take(s, 8);
    Head {
        container: container.value == 1,
        claim: claim.value as u8,
        length: length.value as u8,
    }
}

// The source record at a bit position.
pub fn source_at(s: &[u8], at: usize) -> Source
    ensures { result ≡ source_at s.now at }
{
    if FAR <= at {
        return Source::default();
    }
    let kind = Cursor { at }.take(s, 3);
    let file = kind.next.take(s, 5);
    let id = file.next.take(s, 32);
    Source {
        file: File(file.value as u8),
        id: id.value as u32,
    }
}

// The snapshot record at a bit position.
pub fn snapshot_at(s: &[u8], at: usize) -> Snapshot
    ensures { result ≡ snapshot_at s.now at }
{
    if FAR <= at {
        return Snapshot::default();
    }
    let kind = Cursor { at }.take(s, 3);
    let source = kind.next.take(s, 5);
    let clock = source.next.take(s, 3);
    let reading = clock.next.take(s, 64);
    let clock2 = reading.next.take(s, 3);
    let reading2 = clock2.next.take(s, 64);
    Snapshot {
        source: source.value as u8,
        clock: clock.value as u8,
        reading: reading.value.cast_signed(),
        clock2: clock2.value as u8,
        reading2: reading2.value.cast_signed(),
    }
}

// The event record at a bit position.
pub fn event_at(s: &[u8], at: usize) -> Event
    ensures { result ≡ event_at s.now at }
{
    if FAR <= at {
        return Event::default();
    }
    let kind = Cursor { at }.take(s, 3);
    let whose = kind.next.take(s, 5);
    let which = whose.next.take(s, 3);
    let when = which.next.take(s, 64);
    Event {
        source: whose.value as u8,
        clock: which.value as u8,
        reading: when.value.cast_signed(),
    }
}

// The source and the clock of the event record at a bit position: its reading is left unread.
fn label_at(s: &[u8], at: usize) -> Label
    ensures { (result.source ≡ (event_at s.now at).source) × (result.clock ≡ (event_at s.now at).clock) }
{
    if FAR <= at {
        return Label::default();
    }
    let kind = Cursor { at }.take(s, 3);
    let source_field = kind.next.take(s, 5);
    let clock_field = source_field.next.take(s, 3);
    Label {
        source: source_field.value as u8,
        clock: clock_field.value as u8,
    }
}

// The containers with one file more, file n.
fn mark(containers: u64, n: usize, container: bool) -> u64
    requires { (n ≤ 32) × (containers < 2 ^ n) }
    ensures { result ≡ containers + bit container * 2 ^ n }
{
    if container {
        containers + (1 << n)
    } else {
        containers
    }
}

// Whether file f is a container.
fn is_container(containers: u64, f: u8) -> bool
    requires { f < 32 }
    ensures { result ≡ is_container containers f }
{
    (containers >> f) % 2 == 1
}

// 28 of a snapshot's two clocks.
fn clocks_wrong(a: u8, b: u8) -> bool
    ensures { result ≡ clocks_wrong a b }
{
    a == 7 || b == 7 || a == 0 || b == 0 || a == b
}

// 29: a bit that is set, or a byte, after an end record that ends at e.
fn after_end(s: &[u8], e: usize) -> bool
    requires { (length s.now ≤ 0xffffffff) × (e ≤ 8 * length s.now + 3) }
    ensures { result ≡ after_end s.now e }
{
    let pad = (8 - e % 8) % 8;
    let rest = Cursor { at: e }.take(s, pad as u32);
    0 < rest.value || e + pad < 8 * s.len()
}

// A step over a file record.
fn step_file(s: &[u8], st: State) -> Result<Option<State>, Refusal>
    requires { Fit s.now st }
    ensures { told number result ≡ step_for s.now st (file_here s.now st.at) }
{
    let head = head_at(s, st.at);
    let end = st.at + (15 + 8 * usize::from(head.length));
    Faults {
        cut: 8 * s.len() < end,
        low: 1 < st.last,
        wrong: head.length == 0 || head.claim == 7,
        after: false,
        full: 32 <= st.files,
    }
    .verdict()?;
    Ok(Some(State {
        at: end,
        last: 1,
        files: st.files + 1,
        containers: mark(st.containers, st.files, head.container),
        ..st
    }))
}

// A step over a source record.
fn step_source(s: &[u8], st: State) -> Result<Option<State>, Refusal>
    requires { Fit s.now st }
    ensures { told number result ≡ step_for s.now st (source (source_here s.now st.at)) }
{
    let found = source_at(s, st.at);
    let file = found.file.0;
    Faults {
        cut: 8 * s.len() < st.at + 40,
        low: 2 < st.last,
        wrong: st.files <= usize::from(file) || is_container(st.containers, file),
        after: false,
        full: 32 <= st.sources,
    }
    .verdict()?;
    Ok(Some(State {
        at: st.at + 40,
        last: 2,
        sources: st.sources + 1,
        ..st
    }))
}

// A step over a snapshot record.
fn step_snapshot(s: &[u8], st: State) -> Result<Option<State>, Refusal>
    requires { Fit s.now st }
    ensures { told number result ≡ step_for s.now st (snapshot (snapshot_here s.now st.at)) }
{
    let found = snapshot_at(s, st.at);
    Faults {
        cut: 8 * s.len() < st.at + 142,
        low: 3 < st.last,
        wrong: st.sources <= usize::from(found.source) || clocks_wrong(found.clock, found.clock2),
        after: false,
        full: 256 <= st.snapshots,
    }
    .verdict()?;
    Ok(Some(State {
        at: st.at + 142,
        last: 3,
        snapshots: st.snapshots + 1,
        ..st
    }))
}

// A step over an event record.
fn step_event(s: &[u8], st: State) -> Result<Option<State>, Refusal>
    requires { Fit s.now st }
    ensures { told number result ≡ step_for s.now st (event (event_here s.now st.at)) }
{
    let label = label_at(s, st.at);
    Faults {
        cut: 8 * s.len() < st.at + 75,
        low: 4 < st.last,
        wrong: st.sources <= usize::from(label.source) || label.clock == 7,
        after: false,
        full: false,
    }
    .verdict()?;
    Ok(Some(State {
        at: st.at + 75,
        last: 4,
        events: st.events + 1,
        ..st
    }))
}

// A step over the end record.
fn step_end(s: &[u8], st: State) -> Result<Option<State>, Refusal>
    requires { Fit s.now st }
    ensures { told number result ≡ step_for s.now st ending }
{
    Faults {
        cut: 8 * s.len() < st.at + 3,
        low: false,
        wrong: false,
        after: after_end(s, st.at + 3),
        full: false,
    }
    .verdict()?;
    Ok(None)
}

// A step over a record of no kind: it is cut off, or of a wrong kind.
fn step_unknown(s: &[u8], st: State) -> Result<Option<State>, Refusal>
    requires { Fit s.now st }
    ensures { told number result ≡ step_for s.now st unknown }
{
    if 8 * s.len() < st.at + 3 {
        Err(Refusal::RecordCutOff)
    } else {
        Err(Refusal::WrongKindOfRecord)
    }
}

// A step over the record at a state of a sheet, by its kind.
fn step_by_kind(s: &[u8], st: State) -> Result<Option<State>, Refusal>
    requires { Fit s.now st }
    ensures { told number result ≡ step_at s.now st }
{
    match (Cursor { at: st.at }).take(s, 3).value {
        0 => step_end(s, st),
        1 => step_file(s, st),
        2 => step_source(s, st),
        3 => step_snapshot(s, st),
        4 => step_event(s, st),
        _ => step_unknown(s, st),
    }
}

// Whether a state can be one of a sheet in these bytes.
#[tactic(auto, unfolding(crate::specs::States::may_be))]
fn may_be(s: &[u8], st: State) -> bool
    ensures { result ≡ may_be s.now st }
{
    s.len() <= LONGEST
        && st.files <= 32
        && st.at <= 8 * s.len()
        && st.last <= 4
        && st.sources <= 32
        && st.snapshots <= 256
        && st.events <= st.at
        && st.containers < 1 << st.files
}

// One record: the state after it, None at the end of the sheet, or the smallest refusal that applies; NoState if no sheet is in such a state.
// It needs no byte in front of the record, so that a sheet can come in parts or be cut short.
#[tactic(auto, unfolding(crate::specs::States::step_of, crate::specs::Layout::pick))]
pub fn step_over(s: &[u8], st: State) -> Result<Option<State>, Fault>
    ensures { told fault_number result ≡ step_of s.now st }
{
    if may_be(s, st) {
        step_by_kind(s, st).map_err(Fault::Refused)
    } else {
        Err(Fault::NoState)
    }
}
