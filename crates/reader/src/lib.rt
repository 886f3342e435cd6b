// The manifest's reader: refusals 1 to 24 in their order.
#![tactic(auto)]

ghost use Rattle.std.specs.Prelude.{◌≡◌, ◌||◌, replicate};
ghost use Rattle.manifest.specs.Rules.{first};
ghost use Rattle.manifest.specs.Manifest.{refusal_of};
ghost use Rattle.index.specs.Index.{manifest_of};
ghost use Rattle.listed.specs.Settled.{settled_in};
ghost use Rattle.reader.specs.Reader.{table_of, lookups_of};
ghost use Rattle.reader.specs.laws.Parts.{later_rules};
ghost use Rattle.reader.specs.laws.Tables.{Facts};

use listed::PathFacts;

// One of two tests holds.
fn either(a: bool, b: bool) -> bool
    ensures { result ≡ (a || b) }
{
    if a { true } else { b }
}

// What is judged: the refusal, and what is known of the paths, by which others are judged.
#[derive(Clone, Copy)]
struct Verdict {
    refusal: u8,
    paths: PathFacts,
}

// Refusals 10 to 24, judged over the index part after part, and what is known of the paths: `cited` has the names settled, reads each path and name once, and the others are told of them.
fn later(s: &[u8], ix: &mut [usize; 2470]) -> Verdict
    ensures { (ix.new ≡ settled_in s.now ix.old) × (result.refusal ≡ first later_rules (manifest_of s.now ix.new)) × Facts s.now ix.new result.paths }
{
    let judged = cited::refusal(s, ix);
    let paths = judged.paths;
    let names = judged.names;
    let broken = either(paths.broken, names.broken);
    let size = sizes::refusal(s, ix, broken, names.empty);
    if size != 0 {
        return Verdict {
            refusal: size,
            paths,
        };
    }
    let twice = once::refusal(s, ix, paths.twice);
    if twice != 0 {
        return Verdict {
            refusal: twice,
            paths,
        };
    }
    Verdict {
        refusal: judged.refusal,
        paths,
    }
}

// What is known of the paths of no manifest: nothing is cited.
fn no_paths() -> PathFacts
    ensures { (result.cites ≡ replicate 32 32) × (result.trace ≡ 32) }
{
    PathFacts {
        cites: [32; 32],
        trace: 32,
        prints: [0; 32],
        broken: false,
        twice: false,
    }
}

// The refusal, the index, and what is known of the paths; a refusal leaves zeros and nothing cited, and so do no bytes.
fn table(s: &[u8], ix: &mut [usize; 2470]) -> Verdict
    ensures { (result.refusal ≡ refusal_of s.now) × (ix.new ≡ table_of s.now) × Facts s.now (table_of s.now) result.paths }
{
    let early = survey::survey(s, ix);
    if early != 0 {
        let paths = no_paths();
        return Verdict {
            refusal: early,
            paths,
        };
    }
    if s.len() == 0 {
        let paths = no_paths();
        return Verdict { refusal: 0, paths };
    }
    let judged = later(s, ix);
    let refusal = judged.refusal;
    if refusal != 0 {
        let zeros: [usize; 2470] = [0; 2470];
        *ix = zeros;
        let paths = no_paths();
        return Verdict { refusal, paths };
    }
    judged
}

// Reads a manifest: its refusal, 0 if it is accepted. The tables are for the questions above; a refusal leaves zeros.
pub fn read(s: &[u8], ix: &mut [usize; 2470], lookups: &mut [usize; 129]) -> u8
    ensures { (result ≡ refusal_of s.now) × (ix.new ≡ table_of s.now) × (lookups.new ≡ lookups_of s.now) }
{
    let found = table(s, ix);
    let paths = found.paths;
    let cites = paths.cites;
    let prints = paths.prints;
    finds::fill(s, ix, &cites, &prints, paths.trace, lookups);
    found.refusal
}
