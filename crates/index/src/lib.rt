// The index of a manifest: where its known members stand in the text, as numbers. It is made once, and then the rules are judged over it.
#![tactic(auto)]

ghost use Rattle.std.specs.Prelude.{◌≡◌, min, length};
ghost use Rattle.grammar.specs.Tree.{same};
ghost use Rattle.index.specs.Index.{text_at, col_of, item_of, entries_in, items_in};

// Number j of entry i.
pub fn col(ix: &[usize; 2470], i: usize, j: usize) -> usize
    ensures { result ≡ col_of ix.now i j }
{
    if i < 32 {
        if j < 12 {
            return ix[6 + (77 * i + j)];
        }
    }
    0
}

// Number j of item k of entry i: 0 its id, 1 its name.
pub fn item(ix: &[usize; 2470], i: usize, k: usize, j: usize) -> usize
    ensures { result ≡ item_of ix.now i k j }
{
    if i < 32 {
        if k < 32 {
            if j < 2 {
                return ix[6 + (77 * i + (13 + (2 * k + j)))];
            }
        }
    }
    0
}

// A count, or 32, which is all that an index holds.
fn held(n: usize) -> usize
    ensures { result ≡ min 32 n }
{
    if n < 32 { n } else { 32 }
}

// How many entries the index holds.
pub fn entries(ix: &[usize; 2470]) -> usize
    ensures { result ≡ entries_in ix.now }
{
    if ix[0] == 0 {
        return 0;
    }
    held(ix[5])
}

// How many items of entry i the index holds.
pub fn items(ix: &[usize; 2470], i: usize) -> usize
    ensures { result ≡ items_in ix.now i }
{
    if i < 32 {
        if ix[6 + (77 * i + 3)] == 0 {
            return 0;
        }
        return held(ix[6 + (77 * i + 12)]);
    }
    0
}

// The length of the text at a position; where no string stands the text is empty.
pub fn length_at(s: &[u8], p: usize) -> usize
    ensures { result ≡ length (text_at s.now p) }
{
    let n = values::length_at(s, p);
    n
}

// The texts at two positions are the same. Where `values` finds no two strings alike, both may still be empty.
pub fn same_at(s: &[u8], p: usize, q: usize) -> bool
    ensures { result ≡ same (text_at s.now p) (text_at s.now q) }
{
    if values::same_texts(s, q, p) {
        return true;
    }
    if values::length_at(s, p) == 0 {
        return values::length_at(s, q) == 0;
    }
    false
}
