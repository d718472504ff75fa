// Marks, one bit a page, in lent 64-bit words: page p is bit p % 64 of word p / 64.
// A page past the last word is not marked, and marking it, or clearing its mark, changes nothing.
#![tactic(auto)]

mod walk;

ghost use Rattle.std.specs.Prelude.{◌≡◌, cond, ◌+◌, ◌^◌, ◌<◌};
ghost use Rattle.marks.specs.Mark.{words_for, with_mark, without_mark, cleared, all_marked, count_marks};
ghost use Rattle.marks.specs.Next.{first_marked};

pub use walk::{MarkedPages, marked};

// The words that hold n marks, rounded up to whole words; none where there are no marks.
pub fn words_if(there: bool, n: usize) -> usize
    requires { n + 63 < 2 ^ 64 }
    ensures { result ≡ cond there (words_for n) 0 }
{
    if there { n.div_ceil(64) } else { 0 }
}

// Marks page p.
pub fn mark(ws: &mut [u64], p: usize)
    ensures { ws.new ≡ with_mark ws.old p }
{
    let i = p / 64;
    if i < ws.len() {
        ws[i] |= 1 << (p % 64);
    }
}

// Clears page p's mark.
pub fn unmark(ws: &mut [u64], p: usize)
    ensures { ws.new ≡ without_mark ws.old p }
{
    let i = p / 64;
    if i < ws.len() {
        ws[i] &= !(1 << (p % 64));
    }
}

// Clears the marks of the first m pages: the whole words, then the low bits of the word that holds page m.
pub fn clear(ws: &mut [u64], m: usize)
    ensures { ws.new ≡ cleared ws.old m }
{
    let whole = ws.len().min(m / 64);
    ws[..whole].fill(0);
    if whole < ws.len() {
        ws[whole] = ws[whole] >> (m % 64) << (m % 64);
    }
}

// Sets the marks of the first m pages: the whole words, then the low bits of the word that holds page m.
pub fn set_first(ws: &mut [u64], m: usize)
    ensures { ws.new ≡ all_marked ws.old m }
{
    let whole = ws.len().min(m / 64);
    ws[..whole].fill(u64::MAX);
    if whole < ws.len() {
        ws[whole] |= (1 << (m % 64)) - 1;
    }
}

// How many of the first m pages are marked: the whole words, then the low bits of the word that holds page m.
pub fn count(ws: &[u64], m: usize) -> usize
    ensures { result ≡ count_marks ws.now m }
{
    let whole = ws.len().min(m / 64);
    let mut n = 0;
    for word in &ws[..whole] {
        n += word.count_ones() as usize;
    }
    match ws.get(whole) {
        Some(word) => n + (word & ((1 << (m % 64)) - 1)).count_ones() as usize,
        None => n,
    }
}

// The lowest marked page below m, or m where there is none.
pub fn first_marked(ws: &[u64], m: usize) -> usize
    ensures { result ≡ first_marked ws.now m }
{
    marked(ws, m).next().unwrap_or(m)
}
