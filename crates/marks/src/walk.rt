// The walk over the marked pages.
ghost use Rattle.std.specs.Prelude.{◌≡◌};
ghost use Rattle.std.specs.Iterator.{YieldsFirst, item_count};
ghost use Rattle.marks.specs.Next.{marked_pages};

use std::marker::Model;

// The marked pages that are left below m, in rising order, seen as their list: those of `word`, whose first page is base,
// and those of the words behind it. What is left of a word is kept, so that a step does not read the word again.
#[derive(Clone, Drop)]
pub struct MarkedPages<'a> {
    word: u64,
    words: &'a [u64],
    base: usize,
    m: usize,
}

impl<'a> Model for MarkedPages<'a> {
    ghost use Rattle.std.specs.Prelude.{ℕ, ◌-◌, ◌≤◌, List, ◌∷◌};
    ghost use Rattle.marks.specs.Next.{marked_from};

    ghost Value = { List ℕ };

    ghost view = { λ s. marked_from s.base (s.word ∷ s.words.now) (s.m - s.base) };

    ghost invariant = { λ s. s.base ≤ s.m };
}

// The marked pages below m, in rising order.
pub fn marked(ws: &[u64], m: usize) -> MarkedPages<'_>
    ensures { result ≡ marked_pages ws.now m }
{
    let (word, words) = match ws.split_first() {
        Some((first, others)) => (*first, others),
        None => (0, ws),
    };
    MarkedPages {
        word,
        words,
        base: 0,
        m,
    }
}

impl Iterator for MarkedPages<'_> {
    type Item = usize;

    ghost next_gives = { YieldsFirst (λ left. left) };

    ghost remaining = { item_count (λ left. left) };

    fn next(&mut self) -> Option<usize> {
        // Zeros are counted only where a mark is left: without this test the walk over clear words is slower.
        while self.word == 0 {
            if self.m - self.base <= 64 {
                return None;
            }
            let (first, others) = self.words.split_first()?;
            self.word = *first;
            self.words = others;
            self.base += 64;
        }
        let below = self.word.trailing_zeros() as usize;
        if self.m - self.base <= below {
            return None;
        }
        self.word &= self.word - 1;
        Some(self.base + below)
    }
}
