// A set of rows: 64 words of 64 bits, and a word `used` that says which of them hold a row. A clause sees the words.
ghost use Rattle.std.specs.Prelude.{◌≡◌, ◌+◌, ◌*◌, ◌<◌, eqb};
ghost use Rattle.tree.specs.Search.{gather};
ghost use Rattle.scan.specs.OneRole.{Wrote};
ghost use Rattle.marks.specs.RowSet.{has, Blank, in_word, word_fits, WordDrains, Drains, Drained};
ghost use Rattle.marks.specs.Mark.{Joined};

use scan::want::NodeTest;
use std::marker::Model;

#[derive(Drop)]
pub struct RowSet {
    words: [u64; 64],
    used: u64,
}

impl Model for RowSet {
    ghost use Rattle.std.specs.Prelude.{List, ℕ};
    ghost use Rattle.marks.specs.RowSet.{Used};

    ghost Value = { List ℕ };

    ghost view = { λ s. s.words };

    ghost invariant = { λ s. Used s.words s.used };
}

impl RowSet {
    // The set with no row.
    pub fn new() -> Self
        ensures { Blank result }
    {
        RowSet {
            words: [0; 64],
            used: 0,
        }
    }

    // Whether row x is in the set.
    pub fn holds(&self, x: usize) -> bool
        requires { x < 4096 }
        ensures { result ≡ has self.now x }
    {
        (self.words[x / 64] >> (x % 64)) % 2 == 1
    }

    // Puts row x into the set.
    pub fn add(&mut self, x: usize)
        requires { x < 4096 }
        ensures { Joined (λ w. eqb w x) self.old self.new }
    {
        self.add_bits(x / 64, 1 << (x % 64));
    }

    // Puts rows of word j into the set, those whose bits are set, at least one.
    pub fn add_bits(&mut self, j: usize, bits: u64)
        requires { (j < 64) × (bits ≡ 0 → ⊥) }
        ensures { Joined (in_word (64 * j) bits) self.old self.new }
    {
        self.words[j] |= bits;
        self.used |= 1 << j;
    }

    // Takes all rows out of the set and writes those that fit, ascending, to the front of out; answers how many.
    // The set is blank afterwards.
    pub fn drain(&mut self, test: &NodeTest<'_>, count: usize, out: &mut [usize]) -> usize
        requires { Drains test.now count self.old out.old }
        ensures { Drained test.now count self.old out.old result self.new out.new }
    {
        let test = *test; // held in registers, where a reference would be read for each row
        let mut left = self.used;
        let mut at = 0;
        // From bit to bit that is set, not from index to index.
        while left != 0 {
            let j = left.trailing_zeros() as usize;
            let word = self.words[j];
            self.words[j] = 0;
            at += drain_word(&test, 64 * j, word, &mut out[at..]);
            left &= left - 1;
        }
        self.used = 0;
        at
    }
}

// Writes the rows of one word that fit, ascending, to the front of out; answers how many. Bit b is row base + b.
fn drain_word(test: &NodeTest<'_>, base: usize, word: u64, out: &mut [usize]) -> usize
    requires { WordDrains test.now base word out.old }
    ensures { Wrote (gather (word_fits test.now base word) (base + 64)) out.old result out.new }
{
    let mut rest = word;
    let mut at = 0;
    // From bit to bit that is set, not from index to index.
    while rest != 0 {
        let w = base + rest.trailing_zeros() as usize;
        if test.fits(w) {
            out[at] = w;
            at += 1;
        }
        rest &= rest - 1;
    }
    at
}
