// The walk that puts rows into a set of rows, from child to child. The cost is that of the rows that go in.
ghost use Rattle.std.specs.Prelude.{◌+◌, ◌*◌, ◌/◌, ◌<◌, ◌≤◌};
ghost use Rattle.marks.specs.Mark.{child_in, Joined, AddsChildren, Gathers, Gathered};

use super::row_set::RowSet;
use scan::trees::Trees;

// Where a walk over one word is: the next row, and the bits of the rows met.
#[derive(Clone, Copy)]
struct Spot {
    row: usize,
    word: u64,
}

// Puts the children of row p from row `from` on and before row `end` into the set. Where the first is in already,
// all are.
pub(crate) fn add_children(trees: &Trees<'_>, p: usize, from: usize, end: usize, set: &mut RowSet)
    requires { AddsChildren trees.now p from end set.old }
    ensures { Joined (child_in trees.now.level.now p from end) set.old set.new }
{
    if end <= from {
        return;
    }
    if set.holds(from) {
        return;
    }
    let mut w = from;
    // The next word begins at the child where the walk over this one stopped.
    while w < end {
        let s = children_in_word(trees, p, w, word_end(w, end));
        set.add_bits(w / 64, s.word);
        w = s.row;
    }
}

// The end of the rows from w on that are in the word of w and before row `end`.
fn word_end(w: usize, end: usize) -> usize
    requires { (w < end) × (w < 4096) }
    ensures { (w < result) × (result ≤ end) × (result ≤ 64 * (w / 64) + 64) }
{
    (w / 64 * 64 + 64).min(end)
}

// Gathers the children of row p from row `from` on and before row `end`, which are all in one word.
fn children_in_word(trees: &Trees<'_>, p: usize, from: usize, end: usize) -> Spot
    requires { Gathers trees.now p from end }
    ensures { Gathered trees.now p from end result.row result.word × (end ≤ result.row) }
{
    let mut s = Spot { row: from, word: 0 };
    // The next child is where the one before ends.
    while s.row < end {
        s = past_leaves(trees, p, from, end, s);
    }
    s
}

// Gathers on from child `row`: the leaves that follow one another, and the child after them. The next row after a
// leaf does not wait for its size.
fn past_leaves(trees: &Trees<'_>, p: usize, from: usize, end: usize, s: Spot) -> Spot
    requires gathers { Gathers trees.now p from end × (s.row < end) }
    requires gathered { Gathered trees.now p from end s.row s.word }
    ensures { Gathered trees.now p from end result.row result.word × (s.row < result.row) }
{
    let size = trees.size;
    let mut word = s.word;
    for w in s.row..end {
        word |= 1 << (w % 64);
        let below = size[w];
        if below != 0 {
            return Spot {
                row: w + 1 + below,
                word,
            };
        }
    }
    Spot { row: end, word }
}
