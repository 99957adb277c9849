// All pairs over an edit: RULES 02, E1. They are counted first, so that the pass that writes them needs no branch: a
// pair that goes is written over by the next one that stays, and nothing is written behind the last. While four are
// left, a turn writes four, which is faster than a turn for each. Where none goes, each keeps its place.
#![tactic(auto)]

ghost use Rattle.std.specs.Prelude.{◌≡◌, length};
ghost use Rattle.pairs_left.specs.Left.{left_of, Ready, Carries, PutRoom, Puts, Writing};

use moves::moved::{row_after, stays};

// The old count, what the edit answered, and where its first moved row went.
#[derive(Clone, Copy)]
pub struct Move {
    pub old: usize,
    pub first: usize,
    pub moved: i64,
    pub to: usize,
}

// How many of these rows stay: all of them, where the first moved row does not move towards the front.
pub fn count_left(row: &[usize], to: usize, first: usize) -> usize
    ensures { result ≡ left_of to first row.now }
{
    if first <= to {
        return row.len();
    }
    let mut left = 0;
    for &w in row {
        left += stays(to, first, w);
    }
    left
}

// Writes the pairs, all of which stay, to the front of the result columns.
fn write_all(
    role: &[usize],
    row: &[usize],
    edit: Move,
    left: usize,
    out_role: &mut [usize],
    out_row: &mut [usize],
)
    requires ready { Ready role.now row.now edit left out_role.old out_row.old }
    requires left_value { left ≡ length row.now }
    ensures { Carries role.now row.now edit
        out_role.old out_row.old out_role.new out_row.new }
{
    for i in 0..left {
        out_role[i] = role[i];
        out_row[i] = row_after(edit.old, edit.first, edit.moved, row[i]);
    }
}

// How many pairs were read, and how many of them stay and were written.
#[derive(Clone, Copy)]
struct Reached {
    read: usize,
    written: usize,
}

// Writes the pair at place i as result number n, and answers the next number: the same one where the pair goes.
fn put_pair(
    role: &[usize],
    row: &[usize],
    edit: Move,
    i: usize,
    n: usize,
    out_role: &mut [usize],
    out_row: &mut [usize],
) -> usize
    requires { PutRoom 1 role.now row.now edit i n out_role.old out_row.old }
    ensures { Puts 1 role.now row.now edit i n
        out_role.old out_row.old result out_role.new out_row.new }
{
    let from = row[i];
    out_role[n] = role[i];
    out_row[n] = row_after(edit.old, edit.first, edit.moved, from);
    n + stays(edit.to, edit.first, from)
}

// The same of the four pairs from place i on.
fn put_four(
    role: &[usize],
    row: &[usize],
    edit: Move,
    i: usize,
    n: usize,
    out_role: &mut [usize],
    out_row: &mut [usize],
) -> usize
    requires { PutRoom 4 role.now row.now edit i n out_role.old out_row.old }
    ensures { Puts 4 role.now row.now edit i n
        out_role.old out_row.old result out_role.new out_row.new }
{
    let second = put_pair(role, row, edit, i, n, out_role, out_row);
    let third = put_pair(role, row, edit, i + 1, second, out_role, out_row);
    let fourth = put_pair(role, row, edit, i + 2, third, out_role, out_row);
    put_pair(role, row, edit, i + 3, fourth, out_role, out_row)
}

// Writes the pairs that stay, left in number, to the front of the result columns, as long as four of them are left.
fn write_fours(
    role: &[usize],
    row: &[usize],
    edit: Move,
    left: usize,
    out_role: &mut [usize],
    out_row: &mut [usize],
) -> Reached
    requires { Ready role.now row.now edit left out_role.old out_row.old }
    ensures { Writing role.now row.now edit left
        out_role.old out_row.old out_role.new out_row.new
        result.written result.read }
{
    let mut n = 0;
    let mut i = 0;
    // Not `chunks`: how many are left goes by what was written, not by what was read.
    while n + 4 <= left {
        n = put_four(role, row, edit, i, n, out_role, out_row);
        i += 4;
    }
    Reached {
        read: i,
        written: n,
    }
}

// Writes the pairs that stay, left in number, to the front of the result columns.
fn write_left(
    role: &[usize],
    row: &[usize],
    edit: Move,
    left: usize,
    out_role: &mut [usize],
    out_row: &mut [usize],
)
    requires { Ready role.now row.now edit left out_role.old out_row.old }
    ensures { Carries role.now row.now edit
        out_role.old out_row.old out_role.new out_row.new }
{
    let reached = write_fours(role, row, edit, left, out_role, out_row);
    let mut n = reached.written;
    let mut i = reached.read;
    // Not `for`: n grows by the pairs that stay.
    while n < left {
        n = put_pair(role, row, edit, i, n, out_role, out_row);
        i += 1;
    }
}

// The same by the one or the other.
pub fn write(
    role: &[usize],
    row: &[usize],
    edit: Move,
    left: usize,
    out_role: &mut [usize],
    out_row: &mut [usize],
)
    requires { Ready role.now row.now edit left out_role.old out_row.old }
    ensures { Carries role.now row.now edit
        out_role.old out_row.old out_role.new out_row.new }
{
    if left == row.len() {
        write_all(role, row, edit, left, out_role, out_row);
    } else {
        write_left(role, row, edit, left, out_role, out_row);
    }
}
