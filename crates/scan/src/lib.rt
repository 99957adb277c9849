// Scans of a range of rows: those that fit are appended to a result column, ascending. `written` says how many results
// the column has already. And `past_tree`, for the axes that go tree by tree.
#![tactic(auto)]

ghost use Rattle.std.specs.Prelude.{true, ◌+◌, ◌≤◌, eqb, length};
ghost use Rattle.tree.specs.Table.{at};
ghost use Rattle.scan.specs.Want.{accepts};
ghost use Rattle.scan.specs.Range.{rows_from, rows_in, Appended, ScanIn, RangeIn, ContextIn, PastTree};

pub mod trees; // trees.rt: the sizes and levels of a table's rows
pub mod want; // want.rt: the node test as a wanted kind and a wanted name

use crate::want::NodeTest;

// Appends the rows `from`, `from` + 1, .., `count` of them; answers how many are written then.
fn number_rows(from: usize, count: usize, out: &mut [usize], written: usize) -> usize
    requires { ScanIn from (λ k. true) count out.old written }
    ensures { Appended (rows_from from (λ k. true) count) out.old written result out.new }
{
    let mut next = written;
    for i in 0..count {
        out[next] = from + i;
        next += 1;
    }
    next
}

// Appends the rows of the wanted kind, of a part of the kind column that starts at row `from`; answers how many
// are written then.
fn scan_kind(
    kind: &[usize],
    from: usize,
    want_kind: usize,
    out: &mut [usize],
    written: usize,
) -> usize
    requires { ScanIn from (λ k. eqb (at kind.now k) want_kind) (length kind.now) out.old written }
    ensures { Appended
        (rows_from from (λ k. eqb (at kind.now k) want_kind) (length kind.now))
        out.old written result out.new }
{
    let mut next = written;
    for (i, &own) in kind.iter().enumerate() {
        if own == want_kind {
            out[next] = from + i;
            next += 1;
        }
    }
    next
}

// Appends the rows of the wanted kind and the wanted name, of a part of both columns that starts at row `from`;
// answers how many are written then.
fn scan_named(part: &NodeTest<'_>, from: usize, out: &mut [usize], written: usize) -> usize
    requires { (length part.now.kind.now ≤ length part.now.name.now)
        × ScanIn from (accepts part.now) (length part.now.kind.now) out.old written }
    ensures { Appended
        (rows_from from (accepts part.now)
        (length part.now.kind.now))
        out.old written result out.new }
{
    let part = *part;
    let mut next = written;
    for i in 0..part.kind.len() {
        if part.fits(i) {
            out[next] = from + i;
            next += 1;
        }
    }
    next
}

// Appends the rows from `from` on, and before `to`, that fit; answers how many are written then. What is wanted decides
// before the scan which columns it reads.
#[inline(always)]
pub fn emit(test: &NodeTest<'_>, from: usize, to: usize, out: &mut [usize], written: usize) -> usize
    requires { RangeIn test.now from to out.old written }
    ensures { Appended
        (rows_in (accepts test.now) from to)
        out.old written result out.new }
{
    let NodeTest { want, kind, name } = *test;
    match (want.name, want.kind) {
        (Some(_), _) => {
            let part = NodeTest {
                want,
                kind: &kind[from..to],
                name: &name[from..to],
            };
            scan_named(&part, from, out, written)
        }
        (None, Some(wanted)) => scan_kind(&kind[from..to], from, wanted, out, written),
        (None, None) => number_rows(from, to - from, out, written),
    }
}

// Appends the one row of a range, if there is one and it fits; answers how many are written then.
pub fn emit_one(
    test: &NodeTest<'_>,
    from: usize,
    to: usize,
    out: &mut [usize],
    written: usize,
) -> usize
    requires { (to ≤ from + 1)
        × RangeIn test.now from to out.old written }
    ensures { Appended
        (rows_in (accepts test.now) from to)
        out.old written result out.new }
{
    if to <= from {
        return written;
    }
    if test.fits(from) {
        out[written] = from;
        return written + 1;
    }
    written
}

// The first of the contexts from number i on that is not before row end, or their number. Where end is that of a tree,
// most often no later tree has a context of the role, so the last one is asked first.
pub fn past_tree(rows: &[usize], i: usize, end: usize) -> usize
    requires { ContextIn rows.now i }
    ensures { PastTree rows.now i end result }
{
    let last = rows.len() - 1;
    if rows[last] < end {
        return rows.len();
    }
    for j in i..last {
        if end <= rows[j] {
            return j;
        }
    }
    last
}
