// A cheap upper bound of the number of lines of a step: where it fits, the lines need not be counted before they are
// written. A role reaches each row once, and a pair reaches what lies on the axis of its row.
#![tactic(auto)]

ghost use Rattle.std.specs.Prelude.{◌≡◌, true, ◌≤◌, length};
ghost use Rattle.std.specs.List.{sum_by};
ghost use Rattle.scan.specs.OneRole.{Parents};
ghost use Rattle.links.specs.Links.{climbs_axis};
ghost use Rattle.runs.specs.Lines.{step_lines};
ghost use Rattle.bounds.specs.Bounds.{roles_in, on_count, span_of, link_span, parent_span, FewRows};

use runs::call::Call;
use scan::trees::Trees;

// How many roles there are: one more than the places where the role changes, and none where there are no pairs.
fn roles(role: &[usize]) -> usize
    ensures { result ≡ roles_in role.now }
{
    if role.is_empty() {
        return 0;
    }
    let mut found = 1;
    for i in 1..role.len() {
        found += (role[i - 1] != role[i]) as usize;
    }
    found
}

// The rows of the pairs and their descendants, added up.
fn spans(trees: &Trees<'_>, row: &[usize]) -> usize
    requires { FewRows trees.now row.now }
    ensures { result ≡ sum_by (span_of trees.now.size.now) row.now }
{
    let size = trees.size;
    let mut sum = 0;
    for &c in row {
        sum += size[c] + 1;
    }
    sum
}

// The row that a link names, one more than the row, and its descendants; 1 where it is 0 and names none.
fn link_span(size: &[usize], link: usize) -> usize
    requires link_in_bounds { link ≤ length size.now }
    requires link_bound { link_span size.now link ≤ 4096 }
    ensures { result ≡ link_span size.now link }
{
    if link == 0 { 1 } else { size[link - 1] + 1 }
}

// The parents of the rows of the pairs and the parents' descendants, added up.
fn parent_spans(trees: &Trees<'_>, up: &[usize; 4096], row: &[usize]) -> usize
    requires few_rows { FewRows trees.now row.now }
    requires parents { Parents trees.now.level.now trees.now.count up.now }
    ensures { result ≡ sum_by (parent_span trees.now.size.now up.now) row.now }
{
    let size = trees.size;
    let mut sum = 0;
    for &c in row {
        sum += link_span(size, up[c]);
    }
    sum
}

// Whether what the pairs reach, each by itself, surely is at most `room`; false on an axis with no cheap bound.
fn axis_fits(trees: &Trees<'_>, up: &[usize; 4096], row: &[usize], axis: usize, room: usize) -> bool
    requires few_rows { FewRows trees.now row.now }
    requires parents { climbs_axis axis ≡ true → Parents trees.now.level.now trees.now.count up.now }
    ensures { result ≡ true
        → sum_by (on_count axis trees.now.level.now trees.now.count) row.now ≤ room }
{
    match axis {
        1 | 5 => row.len() <= room,
        2..=4 => spans(trees, row) <= room,
        6 | 7 => 64 * row.len() <= room,
        10 | 11 => parent_spans(trees, up, row) <= room,
        _ => false,
    }
}

// Whether the lines of the step surely are at most `room`; where it says false, they may be so all the same.
pub fn surely_fits(call: &Call<'_>, room: usize) -> bool
    ensures { result ≡ true → length (step_lines call.now) ≤ room }
{
    axis_fits(&call.trees, call.up, call.row, call.ask.axis, room)
        || roles(call.role) * call.trees.count <= room
}
