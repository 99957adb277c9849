// The answer of an accepted edit, with its signed move.
ghost use Rattle.std.specs.Prelude.{◌≡◌, ◌+◌, ◌-◌, ◌≤◌, pos};
ghost use Rattle.tree.specs.Edit.{minus};
ghost use Rattle.shift.specs.Done.{answered};

use tree::Done;

// By rows came in before the row first.
pub fn after_insertion(count: usize, first: usize, by: usize) -> Done
    requires { count + by ≤ 4096 }
    ensures { result ≡ answered (count + by) first (pos by) }
{
    let moved = by as i64;
    Done {
        count: count + by,
        first,
        moved,
    }
}

// The by rows before the row first went.
pub fn after_deletion(count: usize, first: usize, by: usize) -> Done
    requires { (by ≤ count) × (count ≤ 4096) }
    ensures { result ≡ answered (count - by) first (minus by) }
{
    let gone = by as i64;
    let back = 0 - gone;
    Done {
        count: count - by,
        first,
        moved: back,
    }
}
