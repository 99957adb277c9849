// What was done of a list so far, in the shape of the answer.
ghost use Rattle.std.specs.Prelude.{◌≡◌, ◌<◌};
ghost use Rattle.items.specs.SoFar.{nothing_done, goes_on, after_item};

use tree::{Batched, Done, Refusal};

// Nothing was done, because of a refusal.
pub fn nothing_done(count: usize, why: Refusal) -> Batched
    ensures { result ≡ nothing_done count why }
{
    Batched {
        done: 0,
        count,
        end: Err(why),
    }
}

// Whether there is an item to try: none was refused, and one is left.
pub fn goes_on(so_far: Batched, items: usize) -> bool
    ensures { result ≡ goes_on so_far items }
{
    so_far.end.is_ok() && so_far.done < items
}

// What was done, one item later.
pub fn after_item(so_far: Batched, edited: Result<Done, Refusal>) -> Batched
    requires { so_far.done < 256 }
    ensures { result ≡ after_item so_far edited }
{
    let tried = so_far.done + 1;
    match edited {
        Ok(done) => Batched {
            done: tried,
            count: done.count,
            end: Ok(()),
        },
        Err(why) => Batched {
            done: so_far.done,
            count: so_far.count,
            end: Err(why),
        },
    }
}
