// A list of changes: RULES 02, E4. Whether its columns are one, refusal 18, which is asked of the whole list before any
// item is done; and how far it was done.
#![tactic(auto)]

ghost use Rattle.std.specs.Prelude.{◌≡◌, ◌≤◌, length};
ghost use Rattle.tree.specs.Search.{least};
ghost use Rattle.tree.specs.Batch.{wrong_code, list_check};

use tree::Refusal;

pub mod progress; // progress.rt: what was done so far, in the shape of the answer

// The least of the first n places whose code is neither 1 nor 2, or n.
fn first_wrong(code: &[usize], n: usize) -> usize
    requires { n ≤ length code.now }
    ensures { result ≡ least (wrong_code code.now) n }
{
    basics::least(n, |i| (code[i] != 1) & (code[i] != 2))
}

// Refusal 18, or that the columns have one length, of at most 256, and no other code.
pub fn check_list(code: &[usize], key: &[usize], name: &[usize]) -> Result<(), Refusal>
    ensures { result ≡ list_check code.now key.now name.now }
{
    let items = code.len();
    let no_list = (items != key.len()) | (items != name.len()) | (256 < items);
    if no_list {
        return Err(Refusal::BadList);
    }
    let first = first_wrong(code, items);
    let wrong = first < items;
    if wrong {
        return Err(Refusal::BadList);
    }
    Ok(())
}
