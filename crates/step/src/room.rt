// Whether the lines of a step fit: RULES 01, refusal 8. They are counted only where no cheap bound shows it.
ghost use Rattle.std.specs.Prelude.{◌≡◌, ltb, length};
ghost use Rattle.tree.specs.Refusal.{given};
ghost use Rattle.tree.specs.declared.Refusal.TheVariants.{TooManyResults};
ghost use Rattle.runs.specs.Lines.{step_lines};

use bounds::surely_fits;
use lines::count_all;
use runs::call::Call;
use tree::Refusal;

// Refusal 8 with the number of lines, or that they are at most room.
pub(crate) fn check_room(call: &Call<'_>, room: usize) -> Result<(), Refusal>
    ensures { result ≡ given (ltb room (length (step_lines call.now)))
        (TooManyResults (length (step_lines call.now))) }
{
    if surely_fits(call, room) {
        return Ok(());
    }
    let total = count_all(call);
    let short = room < total;
    if short {
        return Err(Refusal::TooManyResults(total));
    }
    Ok(())
}
