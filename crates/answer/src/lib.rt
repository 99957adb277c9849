// The library's version, and its answers as structs for C: refusal 0 is acceptance, and what is not used is 0.
#![tactic(auto)]

ghost use Rattle.std.specs.Prelude.{◌≡◌, ◌≤◌};
ghost use Rattle.answer.specs.Answer.{accepted, refused, check_answer, step_answer, edit_answer, carry_answer};
ghost use Rattle.answer.specs.Answer.{batch_answer};
ghost use Rattle.answer.specs.Found.{parent_in, parent_found, located_answer, find_answer};
ghost use Rattle.answer.specs.Version.{version};

use tree::{Batched, Done, Located, Refusal, Tally};

#[repr(C)]
#[derive(Clone, Copy)]
pub struct Answer {
    pub refusal: usize,
    pub place: usize,
    pub first: usize,
    pub second: usize,
    pub moved: i64,
}

#[repr(C)]
#[derive(Clone, Copy)]
pub struct FoundAnswer {
    pub refusal: usize,
    pub place: usize,
    pub row: usize,
    pub level: usize,
    pub parent: i64,
}

// An acceptance, with two numbers and a move.
fn accept(first: usize, second: usize, moved: i64) -> Answer
    ensures { result ≡ accepted first second moved }
{
    Answer {
        refusal: 0,
        place: 0,
        first,
        second,
        moved,
    }
}

// A refusal, with its number and place.
fn refuse(why: Refusal) -> Answer
    ensures { result ≡ refused why }
{
    Answer {
        refusal: why.number(),
        place: why.place(),
        first: 0,
        second: 0,
        moved: 0,
    }
}

// Where a row stands: a root has no parent, so -1 stands there.
fn of_located(located: Located) -> FoundAnswer
    requires { parent_in located ≤ 4096 }
    ensures { result ≡ located_answer located }
{
    match located {
        Located::Root(row) => FoundAnswer {
            refusal: 0,
            place: 0,
            row,
            level: 0,
            parent: -1,
        },
        Located::Under(child) => {
            let parent = child.parent as i64;
            FoundAnswer {
                refusal: 0,
                place: 0,
                row: child.row,
                level: child.level,
                parent,
            }
        }
    }
}

// What finding a key answers: the row, its level and its parent's row. It asks for a parent that is small, which
// makes it a signed number, so it is no `From`.
#[tactic(auto, unfolding(crate::specs::Found::find_answer))]
pub fn of_find(found: Result<Located, Refusal>) -> FoundAnswer
    requires { parent_found found ≤ 4096 }
    ensures { result ≡ find_answer found }
{
    match found {
        Ok(located) => of_located(located),
        Err(why) => FoundAnswer {
            refusal: why.number(),
            place: why.place(),
            row: 0,
            level: 0,
            parent: 0,
        },
    }
}

// What a check answers.
#[tactic(auto, unfolding(crate::specs::Answer::check_answer))]
impl From<Result<(), Refusal>> for Answer {
    ghost from_gives = { λ checked answer. answer ≡ check_answer checked };

    fn from(checked: Result<(), Refusal>) -> Answer {
        checked.map_or_else(refuse, |()| accept(0, 0, 0))
    }
}

// What a step answers: the number of results first, then the kept count.
#[tactic(auto, unfolding(crate::specs::Answer::step_answer))]
impl From<Result<Tally, Refusal>> for Answer {
    ghost from_gives = { λ stepped answer. answer ≡ step_answer stepped };

    fn from(stepped: Result<Tally, Refusal>) -> Answer {
        stepped.map_or_else(refuse, |tally| accept(tally.listed, tally.kept, 0))
    }
}

// What an edit answers: the new count first, then the first moved row, and the move.
#[tactic(auto, unfolding(crate::specs::Answer::edit_answer))]
impl From<Result<Done, Refusal>> for Answer {
    ghost from_gives = { λ edited answer. answer ≡ edit_answer edited };

    fn from(edited: Result<Done, Refusal>) -> Answer {
        edited.map_or_else(refuse, |done| accept(done.count, done.first, done.moved))
    }
}

// What carrying answers: the number of pairs first.
#[tactic(auto, unfolding(crate::specs::Answer::carry_answer))]
impl From<Result<usize, Refusal>> for Answer {
    ghost from_gives = { λ carried answer. answer ≡ carry_answer carried };

    fn from(carried: Result<usize, Refusal>) -> Answer {
        carried.map_or_else(refuse, |pairs| accept(pairs, 0, 0))
    }
}

// What a list of changes answers: how many were done first, then the count, on a refusal too.
#[tactic(auto, unfolding(crate::specs::Answer::end_answer))]
impl From<Batched> for Answer {
    ghost from_gives = { λ batched answer. answer ≡ batch_answer batched };

    fn from(batched: Batched) -> Answer {
        match batched.end {
            Ok(()) => accept(batched.done, batched.count, 0),
            Err(why) => Answer {
                first: batched.done,
                second: batched.count,
                ..refuse(why)
            },
        }
    }
}

// Which version of the library this is.
pub fn library_version() -> usize
    ensures { result ≡ version }
{
    500
}
