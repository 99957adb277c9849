// The run of pairs of one role, and its number beside each of its lines.
#![tactic(auto)]

ghost use Rattle.std.specs.Prelude.{◌<◌, ◌≤◌, length, replicate};
ghost use Rattle.scan.specs.OneRole.{Wrote};
ghost use Rattle.runs.specs.Runs.{RunEnd};

pub mod call; // call.rt: a step's call that the checks let through

// The place after the run of equal roles that begins at i.
pub fn run_end(role: &[usize], i: usize) -> usize
    requires { i < length role.now }
    ensures { RunEnd role.now i result }
{
    let own = role[i];
    for j in i + 1..role.len() {
        if role[j] != own {
            return j;
        }
    }
    role.len()
}

// Writes v to the first n places.
pub fn fill(part: &mut [usize], n: usize, v: usize)
    requires { n ≤ length part.old }
    ensures { Wrote (replicate n v) part.old n part.new }
{
    for i in 0..n {
        part[i] = v;
    }
}
