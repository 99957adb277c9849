// The example program: which setpoints of RULES 01's small farm do roles 5 and 7 reach? It runs M1 and prints each
// result with the key of its row, then the number of results and the kept count.
#![tactic(auto)]

use std::io;
use tree::Ask;

// Writes result number i, a line: role, row, key of that row. What is out of reach is left out.
fn print_line(
    rt: &impl Print,
    key: &[usize],
    role: &[usize],
    row: &[usize],
    i: usize,
) -> io::Result<()> {
    if i < role.len() {
        print!(rt; "{} ", role[i])?;
    }
    if i < row.len() {
        let at = row[i];
        print!(rt; "{at} ")?;
        if at < key.len() {
            println!(rt; "{}", key[at])?;
        }
    }
    Ok(())
}

// Writes the first n results.
fn print_results(
    rt: &impl Print,
    key: &[usize],
    role: &[usize],
    row: &[usize],
    n: usize,
) -> io::Result<()> {
    for i in 0..n {
        print_line(rt, key, role, row, i)?;
    }
    Ok(())
}

fn main(rt: HostRuntime) -> io::Result<()> {
    let key: [usize; 10] = [10, 20, 21, 22, 23, 24, 30, 31, 32, 40];
    let size: [usize; 10] = [9, 4, 1, 0, 1, 0, 2, 1, 0, 0];
    let level: [usize; 10] = [0, 1, 2, 3, 2, 3, 1, 2, 3, 1];
    let kind: [usize; 10] = [1, 1, 1, 1, 1, 1, 1, 1, 1, 3];
    let name: [usize; 10] = [1, 2, 3, 4, 3, 4, 2, 3, 4, 0];
    let role: [usize; 3] = [5, 5, 7];
    let row: [usize; 3] = [1, 2, 6];
    let mut out_role = [0usize; 10];
    let mut out_row = [0usize; 10];
    let stepped = step::step(
        &key,
        &size,
        &level,
        &kind,
        &name,
        10,
        &role,
        &row,
        Ask {
            axis: 3,
            test: 2,
            name: 4,
        },
        &mut out_role,
        &mut out_row,
    );
    match stepped {
        Err(why) => println!(rt; "refusal {}", why.number()),
        Ok(tally) => {
            println!(rt; "role row key")?;
            print_results(&rt, &key, &out_role, &out_row, tally.listed)?;
            println!(rt; "pairs {} kept {}", tally.listed, tally.kept)
        }
    }
}
