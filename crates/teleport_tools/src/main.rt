// The second program: the services of 02, a command for each. All files that are read are loaded before a command begins, which
// prints the answer and writes its file; where a file cannot be read or written, or the arguments are others, the line is `no file`.
#![tactic(auto)]

use console::{NoFile, TEXT, Usage, asked, load, print_line};
use std::random::RandomSource;
use std::rt::{Env, Files};

// Room for every document, of 65,536 bytes: two bytes have at most one row, but for the 32 brackets that may be open.
const TABLE: usize = 196710;

// Room for every schema, of 16,384 bytes and 24 brackets.
const SCHEMA_TABLE: usize = 49224;

// The commands that read two files.
#[derive(Clone, Copy, Debug, PartialEq, Eq)]
enum Pair {
    Counterexample,
    Dates,
    Explain,
}

#[derive(Clone, Copy, Debug, PartialEq, Eq)]
enum Command {
    Compact,
    Two(Pair),
}

const COMMANDS: [Usage<Command>; 4] = [
    Usage {
        name: b"compact",
        count: 4,
        command: Command::Compact,
    },
    Usage {
        name: b"counterexample",
        count: 5,
        command: Command::Two(Pair::Counterexample),
    },
    Usage {
        name: b"dates",
        count: 4,
        command: Command::Two(Pair::Dates),
    },
    Usage {
        name: b"explain",
        count: 4,
        command: Command::Two(Pair::Explain),
    },
];

// Loads the first file, and runs the command. Its caller has found it: with that in here too, the compiler clears the room twice.
fn run(rt: &(impl Env + Files + RandomSource + Print), command: Command) -> Result<(), NoFile> {
    let mut first = [0u8; TEXT];
    let first = load(rt, 2, &mut first)?;
    let mut table1 = [0u32; TABLE];
    match command {
        Command::Compact => writing_tools::compact(rt, first, &mut table1),
        Command::Two(pair) => run_two(rt, pair, first, &mut table1)?,
    }
    Ok(())
}

// Loads the second file, and runs the command on both texts. The tables are lent, so that the commands share their room; each is called in
// one place, and not by a closure of its own, so that the compiler lets them share one frame.
fn run_two(
    rt: &(impl Env + Files + RandomSource + Print),
    pair: Pair,
    first: &[u8],
    table1: &mut [u32],
) -> Result<(), NoFile> {
    let mut second = [0u8; TEXT];
    let second = load(rt, 3, &mut second)?;
    let mut table2 = [0u32; SCHEMA_TABLE];
    match pair {
        Pair::Counterexample => writing_tools::counterexample(
            rt,
            first,
            second,
            table1,
            &mut table2,
        ),
        Pair::Dates => tools::dates(rt, first, second, table1, &mut table2),
        Pair::Explain => tools::explain(rt, first, second, table1, &mut table2),
    }
    Ok(())
}

fn main(rt: HostRuntime) {
    let done = match asked(&rt, &COMMANDS) {
        Some(command) => run(&rt, command),
        None => Err(NoFile),
    };
    if let Err(no_file) = done {
        print_line(&rt, no_file);
    }
}
