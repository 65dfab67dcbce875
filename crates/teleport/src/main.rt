// The program of 01 ("The program"): a command and its files as arguments, and one line as the
// answer. Each command loads all its files before its service begins, so that `no file` stands
// before any code.
#![tactic(auto)]

use console::{NoFile, TABLE, TEXT, Usage, asked, load, print_line};
use schema::PATH_WORDS;
use std::rt::{Env, Files};
use syntax::Answer;

#[derive(Clone, Copy, Debug, PartialEq, Eq)]
enum Command {
    Read,
    Check,
    Compare,
}

const COMMANDS: [Usage<Command>; 3] = [
    Usage {
        name: b"read",
        count: 3,
        command: Command::Read,
    },
    Usage {
        name: b"check",
        count: 4,
        command: Command::Check,
    },
    Usage {
        name: b"compare",
        count: 4,
        command: Command::Compare,
    },
];

// `read FILE`.
fn read(rt: &(impl Env + Files)) -> Result<Answer, NoFile> {
    let mut text = [0u8; TEXT];
    let text = load(rt, 2, &mut text)?;
    let mut table = [0u32; TABLE];
    Ok(reader::read(text, &mut table))
}

// A command over two files and their tables: `check DOCUMENT SCHEMA` or `compare NEW OLD`.
fn judge<F: FnOnce(&[u8], &[u8], &mut [u32], &mut [u32]) -> Answer>(
    rt: &(impl Env + Files),
    service: F,
) -> Result<Answer, NoFile>
    requires { F.IsAlwaysCallable service }
{
    let mut first = [0u8; TEXT];
    let first = load(rt, 2, &mut first)?;
    let mut second = [0u8; TEXT];
    let second = load(rt, 3, &mut second)?;
    let mut table1 = [0u32; TABLE];
    let mut table2 = [0u32; TABLE];
    Ok(service(first, second, &mut table1, &mut table2))
}

// Check's answer alone. `vectors` has these lines too: a crate that lends them to both would be longer than they are.
fn check(document: &[u8], schema: &[u8], table1: &mut [u32], table2: &mut [u32]) -> Answer {
    let mut dates = [0i64; 3];
    let mut path = [0u32; PATH_WORDS];
    schema::check(document, schema, table1, table2, &mut dates, &mut path).answer
}

fn run(rt: &(impl Env + Files)) -> Result<Answer, NoFile> {
    match asked(rt, &COMMANDS).ok_or(NoFile)? {
        Command::Read => read(rt),
        Command::Check => judge(rt, check),
        Command::Compare => judge(
            rt,
            |new, old, table1, table2| comparison::compare(new, old, table1, table2),
        ),
    }
}

fn main(rt: HostRuntime) {
    match run(&rt) {
        Ok(answer) => print_line(&rt, answer),
        Err(no_file) => print_line(&rt, no_file),
    }
}
