// The command that the program was started with.
use std::env::FillError;
use std::rt::Env;

// A command, its name, and how many arguments it takes: the program's own name and the command's among them.
#[derive(Clone, Copy, Debug, PartialEq, Eq)]
pub struct Usage<'a, C> {
    pub name: &'a [u8],
    pub count: usize,
    pub command: C,
}

// The first command that the program was started with, and with as many arguments as it takes.
pub fn asked<C: Copy>(rt: &impl Env, usages: &[Usage<C>]) -> Option<C> {
    // room for the longest command, and a longer word is none
    let mut word = [0u8; 16];
    let n = rt.arg(1, &mut word).ok()?;
    usages
        .iter()
        .find(|usage| usage.name == &word[..n] && has_count(rt, usage.count))
        .map(|usage| usage.command)
}

// Whether there are so many arguments, the program's own name among them.
fn has_count(rt: &impl Env, count: usize) -> bool {
    (count == 0 || is_there(rt, count - 1)) && !is_there(rt, count)
}

// Whether there is an argument i. No room is needed to tell: an argument that has no room is there.
fn is_there(rt: &impl Env, i: usize) -> bool {
    !matches!(rt.arg(i, &mut []), Err(FillError::NotPresent))
}
