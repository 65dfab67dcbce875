// The command over one text.
use console::{LIMIT, print_line, save};
use std::random::RandomSource;
use std::rt::{Env, Files};

// `compact FILE OUT`. What is written is never longer than the text, so that the buffer has room.
#[tactic(auto, using(crate::proofs::Laws::compact_most, crate::proofs::Laws::compact_taken))]
pub fn compact(rt: &(impl Env + Files + RandomSource + Print), text: &[u8], table: &mut [u32]) {
    let mut buffer = [0u8; LIMIT];
    let answer = writer::compact(text, table, &mut buffer);
    if answer.code == 0 {
        let written = &buffer[..answer.other as usize];
        if let Err(no_file) = save(rt, 3, written) {
            return print_line(rt, no_file);
        }
    }
    print_line(rt, answer);
}
