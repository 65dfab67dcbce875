// The command over two schemas.
use console::{LIMIT, print_line, save};
use schema::PATH_WORDS;
use std::random::RandomSource;
use std::rt::{Env, Files};

// `counterexample NEW OLD OUT`. On 30 the document is written, and judged by the old schema: the second
// line is where an old board stops. The buffer has the length that the service asks for. The first
// table is the new schema's, then the document's.
pub fn counterexample(
    rt: &(impl Env + Files + RandomSource + Print),
    new: &[u8],
    old: &[u8],
    table1: &mut [u32],
    table2: &mut [u32],
) {
    let mut buffer = [0u8; LIMIT];
    let answer = counterexample::counterexample(new, old, table1, table2, &mut buffer);
    if answer.code != 30 {
        return print_line(rt, answer);
    }
    let document = &buffer[..answer.other as usize];
    if let Err(no_file) = save(rt, 4, document) {
        return print_line(rt, no_file);
    }
    print_line(rt, answer);
    let mut dates = [0i64; 3];
    let mut path = [0u32; PATH_WORDS];
    print_line(
        rt,
        schema::check(document, old, table1, table2, &mut dates, &mut path).answer,
    );
}
