// Check (01, "Three services"; 02, L3 and L11).
ghost use Rattle.std.specs.Prelude.{◌≡◌, ◌↔◌, [], ◌≤◌, length};
ghost use Rattle.syntax.specs.Answer.{table_of};
ghost use Rattle.definitions.specs.Accepting.{read_schema, accept as acceptOf};
ghost use Rattle.schema.specs.Dates.{dates_of, Spans};
ghost use Rattle.schema.specs.Checking.{check_answer, check_table, Meeting, check_moments, both_result};
ghost use Rattle.schema.specs.Paths.{check_path, list_after, path_words, short_answer, by_list};

use crate::dates::Dates;
use crate::judging::judge;
use crate::paths::{PATH_WORDS, write_path};
use definitions::accept;
use reader::read_within;
use rows::Tree;
use syntax::{Answer, Limits};

// The answer, and how many rows the path has.
#[derive(Clone, Copy, Debug, PartialEq, Eq)]
pub struct Checked {
    pub answer: Answer,
    pub steps: u32,
}

// Reads both texts, the schema first; the answer is given where one is refused, has no room or is no definition.
fn read_both(
    document: &[u8],
    schema: &[u8],
    table1: &mut [u32],
    table2: &mut [u32],
) -> Result<(), Answer>
    ensures answers { result ≡ both_result (acceptOf 2 (length table2.old) schema.now) (length table1.old) document.now }
    ensures rows1 { table1.new ≡ check_table table1.old (length table2.old) document.now schema.now }
    ensures rows2 { table2.new ≡ table_of table2.old (read_schema schema.now) }
{
    accept(2, schema, table2)?;
    let read = read_within(Limits::document(), 1, document, table1);
    // A service answers four numbers (01, "Three services"), so that a refusal is told by its code.
    if read.code != 0 {
        return Err(read);
    }
    Ok(())
}

// Checks a document against a schema, counts its dates and writes the path to its mismatch.
pub fn check(
    document: &[u8],
    schema: &[u8],
    table1: &mut [u32],
    table2: &mut [u32],
    dates: &mut [i64; 3],
    path: &mut [u32],
) -> Checked
    ensures answers { result.answer ≡ by_list (length path.old) short_answer (check_answer (length table1.old) (length table2.old) document.now schema.now) }
    ensures rows1 { table1.new ≡ by_list (length path.old) table1.old (check_table table1.old (length table2.old) document.now schema.now) }
    ensures rows2 { table2.new ≡ by_list (length path.old) table2.old (table_of table2.old (read_schema schema.now)) }
    ensures meets { path_words ≤ length path.old → (result.answer.code ≡ 0) ↔ Meeting (length table1.old) (length table2.old) document.now schema.now }
    ensures dated { dates.new ≡ dates_of (by_list (length path.old) [] (check_moments (length table1.old) (length table2.old) document.now schema.now)) }
    ensures spans { Spans (by_list (length path.old) [] (check_moments (length table1.old) (length table2.old) document.now schema.now)) dates.new }
    ensures paths { path.new ≡ list_after (by_list (length path.old) [] (check_path (length table1.old) (length table2.old) document.now schema.now)) path.old }
    ensures steps { result.steps ≡ length (by_list (length path.old) [] (check_path (length table1.old) (length table2.old) document.now schema.now)) }
{
    *dates = [0; 3];
    if path.len() < PATH_WORDS {
        return Checked {
            answer: Answer::new(8, 0, 0, PATH_WORDS as u32),
            steps: 0,
        };
    }
    if let Err(answer) = read_both(document, schema, table1, table2) {
        return Checked { answer, steps: 0 };
    }
    let tree = Tree {
        text: document,
        table: table1,
    };
    let definition = Tree {
        text: schema,
        table: table2,
    };
    let mut counted = Dates::none();
    match judge(tree, definition, 0, 0, &mut counted) {
        Ok(()) => {
            *dates = counted.numbers();
            Checked {
                answer: Answer::new(0, 0, 0, 0),
                steps: 0,
            }
        }
        Err(found) => {
            let steps = write_path(table1, found.place, path);
            Checked {
                answer: Answer::new(u32::from(found.code), 1, found.place, found.other),
                steps: steps as u32,
            }
        }
    }
}
