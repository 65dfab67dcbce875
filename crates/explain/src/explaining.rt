// Check, and the pointer to its mismatch (02, L11).
ghost use Rattle.std.specs.Prelude.{◌≡◌, length};
ghost use Rattle.syntax.specs.Answer.{table_of};
ghost use Rattle.definitions.specs.Accepting.{read_schema};
ghost use Rattle.schema.specs.Checking.{check_answer, check_table};
ghost use Rattle.explain.specs.Pointers.{check_pointer, fitted};

use crate::pointers::write_pointer;
use rows::Tree;
use schema::PATH_WORDS;
use syntax::Answer;

// Check's answer, and how many bytes the pointer has. That is 0 where there is none, as the contract of `explain` says.
#[derive(Clone, Copy, Debug, PartialEq, Eq)]
pub struct Explained {
    pub answer: Answer,
    pub length: usize,
}

// Checks a document against a schema, and writes the pointer of the value at the place of its mismatch: what fits of it. The length is that of the
// whole, and 0 where there is no mismatch.
pub fn explain(
    document: &[u8],
    schema: &[u8],
    table1: &mut [u32],
    table2: &mut [u32],
    out: &mut [u8],
) -> Explained
    ensures answers { result.answer ≡ check_answer (length table1.old) (length table2.old) document.now schema.now }
    ensures rows1 { table1.new ≡ check_table table1.old (length table2.old) document.now schema.now }
    ensures rows2 { table2.new ≡ table_of table2.old (read_schema schema.now) }
    ensures points { out.new ≡ fitted (check_pointer (length table1.old) (length table2.old) document.now schema.now) out.old }
    ensures lengths { result.length ≡ length (check_pointer (length table1.old) (length table2.old) document.now schema.now) }
{
    let mut dates = [0i64; 3];
    let mut path = [0u32; PATH_WORDS];
    let checked = schema::check(document, schema, table1, table2, &mut dates, &mut path);
    let answer = checked.answer;
    // Check tells a mismatch by its code alone, since C reads the four numbers of an answer.
    if answer.code < 20 {
        return Explained { answer, length: 0 };
    }
    let tree = Tree {
        text: document,
        table: table1,
    };
    let length = write_pointer(tree, &path[..checked.steps as usize], out);
    Explained { answer, length }
}
