// Compare's sister (02, L1): on 30 it writes a document that meets the new schema and fails the old.
ghost use Rattle.std.specs.Prelude.{◌≡◌, length};
ghost use Rattle.syntax.specs.Answer.{table_of};
ghost use Rattle.definitions.specs.Accepting.{read_schema};
ghost use Rattle.comparison.specs.Comparing.{compare_table};
ghost use Rattle.counterexample.specs.Counterexample.{Promises, table_unless_short};

use crate::witnesses::write_witness;
use comparison::compare;
use rows::Tree;
use syntax::Answer;

// Compares a new schema with an old one, and on 30 writes the document.
pub fn counterexample(
    new: &[u8],
    old: &[u8],
    table1: &mut [u32],
    table2: &mut [u32],
    buffer: &mut [u8],
) -> Answer
    ensures promises { Promises (length table1.old) (length table2.old) new.now old.now result buffer.old buffer.new }
    ensures rows1 { table1.new ≡ table_unless_short (length buffer.old) table1.old (table_of table1.old (read_schema new.now)) }
    ensures rows2 { table2.new ≡ table_unless_short (length buffer.old) table2.old (compare_table (length table1.old) table2.old new.now old.now) }
{
    if buffer.len() < 65536 {
        return Answer::new(31, 0, 0, 0);
    }
    let compared = compare(new, old, table1, table2);
    if compared.code != 30 {
        return compared;
    }
    let new = Tree {
        text: new,
        table: table1,
    };
    let old = Tree {
        text: old,
        table: table2,
    };
    let n = write_witness(new, old, 0, 0, buffer);
    Answer::new(30, 0, 0, n as u32)
}
