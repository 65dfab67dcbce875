// Compare (01, "Three services"): both schemas are taken, the new one first, and their definitions compared.
ghost use Rattle.std.specs.Prelude.{◌≡◌, length};
ghost use Rattle.syntax.specs.Answer.{table_of};
ghost use Rattle.definitions.specs.Accepting.{read_schema};
ghost use Rattle.comparison.specs.Comparing.{Compares, compare_table};

use crate::carrying::carried;
use definitions::accept;
use rows::Tree;
use syntax::Answer;

// Compares a new schema with an old one.
pub fn compare(new: &[u8], old: &[u8], table1: &mut [u32], table2: &mut [u32]) -> Answer
    ensures compares { Compares (length table1.old) (length table2.old) new.now old.now result }
    ensures rows1 { table1.new ≡ table_of table1.old (read_schema new.now) }
    ensures rows2 { table2.new ≡ compare_table (length table1.old) table2.old new.now old.now }
{
    if let Err(answer) = accept(1, new, table1) {
        return answer;
    }
    if let Err(answer) = accept(2, old, table2) {
        return answer;
    }
    let new = Tree {
        text: new,
        table: table1,
    };
    let old = Tree {
        text: old,
        table: table2,
    };
    if carried(new, old, 0, 0) {
        return Answer::new(0, 0, 0, 0);
    }
    Answer::new(30, 0, 0, 0)
}
