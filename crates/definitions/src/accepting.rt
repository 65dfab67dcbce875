// A schema is accepted where its text is read with room and is a definition (01, "Three services").
ghost use Rattle.std.specs.Prelude.{◌≡◌, length};
ghost use Rattle.syntax.specs.Answer.{table_of};
ghost use Rattle.definitions.specs.Accepting.{read_schema, accept as acceptOf, accept_result};

use crate::definitions::define;
use reader::read_within;
use rows::Tree;
use syntax::{Answer, Limits};

// Reads text number `which`, a schema, and judges whether it is a definition; the answer is given where it is not accepted.
pub fn accept(which: u32, schema: &[u8], table: &mut [u32]) -> Result<(), Answer>
    ensures answers { result ≡ accept_result (acceptOf which (length table.old) schema.now) }
    ensures rows { table.new ≡ table_of table.old (read_schema schema.now) }
{
    let read = read_within(Limits::schema(), which, schema, table);
    // A service answers four numbers (01, "Three services"), so that a refusal is told by its code.
    if read.code != 0 {
        return Err(read);
    }
    let tree = Tree {
        text: schema,
        table,
    };
    if let Err(fault) = define(tree, 0) {
        return Err(Answer::new(u32::from(fault.code), which, fault.place, 0));
    }
    Ok(())
}
