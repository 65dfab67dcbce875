// The members of an object by name.
ghost use Rattle.chars.specs.Strings.{characters};
ghost use Rattle.rows.specs.Records.{ObjectRow};
ghost use Rattle.rows.specs.Finding.{Finds};

use crate::records::Tree;
use chars::same_name;

impl<'a> Tree<'a> {
    // The row of the value under a name, given as the bytes between its quotes, in the object at a row.
    pub fn find(self, object: usize, key: &[u8]) -> Option<usize>
        requires { ObjectRow self.text.now self.table.now object }
        ensures { Finds self.entry.text.now self.entry.table.now object (characters key.now) result }
    {
        for row in self.members(object) {
            let name = self.row_at(row);
            if same_name(key, self.between(name.first, name.end)) {
                return Some(row + 1);
            }
        }
        None
    }
}
