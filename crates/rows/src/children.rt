// The children of an object or an array, one after the other.
ghost use Rattle.std.specs.Iterator.{at_most};
ghost use Rattle.rows.specs.Records.{ObjectRow, ArrayRow};
ghost use Rattle.rows.specs.Children.{Ahead, Gives, Begins};

use crate::records::Tree;

// The children that are left: the row of the next, and how many they are. A child's value is NAME rows behind the child's first row: 1 behind a name, 0 in an array.
#[derive(Clone, Copy, Debug, PartialEq, Eq)]
pub struct Children<'a, const NAME: usize> {
    tree: Tree<'a>,
    row: usize,
    left: u32,
}

impl<'a, const NAME: usize> Iterator for Children<'a, NAME> {
    type Item = usize;

    ghost can_next = { Ahead };

    ghost next_gives = { Gives };

    ghost remaining = { λ c. at_most c.left };

    fn next(&mut self) -> Option<usize> {
        if self.left == 0 {
            return None;
        }
        let row = self.row;
        self.row = self.tree.row_at(row + NAME).next;
        self.left -= 1;
        Some(row)
    }
}

impl<'a> Tree<'a> {
    // The rows of the names of the object at a row; the value under each stands at the row behind.
    pub fn members(self, object: usize) -> Children<'a, 1>
        requires { ObjectRow self.text.now self.table.now object }
        ensures { Begins self.entry.table.now object result }
    {
        Children {
            tree: self,
            row: object + 1,
            left: self.row_at(object).children,
        }
    }

    // The rows of the elements of the array at a row.
    pub fn elements(self, array: usize) -> Children<'a, 0>
        requires { ArrayRow self.text.now self.table.now array }
        ensures { Begins self.entry.table.now array result }
    {
        Children {
            tree: self,
            row: array + 1,
            left: self.row_at(array).children,
        }
    }
}
