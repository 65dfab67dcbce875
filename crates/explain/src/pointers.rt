// The pointer of a value, token by token from the top down.
ghost use Rattle.explain.specs.Writing.{ElementRow, Counts, TokenReady, TokenPut, PointerReady, PointerWritten};

use crate::pieces::{put, put_index, put_name};
use rows::Tree;

// The index of the element at row `child` in the array at row `parent`.
// The loop counts by hand, since the contract tells of the rows of the elements alone, and `elements` would also ask for the row of the array.
fn index_of(tree: Tree, parent: usize, child: usize) -> usize
    requires { ElementRow tree.table.now parent child }
    ensures { Counts tree.entry.table.now parent child result }
{
    let mut row = parent + 1;
    let mut index = 0;
    while row < child {
        row = tree.row_at(row).next;
        index += 1;
    }
    index
}

// The token of the value at row `child` in the array or object at row `parent`. A member's name has the row before its value.
fn put_token(tree: Tree, parent: usize, child: usize, out: &mut [u8], at: usize) -> usize
    requires { TokenReady tree.text.now tree.table.now parent child at }
    ensures { TokenPut tree.entry.text.now tree.entry.table.now parent child at result out.old out.new }
{
    let behind = put(out, at, b'/');
    if tree.row_at(parent).kind == 8 {
        let name = tree.row_at(child - 1);
        return put_name(out, behind, tree.between(name.first, name.end));
    }
    put_index(out, behind, index_of(tree, parent, child))
}

// Writes the pointer of the value whose row is the first of `path`, behind which stand the rows around it, up to 0. Of the pointer the buffer gets what fits,
// and the whole length is told.
pub fn write_pointer(tree: Tree, path: &[u32], out: &mut [u8]) -> usize
    requires { PointerReady tree.text.now tree.table.now path.now }
    ensures { PointerWritten tree.entry.text.now tree.entry.table.now path.now result out.old out.new }
{
    let mut at = 0;
    for pair in path.windows(2).rev() {
        at = put_token(tree, pair[1] as usize, pair[0] as usize, out, at);
    }
    at
}
