// The rows of a text as the first pass keeps them, a word for each.
ghost use Rattle.std.specs.Prelude.{◌≡◌, ◌+◌, ◌*◌, ◌≤◌, ◌<◌};
ghost use Rattle.marks.specs.Marks.{leaf_mark, list_mark, branch_number};

use crate::packing::pack;

// A value that holds no other.
pub fn leaf_mark(kind: u32, first: usize, end: usize) -> u64
    requires { (kind < 65536) × (first < end) × (end ≤ 65536) }
    ensures { result ≡ leaf_mark kind first end }
{
    pack(first, end - 1, 0, kind as usize)
}

// A value that holds others.
#[derive(Clone, Copy, Debug, PartialEq, Eq)]
pub enum Branch {
    Array,
    Object,
}

impl From<Branch> for usize {
    ghost from_gives = { λ branch n. n ≡ branch_number branch };

    // The number of a branch in a mark.
    fn from(branch: Branch) -> usize {
        match branch {
            Branch::Array => 0,
            Branch::Object => 1,
        }
    }
}

// An array, of which `object` is 0, or an object, of which it is 1.
pub fn list_mark(object: usize, first: usize, end: usize, children: usize, rows: usize) -> u64
    requires { (first < end) × (end ≤ 65536) × (2 * children + object < 65536) × (rows < 65536) }
    ensures { result ≡ list_mark object first end children rows }
{
    pack(first, end - 1, rows, 2 * children + object)
}
