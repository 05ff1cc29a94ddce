// Operations on two lists' rows, by their truth tables.
ghost use Rattle.std.specs.Prelude.{◌≡◌};
ghost use Rattle.boundary.specs.Merge.{op_of};
ghost use Rattle.boundary.specs.Values.{odd_at};

// Bit 0 of the table says what the operation says of a row in neither list, bit 1 of one in the right alone, bit 2 in the left alone, bit 3 in both.
#[derive(Clone, Copy, Debug, PartialEq, Eq)]
pub struct Operation {
    pub table: u8,
}

pub const UNION: Operation = Operation { table: 14 };

pub const INTERSECT: Operation = Operation { table: 8 };

pub const DIFFERENCE: Operation = Operation { table: 4 };

pub const RIGHT: Operation = Operation { table: 10 };

impl Operation {
    // What the operation says between the boundaries before i and j: the rows before an odd index are in a run.
    pub fn state(self, i: usize, j: usize) -> bool
        ensures { result ≡ op_of self.table (odd_at i) (odd_at j) }
    {
        let at = (i % 2 * 2 + j % 2) as u8;
        (self.table >> at) % 2 == 1
    }
}
