// What is known before a line is read, as numbers: the header's in their order, the subtask count of the method whose constraints are read, and
// then for each kind of number the least and the greatest of its range.
ghost use Rattle.lines.specs.Ranges.{Known};

// How many numbers that is.
pub const KNOWN: usize = 48;

// No heap, fixed memory: one array, lent to every function that reads a line.
#[derive(Clone, Copy)]
pub struct Known {
    pub numbers: [u32; KNOWN],
    // The ranges are those of the header and the subtask count before them.
    pub ghost known: { Known numbers },
}
