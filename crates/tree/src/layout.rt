// The areas of the lent work space after the directory of lines, as the definitions lay them out (specs/Layout).

// A mark for each position.
pub const MARKS: usize = 3072;

// The nodes of the subtasks of the node under test.
pub const SUBTASKS: usize = 4072;

// A row of three numbers for each node: doubled start, doubled end, the node after its subtree.
pub const ROWS: usize = 7168;
