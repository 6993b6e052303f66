// The fields of a case that was read: one number for each field of its text, in order. Every phase after reading takes its numbers from
// here, by the places in the directory, and sees no byte of the text.
#![tactic(auto)]

ghost use Rattle.std.specs.Prelude.{◌≡◌};
ghost use Rattle.fields.specs.Directory.{node_size};

// How many fields a text of at most 65,535 bytes can have: each takes at least two bytes.
pub const FIELDS: usize = 32768;

// Where the places of the methods' lines start in the directory, after those of at most 1,024 actions.
pub const METHODS_FROM: usize = 1024;

// How many places the directory has.
pub const DIRECTORY: usize = 3072;

// How many fields a node line has. Its letter is a number of the list that C lends, so no enum.
pub fn node_size(letter: u32) -> usize
    ensures { result ≡ node_size letter }
{
    if letter == u32::from(b'D') { 2 } else { 3 }
}
