// How many fields a line of a case has, by the table of letters that the line reader goes by, and where lines end.
#![tactic(auto)]

ghost use Rattle.std.specs.Prelude.{◌≡◌, List, ◌+◌, length};
ghost use Rattle.rules.specs.Table.{Value};
ghost use Rattle.rules.specs.Case.{Valued};
ghost use Rattle.rules.specs.Fields.{item_fields, line_fields, lines_fields};
ghost use Rattle.fields.specs.Standing.{Stands};
ghost use Rattle.lines.specs.Shapes.{item_of};
ghost use Rattle.sizes.specs.Sizes.{IsOf, IsLine, AreLines};

// The fields of the item that a shape's byte stands for: one number; a count with its members; or as many actions as there are cues.
fn item_size(fields: &[u32], at: usize, item: u64, cues: u32) -> usize
    requires { (v : Value) × IsOf cues (item_of item) v × Stands fields.now at (item_fields (item_of item) v) }
    ensures { (v : Value) → IsOf cues (item_of item) v → Stands fields.now at (item_fields (item_of item) v) → result ≡ length (item_fields (item_of item) v) }
{
    if item < 20 {
        return 1;
    }
    if item < 22 {
        return 1 + fields[at] as usize;
    }
    cues as usize
}

// The fields of the line at `at`: its letter, and its items by the shape's bytes, lowest first. A `while`: the line ends where no byte is left.
pub fn line_size(fields: &[u32], at: usize, cues: u32) -> usize
    requires { (x : Valued) × IsLine cues x × Stands fields.now at (line_fields x) }
    ensures { (x : Valued) → IsLine cues x → Stands fields.now at (line_fields x) → result ≡ length (line_fields x) }
{
    let mut rest = lines::shape(fields[at] as u8) / 256;
    let mut size: usize = 1;
    while rest != 0 {
        size += item_size(fields, at + size, rest % 256, cues);
        rest /= 256;
    }
    size
}

// Where the `count` lines that start at `at` end.
pub fn past_lines(fields: &[u32], at: usize, count: usize, cues: u32) -> usize
    requires { (xs : List Valued) × (length xs ≡ count) × AreLines cues xs × Stands fields.now at (lines_fields xs) }
    ensures { (xs : List Valued) → length xs ≡ count → AreLines cues xs → Stands fields.now at (lines_fields xs) → result ≡ at + length (lines_fields xs) }
{
    let mut past = at;
    for _i in 0..count {
        past += line_size(fields, past, cues);
    }
    past
}
