// "The twelve letters and what may follow each form one fixed table", fifteen with those of Card 1 of 02: a constant table from letter to
// field shape.
ghost use Rattle.std.specs.Prelude.{◌≡◌, ◌≤◌, ◌<◌};
ghost use Rattle.rules.specs.Table.{row_of};
ghost use Rattle.lines.specs.Shapes.{shape_row, row_shown};

// The shape of the line that a byte starts. A shape has a byte for each part of a line, the lowest for its role, from 1; then, upwards, the
// items that follow the letter, from the left. 0 is a byte that starts no line. A match on constants is compiled to a table in read-only
// memory, where a constant array would be stored anew at each call; with the small letters in it it would be too thin for one.
pub fn shape(letter: u8) -> u64
    ensures { shape_row result ≡ row_shown (row_of letter) }
{
    if letter < b'a' {
        large(letter)
    } else {
        small(letter)
    }
}

// The rows of the large letters.
#[tactic(auto, unfolding(crate::specs::Shapes::shape_row, crate::specs::Shapes::row_shown, crate::specs::Shapes::items_of, crate::specs::Shapes::item_of, crate::specs::Shapes::kind_of, rules::specs::Table::row_of, rules::specs::Table::table, rules::specs::Table::role_number))]
fn large(letter: u8) -> u64
    requires { letter < 97 }
    ensures { shape_row result ≡ row_shown (row_of letter) }
{
    match letter {
        b'A' => 0x14_14_14_14_03,
        b'B' => 0x0c_0b_05,
        b'D' => 0x0d_07,
        b'E' => 0x0e_0d_07,
        b'F' => 0x0c_0b_05,
        b'I' => 0x14_02,
        b'L' => 0x10_0f_07,
        b'M' => 0x09_15_08_04,
        b'N' => 0x07_06_01_05_04_04_03_01,
        b'O' => 0x02_0a_05,
        b'P' => 0x16_06,
        b'W' => 0x0c_0b_0c_05,
        _ => 0,
    }
}

// The rows of the small ones.
#[tactic(auto, unfolding(crate::specs::Shapes::shape_row, crate::specs::Shapes::row_shown, crate::specs::Shapes::items_of, crate::specs::Shapes::item_of, crate::specs::Shapes::kind_of, rules::specs::Table::row_of, rules::specs::Table::table, rules::specs::Table::role_number))]
fn small(letter: u8) -> u64
    requires { 97 ≤ letter }
    ensures { shape_row result ≡ row_shown (row_of letter) }
{
    match letter {
        b'b' => 0x0c_0b_05,
        b'f' => 0x0c_0b_05,
        b'w' => 0x0c_0b_0c_05,
        _ => 0,
    }
}
