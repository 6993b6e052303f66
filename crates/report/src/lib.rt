// The program's line (01, "The check and replay calls"): "prints Y,k,n or R,number,line,item and a line feed". A number's last digit is found
// first, so the line is written from its end.
#![tactic(auto)]

ghost use Rattle.std.specs.Prelude.{◌≡◌, [], ◌∷◌, ◌≤◌, ◌<◌, length, drop};
ghost use Rattle.rules.specs.Line.{printed_report};
ghost use Rattle.rules.specs.Text.{decimal};
ghost use Rattle.report.specs.Put.{Put};

// The longest line: a letter, three commas with ten digits each, and the line feed.
pub const LONGEST: usize = 35;

// A byte before place `at`.
fn put(byte: u8, at: usize, out: &mut [u8]) -> usize
    requires { (0 < at) × (at ≤ length out.old) }
    ensures { Put (byte ∷ []) 1 at out.old result out.new }
{
    let i = at - 1;
    out[i] = byte;
    i
}

// A number in base ten before place `at`, by hand: no heap, and the bytes go to a lent list. A `while`: how many digits there are shows only as they are taken off.
fn put_decimal(n: u32, at: usize, out: &mut [u8]) -> usize
    requires { (10 ≤ at) × (at ≤ length out.old) }
    ensures { Put (decimal n) 10 at out.old result out.new }
{
    let mut rest = n;
    let mut i = at;
    while rest >= 10 {
        i = put(b'0' + (rest % 10) as u8, i, out);
        rest /= 10;
    }
    put(b'0' + rest as u8, i, out)
}

// A comma and a number before place `at`.
fn put_field(n: u32, at: usize, out: &mut [u8]) -> usize
    requires { (11 ≤ at) × (at ≤ length out.old) }
    ensures { Put (44 ∷ decimal n) 11 at out.old result out.new }
{
    let i = put_decimal(n, at, out);
    put(b',', i, out)
}

// The line of an answer, at the end of `out`; answers where it starts. It takes the numbers that C gets, of which number 0 is an acceptance.
pub fn line(number: u32, line: u32, item: u32, cues: u32, nodes: u32, out: &mut [u8]) -> usize
    requires { 35 ≤ length out.old }
    ensures out_after { drop result out.new ≡ printed_report (record { number = number; line = line; item = item; cues = cues; nodes = nodes }) }
    ensures upper_bound { result ≤ length out.new }
{
    let feed = put(b'\n', out.len(), out);
    if number == 0 {
        let n = put_field(nodes, feed, out);
        let k = put_field(cues, n, out);
        put(b'Y', k, out)
    } else {
        let i = put_field(item, feed, out);
        let l = put_field(line, i, out);
        let n = put_field(number, l, out);
        put(b'R', n, out)
    }
}
