// The programs' line: "prints Y,k,n or R,number,line,item and a line feed".
#![tactic(auto)]

ghost use Rattle.std.specs.Prelude.{◌≡◌, ◌≤◌, length, drop};
ghost use Rattle.rules.specs.Line.{printed_report};
ghost use Rattle.replies.specs.Replies.{report_of};

use replies::Reply;
use report::LONGEST;

const STDOUT: i32 = 1;

// The line of a reply, at the end of `out`; answers where it starts.
fn line_of(r: Reply, out: &mut [u8]) -> usize
    requires { 35 ≤ length out.old }
    ensures out_after { drop result out.new ≡ printed_report (report_of r) }
    ensures upper_bound { result ≤ length out.new }
{
    report::line(r.number, r.line, r.item, r.cues, r.nodes, out)
}

// Nothing can be promised of a write; the bytes that it is handed are those of `line_of`.
pub fn print_reply(r: Reply) {
    let mut out = [0u8; LONGEST];
    let n = line_of(r, &mut out);
    io::write_all(STDOUT, &out[n..]);
}
