// The lines of a report of calls, put into the caller's buffer. Each function yields the place after what it put.
ghost use Rattle.std.specs.Prelude.{◌≤◌, length};
ghost use Rattle.session.specs.Report.{answer_line};
ghost use Rattle.text.specs.Buffer.{Put};
ghost use Rattle.calls_report.specs.CallsReport.{last_line};

use history::History;
use questions::counts::present_on;
use rules::Answer;
use text::{put_line, put_text};

// The line of a call: its index and its answer.
#[tactic(auto, unfolding(session::specs::Report::answer_line))]
pub(crate) fn put_answer(out: &mut [u8], at: usize, index: usize, a: Answer) -> usize
    ensures { Put out.old at (answer_line index a) out.new result }
{
    let numbers = [
        index,
        a.number as usize,
        a.aircraft as usize,
        a.zone,
        a.fix as usize,
        a.leader as usize,
        a.along as usize,
    ];
    put_line(out, at, &numbers)
}

// The last line: how many are present, and how many fields are kept.
pub(crate) fn put_last(out: &mut [u8], at: usize, h: History) -> usize
    ensures put { Put out.old at (last_line h) out.new result }
    ensures h_len_bound { length (last_line h) ≤ 46 }
{
    let x = h.now;
    let present = present_on(x.field);
    let next = put_text(out, at, b"end ");
    put_line(out, next, &[present, h.count])
}
