// The reports that the programs print, from bytes to bytes, and the writer of practice files.
ghost use Rattle.std.specs.Prelude.{◌≡◌, [], ◌∷◌, ◌++◌, ◌≤◌, length, drop};
ghost use Rattle.text.specs.Buffer.{room};
ghost use Rattle.session.specs.Report.{report_of};
ghost use Rattle.binder.specs.Week.{week_of};
ghost use Rattle.demonstration.specs.Demonstration.{button_of};
ghost use Rattle.spaced.specs.Spaced.{spaced_of, spaced_room};
ghost use Rattle.writer.specs.Writer.{writing_number, writing_of, buffer_after};
ghost use Rattle.listing.specs.Report.{listed_of, built_of, classroom_room};
ghost use Rattle.calls_report.specs.CallsReport.{desks_of};

use crate::widths::{in_16, legs_in_16};
use binder::week;
use calls_report::desks;
use demonstration::button;
use listing::{ClassroomBuffer, listed, rebuilt};
use session::{report, report_judged};
use spaced::{SpacingBuffer, spaced};
use text::Buffer;
use writer::write;

// A practice file played.
#[unsafe(no_mangle)]
pub extern "C" fn baguymo_report(file: &[u8], out: &mut Buffer) -> usize
    ensures value { result ≡ length (report_of file.now) }
    ensures out_after { out.new ≡ report_of file.now ++ drop result out.old }
    ensures upper_bound { result ≤ room }
{
    report(file, out)
}

// The same, with every field judged.
#[unsafe(no_mangle)]
pub extern "C" fn baguymo_report_judged(file: &[u8], out: &mut Buffer) -> usize
    ensures value { result ≡ length (report_of file.now) }
    ensures out_after { out.new ≡ report_of file.now ++ drop result out.old }
    ensures upper_bound { result ≤ room }
{
    report_judged(file, out)
}

// A binder of practice files.
#[unsafe(no_mangle)]
pub extern "C" fn baguymo_week(binder: &[u8], out: &mut Buffer) -> usize
    ensures value { result ≡ length (week_of binder.now) }
    ensures out_after { out.new ≡ week_of binder.now ++ drop result out.old }
    ensures upper_bound { result ≤ room }
{
    week(binder, out)
}

// The button held down after a practice file.
#[unsafe(no_mangle)]
pub extern "C" fn baguymo_button(file: &[u8], out: &mut Buffer) -> usize
    ensures value { result ≡ length (button_of file.now) }
    ensures out_after { out.new ≡ button_of file.now ++ drop result out.old }
    ensures upper_bound { result ≤ room }
{
    button(file, out)
}

// The spacing after a practice file.
#[unsafe(no_mangle)]
pub extern "C" fn baguymo_spacing(file: &[u8], spacing: usize, out: &mut SpacingBuffer) -> usize
    ensures value { result ≡ length (spaced_of file.now spacing) }
    ensures out_after { out.new ≡ spaced_of file.now spacing ++ drop result out.old }
    ensures upper_bound { result ≤ spaced_room }
{
    spaced(file, in_16(spacing), out)
}

// A practice file written: the number, and in `size` the file's length.
#[unsafe(no_mangle)]
pub extern "C" fn baguymo_write(
    base: usize,
    intermediate: usize,
    final_approach: usize,
    missed: usize,
    requests: &[u8],
    out: &mut [u8],
    size: &mut [usize; 1],
) -> u16
    ensures value { result ≡ writing_number (record { base = base; intermediate = intermediate; final_approach = final_approach; missed = missed })
        requests.now (length out.old) }
    ensures out_after { out.new ≡ buffer_after (record { base = base; intermediate = intermediate; final_approach = final_approach; missed = missed })
        requests.now out.old }
    ensures size_after { size.new ≡ (writing_of (record { base = base; intermediate = intermediate; final_approach = final_approach; missed = missed })
        requests.now (length out.old)).length ∷ [] }
{
    let legs = legs_in_16(base, intermediate, final_approach, missed);
    let lent: &mut [usize] = size;
    let w = write(legs, requests, out);
    lent[0] = w.length;
    w.number
}

// The classroom list of the field after a practice file.
#[unsafe(no_mangle)]
pub extern "C" fn baguymo_list(file: &[u8], out: &mut ClassroomBuffer) -> usize
    ensures value { result ≡ length (listed_of file.now) }
    ensures out_after { out.new ≡ listed_of file.now ++ drop result out.old }
    ensures upper_bound { result ≤ classroom_room }
{
    listed(file, out)
}

// The field that a classroom list builds.
#[unsafe(no_mangle)]
pub extern "C" fn baguymo_field(input: &[u8], out: &mut ClassroomBuffer) -> usize
    ensures value { result ≡ length (built_of input.now) }
    ensures out_after { out.new ≡ built_of input.now ++ drop result out.old }
    ensures upper_bound { result ≤ classroom_room }
{
    rebuilt(input, out)
}

// Calls by two desks.
#[unsafe(no_mangle)]
pub extern "C" fn baguymo_desks(input: &[u8], out: &mut Buffer) -> usize
    ensures value { result ≡ length (desks_of input.now) }
    ensures out_after { out.new ≡ desks_of input.now ++ drop result out.old }
    ensures upper_bound { result ≤ room }
{
    desks(input, out)
}
