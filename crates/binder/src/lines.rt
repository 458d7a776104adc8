// The lines of a binder's report, put into the caller's buffer. Each function yields the place after what it put.
ghost use Rattle.std.specs.Prelude.{◌≡◌, ◌≤◌, ◌<◌, length};
ghost use Rattle.text.specs.Buffer.{room, Put};
ghost use Rattle.binder.specs.Week.{row_line, refused_binder};
ghost use Rattle.binder.specs.Counts.{row_at, rows_to, week_lines};

use crate::counts::Counts;
use text::{put_byte, put_line, put_named, put_number, put_text};

// A row of the table, counted from 0: its kind, or `other` for the last, and its counts.
fn put_row(out: &mut [u8], at: usize, row: usize, counts: &[usize]) -> usize
    requires { (row < 13) × (length counts.now ≡ 21) }
    ensures put { Put out.old at (row_line (row_at row) counts.now) out.new result }
    ensures counts_len_bound { length (row_line (row_at row) counts.now) ≤ 450 }
{
    if row < 12 {
        let kind = put_number(out, at, row + 1);
        let next = put_byte(out, kind, b' ');
        return put_line(out, next, counts);
    }
    let next = put_text(out, at, b"other ");
    put_line(out, next, counts)
}

// The rows of the table.
fn put_rows(out: &mut [u8], at: usize, cells: &[usize; 273]) -> usize
    ensures put { Put out.old at (rows_to cells.now 13) out.new result }
    ensures cells_len_bound { length (rows_to cells.now 13) ≤ 5850 }
{
    let (rows, _) = cells.as_chunks::<21>();
    let mut end = at;
    for (row, counts) in rows.iter().enumerate() {
        end = put_row(out, end, row, counts);
    }
    end
}

// The whole report of these counts, from the buffer's first byte on.
pub(crate) fn put_week(out: &mut [u8], c: Counts) -> usize
    ensures put { Put out.old 0 (week_lines c) out.new result }
    ensures c_len_bound { length (week_lines c) ≤ room }
{
    let mut at = put_named(out, 0, b"files ", c.played);
    at = put_named(out, at, b"refused 5 ", c.refused5);
    at = put_named(out, at, b"refused 6 ", c.refused6);
    at = put_named(out, at, b"refused 7 ", c.refused7);
    at = put_text(
        out,
        at,
        b"kind 0 1 2 3 4 10 11 12 13 14 15 16 17 18 19 20 21 22 23 24 25\n",
    );
    at = put_rows(out, at, &c.cells);
    at = put_named(out, at, b"moves ", c.moves);
    put_named(out, at, b"landings ", c.landings)
}

// The report of a refused binder, from the buffer's first byte on.
pub(crate) fn put_refused(out: &mut [u8], number: u16) -> usize
    ensures { Put out.old 0 (refused_binder number) out.new result }
{
    put_named(out, 0, b"binder ", number as usize)
}
