// The counts that the report of a binder is made from, kept answer by answer and file by file.
ghost use Rattle.std.specs.Prelude.{◌≡◌, ◌≤◌, true, length};
ghost use Rattle.limits.specs.Limits.{most_requests};
ghost use Rattle.field.specs.Lists.{Each};
ghost use Rattle.binder.specs.Counts.{Small, Columned, is_column, empty_counts, with_number, with_answer, with_answers};

use week_table::{cell_of, landed, moved};

// How many files play and how many are refused 5, 6 and 7; how many moves and landings there were; and the table of numbers by kind, row
// by row.
#[derive(Clone, Copy)]
pub(crate) struct Counts {
    pub played: usize,
    pub refused5: usize,
    pub refused6: usize,
    pub refused7: usize,
    pub moves: usize,
    pub landings: usize,
    pub cells: [usize; 273],
}

// The counts before the first file.
pub(crate) fn empty_counts() -> Counts
    ensures { result ≡ empty_counts }
{
    Counts {
        played: 0,
        refused5: 0,
        refused6: 0,
        refused7: 0,
        moves: 0,
        landings: 0,
        cells: [0; 273],
    }
}

impl Counts {
    // Counts a file of this number.
    pub(crate) fn add_number(&mut self, number: u16)
        requires { Small 1000000 self.old }
        ensures { self.new ≡ with_number self.old number }
    {
        self.played += usize::from(number == 0);
        self.refused5 += usize::from(number == 5);
        self.refused6 += usize::from(number == 6);
        self.refused7 += usize::from(number == 7);
    }

    // Counts a request of this kind that was answered with this number.
    fn add_answer(&mut self, kind: u16, number: u16)
        requires small { Small 2000000 self.old }
        requires columned { is_column number ≡ true }
        ensures { self.new ≡ with_answer self.old kind number }
    {
        self.cells[cell_of(kind, number)] += 1;
        self.moves += moved(kind, number);
        self.landings += landed(kind, number);
    }

    // Counts the entries of a log.
    pub(crate) fn add_answers(&mut self, entries: &[[u16; 7]])
        requires small { Small 1000000 self.old }
        requires few { length entries.now ≤ most_requests }
        requires columned { Each Columned entries.now }
        ensures { self.new ≡ with_answers self.old entries.now }
    {
        for entry in entries {
            self.add_answer(entry[0], entry[1]);
        }
    }
}
