// The table of a binder's report: the place of an answer in it, and what counts as a move and as a landing (specs/Table.antt).
#![tactic(auto)]

ghost use Rattle.std.specs.Prelude.{◌≡◌, eqb};
ghost use Rattle.request.specs.Input.{within};
ghost use Rattle.playing.specs.Log.{of_kinds};
ghost use Rattle.week_table.specs.Table.{row_place, cell_of};

// The row of a kind, counted from 0.
fn row_of(kind: u16) -> usize
    ensures { result ≡ row_place kind }
{
    match kind {
        1..=12 => kind as usize - 1,
        _ => 12,
    }
}

// The place in the table of a request of this kind that was answered with this number.
pub fn cell_of(kind: u16, number: u16) -> usize
    ensures { result ≡ cell_of kind number }
{
    let column = if number < 10 { number } else { number - 5 };
    21 * row_of(kind) + column as usize
}

// 1 for a move, an accepted request of kinds 3 to 11, else 0.
pub fn moved(kind: u16, number: u16) -> usize
    ensures { result ≡ of_kinds (within 3 11) kind number }
{
    usize::from(number == 0 && matches!(kind, 3..=11))
}

// 1 for a landing, an accepted request of kind 7, else 0.
pub fn landed(kind: u16, number: u16) -> usize
    ensures { result ≡ of_kinds (λ k. eqb k 7) kind number }
{
    usize::from(number == 0 && kind == 7)
}
