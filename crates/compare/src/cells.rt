// The eight cells of two tiles, compared by value (document 01, 'Cells'): how many differ, and their rows.
ghost use Rattle.std.specs.Prelude.{◌≡◌, ◌==◌, not, ◌+◌, ◌*◌, ◌≤◌, length, map, sum_by};
ghost use Rattle.std.specs.Int.{from_bool};
ghost use Rattle.std.specs.List.{zip};
ghost use Rattle.std.proofs.lemmas.List.Edits.{sets};
ghost use Rattle.lists.specs.Search.{count_below};
ghost use Rattle.lists.specs.Listing.{rows_where};
ghost use Rattle.codec.specs.Cells.{cell_number};
ghost use Rattle.compare.specs.Places.{row_length, number_apart, number_row};

use crate::settings::{Kind, Setting, count_changed, list_changed};
use cell::logic::Cell;

// A cell's table, and its flags with weight 65,536.
impl Setting for Cell {
    ghost number = { cell_number };

    fn number(self) -> u32 {
        u32::from(self.table) + 65536 * u32::from(self.flags())
    }

    fn is_same(self, other: Cell) -> bool {
        codec::cells::is_same_cell(self, other)
    }
}

// How many of the eight differ.
pub fn count_cells(olds: [Cell; 8], news: [Cell; 8]) -> usize
    ensures { result ≡ sum_by (λ p. from_bool (not (cell_number p.0 == cell_number p.1))) (zip olds news) }
{
    count_changed(&olds, &news)
}

// The rows of those that differ, put in from `from` on; the answer is where they end.
pub fn list_cells(
    olds: [Cell; 8],
    news: [Cell; 8],
    tile: u32,
    list: &mut [u32],
    from: usize,
) -> usize
    requires { from + row_length * count_below (number_apart 0 (map cell_number olds) (map cell_number news)) 8 ≤ length list.old }
    ensures end { result ≡ from + row_length * count_below (number_apart 0 (map cell_number olds) (map cell_number news)) 8 }
    ensures list { list.new ≡ sets list.old from
        (rows_where (number_apart 0 (map cell_number olds) (map cell_number news))
        (number_row tile 3 0 (map cell_number olds) (map cell_number news)) 8) }
{
    list_changed(&olds, &news, tile, Kind::Cell, list, from)
}
