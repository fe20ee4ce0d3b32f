// Settings of one kind compared one by one: how many differ, and their rows.
ghost use Rattle.std.specs.Prelude.{◌≡◌, ◌==◌, ℕ, not, ◌+◌, ◌*◌, ◌≤◌, length, map, sum_by};
ghost use Rattle.std.specs.Int.{from_bool};
ghost use Rattle.std.specs.List.{zip};
ghost use Rattle.std.proofs.lemmas.List.Edits.{sets};
ghost use Rattle.lists.specs.Search.{count_below};
ghost use Rattle.lists.specs.Listing.{rows_where};
ghost use Rattle.compare.specs.Places.{row_length, number_apart, number_row, kind_number};

pub const ROW_LENGTH: usize = 5;

// Which settings a row is of, with the number that it has for them.
#[derive(Clone, Copy)]
pub enum Kind {
    Field = 1,
    Group = 2,
    Cell = 3,
    Passive = 4,
}

impl From<Kind> for u32 {
    ghost from_gives = { λ kind n. n ≡ kind_number kind };

    fn from(kind: Kind) -> u32 {
        kind as u32
    }
}

// A setting, as a row has it: two are the same if their numbers are.
pub trait Setting: Copy {
    ghost number: { Self → ℕ };

    fn number(self) -> u32
        ensures { result ≡ number self };

    // Whether two are the same.
    fn is_same(self, other: Self) -> bool
        ensures { result ≡ (number self == number other) };
}

impl Setting for u16 {
    ghost number = { λ n. n };

    fn number(self) -> u32 {
        u32::from(self)
    }

    fn is_same(self, other: u16) -> bool {
        self == other
    }
}

// How many differ. Summed and not filtered and counted, so that it vectorises.
pub fn count_changed<S: Setting>(olds: &[S], news: &[S]) -> usize
    requires { (length news.now ≡ length olds.now) × (length olds.now ≤ 512) }
    ensures { result ≡ sum_by (λ p. from_bool (not (S.number p.0 == S.number p.1))) (zip olds.now news.now) }
{
    olds.iter()
        .zip(news)
        .map(|(old, new)| usize::from(!old.is_same(*new)))
        .sum()
}

// One row, put in from `at` on.
fn put_row(list: &mut [u32], at: usize, row: [u32; ROW_LENGTH])
    requires { at + row_length ≤ length list.old }
    ensures { list.new ≡ sets list.old at row }
{
    list[at..at + ROW_LENGTH].copy_from_slice(&row);
}

// The rows of those that differ, put in from `from` on; the answer is where they end.
pub fn list_changed<S: Setting>(
    olds: &[S],
    news: &[S],
    tile: u32,
    kind: Kind,
    list: &mut [u32],
    from: usize,
) -> usize
    requires { (length news.now ≡ length olds.now) × (length olds.now ≤ 512) ×
        (from + row_length * count_below (number_apart 0 (map S.number olds.now) (map S.number news.now)) (length olds.now) ≤ length list.old) }
    ensures end { result ≡ from + row_length * count_below (number_apart 0 (map S.number olds.now) (map S.number news.now)) (length olds.now) }
    ensures list { list.new ≡ sets list.old from
        (rows_where (number_apart 0 (map S.number olds.now) (map S.number news.now))
        (number_row tile (kind_number kind) 0 (map S.number olds.now) (map S.number news.now)) (length olds.now)) }
{
    let mut at = from;
    for i in 0..olds.len() {
        let old = olds[i];
        let new = news[i];
        if !old.is_same(new) {
            put_row(
                list,
                at,
                [tile, u32::from(kind), i as u32, old.number(), new.number()],
            );
            at += ROW_LENGTH;
        }
    }
    at
}
