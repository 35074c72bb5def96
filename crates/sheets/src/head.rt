// The numbers of a first line: the threshold, how many rows there are, and how many values each has.
ghost use Rattle.std.specs.Prelude.{◌≤◌};
ghost use Rattle.row_set.specs.Limits.{max_secret, max_shares, max_rows};

#[derive(Clone, Copy)]
pub struct Head {
    pub threshold: usize,
    pub rows: usize,
    pub values: usize,
    ghost threshold_most: { threshold ≤ max_shares },
    ghost rows_most: { rows ≤ max_rows },
    ghost values_most: { values ≤ max_secret },
}
