// The known lengths of rows, as they are given to open and stand in a sheet.
ghost use Rattle.std.specs.Prelude.{◌≡◌, ◌*◌, ◌≤◌, length};
ghost use Rattle.numbers.specs.Words.{word, least};
ghost use Rattle.numbers.specs.Limits.{largest_degree, largest_width};
ghost use Rattle.series.specs.Known.{rows_known};
ghost use Rattle.layout.specs.Layout.{rows_at};

use series::kernel::known_to;

// The least of n and the lengths.
pub fn least_length(n: u32, lengths: &[u32]) -> u32
    ensures { result ≡ least n (length lengths.now) (word lengths.now) }
{
    let mut shortest = n;
    for length in lengths {
        shortest = shortest.min(*length);
    }
    shortest
}

// Whether each row, of n words, is known to its length.
pub fn rows_known(n: usize, rows: &[u32], lengths: &[u32]) -> bool
    requires { (n ≤ largest_width) × (length lengths.now ≤ largest_degree) × (length lengths.now * n ≤ length rows.now) }
    ensures { result ≡ rows_known n (length lengths.now) (word lengths.now) (rows_at rows.now 0 n) }
{
    for j in 0..lengths.len() {
        let a = j * n;
        let e = a + n;
        if !known_to(&rows[a..e], lengths[j]) {
            return false;
        }
    }
    true
}
