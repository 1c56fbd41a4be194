// The rows of a square table, each times its weight, added up eight columns at a time. The table is kept as steps of tiles, the last row first, so
// that a row of tiles with the weights is the sum.
ghost use Rattle.std.specs.Prelude.{◌≡◌, List, ℕ, ◌+◌, ◌-◌, ◌*◌, ◌%◌, ◌≤◌, ◌<◌, length};
ghost use Rattle.numbers.specs.Words.{tabulate};
ghost use Rattle.numbers.specs.internal.Facts.{AllBelow};
ghost use Rattle.numbers.specs.internal.Limits.{modulus_bound};
ghost use Rattle.numbers.specs.Limits.{most_rows};
ghost use Rattle.rows.specs.internal.Passes.{weight_sum};
ghost use Rattle.tiles.specs.internal.Weights.{TableTiled, pair_word};

use crate::tile::{put_column, tile_row};
use series::kernel::reduce_sums;

// The table's rows as steps of tiles, the last row first.
pub fn load_table(table: &[u32], n: usize, blocks: usize, tiles: &mut [u64])
    requires { (1 ≤ n) × (n ≤ most_rows) × (n ≤ 8 * blocks) × (blocks ≤ 5) × (length table.now ≡ n * n) × (length tiles.old ≡ blocks * (8 * (n + 1)))
        × AllBelow modulus_bound table.now × AllBelow modulus_bound tiles.old }
    ensures { TableTiled n blocks table.now tiles.new }
{
    for j in 0..n {
        let a = j * n;
        let e = a + n;
        put_column(&table[a..e], n + 1, n - j, blocks, tiles);
    }
}

// Each weight twice, after two zeros: as tile_row wants them.
fn pair_weights(weights: &[u32], pairs: &mut [u64])
    requires { (length weights.now ≤ most_rows) × (length pairs.old ≡ 2 * (length weights.now + 1)) }
    ensures { pairs.new ≡ tabulate (2 * (length weights.now + 1)) (pair_word weights.now) }
{
    pairs[0] = 0;
    pairs[1] = 0;
    for s in 0..weights.len() {
        let x = weights[s] as u64;
        let k = 2 * s + 2;
        pairs[k] = x;
        pairs[k + 1] = x;
    }
}

// 0, over and over.
pub fn clear_sums(sums: &mut [u64])
    ensures { sums.new ≡ tabulate (length sums.old) (λ _. 0) }
{
    sums.fill(0);
}

// The rows of the table in the tiles, each times its weight, added up. `pairs` and `sums` are for scratch.
pub fn weigh(
    p: u32,
    n: usize,
    blocks: usize,
    tiles: &[u64],
    weights: &[u32],
    pairs: &mut [u64],
    sums: &mut [u64],
    out: &mut [u32],
)
    requires { (1 ≤ p) × (p < modulus_bound) × (1 ≤ n) × (n ≤ most_rows) × (n ≤ 8 * blocks) × (blocks ≤ 5) × (length tiles.now ≡ blocks * (8 * (n + 1))) × AllBelow modulus_bound tiles.now
        × (length weights.now ≡ n) × AllBelow modulus_bound weights.now × (length pairs.old ≡ 2 * (n + 1)) × (length sums.old ≡ 8 * blocks) × (length out.old ≡ n) }
    ensures pairs { length pairs.new ≡ length pairs.old }
    ensures sums { length sums.new ≡ length sums.old }
    ensures is { (table : List ℕ) → TableTiled n blocks table tiles.now → out.new ≡ tabulate n (λ i. weight_sum table n weights.now i % p) }
{
    pair_weights(weights, pairs);
    clear_sums(sums);
    tile_row(n + 1, n + 1, blocks, pairs, tiles, sums);
    reduce_sums(p, sums, out);
}
