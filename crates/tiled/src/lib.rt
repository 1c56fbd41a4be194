// The columns of the split by tiles: beside the rows stand the words that the next columns multiply, P's as pairs and A's as the lanes of tiles, so that
// eight sums run at a time; or A's as pairs and P's as lanes, where that leaves fewer lanes empty.
#![tactic(auto)]

ghost use Rattle.std.specs.Prelude.{◌≡◌, ◌⊎◌, List, ℕ, ◌+◌, ◌-◌, ◌*◌, ◌%◌, ◌≤◌, ◌<◌, length};
ghost use Rattle.numbers.specs.Words.{word, tabulate};
ghost use Rattle.numbers.specs.internal.Facts.{AllBelow};
ghost use Rattle.numbers.specs.internal.Limits.{modulus_bound};
ghost use Rattle.numbers.specs.Limits.{most_rows, largest_width};
ghost use Rattle.rows.specs.internal.Passes.{weight_sum};
ghost use Rattle.columns.specs.internal.Column.{ColumnStored};
ghost use Rattle.solution.specs.internal.Table.{left_at, Step, SplitTo, SplitReady};
ghost use Rattle.tiles.specs.internal.Weights.{TableTiled};
ghost use Rattle.tiled.specs.internal.Tiled.{tile_sums, Tiled, ColumnPut, Stands, Sizes, Room};

use columns::{less, load_column, store_column};
use tiles::tile::{put_column, tile_row};
use tiles::weights::{clear_sums, load_table, weigh};

// The most words that stand beside the rows, for two parts of 31 rows at the most that come to 33, and 256 columns.
const CELLS_ROOM: usize = 1360; // 5 tiles of 8 · 34: the table of solutions

const PAIRS_ROOM: usize = 15872; // 31 rows of 2 · 256: P's words, each twice

const TILES_ROOM: usize = 8192; // 4 tiles of 8 · 256: A's words

const SUMS_ROOM: usize = 80; // what a column's sums come to

const PARTNERS_ROOM: usize = 68; // a column's words, each twice

const TOTALS_ROOM: usize = 40; // 5 tiles

// How a split of P's m and A's k rows of n words stands in tiles: `paired` of the rows as pairs, the others as the lanes of so many blocks, and the table of
// solutions in `high` tiles.
#[derive(Clone, Copy)]
struct Tiling {
    p: u32,
    m: usize,
    k: usize,
    n: usize,
    paired: usize,
    blocks: usize,
    high: usize,
}

// Column t of the rows less the sums.
fn less_sums(p: u32, n: usize, t: usize, sums: &[u64], rows: &[u32], e: &mut [u32])
    requires { (1 ≤ p) × (p < modulus_bound) × (n ≤ largest_width) × (t < n) × (length e.old ≤ most_rows) × (length e.old ≤ length sums.now) × (length e.old * n ≤ length rows.now) × AllBelow p rows.now }
    ensures { e.new ≡ tabulate (length e.old) (λ j. (word rows.now (j * n + t) + (p - word sums.now j % p)) % p) }
{
    for j in 0..e.len() {
        e[j] = less(p, rows[j * n + t], sums[j]);
    }
}

// Column t of rows of wide words becomes e.
fn store_wide(e: &[u32], n: usize, t: usize, out: &mut [u64])
    requires { (n ≤ 512) × (t < n) × (length e.now ≤ most_rows) × (length e.now * n ≤ length out.old) }
    ensures { ColumnStored n t e.now out.old out.new }
{
    for j in 0..e.len() {
        out[j * n + t] = e[j] as u64;
    }
}

// Column t of the rows from row a on goes into the pairs, each word twice, and of those from row b on into the lanes.
fn put_sides(
    low: &[u32],
    high: &[u32],
    n: usize,
    t: usize,
    blocks: usize,
    pairs: &mut [u64],
    tiles: &mut [u64],
)
    requires { (length low.now ≤ most_rows) × (length high.now ≤ 8 * blocks) × (blocks ≤ 5) × (n ≤ largest_width) × (t < n) × AllBelow modulus_bound low.now × AllBelow modulus_bound high.now
        × (length pairs.old ≡ length low.now * (2 * n)) × (length tiles.old ≡ blocks * (8 * n)) }
    ensures { (a b : ℕ) (old new : List ℕ) → Tiled n a (length low.now) b (length high.now) blocks t old pairs.old tiles.old
        → ColumnPut n t a low.now old new → ColumnPut n t b high.now old new
        → Tiled n a (length low.now) b (length high.now) blocks (t + 1) new pairs.new tiles.new }
{
    let at = 2 * t;
    store_wide(low, 2 * n, at, pairs);
    store_wide(low, 2 * n, at + 1, pairs);
    put_column(high, n, t, blocks, tiles);
}

impl Tiling {
    // The products of the columns between, not yet reduced: row a of the pairs adds to the sums from a on.
    fn middle_sums(self, t: usize, pairs: &[u64], tiles: &[u64], sums: &mut [u64])
        requires { Sizes self × (1 ≤ t) × (t ≤ self.n) × (length pairs.now ≡ self.paired * (2 * self.n)) × (length tiles.now ≡ self.blocks * (8 * self.n)) × (length sums.old ≡ self.paired + 8 * self.blocks)
            × AllBelow modulus_bound pairs.now × AllBelow modulus_bound tiles.now }
        ensures { sums.new ≡ tabulate (self.paired + 8 * self.blocks) (tile_sums self.paired t self.n (8 * self.blocks) pairs.now tiles.now) }
    {
        clear_sums(sums);
        for a in 0..self.paired {
            let row = a * (2 * self.n);
            let end = a + 8 * self.blocks;
            tile_row(
                t,
                self.n,
                self.blocks,
                &pairs[row..],
                tiles,
                &mut sums[a..end],
            );
        }
    }

    // What column t of the rows leaves, once the products of the columns between are taken off. sums is for scratch.
    fn gather(
        self,
        t: usize,
        pairs: &[u64],
        tiles: &[u64],
        sums: &mut [u64],
        rows: &[u32],
        e: &mut [u32],
    )
        requires { Sizes self × (1 ≤ t) × (t < self.n) × (length rows.now ≡ (self.m + self.k) * self.n) × (length e.old ≡ self.m + self.k) × (length sums.old ≡ self.paired + 8 * self.blocks)
            × Stands self t rows.now pairs.now tiles.now × AllBelow self.p rows.now }
        ensures scratch { length sums.new ≡ self.paired + 8 * self.blocks }
        ensures is { e.new ≡ tabulate (self.m + self.k) (left_at self.p self.n self.m self.k rows.now t) }
    {
        self.middle_sums(t, pairs, tiles, sums);
        less_sums(self.p, self.n, t, sums, rows, e);
    }

    // Column t goes beside the rows.
    fn put_tiles(self, column: &[u32], t: usize, pairs: &mut [u64], tiles: &mut [u64])
        requires { Sizes self × (t < self.n) × (length column.now ≡ self.m + self.k) × AllBelow modulus_bound column.now × (length pairs.old ≡ self.paired * (2 * self.n)) × (length tiles.old ≡ self.blocks * (8 * self.n)) }
        ensures { (old new : List ℕ) → Stands self t old pairs.old tiles.old → ColumnStored self.n t column.now old new → Stands self (t + 1) new pairs.new tiles.new }
    {
        let low = &column[..self.m];
        let high = &column[self.m..];
        if self.paired == self.m {
            put_sides(low, high, self.n, t, self.blocks, pairs, tiles)
        } else {
            put_sides(high, low, self.n, t, self.blocks, pairs, tiles)
        }
    }

    // Column t of the split, from the columns before it: what it leaves, times the table, whose words stand in cells. e is for scratch.
    fn next_column(
        self,
        t: usize,
        table: &[u32],
        cells: &[u64],
        pairs: &[u64],
        tiles: &[u64],
        rows: &[u32],
        e: &mut [u32],
        column: &mut [u32],
    )
        requires { Sizes self × (1 ≤ t) × (t < self.n) × TableTiled (self.m + self.k) self.high table.now cells.now × (length rows.now ≡ (self.m + self.k) * self.n)
            × (length e.old ≡ self.m + self.k) × (length column.old ≡ self.m + self.k) × Stands self t rows.now pairs.now tiles.now × AllBelow self.p rows.now }
        ensures scratch { length e.new ≡ self.m + self.k }
        ensures buffer { length column.new ≡ self.m + self.k }
        ensures is { column.new ≡ tabulate (self.m + self.k) (λ i. weight_sum table.now (self.m + self.k) (tabulate (self.m + self.k) (left_at self.p self.n self.m self.k rows.now t)) i % self.p) }
    {
        let size = self.m + self.k;
        let lanes = self.paired + 8 * self.blocks;
        let mut sums = [0u64; SUMS_ROOM];
        let mut partners = [0u64; PARTNERS_ROOM];
        let mut totals = [0u64; TOTALS_ROOM];
        self.gather(t, pairs, tiles, &mut sums[..lanes], rows, e);
        weigh(
            self.p,
            size,
            self.high,
            cells,
            e,
            &mut partners[..2 * (size + 1)],
            &mut totals[..8 * self.high],
            column,
        );
    }

    // Column t of the split, stored in the rows and beside them.
    fn column(
        self,
        t: usize,
        table: &[u32],
        cells: &[u64],
        pairs: &mut [u64],
        tiles: &mut [u64],
        rows: &mut [u32],
        e: &mut [u32],
        column: &mut [u32],
    )
        requires { Sizes self × (1 ≤ t) × (t < self.n) × TableTiled (self.m + self.k) self.high table.now cells.now × (length rows.old ≡ (self.m + self.k) * self.n)
            × (length e.old ≡ self.m + self.k) × (length column.old ≡ self.m + self.k) × Stands self t rows.old pairs.old tiles.old × AllBelow self.p rows.old }
        ensures scratch { length e.new ≡ self.m + self.k }
        ensures buffer { length column.new ≡ self.m + self.k }
        ensures tiled { Stands self (t + 1) rows.new pairs.new tiles.new }
        ensures is { Step self.p self.n self.m self.k table.now t rows.old rows.new }
    {
        self.next_column(t, table, cells, pairs, tiles, rows, e, column);
        store_column(column, self.n, t, rows);
        self.put_tiles(column, t, pairs, tiles);
    }

    // Columns 1 to h − 1 of the rows go beside them. column is for scratch.
    fn load_tiles(
        self,
        h: usize,
        rows: &[u32],
        column: &mut [u32],
        pairs: &mut [u64],
        tiles: &mut [u64],
    )
        requires { Sizes self × (1 ≤ h) × (h ≤ self.n) × (length rows.now ≡ (self.m + self.k) * self.n) × AllBelow modulus_bound rows.now × (length column.old ≡ self.m + self.k)
            × Stands self 1 rows.now pairs.old tiles.old }
        ensures buffer { length column.new ≡ self.m + self.k }
        ensures is { Stands self h rows.now pairs.new tiles.new }
    {
        for t in 1..h {
            load_column(rows, self.n, t, column);
            self.put_tiles(column, t, pairs, tiles);
        }
    }

    // Columns h to w − 1 of the split.
    fn columns(
        self,
        p0: &[u32],
        a0: &[u32],
        h: usize,
        w: usize,
        table: &[u32],
        cells: &mut [u64],
        pairs: &mut [u64],
        tiles: &mut [u64],
        rows: &mut [u32],
        e: &mut [u32],
        column: &mut [u32],
    )
        requires { SplitReady self.p self.n self.m self.k p0.now a0.now table.now h w rows.old × Sizes self × (length e.old ≡ self.m + self.k) × (length column.old ≡ self.m + self.k)
            × Room self cells.old pairs.old tiles.old }
        ensures { SplitTo self.p self.n self.m self.k p0.now a0.now h w rows.old rows.new }
    {
        load_table(table, self.m + self.k, self.high, cells);
        self.load_tiles(h, rows, column, pairs, tiles);
        for t in h..w {
            self.column(t, table, cells, pairs, tiles, rows, e, column);
        }
    }
}

// How many rows stand as pairs, P's m or A's k: the way round that takes fewer steps.
fn paired_rows(m: usize, k: usize) -> usize
    requires { m + k ≤ most_rows }
    ensures { (result ≡ m) ⊎ (result ≡ k) }
{
    if m * ((k + 7) / 8) <= k * ((m + 7) / 8) {
        m
    } else {
        k
    }
}

// Columns h to w − 1 of the split, with room for what stands beside the rows.
pub fn split_tiled(
    p: u32,
    m: usize,
    k: usize,
    p0: &[u32],
    a0: &[u32],
    table: &[u32],
    n: usize,
    h: usize,
    w: usize,
    e: &mut [u32],
    column: &mut [u32],
    rows: &mut [u32],
)
    requires { SplitReady p n m k p0.now a0.now table.now h w rows.old × (length e.old ≡ m + k) × (length column.old ≡ m + k) × (m ≤ 31) × (k ≤ 31) }
    ensures { SplitTo p n m k p0.now a0.now h w rows.old rows.new }
{
    let size = m + k;
    let paired = paired_rows(m, k);
    let blocks = (size - paired + 7) / 8;
    let high = (size + 7) / 8;
    let cell_count = high * (8 * (size + 1));
    let pair_count = paired * (2 * n);
    let tile_count = blocks * (8 * n);
    let tiling = Tiling {
        p,
        m,
        k,
        n,
        paired,
        blocks,
        high,
    };
    let mut cells = [0u64; CELLS_ROOM];
    let mut pairs = [0u64; PAIRS_ROOM];
    let mut tiles = [0u64; TILES_ROOM];
    tiling.columns(
        p0,
        a0,
        h,
        w,
        table,
        &mut cells[..cell_count],
        &mut pairs[..pair_count],
        &mut tiles[..tile_count],
        rows,
        e,
        column,
    );
}
