// Eight sums at a time: the inner loop of a column's products, in the form that compiles to vector multiplications.
ghost use Rattle.std.specs.Prelude.{◌≡◌, ◌+◌, ◌-◌, ◌*◌, ◌%◌, ◌≤◌, ◌<◌, length};
ghost use Rattle.numbers.specs.Words.{word, tabulate};
ghost use Rattle.numbers.specs.internal.Facts.{AllBelow};
ghost use Rattle.numbers.specs.internal.Limits.{modulus_bound};
ghost use Rattle.numbers.specs.Limits.{largest_width};
ghost use Rattle.tiles.specs.internal.Tile.{tile_step, tile_add, tile_sum, tile_row, TileReady, TilePut};

// a[l] += x[l % 2] · w[l], for eight l; x holds one word twice.
fn tile_step(x: &[u64], w: &[u64], a: &mut [u64])
    requires { (2 ≤ length x.now) × (8 ≤ length w.now) × (length a.old ≡ 8) × AllBelow modulus_bound x.now × AllBelow modulus_bound w.now × AllBelow 4611686018427387904 a.old }
    ensures { a.new ≡ tabulate 8 (tile_step x.now w.now a.old) }
{
    for l in 0..8 {
        a[l] += ((x[l % 2] as u32) as u64) * ((w[l] as u32) as u64);
    }
}

// Step s of tile_sums: a[l] += y[s] · w[t − s][l].
fn tile_add(t: usize, s: usize, y: &[u64], w: &[u64], a: &mut [u64])
    requires { TileReady t s y.now w.now a.old }
    ensures { a.new ≡ tabulate 8 (tile_add t s y.now w.now a.old) }
{
    let b = 2 * s;
    let e = 8 * (t - s);
    tile_step(&y[b..], &w[e..], a);
}

// a[l] += the sum over s = 1..t − 1 of y[s] · w[t − s][l]; y holds each word twice. Two steps a turn: the loop itself costs less.
fn tile_sums(t: usize, y: &[u64], w: &[u64], a: &mut [u64])
    requires { (1 ≤ t) × (t ≤ largest_width) × (2 * t ≤ length y.now) × (8 * t ≤ length w.now) × (length a.old ≡ 8) × AllBelow modulus_bound y.now × AllBelow modulus_bound w.now × AllBelow 2305843009213693952 a.old }
    ensures { a.new ≡ tabulate 8 (tile_sum (t - 1) t y.now w.now a.old) }
{
    let mut s = 1;
    while s + 1 < t {
        tile_add(t, s, y, w, a);
        tile_add(t, s + 1, y, w, a);
        s += 2;
    }
    if s < t {
        tile_add(t, s, y, w, a);
    }
}

// Eight words.
fn copy_lanes(from: &[u64], to: &mut [u64])
    requires { (length from.now ≡ 8) × (length to.old ≡ 8) }
    ensures { to.new ≡ from.now }
{
    for l in 0..8 {
        to[l] = from[l];
    }
}

// tile_sums in an array of its own: so the compiler knows that y and w stay as they are, and keeps the sums in vector registers.
pub fn tile(t: usize, y: &[u64], w: &[u64], a: &mut [u64])
    requires { (1 ≤ t) × (t ≤ largest_width) × (2 * t ≤ length y.now) × (8 * t ≤ length w.now) × (length a.old ≡ 8) × AllBelow modulus_bound y.now × AllBelow modulus_bound w.now × AllBelow 2305843009213693952 a.old }
    ensures { a.new ≡ tabulate 8 (tile_sum (t - 1) t y.now w.now a.old) }
{
    let mut sums = [0u64; 8];
    copy_lanes(a, &mut sums);
    tile_sums(t, y, w, &mut sums);
    copy_lanes(&sums, a);
}

// a[i] += the sum over s = 1..t − 1 of y[s] · tiles[t − s][i], for 8 · blocks lanes; y holds each word twice.
pub fn tile_row(t: usize, width: usize, blocks: usize, y: &[u64], tiles: &[u64], a: &mut [u64])
    requires { (1 ≤ t) × (t ≤ width) × (t ≤ largest_width) × (width ≤ largest_width) × (blocks ≤ 5) × (2 * t ≤ length y.now) × (length tiles.now ≡ blocks * (8 * width)) × (length a.old ≡ 8 * blocks)
        × AllBelow modulus_bound y.now × AllBelow modulus_bound tiles.now × AllBelow 2305843009213693952 a.old }
    ensures { a.new ≡ tabulate (8 * blocks) (tile_row t width y.now tiles.now a.old) }
{
    let size = 8 * width;
    for b in 0..blocks {
        let k = b * size;
        let i = 8 * b;
        let e = i + 8;
        tile(t, y, &tiles[k..], &mut a[i..e]);
    }
}

// Word i of the column, and 0 past its end.
fn lane_word(column: &[u32], i: usize) -> u64
    ensures { result ≡ word column.now i }
{
    if i < column.len() {
        column[i] as u64
    } else {
        0
    }
}

// The words of a column, and 0 past them, become step t of the tiles.
pub fn put_column(column: &[u32], width: usize, t: usize, blocks: usize, tiles: &mut [u64])
    requires { (t < width) × (width ≤ largest_width) × (blocks ≤ 5) × (length column.now ≤ 8 * blocks) × (length tiles.old ≡ blocks * (8 * width)) }
    ensures { TilePut width blocks t column.now tiles.old tiles.new }
{
    let size = 8 * width;
    let lanes = 8 * blocks;
    for i in 0..lanes {
        let k = i / 8 * size + (8 * t + i % 8);
        tiles[k] = lane_word(column, i);
    }
}
