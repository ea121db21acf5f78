// One step of eight neighbours, a row at a time, over cells of one byte each.
ghost use Rattle.std.specs.Prelude.{◌≡◌, ℕ, ◌+◌, ◌*◌, ◌<◌, ◌≤◌, Some, if◌then◌else◌, length, map, slice_index};
ghost use Rattle.surf_auto.specs.Counts.{Counts};
ghost use Rattle.surf_lattice.specs.Grids.{moved, sites};
ghost use Rattle.surf_life.specs.Moore.{moore_next};
ghost use Rattle.surf_life.specs.Rows.{AreNextBelow, AreSums, AreTwo, IsTableOf, cell_at, shown, square_of};

/// Whether the sides are joined, and the sides.
#[derive(Clone, Copy)]
pub struct Sides {
    pub wrap: bool,
    pub width: usize,
    pub height: usize,
}

// A coordinate after a shift of 0 (back), 1 (none) or 2 (ahead), if it stays on the side.
fn moved(wrap: bool, side: usize, at: usize, shift: usize) -> Option<usize>
    requires at { at < side }
    requires shift { shift ≤ 2 }
    requires side { side ≤ 1000000 }
    ensures { result ≡ moved wrap side at shift }
{
    if wrap {
        Some((at + shift + side - 1) % side)
    } else if 0 < at + shift && at + shift <= side {
        Some(at + shift - 1)
    } else {
        None
    }
}

// The row above, at or below row y: one of dead cells where there is none.
fn row_about<'a>(cells: &'a [u8], dead: &'a [u8], sides: Sides, y: usize, shift: usize) -> &'a [u8]
    requires size { length cells.now ≡ sides.width * sides.height }
    requires y { y < sides.height }
    requires shift { shift ≤ 2 }
    requires high { sides.height ≤ 1000000 }
    requires wide { length dead.now ≡ sides.width }
    requires dead { (i : ℕ) → slice_index dead.now i ≡ 0 }
    ensures wide { length result.now ≡ sides.width }
    ensures cells { let g = square_of sides.wrap sides.width sides.height in
        (x : ℕ) → x < sides.width
        → slice_index result.now x ≡ cell_at g cells.now (Some x) y shift }
{
    match moved(sides.wrap, sides.height, y, shift) {
        Some(row) => &cells[row * sides.width..(row + 1) * sides.width],
        None => dead,
    }
}

// Adds three rows, from column 1 on.
fn add_rows(above: &[u8], own: &[u8], below: &[u8], sums: &mut [u8])
    requires above { length above.now ≡ length own.now }
    requires below { length below.now ≡ length own.now }
    requires room { length sums.old ≡ length own.now + 2 }
    requires above_two { AreTwo above.now }
    requires own_two { AreTwo own.now }
    requires below_two { AreTwo below.now }
    ensures { (x : ℕ) → x < length own.now → slice_index sums.new (x + 1)
        ≡ slice_index above.now x + slice_index own.now x + slice_index below.now x }
{
    for x in 0..own.len() {
        sums[x + 1] = above[x] + own[x] + below[x];
    }
}

// Sets the columns before the first and after the last.
fn close_sums(wrap: bool, width: usize, sums: &mut [u8])
    requires room { length sums.old ≡ width + 2 }
    requires wide { 1 ≤ width }
    ensures first { slice_index sums.new 0 ≡ (if wrap then slice_index sums.old width else 0) }
    ensures last { slice_index sums.new (width + 1)
        ≡ (if wrap then slice_index sums.old 1 else 0) }
    ensures kept { (x : ℕ) → x < width
        → slice_index sums.new (x + 1) ≡ slice_index sums.old (x + 1) }
{
    sums[0] = if wrap { sums[width] } else { 0 };
    sums[width + 1] = if wrap { sums[1] } else { 0 };
}

// The sums of the columns of three cells about a row.
fn sum_columns(cells: &[u8], dead: &[u8], sides: Sides, y: usize, sums: &mut [u8])
    requires size { length cells.now ≡ sides.width * sides.height }
    requires y { y < sides.height }
    requires high { sides.height ≤ 1000000 }
    requires some { 1 ≤ sides.width }
    requires wide { length dead.now ≡ sides.width }
    requires dead { (i : ℕ) → slice_index dead.now i ≡ 0 }
    requires two { AreTwo cells.now }
    requires room { length sums.old ≡ sides.width + 2 }
    ensures { AreSums (square_of sides.wrap sides.width sides.height) cells.now y sums.new }
{
    let above = row_about(cells, dead, sides, y, 0);
    let own = row_about(cells, dead, sides, y, 1);
    let below = row_about(cells, dead, sides, y, 2);
    add_rows(above, own, below, sums);
    close_sums(sides.wrap, sides.width, sums);
}

// For each cell of a row 8 times its state and the sum of the nine cells about it, its own among
// them: so 9 times its state and the count of its live neighbours.
fn find_keys(own: &[u8], sums: &[u8], keys: &mut [u8])
    requires wide { length sums.now ≡ length own.now + 2 }
    requires room { length keys.old ≡ length own.now }
    requires own_two { AreTwo own.now }
    requires small { (x : ℕ) → slice_index sums.now x ≤ 3 }
    ensures { (x : ℕ) → x < length own.now → slice_index keys.new x
        ≡ slice_index own.now x * 8
        + (slice_index sums.now x + slice_index sums.now (x + 1) + slice_index sums.now (x + 2)) }
{
    for x in 0..own.len() {
        keys[x] = own[x] * 8 + (sums[x] + sums[x + 1] + sums[x + 2]);
    }
}

// Writes what stands in a table at each key.
fn look_up(keys: &[u8], table: &[u8], first: usize, next: &mut [u8])
    requires table { length table.now ≡ 18 }
    requires keys { (x : ℕ) → slice_index keys.now x ≤ 17 }
    requires room { first + length keys.now ≤ length next.old }
    ensures written { (x : ℕ) → x < length keys.now
        → slice_index next.new (first + x) ≡ slice_index table.now (slice_index keys.now x) }
    ensures kept { (i : ℕ) → i < first → slice_index next.new i ≡ slice_index next.old i }
{
    for x in 0..keys.len() {
        next[first + x] = table[keys[x] as usize];
    }
}

// Writes the next states of row y. Those of the rows above are written.
fn write_row(
    cells: &[u8],
    table: &[u8],
    dead: &[u8],
    sides: Sides,
    y: usize,
    sums: &mut [u8],
    keys: &mut [u8],
    next: &mut [u8],
)
    requires size { length cells.now ≡ sides.width * sides.height }
    requires y { y < sides.height }
    requires high { sides.height ≤ 1000000 }
    requires some { 1 ≤ sides.width }
    requires two { AreTwo cells.now }
    requires table { length table.now ≡ 18 }
    requires wide { length dead.now ≡ sides.width }
    requires dead { (i : ℕ) → slice_index dead.now i ≡ 0 }
    requires sums { length sums.old ≡ sides.width + 2 }
    requires keys { length keys.old ≡ sides.width }
    requires room { length next.old ≡ length cells.now }
    ensures { let g = square_of sides.wrap sides.width sides.height in
        (C : Counts) → IsTableOf C table.now
        → AreNextBelow C g cells.now next.old (y * sides.width)
        → AreNextBelow C g cells.now next.new ((y + 1) * sides.width) }
{
    sum_columns(cells, dead, sides, y, sums);
    let first = y * sides.width;
    find_keys(&cells[first..first + sides.width], sums, keys);
    look_up(keys, table, first, next);
}

/// Writes all next states, by a table of them: 9 times the own state and the count of live
/// neighbours. The row of dead cells is as wide as the others, the spare sums are two more and the
/// spare keys as many.
pub fn write_step(
    cells: &[u8],
    table: &[u8],
    dead: &[u8],
    sides: Sides,
    sums: &mut [u8],
    keys: &mut [u8],
    next: &mut [u8],
)
    requires size { length cells.now ≡ sides.width * sides.height }
    requires high { sides.height ≤ 1000000 }
    requires some { 1 ≤ sides.width }
    requires two { AreTwo cells.now }
    requires table { length table.now ≡ 18 }
    requires wide { length dead.now ≡ sides.width }
    requires dead { (i : ℕ) → slice_index dead.now i ≡ 0 }
    requires sums { length sums.old ≡ sides.width + 2 }
    requires keys { length keys.old ≡ sides.width }
    requires room { length next.old ≡ length cells.now }
    ensures { let g = square_of sides.wrap sides.width sides.height in
        (C : Counts) → IsTableOf C table.now
        → next.new ≡ map (moore_next C g (shown g cells.now)) (sites g) }
{
    for y in 0..sides.height {
        write_row(cells, table, dead, sides, y, sums, keys, next);
    }
}
