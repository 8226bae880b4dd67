// What the crates above ask of a picture: where a block stands, which of its neighbours are present, and its samples.
ghost use Rattle.std.specs.Prelude.{cond, [], ◌∷◌, ◌++◌, ◌≡◌, ◌+◌, ◌*◌, ◌-◌, ◌/◌, ◌%◌, ◌<◌, ◌≤◌, length, get_or};
ghost use Rattle.lists.specs.Stores.{stores};
ghost use Rattle.lists.specs.Tab.{tab};
ghost use Rattle.picture.specs.Order.{Among, column_in, row_in, block_column, block_row};
ghost use Rattle.picture.specs.Plane.{layout_of, stride, plane_length, block_at, stored, block_of, with_block, neighbour, gathered};
ghost use Rattle.picture.specs.Presence.{present_at, flags_of};
ghost use Rattle.picture.specs.Reach.{Behind, Reaches, row_in_slice, early};
ghost use Rattle.picture.specs.Whole.{whole_column, whole_row, whole_of, with_whole, flags_round, gathered_round};

use crate::Layout;
use std::array;

// The picture of a size, as one slice.
pub fn one_slice(width: usize, height: usize) -> Layout
    ensures { result ≡ layout_of width height }
{
    Layout {
        width,
        height,
        rows: height,
    }
}

// The column of block b in its macroblock, in blocks.
#[tactic(auto, using(crate::proofs::Blocks::column_code))]
pub fn column_inside(b: usize) -> usize
    requires { b < 16 }
    ensures { (result ≡ column_in b) × (result < 4) }
{
    b % 2 + 2 * (b / 4 % 2)
}

// Its row there.
#[tactic(auto, using(crate::proofs::Blocks::row_code))]
pub fn row_inside(b: usize) -> usize
    requires { b < 16 }
    ensures { (result ≡ row_in b) × (result < 4) }
{
    b / 2 % 2 + 2 * (b / 8)
}

// The column of the first sample of block b of macroblock m.
#[tactic(auto, unfolding(crate::specs::Order::block_column))]
fn column(layout: Layout, m: usize, b: usize) -> usize
    requires { Among layout m b }
    ensures { result ≡ block_column layout m b }
{
    16 * (m % layout.width) + 4 * column_inside(b)
}

// The row of that sample.
#[tactic(auto, unfolding(crate::specs::Order::block_row))]
fn row(layout: Layout, m: usize, b: usize) -> usize
    requires { Among layout m b }
    ensures { result ≡ block_row layout m b }
{
    16 * (m / layout.width) + 4 * row_inside(b)
}

// The same row inside its slice: nothing above a slice is present.
fn row_in_slice(layout: Layout, m: usize, b: usize) -> usize
    requires { Among layout m b }
    ensures { result ≡ row_in_slice layout m b }
{
    16 * (m / layout.width % layout.rows) + 4 * row_inside(b)
}

// Whether A-D are present.
fn has_above(layout: Layout, m: usize, b: usize) -> bool
    requires { Among layout m b }
    ensures { result ≡ present_at 4 layout m b 1 }
{
    0 < row_in_slice(layout, m, b)
}

// Whether I-L are present.
fn has_left(layout: Layout, m: usize, b: usize) -> bool
    requires { Among layout m b }
    ensures { result ≡ present_at 4 layout m b 9 }
{
    0 < column(layout, m, b)
}

// Whether M is present.
fn has_corner(layout: Layout, m: usize, b: usize) -> bool
    requires { Among layout m b }
    ensures { result ≡ present_at 4 layout m b 0 }
{
    has_above(layout, m, b) && has_left(layout, m, b)
}

// Whether the upper right of block b comes before it where it lies in the picture. No table, since the compiler would copy a table to the
// stack for each block.
#[tactic(auto, unfolding(crate::specs::Reach::early))]
fn early(b: usize) -> bool
    ensures { result ≡ early 4 b }
{
    !matches!(b, 3 | 7 | 11 | 13 | 15)
}

// Whether E-H are present: there is a row above in the slice, they lie in the picture, and their block comes earlier.
fn has_upper_right(layout: Layout, m: usize, b: usize) -> bool
    requires { Among layout m b }
    ensures { result ≡ present_at 4 layout m b 5 }
{
    0 < row_in_slice(layout, m, b) && column(layout, m, b) + 8 <= 16 * layout.width && early(b)
}

// The flags byte of a block: bit 0 A-D, bit 1 I-L, bit 2 M, bit 3 E-H.
pub fn flags(layout: Layout, m: usize, b: usize) -> u8
    requires { Among layout m b }
    ensures { result ≡ flags_of 4 layout m b }
{
    u8::from(has_above(layout, m, b))
        + 2 * u8::from(has_left(layout, m, b))
        + 4 * u8::from(has_corner(layout, m, b))
        + 8 * u8::from(has_upper_right(layout, m, b))
}

// The place of the block's first sample in the plane.
pub fn first_place(layout: Layout, m: usize, b: usize) -> usize
    requires { Among layout m b }
    ensures { result ≡ block_row layout m b * stride 16 layout + block_column layout m b }
{
    row(layout, m, b) * (16 * layout.width) + column(layout, m, b)
}

// The sample that stands `back` before a place, or 0 where it is missing. `present` stands beside `back`, here, in `four` and in `line`: `back` is a number
// either way, and an `Option` would be made of both at each call only to be taken apart here.
fn sample(plane: &[u8], at: usize, back: usize, present: bool) -> u8
    requires { Behind present 1 0 at back (length plane.now) }
    ensures { result ≡ cond present (get_or plane.now (at - back) 0) 0 }
{
    if present { plane[at - back] } else { 0 }
}

// Rows of `stride` samples each, and the place of a block's first sample among them.
#[derive(Clone, Copy)]
struct Rows<'a> {
    samples: &'a [u8],
    stride: usize,
    at: usize,
}

// The rows of the plane.
fn plane_rows(plane: &[u8], layout: Layout, m: usize, b: usize) -> Rows<'_>
    requires { Among layout m b }
    ensures samples { result.samples.now ≡ plane.now }
    ensures stride { result.stride ≡ stride 16 layout }
    ensures at { result.at ≡ block_row layout m b * stride 16 layout + block_column layout m b }
{
    Rows {
        samples: plane,
        stride: 16 * layout.width,
        at: first_place(layout, m, b),
    }
}

// Four samples of rows, the first `back` before the block's first, and each `step` behind the one before.
fn four(rows: Rows, back: usize, step: usize, present: bool) -> [u8; 4]
    requires { Behind present 4 step rows.at back (length rows.samples.now) }
    ensures { result ≡ tab 4 (λ k. cond present (get_or rows.entry.samples.now (rows.entry.at - back + k * step) 0) 0) }
{
    if present {
        array::from_fn(|k| rows.samples[rows.at - back + k * step])
    } else {
        [0u8; 4]
    }
}

// A block's neighbours in one list.
#[tactic(auto, unfolding(lists::specs::Tab::tab))]
fn in_one_list(corner: u8, above: [u8; 4], right: [u8; 4], left: [u8; 4]) -> [u8; 13]
    ensures { result ≡ (corner ∷ []) ++ tab 4 (λ k. get_or above k 0) ++ tab 4 (λ k. get_or right k 0) ++ tab 4 (λ k. get_or left k 0) }
{
    [
        corner, above[0], above[1], above[2], above[3], right[0], right[1], right[2], right[3],
        left[0], left[1], left[2], left[3],
    ]
}

// The neighbours of a block, in the order M, A to H, I to L; 0 stands for one that is missing.
pub fn gather(plane: &[u8], layout: Layout, m: usize, b: usize) -> [u8; 13]
    requires among { Among layout m b }
    requires plane_len { length plane.now ≡ plane_length 16 layout }
    ensures { result ≡ gathered 4 layout m b plane.now }
{
    let rows = plane_rows(plane, layout, m, b);
    let corner = sample(plane, rows.at, rows.stride + 1, has_corner(layout, m, b));
    let above = four(rows, rows.stride, 1, has_above(layout, m, b));
    let right = four(rows, rows.stride - 4, 1, has_upper_right(layout, m, b));
    let left = four(rows, 1, rows.stride, has_left(layout, m, b));
    in_one_list(corner, above, right, left)
}

// ---- the same over a macroblock's own samples: as its neighbours stand in the plane with these 256 in their places, which is not made

// The rows of block b's own macroblock.
fn own_rows(own: &[u8], b: usize) -> Rows<'_>
    requires { b < 16 }
    ensures samples { result.samples.now ≡ own.now }
    ensures stride { result.stride ≡ 16 }
    ensures at { result.at ≡ 64 * row_in b + 4 * column_in b }
{
    Rows {
        samples: own,
        stride: 16,
        at: 64 * row_inside(b) + 4 * column_inside(b),
    }
}

// The same neighbours: M, A to H, I to L, those above each where the block has a row above it in the macroblock, and those at the left likewise.
pub fn gather_over(plane: &[u8], own: &[u8], layout: Layout, m: usize, b: usize) -> [u8; 13]
    requires among { Among layout m b }
    requires plane_len { (length plane.now ≡ plane_length 16 layout) × (length own.now ≡ 256) }
    ensures { result ≡ gathered 4 layout m b (with_whole 16 layout m own.now plane.now) }
{
    let below = 0 < row_inside(b);
    let behind = 0 < column_inside(b);
    let inside = own_rows(own, b);
    let outside = plane_rows(plane, layout, m, b);
    let over = if below { inside } else { outside };
    let beside = if behind { inside } else { outside };
    let across = if below && behind { inside } else { outside };
    let corner = sample(
        across.samples,
        across.at,
        across.stride + 1,
        has_corner(layout, m, b),
    );
    let above = four(over, over.stride, 1, has_above(layout, m, b));
    let right = four(over, over.stride - 4, 1, has_upper_right(layout, m, b));
    let left = four(beside, 1, beside.stride, has_left(layout, m, b));
    in_one_list(corner, above, right, left)
}

// The sixteen samples of four rows from column x of row y on, in rows of `stride` samples.
pub fn block_at(plane: &[u8], stride: usize, x: usize, y: usize) -> [u8; 16]
    requires { (x + 4 ≤ stride) × ((y + 4) * stride ≤ length plane.now) }
    ensures { result ≡ block_at 4 stride x y plane.now }
{
    let at = y * stride + x;
    array::from_fn(|k| plane[at + k / 4 * stride + k % 4])
}

// The plane with sixteen samples in those places.
pub fn store_at(plane: &mut [u8], stride: usize, x: usize, y: usize, block: [u8; 16])
    requires { (x + 4 ≤ stride) × ((y + 4) * stride ≤ length plane.old) }
    ensures { plane.new ≡ stored 4 stride x y block plane.old }
{
    let at = y * stride + x;
    for (k, sample) in block.iter().enumerate() {
        plane[at + k / 4 * stride + k % 4] = *sample;
    }
}

// The sixteen samples of a block, in raster order.
pub fn read_block(plane: &[u8], layout: Layout, m: usize, b: usize) -> [u8; 16]
    requires among { Among layout m b }
    requires plane_len { length plane.now ≡ plane_length 16 layout }
    ensures { result ≡ block_of 4 layout m b plane.now }
{
    let x = column(layout, m, b);
    let y = row(layout, m, b);
    block_at(plane, 16 * layout.width, x, y)
}

// The plane with the sixteen samples of a block in their places.
pub fn store_block(plane: &mut [u8], layout: Layout, m: usize, b: usize, block: [u8; 16])
    requires among { Among layout m b }
    requires plane_len { length plane.old ≡ plane_length 16 layout }
    ensures { plane.new ≡ with_block 4 layout m b block plane.old }
{
    let x = column(layout, m, b);
    let y = row(layout, m, b);
    store_at(plane, 16 * layout.width, x, y, block);
}

// ---- a macroblock as one block, in a plane where it has s by s samples
// s is a number, 16 or 8: `gather_round`, `read_whole` and `store_whole` promise for 1 to 16, and their theorems (docs/STAMP.md) go over it.

// The place of its first sample in the plane.
fn whole_place(layout: Layout, s: usize, m: usize) -> usize
    requires { (Among layout m 0) × (0 < s) × (s ≤ 16) }
    ensures { result ≡ whole_row s layout m * stride s layout + whole_column s layout m }
{
    s * (m / layout.width) * (s * layout.width) + s * (m % layout.width)
}

// The flags byte of macroblock m: bit 0 the samples above, bit 1 those at the left, bit 2 the corner. They are present as those of its first
// block are.
// Three terms of `flags`, which is of a block.
pub fn flags_round(layout: Layout, m: usize) -> u8
    requires { Among layout m 0 }
    ensures { result ≡ flags_round 16 layout m }
{
    u8::from(has_above(layout, m, 0))
        + 2 * u8::from(has_left(layout, m, 0))
        + 4 * u8::from(has_corner(layout, m, 0))
}

// So many samples into a lent area from a place on: the samples `back` before other places, of which the first is `at` and each `step` behind the one
// before; 0 where they are missing.
fn line(
    plane: &[u8],
    at: usize,
    back: usize,
    step: usize,
    present: bool,
    out: &mut [u8],
    place: usize,
    count: usize,
)
    requires { (Reaches present count step at back (length plane.now)) × (place + count ≤ length out.old) }
    ensures { out.new ≡ stores count (λ k. place + k) (λ k. cond present (get_or plane.now (at + k * step - back) 0) 0) out.old }
{
    for (k, one) in out[place..place + count].iter_mut().enumerate() {
        *one = sample(plane, at + k * step, back, present);
    }
}

// The neighbours of macroblock m: the corner, those above, those at the left; 0 stands for one that is missing.
pub fn gather_round(plane: &[u8], layout: Layout, s: usize, m: usize, out: &mut [u8])
    requires among { (Among layout m 0) × (0 < s) × (s ≤ 16) }
    requires plane_len { (length plane.now ≡ plane_length s layout) × (length out.old ≡ 2 * s + 1) }
    ensures { out.new ≡ gathered_round s layout m plane.now }
{
    let stride = s * layout.width;
    let at = whole_place(layout, s, m);
    let corner = has_corner(layout, m, 0);
    let above = has_above(layout, m, 0);
    let left = has_left(layout, m, 0);
    line(plane, at, stride + 1, 1, corner, out, 0, 1);
    line(plane, at, stride, 1, above, out, 1, s);
    line(plane, at, 1, stride, left, out, 1 + s, s);
}

// So many samples from a place of one plane or block to a place of another.
// Places and no parts: `stores`, by which `read_whole` and `store_whole` are proved, counts them in the whole lists.
fn copy_row(from: &[u8], start: usize, to: &mut [u8], place: usize, count: usize)
    requires { (start + count ≤ length from.now) × (place + count ≤ length to.old) }
    ensures { to.new ≡ stores count (λ k. place + k) (λ k. get_or from.now (start + k) 0) to.old }
{
    to[place..place + count].copy_from_slice(&from[start..start + count]);
}

// The samples of macroblock m, row by row.
pub fn read_whole(plane: &[u8], layout: Layout, s: usize, m: usize, out: &mut [u8])
    requires among { (Among layout m 0) × (0 < s) × (s ≤ 16) }
    requires plane_len { (length plane.now ≡ plane_length s layout) × (length out.old ≡ s * s) }
    ensures { out.new ≡ whole_of s layout m plane.now }
{
    let stride = s * layout.width;
    let first = whole_place(layout, s, m);
    for y in 0usize..s {
        copy_row(plane, first + y * stride, out, y * s, s);
    }
}

// The plane with the samples of macroblock m in their places.
pub fn store_whole(plane: &mut [u8], layout: Layout, s: usize, m: usize, samples: &[u8])
    requires among { (Among layout m 0) × (0 < s) × (s ≤ 16) }
    requires plane_len { (length plane.old ≡ plane_length s layout) × (length samples.now ≡ s * s) }
    ensures { plane.new ≡ with_whole s layout m samples.now plane.old }
{
    let stride = s * layout.width;
    let first = whole_place(layout, s, m);
    for y in 0usize..s {
        copy_row(samples, y * s, plane, first + y * stride, s);
    }
}
