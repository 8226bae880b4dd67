// The s by s samples of a macroblock, block by block.
ghost use Rattle.std.specs.Prelude.{◌≡◌, ◌*◌, ◌<◌, length};
ghost use Rattle.residual_whole.specs.Area.{Sided, blocks_of, part_in, with_part, raster_place};

// The samples of block b.
pub(crate) fn part(area: &[u8], s: usize, b: usize) -> [u8; 16]
    requires { (Sided s) × (length area.now ≡ s * s) × (b < blocks_of s) }
    ensures { result ≡ part_in s b area.now }
{
    let x = 4 * picture::inner::column_inside(b);
    let y = 4 * picture::inner::row_inside(b);
    picture::inner::block_at(area, s, x, y)
}

// The area with those samples in their places.
pub(crate) fn put(area: &mut [u8], s: usize, b: usize, block: [u8; 16])
    requires { (Sided s) × (length area.old ≡ s * s) × (b < blocks_of s) }
    ensures { area.new ≡ with_part s b block area.old }
{
    let x = 4 * picture::inner::column_inside(b);
    let y = 4 * picture::inner::row_inside(b);
    picture::inner::store_at(area, s, x, y, block);
}

// Where block b stands among the blocks in raster order.
pub(crate) fn place(s: usize, b: usize) -> usize
    requires { (Sided s) × (b < blocks_of s) }
    ensures { (result ≡ raster_place s b) × (result < blocks_of s) }
{
    s / 4 * picture::inner::row_inside(b) + picture::inner::column_inside(b)
}
