// Whole-number sums over the samples of the macroblocks that are present.
ghost use Rattle.std.specs.Prelude.{cond, ◌≡◌, ◌+◌, ◌*◌, ◌<◌, ◌≤◌, eqb, length};
ghost use Rattle.picture.specs.Order.{Sound, Among};
ghost use Rattle.sheet.specs.Code.{
  of_sums,
  of_totals,
  add_four,
  OfAtMost,
  SumsOver,
  row_total,
  square_total,
  macroblock_total,
  present_total,
  Planes,
  Lies,
};

use crate::map::is_present;
use picture::Layout;
use whole::inner::gap;

// Sums over some samples: of absolute and squared errors, of rebuilt and of original samples. Those of a macroblock fit 32 bits.
#[derive(Clone, Copy, Default)]
struct Sums {
    absolute: u32,
    squared: u32,
    rebuilt: u32,
    original: u32,
}

// Those of a picture fit 64. Two types, since with 64 bits throughout the largest picture took 4.8 ms in place of 1.8 (docs/DECISIONS.md, 67).
#[derive(Clone, Copy, Default)]
pub(crate) struct Totals {
    pub(crate) absolute: u64,
    pub(crate) squared: u64,
    pub(crate) rebuilt: u64,
    pub(crate) original: u64,
}

// A method of each, and no `+=`: .ci/stamp takes a trait's method for a public function, and wants a line and a theorem of its own for it.
impl Sums {
    fn add(&mut self, other: Sums)
        requires { (OfAtMost 256 (of_sums self.old)) × (OfAtMost 256 (of_sums other)) }
        ensures { of_sums self.new ≡ add_four (of_sums self.old) (of_sums other) }
    {
        self.absolute += other.absolute;
        self.squared += other.squared;
        self.rebuilt += other.rebuilt;
        self.original += other.original;
    }
}

impl Totals {
    fn add(&mut self, other: Sums)
        requires { (OfAtMost 4194304 (of_totals self.old)) × (OfAtMost 256 (of_sums other)) }
        ensures { of_totals self.new ≡ add_four (of_totals self.old) (of_sums other) }
    {
        self.absolute += u64::from(other.absolute);
        self.squared += u64::from(other.squared);
        self.rebuilt += u64::from(other.rebuilt);
        self.original += u64::from(other.original);
    }
}

fn squared(a: u8) -> u32
    ensures { (result ≡ a * a) × (result ≤ 65025) }
{
    u32::from(a) * u32::from(a)
}

// One sample. By a place in two planes at once, as `SumsOver` sums them; x and y below are coordinates in them, and m is a macroblock's number.
fn one(original: &[u8], rebuilt: &[u8], at: usize) -> Sums
    requires { (at < length original.now) × (at < length rebuilt.now) }
    ensures { SumsOver 1 (λ g. g at) original.now rebuilt.now (of_sums result) }
{
    let own = original[at];
    let back = rebuilt[at];
    let error = gap(own, back);
    Sums {
        absolute: u32::from(error),
        squared: squared(error),
        rebuilt: u32::from(back),
        original: u32::from(own),
    }
}

// The sixteen samples of a row of a macroblock.
fn row(original: &[u8], rebuilt: &[u8], at: usize) -> Sums
    requires { (at + 16 ≤ length original.now) × (at + 16 ≤ length rebuilt.now) }
    ensures { SumsOver 16 (row_total 16 at) original.now rebuilt.now (of_sums result) }
{
    let mut sums = Sums::default();
    for x in 0..16 {
        sums.add(one(original, rebuilt, at + x));
    }
    sums
}

// A macroblock: sixteen rows.
fn macroblock(original: &[u8], rebuilt: &[u8], at: usize, stride: usize) -> Sums
    requires { (stride ≤ 2048) × (Lies at stride original.now rebuilt.now) }
    ensures { SumsOver 256 (square_total 16 stride at) original.now rebuilt.now (of_sums result) }
{
    let mut sums = Sums::default();
    for y in 0..16 {
        sums.add(row(original, rebuilt, at + y * stride));
    }
    sums
}

// Macroblock m with its byte of the map: an absent one is left out.
fn part(layout: Layout, m: usize, byte: u8, original: &[u8], rebuilt: &[u8]) -> Sums
    requires { (Among layout m 0) × (Planes layout original.now rebuilt.now) }
    ensures { SumsOver 256 (λ g. cond (eqb byte 1) (macroblock_total layout m g) 0) original.now rebuilt.now (of_sums result) }
{
    if !is_present(byte) {
        return Sums::default();
    }
    macroblock(
        original,
        rebuilt,
        picture::inner::first_place(layout, m, 0),
        16 * layout.width,
    )
}

// The picture.
pub(crate) fn over_picture(layout: Layout, original: &[u8], rebuilt: &[u8], map: &[u8]) -> Totals
    requires { (Sound layout) × (Planes layout original.now rebuilt.now) × (length map.now ≡ layout.width * layout.height) }
    ensures { SumsOver 4194304 (present_total layout map.now) original.now rebuilt.now (of_totals result) }
{
    let mut totals = Totals::default();
    for (m, byte) in map.iter().enumerate() {
        totals.add(part(layout, m, *byte, original, rebuilt));
    }
    totals
}
