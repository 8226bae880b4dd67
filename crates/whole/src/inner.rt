// Functions that the crates above call. Each takes every value of its types.
ghost use Rattle.std.specs.Prelude.{◌≡◌, nat_abs, length};
ghost use Rattle.lists.specs.First.{found};
ghost use Rattle.lists.specs.Total.{gap};
ghost use Rattle.whole.specs.Clip.{clip};
ghost use Rattle.whole.specs.Range.{inside, first_outside};

// The absolute value, also of the least number, which has none in 32 signed bits.
// A name for the library's method, which stays for `absolute_unique` (docs/STAMP.md).
pub fn absolute(z: i32) -> u32
    ensures { result ≡ nat_abs z }
{
    z.unsigned_abs()
}

// How far apart two bytes are.
// A name for the library's method, which stays for `gap_unique`.
pub fn gap(a: u8, b: u8) -> u8
    ensures { result ≡ gap a b }
{
    a.abs_diff(b)
}

// z clipped to 0..=high.
pub fn clip(z: i32, high: u8) -> u8
    ensures { result ≡ clip high z }
{
    z.clamp(0, i32::from(high)) as u8
}

// Whether z lies in low..=high.
// A name for the library's method, which stays for `inside_unique`.
#[tactic(auto, unfolding(crate::specs::Range::inside))]
pub fn inside(z: i32, low: i32, high: i32) -> bool
    ensures { result ≡ inside low high z }
{
    (low..=high).contains(&z)
}

// The place of the first number outside low..=high, if there is one.
pub fn first_outside(x: &[i32], low: i32, high: i32) -> Option<usize>
    ensures { result ≡ found (length x.now) (first_outside low high x.now) }
{
    x.iter().position(|z| !inside(*z, low, high))
}

// Copies the numbers of one slice over those of another.
// A name for the library's method, which stays for `copy_unique`.
pub fn copy(from: &[i32], to: &mut [i32])
    requires { length from.now ≡ length to.old }
    ensures { to.new ≡ from.now }
{
    to.copy_from_slice(from)
}
