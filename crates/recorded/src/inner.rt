// What `vectors` asks of a recorded request. The lengths are the caller's.
ghost use Rattle.std.specs.Prelude.{◌≡◌, ◌+◌, ◌<◌, ◌≤◌, length, slice_index, Decides};
ghost use Rattle.lists.specs.Tab.{tab};
ghost use Rattle.recorded.specs.Numbers.{of_two, of_four, of_eight, of_signed, of_list};

use std::array;

// How many numbers a list of a request has room for.
const NUMBERS: usize = 17;

// The N bytes from a place on.
// A place beside the bytes, here and below: `of_two` to `of_signed` and the theorems of these functions (docs/STAMP.md) have both.
fn bytes<const N: usize>(part: &[u8], place: usize) -> [u8; N]
    requires { place + N ≤ length part.now }
    ensures { result ≡ tab N (λ k. slice_index part.now (place + k)) }
{
    <[u8; N]>::try_from(&part[place..place + N]).unwrap()
}

// The number of the two bytes from a place on.
// Four functions, here and below: `from_le_bytes` is of each type and of no trait, and what they share is `bytes`.
pub fn two_bytes(part: &[u8], place: usize) -> u64
    requires { place + 2 ≤ length part.now }
    ensures { (result ≡ of_two place part.now) × (result < 65536) }
{
    u64::from(u16::from_le_bytes(bytes(part, place)))
}

// That of four.
pub fn four_bytes(part: &[u8], place: usize) -> u64
    requires { place + 4 ≤ length part.now }
    ensures { (result ≡ of_four place part.now) × (result < 4294967296) }
{
    u64::from(u32::from_le_bytes(bytes(part, place)))
}

// That of eight.
pub fn eight_bytes(part: &[u8], place: usize) -> u64
    requires { place + 8 ≤ length part.now }
    ensures { result ≡ of_eight place part.now }
{
    u64::from_le_bytes(bytes(part, place))
}

// The number of four bytes that may be negative.
pub fn four_signed(part: &[u8], place: usize) -> i32
    requires { place + 4 ≤ length part.now }
    ensures { result ≡ of_signed place part.now }
{
    i32::from_le_bytes(bytes(part, place))
}

// A list's room of numbers, four bytes each.
pub fn list_of(part: &[u8]) -> [i32; NUMBERS]
    requires { length part.now ≡ 68 }
    ensures { result ≡ of_list 17 part.now }
{
    array::from_fn(|k| four_signed(part, 4 * k))
}

// Whether two of them hold the same. A name for `==`, since the edit `unlike_accepted` turns what it means.
pub fn same_list(a: [i32; NUMBERS], b: [i32; NUMBERS]) -> bool
    ensures { Decides result (a ≡ b) }
{
    a == b
}
