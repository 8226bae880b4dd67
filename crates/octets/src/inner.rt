// Numbers, levels, modes and sums in lent bytes. Lengths are the caller's.
ghost use Rattle.std.specs.Prelude.{◌≡◌, ℕ, ◌+◌, ◌-◌, ◌*◌, ◌<◌, ◌≤◌, length, take, pos, FitsSigned, slice_index, slice_index_or};
ghost use Rattle.std.specs.Int.{w8, w16};
ghost use Rattle.std.proofs.Common.{of_z, to_z};
ghost use Rattle.octets.specs.Modes.{paired, packed, unpaired};
ghost use Rattle.octets.specs.Numbers.{number_at, level_bytes, level_at, signed_byte, signed_in};
ghost use Rattle.octets.specs.Sum.{record_sum, summed, sum_holds};

use std::array;

// The number of two bytes, high byte first.
// A place beside the bytes, here and in `record`, `plane`, `frame` and `inspection`: the paper counts places from a file's start.
pub fn number_at(bytes: &[u8], place: usize) -> u16
    requires { place + 1 < length bytes.now }
    ensures { result ≡ number_at place bytes.now }
{
    u16::from_be_bytes([bytes[place], bytes[place + 1]])
}

// Levels, of whatever number, into two bytes each. By places: of a `zip` with `chunks_exact_mut` the loop's invariant does not see what `out` holds (tried).
pub fn write_levels(levels: &[i32], out: &mut [u8])
    requires { (length out.old ≡ 2 * length levels.now) × ((k : ℕ) → FitsSigned w16 (slice_index_or levels.now k (pos 0))) }
    ensures { out.new ≡ level_bytes levels.now }
{
    for (k, level) in levels.iter().enumerate() {
        let [high, low] = (*level as i16).to_be_bytes();
        out[2 * k] = high;
        out[2 * k + 1] = low;
    }
}

// Level i of a record that has so many bytes before its levels.
pub fn level_at(part: &[u8], front: usize, i: usize) -> i32
    requires { front + 2 * i + 1 < length part.now }
    ensures { result ≡ level_at (front + 2 * i) part.now }
{
    i32::from(number_at(part, front + 2 * i).cast_signed())
}

// A number of eight signed bits as a byte.
pub fn signed_byte(number: i32) -> u8
    requires { FitsSigned w8 number }
    ensures { result ≡ signed_byte number }
{
    (number as i8).cast_unsigned()
}

// The number that a byte of eight signed bits is.
pub fn signed_in(byte: u8) -> i32
    ensures { result ≡ signed_in byte }
{
    i32::from(byte.cast_signed())
}

// Two modes in a byte.
fn pack(low: u8, high: u8) -> u8
    requires { (low < 16) × (high < 16) }
    ensures { result ≡ paired low high }
{
    low | (high << 4)
}

// Sixteen modes in eight bytes.
pub fn packed(modes: [u8; 16]) -> [u8; 8]
    requires { (k : ℕ) → slice_index modes k < 16 }
    ensures { result ≡ packed 8 modes }
{
    array::from_fn(|k| pack(modes[2 * k], modes[2 * k + 1]))
}

// The mode of a block, of the byte that holds it.
pub fn unpack(byte: u8, block: usize) -> u8
    ensures { result ≡ unpaired block byte }
{
    if block % 2 == 0 { byte & 15 } else { byte >> 4 }
}

// The bytes, added modulo 65536.
fn sum(bytes: &[u8]) -> u16
    ensures { result ≡ record_sum bytes.now }
{
    bytes
        .iter()
        .fold(0, |sum, byte| sum.wrapping_add(u16::from(*byte)))
}

// Whether the last two bytes are the sum of the earlier ones.
#[tactic(auto, unfolding(crate::specs::Sum::sum_holds))]
pub fn sum_holds(part: &[u8]) -> bool
    requires { 2 ≤ length part.now }
    ensures { result ≡ sum_holds part.now }
{
    let n = part.len() - 2;
    number_at(part, n) == sum(&part[..n])
}

// The sum of the earlier bytes into the last two.
pub fn write_sum(part: &mut [u8])
    requires { 2 ≤ length part.old }
    ensures { part.new ≡ summed (take (length part.old - 2) part.old) }
{
    let n = part.len() - 2;
    let sum = sum(&part[..n]);
    part[n..].copy_from_slice(&sum.to_be_bytes());
}
