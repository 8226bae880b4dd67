// The quantizer: its numbers, its split into period and remainder, its tables, and the chroma quantizer
// (01, "Transform, quantizer, rescaling").

#![tactic(auto)]

ghost use Rattle.std.specs.Prelude.{◌≡◌, ◌+◌, ◌*◌, ◌<◌, ◌≤◌};
ghost use Rattle.quantizer.specs.Chroma.{ChromaBuilds, folded_of};
ghost use Rattle.quantizer.specs.Range.{Builds, period_of, remainder_of};
ghost use Rattle.quantizer.specs.Tables.{mf_of, v_of, column_of};

use refusal::Refusal;

pub mod inner;

// Its number is legal, since `new` alone makes one. No invariant says so: `number`, `period`, `mf` and `v` are public and promise for every number, so a
// contract that needs it asks for `qp ≤ highest`.
#[derive(Clone, Copy)]
pub struct Quantizer {
    qp: u8,
}

// The position classes of a block's places.
#[derive(Clone, Copy)]
pub enum Class {
    A,
    B,
    C,
}

impl Quantizer {
    pub const MIN: u8 = 0;

    pub const MAX: u8 = 51;

    // The quantizer of a number, or the refusal.
    pub fn new(qp: u8) -> Result<Quantizer, Refusal>
        ensures { Builds qp result }
    {
        if !(Self::MIN..=Self::MAX).contains(&qp) {
            return Err(Refusal::Quantizer(0));
        }
        Ok(Quantizer { qp })
    }

    pub fn number(self) -> u8
        ensures { result ≡ self.qp }
    {
        self.qp
    }

    pub fn period(self) -> u8
        ensures { result ≡ period_of self.qp }
    {
        self.qp / 6
    }

    fn remainder(self) -> u8
        ensures { result ≡ remainder_of self.qp }
    {
        self.qp % 6
    }

    // Where the tables have the remainder's row and the class's column.
    fn entry(self, class: Class) -> usize
        ensures { (result ≡ 3 * remainder_of self.qp + column_of class) × (result < 18) }
    {
        usize::from(3 * self.remainder() + inner::column(class))
    }

    // The coder's multiplier at the places of a class.
    pub fn mf(self, class: Class) -> u16
        ensures { result ≡ mf_of (remainder_of self.qp) class }
    {
        MF[self.entry(class)]
    }

    // The decoder's scale at the places of a class.
    pub fn v(self, class: Class) -> u8
        ensures { result ≡ v_of (remainder_of self.qp) class }
    {
        V[self.entry(class)]
    }
}

// A row for each remainder: classes a, b, c. Flat, here and in V, as `mf_table` and `v_table` (specs/Tables), of which `mf_of` and `v_of` read place
// 3 * remainder + column.
const MF: [u16; 18] = [
    13107, 5243, 8066, 11916, 4660, 7490, 10082, 4194, 6554, 9362, 3647, 5825, 8192, 3355, 5243,
    7282, 2893, 4559,
];

const V: [u8; 18] = [
    10, 16, 13, 11, 18, 14, 13, 20, 16, 14, 23, 18, 16, 25, 20, 18, 29, 23,
];

// The chroma quantizer of a luma quantizer and an offset, or the refusal.
pub fn chroma_quantizer(qp: u8, offset: i32) -> Result<Quantizer, Refusal>
    ensures { ChromaBuilds qp offset result }
{
    Quantizer::new(qp)?;
    if !whole::inner::inside(offset, -12, 12) {
        return Err(Refusal::Quantizer(0));
    }
    let moved = whole::inner::clip(i32::from(qp) + offset, Quantizer::MAX);
    Quantizer::new(folded(moved))
}

// The standard's table, from 30 on.
fn folded(q: u8) -> u8
    requires { q ≤ 51 }
    ensures { result ≡ folded_of q }
{
    match q {
        0..=29 => q,
        30 => 29,
        31 => 30,
        32 => 31,
        33 | 34 => 32,
        35 => 33,
        36 | 37 => 34,
        38 | 39 => 35,
        40 | 41 => 36,
        42..=44 => 37,
        45..=47 => 38,
        _ => 39,
    }
}
