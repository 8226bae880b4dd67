// The map of macroblocks present: a byte for each, by its number.
ghost use Rattle.std.specs.Prelude.{◌≡◌, eqb, length, nat_lt, position};
ghost use Rattle.sheet.specs.Errors.{present_count};

// The place of the first byte above 1.
pub(crate) fn first_flag(map: &[u8]) -> Option<usize>
    ensures { result ≡ position (λ byte. nat_lt 1 byte) map.now }
{
    map.iter().position(|byte| *byte > 1)
}

// Whether a byte says that its macroblock is present: sums and count both go by it.
pub(crate) fn is_present(byte: u8) -> bool
    ensures { result ≡ eqb byte 1 }
{
    byte == 1
}

// How many macroblocks are present. Added and not `filter` with `count`, whose branch for each byte made the sheet of a map of zeros a third slower.
pub(crate) fn present(map: &[u8]) -> u64
    ensures { result ≡ present_count (length map.now) map.now }
{
    let mut count: u64 = 0;
    for byte in map {
        count += u64::from(is_present(*byte));
    }
    count
}
