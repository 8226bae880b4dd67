// Macroblock records in lent parts, the form of a record, and the walk over records. Lengths are the caller's.
ghost use Rattle.std.specs.Prelude.{true, ◌∷◌, ◌↔◌, ◌≡◌, ℕ, ◌+◌, ◌-◌, ◌*◌, ◌<◌, ◌≤◌, pos, length, drop, get_or};
ghost use Rattle.std.specs.Int.{w8, w16};
ghost use Rattle.std.proofs.Common.{SFits};
ghost use Rattle.lists.specs.Parts.{over};
ghost use Rattle.lists.specs.Tab.{tab};
ghost use Rattle.refusal.specs.Number.{said};
ghost use Rattle.record.specs.Faults.{form_of, walk_of, walk_said};
ghost use Rattle.record.specs.Kinds.{length_of, in_fours, in_whole, in_chroma, kind_of, known_by, record_length, as_expected, expected_in};
ghost use Rattle.record.specs.Records.{front_with, record_with, record_of, record_whole, record_chroma, all_levels_in, qp_in, is_whole, whole_mode_in, mode_in, level_in, levels_in, cb_offset_in, cr_offset_in, chroma_mode_in, length_from, colour_at};

use crate::{Expected, Faulty, Kind};
use refusal::{Fault, Refusal};
use std::array;

// A macroblock's record of 4x4 blocks: 4D 42; five bytes and the eight of the modes; the levels of sixteen blocks.
const FOURS: Kind = Kind {
    mark: 77 * 256 + 66,
    front: 5 + 8,
    levels: 256,
};

// A macroblock's record of 16x16: 4D 36; five bytes and the mode; sixteen DC levels and sixteen times fifteen AC levels.
const WHOLE: Kind = Kind {
    mark: 77 * 256 + 54,
    front: 5 + 1,
    levels: 256,
};

// A chroma record: 4D 43; four bytes, both offsets and the mode; 64 levels of Cb and 64 of Cr.
const CHROMA: Kind = Kind {
    mark: 77 * 256 + 67,
    front: 4 + 3,
    levels: 128,
};

impl Kind {
    // The kind that has a mark, where one has it.
    fn of_mark(mark: u16) -> Option<Kind>
        ensures { known_by result ≡ kind_of mark }
    {
        [FOURS, WHOLE, CHROMA]
            .iter()
            .find(|kind| mark == kind.mark)
            .copied()
    }

    // How long a record is: front, levels of two bytes each, sum.
    fn length(self) -> usize
        requires { length_of self < 65536 }
        ensures { result ≡ length_of self }
    {
        self.front + 2 * self.levels + 2
    }
}

// ---- lengths

// How long a macroblock's record of 4x4 blocks is.
pub fn fours_length() -> usize
    ensures { result ≡ length_of in_fours }
{
    FOURS.length()
}

// How long a chroma record is.
pub fn chroma_length() -> usize
    ensures { result ≡ length_of in_chroma }
{
    CHROMA.length()
}

// ---- writing

// What stands before the levels of a record of a kind, into its own bytes: mark, number, the byte next to it, and what this kind has besides.
// The four go one way, from three callers to one store.
fn write_front(kind: Kind, number: u16, next: u8, more: &[u8], front: &mut [u8])
    requires { (length front.old ≡ kind.front) × (5 + length more.now ≡ kind.front) }
    ensures { front.new ≡ front_with kind number (next ∷ more.now) }
{
    front[..2].copy_from_slice(&kind.mark.to_be_bytes());
    front[2..4].copy_from_slice(&number.to_be_bytes());
    front[4] = next;
    front[5..].copy_from_slice(more);
}

// A record of a kind: front, levels, sum.
fn write_record(kind: Kind, number: u16, next: u8, more: &[u8], levels: &[i32], part: &mut [u8])
    requires part_len { (length part.old ≡ length_of kind) × (5 + length more.now ≡ kind.front) }
    requires levels_len { (length levels.now ≡ kind.levels) × ((k : ℕ) → SFits w16 (get_or levels.now k (pos 0))) }
    ensures { part.new ≡ record_with kind number (next ∷ more.now) levels.now }
{
    let front = kind.front;
    let end = front + 2 * kind.levels;
    write_front(kind, number, next, more, &mut part[0..front]);
    octets::inner::write_levels(levels, &mut part[front..end]);
    octets::inner::write_sum(part);
}

// The same over the front of what is lent; answers how many bytes that were.
fn record_over(
    kind: Kind,
    number: u16,
    next: u8,
    more: &[u8],
    levels: &[i32],
    file: &mut [u8],
) -> usize
    requires kind_bound { (length_of kind < 65536) × (length_of kind ≤ length file.old) × (5 + length more.now ≡ kind.front) }
    requires levels_len { (length levels.now ≡ kind.levels) × ((k : ℕ) → SFits w16 (get_or levels.now k (pos 0))) }
    ensures value { result ≡ length_of kind }
    ensures file_after { file.new ≡ over (record_with kind number (next ∷ more.now) levels.now) file.old }
{
    let long = kind.length();
    write_record(kind, number, next, more, levels, &mut file[0..long]);
    long
}

// A macroblock's record of 4x4 blocks, likewise.
#[tactic(auto, unfolding(crate::specs::Records::record_of))]
pub fn write_fours(number: u16, qp: u8, modes: [u8; 16], levels: &[i32], file: &mut [u8]) -> usize
    requires in_fours_in_bounds { (length_of in_fours ≤ length file.old) × ((k : ℕ) → get_or modes k 0 < 16) }
    requires levels_len { (length levels.now ≡ in_fours.levels) × ((k : ℕ) → SFits w16 (get_or levels.now k (pos 0))) }
    ensures value { result ≡ length_of in_fours }
    ensures file_after { file.new ≡ over (record_of number qp modes levels.now) file.old }
{
    let more = octets::inner::packed(modes);
    record_over(FOURS, number, qp, &more, levels, file)
}

// A macroblock's record of 16x16, likewise.
#[tactic(auto, unfolding(crate::specs::Records::record_whole))]
pub fn write_whole(number: u16, qp: u8, mode: u8, levels: &[i32], file: &mut [u8]) -> usize
    requires in_whole_in_bounds { length_of in_whole ≤ length file.old }
    requires levels_len { (length levels.now ≡ in_whole.levels) × ((k : ℕ) → SFits w16 (get_or levels.now k (pos 0))) }
    ensures value { result ≡ length_of in_whole }
    ensures file_after { file.new ≡ over (record_whole number qp mode levels.now) file.old }
{
    let more = [mode];
    record_over(WHOLE, number, qp, &more, levels, file)
}

// A chroma record, with Cb's offset and Cr's, likewise.
pub fn write_chroma(
    number: u16,
    cb: i32,
    cr: i32,
    mode: u8,
    levels: &[i32],
    file: &mut [u8],
) -> usize
    requires in_chroma_in_bounds { (length_of in_chroma ≤ length file.old) × SFits w8 cb × SFits w8 cr }
    requires levels_len { (length levels.now ≡ in_chroma.levels) × ((k : ℕ) → SFits w16 (get_or levels.now k (pos 0))) }
    ensures value { result ≡ length_of in_chroma }
    ensures file_after { file.new ≡ over (record_chroma number cb cr mode levels.now) file.old }
{
    let next = octets::inner::signed_byte(cb);
    let more = [octets::inner::signed_byte(cr), mode];
    record_over(CHROMA, number, next, &more, levels, file)
}

// ---- reading

// Each public name here but `all_zero` is a line over a byte's place or a kind, with a theorem in docs/STAMP.md; one function over the place or the kind
// would leave to its callers what the names say.

pub fn qp(part: &[u8]) -> u8
    requires { 4 < length part.now }
    ensures { result ≡ qp_in part.now }
{
    part[4]
}

// Whether a record, of one of the kinds, is of 16x16.
pub fn is_whole(part: &[u8]) -> bool
    requires { 1 < length part.now }
    ensures { result ≡ is_whole part.now }
{
    octets::inner::number_at(part, 0) == WHOLE.mark
}

// The mode of a record of 16x16.
pub fn whole_mode(part: &[u8]) -> u8
    requires { 5 < length part.now }
    ensures { result ≡ whole_mode_in part.now }
{
    part[5]
}

// The mode of a block.
pub fn mode(part: &[u8], block: usize) -> u8
    requires { (length part.now ≡ length_of in_fours) × (block < 16) }
    ensures { result ≡ mode_in block part.now }
{
    octets::inner::unpack(part[5 + block / 2], block)
}

// Level k of a block, in zigzag order.
fn level(part: &[u8], block: usize, k: usize) -> i32
    requires { (length part.now ≡ length_of in_fours) × (block < 16) × (k < 16) }
    ensures { result ≡ level_in block k part.now }
{
    octets::inner::level_at(part, FOURS.front, 16 * block + k)
}

// The sixteen levels of a block, in zigzag order.
pub fn block_levels(part: &[u8], block: usize) -> [i32; 16]
    requires { (length part.now ≡ length_of in_fours) × (block < 16) }
    ensures { result ≡ levels_in block part.now }
{
    array::from_fn(|k| level(part, block, k))
}

// Whether the sixteen levels of a block are all 0, by their 32 bytes, which are compared at once where `all` would go byte by byte. On busy ground the
// low byte of the first level says at once that they are not.
pub fn all_zero(part: &[u8], block: usize) -> bool
    requires { (length part.now ≡ length_of in_fours) × (block < 16) }
    ensures { (result ≡ true) ↔ (levels_in block part.now ≡ tab 16 (λ k. pos 0)) }
{
    let at = FOURS.front + 32 * block;
    part[at + 1] == 0 && part[at..at + 32] == [0u8; 32]
}

// All levels of a record of a kind.
fn kind_levels(kind: Kind, part: &[u8], out: &mut [i32])
    requires { (length part.now ≡ length_of kind) × (length out.old ≡ kind.levels) }
    ensures { out.new ≡ all_levels_in kind part.now }
{
    for (i, level) in out.iter_mut().enumerate() {
        *level = octets::inner::level_at(part, kind.front, i);
    }
}

// All levels of a record of 16x16: DC, then AC.
pub fn whole_levels(part: &[u8], out: &mut [i32])
    requires { (length part.now ≡ length_of in_whole) × (length out.old ≡ in_whole.levels) }
    ensures { out.new ≡ all_levels_in in_whole part.now }
{
    kind_levels(WHOLE, part, out);
}

// All levels of a chroma record: those of Cb, then those of Cr.
pub fn both_levels(part: &[u8], out: &mut [i32])
    requires { (length part.now ≡ length_of in_chroma) × (length out.old ≡ in_chroma.levels) }
    ensures { out.new ≡ all_levels_in in_chroma part.now }
{
    kind_levels(CHROMA, part, out);
}

// Cb's offset, of a chroma record.
pub fn cb_offset(part: &[u8]) -> i32
    requires { 4 < length part.now }
    ensures { result ≡ cb_offset_in part.now }
{
    octets::inner::signed_in(part[4])
}

// And Cr's.
pub fn cr_offset(part: &[u8]) -> i32
    requires { 5 < length part.now }
    ensures { result ≡ cr_offset_in part.now }
{
    octets::inner::signed_in(part[5])
}

// The mode of a chroma record.
pub fn chroma_mode(part: &[u8]) -> u8
    requires { 6 < length part.now }
    ensures { result ≡ chroma_mode_in part.now }
{
    part[6]
}

// ---- faults

// How long a record with a mark is, 0 where there is no such record.
// A number and no `Option`, since `length_from` below answers it.
fn record_length(mark: u16) -> usize
    ensures { result ≡ record_length mark }
{
    Kind::of_mark(mark).map_or(0, Kind::length)
}

// Whether a mark is as expected: a chroma record's where one is to stand, and elsewhere another kind's.
fn is_expected(chroma: bool, mark: u16) -> bool
    ensures { result ≡ as_expected chroma (kind_of mark) }
{
    Kind::of_mark(mark).is_some_and(|kind| (kind.mark == CHROMA.mark) == chroma)
}

// How many bytes are left from a place on.
fn left(file: &[u8], place: usize) -> usize
    ensures { result ≡ length file.now - place }
{
    file.len().saturating_sub(place)
}

// The length of the record that begins at a place, 0 where no record's mark stands there. A number and no `Option`, since callers add it to the place.
pub fn length_from(file: &[u8], place: usize) -> usize
    ensures { result ≡ length_from place file.now }
{
    if left(file, place) < 2 {
        return 0;
    }
    record_length(octets::inner::number_at(file, place))
}

// Whether a chroma record's mark stands behind the record that begins at a place.
pub fn colour_from(file: &[u8], place: usize) -> bool
    ensures { result ≡ colour_at place file.now }
{
    let long = length_from(file, place);
    if left(file, place) < long + 2 {
        return false;
    }
    octets::inner::number_at(file, place + long) == CHROMA.mark
}

// The form of the record that begins at a place, where this one is expected.
fn form(file: &[u8], place: usize, expected: Expected) -> Result<usize, Fault>
    ensures { result ≡ form_of expected (drop place file.now) }
{
    let rest = left(file, place);
    if rest < 2 {
        return Err(Fault::CutMark);
    }
    let mark = octets::inner::number_at(file, place);
    if !is_expected(expected.chroma, mark) {
        return Err(Fault::Mark);
    }
    let long = record_length(mark);
    if rest < long {
        return Err(Fault::CutRest);
    }
    if usize::from(octets::inner::number_at(file, place + 2)) != expected.number {
        return Err(Fault::Number);
    }
    if !octets::inner::sum_holds(&file[place..place + long]) {
        return Err(Fault::Sum);
    }
    Ok(long)
}

// What is expected as record k of a mono or of a colour file.
#[tactic(auto, unfolding(crate::specs::Kinds::expected_in))]
fn expected_in(colour: bool, k: usize) -> Expected
    ensures { result ≡ expected_in colour k }
{
    Expected {
        chroma: colour && k % 2 == 1,
        number: if colour { k / 2 } else { k },
    }
}

// The walk over the records 0, 1, .. of a file from a place on.
fn walk(file: &[u8], start: usize, count: usize, colour: bool) -> Result<usize, Faulty>
    ensures { result ≡ walk_of colour count file.now start }
{
    let mut place = start;
    for k in 0usize..count {
        let tested = form(file, place, expected_in(colour, k));
        let long = tested.map_err(|fault| Faulty { fault, place })?;
        place += long;
    }
    Ok(place)
}

// What the form of a file's records sends back: the first fault, or that bytes are left behind the last record.
pub fn walked(file: &[u8], start: usize, count: usize, colour: bool) -> Result<(), Refusal>
    ensures { said result ≡ walk_said file.now (walk_of colour count file.now start) }
{
    let end = walk(file, start, count, colour).map_err(|Faulty { fault, place }| {
        let long = length_from(file, place);
        refusal::inner::of_fault(fault, place, long, file.len())
    })?;
    if end < file.len() {
        return Err(Refusal::Form(file.len()));
    }
    Ok(())
}
