// Sizes, and heads in lent parts. Lengths are the caller's.
ghost use Rattle.std.specs.Prelude.{◌≡◌, ◌+◌, ◌*◌, ◌≤◌, length};
ghost use Rattle.lists.specs.Parts.{over};
ghost use Rattle.octets.specs.Sum.{summed};
ghost use Rattle.head.specs.Entry.{size_holds, rows_hold, rows_at};
ghost use Rattle.head.specs.Heads.{old_length, words, head_of, head_length, length_by, some_unless_0};

// 48 44
const OLD_MARK: u16 = 72 * 256 + 68;

const OLD_LENGTH: usize = 8;

// 48 53
const NEW_MARK: u16 = 72 * 256 + 83;

const NEW_LENGTH: usize = 10;

// Whether both are 1 to 128.
#[tactic(auto, unfolding(crate::specs::Entry::size_holds))]
pub fn size_holds(width: usize, height: usize) -> bool
    ensures { result ≡ size_holds width height }
{
    (1..=128).contains(&width) && (1..=128).contains(&height)
}

// Whether the rows of a slice are 1 to the height.
#[tactic(auto, unfolding(crate::specs::Entry::rows_hold))]
pub fn rows_hold(height: usize, rows: usize) -> bool
    ensures { result ≡ rows_hold height rows }
{
    (1..=height).contains(&rows)
}

// ---- lengths

// How long the head is that the coder writes.
pub fn length_for(height: usize, rows: usize) -> usize
    ensures { result ≡ head_length height rows }
{
    if rows == height {
        OLD_LENGTH
    } else {
        NEW_LENGTH
    }
}

// How long a head with a mark is, where there is such a head.
#[tactic(auto, unfolding(crate::specs::Heads::length_by))]
pub(crate) fn length_by(mark: u16) -> Option<usize>
    ensures { result ≡ some_unless_0 (length_by mark) }
{
    if mark == OLD_MARK {
        return Some(OLD_LENGTH);
    }
    if mark == NEW_MARK {
        return Some(NEW_LENGTH);
    }
    None
}

// ---- reading

// The rows of a slice: those that a new head carries, and all of an old one.
pub(crate) fn rows_at(file: &[u8]) -> usize
    requires { old_length ≤ length file.now }
    ensures { result ≡ rows_at file.now }
{
    let place = if octets::inner::number_at(file, 0) == NEW_MARK {
        6
    } else {
        4
    };
    usize::from(octets::inner::number_at(file, place))
}

// ---- writing

// A head of these numbers, into its own bytes: two bytes each, then the sum.
// By places, as `octets::inner::write_levels`, which says why; not one function with it, since `to_be_bytes` is of each type and of no trait.
fn fill(numbers: &[u16], head: &mut [u8])
    requires { length head.old ≡ 2 * length numbers.now + 2 }
    ensures { head.new ≡ summed (words numbers.now) }
{
    for (k, number) in numbers.iter().enumerate() {
        head[2 * k..2 * k + 2].copy_from_slice(&number.to_be_bytes());
    }
    octets::inner::write_sum(head);
}

// The head of a picture over the front of a file area; answers the place behind it.
pub fn write_head(width: u16, height: u16, rows: u16, file: &mut [u8]) -> usize
    requires { head_length height rows ≤ length file.old }
    ensures file_after { file.new ≡ over (head_of width height rows) file.old }
    ensures value { result ≡ head_length height rows }
{
    if rows != height {
        fill(&[NEW_MARK, width, height, rows], &mut file[0..NEW_LENGTH]);
        return NEW_LENGTH;
    }
    fill(&[OLD_MARK, width, height], &mut file[0..OLD_LENGTH]);
    OLD_LENGTH
}
