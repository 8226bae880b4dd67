// The rooms of a recorded request, in fixed places of its frame (tests/README.md), and the parts of them that are lent. The crate `recorded` reads
// its numbers.
ghost use Rattle.std.specs.Prelude.{◌≤◌, ◌<◌};

use picture::Layout;

// What every byte of a frame holds at first, and every byte of an output before its call: so a number of an output is four of these.
pub(crate) const BEFORE: u8 = 90;

pub(crate) const NUMBER_BEFORE: i32 = 1515870810;

// The rooms of outputs: a list of numbers; a file; a luma plane; a chroma plane.
pub(crate) const NUMBERS: usize = 17;

pub(crate) const FILE: usize = 12682;

pub(crate) const PLANE: usize = 4096;

pub(crate) const CHROMA: usize = 1024;

pub(crate) type Frame = [u8; 36838];

// Where the lengths of the nine slices begin.
const LENGTHS: usize = 56;

// Where a slice stands in a frame, and the place of its length among the nine.
#[derive(Clone, Copy)]
pub(crate) struct Room {
    slice: usize,
    start: usize,
    end: usize,
    ghost inside: { (slice < 9) × (start ≤ end) × (end ≤ 36838) },
}

// The bytes lent.
pub(crate) const FIRST: Room = Room {
    slice: 0,
    start: 5330,
    end: 18012,
};

pub(crate) const SECOND: Room = Room {
    slice: 1,
    start: 210,
    end: 4306,
};

pub(crate) const THIRD: Room = Room {
    slice: 2,
    start: 4306,
    end: 5330,
};

// The numbers lent, and those expected.
pub(crate) const LIST: Room = Room {
    slice: 3,
    start: 74,
    end: 142,
};

pub(crate) const MADE: Room = Room {
    slice: 4,
    start: 142,
    end: 210,
};

// The bytes expected of four outputs.
pub(crate) const OUT: Room = Room {
    slice: 5,
    start: 18012,
    end: 30694,
};

pub(crate) const MORE: Room = Room {
    slice: 6,
    start: 30694,
    end: 34790,
};

pub(crate) const EXTRA: Room = Room {
    slice: 7,
    start: 34790,
    end: 35814,
};

pub(crate) const LAST: Room = Room {
    slice: 8,
    start: 35814,
    end: 36838,
};

impl Room {
    // The length of the slice, cut to the room there is. Of the room its length is told, whether it holds bytes or numbers.
    fn lent(self, frame: &Frame, room: usize) -> usize
        ensures { result ≤ room }
    {
        let length = recorded::inner::two_bytes(frame, LENGTHS + 2 * self.slice) as usize;
        length.min(room)
    }

    // The bytes of the frame that are lent.
    pub(crate) fn bytes_in(self, frame: &Frame) -> &[u8] {
        let behind = self.start + self.lent(frame, self.end - self.start);
        &frame[self.start..behind]
    }

    // The part of a list that is lent, and of an output.
    pub(crate) fn part_in<'a, T>(self, frame: &Frame, list: &'a [T]) -> &'a [T] {
        let length = self.lent(frame, list.len());
        &list[..length]
    }

    pub(crate) fn part_out<'a, T>(self, frame: &Frame, output: &'a mut [T]) -> &'a mut [T] {
        let length = self.lent(frame, output.len());
        &mut output[..length]
    }

    // Whether an output of bytes is left as it stands in the frame.
    pub(crate) fn is_left(self, frame: &Frame, output: &[u8]) -> bool {
        output == &frame[self.start..self.end]
    }
}

// The word expected.
pub(crate) fn word(frame: &Frame) -> u64 {
    recorded::inner::eight_bytes(frame, 48)
}

// The numbers lent, and those expected. No method of `Room`, as `bytes_in` is: `list_of` asks for 68 bytes, which a room need not have and these two do.
pub(crate) fn list(frame: &Frame) -> [i32; NUMBERS] {
    recorded::inner::list_of(&frame[LIST.start..LIST.end])
}

pub(crate) fn expected(frame: &Frame) -> [i32; NUMBERS] {
    recorded::inner::list_of(&frame[MADE.start..MADE.end])
}

// A picture's size and the rows of a slice, which are the first arguments of a coder.
pub(crate) fn layout_in(frame: &Frame) -> Layout {
    Layout {
        width: recorded::inner::eight_bytes(frame, 0) as usize,
        height: recorded::inner::eight_bytes(frame, 8) as usize,
        rows: recorded::inner::eight_bytes(frame, 16) as usize,
    }
}
