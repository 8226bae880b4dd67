// The head of a file: the size of its picture, and the rows of a slice (01, "Plane and record file"; 02, request 02).

#![tactic(auto)]

ghost use Rattle.head.specs.Entry.{ReadsHead};

use refusal::{Fault, Refusal};

pub mod inner;

// What a head says: width and height in macroblocks, the rows of a slice, and how long the head itself is.
#[derive(Clone, Copy)]
pub struct Head {
    pub width: usize,
    pub height: usize,
    pub rows: usize,
    pub long: usize,
}

// The size of the picture whose file this is, the rows of a slice and where the records begin, or the refusal.
pub fn read_head(file: &[u8]) -> Result<Head, Refusal>
    ensures { ReadsHead file.now result }
{
    if file.len() < 2 {
        return Err(Refusal::Form(0));
    }
    let Some(long) = inner::length_by(octets::inner::number_at(file, 0)) else {
        return Err(refusal::inner::of_fault(Fault::Mark, 0, 0, file.len()));
    };
    if file.len() < long {
        return Err(Refusal::Form(0));
    }
    if !octets::inner::sum_holds(&file[..long]) {
        return Err(refusal::inner::of_fault(Fault::Sum, 0, long, file.len()));
    }
    let width = usize::from(octets::inner::number_at(file, 2));
    let height = usize::from(octets::inner::number_at(file, 4));
    let rows = inner::rows_at(file);
    if !inner::size_holds(width, height) {
        return Err(Refusal::Size);
    }
    if !inner::rows_hold(height, rows) {
        return Err(Refusal::Size);
    }
    Ok(Head {
        width,
        height,
        rows,
        long,
    })
}
