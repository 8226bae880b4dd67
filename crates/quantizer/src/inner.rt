// The tables of places: position classes and the zigzag.
ghost use Rattle.std.specs.Prelude.{◌≡◌};
ghost use Rattle.lists.specs.Tab.{tab};
ghost use Rattle.quantizer.specs.Tables.{column_of, of_class, class_at_place, zigzag_table, step_table};

use crate::Class;

const ZIGZAG: [usize; 16] = [0, 1, 4, 8, 5, 2, 3, 6, 9, 12, 13, 10, 7, 11, 14, 15];

const STEP: [usize; 16] = [0, 1, 5, 6, 2, 4, 7, 12, 3, 8, 11, 13, 9, 10, 14, 15];

// The column of a class in the tables MF and V.
// A match and no cast: the order is the tables', and each line is one of theirs.
pub(crate) fn column(class: Class) -> u8
    ensures { result ≡ column_of class }
{
    match class {
        Class::A => 0,
        Class::B => 1,
        Class::C => 2,
    }
}

// Of three numbers, one for each class, those of the sixteen raster places.
pub fn by_class(a: u32, b: u32, c: u32) -> [u32; 16]
    ensures { result ≡ tab 16 (λ place. of_class a b c (class_at_place place)) }
{
    [a, c, a, c, c, b, c, b, a, c, a, c, c, b, c, b]
}

// The raster places in the order in which the zigzag visits them. By value: a reader's loop then has them for constants.
pub fn zigzag() -> [usize; 16]
    ensures { result ≡ zigzag_table }
{
    ZIGZAG
}

// The step at which the zigzag visits each raster place.
pub fn steps() -> [usize; 16]
    ensures { result ≡ step_table }
{
    STEP
}
