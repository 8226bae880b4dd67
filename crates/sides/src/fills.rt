// What fills n by n samples, row by row.
ghost use Rattle.std.specs.Prelude.{◌≡◌, cond, ◌*◌, ◌≤◌, length, take};
ghost use Rattle.lists.specs.Tab.{tab, grid};
ghost use Rattle.whole.specs.Bounds.{Within};
ghost use Rattle.sides.specs.Plane as standard;

use crate::rules;

// The samples of a side by value, in front of a row of sixteen: were they lent, each stored sample might have changed them, and the compiler would
// read them again.
pub(crate) fn row_of(side: &[u8]) -> [u8; 16]
    requires { length side.now ≤ 16 }
    ensures { take (length side.now) result ≡ side.now }
{
    let mut own = [0u8; 16];
    own[..side.len()].copy_from_slice(side);
    own
}

// Not one loop with `put_side`: what a row has is taken once, before its columns, and a rule of x and y would take it for each sample.
pub(crate) fn put_slanted(n: usize, a: i32, b: i32, c: i32, out: &mut [u8])
    requires { (2 ≤ n) × (n ≤ 16) × (Within 8160 a) × (Within 600000 b) × (Within 600000 c) × (length out.old ≡ n * n) }
    ensures { out.new ≡ grid n (standard.slanted n a b c) }
{
    let rises = rules::rises(n, b);
    for y in 0..n {
        let row = rules::row_start(n, a, c, y);
        for x in 0..n {
            out[n * y + x] = rules::shown(row, rises[x]);
        }
    }
}
