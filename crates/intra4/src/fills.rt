// The sixteen samples of a mode, and of all nine modes. The rows come by value, and a rule that is handed on has them by value too (`move`): were they
// lent, each stored sample might have changed them, and the compiler would read and average them again.
ghost use Rattle.std.specs.Prelude.{◌≡◌, ℕ, ◌<◌, ◌≤◌, length};
ghost use Rattle.lists.specs.Tab.{grid};
ghost use Rattle.intra4.specs.Code.{Gives, filled, area_filled};

use crate::rules;
use crate::samples::Rows;

// Row by row what `rule` gives at each column x and row y. Each rule has a loop of its own when compiled, and the compiler unrolls it.
pub(crate) fn put_by<F: Fn(usize, usize) -> u8>(rule: F, out: &mut [u8])
    requires callable { (x y : ℕ) → x < 4 → y < 4 → F.pre rule x y }
    requires room { length out.old ≡ 16 }
    ensures { (g : ℕ → ℕ → ℕ) → Gives (F.post rule) g → out.new ≡ grid 4 g }
{
    for y in 0..4 {
        for x in 0..4 {
            out[4 * y + x] = rule(x, y);
        }
    }
}

// A mode's samples over the rows, whether or not it is permitted.
// The modes are numbers, as in `inner`.
pub(crate) fn put(rows: Rows, mode: u8, out: &mut [u8])
    requires { (mode ≤ 8) × (length out.old ≡ 16) }
    ensures { out.new ≡ filled rows.top rows.left rows.flags mode }
{
    let Rows { top, left, flags } = rows;
    match mode {
        0 => put_by(move |x, y| rules::vertical(&top, x, y), out),
        1 => put_by(move |x, y| rules::horizontal(&left, x, y), out),
        2 => out.fill(rules::dc(&top, &left, flags)),
        3 => put_by(move |x, y| rules::down_left(&top, x, y), out),
        4 => put_by(move |x, y| rules::down_right(&top, &left, x, y), out),
        5 => put_by(move |x, y| rules::vertical_right(&top, &left, x, y), out),
        6 => put_by(move |x, y| rules::horizontal_down(&top, &left, x, y), out),
        7 => put_by(move |x, y| rules::vertical_left(&top, x, y), out),
        _ => put_by(move |x, y| rules::horizontal_up(&left, x, y), out),
    }
}

// The samples of all nine modes.
pub(crate) fn put_all(rows: Rows, area: &mut [[u8; 16]; 9])
    ensures { area.new ≡ area_filled rows.top rows.left rows.flags }
{
    for (mode, out) in area.iter_mut().enumerate() {
        put(rows, mode as u8, out);
    }
}
