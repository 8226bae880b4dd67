// Means: each one rounded division of exactly converted whole numbers.
ghost use Rattle.std.specs.Prelude.{◌≡◌, ◌≤◌, pos, ◌-ℤ◌};
ghost use Rattle.sheet.specs.Code.{of_totals, OfAtMost, longest, divided_from};
ghost use Rattle.sheet.specs.Means.{divided_once};

use crate::Sheet;
use crate::sums::Totals;

fn mean(sum: u64, count: u64) -> f64
    requires { (sum ≤ longest) × (count ≤ longest) }
    ensures { result ≡ divided_once (pos sum) count }
{
    (sum as f64) / (count as f64)
}

// Of what was rebuilt less what was original.
fn mean_signed(rebuilt: u64, original: u64, count: u64) -> f64
    requires { (rebuilt ≤ longest) × (original ≤ longest) × (count ≤ longest) }
    ensures { result ≡ divided_once (pos rebuilt -ℤ pos original) count }
{
    (((rebuilt as i64) - (original as i64)) as f64) / (count as f64)
}

// The sheet of so many macroblocks; of none there is no sheet.
pub(crate) fn divided(present: u64, totals: Totals) -> Option<Sheet>
    requires { (present ≤ 16384) × (OfAtMost 4194304 (of_totals totals)) }
    ensures { result ≡ divided_from present totals }
{
    if present == 0 {
        return None;
    }
    let count = 256 * present;
    Some(Sheet {
        absolute: mean(totals.absolute, count),
        squared: mean(totals.squared, count),
        signed: mean_signed(totals.rebuilt, totals.original, count),
    })
}
