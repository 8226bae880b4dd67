// What the crates above call, without tests.
ghost use Rattle.std.specs.Prelude.{◌≡◌, ◌*◌, ◌≤◌, length};
ghost use Rattle.choice.specs.Choice as paper;
ghost use Rattle.choice.specs.Choice.{is, nothing};
ghost use Rattle.choice.specs.Code.{standing, looked};

// The best mode so far and its cost.
#[derive(Clone, Copy)]
pub struct Standing {
    pub mode: u8,
    pub cost: u32,
}

// The sum of absolute differences of samples, as many as 16x16. The bound on b tells the compiler that the two end together: without it the pairs are not
// taken sixteen at once.
pub fn sad(a: &[u8], b: &[u8]) -> u16
    requires { (length a.now ≡ length b.now) × (length a.now ≤ 256) }
    ensures { (result ≡ paper.sad (length a.now) a.now b.now) × (result ≤ 255 * length a.now) }
{
    a.iter()
        .zip(b[..a.len()].iter())
        .map(|(x, y)| u16::from(whole::inner::gap(*x, *y)))
        .sum()
}

// Before any mode is looked at, and for a candidate that is not coded: a cost above any other, which loses each comparison as it stands, where an
// `Option` would have to be taken apart first.
pub fn unsettled() -> Standing
    ensures { result ≡ standing nothing }
{
    Standing {
        mode: 0,
        cost: u32::MAX,
    }
}

// One more mode is looked at: a strictly smaller cost takes the place, so that the lower number stays on a tie.
pub fn look(mode: u8, cost: u32, best: Standing) -> Standing
    ensures { result ≡ looked mode (is cost) best }
{
    if cost < best.cost {
        Standing { mode, cost }
    } else {
        best
    }
}
