// The word that an exported function sends back: a success with its value, or a refusal with its number and place.
ghost use Rattle.std.specs.Prelude.{◌≡◌, ◌+◌, ◌*◌, ◌<◌};
ghost use Rattle.lists.specs.Chain.{stop};
ghost use Rattle.refusal.specs.Number.{said, value_back};
ghost use Rattle.fleecebutton.specs.Word.{places, word_of};

use intra4::Chosen;
use refusal::Refusal;

// How many places a word can tell: 2^56, since its low byte is the number's.
const PLACES: usize = 72057594037927936;

fn of_refusal(refusal: Refusal) -> u64
    ensures { result ≡ word_of (stop refusal) 0 }
{
    let number = refusal::inner::number(refusal);
    let place = refusal::inner::place(refusal) % PLACES;
    u64::from(number) + 256 * (place as u64)
}

// Of an answer whose success tells a value.
pub(crate) fn of_value(answer: Result<u64, Refusal>) -> u64
    requires { value_back answer < places }
    ensures { result ≡ word_of (said answer) (value_back answer) }
{
    match answer {
        Ok(value) => 256 * value,
        Err(refusal) => of_refusal(refusal),
    }
}

// Of an answer whose success tells nothing more.
pub(crate) fn of_answer(answer: Result<(), Refusal>) -> u64
    ensures { result ≡ word_of (said answer) 0 }
{
    of_value(answer.map(|()| 0))
}

// The value that tells a chosen mode and its SAD.
pub(crate) fn choice(best: Chosen) -> u64
    ensures { result ≡ best.mode + 16 * best.sad }
{
    u64::from(best.mode) + 16 * u64::from(best.sad)
}
