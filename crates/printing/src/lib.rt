// The text that `blockprint` prints, from the bytes that it reads.

#![tactic(auto)]

ghost use Rattle.std.specs.Prelude.{◌+◌, ◌≤◌, ◌≡◌, [], ◌∷◌, ◌++◌, pos, length, slice_index_or};
ghost use Rattle.refusal.specs.Number.{number_of, place_of};
ghost use Rattle.intra4.specs.Choice.{at};
ghost use Rattle.printing.specs.Text.{signed_of, behind as paperBehind, line_of, Written};
ghost use Rattle.printing.specs.Printed.{refused_text, ok_text, Prints};

use arrayvec::ArrayString;
use itoa::{Buffer, Integer};
use refusal::Refusal;
use std::marker::Model;

// Text and its length; what stands behind it is 0.
#[derive(Clone, Copy)]
pub struct Text {
    pub bytes: [u8; 1024],
    pub len: usize,
}

// A text of at most 1024 bytes while it grows, in the value itself, so that none of the functions here can run out of memory.
// By `push_str` and not `write!`, which answers a `Result` of which no clause says that it is `Ok`: `printed` cannot fail.
#[derive(Drop)]
struct Draft {
    written: ArrayString<1024>,
}

impl Model for Draft {
    ghost use Rattle.std.specs.Prelude.{List, ℕ};

    ghost Value = { List ℕ };

    ghost view = { λ t. t.written.bytes };
}

impl Draft {
    fn new() -> Self
        ensures { result ≡ [] }
    {
        Draft {
            written: ArrayString::new(),
        }
    }

    fn push_str(&mut self, words: &str)
        requires { length self.old + length words.now ≤ 1024 }
        ensures { self.new ≡ self.old ++ words.now }
    {
        self.written.push_str(words);
    }

    fn push_number<I: Integer>(&mut self, n: I)
        requires { length self.old + I.MAX_STR_LEN ≤ 1024 }
        ensures text { self.new ≡ self.old ++ I.text n }
        ensures short { length self.new ≤ length self.old + I.MAX_STR_LEN }
    {
        self.push_str(Buffer::new().format(n));
    }

    // Sixteen numbers in a line.
    fn push_line(&mut self, numbers: &[i32; 16])
        requires { length self.old + 192 ≤ 1024 }
        ensures text { self.new ≡ self.old ++ line_of (λ k. signed_of (slice_index_or numbers.now k (pos 0))) }
        ensures short { length self.new ≤ length self.old + 192 }
    {
        for (k, z) in numbers.iter().enumerate() {
            self.push_number(*z);
            self.push_str(behind(k));
        }
    }

    // The text as it is handed out, its bytes in front of zeros.
    fn finish(self) -> Text
        ensures text { Written self result }
        ensures room { result.len ≤ 1024 }
    {
        let written = self.written.as_str().as_bytes();
        let len = written.len();
        let mut bytes = [0u8; 1024];
        bytes[..len].copy_from_slice(written);
        Text { bytes, len }
    }
}

// What stands behind the k-th of sixteen numbers.
fn behind(k: usize) -> &'static str
    ensures { result.now ≡ paperBehind k ∷ [] }
{
    if k == 15 { "\n" } else { " " }
}

#[tactic(auto, using(crate::proofs::Decimal::decimal_is))]
fn refused(refusal: Refusal) -> Text
    ensures text { Written (refused_text (number_of refusal) (place_of refusal)) result }
    ensures room { result.len ≤ 1024 }
{
    let mut text = Draft::new();
    text.push_str("refused ");
    text.push_number(refusal::inner::number(refusal));
    text.push_str(" ");
    text.push_number(refusal::inner::place(refusal));
    text.push_str("\n");
    text.finish()
}

fn accepted(mode: u8, sad: u32, levels: [i32; 16], rebuilt: [u8; 16]) -> Text
    ensures text { Written (ok_text (at mode sad) levels rebuilt) result }
    ensures room { result.len ≤ 1024 }
{
    let mut text = Draft::new();
    text.push_str("ok ");
    text.push_number(mode);
    text.push_str(" ");
    text.push_number(sad);
    text.push_str("\n");
    text.push_line(&levels);
    text.push_line(&rebuilt.map(i32::from));
    text.finish()
}

// QP, flags, thirteen neighbours and sixteen samples, coded, as text; any other count is refused as a wrong length.
pub fn printed(input: &[u8]) -> Text
    ensures { Prints input.now result }
{
    if input.len() != 31 {
        return refused(Refusal::Length);
    }
    let mut levels = [0i32; 16];
    let mut rebuilt = [0u8; 16];
    match block::code_block(
        input[0],
        input[1],
        &input[2..15],
        &input[15..31],
        &mut levels,
        &mut rebuilt,
    ) {
        Err(refusal) => refused(refusal),
        Ok(best) => accepted(best.mode, best.sad, levels, rebuilt),
    }
}
