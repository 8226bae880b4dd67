// The blocks of a record: whether their modes hold, and their rescaled numbers.
ghost use Rattle.std.specs.Prelude.{◌≡◌, ◌<◌, ◌≤◌, length};
ghost use Rattle.lists.specs.First.{found};
ghost use Rattle.quantizer.specs.Range.{highest};
ghost use Rattle.residual.specs.Order.{in_zigzag};
ghost use Rattle.record.specs.Kinds.{in_fours, length_of};
ghost use Rattle.record.specs.Records.{qp_in};
ghost use Rattle.picture.specs.Order.{Among};
ghost use Rattle.macroblock4.specs.Content.{mode_holds, rescaled_in, first_mode, first_range};

use picture::Layout;
use quantizer::Quantizer;

// Whether the mode of block b of macroblock m is one, and what it needs is present.
#[tactic(auto, unfolding(crate::specs::Content::mode_holds))]
fn mode_holds(layout: Layout, m: usize, part: &[u8], b: usize) -> bool
    requires { (Among layout m b) × (length part.now ≡ length_of in_fours) }
    ensures { result ≡ mode_holds layout m part.now b }
{
    let flags = picture::inner::flags(layout, m, b);
    intra4::inner::permitted(flags, record::inner::mode(part, b))
}

// The first block whose mode does not hold, if there is one.
pub(crate) fn first_mode(layout: Layout, m: usize, part: &[u8]) -> Option<usize>
    requires { (Among layout m 0) × (length part.now ≡ length_of in_fours) }
    ensures { result ≡ found 16 (first_mode layout m part.now) }
{
    (0usize..16).find(|b| !mode_holds(layout, m, part, *b))
}

// A record and the quantizer of its own number, which is legal.
#[derive(Clone, Copy)]
pub(crate) struct Quantized<'a> {
    pub(crate) quantizer: Quantizer,
    pub(crate) part: &'a [u8],
    ghost own: { (quantizer.qp ≡ qp_in part.now) × (qp_in part.now ≤ highest) × (length part.now ≡ length_of in_fours) },
}

impl Quantized<'_> {
    // The rescaled numbers of block b, in raster order.
    #[tactic(auto, using(crate::proofs::Contents::levels_small, residual::proofs::Order::places_each), unfolding(crate::specs::Content::rescaled_in))]
    pub(crate) fn rescaled(self, b: usize) -> [i32; 16]
        requires { b < 16 }
        ensures { result ≡ rescaled_in self.entry.part.now b }
    {
        let levels = record::inner::block_levels(self.part, b);
        residual::inner::rescaled(self.quantizer, residual::inner::in_places(levels))
    }

    // The same in the order of the levels.
    fn rescaled_in_zigzag(self, b: usize) -> [i32; 16]
        requires { b < 16 }
        ensures { result ≡ in_zigzag (rescaled_in self.entry.part.now b) }
    {
        residual::inner::in_zigzag(self.rescaled(b))
    }

    // The block of the first rescaled number outside 16 bits, in block order and zigzag order, if there is one.
    // By nested loops over blocks and levels, left by a label: this form is asked for (docs/DECISIONS.md, 43). A block whose levels are all 0 needs no
    // rescaling.
    pub(crate) fn first_range(self) -> Option<usize>
        ensures { result ≡ found 16 (first_range self.entry.part.now) }
    {
        let mut offence = None;
        'blocks: for b in 0usize..16 {
            if record::inner::all_zero(self.part, b) {
                continue;
            }
            let numbers = self.rescaled_in_zigzag(b);
            for number in numbers.iter() {
                if !whole::inner::inside(*number, -32768, 32767) {
                    offence = Some(b);
                    break 'blocks;
                }
            }
        }
        offence
    }
}
