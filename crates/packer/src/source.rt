//! Items as they are on the side that is drawn.
ghost use Rattle.std.specs.Prelude.{◌≡◌, ◌<◌, true, take, drop, pos, ◌≤ℤ◌};
ghost use Rattle.extent.specs.Sizes.{Within};
ghost use Rattle.ledger.specs.Ledger.{cell_word};
ghost use Rattle.ledger.specs.Items.{taken};
ghost use Rattle.ledger.specs.Lawful.{fine};
ghost use Rattle.packer.specs.Views.{look_in, item_in, measures_of};

use extent::Extent;
use ledger::records::ItemRecord;
use measure::Measurer;

/// What a table is drawn from: the measurer, the preamble text, the line text, and the side.
#[derive(Drop)]
pub(crate) struct Source<'s, M: Measurer> {
    pub(crate) measurer: &'s M,
    pub(crate) preamble: &'s [u8],
    pub(crate) lines: &'s [u8],
    pub(crate) side: usize,
}

/// An item's width, height and depth.
#[derive(Clone, Copy, PartialEq, Eq, Debug)]
pub(crate) struct Measures {
    pub(crate) wide: i64,
    pub(crate) high: i64,
    pub(crate) deep: i64,
}

/// The bytes of a text from a place on, so many, or as many as there are.
pub(crate) fn cut(text: &[u8], from: usize, count: usize) -> &[u8]
    ensures { result.now ≡ take count (drop from text.now) }
{
    let rest = &text[from.min(text.len())..];
    &rest[..count.min(rest.len())]
}

/// The number on a side that there is.
pub(crate) fn on_side<E: Extent>(size: E, side: usize) -> i64
    requires { side < E.count }
    ensures { result ≡ E.num size side }
{
    size.number(side).unwrap_or(0)
}

impl Measures {
    /// What is only wide.
    fn flat(wide: i64) -> Measures
        ensures { result ≡ record { wide = wide; high = pos 0; deep = pos 0 } }
    {
        Measures {
            wide,
            high: 0,
            deep: 0,
        }
    }
}

/// How many bytes of the line text an item takes.
pub(crate) fn bytes_taken(item: ItemRecord) -> usize
    ensures { result ≡ taken item }
{
    match item {
        ItemRecord::CellWord(len) => len,
        _ => 0,
    }
}

impl<'s, M: Measurer> Source<'s, M> {
    /// What a word is.
    fn word(&self, bytes: &[u8]) -> Measures
        requires side { self.now.side < M.Extent.Extent.count }
        requires known { fine (M.Measurer.meaning self.now.measurer.now) (cell_word bytes.now) ≡ true }
        ensures is { result ≡ measures_of (look_in M.Measurer M.Extent.Extent self.now) (cell_word bytes.now) }
        ensures narrow { Within 1073741823 result.wide }
        ensures high { (pos 0 ≤ℤ result.high) × (result.high ≤ℤ pos 16777215) }
        ensures deep { (pos 0 ≤ℤ result.deep) × (result.deep ≤ℤ pos 16777215) }
    {
        match self.measurer.word(bytes) {
            Ok(metrics) => Measures {
                wide: on_side(metrics.width, self.side),
                high: on_side(metrics.height, self.side),
                deep: on_side(metrics.depth, self.side),
            },
            Err(_) => Measures::flat(0),
        }
    }

    /// What an item is, its bytes from a place in the line text on.
    pub(crate) fn measures(&self, item: ItemRecord, place: usize) -> Measures
        requires side { self.now.side < M.Extent.Extent.count }
        requires known { fine (M.Measurer.meaning self.now.measurer.now) (item_in self.now item place) ≡ true }
        ensures is { result ≡ measures_of (look_in M.Measurer M.Extent.Extent self.now) (item_in self.now item place) }
        ensures narrow { Within 1073741823 result.wide }
        ensures high { (pos 0 ≤ℤ result.high) × (result.high ≤ℤ pos 16777215) }
        ensures deep { (pos 0 ≤ℤ result.deep) × (result.deep ≤ℤ pos 16777215) }
    {
        match item {
            ItemRecord::Space => Measures::flat(on_side(self.measurer.space(), self.side)),
            ItemRecord::CellWord(count) => self.word(cut(self.lines, place, count)),
            ItemRecord::TemplateWord(from, count) => self.word(cut(self.preamble, from, count)),
            ItemRecord::Kern(length) => Measures::flat(on_side(
                M::Extent::enter(length),
                self.side,
            )),
            ItemRecord::Hfil => Measures::flat(0),
        }
    }
}
