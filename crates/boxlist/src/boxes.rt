//! Boxes as numbers: which are written, how many bytes they take, and the bytes.
ghost use Rattle.std.specs.Prelude.{◌≡◌, ◌*◌, ◌^◌, ◌≤◌, length};
ghost use Rattle.std.specs.List.{flat_map, list_all};
ghost use Rattle.boxlist.specs.Over.{over};
ghost use Rattle.boxlist.specs.Outputs.{HasRoom, Added};
ghost use Rattle.boxlist.specs.Format.{kind_number, store_number, frame_numbers, part_numbers, bytes_of_box, bytes_of, head_numbers, of_list};
ghost use Rattle.boxlist.specs.Writing.{sized, counted, good_frame, good_part, good_box, good_head, writable};

use crate::numbers::{Output, count_all, fold_sign, unsigned};
use crate::{BoxList, BoxRecord, Kind, Store};

// The largest size of a number in a list.
const LARGEST: i64 = 1 << 40;

// Whether a number that may be below zero is not too large.
fn is_sized(n: i64) -> bool
    ensures { result ≡ sized n }
{
    (-LARGEST..=LARGEST).contains(&n)
}

// Whether a number is neither below zero nor too large.
fn is_counted(n: i64) -> bool
    ensures { result ≡ counted n }
{
    (0..=LARGEST).contains(&n)
}

// No `From`, which is public: it would promise a number for what is never written.
impl Kind {
    // The number that a kind goes out as; an unlisted one never does.
    fn number(self) -> u64
        ensures { result ≡ kind_number self }
    {
        match self {
            Kind::Word => 1,
            Kind::Rule => 2,
            Kind::Unlisted(_) => 0,
        }
    }
}

impl Store {
    // The number that a store goes out as; an unlisted one never does.
    fn number(self) -> u64
        ensures { result ≡ store_number self }
    {
        match self {
            Store::Preamble => 0,
            Store::Lines => 1,
            Store::Unlisted(_) => 0,
        }
    }
}

impl BoxRecord {
    // Whether the numbers that every box has may be written.
    fn is_good_frame(&self) -> bool
        ensures { result ≡ good_frame self.now }
    {
        is_sized(self.x)
            && is_counted(self.y)
            && is_sized(self.width)
            && is_counted(self.height)
            && is_counted(self.depth)
    }

    // Whether the store, the place and the length may, which only a word has.
    fn is_good_part(&self) -> bool
        ensures { result ≡ good_part self.now }
    {
        match self.store {
            Store::Preamble | Store::Lines => is_counted(self.place) && is_counted(self.len),
            Store::Unlisted(_) => false,
        }
    }

    // Whether a box may be written; nothing is asked of a rule's store, place and length.
    #[tactic(auto, unfolding(crate::specs::Writing::good_box))]
    fn is_good(&self) -> bool
        ensures { result ≡ good_box self.now }
    {
        match self.kind {
            Kind::Word => self.is_good_frame() && self.is_good_part(),
            Kind::Rule => self.is_good_frame(),
            Kind::Unlisted(_) => false,
        }
    }

    // The numbers that every box has.
    fn frame(&self) -> [u64; 6]
        ensures { result ≡ frame_numbers self.now }
    {
        [
            self.kind.number(),
            fold_sign(self.x),
            unsigned(self.y),
            fold_sign(self.width),
            unsigned(self.height),
            unsigned(self.depth),
        ]
    }

    // The numbers that a word has besides.
    fn part(&self) -> [u64; 3]
        ensures { result ≡ part_numbers self.now }
    {
        [
            self.store.number(),
            unsigned(self.place),
            unsigned(self.len),
        ]
    }

    // How many bytes a box takes.
    fn byte_count(&self) -> usize
        ensures total { result ≡ length (bytes_of_box self.now) }
        ensures within { result ≤ 180 }
    {
        let frame = count_all(&self.frame());
        if self.kind == Kind::Word {
            frame + count_all(&self.part())
        } else {
            frame
        }
    }

    // The bytes of a box.
    fn put(&self, out: &mut Output<'_>)
        requires { HasRoom out.old (bytes_of_box self.now) }
        ensures { Added out.old out.new (bytes_of_box self.now) }
    {
        out.put_all(&self.frame());
        if self.kind == Kind::Word {
            out.put_all(&self.part());
        }
    }
}

// Whether each box may be written.
fn are_good_boxes(boxes: &[BoxRecord]) -> bool
    ensures { result ≡ list_all good_box boxes.now }
{
    boxes.iter().all(BoxRecord::is_good)
}

// How many bytes the boxes take.
fn count_boxes(boxes: &[BoxRecord]) -> usize
    requires { length boxes.now ≤ 2 ^ 40 }
    ensures total { result ≡ length (flat_map bytes_of_box boxes.now) }
    ensures within { result ≤ 180 * 2 ^ 40 }
{
    boxes.iter().map(BoxRecord::byte_count).sum()
}

// The bytes of the boxes, one box behind the other.
fn put_boxes(boxes: &[BoxRecord], out: &mut Output<'_>)
    requires { HasRoom out.old (flat_map bytes_of_box boxes.now) }
    ensures { Added out.old out.new (flat_map bytes_of_box boxes.now) }
{
    for rec in boxes {
        rec.put(out);
    }
}

impl BoxList<'_> {
    // Whether the numbers before the boxes may be written.
    fn is_good_head(self) -> bool
        ensures { result ≡ good_head self.entry.width self.entry.height (length self.entry.boxes.now) }
    {
        is_counted(self.width) && is_counted(self.height) && self.boxes.len() <= LARGEST as usize
    }

    // Whether a list may be written.
    #[tactic(auto, unfolding(crate::specs::Writing::writable))]
    pub(crate) fn is_writable(self) -> bool
        ensures { result ≡ of_list writable self.entry }
    {
        self.is_good_head() && are_good_boxes(self.boxes)
    }

    // The numbers before the boxes.
    fn head(self) -> [u64; 3]
        ensures { result ≡ head_numbers self.entry.width self.entry.height (length self.entry.boxes.now) }
    {
        [
            unsigned(self.width),
            unsigned(self.height),
            self.boxes.len() as u64,
        ]
    }

    // How many bytes a list takes.
    #[tactic(auto, unfolding(crate::specs::Format::bytes_of))]
    pub(crate) fn byte_count(self) -> usize
        requires { length self.boxes.now ≤ 2 ^ 40 }
        ensures { result ≡ length (of_list bytes_of self.entry) }
    {
        count_all(&self.head()) + count_boxes(self.boxes)
    }

    // The bytes of a list from the front on.
    pub(crate) fn put(self, out: &mut [u8])
        requires { length (of_list bytes_of self) ≤ length out.old }
        ensures { out.new ≡ over out.old 0 (of_list bytes_of self.entry) }
    {
        let mut output = Output::new(out);
        output.put_all(&self.head());
        put_boxes(self.boxes, &mut output);
    }
}
