//! The calls of a script on a table, with the cell in hand.

ghost use Rattle.std.specs.Prelude.{◌≡◌, MatchResult};
ghost use Rattle.perform.specs.declared.answer.Answer.TheVariants as answer;

use crate::answer::Answer;
use crate::script::{Beginning, Ending, Item, TableCall};
use extent::Extent;
use faults::Fault;
use measure::Measurer;
use table::cells::{Begun, Fresh, InHand, Refusal};
use table::table::Table;
use table::work::Workspace;

// What a call answers, and the cell then in hand.
pub struct Reply<E> {
    pub hand: Option<InHand>,
    pub answer: Answer<'static, E>,
}

// Of a call that takes the cell in hand and gives the next.
fn moved<E, C: Into<InHand>, D: Into<InHand>>(outcome: Result<D, Refusal<C>>) -> Reply<E> {
    match outcome {
        Ok(cell) => Reply {
            hand: Some(cell.into()),
            answer: Answer::Done,
        },
        Err(Refusal { cell, fault }) => Reply {
            hand: Some(cell.into()),
            answer: Answer::Refused(fault),
        },
    }
}

// Of a call that ends the row.
fn laid<E>(outcome: Result<(), Refusal<Begun>>) -> Reply<E> {
    match outcome {
        Ok(()) => Reply {
            hand: None,
            answer: Answer::Done,
        },
        Err(Refusal { cell, fault }) => Reply {
            hand: Some(InHand::Begun(cell)),
            answer: Answer::Refused(fault),
        },
    }
}

// Opens a row. Where one is in hand the table refuses, so that no cell is spent here.
fn take<M: Measurer>(table: &mut Table<M>, hand: Option<InHand>) -> Reply<M::Extent> {
    match (table.take(), hand) {
        (Ok(cell), None) => Reply {
            hand: Some(InHand::Fresh(cell)),
            answer: Answer::Done,
        },
        (Ok(cell), Some(spent)) => {
            table.give_up(spent);
            Reply {
                hand: Some(InHand::Fresh(cell)),
                answer: Answer::Done,
            }
        }
        (Err(fault), hand) => Reply {
            hand,
            answer: Answer::Refused(fault),
        },
    }
}

// Of a call that the cell in hand does not allow.
fn misused<E>(hand: Option<InHand>) -> Reply<E>
    ensures { result ≡ record { hand = hand; answer = answer.Misuse } }
{
    Reply {
        hand,
        answer: Answer::Misuse,
    }
}

// Of a call that adds to the cell in hand.
fn kept<E>(cell: Begun, outcome: Result<(), Fault>) -> Reply<E> {
    Reply {
        hand: Some(InHand::Begun(cell)),
        answer: outcome.into(),
    }
}

// Of an ask.
fn asked<E>(outcome: Result<Option<E>, Fault>) -> Answer<'static, E>
    ensures { MatchResult outcome (λ w. result ≡ answer.Width w) (λ f. result ≡ answer.Refused f) }
{
    match outcome {
        Ok(width) => Answer::Width(width),
        Err(fault) => Answer::Refused(fault),
    }
}

// Of a line.
fn line_read<E>(outcome: Result<Option<usize>, Fault>) -> Answer<'static, E>
    ensures { MatchResult outcome (λ n. result ≡ answer.Read n) (λ f. result ≡ answer.Refused f) }
{
    match outcome {
        Ok(bytes) => Answer::Read(bytes),
        Err(fault) => Answer::Refused(fault),
    }
}

fn begin_cell<M: Measurer>(table: &mut Table<M>, cell: Fresh, how: Beginning) -> Reply<M::Extent> {
    match how {
        Beginning::Omit => moved(table.omit(cell)),
        Beginning::Start => moved(table.start(cell)),
    }
}

fn begin<M: Measurer>(
    table: &mut Table<M>,
    hand: Option<InHand>,
    how: Beginning,
) -> Reply<M::Extent> {
    match hand {
        Some(InHand::Fresh(cell)) => begin_cell(table, cell, how),
        hand => misused(hand),
    }
}

fn put_item<M: Measurer>(table: &mut Table<M>, cell: &Begun, item: Item) -> Result<(), Fault> {
    match item {
        Item::Word(word) => table.put_word(cell, word.as_slice()),
        Item::Space => table.put_space(cell),
        Item::Kern(sp) => table.put_kern(cell, sp),
        Item::Hfil => table.put_hfil(cell),
    }
}

fn put_cell<M: Measurer>(table: &mut Table<M>, cell: Begun, item: Item) -> Reply<M::Extent> {
    let outcome = put_item(table, &cell, item);
    kept(cell, outcome)
}

fn put<M: Measurer>(table: &mut Table<M>, hand: Option<InHand>, item: Item) -> Reply<M::Extent> {
    match hand {
        Some(InHand::Begun(cell)) => put_cell(table, cell, item),
        hand => misused(hand),
    }
}

fn end_cell<M: Measurer>(table: &mut Table<M>, cell: Begun, how: Ending) -> Reply<M::Extent> {
    match how {
        Ending::Tab => moved(table.tab(cell)),
        Ending::Span => moved(table.span(cell)),
        Ending::Lay => laid(table.lay(cell)),
    }
}

fn end<M: Measurer>(table: &mut Table<M>, hand: Option<InHand>, how: Ending) -> Reply<M::Extent> {
    match hand {
        Some(InHand::Begun(cell)) => end_cell(table, cell, how),
        hand => misused(hand),
    }
}

fn give_up<M: Measurer>(table: &mut Table<M>, hand: Option<InHand>) -> Reply<M::Extent> {
    match hand {
        None => misused(None),
        Some(cell) => {
            table.give_up(cell);
            Reply {
                hand: None,
                answer: Answer::Done,
            }
        }
    }
}

// Makes a call, if the cell in hand allows it.
pub(crate) fn make<M: Measurer>(
    table: &mut Table<M>,
    work: &mut Workspace<M::Extent>,
    hand: Option<InHand>,
    call: TableCall,
) -> Reply<M::Extent> {
    match call {
        TableCall::Take => take(table, hand),
        TableCall::Begin(how) => begin(table, hand, how),
        TableCall::Put(item) => put(table, hand, item),
        TableCall::End(how) => end(table, hand, how),
        TableCall::GiveUp => give_up(table, hand),
        TableCall::Rule => Reply {
            hand,
            answer: table.rule().into(),
        },
        TableCall::Gap(sp) => Reply {
            hand,
            answer: table.gap(sp).into(),
        },
        TableCall::Line(text) => Reply {
            hand,
            answer: line_read(table.line(text.as_slice())),
        },
        TableCall::Ask(column) => Reply {
            hand,
            answer: asked(table.ask(column, work)),
        },
    }
}
