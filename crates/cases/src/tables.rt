use faults::{Cause, Fault};
use ledger::records::ItemRecord;
use measure::Mono;
use rows::state::{LineRecord, Memory};
use std::test::Fail;
use table::make::Start;
use table::table::Table;
use templates::Templates;

const NO_GAP: Start = Start {
    natural: 0,
    stretch: 0,
    order: 0,
};

// What make answers, with a measurer that knows no byte above `a`.
fn made(start: Start, text: &[u8]) -> Result<usize, Fault> {
    let measurer = Mono::new(10, 7, 2, 97)?;
    let mut items = [ItemRecord::Space; 1];
    let mut lines = [LineRecord::Rule; 1];
    let memory = Memory {
        items: &mut items,
        entries: &mut [],
        lines: &mut lines,
        text: &mut [],
    };
    let mut templates = Templates::new();
    let table = Table::make(&measurer, memory, &mut templates, start, text);
    table.made()
}

// What make reads of a preamble, and each fault of one.
#[test]
fn preambles(rt: HostRuntime) -> Result<(), Fail> {
    let cases: [(&[u8], Result<usize, Fault>); 14] = [
        (b"#\\cr x", Ok(5)),
        (b"#&\\tabskip 1pt#\\cr", Ok(18)),
        (b"", Err(Cause::TextOver.at(0))),
        (b"#", Err(Cause::TextOver.at(1))),
        (b"\\cr", Err(Cause::TemplateMark.at(0))),
        (b"##\\cr", Err(Cause::TemplateMark.at(1))),
        (b"a&#\\cr", Err(Cause::TemplateMark.at(1))),
        (b"{#\\cr", Err(Cause::Misplaced.at(0))),
        (b"#\\omit\\cr", Err(Cause::Misplaced.at(1))),
        (b"$#\\cr", Err(Cause::BadByte.at(0))),
        (b"\\foo#\\cr", Err(Cause::UnknownControl.at(0))),
        (b"\\kern x#\\cr", Err(Cause::BadLength.at(6))),
        (b"ab#\\cr", Err(Cause::NoCharacter.at(1))),
        (b"#\\tabskip 256pt\\cr", Err(Cause::BadLength.at(10))),
    ];
    for (text, expected) in cases {
        assert_eq!(rt; made(NO_GAP, text), expected, "{text:?}");
    }
    let stretched = Start {
        stretch: -1,
        ..NO_GAP
    };
    assert_eq!(rt; made(stretched, b"$"), Err(Cause::OutOfRange.at(0)));
    Ok(())
}
