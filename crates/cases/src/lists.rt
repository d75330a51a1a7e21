use boxlist::{BoxList, BoxRecord, Kind, Store, fetch, write};
use extent::{Plain, Twin};
use faults::{Cause, Fault};
use measure::{Metrics, Mono, TwinMeasurer, measured};
use std::test::Fail;

const EMPTY: BoxRecord = BoxRecord {
    kind: Kind::Rule,
    x: 0,
    y: 0,
    width: 0,
    height: 0,
    depth: 0,
    store: Store::Preamble,
    place: 0,
    len: 0,
};

fn word(x: i64, y: i64, width: i64, place: i64, len: i64) -> BoxRecord {
    BoxRecord {
        kind: Kind::Word,
        x,
        y,
        width,
        height: 7,
        depth: 2,
        store: Store::Lines,
        place,
        len,
    }
}

#[test]
fn list_bytes(rt: HostRuntime) {
    let boxes = [
        word(0, 7, 20, 0, 2),
        word(20, 7, 10, 2, 1),
        word(0, 16, 10, 3, 1),
    ];
    let mut out = [0xee; 40];
    assert_eq!(rt;
        write(
            BoxList {
                width: 30,
                height: 18,
                boxes: &boxes,
            },
            &mut out,
        ),
        Ok(30)
    );
    let expected = [
        0x1e, 0x12, 0x03, 0x01, 0x00, 0x07, 0x28, 0x07, 0x02, 0x01, 0x00, 0x02, 0x01, 0x28, 0x07,
        0x14, 0x07, 0x02, 0x01, 0x02, 0x01, 0x01, 0x00, 0x10, 0x14, 0x07, 0x02, 0x01, 0x03, 0x01,
        0xee, 0xee, 0xee, 0xee, 0xee, 0xee, 0xee, 0xee, 0xee, 0xee,
    ];
    assert_eq!(rt; out, expected);
}

#[test]
fn list_refusals(rt: HostRuntime) {
    let cases = [
        (
            BoxRecord {
                kind: Kind::Unlisted(3),
                ..EMPTY
            },
            64,
            Cause::BadBox,
        ),
        (BoxRecord { y: -1, ..EMPTY }, 64, Cause::BadBox),
        (
            BoxRecord {
                x: 1_099_511_627_777,
                ..EMPTY
            },
            0,
            Cause::BadBox,
        ),
        (
            BoxRecord {
                kind: Kind::Word,
                store: Store::Unlisted(2),
                ..EMPTY
            },
            64,
            Cause::BadBox,
        ),
        (
            BoxRecord {
                kind: Kind::Word,
                len: -1,
                ..EMPTY
            },
            64,
            Cause::BadBox,
        ),
        (BoxRecord { len: -1, ..EMPTY }, 8, Cause::TooLittleRoom),
        (EMPTY, 8, Cause::TooLittleRoom),
    ];
    for (record, room, cause) in cases {
        let list = BoxList {
            width: 0,
            height: 0,
            boxes: &[record],
        };
        let mut out = [0xee; 64];
        assert!(rt; room <= 64);
        assert_eq!(rt;
            write(list, &mut out[..room]),
            Err(cause.at(0)),
            "{record:?}"
        );
        assert_eq!(rt; out, [0xee; 64], "{record:?}");
    }
}

#[test]
fn number_bytes(rt: HostRuntime) {
    let boxes = [BoxRecord {
        x: -1_099_511_627_776,
        y: 128,
        width: -1,
        height: 16_384,
        depth: 127,
        ..EMPTY
    }];
    let mut out = [0; 18];
    assert_eq!(rt;
        write(
            BoxList {
                width: 0,
                height: 0,
                boxes: &boxes,
            },
            &mut out,
        ),
        Ok(17)
    );
    let expected = [
        0, 0, 1, 2, 0xff, 0xff, 0xff, 0xff, 0xff, 0x3f, 0x80, 0x01, 0x01, 0x80, 0x80, 0x01, 0x7f, 0,
    ];
    assert_eq!(rt; out, expected);
}

#[test]
fn fetched_parts(rt: HostRuntime) {
    let bad = Err(Cause::BadBox.at(0));
    let cases: [(BoxRecord, Result<&[u8], Fault>); 8] = [
        (word(0, 0, 0, 1, 3), Ok(b"ine")),
        (word(0, 0, 0, 5, 0), Ok(b"")),
        (
            BoxRecord {
                store: Store::Preamble,
                ..word(0, 0, 0, 3, 5)
            },
            Ok(b"amble"),
        ),
        (word(0, 0, 0, 5, 1), bad),
        (word(0, 0, 0, -1, 1), bad),
        (word(0, 0, 0, 1, -1), bad),
        (
            BoxRecord {
                kind: Kind::Rule,
                ..word(0, 0, 0, 0, 1)
            },
            bad,
        ),
        (
            BoxRecord {
                store: Store::Unlisted(2),
                ..word(0, 0, 0, 0, 1)
            },
            bad,
        ),
    ];
    for (record, part) in cases {
        assert_eq!(rt; fetch(&record, b"preamble", b"lines"), part, "{record:?}");
    }
}

fn mono(pitch: i64, last: i64) -> Result<Mono, Fault> {
    Mono::new(pitch, 7, 2, last)
}

#[test]
fn measurers(rt: HostRuntime) -> Result<(), Fail> {
    let strip = mono(10, 126)?;
    assert_eq!(rt;
        measured(&strip, b"ab~"),
        Ok(Metrics {
            width: Plain { strip: 30 },
            height: Plain { strip: 7 },
            depth: Plain { strip: 2 },
        })
    );
    let twin = TwinMeasurer {
        strip,
        window: mono(4, 97)?,
    };
    assert_eq!(rt;
        measured(&twin, b"aa"),
        Ok(Metrics {
            width: Twin {
                strip: 20,
                window: 8,
            },
            height: Twin {
                strip: 7,
                window: 7,
            },
            depth: Twin {
                strip: 2,
                window: 2,
            },
        })
    );
    assert_eq!(rt; measured(&twin, b"aab"), Err(Cause::NoCharacter.at(2)));
    assert_eq!(rt; mono(4_194_305, 126), Err(Cause::MeasurerRange.at(0)));
    Ok(())
}

#[test]
fn measurer_faults(rt: HostRuntime) -> Result<(), Fail> {
    let strip = mono(10, 96)?;
    let cases: [(&[u8], Fault); 4] = [
        (b"", Cause::WordLength.at(0)),
        (&[b'A'; 256], Cause::WordLength.at(0)),
        (b"A B", Cause::BadByte.at(1)),
        (b"AaB", Cause::NoCharacter.at(1)),
    ];
    for (word, fault) in cases {
        assert_eq!(rt; measured(&strip, word), Err(fault), "{word:?}");
    }
    Ok(())
}
