use faults::{Cause, Fault};
use lengths::gap::Gap;
use lengths::glue::{Glue, glue_at};
use lengths::length::{Length, length_at};
use lengths::order::Order;
use reader::tokens::{Control, Lexeme, Token, token_at};
use std::test::Fail;

#[test]
fn tokens(rt: HostRuntime) {
    let cases: [(&[u8], usize, Token, usize); 14] = [
        (b"", 0, Token::End, 0),
        (b"ab", 5, Token::End, 5),
        (b" \n x", 0, Token::Space, 3),
        (b"a1.-|]x y", 0, Token::Word { place: 0, len: 7 }, 7),
        (b"a\\&b", 1, Token::Word { place: 2, len: 1 }, 3),
        (b"\\$ x", 0, Token::Word { place: 1, len: 1 }, 2),
        (b"\\cr  \n x", 0, Token::Control(Control::Cr), 7),
        (b"\\cr1", 0, Token::Control(Control::Cr), 3),
        (b"\\noalign{", 0, Token::Control(Control::Noalign), 8),
        (b"a&#{}", 1, Token::Ampersand, 2),
        (b"a&#{}", 2, Token::Hash, 3),
        (b"a&#{}", 3, Token::OpenBrace, 4),
        (b"a&#{}", 4, Token::CloseBrace, 5),
        (&[b'w'; 255], 0, Token::Word { place: 0, len: 255 }, 255),
    ];
    for (text, place, token, end) in cases {
        assert_eq!(rt;
            token_at(text, place),
            Ok(Lexeme { token, end }),
            "{place} in {text:?}"
        );
    }
}

#[test]
fn token_faults(rt: HostRuntime) {
    let cases: [(&[u8], usize, Fault); 9] = [
        (b"a$", 1, Cause::BadByte.at(1)),
        (b"~", 0, Cause::BadByte.at(0)),
        (b"\x80", 0, Cause::BadByte.at(0)),
        (b"\\", 0, Cause::UnknownControl.at(0)),
        (b"\\ cr", 0, Cause::UnknownControl.at(0)),
        (b"\\\\", 0, Cause::UnknownControl.at(0)),
        (b"x\\crab", 1, Cause::UnknownControl.at(1)),
        (b"\\CR", 0, Cause::UnknownControl.at(0)),
        (&[b'w'; 256], 0, Cause::WordLength.at(0)),
    ];
    for (text, place, fault) in cases {
        assert_eq!(rt; token_at(text, place), Err(fault), "{place} in {text:?}");
    }
}

fn length(sp: i64, end: usize) -> Result<Length, Fault> {
    Ok(Length { sp, end })
}

#[test]
fn lengths(rt: HostRuntime) {
    let cases: [(&[u8], Result<Length, Fault>); 18] = [
        (b"0.1pt", length(6_554, 5)),
        (b"0.4pt", length(26_214, 5)),
        (b"-0.5pt", length(-32_768, 6)),
        (b"255.99999pt", length(16_777_215, 11)),
        (b"-255.99999pt", length(-16_777_215, 12)),
        (b"0.99999999999999999pt", length(65_536, 21)),
        (b"0.00000762939453125pt", length(1, 21)),
        (b"0.00000762939453124pt", length(0, 21)),
        (b"3ptabc", length(196_608, 3)),
        (b"1pt  x", length(65_536, 4)),
        (b"256pt", Err(Cause::BadLength.at(0))),
        (b"99999999pt", Err(Cause::BadLength.at(0))),
        (b"000000000pt", Err(Cause::BadLength.at(0))),
        (b"- 1pt", Err(Cause::BadLength.at(0))),
        (b"$", Err(Cause::BadByte.at(0))),
        (b"\\x", Err(Cause::UnknownControl.at(0))),
        (b"\\cr", Err(Cause::BadLength.at(0))),
        (b"", Err(Cause::BadLength.at(0))),
    ];
    for (text, read) in cases {
        assert_eq!(rt; length_at(text, 0), read, "{text:?}");
    }
}

#[test]
fn glue(rt: HostRuntime) -> Result<(), Fail> {
    let cases: [(&[u8], i64, i64, i64, usize); 5] = [
        (b"1pt", 65_536, 0, 0, 3),
        (b"1pt plus 2fil x", 65_536, 131_072, 1, 14),
        (b"0pt plus1fillll", 0, 65_536, 3, 14),
        (b"-1pt plus  0.5pt", -65_536, 32_768, 0, 16),
        (b"1pt  plus 1fil", 65_536, 0, 0, 4),
    ];
    for (text, natural, stretch, order, end) in cases {
        let read = glue_at(text, 0)?;
        assert_eq!(rt; read.gap.natural(), natural, "{text:?}");
        assert_eq!(rt; read.gap.stretch(), stretch, "{text:?}");
        assert_eq!(rt; i64::from(read.gap.order()), order, "{text:?}");
        assert_eq!(rt; read.end, end, "{text:?}");
        let expected = Gap::new(natural, stretch, order).map(|gap| Glue { gap, end });
        assert_eq!(rt; Some(read), expected, "{text:?}");
    }
    let gap = glue_at(b"-1pt plus 2fil", 0)?.gap;
    assert_eq!(rt; gap.natural(), -65_536);
    assert_eq!(rt; gap.stretch(), 131_072);
    assert_eq!(rt; gap.order(), Order::Fil);
    assert_eq!(rt;
        glue_at(b"0pt plush", 0).err(),
        Some(Cause::BadLength.at(8))
    );
    Ok(())
}

#[test]
fn fault_text(rt: HostRuntime) -> Result<(), Fail> {
    let fault = Cause::NoCharacter.at(17);
    let text = format!(in rt.alloc(); "{fault}")?;
    assert_eq!(rt; text.as_str(), "fault 41 place 17 layer 4");
    Ok(())
}
