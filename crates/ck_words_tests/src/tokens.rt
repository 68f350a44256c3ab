//! Texts with their tokens or their first fault, worked out by hand from C99 6.4 and docs/TOKENS.md.
use ck_base::{Fault, Refusal, Span, Spot, Token, TokenKind, number};
use ck_lexer::{first_fault, lex, scan};
use std::alloc::Global;

/// The greatest size of a file, in bytes.
const GREATEST: usize = 1_048_576;

/// Texts with their tokens: the kind's letter, a colon and the text of each, and a space.
const TOKENS: [(&[u8], &[u8]); 36] = [
    (b"", b""),
    (b" \t\n\x0b\x0c\r", b""),
    (b"a+++b", b"w:a m:++ m:+ w:b "),
    // 6.4: the longest sequence, even where another one would make an expression
    (b"x+++++y", b"w:x m:++ m:++ m:+ w:y "),
    // 6.4.9: the examples of comments
    (b"\"a//b\" // four", b"t:\"a//b\" "),
    (b"f = g/**//h;", b"w:f m:= w:g m:/ w:h m:; "),
    (b"/*//*/ l();", b"w:l m:( m:) m:; "),
    (b"m = n//**/o\n+ p;", b"w:m m:= w:n m:+ w:p m:; "),
    (b"/***/a/**/b/* **/", b"w:a w:b "),
    (b"a//", b"w:a "),
    // 6.4.6
    (b"[](){}.->", b"m:[ m:] m:( m:) m:{ m:} m:. m:-> "),
    (b"++--&*+-~!", b"m:++ m:-- m:& m:* m:+ m:- m:~ m:! "),
    (
        b"/%<<>><><=>===!=^|&&||",
        b"m:/ m:% m:<< m:>> m:< m:> m:<= m:>= m:== m:!= m:^ m:| m:&& m:|| ",
    ),
    (
        b"?:;...=*=/=%=+=-=<<=>>=",
        b"m:? m:: m:; m:... m:= m:*= m:/= m:%= m:+= m:-= m:<<= m:>>= ",
    ),
    (b"&=^=|=,", b"m:&= m:^= m:|= m:, "),
    (b".... ..", b"m:... m:. m:. m:. "),
    (b"<:%:<%", b"m:< m:: m:% m:: m:< m:% "),
    // 6.4.1 and 6.4.2
    (
        b"while _Bool while_ _ Int a9",
        b"k:while k:_Bool w:while_ w:_ w:Int w:a9 ",
    ),
    (
        b"sizeof(int)restrict",
        b"k:sizeof m:( k:int m:) k:restrict ",
    ),
    (b"L'x' u8\"s\"", b"w:L c:'x' w:u8 t:\"s\" "),
    // 6.4.4.1
    (
        b"0 00 07 1u 2UL 3llU 0x1fLL 0XABu",
        b"n:0 n:00 n:07 n:1u n:2UL n:3llU n:0x1fLL n:0XABu ",
    ),
    (
        b"9223372036854775807 18446744073709551615u",
        b"n:9223372036854775807 n:18446744073709551615u ",
    ),
    (
        b"0xFFFFFFFFFFFFFFFF 01777777777777777777777",
        b"n:0xFFFFFFFFFFFFFFFF n:01777777777777777777777 ",
    ),
    (
        b"00000000000000000000000000000000001",
        b"n:00000000000000000000000000000000001 ",
    ),
    // 6.4.4.4 and 6.4.5
    (b"'a'' ''\"''\\''", b"c:'a' c:' ' c:'\"' c:'\\'' "),
    (
        b"'\\0''\\377''\\x13''\\x0ff''\\\\'",
        b"c:'\\0' c:'\\377' c:'\\x13' c:'\\x0ff' c:'\\\\' ",
    ),
    (b"\"\\x12\" \"3\"", b"t:\"\\x12\" t:\"3\" "),
    (b"\"\" \"\\1234\\n'\\\"\"", b"t:\"\" t:\"\\1234\\n'\\\"\" "),
    (b"'\xff' \"\xc3\xa9\" // \xc3", b"c:'\xff' t:\"\xc3\xa9\" "),
    // markers and pragmas
    (b"# 1 \"a.c\"\nint x;", b"k:int w:x m:; "),
    (b" \t#\t7 \"a\\\"b\xff\" 1  3\nx", b"w:x "),
    (b"#1\"a\"\nz", b"w:z "),
    (b"# 1 \"a\"", b""),
    (b"#pragma once /* open\nint", b"k:int "),
    (b"# pragmafoo 'x\ny", b"w:y "),
    (b"/* a\n# 1 bad\n*/ b", b"w:b "),
];

/// Texts with the number of their first fault, and its span.
const FAULTS: [(&[u8], u8, u32, u32); 56] = [
    (b"a @", 1, 2, 3),
    (b"x \\\n", 1, 2, 3),
    (b"\0", 1, 0, 1),
    (b"a\xc3\xa9", 1, 1, 2),
    (b"a # b", 1, 2, 3),
    (b"\x0c# 1 \"a\"\n", 1, 1, 2),
    (b"\r#pragma x", 1, 1, 2),
    (b"/**/# 1 \"a\"\n", 1, 4, 5),
    (b"x\n/* \n */ #pragma", 1, 10, 11),
    (b"/*", 2, 0, 1),
    (b"a /*/", 2, 2, 3),
    (b"/* */ /* *", 2, 6, 7),
    (b"'", 2, 0, 1),
    (b"x 'a\n'", 2, 2, 3),
    (b"\"abc", 2, 0, 1),
    (b"\"a\\\n\"", 2, 0, 1),
    (b"\"a\\\"", 2, 0, 1),
    (b"'ab'", 3, 0, 4),
    (b"''", 3, 0, 2),
    (b"'\\400'", 3, 0, 6),
    (b"'\\0223'", 3, 0, 7),
    (b"'\\x123'", 3, 0, 7),
    (b"'\\x'", 3, 0, 4),
    (b"'\\q'", 3, 0, 4),
    (b"'\\u0041'", 3, 0, 8),
    (b"\"ok\" \"\\8\"", 3, 5, 9),
    (b"\"a\\xfff\"", 3, 0, 8),
    (b"08", 3, 0, 2),
    (b"0x", 3, 0, 2),
    (b"0b1", 3, 0, 3),
    (b"1lL", 3, 0, 3),
    (b"1uu", 3, 0, 3),
    (b"1_", 3, 0, 2),
    (b"9223372036854775808", 3, 0, 19),
    (b"18446744073709551616u", 3, 0, 21),
    (b"0x10000000000000000", 3, 0, 19),
    (b"0x1e+5", 3, 0, 6),
    (b"1.5", 4, 0, 3),
    (b".5", 4, 0, 2),
    (b"a 1. b", 4, 2, 4),
    (b"1Ex", 4, 0, 3),
    (b"1e+5+2", 4, 0, 4),
    (b"0x1p3", 4, 0, 5),
    (b"0x1.8", 4, 0, 5),
    (b"float x", 5, 0, 5),
    (b"int asm", 5, 4, 7),
    (b"__attribute__((x))", 5, 0, 13),
    (b"# 0x3", 6, 0, 1),
    (b"a\n #\n", 6, 3, 4),
    (b"# 1 \"a\" \n", 6, 0, 1),
    (b"# 1 \"a\"\r\n", 6, 0, 1),
    (b"# 1234567890 \"a\"\n", 6, 0, 1),
    (b"# 1 \"a\" 5\n", 6, 0, 1),
    (b"# 1 \"a\"1\n", 6, 0, 1),
    (b"# 1 \"a\n\"", 6, 0, 1),
    (b"#define x\n@", 6, 0, 1),
];

/// The tokens of a text, where it isn't larger than a file may be.
fn tokens_of(alloc: Global, file: u32, text: &[u8]) -> Result<Vec<Token>, Fault> {
    if text.len() > GREATEST {
        return Err(Fault::Memory);
    }
    lex(alloc, file, text)
}

/// The same by the call that also gives the map of places.
fn scanned(alloc: Global, file: u32, text: &[u8]) -> Result<Vec<Token>, Fault> {
    if text.len() > GREATEST {
        return Err(Fault::Memory);
    }
    Ok(scan(alloc, file, "own", text)?.tokens?)
}

/// A text's first fault, where it isn't larger than a file may be.
fn first_fault_of(file: u32, text: &[u8]) -> Option<Refusal> {
    if text.len() > GREATEST {
        return None;
    }
    first_fault(file, text)
}

/// The letter of a token's kind.
fn letter(kind: TokenKind) -> &'static [u8] {
    match kind {
        TokenKind::Word => b"w:",
        TokenKind::Key => b"k:",
        TokenKind::Number => b"n:",
        TokenKind::Char => b"c:",
        TokenKind::Text => b"t:",
        TokenKind::Mark => b"m:",
    }
}

/// What comes in a list after the entry of a token of file 3, where that entry comes first.
fn after_entry<'a>(list: &'a [u8], text: &[u8], token: &Token) -> Option<&'a [u8]> {
    let Span {
        file: 3,
        start,
        end,
    } = token.span
    else {
        return None;
    };
    let written = text.get(start as usize..end as usize)?;
    list.strip_prefix(letter(token.kind))?
        .strip_prefix(written)?
        .strip_prefix(b" ".as_slice())
}

/// Whether these are just the tokens of a list, of a text in file 3.
fn are_listed(tokens: Result<Vec<Token>, Fault>, text: &[u8], list: &[u8]) -> bool {
    let Ok(tokens) = tokens else {
        return false;
    };
    let mut rest = list;
    for token in &tokens {
        match after_entry(rest, text, token) {
            Some(after) => rest = after,
            None => return false,
        }
    }
    rest.is_empty()
}

/// Whether each call that cuts a text gives just the tokens of a list, and none a fault.
fn has_tokens(alloc: Global, text: &[u8], list: &[u8]) -> bool {
    are_listed(tokens_of(alloc, 3, text), text, list)
        && are_listed(scanned(alloc, 3, text), text, list)
        && first_fault_of(3, text).is_none()
}

#[test]
fn tokens_of_texts(rt: HostRuntime) {
    for (text, list) in TOKENS {
        assert!(rt; has_tokens(rt.alloc(), text, list), "at {text:?}");
    }
}

/// A refusal's number and span, in file 4.
fn marked(refusal: &Refusal) -> Option<(u8, u32, u32)> {
    match refusal.at {
        Spot::At(
            Span {
                file: 4,
                start,
                end,
            },
        ) => Some((number(&refusal.kind), start, end)),
        _ => None,
    }
}

/// The number and the span of the fault in place of tokens.
fn fault_of(tokens: Result<Vec<Token>, Fault>) -> Option<(u8, u32, u32)> {
    match tokens {
        Err(Fault::Unsupported(refusal)) => marked(&refusal),
        _ => None,
    }
}

/// Whether each call that cuts a text refuses it with this fault.
fn has_fault(alloc: Global, text: &[u8], fault: (u8, u32, u32)) -> bool {
    let found = match first_fault_of(4, text) {
        Some(refusal) => marked(&refusal),
        None => None,
    };
    found == Some(fault)
        && fault_of(tokens_of(alloc, 4, text)) == Some(fault)
        && fault_of(scanned(alloc, 4, text)) == Some(fault)
}

#[test]
fn first_faults_of_texts(rt: HostRuntime) {
    for (text, fault, start, end) in FAULTS {
        assert!(rt;
            has_fault(rt.alloc(), text, (fault, start, end)),
            "at {text:?}"
        );
    }
}
