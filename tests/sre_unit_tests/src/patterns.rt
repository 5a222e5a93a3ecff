//! Patterns of common codes. A clause says that they cover the code; these rows show that they are tight.

use regex_class::Class;
use regex_hir::{Hir, Look};
use sre_chars::string::UniTable;
use sre_code::Code;
use sre_patterns::{Encoding, hir_of, starts_of, ways_of};
use std::alloc::{AllocError, Global};

// Writes a class as its ranges.
fn write_class(alloc: Global, class: &Class, text: &mut String) -> Result<(), AllocError> {
    text.push('[')?;
    for (low, high) in &class.ranges {
        let range = format!(in alloc; "{low}-{high};")?;
        text.push_str(range.as_str())?;
    }
    text.push(']')
}

// The name of an assertion.
fn named(look: Look) -> &'static str {
    match look {
        Look::Start => "start",
        Look::End => "end",
        Look::StartLf => "line start",
        Look::EndLf => "line end",
        Look::WordAscii => "boundary",
        Look::WordAsciiNegate => "no boundary",
        _ => "another",
    }
}

// Writes a pattern: literals in quotes, classes by their numbers, and each pattern of parts in parentheses.
#[cycle(written)]
fn write_pattern(alloc: Global, hir: &Hir, text: &mut String) -> Result<(), AllocError> {
    match hir {
        Hir::Empty => text.push_str("empty"),
        Hir::Literal(bytes) => {
            for byte in bytes {
                text.push(*byte as char)?;
            }
            Ok(())
        }
        Hir::Bytes(class) => write_class(alloc, class, text),
        Hir::Chars(class) => write_class(alloc, class, text),
        Hir::Look(look) => text.push_str(named(*look)),
        Hir::Repetition {
            min,
            max,
            greedy,
            sub,
        } => {
            write_pattern(alloc, sub, text)?;
            let most = match max {
                Some(max) => format!(in alloc; "{max}")?,
                None => String::new(alloc),
            };
            let lazy = if *greedy { "" } else { "?" };
            let counts = format!(in alloc; "{{{min},{most}}}{lazy}")?;
            text.push_str(counts.as_str())
        }
        Hir::Capture { index: _, sub } => write_pattern(alloc, sub, text),
        Hir::Concat(parts) => write_parts(alloc, parts, ' ', text),
        Hir::Alternation(parts) => write_parts(alloc, parts, '|', text),
    }
}

#[cycle(written)]
fn write_parts(
    alloc: Global,
    parts: &[Hir],
    between: char,
    text: &mut String,
) -> Result<(), AllocError> {
    text.push('(')?;
    for i in 0..parts.len() {
        write_pattern(alloc, &parts[i], text)?;
        text.push(between)?;
    }
    text.push(')')
}

// Whether a pattern is written like this.
fn is_written(alloc: Global, hir: Result<Option<Hir>, AllocError>, wanted: &str) -> bool {
    let mut text = String::new(alloc);
    match hir {
        Ok(Some(hir)) => write_pattern(alloc, &hir, &mut text).is_ok() && text.as_str() == wanted,
        _ => false,
    }
}

// Whether the pattern of bytecode for an encoding is `whole`, and the pattern for its starts is `starts`.
fn are(alloc: Global, words: &[u32], encoding: Encoding, whole: &str, starts: &str) -> bool {
    let uni = UniTable::ascii(alloc);
    match Code::check(alloc, words, &uni) {
        Ok(code) => {
            is_written(alloc, hir_of(alloc, &code, encoding), whole)
                && is_written(alloc, starts_of(alloc, &code, encoding), starts)
        }
        Err(_) => false,
    }
}

// Whether the pattern of bytecode that keeps the order of match paths is the wanted one.
fn orders(alloc: Global, words: &[u32], encoding: Encoding, wanted: &str) -> bool {
    let uni = UniTable::ascii(alloc);
    match Code::check(alloc, words, &uni) {
        Ok(code) => is_written(alloc, ways_of(alloc, &code, encoding), wanted),
        Err(_) => false,
    }
}

// Whether no pattern is known that keeps the order of match paths.
fn has_no_order(alloc: Global, words: &[u32], encoding: Encoding) -> bool {
    let uni = UniTable::ascii(alloc);
    match Code::check(alloc, words, &uni) {
        Ok(code) => matches!(ways_of(alloc, &code, encoding), Ok(None)),
        Err(_) => false,
    }
}

#[test]
fn patterns_of_literals_are_tight(rt: HostRuntime) {
    let alloc = rt.alloc();
    // (?:a|bc)*d
    let words = [
        23, 17, 0, 4294967295, 7, 5, 16, 97, 15, 9, 7, 16, 98, 16, 99, 15, 2, 0, 18, 16, 100, 1,
    ];
    assert!(rt;
        are(
            alloc,
            &words,
            Encoding::Bytes,
            "((a|bc|){0,} d )",
            "((a|bc|){0,}? d )"
        )
    );
    // (a)\1b
    let words = [17, 0, 16, 97, 17, 1, 11, 0, 16, 98, 1];
    assert!(rt; are(alloc, &words, Encoding::Bytes, "(a [0-255;]{0,} b )", "a"));
    // a{2000}
    let words = [24, 6, 2000, 2000, 16, 97, 1, 1];
    assert!(rt; are(alloc, &words, Encoding::Bytes, "a{1000,}", "a{1000,}?"));
    // (a)?(?(1)b|c)
    let words = [
        23, 9, 0, 1, 17, 0, 16, 97, 17, 1, 18, 12, 0, 6, 16, 98, 15, 3, 16, 99, 1,
    ];
    assert!(rt;
        are(
            alloc,
            &words,
            Encoding::Bytes,
            "(a{0,1} (b|c|) )",
            "(a{0,1}? (b|c|) )"
        )
    );
    // (?>ab|c)+?
    let words = [
        23, 20, 1, 4294967295, 27, 16, 7, 7, 16, 97, 16, 98, 15, 7, 5, 16, 99, 15, 2, 0, 1, 19, 1,
    ];
    assert!(rt;
        are(
            alloc,
            &words,
            Encoding::Bytes,
            "(ab|c|){1,}?",
            "(ab|c|){1,}?"
        )
    );
}

#[test]
fn patterns_of_classes_and_positions_are_tight(rt: HostRuntime) {
    let alloc = rt.alloc();
    // [a-c]+x
    let words = [24, 10, 1, 4294967295, 13, 5, 22, 97, 99, 0, 1, 16, 120, 1];
    assert!(rt;
        are(
            alloc,
            &words,
            Encoding::Ascii,
            "([97-99;]{1,} x )",
            "([97-99;]{1,}? x )"
        )
    );
    assert!(rt;
        are(
            alloc,
            &words,
            Encoding::Utf8,
            "([97-99;]{1,} x )",
            "([97-99;]{1,}? x )"
        )
    );
    // \bfoo(?=x)$, whose boundary depends on the Unicode tables
    let words = [
        6, 10, 16, 102, 16, 111, 16, 111, 4, 5, 0, 16, 120, 1, 6, 5, 1,
    ];
    assert!(rt;
        are(
            alloc,
            &words,
            Encoding::Bytes,
            "(foo line end )",
            "(foo line end )"
        )
    );
    assert!(rt;
        are(
            alloc,
            &words,
            Encoding::Ascii,
            "(boundary foo line end )",
            "(boundary foo line end )"
        )
    );
    // (?i)a, whose characters depend on the Unicode tables
    assert!(rt;
        are(
            alloc,
            &[40, 97, 1],
            Encoding::Bytes,
            "[65-65;97-97;]",
            "[65-65;97-97;]"
        )
    );
    assert!(rt;
        are(
            alloc,
            &[40, 97, 1],
            Encoding::Utf8,
            "[65-65;97-97;2048-1114111;]",
            "[65-65;97-97;2048-1114111;]"
        )
    );
}

#[test]
fn patterns_in_order_are_exact(rt: HostRuntime) {
    let alloc = rt.alloc();
    // [a-c]+x
    let words = [24, 10, 1, 4294967295, 13, 5, 22, 97, 99, 0, 1, 16, 120, 1];
    assert!(rt; orders(alloc, &words, Encoding::Ascii, "([97-99;]{1,} [120-120;] )"));
    assert!(rt; orders(alloc, &words, Encoding::Utf8, "([97-99;]{1,} [120-120;] )"));
    // .é
    assert!(rt;
        orders(
            alloc,
            &[2, 16, 233, 1],
            Encoding::Utf8,
            "([0-9;11-1114111;] [233-233;] )"
        )
    );
    // [^ab]
    let words = [13, 6, 21, 22, 97, 98, 0, 1];
    assert!(rt; orders(alloc, &words, Encoding::Utf8, "([0-96;99-1114111;] )"));
    // (?i:a) by the case of ASCII, and by that of the Unicode tables
    assert!(rt; orders(alloc, &[32, 97, 1], Encoding::Utf8, "([65-65;97-97;] )"));
    assert!(rt; has_no_order(alloc, &[40, 97, 1], Encoding::Utf8));
    // \Aa\Z, whose positions are assertions
    assert!(rt;
        orders(
            alloc,
            &[6, 0, 16, 97, 6, 7, 1],
            Encoding::Utf8,
            "(start [97-97;] end )"
        )
    );
    assert!(rt;
        orders(
            alloc,
            &[6, 3, 16, 97, 6, 6, 1],
            Encoding::Bytes,
            "(boundary [97-97;] line end )"
        )
    );
    // \ba by the Unicode tables
    let words = [6, 10, 16, 97, 1];
    assert!(rt; orders(alloc, &words, Encoding::Ascii, "(boundary [97-97;] )"));
    assert!(rt; has_no_order(alloc, &words, Encoding::Bytes));
    assert!(rt; has_no_order(alloc, &words, Encoding::Utf8));
    // a$, which also holds before a final line break, and \B
    assert!(rt; has_no_order(alloc, &[16, 97, 6, 5, 1], Encoding::Bytes));
    assert!(rt; has_no_order(alloc, &[6, 4, 16, 97, 1], Encoding::Bytes));
    assert!(rt; has_no_order(alloc, &[6, 11, 16, 97, 1], Encoding::Ascii));
    // (?:a*)*, whose body can be empty
    let words = [
        23, 10, 0, 4294967295, 24, 6, 0, 4294967295, 16, 97, 1, 18, 1,
    ];
    assert!(rt; has_no_order(alloc, &words, Encoding::Bytes));
}
