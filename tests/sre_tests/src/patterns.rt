//! What a pattern that owns its code finds in texts: byte offsets, groups, and the start of a search.

use sre_engine::UniTable;
use sre_recipes::{Pattern, Piece};
use std::test::Fail;

// (?<=(é))b(?=(€.))
const BETWEEN: &[u32] = &[
    14, 4, 0, 1, 1, 4, 9, 1, 17, 0, 16, 233, 17, 1, 1, 16, 98, 4, 10, 0, 17, 2, 16, 8364, 2, 17, 3,
    1, 1,
];

#[test]
fn offsets_count_bytes(rt: HostRuntime) -> Result<(), Fail> {
    let alloc = rt.alloc();
    let mut pattern = Pattern::new(alloc, BETWEEN, UniTable::ascii(alloc))?;
    let text = "b éb€éb€b";
    assert!(rt; pattern.is_match(text)? && !pattern.is_match("b")?);
    let found = pattern.find(text)?.ok_or("a match")?;
    assert!(rt; found.start() == 4 && found.end() == 5 && found.text() == "b");
    assert!(rt; found.range() == (4..5));
    // at a match, inside a character, and behind the last match
    for (offset, start) in [
        (0, Some(4)),
        (4, Some(4)),
        (5, Some(10)),
        (6, Some(10)),
        (11, None),
        (15, None),
    ] {
        assert!(rt; pattern.find_at(text, offset)?.map(|found| found.start()) == start);
    }
    let captures = pattern.captures(text)?.ok_or("a match")?;
    let (first, second) = (captures.get(1).ok_or("1")?, captures.get(2).ok_or("2")?);
    assert!(rt;
        captures.len() == 3 && captures.get(0).is_some_and(|found| found.range() == (4..5))
    );
    assert!(rt; first.range() == (2..4) && first.text() == "é");
    assert!(rt; second.range() == (5..10) && second.text() == "€é");
    Ok(())
}

#[test]
fn bytes_that_are_no_text(rt: HostRuntime) -> Result<(), Fail> {
    let alloc = rt.alloc();
    let mut pattern = Pattern::new(alloc, &[16, 98, 1], UniTable::ascii(alloc))?;
    let text = b"\xff\xc3b".as_slice();
    let found = pattern.find(text)?.ok_or("a match")?;
    assert!(rt; found.range() == (2..3) && found.text() == b"b".as_slice());
    assert!(rt; pattern.find_at(text, 3)?.is_none() && pattern.find_at(text, 4)?.is_none());
    Ok(())
}

// (a)|b, of all matches: with their groups, between them, and in their place.
#[test]
fn all_matches_of_a_text(rt: HostRuntime) -> Result<(), Fail> {
    let alloc = rt.alloc();
    let words = [7, 9, 17, 0, 16, 97, 17, 1, 15, 7, 5, 16, 98, 15, 2, 0, 1];
    let mut pattern = Pattern::new(alloc, &words, UniTable::ascii(alloc))?;
    let template = [Piece::Text("<"), Piece::Group(1), Piece::Text(">")];
    for _ in 0..200 {
        let all = pattern.find_all("xaéb")?;
        assert!(rt; all.len() == 2 && all[0].range() == (1..2) && all[1].range() == (4..5));
        assert!(rt; all[0].text() == "a" && all[1].text() == "b");
        let all = pattern.all_captures("xaéb")?;
        assert!(rt; all.len() == 2 && all[0].len() == 2 && all[1].len() == 1);
        assert!(rt; all[0].get(1).is_some_and(|group| group.range() == (1..2)));
        assert!(rt; all[1].get(0).is_some_and(|found| found.range() == (4..5)));
        assert!(rt; pattern.split("xaéb")?.as_slice() == ["x", "é", ""].as_slice());
        assert!(rt; pattern.replace_all("xaéb", &template)?.as_str() == "x<a>é<>");
        assert!(rt;
            pattern.find_all("xé")?.is_empty() && pattern.split("")?.as_slice() == [""].as_slice()
        );
    }
    Ok(())
}
