//! The example of the recipes, and the texts of an iteration.

use sre_engine::{Code, Request, SearchIter, State, UniTable};
use sre_recipes::{
    Bounds, Piece, PieceOf, all_captures, find_all, find_bounded, group_text, matched_text,
    replace_all, replace_all_bytes, replace_with, split, split_groups, tokens_of,
};
use std::test::Fail;

// (?<=(é))b(?=(€.))
const BETWEEN: &[u32] = &[
    14, 4, 0, 1, 1, 4, 9, 1, 17, 0, 16, 233, 17, 1, 1, 16, 98, 4, 10, 0, 17, 2, 16, 8364, 2, 17, 3,
    1, 1,
];

#[test]
fn a_walk_shows_texts(rt: HostRuntime) -> Result<(), Fail> {
    let uni = UniTable::ascii(rt.alloc());
    let code = Code::check(rt.alloc(), BETWEEN, &uni)?;
    let whole = Request::whole("éb€éb€b", code);
    let mut walk = SearchIter::new(whole, State::new(rt.alloc()));
    'walk: while let Some(item) = walk.next() {
        item?;
        let text = walk.req().string();
        assert!(rt; matched_text(text, walk.state()) == "b");
        assert!(rt; group_text(text, walk.state(), 1) == Some("é"));
    }
    Ok(())
}

// The example at the crate's root.
#[test]
fn the_example_at_the_root_runs(rt: HostRuntime) -> Result<(), Fail> {
    let alloc = rt.alloc();
    let uni = UniTable::ascii(alloc);
    let words = [7, 9, 17, 0, 16, 97, 17, 1, 15, 7, 5, 16, 98, 15, 2, 0, 1];
    let code = Code::check(alloc, &words, &uni)?;
    let whole = Request::whole("xaéb", code);
    assert!(rt; find_all(alloc, &whole)?.as_slice() == ["a", "b"].as_slice());
    assert!(rt; split(alloc, &whole)?.as_slice() == ["x", "é", ""].as_slice());
    let template = [Piece::Text("<"), Piece::Group(1), Piece::Text(">")];
    assert!(rt; replace_all(alloc, &whole, &template)?.as_str() == "x<a>é<>");
    Ok(())
}

// The same recipes over bytes, one of which is not valid in UTF-8.
#[test]
fn bytes_are_cut_and_written_anew(rt: HostRuntime) -> Result<(), Fail> {
    let alloc = rt.alloc();
    let uni = UniTable::ascii(alloc);
    let words = [7, 9, 17, 0, 16, 97, 17, 1, 15, 7, 5, 16, 98, 15, 2, 0, 1];
    let code = Code::check(alloc, &words, &uni)?;
    let whole = Request::whole(b"xa\xffb".as_slice(), code);
    let (a, b) = (b"a".as_slice(), b"b".as_slice());
    let (x, other) = (b"x".as_slice(), b"\xff".as_slice());
    assert!(rt; find_all(alloc, &whole)?.as_slice() == [a, b].as_slice());
    assert!(rt; split(alloc, &whole)?.as_slice() == [x, other, &[]].as_slice());
    let pieces = split_groups(alloc, &whole, 1)?;
    assert!(rt; pieces.as_slice() == [Some(x), Some(a), Some(other), None, Some(&[])].as_slice());
    let template = [
        PieceOf::Text(b"<".as_slice()),
        PieceOf::Group(1),
        PieceOf::Text(b">".as_slice()),
    ];
    assert!(rt;
        replace_all_bytes(alloc, &whole, &template)?.as_slice() == b"x<a>\xff<>".as_slice()
    );
    let new = replace_with(
        alloc,
        &whole,
        |found| found.get(0).unwrap_or_default().to_vec(alloc),
    )?;
    assert!(rt; new.as_slice() == b"xa\xffb".as_slice());
    for found in &all_captures(alloc, &whole)? {
        assert!(rt;
            found.get(0) == Some(a) && found.get(1) == Some(a)
                || found.get(0) == Some(b) && found.get(1) == None
        );
    }
    if let Some(one) = find_bounded(alloc, &whole, &mut Bounds::first(1))? {
        assert!(rt; one.as_slice() == [a].as_slice());
    }
    let lexed = tokens_of(alloc, &Request::whole(b"ab\xff".as_slice(), code))?;
    assert!(rt; lexed.tokens.len() == 2 && lexed.tokens[1].text == b && lexed.end.offset() == 2);
    Ok(())
}
