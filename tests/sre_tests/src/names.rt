//! The names at the engine's root and in its modules.

use sre_engine::{
    CODESIZE, Code, CodeError, EmptyRule, Found, Hints, MAXGROUPS, MAXREPEAT, Marks, Request,
    SRE_MAGIC, SearchIter, SreAtCode, SreCatCode, SreError, SreFlag, SreInfo, SreOpcode, State,
    StrDrive, StringCursor, UniError, UniTable, all_matches, code, constants, engine, string,
};
use std::alloc::Global;
use std::convert::TryFrom;
use std::test::Fail;

// The letter a, a digit, and the end of the text, by their names.
fn words() -> Result<[u32; 7], constants::UnknownCode> {
    let opcode: constants::SreOpcode = SreOpcode::try_from(16)?;
    let digit: constants::SreCatCode = SreCatCode::try_from(0)?;
    let at: constants::SreAtCode = SreAtCode::try_from(7)?;
    let (category, position) = (SreOpcode::CATEGORY, SreOpcode::AT);
    Ok([
        opcode as u32,
        97,
        category as u32,
        digit as u32,
        position as u32,
        at as u32,
        1,
    ])
}

// The cursor at the end of a text.
fn end_of<S: StrDrive>(text: S) -> StringCursor {
    text.create_cursor(text.count())
}

// The cursor at the end of the match of a search over characters, if there is one.
fn searched(
    alloc: Global,
    checked: code::Code<'_>,
    text: &str,
) -> Result<Option<string::StringCursor>, engine::SreError> {
    let req: engine::Request<'_, &str> = Request::new(text, 0, usize::MAX, checked, false);
    let mut state: engine::State<Global> = State::new(alloc);
    let found: Result<bool, SreError> = state.search(req);
    let found: bool = found?;
    let marks: &engine::Marks<Global> = state.marks();
    let marks: &Marks<Global> = marks;
    if !found || !marks.raw().is_empty() {
        return Ok(None);
    }
    Ok(Some(state.cursor()))
}

// Whether an iteration over characters has a match, and how many matches a list has.
fn walked(
    alloc: Global,
    checked: code::Code<'_>,
    text: &str,
) -> Result<(bool, usize), engine::SreError> {
    let req = Request::new(text, 0, usize::MAX, checked, false);
    let walk: engine::SearchIter<'_, &str, Global> = SearchIter::new(req, State::new(alloc));
    let mut found = false;
    for item in walk {
        item?;
        found = true;
    }
    let all: Vec<engine::Found<Global>> = engine::all_matches(req, &mut State::new(alloc))?;
    let again: Vec<Found<Global>> = all_matches(req, &mut State::new(alloc))?;
    Ok((found && again.len() == all.len(), all.len()))
}

#[test]
fn names_stand_at_the_root_and_in_their_modules(rt: HostRuntime) -> Result<(), Fail> {
    assert!(rt; (CODESIZE, MAXREPEAT, MAXGROUPS) == (4, 4_294_967_295, 2_147_483_647));
    let rule: constants::EmptyRule = EmptyRule::NonBoundary;
    assert!(rt; rule as u32 == 1);
    let (flag, claim): (constants::SreFlag, constants::SreInfo) = (SreFlag::ASCII, SreInfo::PREFIX);
    assert!(rt; SRE_MAGIC == 20_221_023 && (flag, claim) == (SreFlag::ASCII, SreInfo::PREFIX));
    let words = words()?;
    let uni: Result<string::UniTable, string::UniError> = UniTable::from_std(rt.alloc());
    let uni: Result<UniTable, UniError> = uni;
    let uni: UniTable = uni?;
    let checked: Result<code::Code<'_>, code::CodeError> = Code::check(rt.alloc(), &words, &uni);
    let checked: Result<Code<'_>, CodeError> = checked;
    let checked: Code<'_> = checked?;
    let hints: code::Hints = checked.hints();
    let hints: Hints = hints;
    assert!(rt; hints.width.is_none() && string::category(&uni, SreCatCode::DIGIT, 48));
    assert!(rt; searched(rt.alloc(), checked, "xa1")? == Some(end_of("xa1")));
    assert!(rt; walked(rt.alloc(), checked, "xa1")? == (true, 1));
    let shown = format!(in rt.alloc(); "{}", SreError::Memory)?;
    assert!(rt; shown.as_str() == "out of memory" && SreError::Memory.number() == 1);
    Ok(())
}

// The example of the engine's head comment.
#[test]
fn the_example_at_the_root_runs(rt: HostRuntime) -> Result<(), Fail> {
    let alloc = rt.alloc();
    let uni = UniTable::ascii(alloc);
    let code = Code::check(alloc, &[17, 0, 16, 97, 17, 1, 16, 98, 1], &uni)?;
    let mut state = State::new(alloc);
    let found = state.search(Request::whole("xab", code))?;
    assert!(rt; found && state.start() == 1 && state.cursor().position() == 3);
    assert!(rt; state.marks().get(0) == (Some(1), Some(2)));
    Ok(())
}
