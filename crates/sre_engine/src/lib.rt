//! Python's regular expression engine SRE: it finds the matches of compiled patterns in texts.
//!
//! [`Code::check`] accepts well-formed bytecode, and rejects all other. A [`Request`] holds such a code, a text and a
//! range of it. A [`State`] finds the match: `pymatch` at the start of the range, `search` at the least start in it
//! that has one. The state then shows the start, the end and the capture groups of the match. [`SearchIter`] is the
//! iteration over all matches, and [`all_matches`] lists them. `match_within`, `search_within` and `next_within` take a
//! budget of steps, for untrusted input. A match or a search returns what the definitions in `specs/` prescribe, or an
//! error if an allocation fails.
//!
//! ```
//! // The bytecode of `(a)b`: capture slot 0, the letter a, capture slot 1, the letter b, success.
//! let uni = UniTable::ascii(alloc);
//! let code = Code::check(alloc, &[17, 0, 16, 97, 17, 1, 16, 98, 1], &uni)?;
//! let mut state = State::new(alloc);
//! let found = state.search(Request::whole("xab", code))?;
//! assert!(found && state.start() == 1 && state.cursor().position() == 3);
//! assert!(state.marks().get(0) == (Some(1), Some(2)));
//! ```
#![tactic(auto)]

pub mod engine;

pub use engine::{Found, Marks, SearchIter, SreError, State, all_matches};
pub use sre_chars::constants::{
    CODESIZE, EmptyRule, MAXGROUPS, MAXREPEAT, SRE_MAGIC, SreAtCode, SreCatCode, SreFlag, SreInfo,
    SreOpcode,
};
pub use sre_chars::string::{LentTable, StrDrive, StringCursor, UniError, UniPair, UniTable};
pub use sre_chars::{constants, string};
pub use sre_code::code::{CodeError, Hints};
pub use sre_code::{Code, OwnedCode, code};
pub use sre_machine::admitting::admitted_by_place;
pub use sre_request::{Admitted, Request};
