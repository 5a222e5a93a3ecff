//! [`Request`]: the parts of a match or a search.

ghost use Rattle.std.specs.Prelude.{⊤, ◌≡◌, ◌+◌, ◌^◌, ◌≤◌, length};
ghost use Rattle.sre_request.specs.Terms.{items_of};
ghost use Rattle.sre_request.specs.Admitting.{AllAdmitted, one_all_admitted};

use crate::admitted::Admitted;
use sre_chars::constants::EmptyRule;
use sre_chars::string::StrDrive;
use sre_code::Code;
use std::alloc::AllocError;

/// A text, a range of it, a code, two flags, and the rule for `\B` in a range that ends at 0. Positions count
/// characters.
///
/// It may carry the FIRST sets of its code's addresses. A search uses them to skip work, and they change no answer.
pub struct Request<'a, S: StrDrive> {
    string: S,
    start: usize,
    end: usize,
    pattern_codes: Code<'a>,
    match_all: bool,
    must_advance: bool,
    empty_rule: EmptyRule,
    admitted: &'a [Admitted],
    ghost in_window: { ((start ≤ end) × (end ≤ length (S.text string))) × (end + 1 ≤ 2 ^ 63) },
    ghost all_admitted: { AllAdmitted (items_of pattern_codes) admitted.now } by { one_all_admitted },
}

impl<'a, S: StrDrive> Clone for Request<'a, S> {
    ghost is_clone = { λ r s. s ≡ r };

    ghost is_infallible = { λ _. ⊤ };

    fn clone(&self) -> Result<Request<'a, S>, AllocError> {
        Ok(self.copied())
    }
}

impl<'a, S: StrDrive> Copy for Request<'a, S> {}

impl<'a, S: StrDrive> Request<'a, S> {
    ghost use Rattle.std.specs.Prelude.{◌≡◌, ◌^◌, ◌<◌, ◌≤◌, length, min, false};
    ghost use Rattle.sre_request.specs.Requests.{string_of, start_of, end_of, code_of, match_all_of, must_advance_of};
    ghost use Rattle.sre_request.specs.Requests.{empty_rule_of, asked_of, admitted_of, carrying};

    /// A request over the range from `start` to `end` of a text. `end` is reduced to the number of characters, then
    /// `start` to `end`. `must_advance` is not set, and the rule is `EmptyRule::Never`.
    pub fn new(
        string: S,
        start: usize,
        end: usize,
        pattern_codes: Code<'a>,
        match_all: bool,
    ) -> Request<'a, S>
        ensures string { string_of result ≡ string }
        ensures end { end_of result ≡ min end (length (S.text string)) }
        ensures start { start_of result ≡ min start (min end (length (S.text string))) }
        ensures pattern_codes { code_of result ≡ pattern_codes.entry }
        ensures match_all { match_all_of result ≡ match_all }
        ensures must_advance { must_advance_of result ≡ false }
        ensures empty_rule { empty_rule_of result ≡ EmptyRule.Never }
    {
        let end = end.min(string.count());
        Request {
            string,
            start: start.min(end),
            end,
            pattern_codes,
            match_all,
            must_advance: false,
            empty_rule: EmptyRule::Never,
            admitted: &[],
        }
    }

    /// A request over a whole text; a match may end anywhere in it. `must_advance` is not set, and the rule is
    /// `EmptyRule::Never`.
    ///
    /// ```
    /// // The bytecode of `a`.
    /// let req = Request::whole("éa", code);
    /// assert!(req.start() == 0 && req.end() == 2 && !req.match_all());
    /// ```
    pub fn whole(string: S, pattern_codes: Code<'a>) -> Request<'a, S>
        ensures string { string_of result ≡ string }
        ensures start { start_of result ≡ 0 }
        ensures end { end_of result ≡ length (S.text string) }
        ensures pattern_codes { code_of result ≡ pattern_codes.entry }
        ensures match_all { match_all_of result ≡ false }
        ensures must_advance { must_advance_of result ≡ false }
        ensures empty_rule { empty_rule_of result ≡ EmptyRule.Never }
    {
        let req = Request::new(string, 0, usize::MAX, pattern_codes, false);
        let _end = req.end(); // no text has so many characters
        req
    }

    // A copy, field by field: a generic function cannot copy a request as a whole.
    #[inline(always)]
    pub(crate) fn copied(&self) -> Request<'a, S>
        ensures { result ≡ self.now }
    {
        self.with_admitted(self.admitted)
    }

    /// The same request with another list of FIRST sets, as `admitted_by_place` of `sre_engine` computes it. The answer
    /// is the same.
    #[inline(always)]
    pub fn with_admitted<'b>(&self, admitted: &'b [Admitted]) -> Request<'b, S>
    where
        'a: 'b,
        requires { AllAdmitted (items_of (code_of self.now)) admitted.now }
        ensures { (all : AllAdmitted (items_of (code_of self.now)) admitted.now)
            → result ≡ carrying self.now admitted.entry all }
    {
        Request {
            string: self.string,
            start: self.start,
            end: self.end,
            pattern_codes: self.pattern_codes,
            match_all: self.match_all,
            must_advance: self.must_advance,
            empty_rule: self.empty_rule,
            admitted,
        }
    }

    /// The FIRST sets by address of its code. For addresses past the end of the list nothing is known.
    #[inline(always)]
    pub fn admitted(&self) -> &'a [Admitted]
        ensures same { result.now ≡ admitted_of self.now }
        ensures admitted { AllAdmitted (items_of (code_of self.now)) result.now }
    {
        self.admitted
    }

    /// The text.
    #[inline(always)]
    pub fn string(&self) -> S
        ensures { result ≡ string_of self.now }
    {
        self.string
    }

    /// The position at which the range starts, at most its end.
    #[inline(always)]
    pub fn start(&self) -> usize
        ensures value { result ≡ start_of self.now }
        ensures in_window { result ≤ end_of self.now }
    {
        self.start
    }

    /// The position at which the range ends: the search does not see the characters from there on. It is at most the
    /// number of characters of the text, and below 2^63.
    #[inline(always)]
    pub fn end(&self) -> usize
        ensures value { result ≡ end_of self.now }
        ensures in_text { result ≤ length (S.text (string_of self.now)) }
        ensures bounded { result < 2 ^ 63 }
    {
        self.end
    }

    /// The code.
    #[inline(always)]
    pub fn pattern_codes(&self) -> Code<'a>
        ensures { result ≡ code_of self.now }
    {
        self.pattern_codes
    }

    /// Whether a match must end at the end of the range.
    #[inline(always)]
    pub fn match_all(&self) -> bool
        ensures { result ≡ match_all_of self.now }
    {
        self.match_all
    }

    /// Whether an empty match at the start of the range does not count.
    #[inline(always)]
    pub fn must_advance(&self) -> bool
        ensures { result ≡ must_advance_of self.now }
    {
        self.must_advance
    }

    /// Sets whether an empty match at the start of the range does not count.
    pub fn set_must_advance(&mut self, must_advance: bool)
        ensures asked { asked_of self.new ≡ record (asked_of self.old) { must_advance = must_advance } }
        ensures string { string_of self.new ≡ string_of self.old }
        ensures pattern_codes { code_of self.new ≡ code_of self.old }
    {
        self.must_advance = must_advance;
    }

    /// Sets whether a match must end at the end of the range.
    pub fn set_match_all(&mut self, match_all: bool)
        ensures asked { asked_of self.new ≡ record (asked_of self.old) { match_all = match_all } }
        ensures string { string_of self.new ≡ string_of self.old }
        ensures pattern_codes { code_of self.new ≡ code_of self.old }
    {
        self.match_all = match_all;
    }

    /// Whether `\B` matches at position 0 of a range that ends there.
    #[inline(always)]
    pub fn empty_rule(&self) -> EmptyRule
        ensures { result ≡ empty_rule_of self.now }
    {
        self.empty_rule
    }

    /// Sets whether `\B` matches at position 0 of a range that ends there.
    pub fn set_empty_rule(&mut self, empty_rule: EmptyRule)
        ensures asked { asked_of self.new ≡ record (asked_of self.old) { empty_rule = empty_rule } }
        ensures string { string_of self.new ≡ string_of self.old }
        ensures pattern_codes { code_of self.new ≡ code_of self.old }
    {
        self.empty_rule = empty_rule;
    }

    /// Moves the start of the range, up to its end. It reads no character.
    pub fn set_start(&mut self, start: usize)
        requires { start ≤ end_of self.old }
        ensures asked { asked_of self.new ≡ record (asked_of self.old) { start = start } }
        ensures string { string_of self.new ≡ string_of self.old }
        ensures pattern_codes { code_of self.new ≡ code_of self.old }
    {
        self.start = start;
    }

    /// Sets the range, with both ends reduced as `new` reduces them.
    pub fn set_window(&mut self, start: usize, end: usize)
        ensures asked { let held = min end (length (S.text (string_of self.old))) in
            asked_of self.new ≡ record (asked_of self.old) { start = min start held; end = held } }
        ensures string { string_of self.new ≡ string_of self.old }
        ensures pattern_codes { code_of self.new ≡ code_of self.old }
    {
        let end = end.min(self.string.count());
        (self.start, self.end) = (start.min(end), end);
    }
}
