//! Decides when a prefilter runs its DFAs: only where that probably saves time.
//!
//! Most steps of an iteration match at the first start, so the DFAs run only after a failed run of the machine. If
//! first starts keep failing, the DFAs run before the first start too, for some steps. If candidates of the DFAs keep
//! failing, the DFAs pause, each time twice as long up to a limit. These counts hold for later texts, too. A DFA may
//! read far beyond the candidate that it returns. So in each text the DFAs also pause while they have read much more
//! than the search has passed. The time of a search then stays linear in the text's length if the machine's is.
//!
//! The machine shows the match of a span, with its captures. If spans are shown, it finds some of the next matches
//! itself, as long as few starts fail.
//!
//! On demand, DFAs are built once the machine has spent as much as building them costs. So a search takes at most about
//! twice the time of the better choice, whatever the text. Before that, a finder checks once whether a required literal
//! still occurs.

ghost use Rattle.std.specs.Prelude.{◌<◌};

use regex_hir::{Hir, Look};
use sre_code::Code;

/// Limit on failed candidates. A candidate with a match takes two off the count.
const VAIN: u32 = 8;

/// Number of steps in which the DFAs run before the first start. After these, a step begins without them again.
const STEPS: u32 = 64;

/// Number of bytes that the DFAs may read for each byte that the search has passed. `MORE` bytes count as passed from
/// the start.
const READ: usize = 2;

const MORE: usize = 8192;

/// The same for DFAs that find whole matches. They read each match to its end, and back to its start.
const READ_OF_MATCHES: usize = 8;

/// Number of questions that the first pause skips, and a pause after too many bytes read. A pause is at most `LONGEST`,
/// since a later text may be one where the DFAs save time.
const PAUSE: u32 = 64;

const LONGEST: u32 = 1 << 12;

/// What building DFAs costs, counted in characters that a search passes: some hundred thousand instructions, at about
/// 12 a character (both measured). `RUN` is the cost of a run of the machine, beside the characters that it passes.
const BUILDING: u32 = 1 << 15;

const RUN: u32 = 16;

/// What is left of `BUILDING` when a finder checks for a required literal. To read the literal costs less than DFAs.
const LOOKING: u32 = 7 << 12;

/// Number of runs in a step up to which the machine is probably faster than a DFA and the run that shows its span.
const FEW: u64 = 2;

/// Over so few characters, one call of the machine costs less than building DFAs.
pub const FEW_CHARACTERS: usize = 128;

/// Limit on a balance of steps: a step whose first start failed adds 2, any other step subtracts 1.
const FAILING: u32 = 4;

/// Whether a search visits only the occurrences of a confirmed prefix that is probably rare: two characters or more, or
/// the whole code.
pub(crate) fn is_found_along(code: &Code<'_>) -> bool {
    let hints = code.hints();
    match hints.prefix {
        Some((length, _)) => length > 1 || hints.literal,
        None => false,
    }
}

/// Whether a match begins only at the text's start. There the machine is run once, while DFAs would read all.
pub(crate) fn is_anchored(hir: &Hir) -> bool {
    match hir {
        Hir::Look(Look::Start) => true,
        Hir::Concat(parts) => match parts.first() {
            Some(Hir::Look(Look::Start)) => true,
            _ => false,
        },
        _ => false,
    }
}

// The pause after one of this length.
#[inline(always)]
fn longer(pause: u32) -> u32 {
    pause.saturating_mul(2).min(LONGEST)
}

/// What the machine has still to spend before DFAs are built.
#[derive(Clone, Copy)]
pub(crate) struct Debt(u32);

impl Debt {
    /// The cost of building DFAs.
    pub(crate) fn of_building() -> Debt {
        Debt(BUILDING)
    }

    /// Nothing is left.
    pub(crate) fn none() -> Debt {
        Debt(0)
    }

    /// Returns whether something is left.
    #[inline(always)]
    pub(crate) fn is_due(&self) -> bool {
        self.0 > 0
    }

    /// Pays for so many runs of the machine, and for the characters that the search has passed.
    #[inline(always)]
    pub(crate) fn pay(&mut self, runs: u64, characters: usize) {
        let runs = runs.min(u64::from(BUILDING)) as u32;
        let characters = characters.min(BUILDING as usize) as u32;
        self.0 = self.0.saturating_sub(runs * RUN).saturating_sub(characters);
    }
}

/// How much DFAs have read of a text, beside what the search has passed.
#[derive(Clone, Copy)]
pub(crate) struct Reads {
    // the offset of the first question, and how many bytes the DFAs had read by then
    begun: Option<(usize, usize)>,
}

impl Reads {
    /// Nothing is read yet.
    #[inline(always)]
    pub(crate) fn new() -> Reads {
        Reads { begun: None }
    }

    /// Returns whether the DFAs may search for a whole match from the offset `place` on, if they have read `read`
    /// bytes.
    #[inline(always)]
    pub(crate) fn may_match(&mut self, place: usize, read: usize) -> bool {
        self.is_worth(place, read, READ_OF_MATCHES)
    }

    // Whether the DFAs have read at most `most` bytes of this text for each byte that the search has passed, with
    // `MORE` bytes in addition.
    #[inline(always)]
    fn is_worth(&mut self, place: usize, read: usize, most: usize) -> bool
        requires { 0 < most }
    {
        let Some((origin, before)) = self.begun else {
            self.begun = Some((place, read));
            return true;
        };
        let passed = place.wrapping_sub(origin);
        read.wrapping_sub(before) / most <= passed.saturating_add(MORE)
    }
}

/// When the machine finds matches alone, since it has to show them.
#[derive(Clone, Copy)]
pub(crate) struct Alone {
    // number of next matches that it finds alone
    matches: u32,
    // number of spans to be shown before it tries that, now and the next time
    shown: u32,
    pause: u32,
}

impl Alone {
    /// No span was shown yet.
    #[inline(always)]
    pub(crate) fn new() -> Alone {
        Alone {
            matches: 0,
            shown: 0,
            pause: PAUSE,
        }
    }

    /// Begins a walk, which may show no match.
    #[inline(always)]
    pub(crate) fn begin_walk(&mut self) {
        self.matches = 0;
    }

    /// Records that the machine was run to show a span.
    #[inline(always)]
    pub(crate) fn note_shown(&mut self) {
        if self.shown > 0 {
            self.shown -= 1;
        } else {
            self.matches = STEPS;
        }
    }

    /// Records how many runs a search with a prefilter took. After few, the machine alone searches the next ranges.
    #[inline(always)]
    pub(crate) fn note_search(&mut self, runs: u64) {
        if runs <= FEW {
            self.note_shown();
        }
    }

    /// Returns whether the machine finds the next match alone.
    #[inline(always)]
    pub(crate) fn is_alone(&mut self) -> bool {
        if self.matches == 0 {
            return false;
        }
        self.matches -= 1;
        true
    }

    /// Records how many runs a step of the machine took.
    #[inline(always)]
    pub(crate) fn note_runs(&mut self, runs: u64) {
        if self.matches > 0 && runs > FEW {
            self.matches = 0;
            self.shown = self.pause;
            self.pause = longer(self.pause);
        }
    }
}

/// When a prefilter runs its DFAs.
#[derive(Clone, Copy)]
pub(crate) struct Pace {
    // remaining steps in which the DFAs run before the first start
    first: u32,
    failing: u32,
    vain: u32,
    // number of questions to skip now, and in the next pause
    rest: u32,
    pause: u32,
    // what is still to be spent before the DFAs are built, and up to which position this text's characters are counted
    debt: Debt,
    at: usize,
    // the last question: whether it was a step's first, whether the DFAs were run, and whether the start then failed
    is_first: bool,
    is_told: bool,
    has_failed: bool,
}

impl Pace {
    /// The DFAs are built only once the machine has spent as much as that costs.
    pub(crate) fn new() -> Pace {
        Pace {
            first: 0,
            failing: 0,
            vain: 0,
            rest: 0,
            pause: PAUSE,
            debt: Debt::of_building(),
            at: usize::MAX,
            is_first: false,
            is_told: false,
            has_failed: false,
        }
    }

    /// The DFAs are built when they are first run.
    pub(crate) fn hurry(&mut self) {
        self.debt = Debt::none();
    }

    /// Pays for what the machine has spent without a prefilter.
    #[inline(always)]
    pub(crate) fn pay(&mut self, runs: u64, characters: usize) {
        self.debt.pay(runs, characters);
    }

    /// Begins another text.
    pub(crate) fn begin_text(&mut self) {
        self.note_last();
        self.has_failed = false;
        self.is_first = false;
        self.is_told = false;
        self.at = usize::MAX;
    }

    // Records that the start of the last question had a match, unless a failure was recorded.
    #[inline(always)]
    fn note_last(&mut self) {
        if self.has_failed {
            return;
        }
        if self.is_told {
            self.vain = self.vain.saturating_sub(2);
        }
        if self.is_first {
            self.failing = self.failing.saturating_sub(1);
        }
    }

    // Counts what was spent up to a start, before the DFAs are built. Returns whether to check for a required literal.
    #[inline(always)]
    fn looks(&mut self, position: usize) -> bool {
        let before = self.debt.0;
        let runs = if self.has_failed { 1 } else { 0 };
        self.has_failed = false;
        self.debt.pay(runs, position.saturating_sub(self.at));
        self.at = position;
        before > LOOKING && self.debt.0 <= LOOKING
    }

    /// Returns whether to run the DFAs for the next start, at a position or after it.
    #[inline(always)]
    pub(crate) fn asks(&mut self, position: usize) -> bool {
        if self.rest > 0 {
            self.rest -= 1;
            return false;
        }
        if self.debt.is_due() {
            return self.looks(position);
        }
        self.note_last();
        let is_first = !self.has_failed;
        self.has_failed = false;
        self.is_first = is_first;
        self.is_told = false;
        if is_first {
            if self.first == 0 {
                return false;
            }
            self.first -= 1;
        }
        self.is_told = true;
        true
    }

    /// Returns whether the DFAs may search for a start from the offset `place` on, if they have read `read` bytes in
    /// all. If not, they pause.
    pub(crate) fn may_read(&mut self, reads: &mut Reads, place: usize, read: usize) -> bool {
        if self.debt.is_due() {
            return false;
        }
        let is_worth = reads.is_worth(place, read, READ);
        if !is_worth {
            self.rest = PAUSE;
        }
        is_worth
    }

    // Records a failed run at a step's first start. If the DFAs were run before it and kept it, that saved no run.
    #[inline(always)]
    fn note_first_failed(&mut self) {
        if self.is_told {
            self.first = 0;
            return;
        }
        self.failing = self.failing.saturating_add(2);
        if self.failing > FAILING {
            self.failing = 0;
            self.first = STEPS;
        }
    }

    /// Records a failed run of the machine.
    #[inline(always)]
    pub(crate) fn note_failed(&mut self) {
        if self.rest > 0 {
            return;
        }
        self.has_failed = true;
        if self.is_first {
            self.note_first_failed();
        }
        if self.is_told {
            self.vain = self.vain.saturating_add(1);
            if self.vain > VAIN {
                self.vain = 0;
                self.rest = self.pause;
                self.pause = longer(self.pause);
            }
        }
    }
}
