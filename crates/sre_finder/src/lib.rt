//! Prefilters: the kit's DFAs find where the next match of a code can begin, or where it begins and ends.
#![tactic(auto)]

mod finder;
mod finder_iter;
mod haystack;
mod kept;
mod pace;
mod prefilter;
mod searched;
mod span_finder;
mod span_iter;

pub use finder::Finder;
pub use finder_iter::FinderIter;
pub use haystack::Haystack;
pub use kept::{Kept, Memory};
pub use pace::FEW_CHARACTERS;
pub use span_finder::SpanFinder;
pub use span_iter::{Span, SpanIter};
pub use sre_patterns::Encoding;
