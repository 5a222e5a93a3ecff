//! The calls: a match, a search, the iteration over all matches.

mod anchors;
mod candidates;
mod doubled;
mod first_characters;
mod first_sets;
mod leading_run;
mod members;
mod next_start;
mod opening;
mod prefix;
mod search_iter;
mod state;
mod told;
mod walk;
mod whole_walk;
mod widths;

pub use first_characters::Beginnings;
pub use first_sets::FirstSets;
pub use search_iter::SearchIter;
pub use sre_board::Marks;
pub use sre_request::Request;
pub use state::{SreError, State};
pub use told::{Nobody, Starts};
pub use walk::{step_admitted, step_by, step_limited};
pub use whole_walk::{Found, all_matches, all_matches_by};
