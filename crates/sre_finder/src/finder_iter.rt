//! The iterator over all matches of a code, with a prefilter.

ghost use Rattle.std.specs.Prelude.{◌≡◌, false};
ghost use Rattle.sre_finder.specs.Terms.{string_of, code_of};
ghost use Rattle.sre_engine.specs.Iterators.{request_of};
ghost use Rattle.sre_finder.specs.Finders.{EndStands};

use crate::finder::Finder;
use crate::haystack::Haystack;
use sre_chars::string::StrDrive;
use sre_engine::engine::{SearchIter, SreError, State};
use sre_request::Request;
use std::alloc::Allocator;

/// Iterator over the matches in a range, as `SearchIter`. It skips starts that the prefilter excludes.
///
/// An item is an error only if an allocation failed. It ends the iteration.
pub struct FinderIter<'c, 'a, S: StrDrive, A: Allocator + Copy> {
    finder: Finder<'c>,
    walk: SearchIter<'a, S, A>,
    ghost own: { finder.code ≡ code_of (request_of walk) },
    ghost known: { ∥ EndStands (S.stands (string_of (request_of walk))) finder.end ∥₁ },
}

// Custom `Drop`, as that of `Finder`.
impl<'c, 'a, S: StrDrive, A: Allocator + Copy> Drop for FinderIter<'c, 'a, S, A> {
    fn drop(self) {
        let FinderIter { finder, walk } = self;
        drop((finder, walk));
    }
}

impl<'c> Finder<'c> {
    ghost use Rattle.sre_request.specs.Requests.{code_of};
    ghost use Rattle.sre_engine.specs.Iterators.{request_of, shown_of, has_ended};
    ghost use Rattle.sre_finder.specs.FinderIters.{walk_of};

    /// Starts an iteration over the matches in the request's range. The state is unchanged until the first item.
    pub fn walk<'a, S: Haystack, A: Allocator + Copy>(
        self,
        req: Request<'a, S>,
        state: State<A>,
    ) -> FinderIter<'c, 'a, S, A>
        requires { self.code ≡ code_of req }
        ensures req { request_of (walk_of result) ≡ req.entry }
        ensures state { shown_of (walk_of result) ≡ state }
        ensures open { has_ended (walk_of result) ≡ false }
    {
        let mut finder = self;
        finder.reset();
        FinderIter {
            finder,
            walk: SearchIter::new(req, state),
        }
    }
}

impl<'c, 'a, S: StrDrive, A: Allocator + Copy> FinderIter<'c, 'a, S, A> {
    ghost use Rattle.sre_engine.specs.Iterators.{request_of, shown_of};
    ghost use Rattle.sre_finder.specs.FinderIters.{walk_of};

    /// Returns the request of the remaining range, as `SearchIter::req` does.
    pub fn req(&self) -> &Request<'a, S>
        ensures { result.now ≡ request_of (walk_of self.now) }
    {
        self.walk.req()
    }

    /// Returns the state, which shows the match of the last item.
    pub fn state(&self) -> &State<A>
        ensures { result.now ≡ shown_of (walk_of self.now) }
    {
        self.walk.state()
    }

    /// Drops the iteration and returns the finder, for use with another text.
    pub fn into_finder(self) -> Finder<'c>
        ensures { result.code ≡ code_of (request_of (walk_of self.entry)) }
    {
        let FinderIter { finder, walk } = self;
        drop(walk);
        finder
    }
}

impl<'c, 'a, S: Haystack, A: Allocator + Copy> Iterator for FinderIter<'c, 'a, S, A> {
    ghost use Rattle.std.specs.Iterator.{at_most};
    ghost use Rattle.sre_engine.specs.Iterators.{NextGives, most_items};
    ghost use Rattle.sre_finder.specs.FinderIters.{walk_of};

    type Item = Result<(), SreError>;

    ghost next_gives = { λ it result next. NextGives (walk_of it) result (walk_of next) };

    ghost remaining = { λ it. at_most (most_items (walk_of it)) };

    fn next(&mut self) -> Option<Result<(), SreError>> {
        self.walk.next_by(&mut self.finder)
    }
}
