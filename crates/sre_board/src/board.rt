//! The backtrack stack: what a run of the machine holds beside its address and position.
//!
//! Its value has frames, captures and choices as if each choice held its own copy. In memory all choices share one
//! trail and one table of chains. A chain is dropped as soon as no choice can return to it.

ghost use Rattle.std.specs.Prelude.{drop, ◌≡◌, ◌<◌, ◌≤◌, [], ◌∷◌, length, IfOk, MatchOption, true, false};
ghost use Rattle.std.specs.Prelude.{slice_index_or, IfSome, OnErr, ◌+◌, ◌^◌};
ghost use Rattle.sre_board.specs.Terms.{no_marks, set_mark, group, Trying, choice, MayBeTried};
ghost use Rattle.sre_growth.specs.Refusal.{Refused};
ghost use Rattle.sre_turns.specs.Board.{Keep, from_region, Cuts, Dropped, bare};
ghost use Rattle.sre_turns.specs.Fruit.{is_inside};
ghost use Rattle.sre_board.specs.Choices.{WaitsAt};

use crate::chains::{Chains, frame_of};
use crate::marks::Marks;
use crate::requests::Requests;
use crate::saved::{Saved, goes_on_at, innermost, mark_of, needs, regions_of};
use crate::trail::Trail;
use sre_chars::string::StringCursor;
use sre_growth::Refusal;
use sre_turns::{Frame, Point, Region};
use std::alloc::Allocator;
use std::marker::Model;
use std::mem::replace;

/// How many characters a search for one character scans, at least, in the time that a repeat takes for one.
pub const LOOK_SPEED: usize = 32;

// A stack has much memory if there is room for more choices, changes, chains or capture slots.
const MANY: usize = 256;

/// The loops in progress, the captures and the choices. It counts the atomic scopes among the choices.
#[derive(Drop)]
pub struct Board<A: Allocator> {
    trail: Trail<A>,
    chains: Chains<A>,
    frame: usize,
    choices: Vec<Saved, A>,
    regions: usize,
    // characters scanned in long stretches since `take_passed`
    passed: usize,
    // loops and loop bodies that began since `take_entered`
    entered: usize,
    // how many shorter counts the last repeat had that failed with all of them
    vain: usize,
    requests: Requests<A>,
}

impl<A: Allocator> Model for Board<A> {
    ghost use Rattle.std.specs.Prelude.{◌<◌, ◌≡◌, length, reverse};
    ghost use Rattle.sre_turns.specs.Board.{BoardValue};
    ghost use Rattle.sre_board.specs.Choices.{board_of, Fits, regions_in};

    ghost Value = { BoardValue };

    ghost view = { λ b. board_of b.trail b.chains b.frame b.choices.items };

    ghost invariant = { λ b.
        (b.frame < length b.chains) × Fits (reverse b.choices.items) (length b.chains) (length b.trail.past)
        × (b.regions ≡ regions_in (reverse b.choices.items)) };
}

impl<A: Allocator + Copy> Board<A> {
    /// An empty stack without captures. It allocates nothing.
    #[inline(always)]
    pub fn new(alloc: A) -> Board<A>
        ensures { result ≡ bare no_marks }
    {
        Board {
            trail: Trail::new(alloc),
            chains: Chains::new(alloc),
            frame: 0,
            choices: Vec::new(alloc),
            regions: 0,
            passed: 0,
            entered: 0,
            vain: 0,
            requests: Requests::new(alloc),
        }
    }

    /// The stack's allocator.
    #[inline(always)]
    pub fn allocator(&self) -> A {
        *self.choices.allocator()
    }
}

impl<A: Allocator> Board<A> {
    /// The captures.
    #[inline(always)]
    pub fn marks(&self) -> &Marks<A>
        ensures { result.now ≡ self.now.marks }
    {
        self.trail.marks()
    }

    /// Start and end of group `g`, counted from 0, if both are set and in order. Positions count characters.
    #[inline(always)]
    pub fn group(&self, g: u32) -> Option<(usize, usize)>
        ensures { result ≡ group self.now.marks g }
    {
        match self.trail.marks().get(g as usize) {
            (Some(start), Some(end)) if start <= end => Some((start, end)),
            _ => None,
        }
    }

    /// Whether it has much memory, for choices, changes, chains or capture slots: some thousand bytes or more.
    pub fn is_large(&self) -> bool {
        self.choices.capacity() > MANY
            || self.chains.capacity() > MANY
            || self.trail.capacity() > MANY
    }

    /// Whether an atomic scope is open.
    #[inline(always)]
    pub fn is_inside(&self) -> bool
        ensures { result ≡ is_inside self.now.choices }
    {
        self.regions != 0
    }

    /// The chains, and the number of the chain of the loops in progress.
    #[inline(always)]
    pub(crate) fn loops(&self) -> (&Chains<A>, usize)
        ensures there { result.1 < length result.0.now }
        ensures frames { slice_index_or result.0.now result.1 [] ≡ self.now.frames }
    {
        (&self.chains, self.frame)
    }

    /// The choice at a depth below the newest one, and the chains, of which its own is one.
    #[inline(always)]
    pub(crate) fn saved(&self, depth: usize) -> Option<(&Chains<A>, Saved)>
        ensures room { IfSome result (λ _. depth + 1 < 2 ^ 64) }
        ensures waits { MatchOption result (length self.now.choices ≤ depth)
            (λ x. (x.1.frame < length x.0.now)
            × WaitsAt self.now.choices depth x.1.point (slice_index_or x.0.now x.1.frame []) x.1.cursor) }
    {
        if depth >= self.choices.len() {
            return None;
        }
        Some((&self.chains, self.choices[self.choices.len() - 1 - depth]))
    }

    /// Drops captures, choices and loops, and keeps the memory. The counts stay, since they belong to a whole search,
    /// and so does the last failed repeat, which is noted from one search to the next.
    #[inline(always)]
    pub fn clear(&mut self)
        ensures { self.new ≡ bare no_marks }
    {
        self.choices.clear();
        self.trail.clear();
        self.frame = 0;
        self.chains.clear();
        self.regions = 0;
    }

    /// Sets capture slot `n` to `position`. After an error only `clear` may follow.
    #[inline(always)]
    pub fn set(&mut self, n: u32, position: usize) -> Result<(), Refusal<A>>
        ensures { IfOk result (λ _. self.new ≡ record self.old { marks = set_mark self.old.marks n position }) }
    {
        if self.choices.is_empty() {
            return self.trail.set_for_good(n, position);
        }
        let (_chains, needed) = needs(&self.choices);
        self.trail.set_behind(n, position, needed)
    }

    /// Pushes a choice: to continue at a point and a cursor, with the present captures.
    #[inline(always)]
    pub fn save(&mut self, point: Point, cursor: StringCursor) -> Result<(), Refusal<A>>
        ensures { IfOk result (λ _. self.new ≡ record self.old {
          choices = choice point self.old.frames cursor self.old.marks ∷ self.old.choices;
        }) }
    {
        self.add(point, cursor)
    }

    // Pushes a choice. If an allocation fails the stack is unchanged. Most lists have room for one more, so that is
    // tested first, and the choice is written at once.
    #[inline(always)]
    fn add(&mut self, point: Point, cursor: StringCursor) -> Result<(), Refusal<A>>
        ensures saved { IfOk result (λ _. self.new ≡ record self.old {
          choices = choice point self.old.frames cursor self.old.marks ∷ self.old.choices;
        }) }
        ensures left { OnErr result (self.new ≡ self.old) }
        ensures refused { OnErr result (Refused A) }
    {
        if self.choices.len() < self.choices.capacity() {
            self.choices.push_reserved(Saved {
                point,
                cursor,
                frame: self.frame,
                chains: self.chains.count(),
                changes: self.trail.length(),
            });
            self.regions += regions_of(point);
            return Ok(());
        }
        self.add_grown(point, cursor)
    }

    // Pushes a choice if the list has to grow.
    #[inline(never)]
    fn add_grown(&mut self, point: Point, cursor: StringCursor) -> Result<(), Refusal<A>>
        ensures saved { IfOk result (λ _. self.new ≡ record self.old {
          choices = choice point self.old.frames cursor self.old.marks ∷ self.old.choices;
        }) }
        ensures left { OnErr result (self.new ≡ self.old) }
        ensures refused { OnErr result (Refused A) }
    {
        let saved = Saved {
            point,
            cursor,
            frame: self.frame,
            chains: self.chains.count(),
            changes: self.trail.length(),
        };
        sre_growth::push(&mut self.choices, saved)?;
        self.regions += regions_of(point);
        Ok(())
    }

    /// Pushes a marker that an instruction or a possessive loop is tried; its choices will be above the marker. Returns
    /// whether that succeeded. If an allocation fails the stack is unchanged.
    #[inline(always)]
    pub fn begin_trying(&mut self, point: Point, cursor: StringCursor) -> bool
        requires { MayBeTried point }
        ensures marked { result ≡ true → self.new ≡ record self.old {
          choices = Trying point self.old.frames cursor self.old.marks ∷ self.old.choices;
        } }
        ensures left { result ≡ false → self.new ≡ self.old }
        ensures refused { result ≡ false → Refused A }
    {
        match self.add(mark_of(point), cursor) {
            Ok(()) => true,
            Err(_refusal) => false,
        }
    }

    /// Opens an atomic scope: pushes it, and sets the loops in progress aside until it ends.
    #[inline(always)]
    pub fn begin_region(&mut self, region: Region, cursor: StringCursor) -> Result<(), Refusal<A>>
        ensures { IfOk result (λ _. self.new ≡ record self.old {
          frames = [];
          choices = Keep region self.old.frames cursor self.old.marks ∷ self.old.choices;
        }) }
    {
        self.save(Point::Inside(region), cursor)?;
        self.frame = self.chains.empty();
        Ok(())
    }

    /// Ends the innermost atomic scope, if there is one: drops the choices inside it, and keeps the captures. It
    /// allocates nothing.
    #[inline(always)]
    pub fn cut(&mut self) -> Option<(Region, StringCursor)>
        ensures { MatchOption result
            ((from_region self.old.choices ≡ []) × (self.new ≡ self.old))
            (λ x. Cuts self.old x.0 x.1 self.new) }
    {
        if self.regions == 0 {
            return None;
        }
        let (region, saved) = innermost(&mut self.choices)?;
        self.regions -= 1;
        self.chains.cut(saved.chains);
        self.frame = saved.frame;
        Some((region, saved.cursor))
    }

    /// Pops the newest choice, and restores its captures. It allocates nothing.
    #[inline(always)]
    pub fn back(&mut self) -> Option<(Point, StringCursor)>
        ensures { MatchOption result
            ((self.old.choices ≡ []) × (self.new ≡ self.old))
            (λ x. self.old.choices ≡ choice x.0 self.new.frames x.1 self.new.marks ∷ self.new.choices) }
    {
        let saved = self.choices.pop()?;
        self.regions -= regions_of(saved.point);
        self.trail.back(saved.changes);
        self.chains.cut(saved.chains);
        self.frame = saved.frame;
        Some((saved.point, saved.cursor))
    }

    /// Pops the newest choice if it continues right here: at this instruction and cursor, with the present loops, and,
    /// if they matter, the present captures. It allocates nothing.
    #[inline(always)]
    pub fn drop_same(&mut self, place: usize, cursor: StringCursor, marks_matter: bool)
        ensures { Dropped place cursor marks_matter self.old self.new }
    {
        if self.choices.is_empty() {
            return;
        }
        let newest = self.choices[self.choices.len() - 1];
        let changes = self.trail.length();
        if goes_on_at(newest, place, cursor, self.frame, changes, marks_matter) {
            let _newest = self.choices.pop();
        }
    }

    /// Counts a step. Once for 4,096 of them it makes a small memory request, so an allocator that refuses ends a run,
    /// however long that would take.
    #[inline(always)]
    pub fn ask_allocator(&mut self) -> Result<(), Refusal<A>>
        ensures { self.new ≡ self.old }
    {
        self.requests.step()
    }

    /// Notes that a step scanned so many characters. It ignores stretches of less than 64 characters, which take the
    /// time of a few steps.
    #[inline(always)]
    pub fn pass(&mut self, characters: usize)
        ensures { self.new ≡ self.old }
    {
        if characters >= 64 {
            self.passed = self.passed.saturating_add(characters);
            self.requests.pass(characters);
        }
    }

    /// How many scanned characters were noted since the last call.
    #[inline(always)]
    pub fn take_passed(&mut self) -> usize
        ensures { self.new ≡ self.old }
    {
        replace(&mut self.passed, 0)
    }

    /// Notes that so many loop bodies began as one batch.
    #[inline(always)]
    pub fn note_bodies(&mut self, bodies: usize)
        ensures { self.new ≡ self.old }
    {
        self.entered = self.entered.wrapping_add(bodies);
    }

    /// How many loops and loop bodies began since the last call.
    #[inline(always)]
    pub fn take_entered(&mut self) -> usize
        ensures { self.new ≡ self.old }
    {
        replace(&mut self.entered, 0)
    }

    /// Notes that a repeat had so many shorter counts, and that all of them failed.
    #[inline(always)]
    pub fn note_vain(&mut self, counts: usize)
        ensures { self.new ≡ self.old }
    {
        self.vain = counts;
    }

    /// Whether the last failed repeat had 64 or more shorter counts.
    #[inline(always)]
    pub fn ran_long_in_vain(&self) -> bool {
        self.vain >= 64
    }

    /// Whether it pays to search so many characters for what the next repeat needs after it. By `LOOK_SPEED` that takes
    /// less time than the last failed repeat did.
    #[inline(always)]
    pub fn is_look_worth(&self, characters: usize) -> bool {
        self.vain > characters / LOOK_SPEED
    }

    /// The innermost loop in progress.
    #[inline(always)]
    pub fn top(&self) -> Frame
        requires { 0 < length self.now.frames }
        ensures { self.now.frames ≡ result ∷ drop 1 self.now.frames }
    {
        frame_of(self.chains.node(self.frame))
    }

    /// Leaves the innermost loop, if there is one. Its chain is dropped if no choice needs it.
    #[inline(always)]
    pub fn leave(&mut self)
        ensures { self.new ≡ record self.old { frames = drop 1 self.old.frames } }
    {
        let id = self.frame;
        if self.chains.is_empty(id) {
            return;
        }
        self.frame = self.chains.node(id).parent;
        let (kept, _changes) = needs(&self.choices);
        if kept < id {
            self.chains.cut(id - 1);
        }
    }

    /// Begins a loop, or a body of one.
    #[inline(always)]
    pub fn enter(&mut self, frame: Frame) -> Result<(), Refusal<A>>
        ensures { IfOk result (λ _. self.new ≡ record self.old { frames = frame ∷ self.old.frames }) }
    {
        self.ask_allocator()?;
        self.push_loop(frame)
    }

    #[inline(always)]
    fn push_loop(&mut self, frame: Frame) -> Result<(), Refusal<A>>
        ensures { IfOk result (λ _. self.new ≡ record self.old { frames = frame ∷ self.old.frames }) }
    {
        self.frame = self.chains.push(frame, self.frame)?;
        self.entered = self.entered.wrapping_add(1);
        Ok(())
    }
}
