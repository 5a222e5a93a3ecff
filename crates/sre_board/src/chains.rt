//! The loops in progress, as chains of frames that share their ends.
//!
//! A chain has a number, so a choice stores its loops as one number.

ghost use Rattle.std.specs.Prelude.{true, false, ◌≡◌, ◌+◌, ◌<◌, ◌≤◌, ◌++◌, ◌∷◌, [], length, take, IfOk, slice_index_or};
ghost use Rattle.sre_board.specs.Choices.{frame_of};

use sre_growth::Refusal;
use sre_turns::Frame;
use std::alloc::Allocator;
use std::marker::Model;

/// A frame in four words, and the number of the chain below it.
#[derive(Clone, Copy)]
pub(crate) struct Node {
    pub repeat: usize,
    pub last: usize,
    pub parent: usize,
    pub count: u32,
    pub is_beyond: bool,
}

// The node of a frame on a chain.
#[inline(always)]
fn node_of(frame: Frame, parent: usize) -> Node
    ensures frame { frame_of result ≡ frame }
    ensures parent { result.parent ≡ parent }
{
    match frame.last {
        None => Node {
            repeat: frame.repeat,
            last: 0,
            parent,
            count: frame.count,
            is_beyond: false,
        },
        Some(last) => Node {
            repeat: frame.repeat,
            last,
            parent,
            count: frame.count,
            is_beyond: true,
        },
    }
}

/// The frame of a node.
#[inline(always)]
pub(crate) fn frame_of(node: Node) -> Frame
    ensures { result ≡ frame_of node }
{
    Frame {
        repeat: node.repeat,
        count: node.count,
        last: if node.is_beyond {
            Some(node.last)
        } else {
            None
        },
    }
}

/// The chains: the empty one, with number 0, and those that were pushed.
#[derive(Drop)]
pub(crate) struct Chains<A: Allocator> {
    nodes: Vec<Node, A>,
}

impl<A: Allocator> Model for Chains<A> {
    ghost use Rattle.std.specs.Prelude.{List};
    ghost use Rattle.sre_board.specs.Choices.{table, Based};
    ghost use Rattle.sre_turns.specs.declared.Frame.{Frame};

    ghost Value = { List (List Frame) };

    ghost view = { λ c. table c.nodes.items };

    ghost invariant = { λ c. Based c.nodes.items };
}

impl<A: Allocator + Copy> Chains<A> {
    /// The empty chain alone. It allocates nothing.
    #[inline(always)]
    pub(crate) fn new(alloc: A) -> Chains<A>
        ensures { result ≡ [] ∷ [] }
    {
        Chains {
            nodes: Vec::new(alloc),
        }
    }
}

impl<A: Allocator> Chains<A> {
    /// The number of chains beside the empty one.
    #[inline(always)]
    pub(crate) fn count(&self) -> usize
        ensures { length self.now ≡ result + 1 }
    {
        self.nodes.len()
    }

    /// How many chains there is room for.
    pub(crate) fn capacity(&self) -> usize {
        self.nodes.capacity()
    }

    /// The number of the empty chain.
    #[inline(always)]
    pub(crate) fn empty(&self) -> usize
        ensures chain { slice_index_or self.now result [] ≡ [] }
        ensures there { result < length self.now }
    {
        // a read of the nodes, without which the proof sees no chains
        let _nodes = self.nodes.len();
        0
    }

    /// Whether a chain is the empty one.
    #[inline(always)]
    pub(crate) fn is_empty(&self, id: usize) -> bool
        requires { id < length self.now }
        ensures empty { result ≡ true → slice_index_or self.now id [] ≡ [] }
        ensures other { result ≡ false → 0 < length (slice_index_or self.now id []) }
    {
        // a read of the nodes, without which the proof sees no chains
        let _nodes = self.nodes.len();
        id == 0
    }

    /// The newest node of a chain that is not empty.
    #[inline(always)]
    pub(crate) fn node(&self, id: usize) -> Node
        requires { 0 < length (slice_index_or self.now id []) }
        ensures chain { slice_index_or self.now id [] ≡ frame_of result ∷ slice_index_or self.now result.parent [] }
        ensures parent { result.parent < id }
        ensures there { id < length self.now }
    {
        self.nodes[id - 1]
    }

    /// Adds a chain, and returns its number.
    #[inline(always)]
    pub(crate) fn push(&mut self, frame: Frame, parent: usize) -> Result<usize, Refusal<A>>
        requires { parent < length self.old }
        ensures chain { IfOk result (λ _. self.new ≡ self.old ++ (frame ∷ slice_index_or self.old parent []) ∷ []) }
        ensures kept { length self.old ≤ length self.new }
        ensures id { IfOk result (λ id. id ≡ length self.old) }
    {
        sre_growth::push(&mut self.nodes, node_of(frame, parent))?;
        Ok(self.nodes.len())
    }

    /// Drops the later chains.
    #[inline(always)]
    pub(crate) fn cut(&mut self, keep: usize)
        requires { keep < length self.old }
        ensures { self.new ≡ take (keep + 1) self.old }
    {
        self.nodes.truncate(keep);
    }

    /// Drops all chains but the empty one, and keeps the memory.
    #[inline(always)]
    pub(crate) fn clear(&mut self)
        ensures { self.new ≡ [] ∷ [] }
    {
        self.nodes.clear();
    }
}
