//! The lists of a table, owned or lent.

ghost use Rattle.std.specs.Prelude.{◌≡◌, ℕ, map, nat_le};
ghost use Rattle.std.specs.List.Sorted.{IsNonDecreasingBy};
ghost use Rattle.sre_chars.specs.Tables.{last_up_to};
ghost use Rattle.sre_chars.specs.Lists.{entries_in};

/// An entry of a lent list: (from, to) of a case map, or (low, high) of a range with both ends included. It has the
/// layout of the same struct in C.
#[repr(C)]
#[derive(Clone, Copy, PartialEq, Eq, Debug)]
pub struct UniPair {
    pub low: u32,
    pub high: u32,
}

/// A type of entries.
pub trait Entry: Copy {
    // Its two numbers.
    ghost pair: { Self → ℕ × ℕ };

    /// Its two numbers, from or low first.
    fn pair(self) -> (u32, u32)
        ensures { result ≡ pair self };
}

impl Entry for (u32, u32) {
    ghost pair = { λ e. e };

    #[inline(always)]
    fn pair(self) -> (u32, u32) {
        self
    }
}

impl Entry for UniPair {
    ghost pair = { λ e. (e.low, e.high) };

    #[inline(always)]
    fn pair(self) -> (u32, u32) {
        (self.low, self.high)
    }
}

/// A list of a table.
#[derive(Drop)]
pub enum Entries<'t> {
    Kept(Vec<(u32, u32)>),
    Lent(&'t [UniPair]),
}

impl<'t> Entries<'t> {
    /// The last entry whose first number is at most `ch`.
    pub fn last_up_to(&self, ch: u32) -> Option<(u32, u32)>
        requires { IsNonDecreasingBy (λ e. e.0) (entries_in self.now) }
        ensures { result ≡ last_up_to (entries_in self.now) ch }
    {
        match self {
            Entries::Kept(entries) => last_up_to(entries.as_slice(), ch),
            Entries::Lent(entries) => last_up_to(entries, ch),
        }
    }
}

// Most characters of texts come before the entry at this place of a long list.
const NEAR: usize = 32;

// The entries before that place, if the one there begins above `ch`; else all.
#[inline(always)]
fn near<E: Entry>(entries: &[E], ch: u32) -> &[E]
    requires { IsNonDecreasingBy (λ e. (E.pair e).0) entries.now }
    ensures rises { IsNonDecreasingBy (λ e. (E.pair e).0) result.now }
    ensures same { last_up_to (map E.pair result.now) ch ≡ last_up_to (map E.pair entries.now) ch }
{
    if entries.len() > NEAR && ch < entries[NEAR].pair().0 {
        return entries.split_at(NEAR).0;
    }
    entries
}

// The last entry whose first number is at most `ch`.
fn last_up_to<E: Entry>(entries: &[E], ch: u32) -> Option<(u32, u32)>
    requires { IsNonDecreasingBy (λ e. (E.pair e).0) entries.now }
    ensures { result ≡ last_up_to (map E.pair entries.now) ch }
{
    let entries = near(entries, ch);
    let count = entries.partition_point(
        |entry: &E| -> bool
            ensures { result ≡ nat_le (E.pair entry.now).0 ch }
        { entry.pair().0 <= ch },
    );
    if count == 0 {
        None
    } else {
        Some(entries[count - 1].pair())
    }
}
