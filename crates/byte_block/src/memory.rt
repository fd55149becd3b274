// The memory of a block, lent byte by byte. What takes no bytes here is ghost state.
ghost use Rattle.std.specs.Prelude.{◌≡◌, ℕ, ◌+◌, ◌^◌, ◌<◌, ◌≤◌, List, [], ◌∷◌, ◌++◌, length, take, drop};
ghost use base.Fml.{ftrue, flft};
ghost use denote.RawPtr.{Ptr, ◌+ₚ◌};
ghost use denote.Sharing.{one};
ghost use Rattle.bytes.specs.Ownership.{Extent, extent_code, IsPlaced, block_owns};
ghost use Rattle.byte_block.specs.Memory.{emptied_owns, loan_owns, shown_owns};

use std::alloc::Global;
use std::marker::{Model, Move, Owns};
use std::slice;

// A `Vec` whose elements are out on loan.
pub(crate) struct Emptied {
    vec: Vec<u8, Global>,
}

impl Owns for Emptied {
    ghost Value = { Extent };

    ghost coded = { extent_code };

    ghost shr_at = { λ _ _ _. ftrue };
}

impl Move for Emptied {
    ghost own_val = { emptied_owns };
}

// The memory of a block, whose bytes are lent until the lifetime `life` ends. A `&` to it shows that
// `life` lasts.
pub(crate) struct Memory {
    emptied: Emptied,
    ghost life: { ℕ },
    ghost names: { List ℕ },
    ghost named: { length names ≡ emptied.len },
    ghost placed: { IsPlaced emptied.ptr },
}

impl Model for Memory {
    ghost also_owns = { λ m. block_owns m.life m.names m.emptied.ptr };

    ghost also_shares = { λ m _. one (λ q. flft (m.life ∷ []) q) };
}

// The right to write the bytes that lie `at` bytes into the block at `base`.
#[derive(Drop)]
pub(crate) struct Loan {
    ghost life: { ℕ },
    ghost names: { List ℕ },
    ghost base: { Ptr },
    ghost at: { ℕ },
    ghost items: { List ℕ },
    ghost placed: { IsPlaced base },
}

impl Model for Loan {
    ghost also_owns = { λ l. loan_owns l.life l.names l.base l.at l.items };
}

// The right to read `items`, which lie `at` bytes into the block at `base`, while `life` lasts. They
// stay as they are.
#[derive(Drop)]
pub(crate) struct Shown {
    ghost life: { ℕ },
    ghost base: { Ptr },
    ghost at: { ℕ },
    ghost items: { List ℕ },
    ghost placed: { IsPlaced base },
}

impl Model for Shown {
    ghost also_owns = { λ s. shown_owns s.life s.base s.at s.items };

    ghost also_shares = { λ s _ _. shown_owns s.life s.base s.at s.items };
}

// A `&` to it shows nothing.
unsafe impl Send for Emptied {}

unsafe impl Sync for Emptied {}

// A `&` to it shows only that a lifetime lasts.
unsafe impl Send for Memory {}

unsafe impl Sync for Memory {}

impl Memory {
    ghost use Rattle.byte_block.specs.Loaned.{LoanOf};

    // Lends all the bytes of a `Vec`.
    pub(crate) fn lend(vec: Vec<u8, Global>) -> (Memory, Loan)
        requires { 0 < vec.len }
        ensures { (result.0.emptied ≡ record { ptr = vec.ptr; len = vec.len })
            × LoanOf result.1 result.0.life result.0.names vec.ptr 0 vec.items }
    {
        (
            Memory {
                emptied: Emptied { vec },
            },
            Loan {},
        )
    }

    // Ends all loans.
    pub(crate) fn regain(self) -> Vec<u8, Global>
        ensures { result.len ≡ self.emptied.len }
    {
        let Memory { emptied } = self;
        let Emptied { vec } = emptied;
        vec
    }
}

impl Drop for Memory {
    fn drop(self) {
        drop(self.regain());
    }
}

impl Loan {
    ghost use Rattle.byte_block.specs.Loaned.{LoanOf, ShownAs};
    ghost use Rattle.byte_block.specs.Places.{AreApart};

    // A loan of no bytes, and the right to read none.
    pub(crate) fn nothing(&self) -> (Loan, Shown)
        ensures { LoanOf result.0 self.now.life self.now.names self.now.base self.now.at []
            × ShownAs result.1 self.now.life self.now.base self.now.at [] }
    {
        (Loan {}, Shown {})
    }

    pub(crate) fn cut(self, mid: usize) -> (Loan, Loan)
        requires { mid ≤ length self.items }
        ensures { LoanOf result.0 self.life self.names self.base self.at (take mid self.items)
            × LoanOf result.1 self.life self.names self.base (self.at + mid) (drop mid self.items) }
    {
        let Loan {} = self;
        (Loan {}, Loan {})
    }

    // Two loans of a block that are held at once have no place in common.
    pub(crate) fn apart<'a>(self, other: Loan, memory: &'a Memory) -> (Loan, Loan)
        requires { (self.life ≡ memory.now.life) × (other.life ≡ self.life) × (other.base ≡ self.base) }
        ensures { (result.0 ≡ self) × (result.1 ≡ other)
            × AreApart self.at (self.at + length self.items) other.at (other.at + length other.items) }
    {
        let Loan {} = self;
        let Loan {} = other;
        (Loan {}, Loan {})
    }

    // What may be written has no place in common with what may be read.
    pub(crate) fn unseen<'a>(self, seen: &'a Shown, memory: &'a Memory) -> Loan
        requires { (self.life ≡ memory.now.life) × (seen.now.life ≡ self.life) × (seen.now.base ≡ self.base) }
        ensures { (result ≡ self)
            × AreApart self.at (self.at + length self.items) seen.now.at (seen.now.at + length seen.now.items) }
    {
        let Loan {} = self;
        Loan {}
    }

    // Writes the bytes, which stay from here on.
    pub(crate) fn put(self, memory: &Memory, ptr: *mut u8, bytes: &[u8]) -> Shown
        requires { (self.life ≡ memory.now.life) × (ptr ≡ self.base +ₚ self.at)
            × (length self.items ≡ length bytes.now) × (length bytes.now < 2 ^ 63) }
        ensures { ShownAs result self.life self.base self.at bytes.now }
    {
        let Loan {} = self;
        let places = unsafe { slice::from_raw_parts_mut(ptr, bytes.len()) };
        copy_in(places, bytes);
        Shown {}
    }
}

fn copy_in(places: &mut [u8], bytes: &[u8])
    requires { length places.old ≡ length bytes.now }
    ensures { places.new ≡ bytes.now }
{
    places.copy_from_slice(bytes);
}

impl Shown {
    ghost use Rattle.byte_block.specs.Loaned.{ShownAs};
    ghost use Rattle.byte_block.specs.Places.{Agree};

    pub(crate) fn again(&self) -> Shown
        ensures { result ≡ self.now }
    {
        Shown {}
    }

    // The same right, whose bytes are those of another one wherever both have a place.
    pub(crate) fn agreed<'a>(&'a self, other: &'a Shown, memory: &'a Memory) -> Shown
        requires { (self.now.life ≡ memory.now.life) × (other.now.life ≡ self.now.life) × (other.now.base ≡ self.now.base) }
        ensures { (result ≡ self.now) × Agree self.now.at self.now.items other.now.at other.now.items }
    {
        Shown {}
    }

    // The bytes of both, which lie side by side.
    pub(crate) fn join(self, next: Shown) -> Shown
        requires { (next.life ≡ self.life) × (next.base ≡ self.base)
            × (next.at ≡ self.at + length self.items) }
        ensures { ShownAs result self.life self.base self.at (self.items ++ next.items) }
    {
        let Shown {} = self;
        let Shown {} = next;
        Shown {}
    }

    pub(crate) fn read<'a>(&'a self, memory: &'a Memory, ptr: *const u8, len: usize) -> &'a [u8]
        requires { (self.now.life ≡ memory.now.life) × (ptr ≡ self.now.base +ₚ self.now.at)
            × (len ≡ length self.now.items) × (len < 2 ^ 63) }
        ensures { result.now ≡ self.now.items }
    {
        unsafe { slice::from_raw_parts(ptr, len) }
    }
}
