//! What a load reports.
ghost use Rattle.std.specs.Prelude.{◌≡◌, ◌↔◌, IsTrue};

use crate::error::clones_are_the_same;

/// What is read of the first 8 or 16 bytes of a slice, or of all its bytes if there are fewer.
#[derive(Clone, Copy, PartialEq, Eq)]
pub struct Window {
    /// The number of digits at the start, at most 8 or 16.
    pub len: u32,
    /// The number of leading zeros if all 8 or 16 bytes are there and are digits, otherwise 0.
    pub zeroes: u32,
    /// The value of these digits, 0 without digits.
    pub number: u64,
}

impl Window {
    /// Returns what `==` returns.
    pub fn is_same_as(&self, other: &Window) -> bool
        ensures { IsTrue result ↔ (self.now ≡ other.now) }
    {
        self == other
    }

    /// A window that is not full, and so reports no zeros.
    pub fn not_full(len: u32, number: u64) -> Window
        ensures { result ≡ record { len = len; zeroes = 0; number = number } }
    {
        Window {
            len,
            zeroes: 0,
            number,
        }
    }
}

fn clones() {
    clones_are_the_same::<Window>();
}
