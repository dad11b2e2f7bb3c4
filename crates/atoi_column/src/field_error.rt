//! What is wrong with a field that `Fields` refuses.
ghost use Rattle.std.specs.Prelude.{◌≡◌, ◌+◌, ◌-◌, ◌^◌, ◌≤◌, ◌↔◌, IsTrue, IsAscii, min, take};
ghost use Rattle.atoi_core.specs.Refusal.{refusal_of};
ghost use Rattle.atoi_column.specs.ErrorText.{fault_text, unexpected_place, bad_field_text};
ghost use Rattle.atoi_column.specs.FieldItems.{bad_field_of};

use crate::text::{MOST_BYTES, fault, put_bytes, put_decimal, put_field};
use atoi_core::clones_are_the_same;
use atoi_simd::AtoiSimdError;
use std::error::Error;
use std::fmt;
use std::str::from_utf8;

/// A field that is not a number of the type, and why.
///
/// ```
/// use torkettle::AtoiSimdError;
/// use torkettle::column::Fields;
///
/// let error = Fields::<u8>::new(b"80,+44x", b',').find_map(Result::err).unwrap();
/// assert_eq!((error.index, error.place, error.text), (1, 3, &b"+44x"[..]));
/// assert_eq!(error.cause, AtoiSimdError::Invalid64(44, 2, b"44x"));
/// assert_eq!(error.to_string(), "field 1 at byte 3 has an unexpected byte at byte 6");
/// ```
///
/// See the [guide](crate::guide#read-columns-and-lines).
#[derive(Debug, Clone, Copy, PartialEq, Eq)]
pub struct FieldError<'a> {
    /// How many fields precede it.
    pub index: usize,
    /// The offset of its first byte in the input.
    pub place: usize,
    /// Its bytes.
    pub text: &'a [u8],
    /// What `parse` returned for `text`. A slice in it ends where `text` ends.
    pub cause: AtoiSimdError<'a>,
}

impl FieldError<'_> {
    /// Returns the number of the field, from 1. If the fields are lines, this is the line number.
    ///
    /// **Proved:** it is one more than the index [as specified](crate::specification#columns).
    ///
    /// ```
    /// use torkettle::column::Fields;
    ///
    /// let error = Fields::<u8>::lines(b"80\n44x").find_map(Result::err).unwrap();
    /// assert_eq!(error.line(), 2);
    /// ```
    #[inline]
    pub fn line(&self) -> usize
        ensures { result ≡ min (self.now.index + 1) (2 ^ 64 - 1) }
    {
        self.index.saturating_add(1)
    }

    /// Says what is wrong with the field, in words that follow its name.
    #[doc(hidden)]
    pub fn fault(&self) -> &'static str
        ensures { result.now ≡ fault_text (refusal_of self.now.cause) }
    {
        fault(self.cause)
    }

    /// Returns what `==` returns.
    #[doc(hidden)]
    pub fn is_same_as(&self, other: &FieldError<'_>) -> bool
        ensures { IsTrue result ↔ (bad_field_of self.now ≡ bad_field_of other.now) }
    {
        self == other
    }

    // Writes the message to the start of `out`, and returns its length.
    fn put_message(&self, out: &mut [u8; MOST_BYTES]) -> usize
        ensures text { take result out.new ≡ bad_field_text (bad_field_of self.now) }
        ensures fits { result ≤ MOST_BYTES }
        ensures ascii { IsAscii (bad_field_text (bad_field_of self.now)) }
    {
        let end = put_field(self.index, self.place, self.cause, out);
        match unexpected_place(self.place, self.text, self.cause) {
            Some(byte) => {
                let end = put_bytes(b" at byte ", out, end);
                put_decimal(byte, out, end)
            }
            None => end,
        }
    }
}

fn clones() {
    clones_are_the_same::<FieldError<'_>>();
}

impl fmt::Display for FieldError<'_> {
    ghost use Rattle.std.specs.Prelude.{Some};

    ghost output = { λ error. Some (bad_field_text (bad_field_of error)) };

    ghost styled_output = { λ error _. Some (bad_field_text (bad_field_of error)) };

    fn fmt<W: fmt::Write>(&self, f: &mut fmt::Formatter<W>) -> fmt::Result {
        let mut out = [0; MOST_BYTES];
        let length = self.put_message(&mut out);
        f.write_str(from_utf8(&out[..length]).unwrap())
    }
}

// Returns the offset in the input of the byte that ends the digits of the field `text`, if one does.
fn unexpected_place(place: usize, text: &[u8], cause: AtoiSimdError<'_>) -> Option<u128>
    ensures { result ≡ unexpected_place place text.now (refusal_of cause.entry) }
{
    match cause {
        AtoiSimdError::Invalid64(_, index, body) | AtoiSimdError::Invalid128(_, index, body) => {
            let sign = text.len().saturating_sub(body.len());
            Some(place as u128 + sign as u128 + index as u128)
        }
        _ => None,
    }
}

impl Error for FieldError<'_> {}
