//! Many numbers per call.
ghost use Rattle.std.specs.Prelude.{◌≡◌, ◌+◌, ◌<◌, ◌≤◌, ◌∷◌, ◌++◌, true, Ok, length, take, drop, map, IsFalse, IfSome, IfNone};
ghost use Rattle.atoi_column.specs.Fields.{is_separator};
ghost use Rattle.atoi_column.specs.FieldItems.{field_items_left, after_first_field};
ghost use Rattle.atoi_column.specs.FirstField.{IsAcceptedField};
ghost use Rattle.atoi_column.specs.Reads.{BeginsWithNoNumber, FillsMore, after_fields};

use crate::fields::{Fields, accepted_field, read_field};
use crate::guesses::{
    Guess, NO_GUESS, end_of, fits_word, guess_after, number_of_digits, number_with_end,
};
use crate::laws::fields_are_prefixes;
use crate::words::starts_with;
use atoi_core::laws::{accepted_texts, prefix_is_whole};
use atoi_simd::Parse;

// How many fields are read before a guess, at least and at most.
const PART: usize = 4;

const LONG_PART: usize = 1024;

// A text of fewer bytes is read without a guess.
const SHORT_TEXT: usize = 64;

const LONG: Guess = Guess {
    mostly_one_digit: false,
    ..NO_GUESS
};

const WITH_MINUS: Guess = Guess {
    have_minus: true,
    ..LONG
};

impl<'a, T: Parse> Fields<'a, T> {
    /// Writes the numbers of the next fields to the front of `values`, and returns how many there are. If
    /// that is fewer than `values` has room for, it stopped at the end or before a field that is refused,
    /// whose error `next` then returns. The other values stay as they are.
    ///
    /// A column of numbers with equally many digits, from 3 to 16, is read faster than by `next`.
    ///
    /// **Proved:** the values are the numbers of the next fields [as specified](crate::specification#columns).
    ///
    /// ```
    /// use torkettle::column::Fields;
    ///
    /// let mut fields = Fields::<u8>::new(b"1,22,x,3", b',');
    /// let mut numbers = [0; 64];
    /// assert_eq!(fields.read(&mut numbers), 2);
    /// assert_eq!(numbers[..2], [1, 22]);
    /// assert_eq!(fields.next().unwrap().unwrap_err().text, b"x");
    /// assert_eq!(fields.read(&mut numbers), 1);
    /// assert_eq!(fields.next(), None);
    /// ```
    pub fn read(&mut self, values: &mut [T]) -> usize
        ensures within { result ≤ length values.old }
        ensures numbers { field_items_left T.int_type self.old
            ≡ map (λ value. Ok (T.number value)) (take result values.new)
            ++ field_items_left T.int_type self.new }
        ensures others { drop result values.new ≡ drop result values.old }
        ensures moves { self.new ≡ after_fields result self.old }
        ensures stops { result < length values.old
            → BeginsWithNoNumber (field_items_left T.int_type self.new) }
    {
        let mut read = 0;
        let mut part = if self.rest.len() < SHORT_TEXT {
            SHORT_TEXT
        } else {
            PART
        };
        let mut guess = NO_GUESS;
        while read < values.len() {
            let most = part.min(values.len() - read);
            let before = self.rest.len();
            let found = self.read_plain(values, read, most, guess);
            let from = read;
            read += found;
            if found < most || read == values.len() {
                break;
            }
            let used = before.saturating_sub(self.rest.len());
            guess = guess_after(&values[from..read], used, self.rest, self.is_lines);
            let run = self.read_guessed(values, read, guess);
            read += run;
            part = if run < PART {
                (16 * part).min(LONG_PART)
            } else {
                PART
            };
        }
        read
    }

    // `read_part` for numbers of any width.
    #[inline(always)]
    fn read_plain(&mut self, values: &mut [T], from: usize, most: usize, guess: Guess) -> usize
        requires { from + most ≤ length values.old }
        ensures within { result ≤ most }
        ensures fills { FillsMore T.int_type T.number self.old self.new values.old values.new from
            result }
        ensures stops { result < most → BeginsWithNoNumber (field_items_left T.int_type self.new) }
    {
        // Each case has a loop of its own, since `read_part` is inlined.
        if guess.mostly_one_digit {
            self.read_part::<false>(values, from, most, NO_GUESS)
        } else if T::SIGNED && guess.have_minus {
            self.read_part::<false>(values, from, most, WITH_MINUS)
        } else {
            self.read_part::<false>(values, from, most, LONG)
        }
    }

    // If fields are guessed to have equally many digits, reads numbers of so many to `values[from..]`: no
    // read waits for the end of the number before.
    #[inline(never)]
    fn read_guessed(&mut self, values: &mut [T], from: usize, guess: Guess) -> usize
        requires { from ≤ length values.old }
        ensures within { from + result ≤ length values.old }
        ensures fills { FillsMore T.int_type T.number self.old self.new values.old values.new from
            result }
    {
        let room = values.len() - from;
        let plain = Guess {
            has_return: false,
            ..guess
        };
        // Each case has a loop of its own, since `read_part` is inlined.
        match guess.width {
            0..=1 => 0,
            _ if fits_word(guess) => self.read_part::<true>(values, from, room, guess),
            2..=16 if guess.has_return => self.read_part::<true>(values, from, room, guess),
            2..=8 => self.read_part::<true>(values, from, room, plain),
            9..=16 => self.read_part::<true>(values, from, room, plain),
            _ => self.read_part::<true>(values, from, room, guess),
        }
    }

    // Reads at most `most` numbers to `values[from..]`. With `GUESSES`, they look as guessed.
    #[inline(always)]
    fn read_part<const GUESSES: bool>(
        &mut self,
        values: &mut [T],
        from: usize,
        most: usize,
        guess: Guess,
    ) -> usize
        requires { from + most ≤ length values.old }
        ensures within { result ≤ most }
        ensures fills { FillsMore T.int_type T.number self.old self.new values.old values.new from
            result }
        ensures stops { IsFalse GUESSES → result < most
            → BeginsWithNoNumber (field_items_left T.int_type self.new) }
    {
        // The smaller one of both, so that rustc 1.95 tests no index below it.
        let end = values.len().min(from + most);
        // While numbers are written to memory, these fields stay in registers.
        let mut fields = Fields { ..*self };
        let mut at = from;
        while at < end {
            let next = if GUESSES {
                fields.guessed_number(guess)
            } else {
                fields.next_number(guess)
            };
            match next {
                Some(value) => {
                    values[at] = value;
                    at += 1;
                }
                None => break,
            }
        }
        *self = fields;
        at - from
    }

    // `next_number`, if the field looks as guessed.
    #[inline(always)]
    fn guessed_number(&mut self, guess: Guess) -> Option<T>
        ensures some { IfSome result (λ value. (field_items_left T.int_type self.old
            ≡ Ok (T.number value) ∷ field_items_left T.int_type self.new)
            × (self.new ≡ after_first_field self.old)) }
        ensures none { IfNone result (self.new ≡ self.old) }
    {
        let (rest, index) = (self.rest, self.index);
        let (value, following) = guessed_field::<T>(rest, self.separator, self.is_lines, guess)?;
        self.index = index + 1;
        self.rest = following;
        Some(value)
    }

    // Returns the number of the next field, if it is one. Otherwise, nothing changes.
    #[inline(always)]
    fn next_number(&mut self, guess: Guess) -> Option<T>
        ensures some { IfSome result (λ value. (field_items_left T.int_type self.old
            ≡ Ok (T.number value) ∷ field_items_left T.int_type self.new)
            × (self.new ≡ after_first_field self.old)) }
        ensures none { IfNone result ((self.new ≡ self.old)
            × BeginsWithNoNumber (field_items_left T.int_type self.old)) }
    {
        let (rest, index) = (self.rest, self.index);
        if rest.is_empty() {
            return None;
        }
        match accepted_field::<T>(rest, self.separator, self.is_lines, guess) {
            Some((value, following)) => {
                self.index = index + 1;
                self.rest = following;
                Some(value)
            }
            None => {
                let place = self.end - rest.len();
                let (item, following) = read_field(
                    rest,
                    self.separator,
                    self.is_lines,
                    index,
                    place,
                );
                let value: T = item.ok()?;
                self.index = index + 1;
                self.rest = following;
                Some(value)
            }
        }
    }
}

// `accepted_field`, if the field looks as guessed.
#[inline(always)]
fn guessed_field<T: Parse>(
    rest: &[u8],
    separator: u8,
    is_lines: bool,
    guess: Guess,
) -> Option<(T, &[u8])>
    ensures some { IfSome result (λ found. 0 < length rest.now) }
    ensures accepted { is_separator separator ≡ true → IfSome result (λ found. IsAcceptedField T.int_type
        is_lines separator rest.now (T.number found.0) found.1.now) }
{
    fields_are_prefixes::<T>();
    accepted_texts::<T>();
    prefix_is_whole::<T>();
    let (end_word, end_len) = end_of(separator, is_lines, guess.has_return);
    if fits_word(guess) {
        let (value, count) = number_with_end::<T>(rest, guess.width, end_word, end_len)?;
        return Some((value, &rest[count + end_len..]));
    }
    let (value, count) = number_of_digits::<T>(rest, guess.width)?;
    if !starts_with(&rest[count..], end_word, end_len) {
        return None;
    }
    Some((value, &rest[count + end_len..]))
}
