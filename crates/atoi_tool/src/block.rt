//! The block in which answers wait until they are written, many at a time.
ghost use Rattle.std.specs.Prelude.{◌≡◌, ◌+◌, ◌≤◌, ℕ, List, [], ◌++◌, length, take, decimal, OnOk};
ghost use Rattle.atoi_tool.specs.Failures.{failures_of, PutAppends};

use crate::sink::{Sink, put_all};
use crate::status::Refused;
use atoi_core::decimal;
use std::marker::Model;

/// How many bytes a `Block` can hold.
pub const ROOM: usize = 8192;

const DIGITS: usize = 39;

/// The longest number: a minus and 39 digits.
pub const NUMBER: usize = 1 + DIGITS;

/// The length of the longest text of an error.
pub const ERROR: usize = 332;

/// The length of the longest text that is appended at once: " err field ", an index, " ", a place, ": "
/// and the text of an error.
pub const LONGEST: usize = 11 + NUMBER + 1 + NUMBER + 2 + ERROR;

/// Bytes that are still to be written, at most `ROOM` of them.
#[derive(Drop)]
pub struct Block {
    bytes: [u8; ROOM],
    len: usize,
}

impl Model for Block {
    ghost Value = { List ℕ };

    ghost view = { λ block. take block.len block.bytes };

    // `ROOM`, which no ghost member can name.
    ghost invariant = { λ block. block.len ≤ 8192 };
}

impl Block {
    pub fn new() -> Block
        ensures { result ≡ [] }
    {
        Block {
            bytes: [0; ROOM],
            len: 0,
        }
    }

    pub fn as_bytes(&self) -> &[u8]
        ensures { result.now ≡ self.now }
    {
        &self.bytes[..self.len]
    }

    /// Appends `bytes`, for which there must be room.
    pub fn push(&mut self, bytes: &[u8])
        requires { length self.old + length bytes.now ≤ ROOM }
        ensures { self.new ≡ self.old ++ bytes.now }
    {
        let end = self.len + bytes.len();
        self.bytes[self.len..end].copy_from_slice(bytes);
        self.len = end;
    }

    /// Appends `value` in decimal, for which there must be room.
    #[tactic(auto, using(crate::proofs::lemmas::Appended::take_of_room))]
    pub fn push_decimal(&mut self, value: u128)
        requires { length self.old + DIGITS ≤ ROOM }
        ensures text { self.new ≡ self.old ++ decimal value }
        ensures length { length self.new ≤ length self.old + DIGITS }
    {
        let room = &mut self.bytes[self.len..self.len + DIGITS];
        self.len += decimal_in(room, value);
    }

    pub fn clear(&mut self)
        ensures { self.new ≡ [] }
    {
        self.len = 0;
    }

    /// Leaves room for `LONGEST` bytes, after a write of all bytes to `output` if there is less.
    pub fn make_room<S: Sink>(&mut self, output: &mut S) -> Result<(), Refused>
        ensures output { PutAppends (S.contents output.old) (S.contents output.new) result self.old self.new }
        ensures room { OnOk result (length self.new + LONGEST ≤ ROOM) }
        ensures failures { S.failures output.new ≡ S.failures output.old + failures_of result }
    {
        if self.as_bytes().len() > ROOM - LONGEST {
            put_all(self.as_bytes(), output)?;
            self.clear();
        }
        Ok(())
    }

    /// Appends `bytes`, at most `LONGEST` of them, after a write to `output` if there is no room.
    pub fn append<S: Sink>(&mut self, bytes: &[u8], output: &mut S) -> Result<(), Refused>
        requires { length bytes.now ≤ LONGEST }
        ensures output { PutAppends (S.contents output.old) (S.contents output.new) result (self.old ++ bytes.now) self.new }
        ensures failures { S.failures output.new ≡ S.failures output.old + failures_of result }
    {
        self.make_room(output)?;
        self.push(bytes);
        Ok(())
    }
}

// Writes `value` in decimal to the start of `room`, and returns how many digits it has.
fn decimal_in(room: &mut [u8], value: u128) -> usize
    requires { length room.old ≡ DIGITS }
    ensures digits { take result room.new ≡ decimal value }
    ensures fits { result ≤ DIGITS }
{
    match room.as_mut_array() {
        Some(digits) => decimal(value, digits),
        None => unreachable!(),
    }
}
