//! Tests of the reader of commands.

use crate::checks::{gives, printed};
use atoi_simd::AtoiSimdError;
use atoi_uses::{Command, CommandError, Word, read_command};
use std::test::Fail;

fn set(number: i64) -> Result<Command, CommandError<'static>> {
    let word = Word::Set;
    Ok(Command { word, number })
}

fn incr_by(number: i64) -> Result<Command, CommandError<'static>> {
    let word = Word::IncrBy;
    Ok(Command { word, number })
}

#[test]
fn words_and_numbers(rt: HostRuntime) {
    gives(&rt, read_command(b"SET 42"), set(42));
    gives(&rt, read_command(b"SET 0"), set(0));
    gives(&rt, read_command(b"SET +007"), set(7));
    gives(&rt, read_command(b"INCRBY -7"), incr_by(-7));
    gives(
        &rt,
        read_command(b"INCRBY -9223372036854775808"),
        incr_by(-9223372036854775808),
    );
}

#[test]
fn other_words_are_refused(rt: HostRuntime) {
    let unknown = Err(CommandError::UnknownWord);
    gives(&rt, read_command(b""), unknown);
    gives(&rt, read_command(b"GET 42"), unknown);
    gives(&rt, read_command(b"set 42"), unknown);
    gives(&rt, read_command(b"SET"), unknown);
    gives(&rt, read_command(b"SETX 42"), unknown);
    gives(&rt, read_command(b" SET 42"), unknown);
    gives(&rt, read_command(b"INCR 42"), unknown);
    gives(&rt, read_command(b"INCRBY\t42"), unknown);
}

#[test]
fn errors_print(rt: HostRuntime) -> Result<(), Fail> {
    let unknown = printed(rt.alloc(), &CommandError::UnknownWord)?;
    gives(&rt, unknown.as_str(), "unknown word");
    let bad = printed(rt.alloc(), &CommandError::BadNumber(AtoiSimdError::Empty))?;
    gives(
        &rt,
        bad.as_str(),
        "no number after the word: atoi_simd string is empty",
    );
    Ok(())
}

#[test]
fn other_numbers_are_refused(rt: HostRuntime) {
    let empty = Err(CommandError::BadNumber(AtoiSimdError::Empty));
    gives(&rt, read_command(b"SET "), empty);
    gives(&rt, read_command(b"SET  42"), empty);
    gives(&rt, read_command(b"SET -"), empty);
    let number = AtoiSimdError::Invalid64(42, 2, b"42\r\n");
    gives(
        &rt,
        read_command(b"SET 42\r\n"),
        Err(CommandError::BadNumber(number)),
    );
    let number = AtoiSimdError::Overflow(b"9223372036854775808");
    gives(
        &rt,
        read_command(b"INCRBY 9223372036854775808"),
        Err(CommandError::BadNumber(number)),
    );
}
