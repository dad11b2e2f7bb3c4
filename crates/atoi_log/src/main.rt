//! Adds up the requests of a web server's access log, which it reads from standard input. Skips the
//! lines that have no status and size, and says why.
#![tactic(auto)]

use atoi_simd::{AtoiSimdError, Parse, parse_prefix};
use std::io::{self, BufRead, BufReader};

fn reason(error: AtoiSimdError<'_>) -> &'static str {
    match error {
        AtoiSimdError::Empty => "no digit",
        _ => "number out of range",
    }
}

// Returns the number at the start of `text`, and the bytes after a space, if any.
fn number_and_rest<T: Parse>(text: &[u8]) -> Result<(T, &[u8]), &'static str> {
    let (number, len) = parse_prefix::<T, true, false>(text).map_err(reason)?;
    match &text[len..] {
        [] => Ok((number, &[])),
        [b' ', rest @ ..] => Ok((number, rest)),
        _ => Err("no space after the number"),
    }
}

// Returns what follows the next quote that no backslash escapes.
fn after_quote(text: &[u8]) -> Option<&[u8]> {
    let mut bytes = text.iter();
    while let Some(byte) = bytes.next() {
        match byte {
            b'"' => return Some(bytes.as_slice()),
            b'\\' => _ = bytes.next(),
            _ => {}
        }
    }
    None
}

// Returns the status and the size, which follow the request: `.. "GET / HTTP/1.1" 200 5316 ..`. A server
// writes a quote of the request as `\"` or `\x22`, and `-` for a size of 0.
fn status_and_size(line: &[u8]) -> Result<(u16, u64), &'static str> {
    let request = after_quote(line.trim_ascii_end()).ok_or("no request")?;
    let rest = after_quote(request).ok_or("no end of the request")?;
    let numbers = rest.strip_prefix(b" ").ok_or("no space after the request")?;
    let (status, rest) = number_and_rest::<u16>(numbers)?;
    match rest {
        [b'-'] | [b'-', b' ', ..] => Ok((status, 0)),
        _ => Ok((status, number_and_rest::<u64>(rest)?.0)),
    }
}

// Reads a log, and prints the skipped lines and the sums.
fn print_sums(rt: HostRuntime) -> io::Result<()> {
    let (mut requests, mut failed, mut bytes, mut skipped) = (0u64, 0u64, 0u64, 0u64);
    let lines = BufReader::new(rt.alloc(), rt.reader())?.split(rt.alloc(), b'\n');
    for (number, line) in (1u64..).zip(lines) {
        match status_and_size(&line?) {
            Ok((status, size)) => {
                // A plain `+` needs a proof that it cannot overflow.
                requests = requests.saturating_add(1);
                failed = failed.saturating_add(u64::from(status >= 400));
                bytes = bytes.saturating_add(size);
            }
            Err(reason) => {
                println!(rt; "line {number} is skipped: {reason}")?;
                skipped = skipped.saturating_add(1);
            }
        }
    }
    println!(rt; "requests {requests:10}")?;
    println!(rt; "failed   {failed:10}")?;
    println!(rt; "bytes    {bytes:10}")?;
    println!(rt; "skipped  {skipped:10}")
}

fn main(rt: HostRuntime) -> io::Result<()> {
    match print_sums(rt) {
        // Nothing reads the rest, as after `head`.
        Err(error) if error.kind() == io::ErrorKind::BrokenPipe => Ok(()),
        ended => ended,
    }
}
