//! Reads a line as a row: four words and a text.
ghost use Rattle.std.specs.Prelude.{◌≡◌, ◌<◌, ◌==◌, true, IfSome, length, position};
ghost use Rattle.std.specs.Option.{option_map};
ghost use Rattle.atoi_tool.specs.Request.{is_known};
ghost use Rattle.atoi_tool.specs.Row.{cut, request_of, value_of_hex_digit, byte_of, column_of, query_of, row_of, HasAnswer};

use crate::request::{Query, Request, call_of, engine_of, flags_of, integer_of};
use atoi_column::is_separator;

fn index_in(sought: u8, bytes: &[u8]) -> Option<usize>
    ensures first { result ≡ position (λ byte. byte == sought) bytes.now }
    ensures within { IfSome result (λ place. place < length bytes.now) }
{
    bytes.iter().position(|byte| *byte == sought)
}

/// Returns what precedes the first `separator` of `bytes`, and what follows it.
pub fn cut(separator: u8, bytes: &[u8]) -> Option<(&[u8], &[u8])>
    ensures { option_map (λ parts. (parts.0.now, parts.1.now)) result ≡ cut separator bytes.now }
{
    let place = index_in(separator, bytes)?;
    Some((&bytes[..place], &bytes[place + 1..]))
}

fn request_of(engine: &[u8], call: &[u8], integer: &[u8], flags: &[u8]) -> Option<Request>
    ensures request { result ≡ request_of engine.now call.now integer.now flags.now }
    ensures known { IfSome result (λ request. is_known request ≡ true) }
{
    let engine = engine_of(engine)?;
    let (sign, extent) = call_of(call)?;
    let request = Request {
        engine,
        sign,
        extent,
        integer: integer_of(integer)?,
        flags: flags_of(flags)?,
    };
    if request.is_known() {
        Some(request)
    } else {
        None
    }
}

// A letter must be a capital.
fn value_of_hex_digit(byte: u8) -> Option<u8>
    ensures value { result ≡ value_of_hex_digit byte }
    ensures below { IfSome result (λ value. value < 16) }
{
    match byte {
        b'0'..=b'9' => Some(byte - b'0'),
        b'A'..=b'F' => Some(byte - b'A' + 10),
        _ => None,
    }
}

fn byte_of(word: &[u8]) -> Option<u8>
    ensures { result ≡ byte_of word.now }
{
    let [high, low] = word else {
        return None;
    };
    let sixteens = value_of_hex_digit(*high)?;
    let ones = value_of_hex_digit(*low)?;
    Some(16 * sixteens + ones)
}

fn column_of(engine: &[u8], integer: &[u8], separator: &[u8]) -> Option<Query>
    ensures query { result ≡ column_of engine.now integer.now separator.now }
    ensures answered { IfSome result HasAnswer }
{
    let b"w" = engine else {
        return None;
    };
    let integer = integer_of(integer)?;
    let separator = byte_of(separator)?;
    if is_separator(separator) {
        Some(Query::Column { integer, separator })
    } else {
        None
    }
}

fn query_of(engine: &[u8], call: &[u8], integer: &[u8], last: &[u8]) -> Option<Query>
    ensures query { result ≡ query_of engine.now call.now integer.now last.now }
    ensures answered { IfSome result HasAnswer }
{
    match call {
        b"column" => column_of(engine, integer, last),
        _ => {
            let request = request_of(engine, call, integer, last)?;
            Some(Query::Number(request))
        }
    }
}

/// Returns what a line asks for, and the text after its fourth space.
pub fn row_of(line: &[u8]) -> Option<(Query, &[u8])>
    ensures row { option_map (λ row. (row.0, row.1.now)) result ≡ row_of line.now }
    ensures answered { IfSome result (λ row. HasAnswer row.0) }
{
    let (engine, rest) = cut(b' ', line)?;
    let (call, rest) = cut(b' ', rest)?;
    let (integer, rest) = cut(b' ', rest)?;
    let (last, text) = cut(b' ', rest)?;
    let query = query_of(engine, call, integer, last)?;
    Some((query, text))
}
