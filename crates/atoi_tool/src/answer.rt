//! The answer to a row about one number. Both engines give the same results, so no clause names
//! an engine.
ghost use Rattle.std.specs.Prelude.{◌≡◌, ◌≢◌, ◌+◌, ◌≤◌, ◌++◌, true, length};
ghost use Rattle.atoi_tool.specs.Request.{is_known};
ghost use Rattle.atoi_tool.specs.Answer.{call_text, row_text};

use crate::answer_text::{push_prefix, push_whole};
use crate::block::{Block, LONGEST, ROOM};
use crate::request::{Engine, Extent, Integer, Request, Sign, by_type};
use atoi_simd::lanes;

// Appends by `$push` what `$call` of the engine returns for `$text`, by the flag for zeros.
macro_rules! push_by_zeroes {
    ($push:ident, $call:ident, $request:expr, $text:expr, $out:expr) => {
        match ($request.engine, $request.flags.zeroes) {
            (Engine::Words, false) => $push(atoi_simd::$call::<T, false>($text), $out),
            (Engine::Words, true) => $push(atoi_simd::$call::<T, true>($text), $out),
            (Engine::Lanes, false) => $push(lanes::$call::<T, false>($text), $out),
            (Engine::Lanes, true) => $push(lanes::$call::<T, true>($text), $out),
        }
    };
}

// The same by both flags.
macro_rules! push_by_flags {
    ($push:ident, $call:ident, $request:expr, $text:expr, $out:expr) => {
        match ($request.engine, $request.flags.zeroes, $request.flags.plus) {
            (Engine::Words, false, false) => $push(atoi_simd::$call::<T, false, false>($text), $out),
            (Engine::Words, false, true) => $push(atoi_simd::$call::<T, false, true>($text), $out),
            (Engine::Words, true, false) => $push(atoi_simd::$call::<T, true, false>($text), $out),
            (Engine::Words, true, true) => $push(atoi_simd::$call::<T, true, true>($text), $out),
            (Engine::Lanes, false, false) => $push(lanes::$call::<T, false, false>($text), $out),
            (Engine::Lanes, false, true) => $push(lanes::$call::<T, false, true>($text), $out),
            (Engine::Lanes, true, false) => $push(lanes::$call::<T, true, false>($text), $out),
            (Engine::Lanes, true, true) => $push(lanes::$call::<T, true, true>($text), $out),
        }
    };
}

// Appends the answer to a row of type `T` that does not ask for a negative number.
fn answer_any<T: atoi_simd::Parse + lanes::Parse>(request: &Request, text: &[u8], out: &mut Block)
    requires sign { request.now.sign ≢ Sign.Negative }
    requires room { length out.old + LONGEST ≤ ROOM }
    ensures { out.new ≡ out.old ++ call_text request.now.sign request.now.extent T.int_type request.now.flags text.now }
{
    match (request.sign, request.extent) {
        (Sign::InText, Extent::Whole) => push_by_flags!(push_whole, parse, request, text, out),
        (Sign::InText, Extent::Prefix) => {
            push_by_flags!(push_prefix, parse_prefix, request, text, out)
        }
        (_, Extent::Whole) => push_by_zeroes!(push_whole, parse_pos, request, text, out),
        (_, Extent::Prefix) => push_by_zeroes!(push_prefix, parse_prefix_pos, request, text, out),
    }
}

fn answer_signed<T: atoi_simd::Parse + lanes::Parse + atoi_simd::ParseNeg + lanes::ParseNeg>(
    request: &Request,
    text: &[u8],
    out: &mut Block,
)
    requires { length out.old + LONGEST ≤ ROOM }
    ensures { out.new ≡ out.old ++ call_text request.now.sign request.now.extent T.int_type request.now.flags text.now }
{
    match (request.sign, request.extent) {
        (Sign::Negative, Extent::Whole) => {
            push_by_zeroes!(push_whole, parse_neg, request, text, out)
        }
        (Sign::Negative, Extent::Prefix) => {
            push_by_zeroes!(push_prefix, parse_prefix_neg, request, text, out)
        }
        _ => answer_any::<T>(request, text, out),
    }
}

/// Appends the answer to a row about one number, which must have one (`Request::is_known`).
pub fn answer_row(request: &Request, text: &[u8], out: &mut Block)
    requires known { is_known request.now ≡ true }
    requires room { length out.old + LONGEST ≤ ROOM }
    ensures { out.new ≡ out.old ++ row_text request.now text.now }
{
    by_type!(request.integer, answer_any, answer_signed, <>, (request, text, out))
}
