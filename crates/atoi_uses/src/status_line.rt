//! Reads the status line of an HTTP response.
ghost use Rattle.std.specs.Prelude.{◌≡◌, ℕ, List, IfSome, IfNone};
ghost use Rattle.atoi_uses.specs.StatusLines.{IsStatusLine};

use atoi_formats::{fixed_width, strip_byte};

/// Returns the code and the reason of a status line: for `HTTP/1.1 404 Not Found` these are 404 and
/// `Not Found`.
pub fn code_and_reason(line: &[u8]) -> Option<(u16, &[u8])>
    ensures some { IfSome result (λ found. IsStatusLine line.now found.0 found.1.now) }
    ensures none { IfNone result ((code : ℕ) (reason : List ℕ)
        → ¬ IsStatusLine line.now code reason) }
{
    let rest = line.strip_prefix(b"HTTP/1.1 ")?;
    let (code, rest) = fixed_width::<u16>(rest, 3)?;
    let reason = strip_byte(rest, b' ')?;
    Some((code, reason))
}
