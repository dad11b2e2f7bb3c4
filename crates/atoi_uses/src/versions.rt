//! Reads versions.
ghost use Rattle.std.specs.Prelude.{IfSome, IfNone};
ghost use Rattle.atoi_uses.specs.Versions.{IsVersion};
ghost use Rattle.atoi_uses.specs.declared.versions.Version.{Version as VersionValue};

use atoi_formats::digits_then;
use atoi_simd::parse_pos;

/// A version of three numbers.
#[derive(Clone, Copy, Debug, PartialEq, Eq)]
pub struct Version {
    pub major: u32,
    pub minor: u32,
    pub patch: u32,
}

/// Parses `text` as a version such as `1.22.333`: three numbers of type `u32`, with dots between
/// them.
///
/// Returns `None` for every other text, such as `1.2` and `v1.2.3`.
pub fn parse_version(text: &[u8]) -> Option<Version>
    ensures some { IfSome result (λ version. IsVersion text.now version) }
    ensures none { IfNone result ((any : VersionValue) → ¬ IsVersion text.now any) }
{
    let (major, rest) = digits_then::<u32>(text, b'.')?;
    let (minor, rest) = digits_then::<u32>(rest, b'.')?;
    let patch = parse_pos::<u32, true>(rest).ok()?;
    Some(Version {
        major,
        minor,
        patch,
    })
}
