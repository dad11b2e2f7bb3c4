//! Reads the version at the start of a text.
ghost use Rattle.std.specs.Prelude.{ℕ, List, IfSome, IfNone};
ghost use Rattle.atoi_uses.specs.Releases.{IsRelease};
ghost use Rattle.atoi_uses.specs.declared.releases.Release.{Release as ReleaseValue};

use atoi_formats::{canonical_prefix, canonical_then};

/// The three numbers of a version.
#[derive(Clone, Copy, Debug, PartialEq, Eq)]
pub struct Release {
    pub major: u64,
    pub minor: u64,
    pub patch: u64,
}

/// Reads the version that `text` begins with. It has three numbers of type `u64` with dots between them,
/// and no number has a needless leading zero. Returns them, and what follows them: for `1.22.333-rc.1`
/// this is `-rc.1`.
///
/// Returns `None` for every other text, such as `1.2-rc.1` and `1.02.3`.
pub fn release_and_rest(text: &[u8]) -> Option<(Release, &[u8])>
    ensures some { IfSome result (λ found. IsRelease text.now found.0 found.1.now) }
    ensures none { IfNone result ((any : ReleaseValue) (rest : List ℕ) → ¬ IsRelease text.now any rest) }
{
    let (major, rest) = canonical_then::<u64>(text, b'.')?;
    let (minor, rest) = canonical_then::<u64>(rest, b'.')?;
    let (patch, rest) = canonical_prefix::<u64>(rest)?;
    let release = Release {
        major,
        minor,
        patch,
    };
    Some((release, rest))
}
