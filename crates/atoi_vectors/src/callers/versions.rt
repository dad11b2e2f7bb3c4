//! Tests of the reader of versions.

use crate::checks::gives;
use atoi_uses::{Version, parse_version};

#[test]
fn versions_of_releases(rt: HostRuntime) {
    let version = |major, minor, patch| Some(Version {
        major,
        minor,
        patch,
    });
    gives(&rt, parse_version(b"1.22.333"), version(1, 22, 333));
    gives(&rt, parse_version(b"0.18.1"), version(0, 18, 1));
    gives(
        &rt,
        parse_version(b"4294967295.0.007"),
        version(4294967295, 0, 7),
    );
}

#[test]
fn what_is_no_version(rt: HostRuntime) {
    gives(&rt, parse_version(b"1.22"), None);
    gives(&rt, parse_version(b"1..3"), None);
    gives(&rt, parse_version(b"1.2.3.4"), None);
    gives(&rt, parse_version(b"1.2.3-rc1"), None);
    gives(&rt, parse_version(b"v1.2.3"), None);
    gives(&rt, parse_version(b"1.-2.3"), None);
    gives(&rt, parse_version(b"1.4294967296.3"), None);
    gives(&rt, parse_version(b""), None);
}
