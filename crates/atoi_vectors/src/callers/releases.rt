//! Tests of the reader of releases.

use crate::checks::gives;
use atoi_uses::{Release, release_and_rest};

#[test]
fn releases_and_labels(rt: HostRuntime) {
    let found = |major, minor, patch, rest| {
        let release = Release {
            major,
            minor,
            patch,
        };
        Some((release, rest))
    };
    gives(
        &rt,
        release_and_rest(b"1.22.333-rc.1"),
        found(1, 22, 333, b"-rc.1".as_slice()),
    );
    gives(
        &rt,
        release_and_rest(b"0.18.1"),
        found(0, 18, 1, b"".as_slice()),
    );
    gives(
        &rt,
        release_and_rest(b"18446744073709551615.0.10+b.7"),
        found(18446744073709551615, 0, 10, b"+b.7".as_slice()),
    );
    gives(
        &rt,
        release_and_rest(b"1.2.3.4"),
        found(1, 2, 3, b".4".as_slice()),
    );
}

#[test]
fn what_is_no_release(rt: HostRuntime) {
    gives(&rt, release_and_rest(b"1.2-rc.1"), None);
    gives(&rt, release_and_rest(b"1.02.3"), None);
    gives(&rt, release_and_rest(b"1.2.03-rc.1"), None);
    gives(&rt, release_and_rest(b"v1.2.3"), None);
    gives(&rt, release_and_rest(b"1.+2.3"), None);
    gives(&rt, release_and_rest(b"1.2.-3"), None);
    gives(&rt, release_and_rest(b"1.2.18446744073709551616"), None);
    gives(&rt, release_and_rest(b""), None);
}
