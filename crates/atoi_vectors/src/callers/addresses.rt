//! Tests of the reader of IPv4 addresses.

use crate::checks::gives;
use atoi_uses::{Address, parse_address};

fn address(first: u8, second: u8, third: u8, fourth: u8) -> Option<Address> {
    Some(Address {
        first,
        second,
        third,
        fourth,
    })
}

#[test]
fn addresses_of_four_octets(rt: HostRuntime) {
    gives(&rt, parse_address(b"192.168.0.1"), address(192, 168, 0, 1));
    gives(&rt, parse_address(b"0.0.0.0"), address(0, 0, 0, 0));
    gives(
        &rt,
        parse_address(b"255.255.255.255"),
        address(255, 255, 255, 255),
    );
}

#[test]
fn what_is_no_address(rt: HostRuntime) {
    gives(&rt, parse_address(b""), None);
    gives(&rt, parse_address(b"1.2.3"), None);
    gives(&rt, parse_address(b"1.2.3."), None);
    gives(&rt, parse_address(b"1.2.3.4.5"), None);
    gives(&rt, parse_address(b"1.2.3.4 "), None);
    gives(&rt, parse_address(b"1.2.3.256"), None);
    gives(&rt, parse_address(b"01.2.3.4"), None);
    gives(&rt, parse_address(b"1.2.3.00"), None);
    gives(&rt, parse_address(b"1.-2.3.4"), None);
    gives(&rt, parse_address(b"1.+2.3.4"), None);
}
