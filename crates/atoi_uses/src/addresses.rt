//! Reads IPv4 addresses.
ghost use Rattle.std.specs.Prelude.{IfSome, IfNone};
ghost use Rattle.atoi_uses.specs.Addresses.{IsAddress};
ghost use Rattle.atoi_uses.specs.declared.addresses.Address.{Address as AddressValue};

use atoi_formats::{canonical, canonical_then};

/// An IPv4 address.
#[derive(Clone, Copy, Debug, PartialEq, Eq)]
pub struct Address {
    pub first: u8,
    pub second: u8,
    pub third: u8,
    pub fourth: u8,
}

/// Parses `text` as an IPv4 address such as `192.168.0.1`. It has four numbers below 256 with dots
/// between them, and no number has a needless leading zero.
///
/// Returns `None` for every other text, such as `1.2.3` and `1.2.3.04`.
pub fn parse_address(text: &[u8]) -> Option<Address>
    ensures some { IfSome result (λ address. IsAddress text.now address) }
    ensures none { IfNone result ((any : AddressValue) → ¬ IsAddress text.now any) }
{
    let (first, rest) = canonical_then::<u8>(text, b'.')?;
    let (second, rest) = canonical_then::<u8>(rest, b'.')?;
    let (third, rest) = canonical_then::<u8>(rest, b'.')?;
    let fourth = canonical::<u8>(rest)?;
    Some(Address {
        first,
        second,
        third,
        fourth,
    })
}
