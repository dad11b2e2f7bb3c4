//! The sign before a number: without a branch on a minus, or with one.
ghost use Rattle.std.specs.Prelude.{◌≡◌, ◌+◌, ◌≤◌, true, length, drop};
ghost use Rattle.atoi_core.specs.Sign.{sign_of};

/// `atoi_core::take_sign`, with the same contract. It branches on a `+` alone.
#[inline(always)]
pub(crate) fn take_sign(signed: bool, skip_plus: bool, s: &[u8]) -> (bool, &[u8])
    ensures minus { result.0 ≡ (sign_of signed skip_plus s.now).minus }
    ensures body { result.1.now ≡ (sign_of signed skip_plus s.now).body }
    ensures taken { length result.1.now + (sign_of signed skip_plus s.now).taken ≡ length s.now }
    ensures minus_if_signed { result.0 ≡ true → signed ≡ true }
{
    if !signed && !skip_plus {
        return (false, s);
    }
    let [first, ..] = s else {
        return (false, s);
    };
    // Before the `+`: with the sign set on two paths, rustc 1.95 branches on it for `i128`.
    let minus = signed & (*first == b'-');
    if skip_plus && *first == b'+' {
        return (minus, without_first(s));
    }
    // Sliced by 0 or 1: with mixed signs, a branch would be mispredicted.
    (minus, &s[usize::from(minus)..])
}

/// `take_sign` with a branch on the sign: the load of the digits does not wait for the first byte.
#[inline(always)]
pub(crate) fn sign_by_branch(signed: bool, skip_plus: bool, s: &[u8]) -> (bool, &[u8])
    ensures minus { result.0 ≡ (sign_of signed skip_plus s.now).minus }
    ensures body { result.1.now ≡ (sign_of signed skip_plus s.now).body }
    ensures taken { length result.1.now + (sign_of signed skip_plus s.now).taken ≡ length s.now }
    ensures minus_if_signed { result.0 ≡ true → signed ≡ true }
{
    match s {
        [b'-', ..] if signed => (true, without_first(s)),
        [b'+', ..] if skip_plus => (false, without_first(s)),
        _ => (false, s),
    }
}

// Never inlined, so that a `+` is a branch: with a select, the digits' address would wait for the
// first byte.
#[inline(never)]
pub(crate) fn without_first(s: &[u8]) -> &[u8]
    requires { 1 ≤ length s.now }
    ensures { result.now ≡ drop 1 s.now }
{
    &s[1..]
}
