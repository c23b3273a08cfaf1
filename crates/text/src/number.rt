// Digits, and the numbers that they spell.
ghost use Rattle.std.specs.Prelude.{◌≡◌, ◌<◌, ◌≤◌, false, true, MatchOption};
ghost use Rattle.text.specs.Number.{is_digit, digit_value, number as number_of};

// The value of a digit, 0-9 or a-f; none of any other byte. (std's own tests and `to_digit` let A-F pass too.)
fn digit(b: u8) -> Option<u64>
    ensures { MatchOption result ((is_digit b ≡ false) × (digit_value b ≡ 0)) (λ v. (is_digit b ≡ true) × (v ≡ digit_value b) × (v < 16)) }
{
    match b {
        b'0'..=b'9' => Some((b - b'0') as u64),
        b'a'..=b'f' => Some((b - b'a' + 10) as u64),
        _ => None,
    }
}

// Is it a digit? By `|`, here and in `sheet::foreign`, and not by `digit`: that has a branch, with which a sheet of fields of many digits took 1.3
// to 1.4 times as long (docs/LOOK-BACK.md).
pub fn is_digit(b: u8) -> bool
    ensures { result ≡ is_digit b }
{
    (b'0'..=b'9').contains(&b) | (b'a'..=b'f').contains(&b)
}

// The value of a digit. 0 of any other byte, and no Option: what is no digit is asked apart, by `is_digit`.
pub fn digit_value(b: u8) -> u64
    ensures { (result ≡ digit_value b) × (result < 16) }
{
    digit(b).unwrap_or(0)
}

// The number that at most 16 digits of a base spell. 0 of more digits, and no Option: the width is asked apart, by `all_wide`.
pub fn number(s: &[u8], base: u64) -> u64
    requires { base ≤ 16 }
    ensures { result ≡ number_of base s.now }
{
    if 16 < s.len() {
        return 0;
    }
    let mut v: u64 = 0;
    for &b in s {
        v = v * base + digit_value(b);
    }
    v
}
