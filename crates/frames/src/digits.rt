// Hexadecimal digits of a line, read as numbers.
ghost use Rattle.std.specs.Prelude.{◌≡◌, ◌≤◌, length};
ghost use Rattle.std.specs.List.{list_all};
ghost use Rattle.protocol.specs.Frames.{is_digit, digit_value, number as number_spec};

// Upper case only: a lower case letter is no digit.
fn is_digit(b: u8) -> bool
    ensures { result ≡ is_digit b }
{
    b.is_ascii_digit() | (b'A' <= b) & (b <= b'F')
}

// Leaves at the first byte that is no digit, since such a line needs no further look.
pub fn all_digits(line: &[u8]) -> bool
    ensures { result ≡ list_all is_digit line.now }
{
    line.iter().all(|b| is_digit(*b))
}

// A byte that is no digit counts as 0, so that any eight bytes give a number that fits. (The documents' rule, as it stands in its contract: the
// library's `to_digit` takes lower case too.)
fn digit_value(b: u8) -> u32
    ensures { result ≡ digit_value b }
{
    if b < 48 {
        return 0;
    }
    if b < 58 {
        return u32::from(b - 48);
    }
    if b < 65 {
        return 0;
    }
    if b < 71 {
        return u32::from(b - 55);
    }
    0
}

// At most eight digits, so that the number fits.
pub fn number(digits: &[u8]) -> u32
    requires { length digits.now ≤ 8 }
    ensures { result ≡ number_spec digits.now }
{
    let mut v = 0;
    for d in digits {
        v = v * 16 + digit_value(*d);
    }
    v
}
