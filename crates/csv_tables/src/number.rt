// Numbers of fields.
ghost use Rattle.std.specs.Prelude.{◌≡◌, ◌<◌, ◌≤◌, IfErr, IfOk, length};
ghost use Rattle.csv_tables.specs.Numbers.{HasFault, IsSizeOf, IsValue, number_of};

// What is wrong with a field of a row.
#[derive(Clone, Copy)]
pub(crate) enum FieldFault {
    NotANumber,
    OutOfRange,
}

// The number that a field writes, if an `i64` holds it.
pub(crate) fn parse_value(field: &[u8]) -> Result<i64, FieldFault>
    ensures value { IfOk result (λ value. IsValue field.now × (value ≡ number_of field.now)) }
    ensures fault { IfErr result (HasFault field.now) }
{
    match field {
        [b'-', digits @ ..] => {
            let size = parse_digits(digits).ok_or(FieldFault::NotANumber)?;
            0i64.checked_sub_unsigned(size)
                .ok_or(FieldFault::OutOfRange)
        }
        digits => {
            let size = parse_digits(digits).ok_or(FieldFault::NotANumber)?;
            0i64.checked_add_unsigned(size)
                .ok_or(FieldFault::OutOfRange)
        }
    }
}

// A number of at most this many decimal digits fits a `u64`.
const SHORT: usize = 19;

// The number that decimal digits write, if there are one or more digits and nothing else.
//
// A number past 64 bits becomes the greatest `u64`, which no `i64` holds with either sign.
fn parse_digits(digits: &[u8]) -> Option<u64>
    ensures { IsSizeOf digits.now result }
{
    if digits.is_empty() {
        return None;
    }
    if digits.len() <= SHORT {
        parse_short(digits)
    } else {
        parse_long(digits)
    }
}

// The same for so few digits that no step overflows.
fn parse_short(digits: &[u8]) -> Option<u64>
    requires some { 0 < length digits.now }
    requires short { length digits.now ≤ SHORT }
    ensures { IsSizeOf digits.now result }
{
    let mut size: u64 = 0;
    for byte in digits {
        if !byte.is_ascii_digit() {
            return None;
        }
        size = size * 10 + u64::from(*byte - b'0');
    }
    Some(size)
}

// The same for any digits.
#[inline(never)]
fn parse_long(digits: &[u8]) -> Option<u64>
    requires { 0 < length digits.now }
    ensures { IsSizeOf digits.now result }
{
    let mut size: u64 = 0;
    for byte in digits {
        if !byte.is_ascii_digit() {
            return None;
        }
        size = size
            .saturating_mul(10)
            .saturating_add(u64::from(*byte - b'0'));
    }
    Some(size)
}
