ghost use Rattle.std.specs.Prelude.{◌≡◌, ◌++◌, ◌<◌, ◌≤◌, OnOk, OnErr, take, vec_len};
ghost use Rattle.std.specs.Char.{digit_value, digit_char};
ghost use Rattle.dt_lex.specs.Numeral.{digits_read, number_of, numeral, decimal, hex};

use std::alloc::AllocError;

/// The value of a digit or letter of either case; 36 for every other byte.
fn digit_value(c: u8) -> u8
    ensures { result ≡ digit_value c }
{
    if c < b'0' {
        36
    } else if c <= b'9' {
        c - b'0'
    } else if c < b'A' {
        36
    } else if c <= b'Z' {
        c - b'A' + 10
    } else if c < b'a' {
        36
    } else if c <= b'z' {
        c - b'a' + 10
    } else {
        36
    }
}

/// The number that at least one digit of the base spells, where it is below 2^128.
#[tactic(auto, using(crate::proofs::Numbers::digits_none, crate::proofs::Numbers::digits_start, crate::proofs::Numbers::reads_bad, crate::proofs::Numbers::reads_over, crate::proofs::Numbers::reads_more, crate::proofs::Numbers::reads_end))]
fn digits_read(base: u8, digits: &[u8]) -> Option<u128>
    requires low { 2 ≤ base }
    requires high { base ≤ 16 }
    ensures { result ≡ digits_read base digits.now }
{
    if digits.is_empty() {
        return None;
    }
    let mut value = 0u128;
    for c in digits {
        let digit = digit_value(*c);
        if digit >= base {
            return None;
        }
        value = value
            .checked_mul(u128::from(base))?
            .checked_add(u128::from(digit))?;
    }
    Some(value)
}

/// The number that the bytes spell: one or more decimal digits, or `0x` and one or more hexadecimal
/// digits of either case, with any leading zeros. None exactly where they spell no number below
/// 2^128.
#[tactic(auto, unfolding(crate::specs::Numeral::number_of))]
pub fn number(bytes: &[u8]) -> Option<u128>
    ensures { result ≡ number_of bytes.now }
{
    match bytes {
        [b'0', b'x', digits @ ..] => digits_read(16, digits),
        _ => digits_read(10, bytes),
    }
}

/// The digit of a value below 16, in lower case.
fn digit_char(digit: u8) -> u8
    requires { digit < 16 }
    ensures { result ≡ digit_char digit }
{
    if digit < 10 {
        b'0' + digit
    } else {
        b'a' - 10 + digit
    }
}

/// Appends the number without leading zeros; after an error some of its digits may stand there.
#[tactic(auto, using(crate::proofs::Numbers::numeral_small, crate::proofs::Numbers::numeral_step, dt_lemmas::proofs::Lists::take_kept, std::proofs::lemmas::List::append_assoc))]
fn push_digits(out: &mut Vec<u8>, base: u8, n: u128) -> Result<(), AllocError>
    requires low { 2 ≤ base }
    requires high { base ≤ 16 }
    ensures ok { OnOk result (out.new.items ≡ out.old.items ++ numeral base n) }
    ensures kept { take (vec_len out.old) out.new.items ≡ out.old.items }
{
    let wide = u128::from(base);
    if n < wide {
        out.push(digit_char(n as u8))?;
        return Ok(());
    }
    push_digits(out, base, n / wide)?;
    out.push(digit_char((n % wide) as u8))?;
    Ok(())
}

#[tactic(auto, using(dt_lemmas::proofs::Lists::take_front, std::proofs::lemmas::List::append_assoc))]
/// Appends the prefix and the number without leading zeros.
fn push_number(out: &mut Vec<u8>, prefix: &[u8], base: u8, n: u128) -> Result<(), AllocError>
    requires low { 2 ≤ base }
    requires high { base ≤ 16 }
    ensures ok { OnOk result (out.new.items ≡ out.old.items ++ (prefix.now ++ numeral base n)) }
    ensures err { OnErr result (out.new.items ≡ out.old.items) }
{
    let before = out.len();
    out.extend_from_slice(prefix)?;
    match push_digits(out, base, n) {
        Ok(()) => Ok(()),
        Err(error) => {
            out.truncate(before);
            Err(error)
        }
    }
}

/// Appends the number in decimal, without leading zeros. Where memory runs out nothing is appended.
pub fn push_decimal(out: &mut Vec<u8>, n: u128) -> Result<(), AllocError>
    ensures ok { OnOk result (out.new.items ≡ out.old.items ++ decimal n) }
    ensures err { OnErr result (out.new.items ≡ out.old.items) }
{
    push_number(out, b"", 10, n)
}

/// Appends `0x` and the number in lower-case hexadecimal, without leading zeros; zero is `0x0`.
/// Where memory runs out nothing is appended.
pub fn push_hex(out: &mut Vec<u8>, n: u128) -> Result<(), AllocError>
    ensures ok { OnOk result (out.new.items ≡ out.old.items ++ hex n) }
    ensures err { OnErr result (out.new.items ≡ out.old.items) }
{
    push_number(out, b"0x", 16, n)
}
