//! Numbers as text: decimal and lower-case hexadecimal.

ghost use Rattle.std.specs.Prelude.{◌≡◌, ◌++◌, ◌^◌, ◌*◌, ◌+◌, ◌<◌, ◌≤◌, ◌&&◌, ◌||◌, ◌==◌, not, nat_le, nat_lt};
ghost use Rattle.std.specs.Prelude.{length, slice_index, if◌then◌else◌, Some, None, IfSome, OnOk, OnErr, decimal};
ghost use Rattle.std.specs.Str.Parse.{digits_value};
ghost use Rattle.std.specs.Char.{digit_value};
ghost use Rattle.ocs_io.specs.Numbers.{is_digit, is_lower_hex, all_bytes, dec_of, hex_of, hex_digit, hex_text};

use itoa::Buffer;
use ocs_base::OutOfMemory;

/// Reads a decimal number without sign or leading zero.
#[tactic(auto, using(crate::proofs::NumberLaws::reading), unfolding(crate::specs::Numbers::dec_of))]
pub fn dec(bytes: &[u8]) -> Option<u64>
    ensures { result ≡ dec_of bytes.now }
{
    if starts_plain(bytes) {
        digits(bytes)
    } else {
        None
    }
}

/// Reads one to four lower-case hexadecimal digits.
#[tactic(auto, using(crate::proofs::NumberLaws::reading), unfolding(crate::specs::Numbers::hex_of))]
pub fn hex(bytes: &[u8]) -> Option<u16>
    ensures { result ≡ hex_of bytes.now }
{
    if bytes.is_empty() || bytes.len() > 4 {
        None
    } else {
        hex_digits(bytes)
    }
}

/// Whether a byte is there, and a 0 begins no longer text.
fn starts_plain(bytes: &[u8]) -> bool
    ensures { result ≡ (nat_le 1 (length bytes.now)
        && (not (slice_index bytes.now 0 == 48) || (length bytes.now == 1))) }
{
    match bytes {
        [] => false,
        [b'0', _, ..] => false,
        _ => true,
    }
}

/// The number that digits write, where they all are digits and it fits.
#[tactic(auto, using(crate::proofs::NumberLaws::reading))]
fn digits(bytes: &[u8]) -> Option<u64>
    ensures { result ≡ (if all_bytes is_digit bytes.now
        && nat_lt (digits_value 10 bytes.now) (2 ^ 64) then Some (digits_value 10 bytes.now)
        else None) }
{
    let mut value = 0;
    for byte in bytes {
        let Some(next) = with_digit(value, *byte) else {
            return None;
        };
        value = next;
    }
    Some(value)
}

/// A number and one digit more.
fn with_digit(value: u64, byte: u8) -> Option<u64>
    ensures { result ≡ (if is_digit byte && nat_lt (value * 10 + digit_value byte) (2 ^ 64)
        then Some (value * 10 + digit_value byte) else None) }
{
    match byte {
        b'0'..=b'9' => value.checked_mul(10)?.checked_add((byte - b'0') as u64),
        _ => None,
    }
}

/// The number that up to four digits write, where they all are digits.
#[tactic(auto, using(crate::proofs::NumberLaws::reading))]
fn hex_digits(bytes: &[u8]) -> Option<u16>
    requires { length bytes.now ≤ 4 }
    ensures { result ≡ (if all_bytes is_lower_hex bytes.now then Some (digits_value 16 bytes.now)
        else None) }
{
    let mut value: u16 = 0;
    for byte in bytes {
        let Some(digit) = hex_value(*byte) else {
            return None;
        };
        value = value * 16 + digit;
    }
    Some(value)
}

fn hex_value(byte: u8) -> Option<u16>
    ensures below { IfSome result (λ value. value < 16) }
    ensures value { result ≡ (if is_lower_hex byte then Some (digit_value byte) else None) }
{
    match byte {
        b'0'..=b'9' => Some((byte - b'0') as u16),
        b'a'..=b'f' => Some((byte - b'a' + 10) as u16),
        _ => None,
    }
}

/// Appends a number in decimal. After a refusal `into` is as before. Those of up to three digits go a short way.
#[inline]
pub fn put_dec(n: u64, into: &mut Vec<u8>) -> Result<(), OutOfMemory>
    ensures ok { OnOk result (into.new.items ≡ into.old.items ++ decimal n) }
    ensures refused { OnErr result (into.new.items ≡ into.old.items) }
{
    if n < 1000 {
        put_short(n as u16, into)
    } else {
        put_long(n, into)
    }
}

/// The same of a number of up to three digits.
#[tactic(auto, using(crate::proofs::NumberLaws::short_decimals))]
fn put_short(n: u16, into: &mut Vec<u8>) -> Result<(), OutOfMemory>
    requires { n < 1000 }
    ensures ok { OnOk result (into.new.items ≡ into.old.items ++ decimal n) }
    ensures refused { OnErr result (into.new.items ≡ into.old.items) }
{
    let last = decimal_digit(n % 10);
    if n < 10 {
        into.push(last)?;
        return Ok(());
    }
    let middle = decimal_digit(n / 10 % 10);
    if n < 100 {
        into.extend_from_slice(&[middle, last])?;
        return Ok(());
    }
    into.extend_from_slice(&[decimal_digit(n / 100), middle, last])?;
    Ok(())
}

/// The same of any number.
#[inline(never)]
fn put_long(n: u64, into: &mut Vec<u8>) -> Result<(), OutOfMemory>
    ensures ok { OnOk result (into.new.items ≡ into.old.items ++ decimal n) }
    ensures refused { OnErr result (into.new.items ≡ into.old.items) }
{
    let mut buffer = Buffer::new();
    into.extend_from_slice(buffer.format(n).as_bytes())?;
    Ok(())
}

/// The character of a decimal digit.
fn decimal_digit(value: u16) -> u8
    requires { value < 10 }
    ensures { result ≡ 48 + value }
{
    b'0' + value as u8
}

/// Appends a number in so many hexadecimal digits. After a refusal `into` is as before.
#[tactic(auto, using(crate::proofs::NumberLaws::last_digits))]
pub fn put_hex(n: u16, digits: usize, into: &mut Vec<u8>) -> Result<(), OutOfMemory>
    requires few { 2 ≤ digits }
    requires many { digits ≤ 4 }
    requires fits { n < 16 ^ digits }
    ensures ok { OnOk result (into.new.items ≡ into.old.items ++ hex_text digits n) }
    ensures refused { OnErr result (into.new.items ≡ into.old.items) }
{
    let text = [
        digit(n / 0x1000),
        digit(n / 0x100 % 16),
        digit(n / 0x10 % 16),
        digit(n % 16),
    ];
    into.extend_from_slice(&text[4 - digits..])?;
    Ok(())
}

/// The character of a digit.
fn digit(value: u16) -> u8
    requires { value < 16 }
    ensures { result ≡ hex_digit value }
{
    if value < 10 {
        b'0' + value as u8
    } else {
        b'a' + (value as u8 - 10)
    }
}
