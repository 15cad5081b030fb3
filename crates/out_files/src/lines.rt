//! Lines of the trace as text.

ghost use Rattle.std.specs.Prelude.{◌≡◌, ◌<◌, ◌≤◌, ◌+◌, ◌++◌, ◌∷◌, [], length, take, drop, OnOk, OnErr, decimal};
ghost use Rattle.serial_model.specs.TraceText.{character_of, letter_of, line_text};
ghost use Rattle.out_files.specs.code.Lines.{three_digits, access_text};

use crate::line_start::LineStart;
use ocs_base::{OutOfMemory, Reg};
use ocs_io::put_dec;
use serial_model::{Source, TraceLine};

/// Appends a line of the trace. After a refusal a part may have been appended.
#[tactic(auto, unfolding(serial_model::specs::TraceText::line_text, serial_model::specs::TraceText::place_text))]
pub fn put_line(
    text: &mut Vec<u8>,
    start: &mut LineStart,
    line: TraceLine,
) -> Result<(), OutOfMemory>
    ensures ok { OnOk result (text.new.items ≡ text.old.items ++ line_text line) }
    ensures refused { OnErr result (take (length text.old.items) text.new.items ≡ text.old.items) }
{
    match line {
        TraceLine::Wrote {
            beam,
            reg,
            word,
            by,
        } => {
            start.put(&beam, text)?;
            put_access(text, beam.h, b'W', reg, word, by)?;
        }
        TraceLine::Peeked {
            beam,
            reg,
            word,
            by,
        } => {
            start.put(&beam, text)?;
            put_access(text, beam.h, b'R', reg, word, by)?;
        }
        TraceLine::Taken { beam, level } => {
            start.put(&beam, text)?;
            put_dec(beam.h as u64, text)?;
            text.extend_from_slice(b" I ")?;
            put_dec(level as u64, text)?;
            text.push(b'\n')?;
        }
    }
    Ok(())
}

/// Appends the clock `h` of the line and what stands behind it: the letter of a write or of a read, the register,
/// the word and who wrote or read it. After a refusal the text is as before.
fn put_access(
    text: &mut Vec<u8>,
    h: u16,
    kind: u8,
    reg: Reg,
    word: u16,
    by: Source,
) -> Result<(), OutOfMemory>
    ensures ok { OnOk result (text.new.items ≡ text.old.items
        ++ (decimal h ++ access_text kind reg.offset word by)) }
    ensures refused { OnErr result (text.new.items ≡ text.old.items) }
{
    let offset = reg.raw();
    let line = [
        decimal_digit(h / 100 % 10),
        decimal_digit(h / 10 % 10),
        decimal_digit(h % 10),
        b' ',
        kind,
        b' ',
        character(offset / 0x100 % 16),
        character(offset / 0x10 % 16),
        character(offset % 16),
        b' ',
        character(word / 0x1000 % 16),
        character(word / 0x100 % 16),
        character(word / 0x10 % 16),
        character(word % 16),
        b' ',
        letter(by),
        b'\n',
    ];
    if h >= 1000 {
        return put_long_clock(text, h, &line[3..]);
    }
    text.extend_from_slice(&line[zeros_before(h)..])?;
    Ok(())
}

/// Appends a clock and what stands behind it, however many digits the clock has. After a refusal the text is as
/// before.
#[inline(never)]
fn put_long_clock(text: &mut Vec<u8>, h: u16, behind: &[u8]) -> Result<(), OutOfMemory>
    ensures ok { OnOk result (text.new.items ≡ text.old.items ++ (decimal h ++ behind.now)) }
    ensures refused { OnErr result (text.new.items ≡ text.old.items) }
{
    let before = text.len();
    put_dec(h as u64, text)?;
    match text.extend_from_slice(behind) {
        Ok(()) => Ok(()),
        Err(refused) => {
            text.truncate(before);
            Err(refused.into())
        }
    }
}

/// How many of the three digits of a number stand in front of it as zeros.
#[inline(always)]
#[tactic(auto, using(crate::proofs::LinesLaws::short_clock))]
fn zeros_before(number: u16) -> usize
    requires { number < 1000 }
    ensures few { result ≤ 2 }
    ensures rest { drop result (three_digits number) ≡ decimal number }
{
    if number < 10 {
        2
    } else if number < 100 {
        1
    } else {
        0
    }
}

/// The character of a decimal digit.
fn decimal_digit(value: u16) -> u8
    requires { value < 10 }
    ensures { result ≡ 48 + value }
{
    b'0' + value as u8
}

/// The lower-case characters of the hexadecimal digits.
const DIGITS: [u8; 16] = *b"0123456789abcdef";

/// The lower-case character of a hexadecimal digit.
fn character(digit: u16) -> u8
    requires { digit < 16 }
    ensures { result ≡ character_of digit }
{
    DIGITS[digit as usize]
}

fn letter(by: Source) -> u8
    ensures { result ∷ [] ≡ letter_of by }
{
    match by {
        Source::Copper => b'C',
        Source::Processor => b'M',
        Source::Script => b'S',
    }
}
