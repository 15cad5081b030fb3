//! The lines that are said of clocks that were gone to.

ghost use Rattle.std.specs.Prelude.{◌≡◌, ◌++◌, codes, decimal, OnOk, IfOk};
ghost use Rattle.std.specs.List.{flat_map};
ghost use Rattle.ocs_io.specs.Numbers.{hex_text};
ghost use Rattle.ocs_run.specs.RewindText.{number_before, word_before, place_text, line_of};

use ocs_base::{Beam, OutOfMemory};
use ocs_io::{put_dec, put_hex};
use rewind_loop::Arrived;
use std::alloc::Global;

/// The lines of clocks, in the order in which they were gone to.
pub fn make_lines(alloc: Global, told: &[Arrived]) -> Result<Vec<u8>, OutOfMemory>
    ensures { IfOk result (λ text. text.items ≡ flat_map line_of told.now) }
{
    let mut text = Vec::new(alloc);
    for arrived in told {
        put_line(arrived, &mut text)?;
    }
    Ok(text)
}

/// Appends the line of a clock.
#[tactic(auto, unfolding(crate::specs::RewindText::line_of))]
fn put_line(arrived: &Arrived, text: &mut Vec<u8>) -> Result<(), OutOfMemory>
    ensures { OnOk result (text.new.items ≡ text.old.items ++ line_of arrived.now) }
{
    put_number(arrived.at, text)?;
    put_place(&arrived.beam, text)?;
    put_word(arrived.dmacon, text)?;
    put_word(arrived.colour, text)?;
    put_number(arrived.sum, text)?;
    put_dec(arrived.from, text)?;
    text.push(b'\n')?;
    Ok(())
}

/// Appends a place of the beam: frame, line, clock of the line, and whether the field is a long one.
fn put_place(beam: &Beam, text: &mut Vec<u8>) -> Result<(), OutOfMemory>
    ensures { OnOk result (text.new.items ≡ text.old.items ++ place_text beam.now) }
{
    put_number(beam.frame as u64, text)?;
    put_number(beam.v as u64, text)?;
    put_number(beam.h as u64, text)?;
    put_number(u64::from(beam.lof), text)
}

/// Appends a number in decimal, and a blank.
fn put_number(number: u64, text: &mut Vec<u8>) -> Result<(), OutOfMemory>
    ensures { OnOk result (text.new.items ≡ text.old.items ++ number_before number) }
{
    put_dec(number, text)?;
    text.push(b' ')?;
    Ok(())
}

/// Appends a word in four hexadecimal digits, and a blank.
fn put_word(word: u16, text: &mut Vec<u8>) -> Result<(), OutOfMemory>
    ensures { OnOk result (text.new.items ≡ text.old.items ++ word_before word) }
{
    put_hex(word, 4, text)?;
    text.push(b' ')?;
    Ok(())
}
