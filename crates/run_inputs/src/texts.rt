//! What is said of a fault, and the pieces of which such texts are made.

ghost use Rattle.std.specs.Prelude.{◌≡◌, ◌++◌, OnOk, codes, decimal};
ghost use Rattle.ocs_io.specs.Place.{OnlySays};
ghost use Rattle.run_inputs.specs.Texts.{Says, SaysSurely, input_fault_text, name_of_input};
ghost use Rattle.script_read.specs.KindName.{kind_name};

use crate::fault::{InputFault, InputFile};
use ocs_base::OutOfMemory;
use ocs_io::{Place, put_dec};
use script_read::BadKind;
use std::alloc::Global;

/// Says a text as it stands. A refusal to say it changes nothing else.
pub fn say<P: Place>(text: &str, place: &mut P)
    ensures says { Says text.now (P.outside place.old) (P.outside place.new) }
    ensures freely { P.says_freely place.old text.now
        → SaysSurely text.now (P.outside place.old) (P.outside place.new) }
    ensures kept { OnlySays (P.outside place.old) (P.outside place.new) }
{
    let _refused = place.say(text.as_bytes());
}

/// Says the text of a fault of the inputs of these names. One without a name or a place needs no memory; it
/// is said as it stands. A refusal to say a text, or want of memory for one that is made, changes nothing
/// else.
#[tactic(auto, unfolding(crate::specs::Texts::input_fault_text))]
pub fn say_input_fault<P: Place>(
    alloc: Global,
    image: &str,
    script: &str,
    fault: InputFault,
    place: &mut P,
)
    ensures says { Says (input_fault_text image.now script.now fault)
        (P.outside place.old) (P.outside place.new) }
    ensures kept { OnlySays (P.outside place.old) (P.outside place.new) }
{
    match fault {
        InputFault::BadImage => say("bad image\n", place),
        InputFault::OutOfMemory => say("out of memory\n", place),
        InputFault::BadScript { .. } | InputFault::Unread { .. } => {
            say_made(alloc, image, script, fault, place)
        }
    }
}

/// Says the text of a fault, which is made first, in one piece.
fn say_made<P: Place>(alloc: Global, image: &str, script: &str, fault: InputFault, place: &mut P)
    ensures says { Says (input_fault_text image.now script.now fault)
        (P.outside place.old) (P.outside place.new) }
    ensures kept { OnlySays (P.outside place.old) (P.outside place.new) }
{
    let mut text = Vec::new(alloc);
    if put_input_fault(&mut text, image, script, fault).is_ok() {
        let _refused = place.say(&text);
    }
}

/// Appends the text of a fault of the inputs of these names. After a refusal a part may have been appended.
#[tactic(auto, unfolding(crate::specs::Texts::input_fault_text))]
pub fn put_input_fault(
    text: &mut Vec<u8>,
    image: &str,
    script: &str,
    fault: InputFault,
) -> Result<(), OutOfMemory>
    ensures { OnOk result (text.new.items ≡ text.old.items
        ++ input_fault_text image.now script.now fault) }
{
    match fault {
        InputFault::BadImage => put(text, "bad image\n"),
        InputFault::BadScript { line, kind } => put_bad_line(text, line, kind),
        InputFault::Unread { input } => {
            put_named(text, "cannot read ", input_name(image, script, input))
        }
        InputFault::OutOfMemory => put(text, "out of memory\n"),
    }
}

fn input_name<'a>(image: &'a str, script: &'a str, input: InputFile) -> &'a str
    ensures { result.now ≡ name_of_input image.now script.now input }
{
    match input {
        InputFile::Image => image,
        InputFile::Script => script,
    }
}

/// Appends a text.
pub fn put(text: &mut Vec<u8>, piece: &str) -> Result<(), OutOfMemory>
    ensures { OnOk result (text.new.items ≡ text.old.items ++ piece.now) }
{
    text.extend_from_slice(piece.as_bytes())?;
    Ok(())
}

/// Appends a text and a name, and ends the line. After a refusal a part may have been appended.
pub fn put_named(text: &mut Vec<u8>, start: &str, name: &str) -> Result<(), OutOfMemory>
    ensures { OnOk result (text.new.items ≡ text.old.items
        ++ (start.now ++ name.now ++ codes "\n")) }
{
    put(text, start)?;
    put(text, name)?;
    put(text, "\n")
}

/// Appends the line that tells place and kind of a script's bad line. After a refusal a part may have been
/// appended.
pub fn put_bad_line(text: &mut Vec<u8>, line: u32, kind: BadKind) -> Result<(), OutOfMemory>
    ensures { OnOk result (text.new.items ≡ text.old.items
        ++ (codes "bad script: line " ++ decimal line ++ codes ": " ++ kind_name kind
        ++ codes "\n")) }
{
    put(text, "bad script: line ")?;
    put_dec(line as u64, text)?;
    put_named(text, ": ", kind.name())
}
