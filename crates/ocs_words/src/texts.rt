//! What each status says.

ghost use Rattle.std.specs.Prelude.{◌≡◌, ◌++◌, [], map, option_map, unwrap_or, string_bytes, codes};
ghost use Rattle.ocs_io.specs.Place.{OnlySays};
ghost use Rattle.ocs_words.specs.Words.{command_of};
ghost use Rattle.ocs_words.specs.Texts.{text_of, usage_text, order_or_none, track_name as name_of_track, output_name as name_of_output};
ghost use Rattle.run_inputs.specs.Texts.{Says, SaysSurely, name_of_input};

use crate::fault::{Fault, Output};
use crate::words::{Command, begins_with, read_command};
use ocs_io::Place;
use out_files::OutFile;
use run_inputs::{InputFile, put_named, say, say_input_fault};
use std::alloc::Global;

/// Says the text of a fault. A text without a name or a place needs no memory; it is said as it stands.
/// A refusal to say a text, or want of memory for one that is made, changes nothing else. Where the place
/// says the form of the words freely, it is never left out for want of memory.
#[tactic(auto, unfolding(crate::specs::Texts::fault_text))]
pub fn say_fault<P: Place>(alloc: Global, words: &[String], fault: Fault, place: &mut P)
    ensures says { Says (text_of (map string_bytes words.now) fault)
        (P.outside place.old) (P.outside place.new) }
    ensures usage { fault ≡ Fault.Usage
        → P.says_freely place.old (usage_text (map string_bytes words.now))
        → SaysSurely (usage_text (map string_bytes words.now)) (P.outside place.old)
        (P.outside place.new) }
    ensures kept { OnlySays (P.outside place.old) (P.outside place.new) }
{
    match fault {
        Fault::Usage => say(usage(words), place),
        Fault::Inputs { fault } => say_input_fault(
            alloc,
            input_name(words, InputFile::Image),
            input_name(words, InputFile::Script),
            fault,
            place,
        ),
        Fault::BadTrack => say("bad track\n", place),
        Fault::UnreadTrack => say_named(alloc, "cannot read ", track_name(words), place),
        Fault::Unwritten { output } => {
            say_named(alloc, "cannot write ", output_name(words, output), place)
        }
        Fault::Unsaid => {}
        Fault::OutOfMemory => say("out of memory\n", place),
    }
}

/// Says a text and a name, and ends the line. The text is made first, and said in one piece.
fn say_named<P: Place>(alloc: Global, start: &str, name: &str, place: &mut P)
    ensures says { Says (start.now ++ name.now ++ codes "\n")
        (P.outside place.old) (P.outside place.new) }
    ensures kept { OnlySays (P.outside place.old) (P.outside place.new) }
{
    let mut text = Vec::new(alloc);
    if put_named(&mut text, start, name).is_ok() {
        let _refused = place.say(&text);
    }
}

/// The form of the words, by the first of them.
#[tactic(auto, unfolding(crate::specs::Texts::usage_text))]
fn usage(words: &[String]) -> &'static str
    ensures { result.now ≡ usage_text (map string_bytes words.now) }
{
    if begins_with(words, "gen") {
        "usage: ocs gen N BAND WORKERS\n"
    } else if begins_with(words, "sound") {
        "usage: ocs sound IMAGE SCRIPT FRAMES TRACE MEMORY AUDIO BAND WORKERS\n"
    } else if begins_with(words, "disk") {
        "usage: ocs disk IMAGE SCRIPT FRAMES TRACE MEMORY TRACK BAND WORKERS\n"
    } else if begins_with(words, "rewind") {
        "usage: ocs rewind IMAGE SCRIPT EVERY KEEP CLOCK..\n"
    } else {
        "usage: ocs run IMAGE SCRIPT FRAMES TRACE MEMORY BAND WORKERS\n"
    }
}

/// The name of image or script, empty where the words are of no command that reads them.
fn input_name(words: &[String], input: InputFile) -> &str
    ensures { result.now ≡ name_of_input
        (order_or_none (command_of (map string_bytes words.now))).image
        (order_or_none (command_of (map string_bytes words.now))).script input }
{
    match (read_command(words), input) {
        (Some(Command::Run(order)), InputFile::Image) => order.image,
        (Some(Command::Run(order)), InputFile::Script) => order.script,
        (Some(Command::Rewind(order)), InputFile::Image) => order.image,
        (Some(Command::Rewind(order)), InputFile::Script) => order.script,
        (Some(Command::Gen(_)), _) => "",
        (None, _) => "",
    }
}

/// The name of the track, empty where the words are of no command that reads one.
fn track_name(words: &[String]) -> &str
    ensures { result.now ≡ name_of_track
        (order_or_none (command_of (map string_bytes words.now))) }
{
    match read_command(words) {
        Some(Command::Run(order)) => or_empty(order.extra.track()),
        Some(Command::Rewind(_)) => "",
        Some(Command::Gen(_)) => "",
        None => "",
    }
}

/// The name of an output, empty where the words are of no command that writes it.
fn output_name(words: &[String], output: Output) -> &str
    ensures { result.now ≡ name_of_output
        (order_or_none (command_of (map string_bytes words.now))) output }
{
    match (read_command(words), output) {
        (Some(Command::Run(order)), Output::File(OutFile::Frames)) => order.frames,
        (Some(Command::Run(order)), Output::File(OutFile::Trace)) => order.trace,
        (Some(Command::Run(order)), Output::File(OutFile::Memory)) => order.memory,
        (Some(Command::Run(order)), Output::Audio) => or_empty(order.extra.audio()),
        (Some(Command::Rewind(_)), _) => "",
        (Some(Command::Gen(_)), _) => "",
        (None, _) => "",
    }
}

/// The name, empty where there is none.
fn or_empty(name: Option<&str>) -> &str
    ensures { result.now ≡ unwrap_or (option_map (λ n. n.now) name.entry) [] }
{
    match name {
        Some(name) => name,
        None => "",
    }
}
