//! The top call: from the words of the command line to the file, the status and what is said.

ghost use Rattle.std.specs.Prelude.{◌≡◌, ◌<◌, ◌↔◌, map, string_bytes, None};
ghost use Rattle.ocs_io.specs.Answers.{WhereTold};
ghost use Rattle.ocs_io.specs.Place.{Rose};
ghost use Rattle.run_inputs.specs.Texts.{SaysSurely, KeepsSaid};
ghost use Rattle.slots_run.specs.Order.{order_of};
ghost use Rattle.slots_run.specs.code.Order.{value_of};
ghost use Rattle.slots_run.specs.Texts.{usage_text};
ghost use Rattle.slots_run.specs.Top.{ReadableInputs, OrderAnswers, WordsAnswers, IsDone, IsUnwritten, IsWanting};
ghost use Rattle.slots_run.specs.Top.{IsEarly, HasBadImage, HasBadScript, Completed, SaysStatus};
ghost use Rattle.slots_run.specs.Verdict.{of_words};

use crate::fault::SlotsFault;
use crate::file::write_file;
use crate::log::make_log;
use crate::order::{SlotsOrder, read_order};
use crate::texts::say_fault;
use ocs_io::Place;
use run_inputs::{Inputs, read_inputs};
use std::alloc::Global;

/// Does what the words `IMAGE SCRIPT FROM TO OUT` ask for and answers the exit status: runs the script over
/// the image, without a side, and writes to OUT the log of the slots of the frames FROM up to TO, which is
/// not among them. FROM is below TO, and TO at most 1000. Where the script has fewer frames, those that it
/// has are logged; where it has not even FROM, the file is the heading alone.
///
/// 0 done; 2 the words are not of this form; 3 the image is bad; 4 the script is bad; 5 an input could not be
/// read; 6 OUT could not be written; 7 memory was wanting. Each status but 0 says its text. What a bad image
/// is, and the order in which the inputs are looked at, is that of the command `run` of `ocs`. OUT is created
/// once the log is whole.
pub fn slots_main<P: Place>(alloc: Global, words: &[String], place: &mut P) -> u8
    requires { ReadableInputs (P.readable place.old) (order_of (map string_bytes words.now)) }

    // Done: the file is the log, whole, and every other file is as before.
    ensures done { result ≡ 0 → WhereTold (P.outside place.old).files
        (λ files. IsDone (of_words (map string_bytes words.now) files) files
        (P.outside place.new).files) }

    // Each other answer and its cause.
    ensures usage { (result ≡ 2) ↔ (order_of (map string_bytes words.now) ≡ None) }
    ensures image { result ≡ 3 → WhereTold (P.outside place.old).files
        (λ files. HasBadImage (of_words (map string_bytes words.now) files)) }
    ensures script { result ≡ 4 → WhereTold (P.outside place.old).files
        (λ files. HasBadScript (of_words (map string_bytes words.now) files)) }
    ensures unread { result ≡ 5 → Rose (P.outside place.old).read_faults
        (P.outside place.new).read_faults }
    ensures refused { result ≡ 6 → Rose (P.outside place.old).write_faults
        (P.outside place.new).write_faults }
    ensures unwritten { result ≡ 6 → WhereTold (P.outside place.old).files
        (λ files. IsUnwritten (of_words (map string_bytes words.now) files) files
        (P.outside place.new).files) }
    ensures wanting { result ≡ 7 → WhereTold (P.outside place.old).files
        (λ files. IsWanting (of_words (map string_bytes words.now) files) files
        (P.outside place.new).files) }
    ensures kept { IsEarly result → (P.outside place.new).files ≡ (P.outside place.old).files }

    // Without a rise of its count of faults it answers by the verdict, or wants memory.
    ensures complete { WhereTold (P.outside place.old).files
        (λ files. Completed (of_words (map string_bytes words.now) files)
        (P.outside place.old) (P.outside place.new) result) }

    // What is said is the text of the status, and nothing where it is done.
    ensures said { SaysStatus (map string_bytes words.now) (P.outside place.old)
        (P.outside place.new) result }

    // Words of no form have their usage said, or a part of it where the outside refused, and not nothing
    // for want of memory, where the place needs none of its own for it.
    ensures usage_said { result ≡ 2 → P.says_freely place.old usage_text
        → SaysSurely usage_text (P.outside place.old) (P.outside place.new) }
{
    match write_slots(alloc, words, place) {
        Ok(()) => 0,
        Err(fault) => {
            say_fault(alloc, words, fault, place);
            fault.status()
        }
    }
}

/// Does what the words ask for, and says no text of a fault.
fn write_slots<P: Place>(alloc: Global, words: &[String], place: &mut P) -> Result<(), SlotsFault>
    requires { ReadableInputs (P.readable place.old) (order_of (map string_bytes words.now)) }
    ensures answer { WordsAnswers (order_of (map string_bytes words.now)) (P.outside place.old)
        (P.outside place.new) result }
    ensures said { KeepsSaid (P.outside place.old) (P.outside place.new) }
    ensures untouched { order_of (map string_bytes words.now) ≡ None → place.new ≡ place.old }
{
    match read_order(words) {
        Some(order) => write_order(alloc, &order, place),
        None => Err(SlotsFault::Usage),
    }
}

/// Reads image and script as a run does, and writes the log.
fn write_order<P: Place>(
    alloc: Global,
    order: &SlotsOrder<'_>,
    place: &mut P,
) -> Result<(), SlotsFault>
    requires image { P.readable place.old order.now.image.now }
    requires script { P.readable place.old order.now.script.now }
    requires range { order.now.from < order.now.to }
    ensures answer { OrderAnswers (value_of order.now) (P.outside place.old)
        (P.outside place.new) result }
    ensures said { KeepsSaid (P.outside place.old) (P.outside place.new) }
{
    let Inputs { image, script } = read_inputs(alloc, order.image, order.script, place)?;
    let text = make_log(alloc, image, script, order.from, order.to)?;
    write_file(order.out, &text, place)
}
