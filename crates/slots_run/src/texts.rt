//! What each status says.

ghost use Rattle.std.specs.Prelude.{◌≡◌, ◌++◌, map, string_bytes, OnOk};
ghost use Rattle.ocs_io.specs.Place.{OnlySays};
ghost use Rattle.run_inputs.specs.Texts.{Says, SaysSurely};
ghost use Rattle.slots_run.specs.Order.{order_of};
ghost use Rattle.slots_run.specs.code.Order.{value_of};
ghost use Rattle.slots_run.specs.Texts.{text_of, usage_text, unwritten_text, order_or_none as named_in};

use crate::fault::SlotsFault;
use crate::order::{SlotsOrder, read_order};
use ocs_base::OutOfMemory;
use ocs_io::Place;
use run_inputs::{put_named, say, say_input_fault};
use std::alloc::Global;

/// Says the text of a fault. A text without a name or a place needs no memory; it is said as it stands.
/// A refusal to say a text, or want of memory for one that is made, changes nothing else. Where the place
/// says the form of the words freely, it is never left out for want of memory.
#[tactic(auto, unfolding(crate::specs::Texts::fault_text))]
pub fn say_fault<P: Place>(alloc: Global, words: &[String], fault: SlotsFault, place: &mut P)
    ensures says { Says (text_of (map string_bytes words.now) fault)
        (P.outside place.old) (P.outside place.new) }
    ensures usage { fault ≡ SlotsFault.Usage → P.says_freely place.old usage_text
        → SaysSurely usage_text (P.outside place.old) (P.outside place.new) }
    ensures kept { OnlySays (P.outside place.old) (P.outside place.new) }
{
    let order = order_or_none(words);
    match fault {
        SlotsFault::Usage => say("usage: ocs-slots IMAGE SCRIPT FROM TO OUT\n", place),
        SlotsFault::Inputs { fault } => {
            say_input_fault(alloc, order.image, order.script, fault, place)
        }
        SlotsFault::Unwritten => say_unwritten(alloc, order.out, place),
        SlotsFault::OutOfMemory => say("out of memory\n", place),
    }
}

/// Says that the file of this name could not be written. The text is made first, and said in one piece.
fn say_unwritten<P: Place>(alloc: Global, name: &str, place: &mut P)
    ensures says { Says (unwritten_text name.now) (P.outside place.old) (P.outside place.new) }
    ensures kept { OnlySays (P.outside place.old) (P.outside place.new) }
{
    let mut text = Vec::new(alloc);
    if put_unwritten(name, &mut text).is_ok() {
        let _refused = place.say(&text);
    }
}

/// Appends that text.
#[tactic(auto, unfolding(crate::specs::Texts::unwritten_text))]
fn put_unwritten(name: &str, text: &mut Vec<u8>) -> Result<(), OutOfMemory>
    ensures { OnOk result (text.new.items ≡ text.old.items ++ unwritten_text name.now) }
{
    put_named(text, "cannot write ", name)
}

/// What the words ask for, with empty names where they are not of the form.
fn order_or_none(words: &[String]) -> SlotsOrder<'_>
    ensures { value_of result ≡ named_in (order_of (map string_bytes words.now)) }
{
    match read_order(words) {
        Some(order) => order,
        None => SlotsOrder {
            image: "",
            script: "",
            from: 0,
            to: 0,
            out: "",
        },
    }
}
