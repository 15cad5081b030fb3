//! The words of the command line.

ghost use Rattle.std.specs.Prelude.{◌≡◌, ◌<◌, map, string_bytes, IfSome};
ghost use Rattle.slots_run.specs.Order.{order_of, frame_of};
ghost use Rattle.slots_run.specs.code.Order.{IsOrder};

use ocs_io::dec;
use run_inputs::are_names;

/// The most frames of a script.
const MOST_FRAMES: u64 = 1000;

/// What the words `IMAGE SCRIPT FROM TO OUT` ask for: the names of the files, which differ and are not empty,
/// and the frames from `from` on that come before `to`, which is above it and at most 1000.
#[derive(Clone, Copy)]
pub struct SlotsOrder<'a> {
    pub image: &'a str,
    pub script: &'a str,
    pub from: u32,
    pub to: u32,
    pub out: &'a str,
}

/// Reads the words; None exactly where they are not of the form above. It takes no memory.
pub fn read_order(words: &[String]) -> Option<SlotsOrder<'_>>
    ensures order { IsOrder (order_of (map string_bytes words.now)) result }
    ensures range { IfSome result (λ order. order.from < order.to) }
{
    let [image, script, from, to, out] = words else {
        return None;
    };
    if !are_names(&[image.as_str(), script.as_str(), out.as_str()]) {
        return None;
    }
    let Some(from) = read_frame(from.as_str()) else {
        return None;
    };
    let Some(to) = read_frame(to.as_str()) else {
        return None;
    };
    if to <= from {
        return None;
    }
    Some(SlotsOrder {
        image: image.as_str(),
        script: script.as_str(),
        from,
        to,
        out: out.as_str(),
    })
}

/// The number of a frame, or that behind the last.
fn read_frame(text: &str) -> Option<u32>
    ensures { result ≡ frame_of text.now }
{
    let frame = dec(text.as_bytes())?;
    if frame <= MOST_FRAMES {
        Some(frame as u32)
    } else {
        None
    }
}
