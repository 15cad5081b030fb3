//! The words of the command `rewind`.

ghost use Rattle.std.specs.Prelude.{◌≡◌, map, string_bytes, Some, None, IfSome, MatchOption};
ghost use Rattle.ocs_words.specs.RewindOrder.{rewind_order_of, every_of, keep_of, clock_of, clocks_of};
ghost use Rattle.ocs_words.specs.Asked.{IsRewindOrder, HasRanges};

use arrayvec::ArrayVec;
use ocs_io::dec;
use run_inputs::are_names;

/// The most clocks that are asked for at once.
const MOST_CLOCKS: usize = 16;

/// The last clock that may be asked for: the most clocks of 1000 frames.
const LAST_CLOCK: u64 = 71_051_000;

/// What the words `rewind IMAGE SCRIPT EVERY KEEP CLOCK..` ask for: the names of the inputs, which differ
/// and are not empty; of every how many frames, 1 to 1000, one begins with a checkpoint; how many
/// checkpoints are kept, 1 to 64; and the clocks, in the order in which they are gone to.
#[derive(Drop)]
pub struct RewindOrder<'a> {
    pub image: &'a str,
    pub script: &'a str,
    pub every: u64,
    pub keep: u64,
    pub clocks: ArrayVec<u64, MOST_CLOCKS>,
}

/// Reads the words of a rewind; None exactly where they are not of the form above. It takes no memory.
pub fn read_rewind_order(words: &[String]) -> Option<RewindOrder<'_>>
    ensures order { IsRewindOrder (rewind_order_of (map string_bytes words.now)) result }
    ensures ranges { IfSome result HasRanges }
{
    let [_, image, script, every, keep, clocks @ ..] = words else {
        return None;
    };
    if !are_names(&[image.as_str(), script.as_str()]) {
        return None;
    }
    let Some(every) = read_every(every.as_str()) else {
        return None;
    };
    let Some(keep) = read_keep(keep.as_str()) else {
        return None;
    };
    let Some(clocks) = read_clocks(clocks) else {
        return None;
    };
    Some(RewindOrder {
        image: image.as_str(),
        script: script.as_str(),
        every,
        keep,
        clocks,
    })
}

/// Of every how many frames one begins with a checkpoint.
fn read_every(text: &str) -> Option<u64>
    ensures { result ≡ every_of text.now }
{
    let every = dec(text.as_bytes())?;
    if (1..=1000).contains(&every) {
        Some(every)
    } else {
        None
    }
}

/// How many checkpoints are kept.
fn read_keep(text: &str) -> Option<u64>
    ensures { result ≡ keep_of text.now }
{
    let keep = dec(text.as_bytes())?;
    if (1..=64).contains(&keep) {
        Some(keep)
    } else {
        None
    }
}

/// The clocks, where they are one to sixteen.
fn read_clocks(texts: &[String]) -> Option<ArrayVec<u64, MOST_CLOCKS>>
    ensures { MatchOption result (clocks_of (map string_bytes texts.now) ≡ None)
        (λ clocks. clocks_of (map string_bytes texts.now) ≡ Some clocks.items) }
{
    if texts.is_empty() || texts.len() > MOST_CLOCKS {
        return None;
    }
    let mut clocks = ArrayVec::new();
    for text in texts {
        let Some(clock) = read_clock(text.as_str()) else {
            return None;
        };
        clocks.push(clock);
    }
    Some(clocks)
}

/// A clock that may be asked for.
fn read_clock(text: &str) -> Option<u64>
    ensures { result ≡ clock_of text.now }
{
    let clock = dec(text.as_bytes())?;
    if clock <= LAST_CLOCK {
        Some(clock)
    } else {
        None
    }
}
