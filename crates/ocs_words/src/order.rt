//! The words of the command line.

ghost use Rattle.std.specs.Prelude.{◌≡◌, ◌<◌, ◌≤◌, ◌∷◌, map, length, string_bytes, IfSome};
ghost use Rattle.ocs_words.specs.Order.{order_of, order_from, run_words_of, band_of, workers_of};
ghost use Rattle.ocs_words.specs.Order.{extra_of, extra_names};
ghost use Rattle.ocs_words.specs.Asked.{AreApart, IsHeight, IsOrder, AreRunWords, words_value, IsExtra, extra_value};
ghost use Rattle.run_inputs.specs.Names.{are_names as names_of};

use ocs_io::dec;
use run_inputs::are_names;

/// The file that a run has besides those of every run: none, the name of the file to which what it
/// sounds is written, or the name of the file from which its disk is read.
#[derive(Clone, Copy)]
pub enum Extra<'a> {
    None,
    Audio(&'a str),
    Track(&'a str),
}

impl<'a> Extra<'a> {
    ghost use Rattle.std.specs.Prelude.{◌≡◌, option_map};
    ghost use Rattle.ocs_words.specs.Order.{audio_of, track_of};
    ghost use Rattle.ocs_words.specs.Asked.{extra_value};

    /// The name of the audio file, where there is one.
    pub fn audio(self) -> Option<&'a str>
        ensures { option_map (λ name. name.now) result ≡ audio_of (extra_value self.entry) }
    {
        match self {
            Extra::None => None,
            Extra::Audio(name) => Some(name),
            Extra::Track(_) => None,
        }
    }

    /// The name of the track, where there is one.
    pub fn track(self) -> Option<&'a str>
        ensures { option_map (λ name. name.now) result ≡ track_of (extra_value self.entry) }
    {
        match self {
            Extra::None => None,
            Extra::Audio(_) => None,
            Extra::Track(name) => Some(name),
        }
    }
}

/// What the words of a run ask for: `run IMAGE SCRIPT FRAMES TRACE MEMORY BAND WORKERS`, and with a sixth
/// name behind MEMORY `sound` or `disk`. The names differ and are not empty, `band` is 1 to 313 lines,
/// and `workers` at most 32.
#[derive(Clone, Copy)]
pub struct Order<'a> {
    pub image: &'a str,
    pub script: &'a str,
    pub frames: &'a str,
    pub trace: &'a str,
    pub memory: &'a str,
    pub extra: Extra<'a>,
    pub band: u16,
    pub workers: u8,
}

/// The words of a run behind the first.
#[derive(Clone, Copy)]
struct RunWords<'a> {
    image: &'a str,
    script: &'a str,
    frames: &'a str,
    trace: &'a str,
    memory: &'a str,
    extra: Extra<'a>,
    band: &'a str,
    workers: &'a str,
}

/// Reads the words of a run; None exactly where they are not of the form above.
pub fn read_order(words: &[String]) -> Option<Order<'_>>
    ensures order { IsOrder (order_of (map string_bytes words.now)) result }
    ensures apart { IfSome result AreApart }
    ensures height { IfSome result (λ order. IsHeight order.band) }
    ensures few { IfSome result (λ order. order.workers ≤ 32) }
{
    match run_words(words) {
        Some(words) => order_in(words),
        None => None,
    }
}

/// The words of a run, where they are eight, or nine with a sixth name.
fn run_words(words: &[String]) -> Option<RunWords<'_>>
    ensures { AreRunWords (run_words_of (map string_bytes words.now)) result }
{
    let [command, image, script, frames, trace, memory, rest @ ..] = words else {
        return None;
    };
    match rest {
        [band, workers] if command.as_str() == "run" => Some(RunWords {
            image: image.as_str(),
            script: script.as_str(),
            frames: frames.as_str(),
            trace: trace.as_str(),
            memory: memory.as_str(),
            extra: Extra::None,
            band: band.as_str(),
            workers: workers.as_str(),
        }),
        [name, band, workers] => Some(RunWords {
            image: image.as_str(),
            script: script.as_str(),
            frames: frames.as_str(),
            trace: trace.as_str(),
            memory: memory.as_str(),
            extra: read_extra(command.as_str(), name.as_str())?,
            band: band.as_str(),
            workers: workers.as_str(),
        }),
        _ => None,
    }
}

/// What the sixth name is of, by the first word.
fn read_extra<'a>(command: &str, name: &'a str) -> Option<Extra<'a>>
    ensures { IsExtra (extra_of command.now name.now) result }
{
    if command == "sound" {
        Some(Extra::Audio(name))
    } else if command == "disk" {
        Some(Extra::Track(name))
    } else {
        None
    }
}

/// What the words ask for.
fn order_in(words: RunWords<'_>) -> Option<Order<'_>>
    ensures order { IsOrder (order_from (words_value words.entry)) result }
    ensures apart { IfSome result AreApart }
    ensures height { IfSome result (λ order. IsHeight order.band) }
    ensures few { IfSome result (λ order. order.workers ≤ 32) }
{
    let RunWords {
        image,
        script,
        frames,
        trace,
        memory,
        extra,
        band,
        workers,
    } = words;
    if !have_names(&words) {
        return None;
    }
    let Some(band) = read_band(band) else {
        return None;
    };
    let Some(workers) = read_workers(workers) else {
        return None;
    };
    Some(Order {
        image,
        script,
        frames,
        trace,
        memory,
        extra,
        band,
        workers,
    })
}

/// Whether the names of the files are not empty, and no two of them one.
fn have_names(words: &RunWords<'_>) -> bool
    ensures { result ≡ names_of (words.now.image.now ∷ words.now.script.now
        ∷ words.now.frames.now ∷ words.now.trace.now ∷ words.now.memory.now
        ∷ extra_names (extra_value words.now.extra)) }
{
    let RunWords {
        image,
        script,
        frames,
        trace,
        memory,
        ..
    } = *words;
    match words.extra {
        Extra::None => are_names(&[image, script, frames, trace, memory]),
        Extra::Audio(name) => are_names(&[image, script, frames, trace, memory, name]),
        Extra::Track(name) => are_names(&[image, script, frames, trace, memory, name]),
    }
}

/// The number of lines of a band.
pub fn read_band(text: &str) -> Option<u16>
    ensures value { result ≡ band_of text.now }
    ensures height { IfSome result IsHeight }
{
    let band = dec(text.as_bytes())?;
    if (1..=313).contains(&band) {
        Some(band as u16)
    } else {
        None
    }
}

/// The number of workers.
pub fn read_workers(text: &str) -> Option<u8>
    ensures value { result ≡ workers_of text.now }
    ensures few { IfSome result (λ workers. workers ≤ 32) }
{
    let workers = dec(text.as_bytes())?;
    if workers <= 32 {
        Some(workers as u8)
    } else {
        None
    }
}
