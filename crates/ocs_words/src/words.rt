//! The commands of the command line, by its first word.

ghost use Rattle.std.specs.Prelude.{◌≡◌, ◌≤◌, map, string_bytes, IfSome};
ghost use Rattle.ocs_words.specs.Words.{command_of, scene_order_of, number_of, begins_with as first_is};
ghost use Rattle.ocs_words.specs.Asked.{IsCommand, IsSceneOrder, WritesApart, IsHeight, HasHeight, HasFewWorkers, IsInRange};

use crate::order::{Order, read_band, read_order, read_workers};
use crate::rewind_order::{RewindOrder, read_rewind_order};
use ocs_io::dec;

/// What the words `gen N BAND WORKERS` ask for: the scene of `number`. `band` is 1 to 313 lines, and
/// `workers` at most 32.
#[derive(Clone, Copy)]
pub struct SceneOrder {
    pub number: u32,
    pub band: u16,
    pub workers: u8,
}

/// A command and what it is asked.
#[derive(Drop)]
pub enum Command<'a> {
    Run(Order<'a>),
    Gen(SceneOrder),
    Rewind(RewindOrder<'a>),
}

/// Reads the words; None exactly where they are of no command.
pub fn read_command(words: &[String]) -> Option<Command<'_>>
    ensures command { IsCommand (command_of (map string_bytes words.now)) result }
    ensures apart { IfSome result WritesApart }
    ensures height { IfSome result HasHeight }
    ensures few { IfSome result HasFewWorkers }
    ensures ranges { IfSome result IsInRange }
{
    if begins_with(words, "gen") {
        match read_scene_order(words) {
            Some(scene) => Some(Command::Gen(scene)),
            None => None,
        }
    } else if begins_with(words, "rewind") {
        match read_rewind_order(words) {
            Some(order) => Some(Command::Rewind(order)),
            None => None,
        }
    } else {
        match read_order(words) {
            Some(order) => Some(Command::Run(order)),
            None => None,
        }
    }
}

/// Whether the first word is this one.
pub fn begins_with(words: &[String], name: &str) -> bool
    ensures { result ≡ first_is name.now (map string_bytes words.now) }
{
    match words {
        [command, ..] => command.as_str() == name,
        [] => false,
    }
}

/// Reads the words behind `gen`.
fn read_scene_order(words: &[String]) -> Option<SceneOrder>
    ensures order { IsSceneOrder (scene_order_of (map string_bytes words.now)) result }
    ensures height { IfSome result (λ order. IsHeight order.band) }
    ensures few { IfSome result (λ order. order.workers ≤ 32) }
{
    let [_, number, band, workers] = words else {
        return None;
    };
    let Some(number) = read_number(number.as_str()) else {
        return None;
    };
    let Some(band) = read_band(band.as_str()) else {
        return None;
    };
    let Some(workers) = read_workers(workers.as_str()) else {
        return None;
    };
    Some(SceneOrder {
        number,
        band,
        workers,
    })
}

/// The number of a scene.
fn read_number(text: &str) -> Option<u32>
    ensures { result ≡ number_of text.now }
{
    let number = dec(text.as_bytes())?;
    if number <= 4_294_967_295 {
        Some(number as u32)
    } else {
        None
    }
}
