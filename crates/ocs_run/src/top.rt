//! The top call: from the words of the command line to the files, the status and what is said.

ghost use Rattle.std.specs.Prelude.{◌≡◌, ◌⊎◌, ◌↔◌, map, string_bytes, None};
ghost use Rattle.ocs_io.specs.Answers.{WhereTold};
ghost use Rattle.ocs_io.specs.Place.{Rose};
ghost use Rattle.ocs_words.specs.Words.{command_of};
ghost use Rattle.ocs_run.specs.Verdict.{of_command};
ghost use Rattle.ocs_run.specs.Command.{IsDone, IsUnwritten, IsWanting};
ghost use Rattle.ocs_run.specs.Top.{ReadableInputs, ReadableCommand, CommandAnswers, SaysNothingElse, SaysStatus, IsEarly};
ghost use Rattle.ocs_run.specs.Top.{WritesNoFile, IsRefused, HasBadImage, HasBadScript, HasBadTrack, Completed, HasRunEnd};
ghost use Rattle.ocs_words.specs.Texts.{usage_text};
ghost use Rattle.run_inputs.specs.Texts.{SaysSurely};

use crate::command::run_order;
use crate::rewind::run_rewind;
use crate::scene::run_scene;
use crew::Gate;
use ocs_io::Place;
use ocs_words::{Command, Fault, read_command, say_fault};
use std::alloc::Global;
use std::sync::Wait;
use std::thread::Threads;

/// Does what the words ask for and answers the exit status.
///
/// `run IMAGE SCRIPT FRAMES TRACE MEMORY BAND WORKERS` runs the script over the image and writes the
/// three files: 0 done; 2 the words are not of this form; 3 the image is bad; 4 the script is bad; 5 an
/// input could not be read; 6 a file could not be written; 7 memory was wanting. Each status but 0 says
/// its text. The image is bad where it is not an even number of 8 to 1,048,576 bytes, which is seen before
/// the script is read, and where the script is good and says less chip memory than the image has bytes.
///
/// `sound IMAGE SCRIPT FRAMES TRACE MEMORY AUDIO BAND WORKERS` is `run` with Paula's four audio channels,
/// and writes what they sound: two bytes, left and right, for clock 0 and for clock 114 of each line.
/// Its statuses are those of `run`.
///
/// `disk IMAGE SCRIPT FRAMES TRACE MEMORY TRACK BAND WORKERS` is `run` with a disk that has this track.
/// Its statuses are those of `run`, and 9 where image and script are good, the image fits, and the track
/// is not an even number of 2 to 32,768 bytes.
///
/// `gen N BAND WORKERS` runs the scene of the number N on files of its own, and says four lines in one
/// piece: the number of frames, the sum of the frames file's bytes, the number of lines of the trace, and
/// the sum of the memory file's bytes. 0 done; 2 the words are not of this form; 6 the lines could not be
/// said, and no other text is; 7 memory was wanting.
///
/// `rewind IMAGE SCRIPT EVERY KEEP CLOCK..` reads image and script as `run` does, goes to one to sixteen
/// clocks of the run without a side, one after another, and says a line of each, all in one piece. Of every
/// EVERY frames, 1 to 1000, one begins with a checkpoint, of which the latest KEEP, 1 to 64, are kept; each
/// clock is at most 71,051,000. A line has the clock, or the run's last where that comes before it; frame,
/// line, clock of the line and 1 or 0 for a long field; DMACON and COLOR00 in four hexadecimal digits; the
/// sum of the memory's words; and the clock from which it was reached: the present one where that is not
/// above the asked one, else that of the best checkpoint, else 0. 0 done; 2 to 5 and 7 as of `run`; 6 the
/// lines could not be said, and no other text is. It makes no thread and leaves all files as they are.
///
/// BAND is the height of the bands of lines in which the picture is drawn, and WORKERS the number of
/// threads that draw them beside the caller's own; no file depends on either. `gate` is called before
/// each band is drawn, on the thread that draws it. The call may wait.
pub fn ocs_main<
    R: Threads + Wait + Clone + Drop + Send + Sync + 'static,
    P: Place,
    G: Gate + Drop + Send + Sync + 'static,
>(rt: &R, alloc: Global, words: &[String], place: &mut P, gate: G) -> u8
    requires { ReadableInputs (P.readable place.old) (command_of (map string_bytes words.now)) }

    // Done: the files of a run are the texts of the serial run, whole, and every other file is as before.
    ensures done { result ≡ 0 → WhereTold (P.outside place.old).files
        (λ files. IsDone (of_command (command_of (map string_bytes words.now)) files) files
        (P.outside place.new).files) }

    // Each other answer and its cause.
    ensures usage { (result ≡ 2) ↔ (command_of (map string_bytes words.now) ≡ None) }
    ensures image { result ≡ 3 → WhereTold (P.outside place.old).files
        (λ files. HasBadImage (of_command (command_of (map string_bytes words.now)) files)) }
    ensures script { result ≡ 4 → WhereTold (P.outside place.old).files
        (λ files. HasBadScript (of_command (command_of (map string_bytes words.now)) files)) }
    ensures track { result ≡ 9 → WhereTold (P.outside place.old).files
        (λ files. HasBadTrack (of_command (command_of (map string_bytes words.now)) files)) }
    ensures unread { result ≡ 5 → Rose (P.outside place.old).read_faults
        (P.outside place.new).read_faults }
    ensures refused { result ≡ 6 → IsRefused (command_of (map string_bytes words.now))
        (P.outside place.old) (P.outside place.new) }
    ensures unwritten { result ≡ 6 → WhereTold (P.outside place.old).files
        (λ files. IsUnwritten (of_command (command_of (map string_bytes words.now)) files) files
        (P.outside place.new).files) }
    ensures wanting { result ≡ 7 → WhereTold (P.outside place.old).files
        (λ files. IsWanting (of_command (command_of (map string_bytes words.now)) files) files
        (P.outside place.new).files) }
    ensures kept { IsEarly result → (P.outside place.new).files ≡ (P.outside place.old).files }

    // A scene and a rewind leave all files as before, whatever the answer.
    ensures apart { WritesNoFile (command_of (map string_bytes words.now))
        → (P.outside place.new).files ≡ (P.outside place.old).files }

    // Without a rise of its count of faults a command answers by its verdict, or wants memory.
    ensures complete { WhereTold (P.outside place.old).files
        (λ files. Completed (of_command (command_of (map string_bytes words.now)) files)
        (P.outside place.old) (P.outside place.new) result) }

    // The run of a good image and script, also that of a rewind, and that of a scene, of whose texts the
    // clauses speak, have an end.
    ensures ends { WhereTold (P.outside place.old).files
        (λ files. HasRunEnd (of_command (command_of (map string_bytes words.now)) files)) }

    // What is said is the text of the status, and nothing where a run is done; of a scene the summary is
    // said, and of a rewind the lines of its clocks, or a part of them where that was refused.
    ensures said { SaysStatus (map string_bytes words.now) (P.outside place.old)
        (P.outside place.new) result }

    // Words of no form have their usage said, or a part of it where the outside refused, and not nothing
    // for want of memory, where the place needs none of its own for it.
    ensures usage_said { result ≡ 2
        → P.says_freely place.old (usage_text (map string_bytes words.now))
        → SaysSurely (usage_text (map string_bytes words.now)) (P.outside place.old)
        (P.outside place.new) }
{
    match run_words(rt, alloc, words, gate, place) {
        Ok(()) => 0,
        Err(fault) => {
            say_fault(alloc, words, fault, place);
            fault.status()
        }
    }
}

/// Does what the words ask for, and says no text of a fault.
fn run_words<
    R: Threads + Wait + Clone + Drop + Send + Sync + 'static,
    P: Place,
    G: Gate + Drop + Send + Sync + 'static,
>(rt: &R, alloc: Global, words: &[String], gate: G, place: &mut P) -> Result<(), Fault>
    requires readable { ReadableCommand (P.readable place.old)
        (command_of (map string_bytes words.now)) }
    ensures answer { CommandAnswers (command_of (map string_bytes words.now)) (P.outside place.old)
        (P.outside place.new) result }
    ensures said { SaysNothingElse (command_of (map string_bytes words.now))
        (P.outside place.old) (P.outside place.new) }
    ensures untouched { command_of (map string_bytes words.now) ≡ None → place.new ≡ place.old }
{
    match read_command(words) {
        Some(Command::Run(order)) => run_order(rt, alloc, &order, gate, place),
        Some(Command::Gen(scene)) => run_scene(rt, alloc, scene, gate, place),
        Some(Command::Rewind(order)) => run_rewind(alloc, &order, place),
        None => Err(Fault::Usage),
    }
}
