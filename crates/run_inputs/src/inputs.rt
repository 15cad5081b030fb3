//! The inputs of a run: the image of chip memory, and the script.

ghost use Rattle.std.specs.Prelude.{◌≡◌, true, IfOk, IfErr};
ghost use Rattle.ocs_io.specs.Place.{OnlyReads};
ghost use Rattle.run_inputs.specs.Inputs.{AreInputsOf, IsInputFault};
ghost use Rattle.run_inputs.specs.Inputs.{IsImageOf, IsImageFault, IsScriptOf, IsScriptFault, IsTextFault};
ghost use Rattle.ocs_base.specs.Limits.{IsRunnable};
ghost use Rattle.script_read.specs.Grammar.{script_of, Good};
ghost use Rattle.ocs_base.specs.Image.{is_image as good_image, fits_chip};
ghost use Rattle.out_files.specs.Places.{LeavesPlace};

use crate::fault::{InputFault, InputFile};
use ocs_base::Script;
use ocs_io::{Place, ReadRefusal};
use script_read::{BadKind, ScriptFault, read_script};
use std::alloc::Global;

/// The most bytes of an image, those of the greater chip memory.
const IMAGE_BYTES: usize = 1_048_576;

/// The most bytes of a script.
const SCRIPT_BYTES: usize = 4_194_304;

/// The inputs of a run: a good image and a good script, whose chip memory it fits.
#[derive(Drop)]
pub struct Inputs {
    pub image: Vec<u8>,
    pub script: Script,
}

/// Reads the image and tests its form, then the script, and then tests whether the image fits the script's
/// chip memory.
pub fn read_inputs<P: Place>(
    alloc: Global,
    image: &str,
    script: &str,
    place: &mut P,
) -> Result<Inputs, InputFault>
    requires image { P.readable place.old image.now }
    requires script { P.readable place.old script.now }
    ensures good { IfOk result (λ inputs. AreInputsOf (P.outside place.old) image.now script.now
        inputs.image.items inputs.script) }
    ensures fault { IfErr result (IsInputFault (P.outside place.old) (P.outside place.new)
        image.now script.now) }
    ensures place { LeavesPlace OnlyReads P.outside P.readable P.growable place.old place.new }
{
    let image = read_image(alloc, image, place)?;
    let script = read_script_file(alloc, script, place)?;
    if !fits(&image, &script) {
        return Err(InputFault::BadImage);
    }
    Ok(Inputs { image, script })
}

/// Whether an image is not longer than a script's chip memory.
fn fits(image: &[u8], script: &Script) -> bool
    ensures { result ≡ fits_chip script.now.chip image.now }
{
    image.len() <= script.chip() as usize
}

/// Reads the image: an even number of 8 to 1,048,576 bytes. Whether they fit the machine's chip memory
/// the script says, which is read later.
fn read_image<P: Place>(alloc: Global, name: &str, place: &mut P) -> Result<Vec<u8>, InputFault>
    requires { P.readable place.old name.now }
    ensures good { IfOk result (λ image. IsImageOf (P.outside place.old) name.now image.items) }
    ensures fault { IfErr result (IsImageFault (P.outside place.old)
        (P.outside place.new) name.now) }
    ensures place { LeavesPlace OnlyReads P.outside P.readable P.growable place.old place.new }
{
    let mut image = Vec::new(alloc);
    match place.read(name, IMAGE_BYTES, &mut image) {
        Ok(()) if is_image(&image) => Ok(image),
        Ok(()) | Err(ReadRefusal::TooLong) => Err(InputFault::BadImage),
        Err(ReadRefusal::Failed) => Err(InputFault::Unread {
            input: InputFile::Image,
        }),
        Err(ReadRefusal::OutOfMemory) => Err(InputFault::OutOfMemory),
    }
}

/// Whether bytes have the form of an image.
fn is_image(image: &[u8]) -> bool
    ensures { result ≡ good_image image.now }
{
    image.len() % 2 == 0 && 8 <= image.len() && image.len() <= IMAGE_BYTES
}

/// Reads the script. A text that is longer than a script may be is bad at line 0.
fn read_script_file<P: Place>(
    alloc: Global,
    name: &str,
    place: &mut P,
) -> Result<Script, InputFault>
    requires { P.readable place.old name.now }
    ensures good { IfOk result (λ script. IsScriptOf (P.outside place.old) name.now script) }
    ensures fault { IfErr result (IsScriptFault (P.outside place.old)
        (P.outside place.new) name.now) }
    ensures place { LeavesPlace OnlyReads P.outside P.readable P.growable place.old place.new }
{
    let mut text = Vec::new(alloc);
    match place.read(name, SCRIPT_BYTES, &mut text) {
        Ok(()) => parse(alloc, &text),
        Err(ReadRefusal::TooLong) => Err(InputFault::BadScript {
            line: 0,
            kind: BadKind::Long,
        }),
        Err(ReadRefusal::Failed) => Err(InputFault::Unread {
            input: InputFile::Script,
        }),
        Err(ReadRefusal::OutOfMemory) => Err(InputFault::OutOfMemory),
    }
}

/// The script of a text.
fn parse(alloc: Global, text: &[u8]) -> Result<Script, InputFault>
    ensures good { IfOk result (λ script. script_of text.now ≡ Good script) }
    ensures runnable { IfOk result IsRunnable }
    ensures fault { IfErr result (IsTextFault text.now) }
{
    match read_script(alloc, text) {
        Ok(script) => Ok(script),
        Err(ScriptFault::Bad { line, kind }) => Err(InputFault::BadScript { line, kind }),
        Err(ScriptFault::OutOfMemory) => Err(InputFault::OutOfMemory),
    }
}
