//! A run on real files, whose frames are read back.

use case_texts::inputs::{image, script};
use case_texts::outputs::{frames, memory, trace};
use ocs_io::{Folder, Place};
use ocs_run::{NoGate, ocs_main};
use std::test::Fail;
use std::{fs, process};

/// Eight waits for the lines 60 to 67, each with a write of a shade of blue.
fn bars_told() -> &'static str {
    "run Eight bars.
bands 1 3 20 313
workers 0 1 4
image 4*0000
image 3c01 fffe 0180 0001 3d01 fffe 0180 0002 3e01 fffe 0180 0003 3f01 fffe 0180 0004
image 4001 fffe 0180 0005 4101 fffe 0180 0006 4201 fffe 0180 0007 4301 fffe 0180 0008 ffff fffe
at 0 0 0: 082=0008 088=0000 096=8280
then 0 60 4 W 180 0001 C
then 0 61 4 W 180 0002 C
then 0 62 4 W 180 0003 C
then 0 63 4 W 180 0004 C
then 0 64 4 W 180 0005 C
then 0 65 4 W 180 0006 C
then 0 66 4 W 180 0007 C
then 0 67 4 W 180 0008 C
part 34 34 0 719 000011
part 35 35 0 719 000022
part 36 36 0 719 000033
part 37 37 0 719 000044
part 38 38 0 719 000055
part 39 39 0 719 000066
part 40 40 0 719 000077
part 41 285 0 719 000088"
}

/// The name of a file, which stands in `/tmp` and has the number of this process in it.
fn name(rt: &HostRuntime, file: &str) -> Result<String, Fail> {
    let number = process::id(rt.process());
    let name = format!(in rt.alloc(); "/tmp/ocs_run_{number}_{file}")?;
    Ok(name)
}

/// The words of a run of the five files in bands of 20 lines with two workers.
fn words(rt: &HostRuntime) -> Result<Vec<String>, Fail> {
    let mut words = Vec::new(rt.alloc());
    push_words(rt, &mut words)?;
    Ok(words)
}

/// Appends these words.
fn push_words(rt: &HostRuntime, words: &mut Vec<String>) -> Result<(), Fail> {
    words.push(String::from_str(rt.alloc(), "run")?)?;
    for file in &["image", "script", "frames", "trace", "memory"] {
        words.push(name(rt, file)?)?;
    }
    words.push(String::from_str(rt.alloc(), "20")?)?;
    words.push(String::from_str(rt.alloc(), "2")?)?;
    Ok(())
}

/// Writes a file.
fn write(rt: &HostRuntime, file: &str, bytes: &[u8]) -> Result<(), Fail> {
    let name = name(rt, file)?;
    write_named(rt, name.as_str(), bytes)
}

/// Writes the file of this name.
fn write_named(rt: &HostRuntime, name: &str, bytes: &[u8]) -> Result<(), Fail> {
    let mut folder = Folder::new(rt);
    folder.create(name)?;
    folder.append(name, bytes)?;
    Ok(())
}

/// The bytes of a file, which is then removed.
fn take(rt: &HostRuntime, file: &str) -> Result<Vec<u8>, Fail> {
    let name = name(rt, file)?;
    take_named(rt, name.as_str())
}

/// Those of the file of this name.
fn take_named(rt: &HostRuntime, name: &str) -> Result<Vec<u8>, Fail> {
    let bytes = fs::read(rt, name)?;
    fs::remove_file(rt, name)?;
    Ok(bytes)
}

/// Removes a file that can be read.
fn remove(rt: &HostRuntime, file: &str) -> Result<(), Fail> {
    let _bytes = take(rt, file)?;
    Ok(())
}

/// Whether a file has these bytes; it is then removed.
fn has(rt: &HostRuntime, file: &str, told: &[u8]) -> Result<bool, Fail> {
    let written = take(rt, file)?;
    Ok(written.as_slice() == told)
}

/// Writes the image and the script of the bars.
fn write_inputs(rt: &HostRuntime) -> Result<(), Fail> {
    write_image(rt)?;
    write_script(rt)
}

/// Writes the image.
fn write_image(rt: &HostRuntime) -> Result<(), Fail> {
    let image = image(rt.alloc(), bars_told())?;
    write(rt, "image", &image)
}

/// Writes the script.
fn write_script(rt: &HostRuntime) -> Result<(), Fail> {
    let script = script(rt.alloc(), bars_told())?;
    write(rt, "script", script.as_bytes())
}

/// Whether the file of frames is that of the bars.
fn has_frames(rt: &HostRuntime) -> Result<bool, Fail> {
    let told = frames(rt.alloc(), bars_told())?;
    has(rt, "frames", &told)
}

/// Whether the trace is that of the bars.
fn has_trace(rt: &HostRuntime) -> Result<bool, Fail> {
    let told = trace(rt.alloc(), bars_told())?;
    has(rt, "trace", told.as_bytes())
}

/// Whether the memory is that of the bars.
fn has_memory(rt: &HostRuntime) -> Result<bool, Fail> {
    let told = memory(rt.alloc(), bars_told())?;
    has(rt, "memory", &told)
}

/// Whether the three files are those of the bars; all five are then removed.
fn are_bars(rt: &HostRuntime) -> Result<bool, Fail> {
    remove(rt, "image")?;
    remove(rt, "script")?;
    let found = [has_frames(rt)?, has_trace(rt)?, has_memory(rt)?];
    Ok(found == [true; 3])
}

#[test]
fn bars_on_real_files(rt: HostRuntime) -> Result<(), Fail> {
    write_inputs(&rt)?;
    let words = words(&rt)?;
    let status = ocs_main(&rt, rt.alloc(), &words, &mut Folder::new(&rt), NoGate);
    let are_bars = are_bars(&rt)?;
    assert!(rt; status == 0 && are_bars);
    Ok(())
}
