//! Each public call once with ample memory; the numbers and the files are worked by hand.

ghost use Rattle.std.specs.Prelude.{◌≡◌, []};

use crate::answers::hold;
use ocs_base::OutOfMemory;
use ocs_io::whole::{Refused, read_whole, write_whole};
use ocs_io::{
    Folder, Place, ReadRefusal, Shelf, SureShelf, WriteRefusal, dec, hex, put_dec, put_hex,
};
use std::alloc::Global;
use std::io::{ErrorKind, Read, Write};
use std::rt::Files;
use std::test::Fail;
use std::{fs, io, process};

const GREATEST: &[u8] = b"18446744073709551615";

/// Texts and the decimal numbers that they are, if they are any.
static DECIMALS: [(&[u8], Option<u64>); 11] = [
    (b"0", Some(0)),
    (b"313", Some(313)),
    (GREATEST, Some(u64::MAX)),
    (b"", None),
    (b"01", None),
    (b"00", None),
    (b"+1", None),
    (b"-1", None),
    (b" 1", None),
    (b"1a", None),
    (b"18446744073709551616", None),
];

/// Whether each text is read as its decimal number.
fn are_decimals(cases: &[(&[u8], Option<u64>)]) -> bool {
    for (text, number) in cases {
        if dec(text) != *number {
            return false;
        }
    }
    true
}

#[test]
fn decimal_texts(rt: HostRuntime) {
    hold(&rt, are_decimals(&DECIMALS));
}

/// Texts and the hexadecimal numbers of at most four digits that they are, if they are any.
static HEXADECIMALS: [(&[u8], Option<u16>); 8] = [
    (b"f", Some(15)),
    (b"0180", Some(0x180)),
    (b"ffff", Some(0xffff)),
    (b"", None),
    (b"00000", None),
    (b"FF", None),
    (b"1g", None),
    (b"0x1", None),
];

/// Whether each text is read as its hexadecimal number.
fn are_hexadecimals(cases: &[(&[u8], Option<u16>)]) -> bool {
    for (text, number) in cases {
        if hex(text) != *number {
            return false;
        }
    }
    true
}

#[test]
fn hexadecimal_texts(rt: HostRuntime) {
    hold(&rt, are_hexadecimals(&HEXADECIMALS));
}

/// Appends numbers of both kinds.
fn put_numbers(text: &mut Vec<u8>) -> bool {
    put_dec(0, text).is_ok()
        && put_dec(u64::MAX, text).is_ok()
        && put_hex(0x1fe, 3, text).is_ok()
        && put_hex(0x0f00, 4, text).is_ok()
        && put_hex(0xa, 2, text).is_ok()
        && put_hex(0xf, 3, text).is_ok()
}

/// Whether numbers of both kinds are appended to a text.
fn has_numbers(alloc: Global) -> bool {
    match Vec::from_slice(alloc, b"n=") {
        Ok(mut text) => {
            let want = b"n=0184467440737095516151fe0f000a00f".as_slice();
            put_numbers(&mut text) && text.as_slice() == want
        }
        Err(_) => false,
    }
}

#[test]
fn numbers_are_written(rt: HostRuntime) {
    hold(&rt, has_numbers(rt.alloc()));
}

/// Whether a shelf has a file of these bytes.
fn holds(shelf: &Shelf, name: &str, bytes: &[u8]) -> bool {
    shelf.file(name) == Some(bytes)
}

/// Files are read, put, created and appended to, and a text is said.
#[tactic(auto, using(ocs_io::proofs::ShelfLaws::held))]
fn keeps_files(shelf: &mut Shelf, into: &mut Vec<u8>) -> bool
    requires { into.old.items ≡ [] }
{
    shelf.read("none", 9, into) == Err(ReadRefusal::Failed)
        && shelf.put("a", b"abc").is_ok()
        && shelf.read("a", 2, into) == Err(ReadRefusal::TooLong)
        && shelf.read("a", 3, into).is_ok()
        && into.as_slice() == b"abc".as_slice()
        && shelf.append("a", b"de").is_ok()
        && shelf.create("b").is_ok()
        && shelf.say(b"said").is_ok()
        && holds(shelf, "a", b"abcde")
        && holds(shelf, "b", b"")
        && shelf.file("c").is_none()
        && shelf.create("a").is_ok()
        && holds(shelf, "a", b"")
        && shelf.said() == b"said".as_slice()
}

#[test]
fn a_shelf_keeps_files(rt: HostRuntime) {
    let alloc = rt.alloc();
    hold(
        &rt,
        keeps_files(&mut Shelf::new(alloc), &mut Vec::new(alloc)),
    );
}

/// Chooses calls that are to fail.
fn fail_at_all(shelf: &mut Shelf, calls: &[u64]) -> Result<(), OutOfMemory> {
    for call in calls {
        shelf.fail_at(*call)?;
    }
    Ok(())
}

/// Of the calls 0 to 6 the calls 0, 1, 3 and 4 fail, and putting a file is no call.
#[tactic(auto, using(ocs_io::proofs::ShelfLaws::held))]
fn fails_as_chosen(shelf: &mut Shelf, into: &mut Vec<u8>) -> bool
    requires { into.old.items ≡ [] }
{
    shelf.put("a", b"abc").is_ok()
        && fail_at_all(shelf, &[0, 1, 3, 4]).is_ok()
        && shelf.read("a", 9, into) == Err(ReadRefusal::Failed)
        && shelf.create("a") == Err(WriteRefusal::Failed)
        && shelf.read("a", 9, into).is_ok()
        && shelf.append("a", b"defgh") == Err(WriteRefusal::Failed)
        && shelf.say(b"xyz") == Err(WriteRefusal::Failed)
        && shelf.say(b"!").is_ok()
        && holds(shelf, "a", b"abcde")
        && shelf.said() == b"x!".as_slice()
}

#[test]
fn chosen_calls_fail(rt: HostRuntime) {
    let alloc = rt.alloc();
    hold(
        &rt,
        fails_as_chosen(&mut Shelf::new(alloc), &mut Vec::new(alloc)),
    );
}

/// No call fails but a read of a file that is too long.
#[tactic(auto, using(ocs_io::proofs::ShelfLaws::held))]
fn never_fails(shelf: &mut SureShelf, into: &mut Vec<u8>) -> bool
    requires { into.old.items ≡ [] }
{
    shelf.put("a", b"abc").is_ok()
        && shelf.read("a", 2, into) == Err(ReadRefusal::TooLong)
        && shelf.read("a", 3, into).is_ok()
        && shelf.create("b").is_ok()
        && shelf.append("b", into.as_slice()).is_ok()
        && shelf.append("b", b"d").is_ok()
        && shelf.say(b"done").is_ok()
        && shelf.file("b") == Some(b"abcd".as_slice())
        && shelf.said() == b"done".as_slice()
}

#[test]
fn a_sure_shelf_never_fails(rt: HostRuntime) {
    let alloc = rt.alloc();
    hold(
        &rt,
        never_fails(&mut SureShelf::new(alloc), &mut Vec::new(alloc)),
    );
}

/// A file of the system is made, grown and read; what is not there or too long is refused.
fn grows_a_file<R: Files + Print>(folder: &mut Folder<R>, name: &str, into: &mut Vec<u8>) -> bool
    requires { into.old.items ≡ [] }
{
    folder.read(name, 9, into) == Err(ReadRefusal::Failed)
        && folder.append(name, b"abc") == Err(WriteRefusal::Failed)
        && folder.create(name).is_ok()
        && folder.append(name, b"abc").is_ok()
        && folder.append(name, b"de").is_ok()
        && folder.read(name, 4, into) == Err(ReadRefusal::TooLong)
        && into.is_empty()
        && folder.read(name, 5, into).is_ok()
        && into.as_slice() == b"abcde".as_slice()
}

/// A file of the system is made anew, a folder is not made, and nothing is said.
fn empties_a_file<R: Files + Print>(folder: &mut Folder<R>, name: &str, into: &mut Vec<u8>) -> bool
    requires { into.old.items ≡ [] }
{
    folder.create(name).is_ok()
        && folder.read(name, 0, into).is_ok()
        && into.is_empty()
        && folder.create("/") == Err(WriteRefusal::Failed)
        && folder.say(b"").is_ok()
}

/// Whether both are so.
fn keeps_a_file<R: Files + Print>(folder: &mut Folder<R>, alloc: Global, name: &str) -> bool {
    let is_grown = grows_a_file(folder, name, &mut Vec::new(alloc));
    let is_emptied = empties_a_file(folder, name, &mut Vec::new(alloc));
    is_grown && is_emptied
}

#[test]
fn a_folder_on_a_real_file(rt: HostRuntime) -> Result<(), Fail> {
    let name = format!(in rt.alloc(); "/tmp/ocs_io_test_{}", process::id(rt.process()))?;
    let is_kept = keeps_a_file(&mut Folder::new(&rt), rt.alloc(), &name);
    fs::remove_file(&rt, &name)?;
    hold(&rt, is_kept);
    Ok(())
}

/// A stream in memory of which each read and each write moves at most `step` bytes, and that
/// refuses to hold more than `room`.
#[derive(Drop)]
struct Trickle {
    bytes: Vec<u8>,
    at: usize,
    step: usize,
    room: usize,
}

impl Read for Trickle {
    fn read(&mut self, buf: &mut [u8]) -> io::Result<usize> {
        let rest = self.bytes.get(self.at..).unwrap_or(&[]);
        let count = buf.len().min(rest.len()).min(self.step);
        buf[..count].copy_from_slice(&rest[..count]);
        self.at = self.at.saturating_add(count);
        Ok(count)
    }
}

impl Write for Trickle {
    fn write(&mut self, buf: &[u8]) -> io::Result<usize> {
        let count = buf.len().min(self.step);
        if self.bytes.len().saturating_add(count) > self.room {
            return Err(io::Error::from(ErrorKind::Other));
        }
        match self.bytes.extend_from_slice(&buf[..count]) {
            Ok(()) => Ok(count),
            Err(_) => Err(io::Error::from(ErrorKind::OutOfMemory)),
        }
    }

    fn flush(&mut self) -> io::Result<()> {
        Ok(())
    }
}

/// A stream of these bytes.
fn stream_of(bytes: Vec<u8>) -> Trickle {
    Trickle {
        bytes,
        at: 0,
        step: 2,
        room: 0,
    }
}

/// How a stream of the bytes `abcde` is read whole, or nothing where there is no memory for it.
fn answer_of(alloc: Global, cap: usize, into: &mut Vec<u8>) -> Option<Result<(), ReadRefusal>>
    requires { into.old.items ≡ [] }
{
    match Vec::from_slice(alloc, b"abcde") {
        Ok(bytes) => Some(read_whole(&mut stream_of(bytes), cap, into)),
        Err(_) => None,
    }
}

/// A stream of the bytes `abcde` is read whole, with this answer.
fn reads_whole(alloc: Global, cap: usize, want: Result<(), ReadRefusal>) -> bool {
    let mut into = Vec::new(alloc);
    let is_answer = answer_of(alloc, cap, &mut into) == Some(want);
    is_answer && (want.is_err() || into.as_slice() == b"abcde".as_slice())
}

#[test]
fn short_reads_are_read_on(rt: HostRuntime) {
    let found = [
        reads_whole(rt.alloc(), 5, Ok(())),
        reads_whole(rt.alloc(), 9, Ok(())),
        reads_whole(rt.alloc(), 4, Err(ReadRefusal::TooLong)),
        reads_whole(rt.alloc(), 0, Err(ReadRefusal::TooLong)),
    ];
    hold(&rt, found == [true; 4]);
}

/// Whether the bytes `abcde` are written to a stream of this room and step with success, or else are
/// refused, and it holds these.
fn writes_whole(alloc: Global, room: usize, step: usize, succeeds: bool, held: &[u8]) -> bool {
    let mut stream = Trickle {
        bytes: Vec::new(alloc),
        at: 0,
        step,
        room,
    };
    let want = if succeeds { Ok(()) } else { Err(Refused) };
    write_whole(&mut stream, b"abcde") == want && stream.bytes.as_slice() == held
}

#[test]
fn short_writes_are_written_on(rt: HostRuntime) {
    let found = [
        writes_whole(rt.alloc(), 9, 2, true, b"abcde"),
        writes_whole(rt.alloc(), 5, 9, true, b"abcde"),
        writes_whole(rt.alloc(), 4, 2, false, b"abcd"),
        writes_whole(rt.alloc(), 9, 0, false, b""),
    ];
    hold(&rt, found == [true; 4]);
}
