//! A reader read to its end, and a piece written whole, however few bytes a single call moves.

ghost use Rattle.std.specs.Prelude.{◌≡◌, ◌<◌, ◌≤◌, [], length, IfSome, OnOk, OnErr};
ghost use Rattle.std.specs.Io.KnownBytes.{Appends};
ghost use Rattle.ocs_io.specs.Whole.{GivesAll, AppendsPart};

use crate::place::ReadRefusal;
use std::io::{Read, Write};

/// The writer refused, or took no byte.
#[derive(Clone, Copy, PartialEq, Eq, Debug)]
pub struct Refused;

/// Reads a reader to its end, if at most `cap` bytes are left, into the empty `into`. A read may
/// give fewer bytes than it had room for: only a read that gives none is the end.
pub fn read_whole<F: Read>(
    reader: &mut F,
    cap: usize,
    into: &mut Vec<u8>,
) -> Result<(), ReadRefusal>
    requires { into.old.items ≡ [] }
    ensures all { OnOk result (GivesAll (F.remaining reader.old)
        (F.remaining reader.new) into.new.items) }
    ensures within { OnOk result (length into.new.items ≤ cap) }
    ensures too_long { result ≡ Err ReadRefusal.TooLong
        → IfSome (F.remaining reader.old) (λ bytes. cap < length bytes) }
{
    let mut buffer = [0u8; 4096];
    while into.len() <= cap {
        let room = (cap - into.len()).saturating_add(1).min(buffer.len());
        let Ok(count) = reader.read(&mut buffer[..room]) else {
            return Err(ReadRefusal::Failed);
        };
        if count == 0 {
            return Ok(());
        }
        if into.extend_from_slice(&buffer[..count]).is_err() {
            return Err(ReadRefusal::OutOfMemory);
        }
    }
    Err(ReadRefusal::TooLong)
}

/// Writes all of a piece. A write may take fewer bytes than it was given: the rest is written next.
/// Refused, a part of the piece from its begin may stand written.
pub fn write_whole<W: Write>(writer: &mut W, piece: &[u8]) -> Result<(), Refused>
    ensures all { OnOk result (Appends (W.contents writer.old) (W.contents writer.new) piece.now) }
    ensures part { OnErr result (AppendsPart (W.contents writer.old)
        (W.contents writer.new) piece.now) }
{
    let mut rest = piece;
    while !rest.is_empty() {
        match writer.write(rest) {
            Ok(0) | Err(_) => return Err(Refused),
            Ok(count) => rest = &rest[count..],
        }
    }
    Ok(())
}
