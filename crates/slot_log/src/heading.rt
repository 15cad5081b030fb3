//! The heading of a file that has the log of slots.

ghost use Rattle.std.specs.Prelude.{◌≡◌, ◌++◌, OnOk, codes, decimal};
ghost use Rattle.slot_log.specs.Heading.{heading, system_name};

use ocs_base::{OutOfMemory, System};
use ocs_io::put_dec;

/// Appends the heading of the log of the frames `from` to `to` of a machine with so many bytes of chip
/// memory. After a refusal a part may have been appended.
pub fn put_heading(
    system: System,
    from: u32,
    to: u32,
    bytes: u32,
    into: &mut Vec<u8>,
) -> Result<(), OutOfMemory>
    ensures { OnOk result (into.new.items ≡ into.old.items ++ heading system from to bytes) }
{
    into.extend_from_slice(b"ocs-slots 3 ")?;
    put_name(system, into)?;
    put_number(from, into)?;
    put_number(to, into)?;
    put_number(bytes, into)?;
    into.extend_from_slice(b" 10\n")?;
    Ok(())
}

/// Appends the name of a system as scripts have it.
fn put_name(system: System, into: &mut Vec<u8>) -> Result<(), OutOfMemory>
    ensures { OnOk result (into.new.items ≡ into.old.items ++ system_name system) }
{
    match system {
        System::Pal => into.extend_from_slice(b"pal")?,
        System::Ntsc => into.extend_from_slice(b"ntsc")?,
    }
    Ok(())
}

/// Appends a space and a number.
fn put_number(number: u32, into: &mut Vec<u8>) -> Result<(), OutOfMemory>
    ensures { OnOk result (into.new.items ≡ into.old.items ++ codes " " ++ decimal number) }
{
    into.push(b' ')?;
    put_dec(number as u64, into)
}
