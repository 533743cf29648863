//! Writes bytes and numbers completely, or up to the point where the writer fails.

ghost use Rattle.std.specs.Prelude.{decimal};
ghost use Rattle.bw_shell.specs.Writing.{Wrote};

use itoa::Buffer;
use std::io::Write;

/// The writer failed, or took no byte.
#[derive(Clone, Copy, Debug, PartialEq, Eq, Drop)]
pub struct WriteFault;

/// Writes all of the bytes, or a prefix of them if the writer fails.
pub fn put<W: Write>(writer: &mut W, bytes: &[u8]) -> Result<(), WriteFault>
    ensures { Wrote (W.contents writer.old) (W.contents writer.new) bytes.now result }
{
    let mut rest = bytes;
    while !rest.is_empty() {
        match writer.write(rest) {
            Ok(0) | Err(_) => return Err(WriteFault),
            Ok(n) => rest = &rest[n..],
        }
    }
    Ok(())
}

/// Writes a number in decimal.
pub(crate) fn put_number<W: Write, I: itoa::Integer>(writer: &mut W, n: I) -> Result<(), WriteFault>
    ensures { Wrote (W.contents writer.old) (W.contents writer.new) (I.text n) result }
{
    put(writer, Buffer::new().format(n).as_bytes())
}
