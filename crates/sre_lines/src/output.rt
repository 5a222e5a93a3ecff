//! Writes that can fail midway.

ghost use Rattle.std.specs.Prelude.{◌++◌, OnErr, OnOk};
ghost use Rattle.sre_lines.specs.Terms.{Appends};
ghost use Rattle.sre_lines.specs.Output.{AppendsPart};

use std::io::{self, Write};

/// Writes all bytes. After an error, a part of them may be written, and nothing else.
pub fn write_whole<W: Write>(bytes: &[u8], out: &mut W) -> io::Result<()>
    ensures whole { OnOk result (Appends (W.contents out.old) (W.contents out.new) bytes.now) }
    ensures part { OnErr result (AppendsPart (W.contents out.old) (W.contents out.new) bytes.now) }
{
    let mut left = bytes;
    'writes: for _ in 0..u64::MAX {
        if left.is_empty() {
            return Ok(());
        }
        match out.write(left) {
            Ok(0) => return Err(io::Error::from(io::ErrorKind::WriteZero)),
            Ok(count) => left = left.split_at(count).1,
            Err(error) => {
                if error.kind() != io::ErrorKind::Interrupted {
                    return Err(error);
                }
            }
        }
    }
    Err(io::Error::from(io::ErrorKind::Interrupted))
}

/// Writes two byte strings in sequence. After an error, a part of the sequence may be written.
pub fn write_both<W: Write>(front: &[u8], end: &[u8], out: &mut W) -> io::Result<()>
    ensures whole { OnOk result (Appends (W.contents out.old) (W.contents out.new) (front.now ++ end.now)) }
    ensures part { OnErr result (AppendsPart (W.contents out.old) (W.contents out.new) (front.now ++ end.now)) }
{
    write_whole(front, out)?;
    write_whole(end, out)
}
