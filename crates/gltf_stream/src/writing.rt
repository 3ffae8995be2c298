//! Bytes into writers.
ghost use Rattle.std.specs.Prelude.{OnOk, OnErr};
ghost use Rattle.std.specs.Io.KnownBytes.{Appends};
ghost use Rattle.gltf_stream.specs.Streams.{WritesBeginning, bytes_of_all};

use std::io;
use std::io::Write;

/// Writes all of the pieces, in order.
///
/// A write that fails, is interrupted or takes nothing is not tried again. Then a beginning of the
/// bytes was written.
pub fn write_pieces<W: Write>(writer: &mut W, pieces: &[&[u8]]) -> io::Result<()>
    ensures ok { OnOk result (Appends (W.contents writer.old) (W.contents writer.new)
        (bytes_of_all pieces.now)) }
    ensures err { OnErr result (WritesBeginning (W.contents writer.old) (W.contents writer.new)
        (bytes_of_all pieces.now)) }
{
    'pieces: for piece in pieces {
        write_piece(writer, piece)?;
    }
    Ok(())
}

/// Writes all of the bytes, or a beginning of them.
fn write_piece<W: Write>(writer: &mut W, bytes: &[u8]) -> io::Result<()>
    ensures ok { OnOk result (Appends (W.contents writer.old) (W.contents writer.new) bytes.now) }
    ensures err { OnErr result (WritesBeginning (W.contents writer.old) (W.contents writer.new)
        bytes.now) }
{
    let mut at = 0;
    'writes: while at < bytes.len() {
        let (_, left) = bytes.split_at(at);
        let taken = writer.write(left)?;
        if taken == 0 {
            return Err(io::Error::from(io::ErrorKind::WriteZero));
        }
        at += taken;
    }
    Ok(())
}
