//! Writes a text to a sink, in as many calls as it takes.
ghost use Rattle.std.specs.Prelude.{◌≡◌, ℕ, ◌+◌, ◌<◌, ◌≤◌, ◌^◌, length, drop, IfErr, OnOk};
ghost use Rattle.byte_io.specs.Writing.{HasTaken, HasStopped};

use crate::devices::Sink;
use crate::fault::WriteFault;

/// Writes all of `bytes` to `w`, in as many calls as it takes. No byte is no call.
///
/// At an Err `written` counts from the front of `bytes`, and no call was made after the one that failed or took
/// nothing. Takes no memory, and does not flush.
pub fn write_all<W: Sink>(w: &mut W, bytes: &[u8]) -> Result<(), WriteFault>
    requires { W.failure_count w.old + 1 < 2 ^ 64 }
    ensures ok { OnOk result (HasTaken W.write_takes W.failure_count w.old w.new bytes.now) }
    ensures err { IfErr result (λ f. HasStopped W.write_takes W.failure_count w.old w.new bytes.now f.written) }
{
    let mut done = 0;
    while done < bytes.len() {
        let fault = WriteFault {
            written: done as u128,
        };
        match w.write(&bytes[done..]) {
            Ok(0) => return Err(fault),
            Ok(count) => done += count,
            Err(_) => return Err(fault),
        }
    }
    Ok(())
}
