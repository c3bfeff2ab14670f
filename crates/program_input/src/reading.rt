// Reading into lent bytes.
ghost use Rattle.std.specs.Prelude.{◌≤◌, length, IfOk};

use std::io;
use std::io::{ErrorKind, Read};

// Fills the buffer from its front as far as the input goes, and answers how many bytes were read. A read that was interrupted is tried again.
pub fn read_full<R: Read>(from: &mut R, buf: &mut [u8]) -> io::Result<usize>
    ensures { IfOk result (λ n. n ≤ length buf.new) }
{
    let mut at = 0;
    for _ in 0..u64::MAX {
        if at == buf.len() {
            break;
        }
        match from.read(&mut buf[at..]) {
            Ok(0) => break,
            Ok(n) => at += n,
            Err(why) => {
                if why.kind() != ErrorKind::Interrupted {
                    return Err(why);
                }
            }
        }
    }
    Ok(at)
}
