// What the programs share of their standard streams: the input read whole, and how a program ends whose output failed.
#![tactic(auto)]

ghost use Rattle.std.specs.Prelude.{◌≡◌, ◌≢◌, ◌≤◌, length, IfErr, IsOk};
ghost use Rattle.std.specs.IoError.{error_kind};

use std::io;
use std::io::{ErrorKind, Read, Stdin};

// Reads until the buffer is full, the input ends or a read fails: the buffer's first part, which was read. (The library's read_to_end wants a heap.)
pub fn read_full<'a>(mut input: Stdin, buffer: &'a mut [u8]) -> &'a [u8]
    ensures within { length result.now ≤ length buffer.old }
    ensures front { result.ref_ptr ≡ buffer.entry.ref_ptr }
{
    let mut done = 0;
    while done < buffer.len() {
        match input.read(&mut buffer[done..]) {
            Ok(n) if n > 0 => done += n,
            _ => break,
        }
    }
    &buffer[..done]
}

// As the output ended, but well where its reader has left, which wants no more.
pub fn unless_left(ended: io::Result<()>) -> io::Result<()>
    ensures left { IfErr ended (λ e. error_kind e ≡ ErrorKind.BrokenPipe → IsOk result) }
    ensures stays { IfErr ended (λ e. error_kind e ≢ ErrorKind.BrokenPipe → result ≡ ended) }
    ensures well { IsOk ended → IsOk result }
{
    match ended {
        Err(e) if e.kind() == ErrorKind::BrokenPipe => Ok(()),
        ended => ended,
    }
}
