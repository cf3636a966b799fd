// What the programs share: standard input read whole, and bytes written to standard output.
#![tactic(auto)]

ghost use Rattle.std.specs.Prelude.{◌≡◌, ◌≤◌, length, take};
ghost use Rattle.listing.specs.Came.{came};

use std::io;
use std::io::Read;

// Reads on until the input ends or the buffer is full, and answers how many bytes came. A failed read is said on standard
// error under the name, and the bytes that came before it are the error.
pub fn read_input(
    rt: &(impl io::Input + Eprint),
    buf: &mut [u8],
    name: &[u8],
) -> Result<usize, usize>
    ensures in_bounds { came result ≤ length buf.new }
    ensures front { came result ≡ length (take (came result) buf.new) }
{
    let mut input = rt.reader();
    let mut count = 0;
    while count < buf.len() {
        match input.read(&mut buf[count..]) {
            Ok(0) => break,
            Ok(n) => count += n,
            Err(error) => {
                say(rt, name, error);
                return Err(count);
            }
        }
    }
    Ok(count)
}

// Writes a line; a failed write is said on standard error under the name, and answers false.
pub fn print(rt: &(impl Print + Eprint), line: &[u8], name: &[u8]) -> bool {
    match rt.write_all(line) {
        Ok(()) => true,
        Err(error) => {
            say(rt, name, error);
            false
        }
    }
}

// Says on standard error what failed, a colon and the error.
fn say(rt: &impl Eprint, name: &[u8], error: io::Error) {
    let what = name.escape_ascii();
    let _ = eprintln!(rt; "{what}: {error}");
}
