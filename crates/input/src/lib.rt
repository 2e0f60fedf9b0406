// Reading into a lent buffer.

#![tactic(auto)]

ghost use Rattle.std.specs.Prelude.{◌≡◌, ◌≤◌, length, take};
ghost use Rattle.input.specs.Telling.{told};

use std::io;
use std::io::Read;

// How many bytes stand at the front of a buffer, and how the reading ended.
#[derive(Drop)]
pub struct Filled {
    pub count: usize,
    pub ended: io::Result<()>,
}

// What a read says: so many bytes more, or how the reading ended. A read that a signal interrupts counts as one that failed.
fn told(got: io::Result<usize>) -> Result<usize, io::Result<()>>
    ensures { result ≡ told got }
{
    match got {
        Ok(0) => Err(Ok(())),
        Ok(more) => Ok(more),
        Err(error) => Err(Err(error)),
    }
}

// Reads until the buffer is full, the input ends or a read fails. `ended` is an error only where a read told one; no clause says
// so, since a reader keeps no list of its reads.
pub fn fill<R: Read>(input: &mut R, buffer: &mut [u8]) -> Filled
    ensures within { result.count ≤ length buffer.new }
    ensures front { result.count ≡ length (take result.count buffer.new) }
{
    let mut count = 0;
    // No `for`: each read says how far the count goes on.
    while count < buffer.len() {
        match told(input.read(&mut buffer[count..])) {
            Ok(more) => count += more,
            Err(ended) => return Filled { count, ended },
        }
    }
    Filled {
        count,
        ended: Ok(()),
    }
}
