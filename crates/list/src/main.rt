// The listing program: reads standard input and writes the listing of the disc that it holds. The buffer takes more than any input of the form has, so what
// does not fit it is of another form whatever follows, and the rest is left unread.
#![tactic(auto)]

ghost use Rattle.std.specs.Prelude.{◌≡◌, ◌≤◌, length, IfOk};

use std::io::{self, Read};

const MOST_READ: usize = 65536;

fn main(rt: HostRuntime) -> io::Result<()> {
    let mut input = [0u8; MOST_READ];
    let n = read_full(rt.stdin(), &mut input)?;
    let mut out = [0u8; 832];
    let length = listing::list::list(&input[..n], &mut out);
    rt.write_all(&out[..length])
}

// How many bytes came, up to as many as the buffer takes: fewer only where the input ended.
fn read_full(mut from: impl Read + Drop, buffer: &mut [u8]) -> io::Result<usize>
    ensures within { IfOk result (λ n. n ≤ length buffer.new) }
    ensures as_long { length buffer.new ≡ length buffer.old }
{
    let mut n = 0;
    while n < buffer.len() {
        let come = from.read(&mut buffer[n..])?;
        if come == 0 {
            return Ok(n);
        }
        n += come;
    }
    Ok(n)
}
