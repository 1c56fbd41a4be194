// Reads typed input from standard input, a line `MODULUS TERMS` and a polynomial, and prints its answer key, or the line of its refusal.
#![tactic(auto)]

ghost use Rattle.std.specs.Prelude.{◌≤◌, length};
ghost use Rattle.numbers.specs.Refusals.{accepted};
ghost use Rattle.text.specs.Limits.{text_room};
ghost use Rattle.typed.specs.Key.{Keyed};

use input::read_full;
use listing::limits::TEXT_ROOM;
use std::io;
use std::io::Print;
use typed::limits::INPUT_ROOM;

// The text of an input, and its length: 9,216 bytes are always room enough.
fn reply(input: &[u8], text: &mut [u8]) -> usize
    requires { text_room ≤ length text.old }
    ensures { Keyed input.now text.old (accepted result) text.new }
{
    match typed::key(input, text) {
        Ok(long) => long as usize,
        Err(_) => 0,
    }
}

// An input that goes on after what is read here comes to the same text (`key-cut`): it is too long.
fn main(rt: HostRuntime) -> io::Result<()> {
    let mut input = [0u8; INPUT_ROOM];
    let got = read_full(&mut rt.reader(), &mut input)?;
    let mut text = [0u8; TEXT_ROOM];
    let long = reply(&input[..got], &mut text);
    rt.write_all(&text[..long])
}
