// Reads a job file from standard input and prints its listing, or the line of its refusal.
#![tactic(auto)]

use input::read_full;
use job::limits::JOB_ROOM;
use listing::kernel::reply;
use listing::limits::TEXT_ROOM;
use std::io;
use std::io::Print;
use text::Profile;

// A file that goes on after what is read here comes to the same text (`listing-cut`): no right one is so long.
fn main(rt: HostRuntime) -> io::Result<()> {
    let mut job = [0u8; JOB_ROOM];
    let got = read_full(&mut rt.reader(), &mut job)?;
    let mut text = [0u8; TEXT_ROOM];
    let long = reply(Profile::Factors, &job[..got], &mut text);
    rt.write_all(&text[..long])
}
