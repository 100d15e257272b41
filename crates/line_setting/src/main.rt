// Reads a setting as five octets from standard input and prints what the line unit does with it.
#![tactic(auto)]

use installer::text::line;
use std::io;
use std::io::Read;

fn main(rt: HostRuntime) -> io::Result<()> {
    let mut octets = Vec::new(rt.alloc());
    rt.stdin().read_to_end(&mut octets)?;
    rt.println(line(rt.alloc(), octets.as_slice())?)
}
