// Replays logs of calls: on standard input, or in each file that an argument names, after a line with the name.
// A log is a script, a line ---, and a call a line; it is printed with the answer after each call, so that it is its own input.
// What cannot be read or written ends it with that error.
#![tactic(auto)]

mod replay;

use program_input::naming::{argument, open_named};
use program_input::reading::read_full;
use replay::replay;
use std::io;
use std::io::{Read, Write};
use std::rt::Runtime;

fn replay_open(rt: &impl Runtime, mut from: impl Read + Drop) -> io::Result<()> {
    // One byte more than a log may have.
    let mut log = [0u8; 65536];
    let n = read_full(&mut from, &mut log)?;
    if n == 65536 {
        return rt.eprintln("calls: a log has at most 65535 bytes");
    }
    replay(rt, &mut io::writer(rt), &log[..n])
}

fn replay_file(rt: &impl Runtime, err: &mut impl Write, path: &[u8]) -> io::Result<()> {
    match open_named(rt, err, path)? {
        Some(file) => replay_open(rt, file),
        None => Ok(()),
    }
}

fn main(rt: HostRuntime) -> io::Result<()> {
    let mut path = [0u8; 4096];
    if argument(&rt, 1, &mut path).is_none() {
        return replay_open(&rt, rt.reader());
    }
    for i in 1..usize::MAX {
        let Some(n) = argument(&rt, i, &mut path) else {
            break;
        };
        replay_file(&rt, &mut rt.stderr(), &path[..n])?;
    }
    Ok(())
}
