// Reads a script from standard input and prints what its execs show, or its refusal. It ends with status 0 in each case, and says on
// standard error that the script is refused, or that the output could not be written; the command `./epass` exits by that. Input that
// cannot be read ends it with that error, and nothing is printed.
#![tactic(auto)]

use print_output::text::{Printed, print_text};
use program_input::reading::read_full;
use std::io;

fn main(rt: HostRuntime) -> io::Result<()> {
    // One byte more than a text may have.
    let mut text = [0u8; 8193];
    let n = read_full(&mut rt.reader(), &mut text)?;
    match print_text(&text[..n], &mut io::writer(&rt)) {
        Printed::Run => Ok(()),
        Printed::Refused => rt.eprintln("epass: the script is refused"),
        Printed::Unwritten => rt.eprintln("epass: the output could not be written"),
    }
}
