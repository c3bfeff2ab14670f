// For each file that an argument names: a line with the name, and what `epass` prints for the script in it. A file that cannot be read,
// or a name that cannot be printed, ends it with that error.
#![tactic(auto)]

use print_output::text::print_text;
use program_input::naming::{argument, open_named};
use program_input::reading::read_full;
use std::io;
use std::io::Write;
use std::rt::Runtime;

fn print_file(rt: &impl Runtime, err: &mut impl Write, path: &[u8]) -> io::Result<()> {
    let Some(mut file) = open_named(rt, err, path)? else {
        return Ok(());
    };
    // One byte more than a text may have.
    let mut text = [0u8; 8193];
    let n = read_full(&mut file, &mut text)?;
    print_text(&text[..n], &mut io::writer(rt));
    Ok(())
}

fn main(rt: HostRuntime) -> io::Result<()> {
    let mut path = [0u8; 4096];
    for i in 1..usize::MAX {
        let Some(n) = argument(&rt, i, &mut path) else {
            break;
        };
        print_file(&rt, &mut rt.stderr(), &path[..n])?;
    }
    Ok(())
}
