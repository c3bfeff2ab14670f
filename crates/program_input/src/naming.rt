// A program's arguments as names of files, and their files. A name is UTF-8 text, for the system is asked by text.
ghost use Rattle.std.specs.Prelude.{◌≤◌, length, IfSome};

use std::env::{Env, FillError};
use std::io::{Cursor, Error, ErrorKind, Write};
use std::rt::Files;
use std::{fs, io};

// Puts argument i at the start of `name`, and answers its length; none where there is no such argument. One that is longer than `name`
// is no file's name, and counts as empty.
pub fn argument(env: &impl Env, i: usize, name: &mut [u8]) -> Option<usize>
    ensures { IfSome result (λ n. n ≤ length name.new) }
{
    match env.arg(i, name) {
        Ok(n) => Some(n),
        Err(FillError::TooLong) => Some(0),
        Err(FillError::NotPresent) => None,
    }
}

fn open<R: Files>(rt: &R, name: &[u8]) -> io::Result<R::File> {
    match str::from_utf8(name) {
        Ok(path) => fs::open(rt, path),
        Err(_) => Err(Error::from(ErrorKind::InvalidFilename)),
    }
}

// What stands before the number that the text of a system's error ends with.
const NUMBER: &[u8] = b" (os error ";

// Where an error's words end: before its number, or else where zeros begin.
fn words_end(text: &[u8]) -> usize
    ensures { result ≤ length text.now }
{
    for i in 0..text.len() {
        if text[i] == 0 || text[i..].starts_with(NUMBER) {
            return i;
        }
    }
    text.len()
}

// Says on standard error why a file was not opened, by the system's words alone.
fn say_unopened<E: Write>(err: &mut E, name: &[u8], why: Error) -> io::Result<()> {
    let mut text = [0u8; 128];
    write!(Cursor::new(&mut text[..]), "{why}")?;
    let n = words_end(&text);
    err.write_all(name)?;
    err.write_all(b": ")?;
    err.write_all(&text[..n])?;
    err.write_all(b"\n")
}

// Prints a line with the name and opens the file; where that fails, it is said on standard error and there is none.
pub fn open_named<R: Files + Print, E: Write>(
    rt: &R,
    err: &mut E,
    name: &[u8],
) -> io::Result<Option<R::File>> {
    rt.write_all(name)?;
    rt.write_all(b"\n")?;
    match open(rt, name) {
        Ok(file) => Ok(Some(file)),
        Err(why) => {
            say_unopened(err, name, why)?;
            Ok(None)
        }
    }
}
