// The pieces of a text, one after another, to a writer.
ghost use Rattle.std.specs.Prelude.{◌≡◌, [], ℕ, ◌+◌, ◌≤◌, length, take, IfOk};
ghost use Rattle.std.specs.Io.KnownBytes.{Appends};
ghost use Rattle.notation.specs.Limits.{run_words};
ghost use Rattle.print_pieces.specs.Pieces.{piece_bytes, left_in, Going};
ghost use Rattle.print_output.specs.Gathering.{gathered, Due, Waits, Gone, Says, Writes};

use notation::script::Script;
use print_pieces::pieces::{PIECE_BYTES, Stage, first_piece, is_left, next_piece};
use std::io;
use std::io::Write;

// What became of a text: its execs' lines, or its refusal, were written; or what was to be written could not be.
#[derive(Clone, Copy)]
pub enum Printed {
    Run,
    Refused,
    Unwritten,
}

// So many bytes may wait in the buffer, so that a line is not a write of its own; then there is still room for a piece.
const GATHERED: usize = 4096;

const BUFFER_BYTES: usize = GATHERED + PIECE_BYTES;

// Hands the first n bytes over to be written: they come directly before what is left at the stage.
fn write_due<W: Write>(
    to: &mut W,
    text: &[u8],
    scratch: &[u32],
    run: &[u32],
    out: &[u8],
    n: usize,
    stage: Stage,
) -> io::Result<()>
    requires n_in_bounds { n ≤ length out.now }
    requires due { Due text.now scratch.now run.now stage (take n out.now) }
    ensures { IfOk result (λ _. Appends (W.contents to.old) (W.contents to.new) (take n out.now)) }
{
    to.write_all(&out[..n])
}

// Writes the first n bytes, if they are many; answers how many wait then.
fn write_many<W: Write>(
    to: &mut W,
    text: &[u8],
    scratch: &[u32],
    run: &[u32],
    out: &[u8],
    n: usize,
    stage: Stage,
) -> io::Result<usize>
    requires n_in_bounds { n ≤ length out.now }
    requires due { Due text.now scratch.now run.now stage (take n out.now) }
    ensures waits { Waits text.now scratch.now run.now stage out.now result }
    ensures gone { Gone (W.contents to.old) (W.contents to.new) (take n out.now) out.now result }
{
    if n <= GATHERED {
        return Ok(n);
    }
    write_due(to, text, scratch, run, out, n, stage)?;
    Ok(0)
}

// All that is left at a stage.
fn print_rest<W: Write>(
    to: &mut W,
    text: &[u8],
    scratch: &[u32],
    run: &mut [u32],
    out: &mut [u8],
    from: Stage,
) -> io::Result<()>
    requires going { Going text.now scratch.now run.old from }
    requires due { Due text.now scratch.now run.old from [] }
    requires run_words_in_bounds { (run_words ≤ length run.old) × (gathered + piece_bytes ≤ length out.old) }
    ensures { IfOk result (λ _. Appends (W.contents to.old) (W.contents to.new) (left_in text.now scratch.now run.old from)) }
{
    let mut stage = from;
    let mut waiting: usize = 0;
    while is_left(stage) {
        let p = next_piece(text, scratch, run, &mut out[waiting..], stage);
        stage = p.stage;
        waiting = write_many(to, text, scratch, run, out, waiting + p.length, stage)?;
    }
    write_due(to, text, scratch, run, out, waiting, stage)
}

// Which of the two was written.
fn print_all<W: Write>(text: &[u8], to: &mut W) -> io::Result<Printed>
    ensures says { IfOk result (λ r. Says text.now r) }
    ensures writes { IfOk result (λ r. Writes (W.contents to.old) (W.contents to.new) text.now r) }
{
    let mut scratch = [0u32; Script::SCRATCH_WORDS];
    let mut run = [0u32; Script::RUN_WORDS];
    let mut out = [0u8; BUFFER_BYTES];
    let p = first_piece(text, &mut scratch, &mut out);
    write_due(to, text, &scratch, &run, &out, p.length, p.stage)?;
    if is_left(p.stage) {
        print_rest(to, text, &scratch, &mut run, &mut out, p.stage)?;
        return Ok(Printed::Run);
    }
    Ok(Printed::Refused)
}

// What a text's refusal, or its execs, are to print.
pub fn print_text<W: Write>(text: &[u8], to: &mut W) -> Printed
    ensures says { Says text.now result }
    ensures writes { Writes (W.contents to.old) (W.contents to.new) text.now result }
{
    match print_all(text, to) {
        Ok(what) => what,
        Err(_) => Printed::Unwritten,
    }
}
