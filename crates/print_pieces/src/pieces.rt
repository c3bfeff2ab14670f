// What the program prints for a text, a piece at a time: a part of a warning's line, a header, a sighting, an ending or a refusal.
ghost use Rattle.std.specs.Prelude.{◌≡◌, ◌+◌, ◌≤◌, ◌<◌, length};
ghost use Rattle.notation.specs.Limits.{exec_limit, scratch_words, run_words};
ghost use Rattle.calculus.specs.Printed.{step_limit, ending};
ghost use Rattle.theory_progress.specs.RunOn.{given};
ghost use Rattle.check_accepted.specs.Texts.{TextIn};
ghost use Rattle.print_pieces.specs.Pieces.{piece_bytes, channel_part, label_part, RunningIn, Going, is_left, First, Next, Still, Wrote, told_lines, told_stage};
ghost use Rattle.print_pieces.specs.declared.pieces.Stage.TheVariants.{Warning, Label, Exec, Running};

use crate::lines::{put_ending, put_header, put_missing, put_named, put_refusal, put_sighting};
use calculus::answers::RanOn;
use check_text::check::check;
use check_text::warnings::warning;
use notation::script::Script;
use read_tables::access::{exec_at, exec_count};
use run_steps::running::steps_until;
use run_steps::starting::begin_line;

// An exec line is given so many steps.
const STEPS: u32 = 10000;

// A buffer of so many bytes has room for every piece, since none has more than one name of the text in it.
pub const PIECE_BYTES: usize = Script::TEXT + 128;

// What is left to print: all from a warning on; what is left of a warning's line from its channel on, and all from the next warning on, with where the names of the
// channel and the label stand; the same from its label on; all from an exec line on; what is left of that line, of which so many steps were taken, and all after it; nothing.
#[derive(Clone, Copy)]
pub enum Stage {
    Warning(usize),
    Channel(usize, usize, usize),
    Label(usize, usize),
    Exec(usize),
    Running(usize, u32),
    Finished,
}

pub fn is_left(stage: Stage) -> bool
    ensures { result ≡ is_left stage }
{
    match stage {
        Stage::Warning(_) => return true,
        Stage::Channel(_, _, _) => return true,
        Stage::Label(_, _) => return true,
        Stage::Exec(_) => return true,
        Stage::Running(_, _) => return true,
        Stage::Finished => return false,
    }
}

// How many bytes stand in the buffer, and what is left after them.
#[derive(Clone, Copy)]
pub struct Piece {
    pub length: usize,
    pub stage: Stage,
}

// The text is checked: its refusal, or nothing yet.
pub fn first_piece(text: &[u8], scratch: &mut [u32], out: &mut [u8]) -> Piece
    requires { (length scratch.old ≡ scratch_words) × (piece_bytes ≤ length out.old) }
    ensures { First text.now scratch.new out.new result }
{
    match check(text, scratch) {
        Ok(()) => Piece {
            length: 0,
            stage: Stage::Warning(0),
        },
        Err(refusal) => Piece {
            length: put_refusal(out, refusal),
            stage: Stage::Finished,
        },
    }
}

// The piece that comes at a stage.
pub fn next_piece(
    text: &[u8],
    scratch: &[u32],
    run: &mut [u32],
    out: &mut [u8],
    stage: Stage,
) -> Piece
    requires going { Going text.now scratch.now run.old stage }
    requires run_words_in_bounds { (run_words ≤ length run.old) × (piece_bytes ≤ length out.old) }
    ensures { Next text.now scratch.now run.old run.new out.new stage result }
{
    match stage {
        Stage::Warning(k) => return warning_piece(text, scratch, out, k),
        Stage::Channel(next, channel, label) => return channel_piece(
            text, out, next, channel, label,
        ),
        Stage::Label(next, label) => return label_piece(text, out, next, label),
        Stage::Exec(line) => return exec_piece(text, scratch, run, out, line),
        Stage::Running(line, taken) => return running_piece(text, scratch, run, out, line, taken),
        Stage::Finished => return Piece {
            length: 0,
            stage: Stage::Finished,
        },
    }
}

// A warning's line begins with its process; after the last warning come the exec lines.
fn warning_piece(text: &[u8], scratch: &[u32], out: &mut [u8], k: usize) -> Piece
    requires text_in { TextIn text.now scratch.now }
    requires piece_bytes_in_bounds { piece_bytes ≤ length out.old }
    ensures { Still text.now scratch.now out.new (Warning k) result }
{
    match warning(text, scratch, k) {
        Some(missing) => Piece {
            length: put_named(text, out, b"Warning: process ", missing.process),
            stage: Stage::Channel(k + 1, missing.channel, missing.label),
        },
        None => Piece {
            length: 0,
            stage: Stage::Exec(0),
        },
    }
}

// Then the channel.
fn channel_piece(text: &[u8], out: &mut [u8], next: usize, channel: usize, label: usize) -> Piece
    requires { length text.now + 10 ≤ length out.old }
    ensures { Wrote out.new result (channel_part text.now channel) (Label next label) }
{
    let length = put_named(text, out, b", channel ", channel);
    Piece {
        length,
        stage: Stage::Label(next, label),
    }
}

// Then the label.
fn label_piece(text: &[u8], out: &mut [u8], next: usize, label: usize) -> Piece
    requires { length text.now + 12 ≤ length out.old }
    ensures { Wrote out.new result (label_part text.now label) (Warning next) }
{
    let length = put_missing(text, out, label);
    Piece {
        length,
        stage: Stage::Warning(next),
    }
}

// An exec line begins with its header.
fn exec_piece(text: &[u8], scratch: &[u32], run: &mut [u32], out: &mut [u8], line: usize) -> Piece
    requires text_in { TextIn text.now scratch.now }
    requires run_words_in_bounds { (run_words ≤ length run.old) × (piece_bytes ≤ length out.old) }
    ensures { Next text.now scratch.now run.old run.new out.new (Exec line) result }
{
    if exec_count(scratch) <= line {
        return Piece {
            length: 0,
            stage: Stage::Finished,
        };
    }
    if begin_line(text, scratch, run, line) {
        let at = exec_at(scratch, line);
        let length = put_header(text, out, at);
        return Piece {
            length,
            stage: Stage::Running(line, 0),
        };
    }
    Piece {
        length: 0,
        stage: Stage::Exec(line + 1),
    }
}

// Run-on with what is left of the steps.
fn running_piece(
    text: &[u8],
    scratch: &[u32],
    run: &mut [u32],
    out: &mut [u8],
    line: usize,
    taken: u32,
) -> Piece
    requires running_in { RunningIn text.now scratch.now run.old line taken }
    requires piece_bytes_in_bounds { piece_bytes ≤ length out.old }
    ensures { Next text.now scratch.now run.old run.new out.new (Running line taken) result }
{
    let r = steps_until(text, scratch, run, STEPS - taken);
    told_piece(text, out, line, taken, r)
}

// What run-on told.
fn told_piece(text: &[u8], out: &mut [u8], line: usize, taken: u32, answer: RanOn) -> Piece
    requires { (length text.now + 52 ≤ length out.old) × (taken + given answer ≤ step_limit) × (line < exec_limit) }
    ensures { Wrote out.new result (told_lines text.now taken answer) (told_stage line taken answer) }
{
    match answer {
        RanOn::Shown(seen, steps) => Piece {
            length: put_sighting(text, out, seen),
            stage: Stage::Running(line, taken + steps),
        },
        RanOn::Done(steps) => ended_piece(out, b"done", line, taken + steps),
        RanOn::Full(steps) => ended_piece(out, b"full", line, taken + steps),
        RanOn::Stopped(steps) => ended_piece(out, b"stopped", line, taken + steps),
        RanOn::Uncaught(steps) => ended_piece(out, b"uncaught", line, taken + steps),
    }
}

// How an exec line ended.
fn ended_piece(out: &mut [u8], word: &[u8], line: usize, steps: u32) -> Piece
    requires { (length word.now + 24 ≤ length out.old) × (line < exec_limit) }
    ensures { Wrote out.new result (ending word.now steps) (Exec (line + 1)) }
{
    let length = put_ending(out, word, steps);
    Piece {
        length,
        stage: Stage::Exec(line + 1),
    }
}
