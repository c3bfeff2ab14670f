// Lists of numbers, put one after another.
ghost use Rattle.std.specs.Prelude.{◌+◌, ◌*◌, ◌≤◌, length};
ghost use Rattle.print_bytes.specs.Writing.{Appended};
ghost use Rattle.print_answers.specs.Answers.{each_words, number_word, place_word};

use print_bytes::writing::{put, put_decimal};

fn put_number(out: &mut [u8], at: usize, n: u32) -> usize
    requires { at + 11 ≤ length out.old }
    ensures appended { Appended out.old out.new at result (number_word n) }
    ensures upper_bound { result ≤ at + 11 }
{
    let a = put(out, at, b" ");
    put_decimal(out, a, n as usize)
}

pub(crate) fn put_numbers(out: &mut [u8], at: usize, numbers: &[u32]) -> usize
    requires { at + 11 * length numbers.now ≤ length out.old }
    ensures { Appended out.old out.new at result (each_words number_word numbers.now) }
{
    let mut to = at;
    for n in numbers {
        to = put_number(out, to, *n);
    }
    to
}

// What the step at a place is, by its number.
fn put_place(out: &mut [u8], at: usize, step: u32) -> usize
    requires { at + 6 ≤ length out.old }
    ensures appended { Appended out.old out.new at result (place_word step) }
    ensures upper_bound { result ≤ at + 6 }
{
    match step {
        0 => put(out, at, b" waits"),
        1 => put(out, at, b" open"),
        _ => put(out, at, b" lacks"),
    }
}

pub(crate) fn put_places(out: &mut [u8], at: usize, steps: &[u32]) -> usize
    requires { at + 6 * length steps.now ≤ length out.old }
    ensures { Appended out.old out.new at result (each_words place_word steps.now) }
{
    let mut to = at;
    for step in steps {
        to = put_place(out, to, *step);
    }
    to
}
