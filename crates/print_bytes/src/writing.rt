// Bytes put into a buffer, one text after another: each function puts its text from `at` on and answers where it ends.
ghost use Rattle.std.specs.Prelude.{◌≡◌, ◌+◌, ◌%◌, ◌≤◌, length};
ghost use Rattle.calculus.specs.Printed.{decimal};
ghost use Rattle.print_bytes.specs.Writing.{Appended};
ghost use Rattle.print_bytes.specs.Spelling.{Spelled};

pub fn put(out: &mut [u8], at: usize, what: &[u8]) -> usize
    requires { at + length what.now ≤ length out.old }
    ensures { Appended out.old out.new at result what.now }
{
    let end = at + what.len();
    out[at..end].copy_from_slice(what);
    end
}

pub fn put_decimal(out: &mut [u8], at: usize, n: usize) -> usize
    requires { at + 10 ≤ length out.old }
    ensures appended { Appended out.old out.new at result (decimal n) }
    ensures upper_bound { result ≤ at + 10 }
{
    let mut digits = [0u8; 10];
    let first = spell(&mut digits, n);
    put(out, at, &digits[first..10])
}

// A number's last ten digits at most, made from the last one on: answers where the first stands.
fn spell(digits: &mut [u8], n: usize) -> usize
    requires { length digits.old ≡ 10 }
    ensures { Spelled n digits.new result }
{
    let mut left = n;
    for first in (0..10).rev() {
        digits[first] = digit(left);
        if left < 10 {
            return first;
        }
        left /= 10;
    }
    0
}

// The last digit of a number.
fn digit(n: usize) -> u8
    ensures { result ≡ 48 + n % 10 }
{
    48 + (n % 10) as u8
}
