// Numbers in decimal.
ghost use Rattle.std.specs.Prelude.{◌≡◌};
ghost use Rattle.call_lines.specs.CallLine.{number_from, number_in};

const MOST_DIGITS: usize = 10;

// The number of the digits; none where a byte is no digit, or the number takes more than 32 bits.
#[tactic(auto, using(std::proofs::lemmas::Bool::Decides::nat_tests, crate::specs::Reading::number_step, crate::specs::Reading::number_end))]
fn number_from(digits: &[u8]) -> Option<u32>
    ensures { result ≡ number_from 0 digits.now }
{
    let mut n: u32 = 0;
    for b in digits {
        if !b.is_ascii_digit() {
            return None;
        }
        n = n.checked_mul(10)?.checked_add(u32::from(*b - b'0'))?;
    }
    Some(n)
}

#[tactic(auto, unfolding(crate::specs::CallLine::number_in))]
pub(crate) fn number_in(digits: &[u8]) -> Option<u32>
    ensures { result ≡ number_in digits.now }
{
    if digits.is_empty() || MOST_DIGITS < digits.len() {
        return None;
    }
    number_from(digits)
}
