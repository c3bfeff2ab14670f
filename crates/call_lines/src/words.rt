// Words in a line: what follows one, and where the first stands.
ghost use Rattle.std.specs.Prelude.{◌≡◌, ◌≤◌, length};
ghost use Rattle.call_lines.specs.CallLine.{before};

// How many bytes stand before the first place of the word, or all where it has none.
#[tactic(auto, using(std::proofs::lemmas::Bool::Decides::nat_tests, crate::specs::Reading::before_step, crate::specs::Reading::before_end))]
pub(crate) fn length_before(line: &[u8], word: &[u8]) -> usize
    ensures value { result ≡ before word.now line.now }
    ensures upper_bound { result ≤ length line.now }
{
    for i in 0..line.len() {
        if line[i..].starts_with(word) {
            return i;
        }
    }
    line.len()
}
