// Where the lines of a log stand.
ghost use Rattle.std.specs.Prelude.{true, ◌≡◌, ◌≤◌, length};
ghost use Rattle.call_lines.specs.CallLine.{line_length, is_sought, seek, feeds};

use crate::lines::read_line;
use crate::words::length_before;

// A line that is sought: the one between script and calls, or one that is no call.
#[derive(Clone, Copy)]
pub enum Sought {
    Rule,
    NoCall,
}

// How many bytes the first line has.
pub fn line_length(log: &[u8]) -> usize
    ensures value { result ≡ line_length log.now }
    ensures upper_bound { result ≤ length log.now }
{
    length_before(log, b"\n")
}

#[tactic(auto, using(std::proofs::lemmas::Bool::Decides::nat_tests, crate::specs::Reading::begins_is), unfolding(crate::specs::CallLine::is_sought))]
fn is_sought(log: &[u8], sought: Sought) -> bool
    ensures { result ≡ is_sought sought log.now }
{
    let n = line_length(log);
    match sought {
        Sought::Rule => n == 3 && log.starts_with(b"---"),
        Sought::NoCall => read_line(&log[..n]).is_none(),
    }
}

// Where the first line that is sought starts, or the log's length where there is none.
#[tactic(auto, using(std::proofs::lemmas::Bool::Decides::nat_tests, crate::specs::Reading::seek_step, crate::specs::Reading::seek_end))]
pub fn seek(log: &[u8], sought: Sought) -> usize
    ensures value { result ≡ seek sought true log.now }
    ensures upper_bound { result ≤ length log.now }
{
    let mut starts = true;
    for (i, b) in log.iter().enumerate() {
        if starts && is_sought(&log[i..], sought) {
            return i;
        }
        starts = *b == b'\n';
    }
    log.len()
}

// How many lines end in a part of a log.
#[tactic(auto, using(crate::specs::Reading::feeds_is))]
pub fn count_feeds(part: &[u8]) -> usize
    ensures value { result ≡ feeds part.now }
    ensures upper_bound { result ≤ length part.now }
{
    part.iter().filter(|b| **b == b'\n').count()
}
