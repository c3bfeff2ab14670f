// `recv c ('l => P | ..)`: the labels that its branches fit.
ghost use Rattle.check_contexts.specs.Held.{HeldIn};
ghost use Rattle.read_tables.specs.Roots.{BranchesIn};
ghost use Rattle.read_tables.specs.Whole.{Tables};
ghost use Rattle.check_processes.specs.Offers.{Offers};

use check_terms::acting::acting;
use check_types::acting::choosing;
use check_types::fit::labels_fit;
use check_types::messages::Choosing;
use notation::reading::TermNode;
use notation::refusal::Refusal;
use notation::words::wide;
use run_words::records::Held;

// The labels of the channel's type, or the refusal's number.
pub(crate) fn labels_offered(
    text: &[u8],
    scratch: &[u32],
    h: Held,
    n: TermNode,
) -> Result<Choosing, u32>
    requires { Tables text.now scratch.now × HeldIn text.now scratch.now h × BranchesIn text.now scratch.now n.second n.third }
    ensures { Offers text.now scratch.now h n result }
{
    let e = acting(text, scratch, h, n.first).ok_or(Refusal::NOT_HELD)?;
    let t = choosing(scratch, wide(e.node)).ok_or(Refusal::UNFIT)?;
    if e.side == t.sender {
        return Err(Refusal::UNFIT);
    }
    if !labels_fit(text, scratch, t.place, t.count, n.second, n.third) {
        return Err(Refusal::NO_LABEL);
    }
    Ok(t)
}
