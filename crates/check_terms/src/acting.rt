// The channel that a term acts on, and what its type lets go over it.
ghost use Rattle.std.specs.Prelude.{◌≡◌, ℕ, ◌<◌};
ghost use Rattle.check_contexts.specs.Held.{EndIn, HeldIn};
ghost use Rattle.notation.specs.Tables.{Area};
ghost use Rattle.run_words.specs.Values.{end_in};
ghost use Rattle.read_tables.specs.Whole.{Tables};
ghost use Rattle.check_terms.specs.Acting.{Acts, UnitOf, PassesOver, ChoosesOver, TakesFrom};

use check_contexts::held::find_end;
use check_types::acting::{choosing, labelled, passing, standing};
use check_types::equality::same_type;
use check_types::messages::Passing;
use notation::kinds;
use notation::words::{narrow, wide};
use read_tables::access::type_node;
use run_words::records::{End, Held};

// The channel whose name is the one at `at`, with what its type stands for.
pub fn acting(text: &[u8], scratch: &[u32], h: Held, at: usize) -> Option<End>
    requires { Tables text.now scratch.now × HeldIn text.now scratch.now h }
    ensures { Acts text.now scratch.now h at result }
{
    let e = find_end(text, h, at)?;
    let node = standing(text, scratch, wide(e.node));
    Some(End {
        node: narrow(node),
        ..e
    })
}

// The type is 1.
pub(crate) fn is_unit(scratch: &[u32], i: usize) -> bool
    requires { Area scratch.now × (i < 512) }
    ensures { UnitOf scratch.now i result }
{
    let n = type_node(scratch, i);
    n.kind == kinds::UNIT
}

// The type of the channel c after the channel a has gone over it, if it may.
pub(crate) fn passes_over(text: &[u8], scratch: &[u32], c: End, a: End) -> Option<usize>
    requires { Tables text.now scratch.now × EndIn text.now scratch.now (end_in c) × EndIn text.now scratch.now (end_in a) × (c.side < 2) × (a.side < 2) }
    ensures { PassesOver text.now scratch.now c a result }
{
    let t = passing(scratch, wide(c.node))?;
    if c.side != t.sender {
        return None;
    }
    if a.side != t.side {
        return None;
    }
    if same_type(text, scratch, wide(a.node), t.what) {
        return Some(t.after);
    }
    None
}

// The type of the channel c after the label at `at` was sent on it, if it may be.
pub(crate) fn chooses_over(text: &[u8], scratch: &[u32], c: End, at: usize) -> Option<usize>
    requires { Tables text.now scratch.now × EndIn text.now scratch.now (end_in c) × (c.side < 2) }
    ensures { ChoosesOver text.now scratch.now c at result }
{
    let t = choosing(scratch, wide(c.node))?;
    if c.side != t.sender {
        return None;
    }
    labelled(text, scratch, at, t.place, t.count)
}

// What comes over the channel c, if one comes to this side.
pub(crate) fn takes_from(scratch: &[u32], c: End) -> Option<Passing>
    requires { Area scratch.now × (c.node < 512) × (c.side < 2) }
    ensures { TakesFrom scratch.now c result }
{
    let t = passing(scratch, wide(c.node))?;
    if c.side == t.sender {
        return None;
    }
    Some(t)
}
