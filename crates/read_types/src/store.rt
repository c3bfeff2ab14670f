// The words of the tables, entry by entry.
ghost use Rattle.std.specs.Prelude.{◌≡◌, ◌+◌, ◌<◌, ◌≤◌};
ghost use Rattle.notation.specs.Tables.{pair_word, put_node, offset_radix, pointer_radix, table_words};
ghost use Rattle.read_types.specs.Filling.{WordPut, ListPut, Fits};
ghost use Rattle.notation.specs.Tables.{Area};
ghost use Rattle.notation.specs.Limits.{label_limit, type_term_limit};

use notation::reading::TypeNode;
use notation::script::Script;
use notation::tables::{NODES_AT, OFFSET_RADIX, TYPE_KIND_RADIX, TYPE_SECOND_UNIT};

// The word at i is n.
#[tactic(auto, using(crate::proofs::Filled::word_put))]
pub fn put_word(scratch: &mut [u32], i: usize, n: usize)
    requires { Area scratch.old × (i < table_words) × (n < 4294967296) }
    ensures { WordPut scratch.old i n scratch.new }
{
    scratch[i] = n as u32;
}

// The word of a name or label with the number that belongs to it.
#[tactic(auto, unfolding(notation::specs::Tables::pair_word))]
pub fn pair_word(at: u16, n: usize) -> u32
    requires { (at < offset_radix) × (n < pointer_radix) }
    ensures { result ≡ pair_word at n }
{
    (at as usize + OFFSET_RADIX * n) as u32
}

// The word at i is a name or label with the number that belongs to it.
#[tactic(auto, using(crate::proofs::Filled::word_put))]
pub fn put_pair(scratch: &mut [u32], i: usize, at: u16, n: usize)
    requires { Area scratch.old × (i < table_words) × (at < offset_radix) × (n < pointer_radix) }
    ensures { WordPut scratch.old i (pair_word at n) scratch.new }
{
    scratch[i] = pair_word(at, n);
}

// The first n of the kept words stand from `at` on, the last of them first.
pub fn put_list(scratch: &mut [u32], kept: &[u32; Script::LABELS], n: usize, at: usize)
    requires { Area scratch.old × (n ≤ label_limit) × (at + n ≤ table_words) }
    ensures { ListPut scratch.old kept.now n at scratch.new }
{
    for i in 0..n {
        scratch[at + i] = kept[n - 1 - i];
    }
}

// The type node of this number is n.
#[tactic(auto, unfolding(notation::specs::Tables::put_node, notation::specs::Tables::type_word))]
pub(crate) fn put_node(scratch: &mut [u32], i: usize, n: TypeNode)
    requires { Area scratch.old × (i < type_term_limit) × Fits n }
    ensures { scratch.new ≡ put_node scratch.old i n }
{
    put_word(
        scratch,
        NODES_AT + i,
        n.kind + TYPE_KIND_RADIX * n.first + TYPE_SECOND_UNIT * n.second,
    );
}
