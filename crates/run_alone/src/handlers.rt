// A process and its handler.
ghost use Rattle.std.specs.Prelude.{◌≡◌, ◌<◌, length};
ghost use Rattle.calculus.specs.Steps.{handler_starts};
ghost use Rattle.run_words.specs.Raw.{raw_in, link_of, links_below};
ghost use Rattle.run_alone.specs.Run.{config_in, process_as, RunOf, ProcessOf, Becomes};
ghost use Rattle.run_alone.specs.Handlers.{handler_kind, with_handler};

use notation::words::wide;
use run_words::processes::{load, store};
use run_words::records::{FOLDING, Process, RUNNING, UNLINKED, WAITING};

// What a handler does once it starts, or folds up.
fn handler_kind(kind: u32, starts: bool) -> u32
    ensures { result ≡ handler_kind starts kind }
{
    if !starts {
        FOLDING
    } else if kind == WAITING {
        RUNNING
    } else {
        kind
    }
}

// The handler of a link, if there is one, starts or folds up.
pub fn change_handler(text: &[u8], scratch: &[u32], run: &mut [u32], link: u32, starts: bool)
    requires run_of { RunOf text.now scratch.now run.old }
    requires links_below { links_below (length (raw_in run.old).processes) (link_of link) }
    ensures { Becomes text.now scratch.now run.old run.new (with_handler starts (link_of link) (config_in text.now scratch.now run.old)) }
{
    if link == UNLINKED {
        return;
    }
    let place = wide(link - 1);
    let h = load(run, place);
    let q = Process {
        kind: handler_kind(h.kind, starts),
        ..h
    };
    store(run, place, q);
}

// The process p stands at a place, without its link; its handler, if linked, starts.
pub fn start_handler(text: &[u8], scratch: &[u32], run: &mut [u32], place: usize, p: Process)
    requires run_of { RunOf text.now scratch.now run.old }
    requires place_in_bounds { place < length (raw_in run.old).processes }
    requires process_of { ProcessOf text.now scratch.now (length (raw_in run.old).processes) p }
    ensures { Becomes text.now scratch.now run.old run.new (handler_starts place (process_as text.now scratch.now p) (config_in text.now scratch.now run.old)) }
{
    change_handler(text, scratch, run, p.link, true);
    let q = Process {
        link: UNLINKED,
        ..p
    };
    store(run, place, q);
}
