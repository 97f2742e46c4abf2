ghost use Rattle.std.specs.Prelude.{◌≡◌, List, IfOk};
ghost use Rattle.links.specs.declared.entry.Entry.{Entry};
ghost use Rattle.sts_core.specs.State.{Stands};
ghost use Rattle.generated_work.specs.Run.{newest_token as newest_in, token_behind};
ghost use Rattle.generated_work.specs.Setting.{run_config};

use base_types::Text;
use links::{State, render};
use std::alloc::{AllocError, Global};
use sts_core::Sts;
use wif_base::Disk;

/// The token of the link that was recorded last, and an empty text where there is none.
pub(crate) fn newest_token<D: Disk>(alloc: Global, sts: &Sts<D>) -> Result<Text, AllocError>
    ensures { (journal : List Entry) → Stands sts.now run_config journal → IfOk result (λ token. token ≡ token_behind journal) }
{
    newest_of(alloc, sts.state())
}

fn newest_of(alloc: Global, state: &State) -> Result<Text, AllocError>
    ensures { IfOk result (λ token. token ≡ newest_in state.now.content) }
{
    let links = state.link_count();
    if links == 0 {
        return Text::copy_of(alloc, "");
    }
    render(alloc, state, links - 1)
}
