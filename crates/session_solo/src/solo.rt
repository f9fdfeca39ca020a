// A keeper that is asked on this thread.
ghost use Rattle.session_solo.specs.Solo.{AsksKeeper};
ghost use Rattle.session_solo.specs.SoloLaws.{solo_frames};

use history::Keeper;
use host_calls::{ClientCall, Closed, clients_are_answered};
use plain::Answer;
use session_proto::Asks;
use std::alloc::Global;

/// A keeper, asked on this thread. Each call is made at seat 0. It never finds the host ended.
#[derive(Drop)]
pub struct Solo(pub Keeper);

// The seat of its one client.
const SEAT: u8 = 0;

impl Asks for Solo {
    ghost asks = { λ a call result b. AsksKeeper a.0.state call result b.0.state };

    fn ask(&mut self, alloc: Global, call: ClientCall) -> Result<Answer, Closed> {
        ask_keeper(&mut self.0, alloc, call)
    }

    ghost have_frames = { solo_frames };
}

// Makes a client's call.
fn ask_keeper(keeper: &mut Keeper, alloc: Global, call: ClientCall) -> Result<Answer, Closed>
    ensures { AsksKeeper keeper.old.state call result keeper.new.state }
{
    // A keeper is the replay of its journal, and there each answer to a client has a frame. Neither call changes anything.
    keeper.journal_len();
    clients_are_answered();
    Ok(keeper.call(alloc, &call.of_seat(SEAT)))
}
