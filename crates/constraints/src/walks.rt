// A walk over the whole text: token by token to the first that is at fault, or to the end.
ghost use Rattle.constraints.specs.Tables.{Able, outcome, Walks};

use crate::effects::{emit, list, name};
use constraints_states::states::starting;
use constraints_states::{Counts, Room, Step};
use constraints_tokens::token_at;
use constraints_turn::turn;
use rules::answers::Fault;
use rules::sizes::Subnet;
use rules::tokens::Rules;

// Tracks are written as they come, and so are constraints; in a walk that sorts, each constraint at the next place of its kind.
pub fn walk(
    rules: Rules,
    text: &[u8],
    legs: &[u32],
    n: usize,
    rising: usize,
    constraints: &mut [u32],
    tracks: &mut [u32],
    next: &mut [usize],
    sorts: bool,
) -> Result<Counts, Fault>
    requires { Able text.now legs.now n rising next.old }
    ensures { Walks next.old sorts (outcome rules text.now legs.now n constraints.old tracks.old)
        constraints.old tracks.old result next.new constraints.new tracks.new }
{
    let room = Room::of(constraints.len(), tracks.len());
    let mut seen = Counts::none();
    let mut ids = [0u32; Subnet::MOST];
    let mut st = starting(rules);
    let mut at: usize = 0;
    // Kept (no plainer): a token's end says where the next is looked for, which no range does.
    loop {
        let t = token_at(text, at);
        let step = turn(legs, n, rising, &tracks[..], &ids[..], seen, room, st, t)?;
        at = t.next as usize;
        match step {
            Step::On(after) => st = after,
            Step::Emit(after) => st = emit(sorts, constraints, next, &mut seen.constraints, after),
            Step::Opened(after) => {
                seen.subnets += 1;
                st = after;
            }
            Step::Named(after, id) => st = name(&mut ids, &mut seen.ids, id, after),
            Step::Listed(after, id) => st = list(tracks, seen.subnets, &mut seen.tracks, id, after),
            Step::Finish(_) => return Ok(seen),
        }
    }
}
