ghost use Rattle.std.specs.Prelude.{◌≡◌, ◌<◌};
ghost use Rattle.rules.specs.Free.{stands_on, is_stood_on, is_free_item, place_after, first_free_in};
ghost use Rattle.std.specs.List.{slice_get};

use tables::item::{Item, ItemState};
use tables::record::Core;
use tables::session::{Session, Stage};

// Whether a session at this stage stands on a place.
fn stands_on(stage: Stage, place: u32) -> bool
    ensures { result ≡ stands_on place stage }
{
    match stage {
        Stage::UnderWay(work) => work.cursor() == Some(place),
        Stage::Idle | Stage::Ended(_, _) => false,
    }
}

fn is_stood_on(sessions: &[Session], place: u32) -> bool
    ensures { result ≡ is_stood_on place sessions.now }
{
    sessions
        .iter()
        .any(|session| stands_on(session.stage, place))
}

// Sessions are looked at only for a place whose item is out.
fn is_free<K: Copy, V: Copy>(sessions: &[Session], items: &[Item<K, V>], place: u32) -> bool
    ensures { result ≡ is_free_item sessions.now place (slice_get items.now place) }
{
    match items.get(place as usize).map(|item| item.state) {
        Some(ItemState::Out) => !is_stood_on(sessions, place),
        _ => false,
    }
}

fn place_after(places: u32, place: u32) -> u32
    requires { place < places }
    ensures { result ≡ place_after places place }
{
    if place + 1 == places { 0 } else { place + 1 }
}

// The first free place after the hand, round the table to the hand itself. It goes place by place as the
// rule does; two ranges in a chain would part the round at the table's end.
pub(crate) fn first_free<K: Copy, V: Copy>(core: &Core, items: &[Item<K, V>]) -> Option<u32>
    requires { core.now.hand < core.now.places }
    ensures { result ≡ first_free_in core.now items.now }
{
    let mut place = core.hand;
    for step in 0..core.places {
        place = place_after(core.places, place);
        if is_free(&core.sessions, items, place) {
            return Some(place);
        }
    }
    None
}
