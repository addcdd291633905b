ghost use Rattle.std.specs.Prelude.{◌≡◌, ◌-◌, ◌*◌, ◌≤◌, true, ◌++◌, length, take, drop};
ghost use Rattle.rules.specs.Grids.{as_watts, enough, lowered};

use rules::power::{Mw, Watts};

// What so many MW of this weight leave of a room.
fn less(room: Watts, weight: Watts, mw: Mw) -> Watts
    requires { mw.0 * weight.0 ≤ room.0 }
    ensures { result ≡ as_watts (room.0 - mw.0 * weight.0) }
{
    Watts(room.0 - u64::from(mw.0) * weight.0)
}

// Whether each room is enough for so many MW that weigh so much on it.
pub(crate) fn all_enough(rooms: &[Watts], weights: &[Watts], mw: Mw) -> bool
    requires { length weights.now ≡ length rooms.now }
    ensures { result ≡ enough mw rooms.now weights.now }
{
    for (room, weight) in rooms.iter().zip(weights) {
        if u128::from(mw.0) * u128::from(weight.0) > u128::from(room.0) {
            return false;
        }
    }
    true
}

// Lowers each room by so many MW times the weight on it. The weight is taken by its number: by `zip` over what is written the proof did not close,
// since nothing is known of rooms that are lent in pairs.
pub(crate) fn lower(rooms: &mut [Watts], weights: &[Watts], mw: Mw)
    requires as_many { length weights.now ≡ length rooms.old }
    requires fits { enough mw rooms.old weights.now ≡ true }
    ensures { rooms.new ≡ lowered mw rooms.old weights.now }
{
    for (gauge, room) in rooms.iter_mut().enumerate() {
        *room = less(*room, weights[gauge], mw);
    }
}

// Lowers as many rooms as there are weights, from the first on, and leaves the others. A function of its own, since of a slice of rooms that are lent
// where it is called nothing is known of the others afterwards.
pub(crate) fn lower_first(rooms: &mut [Watts], weights: &[Watts], mw: Mw)
    requires enough_rooms { length weights.now ≤ length rooms.old }
    requires fits { enough mw (take (length weights.now) rooms.old) weights.now ≡ true }
    ensures { rooms.new ≡ lowered mw (take (length weights.now) rooms.old) weights.now ++ drop (length weights.now) rooms.old }
{
    lower(&mut rooms[..weights.len()], weights, mw);
}
