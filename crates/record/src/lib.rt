// The session's record: as it is at the start, and whether every field is in its range.
#![tactic(auto)]

ghost use Rattle.std.specs.Prelude.{◌≡◌, ◌&&◌, leb};
ghost use Rattle.rules.specs.Reach.{in_reach, up_to, in_order, fresh};

use rules::{Length, Record, Value};

// The record of a new session: zeros, G80 G17 G90 G21 G54.
pub fn fresh() -> Record
    ensures { result ≡ fresh }
{
    Record {
        position: [Length(0); 3],
        origins: [Length(0); 27],
        offset: [Length(0); 3],
        motion: 800,
        plane: 170,
        distance: 900,
        units: 210,
        system: 540,
        feed: Length(0),
        speed: Value(0),
        tool: 0,
        spindle: 0,
        coolant: 0,
    }
}

// Whether every field is in its range. Modes, spindle and coolant are numbers and no enums, since a record from outside
// may hold any, and each is answered here (number 1).
pub fn in_order(r: Record) -> bool
    ensures { result ≡ in_order r }
{
    places_in_reach(&r)
        && quantities_in_range(&r)
        && codes::modes_served(r.motion, r.plane, r.distance, r.units, r.system)
}

// Whether lengths are all in reach: those of a place, of a centre, or of several places.
pub fn in_reach(places: &[Length]) -> bool
    ensures { result ≡ in_reach places.now }
{
    places.iter().all(|&l| lengths::in_reach(l))
}

fn places_in_reach(r: &Record) -> bool
    ensures { result ≡ (in_reach r.now.position && in_reach r.now.origins && in_reach r.now.offset) }
{
    in_reach(&r.position) && in_reach(&r.origins) && in_reach(&r.offset)
}

fn quantities_in_range(r: &Record) -> bool
    ensures { result ≡ (up_to 253999999746 r.now.feed.0 && up_to 999999999 r.now.speed.0 && leb r.now.tool 99 && leb r.now.spindle 2 && leb r.now.coolant 3) }
{
    (0..=253_999_999_746).contains(&r.feed.0)
        && (0..=999_999_999).contains(&r.speed.0)
        && r.tool <= 99
        && r.spindle <= 2
        && r.coolant <= 3
}
