// Where a line goes: words as lengths, the origin in force, the target of a move and the centre of
// an arc. They are worked out once a line, and all that follows takes them from `Travel`.
ghost use Rattle.std.specs.Prelude.{◌≡◌, ◌<◌, ◌≤◌, nat_abs, Option};
ghost use Rattle.std.specs.Bool.{then_some};
ghost use Rattle.rules.specs.Codes.{system_number};
ghost use Rattle.rules.specs.Block.{amount, moves};
ghost use Rattle.rules.specs.Reach.{converted, fresh};
ghost use Rattle.rules.specs.With.{with_origins};
ghost use Rattle.rules.specs.Steps.{origin_of, target, target_at};
ghost use Rattle.rules.specs.Arcs.{arc_move, centre};
ghost use Rattle.block.specs.Bounds.{Ranged, Small, Under, Worded};
ghost use Rattle.block.specs.Motion.{centre_on, move_by, travel_of};

use checks::{arc_move, moves, plane_axes};
use codes::system_number;
use lengths::{add, convert};
use orders::{arc, straight};
use rules::{Block, Command, Length, Record, Value};

// The mode of motion in force; where the line goes, if it moves; and the centre of its arc, if it moves by one.
#[derive(Clone, Copy)]
pub(crate) struct Travel {
    pub(crate) motion: u16,
    pub(crate) to: Option<[Length; 3]>,
    pub(crate) centre: Option<[Length; 2]>,
}

pub(crate) fn travel_of(b: Block, m: Record) -> Travel
    requires ranged { Ranged b }
    requires small { Small m }
    ensures { result ≡ travel_of b m }
{
    Travel {
        motion: b.motion.unwrap_or(m.motion),
        to: target(b, m),
        centre: centre(b, m),
    }
}

// The command of a move, in a plane.
pub(crate) fn move_command(t: Travel, plane: u16) -> Option<Command>
    ensures { result ≡ move_by t plane }
{
    let to = t.to?;
    Some(match t.centre {
        Some(middle) => arc(t.motion, plane, to, middle),
        None => straight(t.motion, to),
    })
}

// A word's value as a length, in the units in force.
pub(crate) fn long(units: u16, v: Value) -> Length
    requires { nat_abs v.0 ≤ 999999999 }
    ensures { result ≡ converted units v }
{
    convert(units, v)
}

// The origin of a system by its number.
pub(crate) fn origin_of(origins: [Length; 27], number: usize) -> [Length; 3]
    requires first { 1 ≤ number }
    requires last { number ≤ 9 }
    ensures { result ≡ origin_of (with_origins origins fresh) number }
{
    let place = 3 * (number - 1);
    [origins[place], origins[place + 1], origins[place + 2]]
}

// A code that is no system has no origin.
pub(crate) fn origin_in_force(origins: [Length; 27], system: u16) -> [Length; 3]
    ensures { result ≡ origin_of (with_origins origins fresh) (system_number system) }
{
    match system_number(system) {
        Some(number) => origin_of(origins, number as usize),
        None => [Length(0); 3],
    }
}

// Where an axis goes: its word alone with G53, from the position under G91, else from origin and
// offset.
fn target_at(b: &Block, m: &Record, origin: [Length; 3], i: usize) -> Length
    requires ranged { Ranged b.now }
    requires small { Small m.now }
    requires origin_value { origin ≡ origin_of m.now (system_number m.now.system) }
    requires i_bound { i < 3 }
    ensures { result ≡ target_at b.now m.now i }
{
    let here = m.position[i];
    let Some(v) = b.axes[i] else {
        return here;
    };
    let length = long(m.units, v);
    if b.once == Some(530) {
        return length;
    }
    if m.distance == 910 {
        return add(here, length);
    }
    add(add(length, origin[i]), m.offset[i])
}

fn target(b: Block, m: Record) -> Option<[Length; 3]>
    requires ranged { Ranged b }
    requires small { Small m }
    ensures { result ≡ then_some (moves b) (target b m) }
{
    if !moves(b) {
        return None;
    }
    let origin = origin_in_force(m.origins, m.system);
    Some([
        target_at(&b, &m, origin, 0),
        target_at(&b, &m, origin, 1),
        target_at(&b, &m, origin, 2),
    ])
}

// The centre of an arc on the plane's axes, in axis order. A missing offset word counts 0.
fn centre(b: Block, m: Record) -> Option<[Length; 2]>
    requires ranged { Ranged b }
    requires small { Small m }
    ensures { result ≡ then_some (arc_move b m) (centre b m) }
{
    if !arc_move(b, m.motion) {
        return None;
    }
    let [i, j] = plane_axes(m.plane);
    Some([
        centre_at(b.offsets, m.position, m.units, i),
        centre_at(b.offsets, m.position, m.units, j),
    ])
}

fn centre_at(offsets: [Option<Value>; 3], here: [Length; 3], units: u16, i: usize) -> Length
    requires worded { Worded offsets }
    requires under { Under 1000000000000 here }
    requires i_bound { i < 3 }
    ensures { result ≡ centre_on units offsets here i }
{
    add(here[i], long(units, offsets[i].unwrap_or(Value(0))))
}
