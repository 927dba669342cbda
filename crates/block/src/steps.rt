// The record, step by step, in the order of document 01. Most functions give the new value of one
// field; `ready` and `left` put them in their places.
ghost use Rattle.std.specs.Prelude.{◌≡◌, true, cond, ◌||◌, ◌≤◌, ◌<◌, eqb, nat_abs, set, is_some, IfSome};
ghost use Rattle.std.specs.Option.{option_map_or};
ghost use Rattle.rules.specs.Numbers.{whole, between, counted};
ghost use Rattle.rules.specs.Block.{amount};
ghost use Rattle.rules.specs.Reach.{converted, ◌less◌, at};
ghost use Rattle.rules.specs.Steps.{spindle_of, coolant_with, origin_place, origin_step, offset_step, ready, motion_of, motion_step, stop_step};
ghost use Rattle.block.specs.Bounds.{Ranged, Small, Numbered};
ghost use Rattle.block.specs.Motion.{end_of};

use super::motion::{long, origin_in_force};
use checks::ends;
use lengths::subtract;
use orders::spindle_of;
use rules::{Block, Length, Record, Value};
use value::whole;

// The record as the motion step finds it. F counts in the units in force before the line, axis
// words in those of the line. (G4 changes nothing.)
pub(crate) fn ready(b: Block, r: Record) -> Record
    requires ranged { Ranged b }
    requires small { Small r }
    requires numbered { Numbered b }
    ensures { result ≡ ready b r }
{
    let mut m = r;
    m.feed = new_length(r.units, b.f, r.feed);
    m.speed = b.s.unwrap_or(r.speed);
    m.tool = new_tool(b.t, r.tool);
    m.spindle = new_spindle(b.change, b.spindle, r.spindle);
    m.coolant = new_coolant(b.coolant, r.coolant);
    m.plane = b.plane.unwrap_or(r.plane);
    m.units = b.units.unwrap_or(r.units);
    m.system = b.system.unwrap_or(r.system);
    m.distance = b.distance.unwrap_or(r.distance);
    m.origins = new_origins(b, m);
    m.offset = new_offset(b, m);
    m
}

// The record as the line leaves it: moved, and reset by M2 or M30.
#[tactic(auto, unfolding(rules::specs::Steps::motion_step, rules::specs::Steps::stop_step))]
pub(crate) fn left(b: Block, m: Record, to: [Length; 3], motion: u16) -> Record
    requires to_value { to ≡ end_of b m }
    requires motion_value { motion ≡ motion_of b m }
    ensures { result ≡ stop_step b (motion_step b m) }
{
    let mut q = m;
    q.position = to;
    q.motion = motion;
    if ends(b) {
        q.system = 540;
        q.plane = 170;
        q.distance = 900;
        q.motion = 10;
        q.spindle = 0;
        q.coolant = 0;
        q.offset = [Length(0); 3];
    }
    q
}

// A word as a length, where it is given.
fn new_length(units: u16, w: Option<Value>, old: Length) -> Length
    requires { nat_abs (amount w).0 ≤ 999999999 }
    ensures { result ≡ option_map_or (converted units) w old }
{
    match w {
        Some(v) => long(units, v),
        None => old,
    }
}

fn new_tool(t: Option<Value>, old: u8) -> u8
    requires { IfSome t (λ v. between 0 99 (whole v.0) ≡ true) }
    ensures { result ≡ option_map_or (λ v. counted (whole v.0)) t old }
{
    match t {
        Some(v) => number(v),
        None => old,
    }
}

// The whole number that a value counts as.
pub(crate) fn number(v: Value) -> u8
    requires { between 0 99 (whole v.0) ≡ true }
    ensures { result ≡ counted (whole v.0) }
{
    whole(v).unwrap_or(0) as u8
}

// M6 stops the spindle before the line's own M3, M4 or M5.
fn new_spindle(change: Option<u16>, spindle: Option<u16>, old: u8) -> u8
    ensures { result ≡ option_map_or spindle_of spindle (cond (is_some change) 0 old) }
{
    let before = if change.is_some() { 0 } else { old };
    spindle.map_or(before, spindle_of)
}

fn new_coolant(c: Option<u16>, old: u8) -> u8
    ensures { result ≡ option_map_or (λ m. coolant_with m old) c old }
{
    c.map_or(old, |code| coolant_with(code, old))
}

fn coolant_with(code: u16, old: u8) -> u8
    ensures { result ≡ coolant_with code old }
{
    match code {
        7 => beside(1, 2, old),
        8 => beside(2, 1, old),
        _ => 0,
    }
}

// Mist or flood, with the other one where it is on.
fn beside(own: u8, other: u8, old: u8) -> u8
    ensures { result ≡ cond (eqb old other || eqb old 3) 3 own }
{
    if old == other || old == 3 { 3 } else { own }
}

// G10 sets the named axes of origin P, axis after axis.
fn new_origins(b: Block, m: Record) -> [Length; 27]
    requires ranged { Ranged b }
    requires numbered { Numbered b }
    ensures { result ≡ (origin_step b m).origins }
{
    if b.once != Some(100) {
        return m.origins;
    }
    let system = number(b.p.unwrap_or(Value(0))) as usize;
    let mut origins = m.origins;
    for i in 0..3 {
        let place = 3 * (system - 1) + i;
        origins[place] = new_length(m.units, b.axes[i], origins[place]);
    }
    origins
}

// G92 sets the named axes, G92.1 zeroes all.
#[tactic(auto, unfolding(rules::specs::Steps::offset_step))]
fn new_offset(b: Block, m: Record) -> [Length; 3]
    requires ranged { Ranged b }
    requires small { Small m }
    ensures { result ≡ (offset_step b m).offset }
{
    match b.once {
        Some(920) => {
            let origin = origin_in_force(m.origins, m.system);
            [
                offset_at(b.axes[0], m.position[0], origin[0], m.units, m.offset[0]),
                offset_at(b.axes[1], m.position[1], origin[1], m.units, m.offset[1]),
                offset_at(b.axes[2], m.position[2], origin[2], m.units, m.offset[2]),
            ]
        }
        Some(921) => [Length(0); 3],
        _ => m.offset,
    }
}

// The offset by which the word names the position.
fn offset_at(w: Option<Value>, here: Length, origin: Length, units: u16, old: Length) -> Length
    requires value_bound { nat_abs (amount w).0 ≤ 999999999 }
    requires here_bound { nat_abs here.0 ≤ 1000000000000 }
    requires origin_bound { nat_abs origin.0 ≤ 1000000000000 }
    ensures { result ≡ option_map_or (λ v. (here less origin) less converted units v) w old }
{
    match w {
        Some(v) => subtract(subtract(here, origin), long(units, v)),
        None => old,
    }
}
