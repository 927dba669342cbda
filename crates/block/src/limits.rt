// Numbers 12 to 14: what refuses a line whose words are all there and right.
ghost use Rattle.std.specs.Prelude.{◌≡◌, not, true, ◌&&◌, ◌||◌, map};
ghost use Rattle.rules.specs.Numbers.{between, counted, whole};
ghost use Rattle.rules.specs.Block.{amount, has};
ghost use Rattle.rules.specs.Reach.{at, fresh, in_reach};
ghost use Rattle.rules.specs.With.{with_origins};
ghost use Rattle.rules.specs.Steps.{origin_of};
ghost use Rattle.rules.specs.Arcs.{plane_axes};
ghost use Rattle.checks.specs.Modes.{judged};
ghost use Rattle.block.specs.Bounds.{Numbered};
ghost use Rattle.block.specs.Judged.{bad_ways, beyond, late, ways};
ghost use Rattle.block.specs.Motion.{travel_of};

use super::motion::{Travel, origin_of};
use super::steps::number;
use arcs::{radii_unequal, slack, starts_at_centre};
use checks::{plane_axes, wrong_mode};
use lengths::subtract;
use rules::{Block, Length, Record, Refusal, Value};

// Numbers 12 to 14, by the record as the motion step finds it. Number 14 is asked
// only where number 13 is not given: the squares of longer ways would not fit.
pub(crate) fn late(b: Block, m: Record, t: Travel) -> Result<(), Refusal>
    requires numbered { Numbered b }
    requires position_value { in_reach m.position ≡ true }
    requires t_value { t ≡ travel_of b m }
    ensures { result ≡ judged (late b m) }
{
    if wrong_mode(b, m.motion, m.feed) {
        return Err(Refusal::WrongMode);
    }
    if travel_too_far(t)
        | origin_too_far(b.once, b.p, m.origins)
        | offset_too_far(b.once, m.offset)
    {
        return Err(Refusal::TooFar);
    }
    let Some(middle) = t.centre else {
        return Ok(());
    };
    let to = t.to.unwrap_or(m.position);
    if bad_arc(m.position, to, middle, m.plane, m.units) {
        return Err(Refusal::BadArc);
    }
    Ok(())
}

// The target or the centre is out of reach.
fn travel_too_far(t: Travel) -> bool
    ensures { result ≡ (beyond t.to || beyond t.centre) }
{
    beyond(t.to) | beyond(t.centre)
}

// There are lengths, and not all of them are in reach.
fn beyond<const N: usize>(lengths: Option<[Length; N]>) -> bool
    ensures { result ≡ beyond lengths.entry }
{
    match lengths {
        Some(lengths) => !record::in_reach(&lengths),
        None => false,
    }
}

// A new origin is out of reach.
fn origin_too_far(once: Option<u16>, p: Option<Value>, origins: [Length; 27]) -> bool
    requires { has once 100 ≡ true → between 1 9 (whole (amount p).0) ≡ true }
    ensures { result ≡ (has once 100 && not (in_reach (origin_of (with_origins origins fresh) (counted (whole (amount p).0))))) }
{
    if once == Some(100) {
        let system = number(p.unwrap_or(Value(0)));
        return !record::in_reach(&origin_of(origins, system as usize));
    }
    false
}

// A new offset is out of reach.
fn offset_too_far(once: Option<u16>, offset: [Length; 3]) -> bool
    ensures { result ≡ (has once 920 && not (in_reach offset)) }
{
    (once == Some(920)) & !record::in_reach(&offset)
}

// The start is the centre, or the radii are too unequal.
fn bad_arc(here: [Length; 3], to: [Length; 3], middle: [Length; 2], plane: u16, units: u16) -> bool
    requires here_value { in_reach here ≡ true }
    requires to_value { in_reach to ≡ true }
    requires middle_value { in_reach middle ≡ true }
    ensures { result ≡ bad_ways here to middle plane units }
{
    let start = way(here, plane, middle);
    let end = way(to, plane, middle);
    starts_at_centre(start) | radii_unequal(start, end, slack(units))
}

// The way from an arc's centre to a place, on the axes of the plane.
fn way(place: [Length; 3], plane: u16, centre: [Length; 2]) -> [Length; 2]
    requires place_value { in_reach place ≡ true }
    requires centre_value { in_reach centre ≡ true }
    ensures { result ≡ ways (map (at place) (plane_axes plane)) centre }
{
    let [i, j] = plane_axes(plane);
    [subtract(place[i], centre[0]), subtract(place[j], centre[1])]
}
