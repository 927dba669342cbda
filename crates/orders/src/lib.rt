// The commands of an accepted line: what is asked for, in document 01's order, counted and then written.
#![tactic(auto)]

ghost use Rattle.std.specs.Prelude.{◌≡◌, Option, cond, [], ◌∷◌, ◌++◌, ◌*◌, ◌+◌, ◌/◌, ◌≤◌, eqb, ltb, pos, length};
ghost use Rattle.rules.specs.Steps.{coolant_of, spindle_of};
ghost use Rattle.rules.specs.Commands.{command, eight, numbers, written};
ghost use Rattle.rules.specs.Promise.{over};
ghost use Rattle.orders.specs.Orders.{asked, orders_of, written_by};
ghost use Rattle.orders.specs.Laying.{laid};

use rules::{Block, Command, Length, Value};

// The commands that the line asks for, each in its place: F, S, T, M6, spindle, coolant, G4, the move, stop.
#[tactic(auto, unfolding(crate::specs::Orders::orders_of))]
pub fn orders_of(
    b: Block,
    feed: Length,
    speed: Value,
    tool: u8,
    moving: Option<Command>,
) -> [Option<Command>; 9]
    ensures { result ≡ orders_of b feed speed tool moving }
{
    let pause = b.p.unwrap_or(Value(0));
    [
        b.f.map(|_| with_field(1, feed.0)),
        b.s.map(|_| with_field(2, speed.0)),
        b.t.map(|_| with_code(3, tool as u16)),
        b.change.map(|_| with_field(4, 0)),
        b.spindle.map(|code| with_code(5, spindle_of(code) as u16)),
        b.coolant.map(|code| with_code(6, coolant_of(code) as u16)),
        (b.once == Some(40)).then_some(with_field(7, pause.0)),
        moving,
        b.stop.map(|code| with_code(11, code)),
    ]
}

// A command whose fields behind the first are 0.
fn with_field(kind: u8, field: i64) -> Command
    ensures { result ≡ command kind (field ∷ []) }
{
    Command {
        kind: kind,
        fields: [field, 0, 0, 0, 0, 0, 0],
    }
}

fn with_code(kind: u8, code: u16) -> Command
    ensures { result ≡ command kind (pos code ∷ []) }
{
    with_field(kind, code as i64)
}

// The spindle's state by M3, M4 and M5.
pub fn spindle_of(code: u16) -> u8
    ensures { result ≡ spindle_of code }
{
    match code {
        3 => 1,
        4 => 2,
        _ => 0,
    }
}

// The coolant that M7, M8 and M9 ask for.
fn coolant_of(code: u16) -> u8
    ensures { result ≡ coolant_of code }
{
    match code {
        7 => 1,
        8 => 2,
        _ => 0,
    }
}

// A rapid or a feed move.
pub fn straight(motion: u16, to: [Length; 3]) -> Command
    ensures { result ≡ command (cond (eqb motion 0) 8 9) (numbers to) }
{
    let kind = if motion == 0 { 8 } else { 9 };
    let [x, y, z] = to;
    Command {
        kind: kind,
        fields: [x.0, y.0, z.0, 0, 0, 0, 0],
    }
}

pub fn arc(motion: u16, plane: u16, to: [Length; 3], centre: [Length; 2]) -> Command
    ensures { result ≡ command 10 (pos (motion / 10) ∷ pos (plane / 10) ∷ numbers to ++ numbers centre) }
{
    let direction = (motion / 10) as i64;
    let number = (plane / 10) as i64;
    let [x, y, z] = to;
    let [first, second] = centre;
    Command {
        kind: 10,
        fields: [direction, number, x.0, y.0, z.0, first.0, second.0],
    }
}

// Writes the commands asked for from the start of the space, and tells how many they are; or writes nothing where the
// space is too short for all of them.
pub fn write(orders: [Option<Command>; 9], out: &mut [i64]) -> Option<u64>
    ensures { (result ≡ written_by (asked orders) (length out.old)) × (out.new ≡ cond (ltb (length out.old) (8 * length (asked orders))) out.old (over (written (asked orders)) out.old)) }
{
    let number = count(orders);
    if out.len() < 8 * number {
        return None;
    }
    lay_all(orders, out);
    Some(number as u64)
}

// How many of the orders are asked for.
fn count(orders: [Option<Command>; 9]) -> usize
    ensures value { result ≡ length (asked orders) }
    ensures few { result ≤ 9 }
{
    let mut number = 0;
    for order in orders {
        if order.is_some() {
            number += 1;
        }
    }
    number
}

// Lays the commands asked for one after the other.
fn lay_all(orders: [Option<Command>; 9], out: &mut [i64])
    requires { 8 * length (asked orders) ≤ length out.old }
    ensures { out.new ≡ over (written (asked orders)) out.old }
{
    let mut at = 0;
    for order in orders {
        if let Some(command) = order {
            at = lay(command, out, at);
        }
    }
}

// Lays a command's eight numbers from a place on, and gives the place behind them.
fn lay(c: Command, out: &mut [i64], at: usize) -> usize
    requires { at + 8 ≤ length out.old }
    ensures { (result ≡ at + 8) × (result ≡ at + length (eight c)) × (out.new ≡ laid out.old at (eight c)) }
{
    out[at] = c.kind as i64;
    out[at + 1..at + 8].copy_from_slice(&c.fields);
    at + 8
}
