// What each parameter number stands for, how fine its value is, and which values it may have.
ghost use Rattle.std.specs.Prelude.{◌≡◌};
ghost use Rattle.parameters.specs.Places.{stands_for, origin_at, decimals};

// An entry of the table; the place of an axis in the G92 offset, and in the origins; the system; or nothing.
#[derive(Clone, Copy)]
pub enum Place {
    Entry(usize),
    Offset(usize),
    Origin(usize),
    System,
    Passed,
}

// What a number stands for.
pub(crate) fn stands_for(number: usize) -> Place
    ensures { result ≡ stands_for number }
{
    match number {
        1..=4999 => Place::Entry(number),
        5211..=5213 => Place::Offset(number - 5211),
        5220 => Place::System,
        5221..=5383 => origin_at(number - 5221),
        _ => Place::Passed,
    }
}

// What the number stands for that lies so far behind 5221: origins begin every 20, and have three axes.
fn origin_at(distance: usize) -> Place
    ensures { result ≡ origin_at distance }
{
    if distance % 20 < 3 {
        Place::Origin(3 * (distance / 20) + distance % 20)
    } else {
        Place::Passed
    }
}

// How many decimals a value may have there.
pub(crate) fn decimals(place: Place) -> usize
    ensures { result ≡ decimals place }
{
    match place {
        Place::Entry(_) => 4,
        Place::Offset(_) | Place::Origin(_) => 5,
        Place::System | Place::Passed => 0,
    }
}
