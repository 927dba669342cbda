// The modes of a record.
ghost use Rattle.std.specs.Prelude.{◌≡◌, ◌&&◌, eqb};
ghost use Rattle.rules.specs.Codes.{g_group};

use super::g_table::g_group;

// Whether each mode of a record is a code of its group.
pub fn modes_served(motion: u16, plane: u16, distance: u16, units: u16, system: u16) -> bool
    ensures { result ≡ (eqb (g_group motion) 1 && eqb (g_group plane) 2 && eqb (g_group distance) 3 && eqb (g_group units) 6 && eqb (g_group system) 12) }
{
    (g_group(motion) == Some(1))
        & (g_group(plane) == Some(2))
        & (g_group(distance) == Some(3))
        & (g_group(units) == Some(6))
        & (g_group(system) == Some(12))
}
