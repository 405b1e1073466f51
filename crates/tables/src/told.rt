// Once the reply to a scan of a table is made: the groups of contacts that it carried start anew.
ghost use Rattle.std.specs.Prelude.{◌≡◌, ◌+◌, ◌%◌, ◌≤◌};
ghost use Rattle.chars.specs.Gather.{gather};
ghost use Rattle.model.specs.Contacts.{group_in};
ghost use Rattle.model.specs.Tables.{table_area, table_numbers, scan_numbers};
ghost use Rattle.layout.specs.Unit.{unit_in, config_in};
ghost use Rattle.layout.specs.Contacts.{Anew};
ghost use Rattle.tables.specs.Walked.{area_long};

use super::{Number, area_of, parts_of};
use layout::UNIT;
use model::{Input, Table};

// The groups among the numbers of a table.
fn numbers_anew(unit: &mut [u8; UNIT], t: Table)
    requires { t.start + t.quantity ≤ area_long }
    ensures { Anew unit.old unit.new
        (gather (group_in (config_in unit.old).inputs) (table_numbers (table_area (unit_in unit.old).fixed) t)) }
{
    for i in 0..usize::from(t.quantity) {
        let number = area_of(unit)[t.start + i];
        points::start_anew(unit, Input(number));
    }
}

// Mostly none has anything to clear, and the tables are not walked again.
pub fn start_anew(unit: &mut [u8; UNIT], command: u8)
    ensures { Anew unit.old unit.new
        (gather (group_in (config_in unit.old).inputs) (scan_numbers (table_area (unit_in unit.old).fixed) (command % 16))) }
{
    if layout::all_told(unit) {
        return;
    }
    let value = usize::from(command % 16);
    if value == 0 {
        return;
    }
    let parts = parts_of(area_of(unit), Number { value });
    numbers_anew(unit, parts.one);
    numbers_anew(unit, parts.two);
    numbers_anew(unit, parts.own);
}
