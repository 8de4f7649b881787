// The schedules of a study, lent: their rows, with the links along which those of a unit, or of a schedule,
// are found. Whoever makes them sees to it that the rows are permitted and linked.
ghost use Rattle.std.specs.Prelude.{◌≡◌};
ghost use Rattle.links.specs.promises.Links.{RowsLinked};
ghost use Rattle.schedules.specs.Schedules.{own};
ghost use Rattle.choice.specs.promises.Ranges.{ScheduleCells};
ghost use Rattle.choice.specs.Schedules.{schedules, has_any as schedules_has_any};
ghost use Rattle.choice.specs.Choosing.{choice};
ghost use Rattle.tables.specs.promises.FlatRows.{schedule_rows};

use crate::choices::Choice;
use crate::choosing;
use crate::kinds::Kinds;
use std::marker::Model;
use tables::Kind;

#[derive(Drop)]
pub struct Schedules<'a> {
    cells: &'a [u64],
    n: usize,
    links: &'a [u16],
}

impl<'a> Model for Schedules<'a> {
    ghost use Rattle.std.specs.Prelude.{List};
    ghost use Rattle.tables.specs.Rows.{ScheduleRow};

    ghost Value = { List ScheduleRow };

    ghost use Rattle.links.specs.promises.Links.{RowsLinked};
    ghost use Rattle.choice.specs.promises.Ranges.{ScheduleCells};
    ghost use Rattle.tables.specs.promises.FlatRows.{schedule_rows};

    ghost view = { λ s. schedule_rows s.n s.cells.now };

    ghost invariant = { λ s. ScheduleCells s.n s.cells.now × RowsLinked s.cells.now s.n s.links.now };
}

impl<'a> Schedules<'a> {
    pub fn of(cells: &'a [u64], n: usize, links: &'a [u16]) -> Schedules<'a>
        requires schedule_cells { ScheduleCells n cells.now }
        requires rows_linked { RowsLinked cells.now n links.now }
        ensures { result ≡ schedule_rows n cells.now }
    {
        Schedules { cells, n, links }
    }

    // Whether the unit has a schedule of these kinds.
    pub fn has_any(&self, unit: u64, hour: u64, kinds: Kinds) -> bool
        ensures { result ≡ schedules_has_any kinds (schedules hour (own unit self.now)) }
    {
        choosing::has_any(self.cells, self.n, self.links, unit, hour, kinds)
    }

    // The schedule chosen for a unit; nothing where none is eligible.
    pub fn choose(&self, unit: u64, hour: u64, exposed: bool, day: Option<Kind>) -> Option<Choice>
        ensures { result ≡ choice day exposed hour (own unit self.now) }
    {
        choosing::choose(self.cells, self.n, self.links, unit, hour, exposed, day)
    }
}
