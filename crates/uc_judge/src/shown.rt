//! A design as its report shows it.

ghost use Rattle.std.specs.Prelude.{◌≡◌};
ghost use Rattle.uc_report.specs.Described.{described};
ghost use Rattle.uc_report.specs.TraceTables.{IsShown};

use uc_report::{DesignView, ShownDesign};
use uc_runnable::Runnable;

/// The design with its labels, its constants and its cells, by reference.
pub fn shown_design(d: &Runnable) -> ShownDesign<'_>
    ensures shown { IsShown result }
    ensures design { described result.view ≡ d.now }
{
    let system = d.system();
    let view = DesignView {
        names: system.names,
        files: system.files,
        modules: system.modules,
        main: system.main,
    };
    let flat = d.flat();
    ShownDesign {
        view,
        labels: d.labels(),
        constants: flat.constants.as_slice(),
        cells: flat.cells.as_slice(),
    }
}
