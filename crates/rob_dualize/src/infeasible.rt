//! The certificate of an infeasible model.

ghost use Rattle.std.specs.Prelude.{◌≡◌, map};
ghost use Rattle.rob_model.specs.View.{scenario_of};
ghost use Rattle.rob_cert.specs.View.{certificate_of, item_of};
ghost use Rattle.rob_dualize.specs.Ending.{infeasible_with};

use crate::numbers::whole;
use rob_cert::{Cert, Item, Status};
use rob_model::Scenario;
use rob_number::{Exact, List};
use std::alloc::Global;

/// Infeasible: the items alone, with the scenario.
pub fn with_items<N: Exact>(alloc: Global, inside: Scenario<N>, items: List<Item<N>>) -> Cert<N>
    ensures certificate { certificate_of N.value result
        ≡ infeasible_with (scenario_of N.value inside) (map (item_of N.value) items) }
{
    Cert {
        status: Status::Infeasible,
        value: whole(0),
        scale: whole(1),
        inside,
        plan: List::new(alloc),
        step: List::new(alloc),
        step_bound: whole(0),
        covers: List::new(alloc),
        holds: List::new(alloc),
        items,
    }
}
