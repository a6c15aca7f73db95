//! The check of a certificate.

ghost use Rattle.std.specs.Prelude.{◌≡◌};
ghost use Rattle.rob_cert.specs.Shape.{HasShape};
ghost use Rattle.rob_cert.specs.View.{certificate_of};
ghost use Rattle.rob_check.specs.Conditions.{verdict_of};
ghost use Rattle.rob_check.specs.Verdicts.{Counted, Judges, OnAccepted};
ghost use Rattle.rob_elab.specs.Elaborated.{IsElaborated};
ghost use Rattle.rob_meaning.specs.Certificates.{optimal};
ghost use Rattle.rob_meaning.specs.Proves.{HasStatus, IsTight, Proves};
ghost use Rattle.rob_model.specs.Valid.{IsValid};
ghost use Rattle.rob_model.specs.View.{robust};

use crate::given::Given;
use crate::order::check_all;
use crate::verdict::Verdict;
use rob_cert::Cert;
use rob_elab::Forms;
use rob_model::Model;
use rob_number::{Exact, Ledger};
use rob_sets::SetForm;

/// Whether a certificate proves what it claims of a model, whose forms and set rows are given in whole numbers. The
/// conditions are tried in order: the scale, the scenario `inside`, the items, their sums, the covers of the plan, the
/// direction with its covers. The first that fails, or that needs a wide number, is named. The call takes no memory.
/// (Schrijver, Theory of Linear and Integer Programming, chapter 7.)
pub fn check<N: Exact, L: Ledger>(
    model: &Model<N>,
    forms: &Forms,
    set: &SetForm,
    cert: &Cert<N>,
    ledger: &mut L,
) -> Verdict
    requires valid { IsValid N.value model.now }
    requires elaborated { IsElaborated N.limit (robust N.value model.now) forms.now set.now }
    requires shape { HasShape (robust N.value model.now) (certificate_of N.value cert.now) }
    // The first condition that fails or is wide decides.
    ensures exact { result ≡ verdict_of N.limit (robust N.value model.now)
        (certificate_of N.value cert.now) }
    // Accepted, the certificate proves what it claims; rejected, it doesn't.
    ensures proves { Judges (Proves (robust N.value model.now) (certificate_of N.value cert.now))
        result }
    // So the model has the status that an accepted certificate claims, with its value.
    ensures true_of { OnAccepted result
        (HasStatus (robust N.value model.now) (certificate_of N.value cert.now).status
        (certificate_of N.value cert.now).value) }
    // At the plan of an accepted optimal certificate each item's form is exactly 0.
    ensures tight { OnAccepted result ((certificate_of N.value cert.now).status ≡ optimal
        → IsTight (robust N.value model.now) (certificate_of N.value cert.now)) }
    ensures counted { Counted L.ops L.wides ledger.old ledger.new result }
{
    check_all(
        Given {
            model,
            forms,
            set,
            cert,
        },
        ledger,
    )
}
