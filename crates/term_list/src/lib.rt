// What a lent slice of terms comes to: a walk over it that folds the step for one term.
#![tactic(auto)]

ghost use Rattle.std.specs.Prelude.{◌≡◌};
ghost use Rattle.terms.specs.Terms.{terms_of};

use terms::{Terms, TriggerTerm};

// 01's terms as "a lent slice of line and condition records".
pub fn terms_of(terms: &[TriggerTerm]) -> Terms
    ensures { result ≡ terms_of terms.now }
{
    terms.iter().fold(Terms::none(), |sum, t| sum.with(*t))
}
