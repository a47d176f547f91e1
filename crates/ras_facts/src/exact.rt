//! Equal names are the same name.

ghost use Rattle.ras_facts.specs.Steps.NameLemmas.{name-exact};

use crate::Name;
use ras_base::ExactEq;

impl ExactEq for Name {
    ghost exact = { name-exact };
}
