// Whether a text says a mesh that can be taken.
ghost use Rattle.element.specs.Refusals.{Coded};
ghost use Rattle.faults.specs.Refusal.{code_of};
ghost use Rattle.mesh.specs.Calls.{text_codes};

use faults::refusal::Refusal;
use mesh_form::walk::form;
use mesh_nodes::whole::whole;
use mesh_numbers::{twice, unlisted};

// Refusal 13, 14 or 15, if any.
pub fn text_code(t: &[u8]) -> Result<(), Refusal>
    ensures { Coded (text_codes t.now) (code_of result) }
{
    if !form(t) {
        return Err(Refusal::Form);
    }
    if twice(t) {
        return Err(Refusal::Form);
    }
    if !whole(t) {
        return Err(Refusal::Fraction);
    }
    if unlisted(t) {
        return Err(Refusal::Unlisted);
    }
    Ok(())
}
