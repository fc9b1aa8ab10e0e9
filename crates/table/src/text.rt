// Whether a question may be asked with a text, given afresh or a session's letters. A letter that is typed goes by the same byte rule,
// `names::allowed`, and is folded as here.
ghost use Rattle.std.specs.Prelude.{◌≡◌};
ghost use Rattle.base.specs.Lent.{given};
ghost use Rattle.base.specs.Lists.{all};
ghost use Rattle.rules.specs.Numbers.{verdict_number};
ghost use Rattle.rules.specs.Names.{allowed, folded, folded_text, text_refusal};

use crate::names::{allowed, folded};
use rules::{Refusal, Stand};

// What is judged is the byte as it is read. One that is allowed as it stands is read so, which spares the fold.
fn read_allowed(byte: u8) -> bool
    ensures { result ≡ allowed (folded byte) }
{
    allowed(byte) || allowed(folded(byte))
}

fn typed_allowed(typed: &[u8]) -> bool
    ensures { result ≡ all allowed (folded_text (given typed)) }
{
    typed.iter().all(|byte| read_allowed(*byte))
}

// The first of refusals 9 and 8 that holds.
pub fn text_verdict(typed: &[u8]) -> Result<(), Refusal>
    ensures { verdict_number result ≡ text_refusal (folded_text (given typed)) }
{
    if Stand::NAME_MOST < typed.len() {
        return Err(Refusal::TextTooLong);
    }
    if !typed_allowed(typed) {
        return Err(Refusal::TextByteNotAllowed);
    }
    Ok(())
}
