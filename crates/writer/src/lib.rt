// The text of a value: write. It has no `requires`: it answers for every heap, roots, record and text that
// it is lent, and its promise is one equation to its definition in `model`.
//
// A refused writer changes no byte, so it goes over the value twice: it measures the text against the bytes
// that are lent, which ends where they run out, and spells it only where no piece of the value refused. The
// second time nothing is left to test.
#![tactic(auto)]

ghost use Rattle.std.specs.Prelude.{◌≡◌};
ghost use Rattle.model.specs.Words.{text_state_of};
ghost use Rattle.model.specs.Headers as Layouts;
ghost use Rattle.model.specs.Agreements.{kept_text};
ghost use Rattle.model.specs.Calls as Calls;

use model::{Answer, Record, Refusal};
use words::admission::admit;
use words::shape::{first_of, half_words};
use writer_measuring::measure_root;
use writer_measuring::used::UsedPart;
use writer_spelling::spell_root;

// The text of what root `root` holds, into the first bytes of `text`: its length; or SHAPE, ROOT, OBJECT,
// VALUE, DEEP or TEXT, and then no byte changes. Leaves the heap, the roots and the record.
pub fn write(
    heap: &[u32],
    roots: &[u32],
    record: Record,
    root: usize,
    text: &mut [u8],
) -> Result<Answer, Refusal>
    ensures { kept_text result heap.now roots.now «record» text.new
        ≡ Calls.write Layouts.tuple root (text_state_of heap.now roots.now «record» text.old) }
{
    admit(heap, roots, record, root)?;
    let word = roots[root];
    let used = UsedPart {
        heap,
        first: first_of(half_words(heap.len()), record.half).0,
        free: record.free.0,
    };
    measure_root(&used, text.len(), word)?;
    Ok(Answer::Written(spell_root(&used, text, word)))
}
