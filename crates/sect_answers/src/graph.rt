//! The command `graph`.

ghost use Rattle.std.specs.Prelude.{IfOk, IfErr, IsOkUnless};
ghost use Rattle.sect_names.specs.{Schemes.{SchemeView}, Sources.{IsAccepted}};
ghost use Rattle.sect_answers.specs.declared.refusal.Refusal.TheVariants.{Memory};
ghost use Rattle.sect_answers.specs.Graphing.{IsProgramGraph, HasSection, IsGraphDue};

use crate::refusal::Refusal;
use sect_draw::graph;
use sect_emit::compile;
use sect_names::texts_have_one_program;
use std::alloc::Global;

/// The control-flow graphs of a source text's sections, or of the one that is asked for, in the language of Graphviz.
pub fn program_graph(
    alloc: Global,
    source: &[u8],
    k: u16,
    section: Option<u16>,
) -> Result<Vec<u8>, Refusal>
    // The text is accepted, and this is the graph of its compiled program.
    ensures answers { IfOk result (λ text. IsProgramGraph source.now k section text.items) }
    // A text that is accepted and has the section is answered, unless memory runs out.
    ensures only { (s : SchemeView) → IsAccepted source.now k s → HasSection s section
        → IsOkUnless result Memory }
    // A refusal is due: the text is judged first, and then the number of the section.
    ensures refuses { IfErr result (IsGraphDue source.now k section) }
{
    texts_have_one_program();
    let compiled = compile(alloc, source, k)?;
    let count = compiled.scheme().program().section_count();
    match section {
        None => Ok(graph(alloc, &compiled, 0, count)?),
        Some(number) => {
            if number >= count {
                return Err(Refusal::Section(number));
            }
            Ok(graph(alloc, &compiled, number, number + 1)?)
        }
    }
}
