//! Where the items of a text stand.

ghost use Rattle.std.specs.Prelude.{◌≡◌, IfOk, MatchResult};
ghost use Rattle.sect_front.specs.Front.{IsSpelled, IsFault};
ghost use Rattle.sect_places.specs.Items.{AreItemSpans, HasItemSpans};

use sect_front::{FrontFault, Span, Tree, parse_spanned};
use std::alloc::{AllocError, Global};

/// The spans of the items of a tree that the text spells. The text is read again, which tells them.
pub fn tree_spans(alloc: Global, source: &[u8], tree: &Tree) -> Result<Vec<Span>, AllocError>
    requires { IsSpelled source.now tree.now }
    ensures { IfOk result (λ spans. AreItemSpans source.now tree.now spans.items) }
{
    match parse_spanned(alloc, source) {
        Ok((_, spans)) => Ok(spans),
        Err(_) => Err(AllocError),
    }
}

/// The spans of the items of a text, in their order, or the text's first fault. `Memory` is answered only where a
/// growth was refused.
pub fn item_spans(alloc: Global, source: &[u8]) -> Result<Vec<Span>, FrontFault>
    ensures { MatchResult result (λ spans. HasItemSpans source.now spans.items) (IsFault source.now) }
{
    match parse_spanned(alloc, source) {
        Ok((_, spans)) => Ok(spans),
        Err(placed) => Err(placed.fault),
    }
}
