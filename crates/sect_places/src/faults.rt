//! Where the fault of a text stands.

ghost use Rattle.std.specs.Prelude.{◌≡◌, ◌≢◌, IfOk, IfErr, length};
ghost use Rattle.sect_front.specs.{Front.{IsFault}, FaultPlaces.{IsFaultSpan, IsWithin}};

use sect_front::{FrontFault, PlacedFault, Span, parse_placed};
use std::alloc::Global;

/// The bytes of a fault, unless memory ran out.
fn known_span(placed: &PlacedFault) -> Result<Span, FrontFault>
    ensures span { IfOk result (λ span. span ≡ placed.now.span) }
    ensures known { IfOk result (λ _. placed.now.fault ≢ FrontFault.Memory) }
    ensures memory { IfErr result (λ e. e ≡ FrontFault.Memory) }
{
    match &placed.fault {
        FrontFault::Memory => Err(FrontFault::Memory),
        _ => Ok(placed.span),
    }
}

/// The bytes at which the fault of a text stands. `Memory` is the one answer beside them, where a growth was refused.
pub fn fault_span(alloc: Global, source: &[u8], fault: &FrontFault) -> Result<Span, FrontFault>
    requires known { fault.now ≢ FrontFault.Memory }
    requires fault { IsFault source.now fault.now }
    ensures span { IfOk result (λ span. IsFaultSpan source.now fault.now span) }
    ensures within { IfOk result (λ span. IsWithin (length source.now) span) }
    ensures memory { IfErr result (λ e. e ≡ FrontFault.Memory) }
{
    match parse_placed(alloc, source) {
        Ok(_) => unreachable!(),
        Err(placed) => {
            let span = known_span(&placed)?;
            Ok(span)
        }
    }
}
