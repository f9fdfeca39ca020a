// What the core answers to what waits at a seat.
ghost use Rattle.std.specs.Prelude.{◌≡◌, IfSome, IfNone};
ghost use Rattle.host_core.specs.declared.asked.Asked.TheVariants.{Stop};
ghost use Rattle.host_core.specs.Judging.{JudgedBy, own_number, entered_at};

use crate::asked::Asked;
use crate::judges::Judges;
use host_calls::SeatName;
use plain::Answer;
use std::alloc::Global;

/// What is answered to a call at the seat of a name; nothing to Stop. `lasts` has the issue that each device took last, by its number.
/// An accepted call of the keeper is the journal's next entry, under that name.
pub fn judge_asked<B: Judges>(
    alloc: Global,
    book: &mut B,
    name: SeatName,
    asked: &Asked,
    lasts: &[Option<u64>],
) -> Option<Answer>
    ensures judged { IfSome result (λ a. JudgedBy (B.pages book.old).limits (B.pages book.old).most name lasts.now (B.pages book.old).entries asked.now a) }
    ensures entered { IfSome result (λ a. (B.pages book.new).entries ≡ entered_at (B.pages book.old).entries name asked.now a) }
    ensures stop { IfNone result (asked.now ≡ Stop) }
    ensures still { IfNone result ((B.pages book.new).entries ≡ (B.pages book.old).entries) }
    ensures limits { (B.pages book.new).limits ≡ (B.pages book.old).limits }
    ensures most { (B.pages book.new).most ≡ (B.pages book.old).most }
{
    match asked {
        Asked::Stop => None,
        Asked::Ask(call) => Some(book.judge(alloc, name, call)),
        Asked::Take { worker } => Some(book.take(lasts, number_of(name), *worker)),
    }
}

// The number of a device's seat. No Take comes from another.
fn number_of(name: SeatName) -> u8
    ensures { result ≡ own_number name }
{
    match name {
        SeatName::Device(number) => number,
        SeatName::Client(_) => 0,
        SeatName::Operator => 0,
        SeatName::Core => 0,
    }
}
