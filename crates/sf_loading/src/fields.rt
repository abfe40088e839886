//! What rules make of fields.
ghost use Rattle.sf_format.specs.Format.{allowed as allowed_of, present as present_of};
ghost use Rattle.sf_loading.specs.Streaming.{Judges};

use super::halt::Halt;
use sf_format::Defect;

/// The value of the field at a place, where its test passes.
pub(crate) fn allowed<T: Drop>(test: bool, place: u64, defect: Defect, value: T) -> Result<T, Halt>
    ensures { Judges (λ x. x) place (allowed_of test defect value) result }
{
    if test {
        Ok(value)
    } else {
        Err(Halt::Found(place, defect))
    }
}

/// What the field at a place stands for, where it stands for something.
pub(crate) fn present<T>(value: Option<T>, place: u64, defect: Defect) -> Result<T, Halt>
    ensures { Judges (λ x. x) place (present_of value defect) result }
{
    value.ok_or(Halt::Found(place, defect))
}
