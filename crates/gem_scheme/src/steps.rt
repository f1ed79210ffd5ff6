ghost use Rattle.vx_scheme.specs.declared.ident.Ident.TheVariants.{Number};
ghost use Rattle.vx_scheme.specs.declared.step_fault.StepFault.TheVariants as fault_of;
ghost use Rattle.std.specs.Prelude.{[], ◌++◌, ◌+◌, ◌<◌, ◌^◌, ◌↔◌, ◌∷◌, ◌≡◌, IfErr, IfOk};
ghost use Rattle.gem_scheme.specs.Version.{bump_of, front, last_number, number_to_raise, shortened};

use crate::order::front_len;
use crate::version::{GemVersion, Segment, Segments};
use std::alloc::Global;
use vx_scheme::{NoMemory, StepFault, copy_ident};

/// The version of the next series: of the numbers before the first word the last is dropped where there are two or more,
/// and the one that is then the last is raised by one (`Gem::Version#bump`). `TooLarge` comes exactly where the number to
/// be raised is 2^128-1.
pub fn bump(alloc: Global, version: &GemVersion) -> Result<GemVersion, StepFault>
    ensures ok { IfOk result (λ bumped. (bumped ≡ bump_of version.now) × (number_to_raise version.now + 1 < 2 ^ 128)) }
    ensures err { IfErr result (λ fault. (fault ≡ fault_of.TooLarge) ↔ (number_to_raise version.now + 1 ≡ 2 ^ 128)) }
{
    let numbers = series(version.segments.as_slice());
    let Some(raised) = last_number(numbers).checked_add(1) else {
        return Err(StepFault::TooLarge);
    };
    let segments = with_last(alloc, &numbers[..numbers.len() - 1], raised)?;
    Ok(GemVersion { segments })
}

// The numbers before the first word, without the last of two or more.
fn series(segments: &[Segment]) -> &[Segment]
    ensures { result.now ≡ shortened (front segments.now) }
{
    let len = front_len(segments);
    if len > 1 {
        &segments[..len - 1]
    } else {
        &segments[..len]
    }
}

fn last_number(numbers: &[Segment]) -> u128
    ensures { result ≡ last_number numbers.now }
{
    match numbers.last() {
        Some(Segment::Number(number)) => *number,
        Some(Segment::Word(_)) => 0,
        None => 0,
    }
}

// The segments, and one number behind them.
fn with_last(alloc: Global, segments: &[Segment], number: u128) -> Result<Segments, NoMemory>
    ensures { IfOk result (λ list. list ≡ segments.now ++ Number number ∷ []) }
{
    let mut list = Segments::with_room(alloc, segments.len() + 1)?;
    for segment in segments {
        list.push(copy_ident(alloc, segment)?)?;
    }
    list.push(Segment::Number(number))?;
    Ok(list)
}
