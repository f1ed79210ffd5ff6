ghost use Rattle.std.specs.Prelude.{◌≡◌, ◌≢◌, ◌<◌, ◌+◌, ◌^◌, ℕ, List, [], true, length, Err, IfOk, IfErr, IsTrue, OnOk};
ghost use Rattle.std.specs.List.{list_all};
ghost use Rattle.vx_spec.specs.Runs.{is_solid};
ghost use Rattle.vx_text.specs.Escapes.{unescaped};
ghost use Rattle.vx_vers.specs.declared.constraints.Constraint.{Constraint};
ghost use Rattle.vx_vers.specs.declared.fault.VersFault.{VersFault};
ghost use Rattle.vx_vers.specs.declared.fault.VersFault.TheVariants as fault_of;
ghost use Rattle.vx_vers.specs.Again.{IsSameList};
ghost use Rattle.vx_vers.specs.Grammar.{EachWithin, HasForm, NoStar, SpellsList};
ghost use Rattle.vx_vers.specs.Steps.Reading.{constraint_of_version, IsEachReadAs, IsPlainIf, IsPushed, IsReadNext, IsSolidReadAs, IsWrittenReadAs, Refused, RefusesNext, written_in};
ghost use Rattle.vx_vers.specs.Refusals.{Refuses};

use crate::constraints::{Comparator, Constraint, Constraints};
use crate::fault::VersFault;
use crate::naming::cut_head;
use crate::parting::{
    count_bars, count_parts, cut_sign, has_star, is_plain, is_solid, without_blanks,
};
use crate::sorting::settle;
use crate::writing::write;
use std::alloc::Global;
use vx_scheme::{List, Scheme, Text, VersionFault};
use vx_text::{EscapeFault, cut, is_left, unescape};

/// Reads a VERS text of the scheme. Blanks are left out first, the head and the scheme's name may have any case, and
/// empty parts beside `|` are skipped. `*` alone is the empty list, which stands for every version. Each refusal comes
/// exactly where `Refuses` says so: `Head` first, then `StarNotAlone`, then the first constraint with a fault, then
/// `Duplicate`.
pub fn read<S: Scheme>(alloc: Global, text: &str) -> Result<Constraints<S>, VersFault>
    ensures ok { IfOk result (λ list. SpellsList S.name S.order S.Spells text.now list × EachWithin S.IsWithin list) }
    ensures err { IfErr result (λ fault. fault ≢ fault_of.NoMemory → Refuses S.name S.order S.Spells S.IsWithin text.now fault) }
{
    if is_plain(text) {
        return read_solid::<S>(alloc, true, text);
    }
    if is_solid(text) {
        return read_solid::<S>(alloc, false, text);
    }
    match without_blanks(alloc, text) {
        Ok(out) => read_solid::<S>(alloc, false, out.as_str()),
        Err(_) => Err(VersFault::NoMemory),
    }
}

/// Reads a text without blanks. Where it is known to be `plain`, no `*` or `%` is looked for.
fn read_solid<S: Scheme>(
    alloc: Global,
    plain: bool,
    text: &str,
) -> Result<Constraints<S>, VersFault>
    requires solid { list_all is_solid text.now ≡ true }
    requires plain { IsPlainIf plain text.now }
    ensures { IsSolidReadAs S.name S.order S.Spells S.IsWithin text.now result }
{
    let Some((name, behind)) = cut_head(text) else {
        return Err(VersFault::Head);
    };
    if name != S::scheme() {
        return Err(VersFault::Head);
    }
    read_written::<S>(alloc, plain, behind)
}

/// Reads the written constraints, which stand between bars.
fn read_written<S: Scheme>(
    alloc: Global,
    plain: bool,
    text: &str,
) -> Result<Constraints<S>, VersFault>
    requires { IsPlainIf plain text.now }
    ensures { IsWrittenReadAs S.order S.Spells S.IsWithin (written_in text.now) result }
{
    if plain {
        return read_constraints::<S>(alloc, true, text);
    }
    if !has_star(text) {
        return read_constraints::<S>(alloc, false, text);
    }
    if count_parts(text) == 1 {
        Ok(Constraints::new(alloc))
    } else {
        Err(VersFault::StarNotAlone)
    }
}

/// Reads written constraints, none of which is `*`.
fn read_constraints<S: Scheme>(
    alloc: Global,
    plain: bool,
    text: &str,
) -> Result<Constraints<S>, VersFault>
    requires plain { IsPlainIf plain text.now }
    requires stars { NoStar (written_in text.now) }
    ensures { IsWrittenReadAs S.order S.Spells S.IsWithin (written_in text.now) result }
{
    let list = match read_each::<S>(alloc, plain, text) {
        Ok(list) => list,
        Err(fault) => return Err(fault),
    };
    if list.is_empty() {
        Err(VersFault::Constraint(1))
    } else {
        settle::<S>(list)
    }
}

/// The constraints between the bars, in the order of the text. An empty part has room that it does not need.
fn read_each<S: Scheme>(
    alloc: Global,
    plain: bool,
    text: &str,
) -> Result<List<Constraint<S::Version>>, VersFault>
    requires { IsPlainIf plain text.now }
    ensures { IsEachReadAs S.Spells S.IsWithin (written_in text.now) result }
{
    let mut list = List::with_room(alloc, count_bars(text) + 1)?;
    let mut rest = Some(text);
    'parts: while let Some(more) = rest {
        let (part, behind) = cut(more, '|');
        push_next::<S>(alloc, plain, &mut list, part)?;
        rest = behind;
    }
    Ok(list)
}

/// Reads one text more, unless it is empty, and appends its constraint.
fn push_next<S: Scheme>(
    alloc: Global,
    plain: bool,
    list: &mut List<Constraint<S::Version>>,
    part: &str,
) -> Result<(), VersFault>
    requires plain { IsPlainIf plain part.now }
    requires room { length list.old + 1 < 2 ^ 64 }
    ensures ok { OnOk result (IsReadNext S.Spells S.IsWithin part.now list.old list.new) }
    ensures err { IfErr result (λ fault. Refused (RefusesNext S.Spells S.IsWithin part.now list.old) fault) }
{
    if part.is_empty() {
        return Ok(());
    }
    push_part::<S>(alloc, plain, list, part)
}

/// Reads one text more, which is not empty, and appends its constraint.
fn push_part<S: Scheme>(
    alloc: Global,
    plain: bool,
    list: &mut List<Constraint<S::Version>>,
    part: &str,
) -> Result<(), VersFault>
    requires plain { IsPlainIf plain part.now }
    requires room { length list.old + 1 < 2 ^ 64 }
    requires some { part.now ≢ [] }
    ensures ok { OnOk result (IsReadNext S.Spells S.IsWithin part.now list.old list.new) }
    ensures err { IfErr result (λ fault. Refused (RefusesNext S.Spells S.IsWithin part.now list.old) fault) }
{
    let number = list.len() as u64 + 1;
    let (comparator, raw) = cut_sign(part);
    if raw.is_empty() {
        return Err(VersFault::Constraint(number));
    }
    if stands_for_itself(plain, raw) {
        return push_read(list, comparator, number, S::read(alloc, raw));
    }
    match unescape(alloc, raw) {
        Ok(text) => push_read(list, comparator, number, S::read(alloc, text.as_str())),
        Err(EscapeFault::BadEscape(_)) => Err(VersFault::Constraint(number)),
        Err(EscapeFault::NotText) => Err(VersFault::Constraint(number)),
        Err(EscapeFault::NoMemory) => Err(VersFault::NoMemory),
    }
}

/// Whether the text is known to have no escape.
fn stands_for_itself(plain: bool, raw: &str) -> bool
    requires { IsPlainIf plain raw.now }
    ensures { IsTrue result → raw.now ≢ [] → HasForm raw.now × (unescaped raw.now ≡ raw.now) }
{
    if plain { true } else { is_left(raw.as_bytes()) }
}

/// Appends the constraint of a version that was read, or answers the fault of the constraint with this number.
fn push_read<V: Drop>(
    list: &mut List<Constraint<V>>,
    comparator: Comparator,
    number: u64,
    version: Result<V, VersionFault>,
) -> Result<(), VersFault>
    ensures ok { OnOk result (IsPushed (constraint_of_version comparator number version) list.old list.new) }
    ensures err { IfErr result (λ fault. Refused (λ f. constraint_of_version comparator number version ≡ Err f) fault) }
{
    match version {
        Ok(version) => {
            list.push(Constraint {
                comparator,
                version,
            })?;
            Ok(())
        }
        Err(VersionFault::NotAVersion) => Err(VersFault::Version(number)),
        Err(VersionFault::Numeral) => Err(VersFault::Numeral(number)),
        Err(VersionFault::NoMemory) => Err(VersFault::NoMemory),
    }
}

/// Prints the list and reads the text again, which gives a list with the same comparators and order-equal versions.
pub fn read_again<S: Scheme>(
    alloc: Global,
    list: &Constraints<S>,
) -> Result<Constraints<S>, VersFault>
    ensures ok { IfOk result (λ again. IsSameList S.order again list.now) }
    ensures err { IfErr result (λ fault. fault ≡ fault_of.NoMemory) }
{
    let mut text = Text::new(alloc);
    match write::<S>(list, &mut text) {
        Ok(()) => read::<S>(alloc, text.as_str()),
        Err(_) => Err(VersFault::NoMemory),
    }
}

/// The law that a text spells one list at most.
pub fn one_list<S: Scheme>()
    ensures { (text : List ℕ) (a b : List (Constraint S.Version)) → SpellsList S.name S.order S.Spells text a → SpellsList S.name S.order S.Spells text b → a ≡ b }
{}

/// The law that a text which is refused spells no list within the limits.
pub fn refused_is_unspelled<S: Scheme>()
    ensures { (text : List ℕ) (fault : VersFault) (list : List (Constraint S.Version)) → Refuses S.name S.order S.Spells S.IsWithin text fault → SpellsList S.name S.order S.Spells text list → ¬ (EachWithin S.IsWithin list) }
{}

/// The law that a text is refused in one way at most.
pub fn one_refusal<S: Scheme>()
    ensures { (text : List ℕ) (a b : VersFault) → Refuses S.name S.order S.Spells S.IsWithin text a → Refuses S.name S.order S.Spells S.IsWithin text b → a ≡ b }
{}
