ghost use Rattle.std.specs.Prelude.{◌≡◌, ◌++◌, ◌∷◌, [], OnOk, OnErr, codes, map, take};
ghost use Rattle.std.specs.List.{join_with_byte};
ghost use Rattle.vx_spec.specs.Numerals.{numeral_text};
ghost use Rattle.vx_text.specs.Begun.{IsBegunBy};
ghost use Rattle.vx_spec.specs.Signs.{dot};
ghost use Rattle.pep440_scheme.specs.Writing.{ends_text, epoch_text, ident_text, kind_text, locals_text, pre_text, release_text, suffixes_text, word_text};
ghost use Rattle.pep440_scheme.specs.Steps.Begun.{dot_before, sign_before};

use crate::version::{Pep440Version, PreKind, PrePart};
use vx_scheme::{Ident, NoMemory, Text};
use vx_text::Pushes;

impl Pushes for Pep440Version {
    ghost use Rattle.pep440_scheme.specs.Writing.{normal};

    ghost text = { normal };

    /// Appends the normal text.
    fn push(&self, out: &mut Text) -> Result<(), NoMemory> {
        push_epoch(out, self.epoch)?;
        push_release(out, self.release.as_slice())?;
        push_suffixes(out, self)
    }
}

// The pre-release, the post-release, and what stands behind.
fn push_suffixes(out: &mut Text, version: &Pep440Version) -> Result<(), NoMemory>
    ensures ok { OnOk result (out.new ≡ out.old ++ suffixes_text version.now) }
    ensures begun { IsBegunBy out.old out.new }
{
    push_pre(out, version.pre)?;
    push_word(out, ".post", version.post)?;
    push_ends(out, version)
}

// The developmental release, and the label.
fn push_ends(out: &mut Text, version: &Pep440Version) -> Result<(), NoMemory>
    ensures ok { OnOk result (out.new ≡ out.old ++ ends_text version.now) }
    ensures begun { IsBegunBy out.old out.new }
{
    push_word(out, ".dev", version.dev)?;
    push_locals(out, version.local.as_slice())
}

fn push_epoch(out: &mut Text, epoch: u128) -> Result<(), NoMemory>
    ensures ok { OnOk result (out.new ≡ out.old ++ epoch_text epoch) }
    ensures begun { IsBegunBy out.old out.new }
{
    if epoch == 0 {
        return Ok(());
    }
    out.push_number(epoch)?;
    out.push_str("!")
}

fn push_release(out: &mut Text, release: &[u128]) -> Result<(), NoMemory>
    ensures ok { OnOk result (out.new ≡ out.old ++ release_text release.now) }
    ensures begun { IsBegunBy out.old out.new }
{
    for (i, number) in release.iter().enumerate() {
        push_dot(out, i)?;
        out.push_number(*number)?;
    }
    Ok(())
}

// What stands before the number at a place.
fn push_dot(out: &mut Text, i: usize) -> Result<(), NoMemory>
    ensures ok { OnOk result (out.new ≡ out.old ++ dot_before i) }
    ensures err { OnErr result (out.new ≡ out.old) }
{
    if i == 0 {
        return Ok(());
    }
    out.push_str(".")
}

fn push_pre(out: &mut Text, pre: Option<PrePart>) -> Result<(), NoMemory>
    ensures ok { OnOk result (out.new ≡ out.old ++ pre_text pre) }
    ensures begun { IsBegunBy out.old out.new }
{
    match pre {
        Some(pre) => {
            out.push_str(kind_text(pre.kind))?;
            out.push_number(pre.number)
        }
        None => Ok(()),
    }
}

fn kind_text(kind: PreKind) -> &'static str
    ensures { result.now ≡ kind_text kind }
{
    match kind {
        PreKind::A => "a",
        PreKind::B => "b",
        PreKind::Rc => "rc",
    }
}

fn push_word(out: &mut Text, word: &str, number: Option<u128>) -> Result<(), NoMemory>
    ensures ok { OnOk result (out.new ≡ out.old ++ word_text word.now number) }
    ensures begun { IsBegunBy out.old out.new }
{
    match number {
        Some(number) => {
            out.push_str(word)?;
            out.push_number(number)
        }
        None => Ok(()),
    }
}

fn push_locals(out: &mut Text, locals: &[Ident]) -> Result<(), NoMemory>
    ensures ok { OnOk result (out.new ≡ out.old ++ locals_text locals.now) }
    ensures begun { IsBegunBy out.old out.new }
{
    for (i, ident) in locals.iter().enumerate() {
        push_sign(out, i)?;
        push_ident(out, ident)?;
    }
    Ok(())
}

// What stands before the part of a label at a place.
fn push_sign(out: &mut Text, i: usize) -> Result<(), NoMemory>
    ensures ok { OnOk result (out.new ≡ out.old ++ sign_before i ∷ []) }
    ensures err { OnErr result (out.new ≡ out.old) }
{
    if i == 0 {
        out.push_str("+")
    } else {
        out.push_str(".")
    }
}

fn push_ident(out: &mut Text, ident: &Ident) -> Result<(), NoMemory>
    ensures ok { OnOk result (out.new ≡ out.old ++ ident_text ident.now) }
    ensures err { OnErr result (out.new ≡ out.old) }
{
    match ident {
        Ident::Number(number) => out.push_number(*number),
        Ident::Word(word) => out.push_str(word.as_str()),
    }
}
