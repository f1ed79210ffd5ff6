ghost use Rattle.std.specs.Prelude.{◌≡◌, ◌<◌, ◌≤◌, ◌+◌, ◌++◌, IfOk, OnOk};
ghost use Rattle.vx_batch.specs.Drill.{drill_text, npm_line, pypi_line, maven_line, gem_line, deb_line, rpm_line, nuget_line, purl_line, three, two};

use std::alloc::Global;
use vx_scheme::{NoMemory, Text};

/// The most lines that a drill has.
pub const MOST_LINES: u64 = 1_000_000;

// Room for a line.
const MOST_OF_A_LINE: usize = 80;

/// The line of a number, which lies from 1 to 1,000,000: each command in turn, over numbers that the line's makes.
pub fn drill_line(alloc: Global, i: u64) -> Result<Text, NoMemory>
    requires some { 0 < i }
    requires most { i ≤ MOST_LINES }
    ensures { IfOk result (λ text. text ≡ drill_text i) }
{
    let a = u128::from(i % 7) + 1;
    let b = u128::from(i % 11);
    let c = u128::from(i % 13);
    match i % 8 {
        0 => npm_line(alloc, a, b, c),
        1 => pypi_line(alloc, a, b, c),
        2 => maven_line(alloc, a, b, c),
        3 => gem_line(alloc, a, b, c),
        4 => deb_line(alloc, a, b, c),
        5 => rpm_line(alloc, a, b),
        6 => nuget_line(alloc, a, b, c),
        _ => purl_line(alloc, a, b, c),
    }
}

fn npm_line(alloc: Global, a: u128, b: u128, c: u128) -> Result<Text, NoMemory>
    ensures { IfOk result (λ text. text ≡ npm_line a b c) }
{
    let mut text = line_of(alloc, "to-vers\tnpm\tall\t^")?;
    push_three(&mut text, a, b, c)?;
    Ok(text)
}

fn pypi_line(alloc: Global, a: u128, b: u128, c: u128) -> Result<Text, NoMemory>
    ensures { IfOk result (λ text. text ≡ pypi_line a b c) }
{
    let mut text = line_of(alloc, "to-vers\tpypi\tall\t==")?;
    push_two(&mut text, a, b)?;
    text.push_str(".*,!=")?;
    push_three(&mut text, a, b, c)?;
    Ok(text)
}

fn maven_line(alloc: Global, a: u128, b: u128, c: u128) -> Result<Text, NoMemory>
    ensures { IfOk result (λ text. text ≡ maven_line a b c) }
{
    let mut text = line_of(alloc, "to-vers\tmaven\tall\t[")?;
    push_two(&mut text, a, b)?;
    text.push_str(",")?;
    push_three(&mut text, a, b, c)?;
    text.push_str("]")?;
    Ok(text)
}

fn gem_line(alloc: Global, a: u128, b: u128, c: u128) -> Result<Text, NoMemory>
    ensures { IfOk result (λ text. text ≡ gem_line a b c) }
{
    let mut text = line_of(alloc, "to-vers\tgem\treleases\t~> ")?;
    push_three(&mut text, a, b, c)?;
    Ok(text)
}

fn deb_line(alloc: Global, a: u128, b: u128, c: u128) -> Result<Text, NoMemory>
    requires { a ≤ 7 }
    ensures { IfOk result (λ text. text ≡ deb_line a b c) }
{
    let mut text = line_of(alloc, "to-vers\tdeb\tall\t>= ")?;
    push_two(&mut text, a, b)?;
    text.push_str("-")?;
    text.push_number(c)?;
    text.push_str(", << ")?;
    push_two(&mut text, a + 1, b)?;
    Ok(text)
}

fn rpm_line(alloc: Global, a: u128, b: u128) -> Result<Text, NoMemory>
    ensures { IfOk result (λ text. text ≡ rpm_line a b) }
{
    let mut text = line_of(alloc, "to-vers\trpm\tall\t>= ")?;
    push_two(&mut text, a, b)?;
    text.push_str("-1")?;
    Ok(text)
}

fn nuget_line(alloc: Global, a: u128, b: u128, c: u128) -> Result<Text, NoMemory>
    requires a { a ≤ 7 }
    requires c { c ≤ 12 }
    ensures { IfOk result (λ text. text ≡ nuget_line a b c) }
{
    let mut text = line_of(alloc, "canon\tvers:nuget/<")?;
    text.push_number(a + 1)?;
    text.push_str(".0|>=")?;
    push_three(&mut text, a, b, c + 1)?;
    text.push_str("|>=")?;
    push_two(&mut text, a, b)?;
    Ok(text)
}

fn purl_line(alloc: Global, a: u128, b: u128, c: u128) -> Result<Text, NoMemory>
    ensures { IfOk result (λ text. text ≡ purl_line a b c) }
{
    let mut text = line_of(alloc, "purl\tpkg:PyPI/Name_")?;
    push_two(&mut text, a, b)?;
    text.push_str("@")?;
    text.push_number(c)?;
    text.push_str("?z=")?;
    text.push_number(b)?;
    text.push_str("&y=")?;
    text.push_number(a)?;
    Ok(text)
}

// The beginning of a line, with room for the whole.
fn line_of(alloc: Global, front: &str) -> Result<Text, NoMemory>
    ensures { IfOk result (λ text. text ≡ front.now) }
{
    let mut text = Text::with_room(alloc, MOST_OF_A_LINE)?;
    text.push_str(front)?;
    Ok(text)
}

// Appends two numbers with a dot between them.
fn push_two(text: &mut Text, a: u128, b: u128) -> Result<(), NoMemory>
    ensures { OnOk result (text.new ≡ text.old ++ two a b) }
{
    text.push_number(a)?;
    text.push_str(".")?;
    text.push_number(b)
}

// Appends three.
fn push_three(text: &mut Text, a: u128, b: u128, c: u128) -> Result<(), NoMemory>
    ensures { OnOk result (text.new ≡ text.old ++ three a b c) }
{
    push_two(text, a, b)?;
    text.push_str(".")?;
    text.push_number(c)
}
