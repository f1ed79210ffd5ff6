use crate::{
    EmptyPlace, IdentRule, Letter, Letters, NumberPlace, WordOrder, compare_idents,
    compare_letters, compare_places, copy_letters,
};
use std::alloc::Global;
use std::cmp::Ordering;
use std::test::Fail;
use vx_scheme::{Ident, Idents, NoMemory, Text};

// Letters written as words: the rank, a '.' and the number, a ':' and the text; what is left out is 0 or empty.
fn letters(alloc: Global, words: &str) -> Result<Letters, NoMemory> {
    let mut letters = Letters::new(alloc);
    for word in words.split_ascii_whitespace() {
        let (key, behind) = word.split_once(':').unwrap_or((word, ""));
        let (rank, number) = key.split_once('.').unwrap_or((key, "0"));
        letters.push(Letter {
            rank: rank.parse::<u32>().unwrap_or(0),
            number: number.parse::<u128>().unwrap_or(0),
            text: Text::copy_of(alloc, behind)?,
        })?;
    }
    Ok(letters)
}

#[test]
fn compares_letters(rt: HostRuntime) -> Result<(), Fail> {
    let low = letters(rt.alloc(), "3 5 5 4.2:y 4.10")?;
    let high = copy_letters(rt.alloc(), &letters(rt.alloc(), "3 5.0 5 4.2:z 3")?)?;
    assert_eq!(rt; compare_letters(&low, &high, 5), Ordering::Less);
    Ok(())
}

// Identifiers parted by blanks; digits alone are a number.
fn idents(alloc: Global, words: &str) -> Result<Idents, NoMemory> {
    let mut idents = Idents::new(alloc);
    for word in words.split_ascii_whitespace() {
        idents.push(match word.parse::<u128>() {
            Ok(number) => Ident::Number(number),
            Err(_) => Ident::Word(Text::copy_of(alloc, word)?),
        })?;
    }
    Ok(idents)
}

#[test]
fn compares_identifiers(rt: HostRuntime) -> Result<(), Fail> {
    let rule = IdentRule {
        numbers: NumberPlace::AboveWords,
        words: WordOrder::Folded,
        empty: EmptyPlace::Lowest,
    };
    let low = idents(rt.alloc(), "10 aB")?;
    let high = idents(rt.alloc(), "10 Ab 2")?;
    let order = compare_idents(low.as_slice(), high.as_slice(), rule);
    assert_eq!(rt; order, Ordering::Less);
    Ok(())
}

// A row of two parts, which is continued by 0.
fn part_at(front: &[u8], rest: &[u8], i: usize) -> u8 {
    let behind = i.checked_sub(front.len()).and_then(|at| rest.get(at));
    front.get(i).or(behind).copied().unwrap_or(0)
}

#[test]
fn compares_rows_of_two_parts(rt: HostRuntime) {
    let order = compare_places(4, |i| {
        part_at(&[1, 2, 3, 0], &[9], i).cmp(&part_at(&[1, 2], &[3], i))
    });
    assert_eq!(rt; order, Ordering::Equal);
}
