use crate::{
    Piece, group_list, pieces_at, push_above, push_below, push_between, push_every, push_from,
    push_up_to,
};
use vx_scheme::{Cut, Span, Spans};

// The place and the bytes of a piece.
fn is_piece(piece: &Piece<()>, at: usize, bytes: &[u8]) -> bool {
    piece.at == at && piece.bytes == bytes
}

#[test]
fn pieces_of_a_list(rt: HostRuntime) -> Result<(), std::test::Fail> {
    let found = pieces_at(rt.alloc(), b" a| |b", 10, b'|')?;
    assert_eq!(rt; found.len(), 3);
    assert!(rt; is_piece(found.get(2), 15, b"b"));
    Ok(())
}

#[test]
fn groups_of_a_list(rt: HostRuntime) -> Result<(), std::test::Fail> {
    let found = group_list(rt.alloc(), b"a|b, ,c", Some(b'|'))?;
    assert_eq!(rt; found.len(), 2);
    let last = found.get(1);
    assert_eq!(rt; last.len(), 1);
    assert!(rt; is_piece(last.get(0), 6, b"c"));
    Ok(())
}

// A side's version, whether the cut stands after it, and its mark.
fn side(cut: &Option<Cut<u64>>) -> Option<(u64, bool, u64)> {
    let Some(cut) = cut else {
        return None;
    };
    Some((cut.version, cut.after, cut.mark))
}

fn sides(span: &Span<u64>) -> (Option<(u64, bool, u64)>, Option<(u64, bool, u64)>) {
    (side(&span.lower), side(&span.upper))
}

#[test]
fn spans_with_marks_that_run_on(rt: HostRuntime) -> Result<(), std::test::Fail> {
    let mut marks = 0;
    let mut spans = Spans::new(rt.alloc());
    push_every(&mut spans)?;
    push_from(&mut marks, 3, &mut spans)?;
    push_above(&mut marks, 4, &mut spans)?;
    push_below(&mut marks, 5, &mut spans)?;
    push_up_to(&mut marks, 6, &mut spans)?;
    push_between(&mut marks, 7, 9, &mut spans)?;
    let found = spans.into_vec();
    assert_eq!(rt; found.len(), 6);
    let wanted = (Some((7, false, 4)), Some((9, false, 5)));
    assert_eq!(rt; sides(&found[5]), wanted);
    Ok(())
}
