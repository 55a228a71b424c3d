// Each refusal once, by its number.
use crate::entries::{X, book_of};
use book::Book;
use graphs::{Wait, wait_order};
use history::{Act, Entry};
use items::{Axis, Mark};
use lines::write_line;
use refusals::Refusal;
use report::{LONGEST, cue_report};

// The number of the refusal, or 0 where there is none.
fn number_in<T: Drop>(answer: Result<T, Refusal>) -> u32 {
    match answer {
        Ok(_) => 0,
        Err(refusal) => refusal.number(),
    }
}

fn commit(cue: u32) -> Entry<Axis> {
    Entry {
        cue,
        act: Act::Commit,
    }
}

fn write(cue: u32) -> Entry<Axis> {
    Entry {
        cue,
        act: Act::Write(X),
    }
}

// The second or third line of each sheet is refused, by the line format or by the book, and the
// lines before it stay.
#[test]
fn lines_are_refused(rt: HostRuntime) {
    let cases: [(&[u8], usize, u32); 7] = [
        (b"   1 w     trap\n   2 w     trap", 2, 1),
        (b"   1 w     trap\n  02 w     trap\n", 2, 2),
        (b"   1 w     trap\n   2 x     trap\n", 2, 3),
        (b"   1 w     trap\n   2 w    tra p\n", 2, 4),
        (b"   1 w     trap\n  65 w     trap\n", 2, 11),
        (b"   1 c         \n   1 w     trap\n", 2, 12),
        (
            b"   1 w     trap\n   2 w     trap\n   3 c         \n",
            3,
            13,
        ),
    ];
    for (sheet, line, number) in cases {
        let mut memory = [Entry::<Mark>::FREE; 2];
        let mut book = Book::new(&mut memory);
        let fault = book
            .read_in(sheet)
            .map_err(|fault| (fault.line, fault.layer.number()));
        assert_eq!(rt; fault, Err((line, number)));
        assert_eq!(rt; book.entries().len() + 1, line);
    }
}

#[test]
fn entries_are_refused(rt: HostRuntime) {
    let mut memory = [Entry::<Axis>::FREE; 2];
    let mut book = book_of(&mut memory, &[(1, Act::Commit)]);
    assert_eq!(rt; number_in(book.enter(write(65))), 11);
    assert_eq!(rt; number_in(book.enter(write(1))), 12);
    assert_eq!(rt; number_in(book.begin(0)), 11);
    assert_eq!(rt; number_in(book.begin(1)), 14);
    assert_eq!(rt; number_in(book.enter(write(2))), 0);
    assert_eq!(rt; number_in(book.enter(write(2))), 13);
    assert_eq!(rt; book.entries().len(), 2);
}

#[test]
fn questions_are_refused(rt: HostRuntime) {
    let mut memory = [Entry::<Axis>::FREE; 9];
    let mut book = book_of(&mut memory, &[]);
    for cue in 1u32..9 {
        assert_eq!(rt; number_in(book.enter(commit(cue))), 0);
    }
    let mut few = [0u32; 7];
    let mut list = [0u32; 9];
    assert_eq!(rt; number_in(book.order(&mut few, &mut [0u8; 63])), 22);
    assert_eq!(rt; number_in(book.order(&mut few, &mut [0u8; 64])), 21);
    assert_eq!(rt; number_in(book.views(&mut few)), 21);
    assert_eq!(rt; number_in(book.enter(commit(9))), 0);
    assert_eq!(rt; number_in(book.views(&mut list)), 23);
    for (i, j) in [(0u32, 1u32), (1, 65), (3, 3)] {
        assert_eq!(rt; number_in(book.why(i, j)), 24);
    }
    assert_eq!(rt; (few, list), ([0; 7], [0; 9]));
}

// What no book is asked: the report, a written line, the wait list.
#[test]
fn the_rest_is_refused(rt: HostRuntime) {
    let mut space = [0u8; LONGEST];
    assert_eq!(rt; number_in(cue_report(b"", &mut space[..387])), 25);
    assert_eq!(rt; number_in(write_line(&commit(1), &mut space[..15])), 26);
    assert_eq!(rt; space, [0; LONGEST]);
    let mut list = [0u32; 64];
    let rows = [Wait {
        winch: 64,
        awaited: 65,
    }];
    assert_eq!(rt; number_in(wait_order(&rows, &mut list, &mut space)), 31);
}
