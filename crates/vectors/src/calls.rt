// The calls on a sheet of marks, under tickets, and the report.
use crate::entries::{X, Y};
use book::{Book, Step};
use graphs::Found;
use history::{Ending, Entry};
use items::{Axis, Mark};
use refusals::Refusal;
use report::{LONGEST, cue_report};
use serial::Pair;
use std::test::Fail;

// Cue 7 reads what cue 64 wrote and has not committed; letters of either case are the same.
#[test]
fn a_sheet_of_marks(rt: HostRuntime) {
    let mut memory = [Entry::<Mark>::FREE; 8];
    let mut book = Book::new(&mut memory);
    let sheet = b"  64 w     Trap\n   7 r     tRAP\n  64 c         \n   7 c         \n";
    assert_eq!(rt; book.read_in(sheet), Ok(4));
    assert_eq!(rt; (book.class().number(), book.class().place()), (1, 2));
    let mut list = [0u32; 3];
    let mut strip = [9u8; 66];
    let found = book.order(&mut list, &mut strip);
    assert!(rt; matches!(found, Ok(Found::Order(2))));
    assert_eq!(rt; (list, strip[63], strip[64]), ([64, 7, 0], 0, 9));
    list = [0u32; 3];
    assert_eq!(rt; book.views(&mut list), Ok(Some(2)));
    assert_eq!(rt; list, [64, 7, 0]);
    assert_eq!(rt;
        book.why(64, 7),
        Ok(Some(Pair {
            first: 1,
            second: 2
        }))
    );
    assert_eq!(rt; book.why(7, 64), Ok(None));
}

// Tickets that are ended by a commit and by an abort, and one that comes back from a full book.
#[test]
fn tickets(rt: HostRuntime) -> Result<(), Fail> {
    let mut memory = [Entry::<Axis>::FREE; 5];
    let mut book = Book::new(&mut memory);
    let first = book.begin(1)?;
    let second = book.begin(2)?;
    assert_eq!(rt; book.record(&first, Step::Write(X)), Ok(1));
    assert_eq!(rt; book.record(&second, Step::Read(Y)), Ok(2));
    let ended = book.end(first, Ending::Commit);
    assert!(rt; matches!(ended, Ok(receipt) if receipt.place == 3));
    assert_eq!(rt; book.record(&second, Step::Write(Y)), Ok(4));
    let ended = book.end(second, Ending::Abort);
    assert!(rt; matches!(ended, Ok(receipt) if receipt.ending == Ending::Abort));
    let third = book.begin(3)?;
    let ended = book.end(third, Ending::Commit);
    assert!(rt; matches!(ended, Err((back, Refusal::BookFull)) if back.cue() == 3));
    Ok(())
}

// The bytes of the report, and that the space behind them stays.
#[test]
fn a_report(rt: HostRuntime) {
    let mut space = [7u8; LONGEST];
    let sheet = b"   1 w        5\n   2 r        5\n   1 c         \n   2 c         \n";
    assert_eq!(rt; cue_report(sheet, &mut space), Ok(48));
    let lines = b"class    1    2\norder    1    2\nviews    1    2\n";
    assert_eq!(rt; space.get(..48), Some(lines.as_slice()));
    assert_eq!(rt; space.get(48), Some(&7));
}
