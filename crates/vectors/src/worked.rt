// Histories that others have worked out, with the answers that they give.
use crate::entries::{Turn, U, X, Y, Z, book_of};
use book::Book;
use graphs::Found;
use history::Act::{Abort, Commit, Read, Write};
use history::Entry;
use items::Axis;
use refusals::Refusal;

// Whether an order is shown, and the cells with it or the cycle. They were 0 before.
fn order_in(book: &Book<'_, Axis>) -> (bool, [u32; 4]) {
    let mut list = [0u32; 4];
    let mut strip = [0u8; 64];
    let found = book.order(&mut list, &mut strip);
    (matches!(found, Ok(Found::Order(_))), list)
}

// How many cues the view-equivalent order has, if there is one, and the cells with it.
fn views_in(book: &Book<'_, Axis>) -> (Result<Option<usize>, Refusal>, [u32; 4]) {
    let mut list = [0u32; 4];
    let found = book.views(&mut list);
    (found, list)
}

// Two cues conflict in three ways, and never by reads alone or over different items.
#[test]
fn conflicts(rt: HostRuntime) {
    let cases = [
        ((1, Read(X)), (2, Write(X)), true),
        ((1, Write(X)), (2, Read(X)), true),
        ((1, Write(X)), (2, Write(X)), true),
        ((1, Read(X)), (2, Read(X)), false),
        ((1, Write(X)), (2, Read(Y)), false),
        ((1, Write(X)), (2, Write(Y)), false),
    ];
    for (first, second, conflict) in cases {
        let mut memory = [Entry::FREE; 2];
        let book = book_of(&mut memory, &[first, second]);
        assert!(rt; matches!(book.why(1, 2), Ok(pair) if pair.is_some() == conflict));
        assert!(rt; matches!(book.why(2, 1), Ok(None)));
    }
}

// One after the other, the first two with their steps crossed, and a lost update.
const SECOND_FIRST: [Turn; 8] = [
    (2, Read(X)),
    (2, Write(X)),
    (2, Commit),
    (1, Read(X)),
    (1, Write(X)),
    (1, Read(Y)),
    (1, Write(Y)),
    (1, Commit),
];

const CROSSED: [Turn; 8] = [
    (1, Read(X)),
    (1, Write(X)),
    (2, Read(X)),
    (2, Write(X)),
    (2, Commit),
    (1, Read(Y)),
    (1, Write(Y)),
    (1, Commit),
];

const LOST_UPDATE: [Turn; 8] = [
    (1, Read(X)),
    (2, Read(X)),
    (1, Write(X)),
    (1, Read(Y)),
    (2, Write(X)),
    (2, Commit),
    (1, Write(Y)),
    (1, Commit),
];

// Three cues that can follow one another in one order alone, and three in cycles.
const THREE_IN_ORDER: [Turn; 16] = [
    (3, Read(Y)),
    (3, Read(Z)),
    (1, Read(X)),
    (1, Write(X)),
    (3, Write(Y)),
    (3, Write(Z)),
    (3, Commit),
    (2, Read(Z)),
    (1, Read(Y)),
    (1, Write(Y)),
    (1, Commit),
    (2, Read(Y)),
    (2, Write(Y)),
    (2, Read(X)),
    (2, Write(X)),
    (2, Commit),
];

const THREE_IN_CYCLES: [Turn; 16] = [
    (2, Read(Z)),
    (2, Read(Y)),
    (2, Write(Y)),
    (3, Read(Y)),
    (3, Read(Z)),
    (1, Read(X)),
    (1, Write(X)),
    (3, Write(Y)),
    (3, Write(Z)),
    (3, Commit),
    (2, Read(X)),
    (1, Read(Y)),
    (1, Write(Y)),
    (1, Commit),
    (2, Write(X)),
    (2, Commit),
];

#[test]
fn orders(rt: HostRuntime) {
    let cases: [(&[Turn], [u32; 4]); 3] = [
        (&SECOND_FIRST, [2, 1, 0, 0]),
        (&CROSSED, [1, 2, 0, 0]),
        (&THREE_IN_ORDER, [3, 1, 2, 0]),
    ];
    for (turns, order) in cases {
        let mut memory = [Entry::FREE; 16];
        let book = book_of(&mut memory, turns);
        assert_eq!(rt; book.entries().len(), turns.len());
        assert_eq!(rt; order_in(&book), (true, order));
    }
}

// The cycles are 1 2 and, of three cues, 1 2 3. Each can be shown from any of its cues on.
#[test]
fn cycles(rt: HostRuntime) {
    let cases: [&[Turn]; 2] = [&LOST_UPDATE, &THREE_IN_CYCLES];
    for turns in cases {
        let mut memory = [Entry::FREE; 16];
        let book = book_of(&mut memory, turns);
        assert_eq!(rt; book.entries().len(), turns.len());
        let (is_order, cells) = order_in(&book);
        assert!(rt; !is_order);
        let of_two = cells == [1, 2, 0, 0] || cells == [2, 1, 0, 0];
        let of_three = cells == [1, 2, 3, 0] || cells == [2, 3, 1, 0] || cells == [3, 1, 2, 0];
        assert!(rt; of_two || of_three && turns.len() == 16, "{cells:?}");
    }
}

// Histories of which views say what order does not. In the first, cues write without reading; the
// others are told by a polygraph.
const BLIND_WRITES: [Turn; 7] = [
    (3, Read(X)),
    (4, Write(X)),
    (3, Write(X)),
    (5, Write(X)),
    (3, Commit),
    (4, Commit),
    (5, Commit),
];

const POLYGRAPH_OF_THREE: [Turn; 10] = [
    (2, Read(Y)),
    (2, Write(X)),
    (1, Read(X)),
    (3, Read(X)),
    (1, Write(Y)),
    (2, Write(Y)),
    (3, Write(Y)),
    (1, Commit),
    (2, Commit),
    (3, Commit),
];

const POLYGRAPH_OF_FOUR: [Turn; 16] = [
    (2, Read(X)),
    (1, Read(X)),
    (1, Write(Z)),
    (3, Read(Z)),
    (1, Write(Y)),
    (4, Read(Y)),
    (3, Write(X)),
    (4, Read(Z)),
    (2, Write(U)),
    (2, Read(Y)),
    (4, Write(X)),
    (4, Write(Y)),
    (1, Commit),
    (2, Commit),
    (3, Commit),
    (4, Commit),
];

#[test]
fn views(rt: HostRuntime) {
    let cases: [(&[Turn], bool, Option<usize>, [u32; 4]); 5] = [
        (&BLIND_WRITES, false, Some(3), [3, 4, 5, 0]),
        (&POLYGRAPH_OF_THREE, false, Some(3), [2, 1, 3, 0]),
        (&POLYGRAPH_OF_FOUR, true, Some(4), [1, 2, 3, 4]),
        (&THREE_IN_ORDER, true, Some(3), [3, 1, 2, 0]),
        (&LOST_UPDATE, false, None, [0; 4]),
    ];
    for (turns, has_order, count, order) in cases {
        let mut memory = [Entry::FREE; 16];
        let book = book_of(&mut memory, turns);
        assert_eq!(rt; book.entries().len(), turns.len());
        assert_eq!(rt; order_in(&book).0, has_order);
        assert_eq!(rt; views_in(&book), (Ok(count), order));
    }
}

// Four interleavings of w1(x) w1(y) w1(z) c1 and r2(u) w2(x) r2(y) w2(y) c2.
const NOT_RECOVERABLE: [Turn; 9] = [
    (1, Write(X)),
    (1, Write(Y)),
    (2, Read(U)),
    (2, Write(X)),
    (2, Read(Y)),
    (2, Write(Y)),
    (2, Commit),
    (1, Write(Z)),
    (1, Commit),
];

const NOT_CASCADELESS: [Turn; 9] = [
    (1, Write(X)),
    (1, Write(Y)),
    (2, Read(U)),
    (2, Write(X)),
    (2, Read(Y)),
    (2, Write(Y)),
    (1, Write(Z)),
    (1, Commit),
    (2, Commit),
];

const NOT_STRICT: [Turn; 9] = [
    (1, Write(X)),
    (1, Write(Y)),
    (2, Read(U)),
    (2, Write(X)),
    (1, Write(Z)),
    (1, Commit),
    (2, Read(Y)),
    (2, Write(Y)),
    (2, Commit),
];

const STRICT: [Turn; 9] = [
    (1, Write(X)),
    (1, Write(Y)),
    (2, Read(U)),
    (1, Write(Z)),
    (1, Commit),
    (2, Write(X)),
    (2, Read(Y)),
    (2, Write(Y)),
    (2, Commit),
];

// A reader commits before the writer, which a crash cuts off, or which aborts; and a dirty read.
const CRASH: [Turn; 9] = [
    (1, Read(X)),
    (1, Write(X)),
    (1, Read(Y)),
    (2, Read(X)),
    (1, Write(Y)),
    (2, Read(Y)),
    (2, Commit),
    (1, Read(Z)),
    (1, Write(Z)),
];

const WRITER_ABORTS: [Turn; 7] = [
    (1, Read(X)),
    (1, Write(X)),
    (2, Read(X)),
    (1, Read(Y)),
    (2, Write(X)),
    (2, Commit),
    (1, Abort),
];

const DIRTY_READ: [Turn; 5] = [
    (1, Read(X)),
    (1, Write(X)),
    (2, Read(X)),
    (2, Write(X)),
    (1, Abort),
];

#[test]
fn classes(rt: HostRuntime) {
    let cases: [(&[Turn], u32, usize); 7] = [
        (&NOT_RECOVERABLE, 0, 7),
        (&NOT_CASCADELESS, 1, 5),
        (&NOT_STRICT, 2, 4),
        (&STRICT, 3, 0),
        (&CRASH, 0, 7),
        (&WRITER_ABORTS, 0, 6),
        (&DIRTY_READ, 1, 3),
    ];
    for (turns, number, place) in cases {
        let mut memory = [Entry::FREE; 9];
        let book = book_of(&mut memory, turns);
        assert_eq!(rt; book.entries().len(), turns.len());
        assert_eq!(rt;
            (book.class().number(), book.class().place()),
            (number, place)
        );
    }
}
