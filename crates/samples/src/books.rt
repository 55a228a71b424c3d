// The books.
use crate::Sample;

// Books of axes.
pub const AXES: [Sample<'static>; 49] = [
    Sample {
        shows: "empty",
        book: "",
    },
    Sample {
        shows: "a reader commits first",
        book: "w1(5) r2(5) c2 c1",
    },
    Sample {
        shows: "a read of what is not committed",
        book: "w1(5) r2(5) c1 c2",
    },
    Sample {
        shows: "a write over what is not committed",
        book: "w1(5) w2(5) c1 c2",
    },
    Sample {
        shows: "a read after the commit",
        book: "w1(5) c1 r2(5) c2",
    },
    Sample {
        shows: "a read after the abort",
        book: "w1(5) a1 r2(5) c2",
    },
    Sample {
        shows: "blind writes that a third cue covers",
        book: "w1(9) w2(9) w2(4) c2 w1(4) c1 w3(9) w3(4) c3",
    },
    Sample {
        shows: "blind writes that none covers",
        book: "w1(9) w2(9) w2(4) c2 w1(4) c1",
    },
    Sample {
        shows: "a read of another's write over one's own",
        book: "w1(3) w2(3) r1(3) c1 c2",
    },
    Sample {
        shows: "a write after the reader",
        book: "w1(3) r2(3) w1(3) c1 c2",
    },
    Sample {
        shows: "the last write is aborted",
        book: "w1(5) w2(5) a2 r3(5) c1 c3",
    },
    Sample {
        shows: "a reader of an open cue commits",
        book: "w1(5) r2(5) c2",
    },
    Sample {
        shows: "commits against the order",
        book: "r1(5) w2(5) c2 c1",
    },
    Sample {
        shows: "a cue reads its own write",
        book: "w1(5) r1(5) w1(5) c1",
    },
    Sample {
        shows: "the writer aborts after it was read",
        book: "w1(5) r2(5) a1 c2",
    },
    Sample {
        shows: "the aborted write is read before the abort",
        book: "w1(5) w2(5) r3(5) a2 c3 c1",
    },
    // Four interleavings of w1(x) w1(y) w1(z) c1 and r2(u) w2(x) r2(y) w2(y) c2, with x, y, z, u as 1, 2, 3, 4: not recoverable,
    // recoverable, cascadeless, strict.
    Sample {
        shows: "the second commits before the first",
        book: "w1(1) w1(2) r2(4) w2(1) r2(2) w2(2) c2 w1(3) c1",
    },
    Sample {
        shows: "the second reads before the first commits",
        book: "w1(1) w1(2) r2(4) w2(1) r2(2) w2(2) w1(3) c1 c2",
    },
    Sample {
        shows: "the second writes before the first commits",
        book: "w1(1) w1(2) r2(4) w2(1) w1(3) c1 r2(2) w2(2) c2",
    },
    Sample {
        shows: "the second waits for the first",
        book: "w1(1) w1(2) r2(4) w1(3) c1 w2(1) r2(2) w2(2) c2",
    },
    // Transfers, and longer histories, with their items numbered.
    Sample {
        shows: "transfers one after the other",
        book: "r1(1) w1(1) r1(2) w1(2) c1 r2(1) w2(1) r2(2) w2(2) c2",
    },
    Sample {
        shows: "transfers side by side, in one order",
        book: "r1(1) w1(1) r2(1) w2(1) r1(2) w1(2) c1 r2(2) w2(2) c2",
    },
    Sample {
        shows: "transfers that cross",
        book: "r1(1) r2(1) w2(1) r2(2) w1(1) r1(2) w1(2) c1 w2(2) c2",
    },
    Sample {
        shows: "each begins with what the other ends with",
        book: "r1(1) w1(1) r2(2) w2(2) r1(2) w1(2) r2(1) w2(1) c1 c2",
    },
    Sample {
        shows: "a lost update",
        book: "r1(1) r2(1) w1(1) r1(2) w2(1) c2 w1(2) c1",
    },
    Sample {
        shows: "three cues, two of them in a cycle",
        book: "r2(3) r2(2) w2(2) r3(2) r3(3) r1(1) w1(1) w3(2) w3(3) c3 r2(1) r1(2) w1(2) c1 w2(1) c2",
    },
    Sample {
        shows: "three cues in an order",
        book: "r3(2) r3(3) r1(1) w1(1) w3(2) w3(3) c3 r2(3) r1(2) w1(2) c1 r2(2) w2(2) r2(1) w2(1) c2",
    },
    Sample {
        shows: "four cues in falling order",
        book: "r4(4) w3(1) r2(1) r1(1) w4(4) w3(2) r1(2) w1(1) r3(4) w3(3) r2(3) w1(2) r2(4) w2(3) c1 c2 c3 c4",
    },
    Sample {
        shows: "four cues, some in a cycle",
        book: "r1(1) r2(1) r2(3) w3(1) w3(2) r4(4) r1(2) w4(4) w1(1) r2(4) r3(4) w3(3) w2(3) w1(2) c1 c2 c3 c4",
    },
    Sample {
        shows: "three cues in a cycle",
        book: "r1(1) w2(1) r2(2) w3(2) r3(3) w1(3) c1 c2 c3",
    },
    Sample {
        shows: "a cycle with an aborted cue",
        book: "r1(1) w2(1) r2(2) w3(2) r3(3) w1(3) c1 a2 c3",
    },
    Sample {
        shows: "the smallest that can go first goes first",
        book: "r3(1) w1(1) r4(2) w2(2) c1 c2 c3 c4",
    },
    // Histories in which views can differ from order.
    Sample {
        shows: "blind writes after a read, the last of a third cue",
        book: "r3(1) w4(1) w3(1) w5(1) c3 c4 c5",
    },
    Sample {
        shows: "a polygraph with one order",
        book: "r2(2) w2(1) r1(1) r3(1) w1(2) w2(2) w3(2) c1 c2 c3",
    },
    Sample {
        shows: "a polygraph of four cues",
        book: "r2(1) r1(1) w1(3) r3(3) w1(2) r4(2) w3(1) r4(3) w2(4) r2(2) w4(1) w4(2) c1 c2 c3 c4",
    },
    Sample {
        shows: "transfers that the sums alone let change places",
        book: "r1(1) w1(1) r5(2) w5(2) r1(2) w1(2) r5(1) w5(1) c1 c5",
    },
    // What views can take for another answer.
    Sample {
        shows: "a write of the reader's own hides the source",
        book: "w1(3) w2(3) w1(3) r2(3) c1 c2",
    },
    Sample {
        shows: "a reader of the initial state comes first",
        book: "r2(3) w1(3) c1 c2",
    },
    Sample {
        shows: "none stands between a source and its reader",
        book: "w1(3) r3(3) w2(3) w4(3) c1 c2 c3 c4",
    },
    Sample {
        shows: "eight committed cues",
        book: "c8 c7 c6 c5 c4 c3 c2 w1(1) c1",
    },
    Sample {
        shows: "nine committed cues",
        book: "c9 c8 c7 c6 c5 c4 c3 c2 c1",
    },
    Sample {
        shows: "a crash before the first commits",
        book: "r1(1) w1(1) r1(2) r2(1) w1(2) r2(2) c2 r1(3) w1(3)",
    },
    // Own writes, aborted readers, open cues, and the last cue.
    Sample {
        shows: "a cue reads its own write over another's",
        book: "w1(5) w2(5) r2(5) c1 c2",
    },
    Sample {
        shows: "the reader aborts",
        book: "w1(5) r2(5) a2 c1",
    },
    Sample {
        shows: "a read of a committed write over an open one",
        book: "w1(5) w2(5) c2 r3(5) c1 c3",
    },
    Sample {
        shows: "cue 64 comes first",
        book: "w64(5) r2(5) c64 c2",
    },
    Sample {
        shows: "an open write is read by an open cue",
        book: "w1(5) w2(5) c1 r3(5)",
    },
    Sample {
        shows: "the reader aborts, and none commits",
        book: "w1(5) r2(5) a2",
    },
    Sample {
        shows: "the views come before the order",
        book: "w2(5) w1(5) r1(5) w3(5) c1 c2 c3",
    },
];

// Books of marks.
pub const MARKS: [Sample<'static>; 3] = [
    Sample {
        shows: "marks of either case are the same",
        book: "w1(trap) r2(TRAP) c1 c2",
    },
    Sample {
        shows: "other marks are not",
        book: "w1(trap) r2(traps) c1 c2",
    },
    Sample {
        shows: "marks of other letters are not",
        book: "w1(trap) r2(lift) c1 c2",
    },
];
