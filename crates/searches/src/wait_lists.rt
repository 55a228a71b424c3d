// The wait lists.
use crate::Sample;
use graphs::Wait;

pub const LISTS: [Sample<'static>; 14] = [
    Sample {
        shows: "no row",
        rows: &[],
    },
    Sample {
        shows: "the larger number is awaited",
        rows: &[Wait {
            winch: 1,
            awaited: 2,
        }],
    },
    Sample {
        shows: "a chain",
        rows: &[
            Wait {
                winch: 3,
                awaited: 1,
            },
            Wait {
                winch: 2,
                awaited: 3,
            },
        ],
    },
    Sample {
        shows: "two wait for a third",
        rows: &[
            Wait {
                winch: 1,
                awaited: 3,
            },
            Wait {
                winch: 2,
                awaited: 3,
            },
        ],
    },
    Sample {
        shows: "the smallest that can go first goes first",
        rows: &[
            Wait {
                winch: 1,
                awaited: 4,
            },
            Wait {
                winch: 3,
                awaited: 2,
            },
        ],
    },
    Sample {
        shows: "one row twice",
        rows: &[
            Wait {
                winch: 2,
                awaited: 1,
            },
            Wait {
                winch: 2,
                awaited: 1,
            },
        ],
    },
    Sample {
        shows: "winch 64",
        rows: &[Wait {
            winch: 64,
            awaited: 1,
        }],
    },
    Sample {
        shows: "two wait for each other",
        rows: &[
            Wait {
                winch: 1,
                awaited: 2,
            },
            Wait {
                winch: 2,
                awaited: 1,
            },
        ],
    },
    Sample {
        shows: "three in a cycle",
        rows: &[
            Wait {
                winch: 2,
                awaited: 1,
            },
            Wait {
                winch: 3,
                awaited: 2,
            },
            Wait {
                winch: 1,
                awaited: 3,
            },
        ],
    },
    Sample {
        shows: "a winch that waits for itself",
        rows: &[Wait {
            winch: 5,
            awaited: 5,
        }],
    },
    Sample {
        shows: "a cycle beside winches that could move",
        rows: &[
            Wait {
                winch: 2,
                awaited: 1,
            },
            Wait {
                winch: 4,
                awaited: 5,
            },
            Wait {
                winch: 5,
                awaited: 4,
            },
        ],
    },
    Sample {
        shows: "winch 0 waits",
        rows: &[Wait {
            winch: 0,
            awaited: 1,
        }],
    },
    Sample {
        shows: "winch 65 is awaited",
        rows: &[Wait {
            winch: 1,
            awaited: 65,
        }],
    },
    Sample {
        shows: "winch 65 waits, in the second row",
        rows: &[
            Wait {
                winch: 2,
                awaited: 1,
            },
            Wait {
                winch: 65,
                awaited: 1,
            },
        ],
    },
];
