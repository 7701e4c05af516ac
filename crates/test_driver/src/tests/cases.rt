//! The answers of a driver, by the state of its unit, the order of its requests, and the behaviour of its
//! store.
use super::asked::{Ask, Reply};
use super::stores::{Case, Over};

/// Eight blocks, of which only the last isn't zeros.
const LAST_OF_EIGHT: &[u16] = &[0, 0, 0, 0, 0, 0, 0, 0x3737];

/// Ten blocks that differ.
const TEN: &[u16] = &[
    0, 0x0101, 0x0202, 0x0303, 0x0404, 0x0505, 0x0606, 0x0707, 0x0808, 0x0909,
];

/// Sixteen blocks that differ.
const SIXTEEN: &[u16] = &[
    0, 0x0101, 0x0202, 0x0303, 0x0404, 0x0505, 0x0606, 0x0707, 0x0808, 0x0909, 0x0a0a, 0x0b0b,
    0x0c0c, 0x0d0d, 0x0e0e, 0x0f0f,
];

/// Reads at the end and at the beginning of ten blocks.
const OUT_OF_ORDER: &[&[(Ask, Reply)]] = &[&[
    (Ask::Online, Reply::Online(0, 0, 10)),
    (Ask::Read(9, 512), Reply::Data(9, 512, 0)),
    (Ask::Read(0, 512), Reply::Data(0, 512, 0)),
    (Ask::Read(5, 512), Reply::Data(5, 512, 0)),
    (Ask::Read(1, 512), Reply::Data(1, 512, 0)),
]];

/// Online, and then Reads of one block each, at 13 and down to 0.
const FIFTEEN: &[&[(Ask, Reply)]] = &[&[
    (Ask::Online, Reply::Online(0, 0, 16)),
    (Ask::Read(13, 512), Reply::Data(0xd, 512, 0)),
    (Ask::Read(12, 512), Reply::Data(0xc, 512, 0)),
    (Ask::Read(11, 512), Reply::Data(0xb, 512, 0)),
    (Ask::Read(10, 512), Reply::Data(0xa, 512, 0)),
    (Ask::Read(9, 512), Reply::Data(9, 512, 0)),
    (Ask::Read(8, 512), Reply::Data(8, 512, 0)),
    (Ask::Read(7, 512), Reply::Data(7, 512, 0)),
    (Ask::Read(6, 512), Reply::Data(6, 512, 0)),
    (Ask::Read(5, 512), Reply::Data(5, 512, 0)),
    (Ask::Read(4, 512), Reply::Data(4, 512, 0)),
    (Ask::Read(3, 512), Reply::Data(3, 512, 0)),
    (Ask::Read(2, 512), Reply::Data(2, 512, 0)),
    (Ask::Read(1, 512), Reply::Data(1, 512, 0)),
    (Ask::Read(0, 512), Reply::Data(0, 512, 0)),
]];

/// A Write, and Reads of its block and of others.
const KEPT_OUT: &[&[(Ask, Reply)]] = &[&[
    (Ask::Online, Reply::Online(0, 0, 8)),
    (Ask::Write(5, 0x33, 512), Reply::Moved(0, 512)),
    (Ask::Read(5, 512), Reply::Data(0x33, 512, 0)),
    (Ask::Read(1, 512), Reply::Data(0, 512, 0)),
    (Ask::Read(7, 512), Reply::Data(0, 512, 0)),
]];

pub static CASES: [Case; 29] = [
    Case {
        name: "an empty run",
        over: Over::Memory,
        blocks: &[0; 8],
        runs: &[&[]],
        left: Some(&[0; 8]),
    },
    Case {
        name: "unit states",
        over: Over::Memory,
        blocks: &[0; 8],
        runs: &[
            &[(Ask::Read(0, 512), Reply::NoData(4))],
            &[(Ask::Status(4), Reply::Status(3))],
            &[(Ask::Status(1), Reply::Status(0x23))],
            &[(Ask::Available, Reply::Plain(0))],
            &[(Ask::Available, Reply::Plain(0))],
            &[(Ask::Online, Reply::Online(0, 0, 8))],
            &[(Ask::Protect, Reply::Online(0x0100, 0, 8))],
            &[(Ask::Status(0), Reply::Status(0))],
        ],
        left: Some(&[0; 8]),
    },
    Case {
        name: "a unit that is protected by software",
        over: Over::Memory,
        blocks: &[0; 8],
        runs: &[&[
            (Ask::Protect, Reply::Online(0, 0x1000, 8)),
            (Ask::Write(0, 0x5a, 512), Reply::Moved(0x1006, 0)),
            (Ask::Read(0, 512), Reply::Data(0, 512, 0)),
        ]],
        left: Some(&[0; 8]),
    },
    Case {
        name: "an empty Write to a protected unit",
        over: Over::Memory,
        blocks: &[0; 8],
        runs: &[&[
            (Ask::Protect, Reply::Online(0, 0x1000, 8)),
            (Ask::Write(0, 0x5a, 0), Reply::Moved(0x1006, 0)),
            (Ask::Read(0, 512), Reply::Data(0, 512, 0)),
        ]],
        left: Some(&[0; 8]),
    },
    Case {
        name: "a unit that is protected by the drive",
        over: Over::Protected,
        blocks: &[0x0101; 8],
        runs: &[&[
            (Ask::Protect, Reply::Online(0, 0x3000, 8)),
            (Ask::Erase, Reply::Moved(0x2006, 0)),
        ]],
        left: Some(&[0x0101; 8]),
    },
    Case {
        name: "the last block",
        over: Over::Memory,
        blocks: LAST_OF_EIGHT,
        runs: &[&[
            (Ask::Online, Reply::Online(0, 0, 8)),
            (Ask::Read(7, 512), Reply::Data(0x37, 512, 0)),
        ]],
        left: Some(LAST_OF_EIGHT),
    },
    Case {
        name: "no bytes after the last block",
        over: Over::Memory,
        blocks: LAST_OF_EIGHT,
        runs: &[&[
            (Ask::Online, Reply::Online(0, 0, 8)),
            (Ask::Read(8, 0), Reply::NoData(0x1c01)),
        ]],
        left: Some(LAST_OF_EIGHT),
    },
    Case {
        name: "more than the last block",
        over: Over::Memory,
        blocks: LAST_OF_EIGHT,
        runs: &[&[
            (Ask::Online, Reply::Online(0, 0, 8)),
            (Ask::Read(7, 1024), Reply::NoData(0x0c01)),
        ]],
        left: Some(LAST_OF_EIGHT),
    },
    Case {
        name: "part of a block",
        over: Over::Memory,
        blocks: &[0x7777; 8],
        runs: &[&[
            (Ask::Online, Reply::Online(0, 0, 8)),
            (Ask::Write(2, 0x66, 514), Reply::Moved(0, 514)),
            (Ask::Read(2, 1024), Reply::Data(0x66, 514, 510)),
            (Ask::Read(3, 4), Reply::Data(0x66, 2, 2)),
        ]],
        left: None,
    },
    Case {
        name: "odd counts and limits",
        over: Over::Memory,
        blocks: &[0; 8],
        runs: &[&[
            (Ask::Online, Reply::Online(0, 0, 8)),
            (Ask::Read(7, 514), Reply::NoData(0x0c01)),
            (Ask::Read(7, 2), Reply::Data(0, 2, 0)),
            (Ask::Read(8, 2), Reply::NoData(0x1c01)),
            (Ask::Read(0, 3), Reply::NoData(0x0049)),
            (Ask::Read(0, 16_386), Reply::TooLong),
            (Ask::Access(4_294_967_294), Reply::Moved(0x0c01, 0)),
            (Ask::Access(4_294_967_296), Reply::TooLong),
        ]],
        left: Some(&[0; 8]),
    },
    Case {
        name: "no blocks",
        over: Over::Memory,
        blocks: &[],
        runs: &[&[
            (Ask::Online, Reply::Online(0, 0, 0)),
            (Ask::Read(0, 0), Reply::NoData(0x1c01)),
        ]],
        left: Some(&[]),
    },
    Case {
        name: "thirty-three blocks",
        over: Over::Memory,
        blocks: &[0; 40],
        runs: &[&[
            (Ask::Online, Reply::Online(0, 0, 40)),
            (Ask::Read(0, 16_896), Reply::TooLong),
            (Ask::Read(0, 16_384), Reply::Data(0, 16_384, 0)),
        ]],
        left: Some(&[0; 40]),
    },
    Case {
        name: "two runs of one driver",
        over: Over::Memory,
        blocks: &[0; 8],
        runs: &[
            &[
                (Ask::Online, Reply::Online(0, 0, 8)),
                (Ask::Write(2, 0x21, 512), Reply::Moved(0, 512)),
            ],
            &[
                (Ask::Read(2, 512), Reply::Data(0x21, 512, 0)),
                (Ask::Available, Reply::Plain(0)),
                (Ask::Read(2, 512), Reply::NoData(4)),
            ],
        ],
        left: Some(&[0, 0, 0x2121, 0, 0, 0, 0, 0]),
    },
    Case {
        name: "more than eight",
        over: Over::Memory,
        blocks: &[0; 10],
        runs: &[&[
            (Ask::Online, Reply::Online(0, 0, 10)),
            (Ask::Write(0, 0, 512), Reply::Moved(0, 512)),
            (Ask::Write(1, 1, 512), Reply::Moved(0, 512)),
            (Ask::Write(2, 2, 512), Reply::Moved(0, 512)),
            (Ask::Write(3, 3, 512), Reply::Moved(0, 512)),
            (Ask::Write(4, 4, 512), Reply::Moved(0, 512)),
            (Ask::Write(5, 5, 512), Reply::Moved(0, 512)),
            (Ask::Write(6, 6, 512), Reply::Moved(0, 512)),
            (Ask::Write(7, 7, 512), Reply::Moved(0, 512)),
            (Ask::Write(8, 8, 512), Reply::Moved(0, 512)),
            (Ask::Write(9, 9, 512), Reply::Moved(0, 512)),
            (Ask::Read(0, 512), Reply::Data(0, 512, 0)),
            (Ask::Read(1, 512), Reply::Data(1, 512, 0)),
            (Ask::Read(2, 512), Reply::Data(2, 512, 0)),
            (Ask::Read(3, 512), Reply::Data(3, 512, 0)),
            (Ask::Read(4, 512), Reply::Data(4, 512, 0)),
            (Ask::Read(5, 512), Reply::Data(5, 512, 0)),
            (Ask::Read(6, 512), Reply::Data(6, 512, 0)),
            (Ask::Read(7, 512), Reply::Data(7, 512, 0)),
            (Ask::Read(8, 512), Reply::Data(8, 512, 0)),
            (Ask::Read(9, 512), Reply::Data(9, 512, 0)),
        ]],
        left: Some(TEN),
    },
    Case {
        name: "overlapping Writes",
        over: Over::Memory,
        blocks: &[0; 8],
        runs: &[&[
            (Ask::Online, Reply::Online(0, 0, 8)),
            (Ask::Write(3, 0x11, 1536), Reply::Moved(0, 1536)),
            (Ask::Read(5, 512), Reply::Data(0x11, 512, 0)),
            (Ask::Write(5, 0x22, 512), Reply::Moved(0, 512)),
            (Ask::Read(5, 512), Reply::Data(0x22, 512, 0)),
        ]],
        left: Some(&[0, 0, 0, 0x1111, 0x1111, 0x2222, 0, 0]),
    },
    Case {
        name: "Reads out of order",
        over: Over::Memory,
        blocks: TEN,
        runs: OUT_OF_ORDER,
        left: Some(TEN),
    },
    Case {
        name: "Reads out of order: the store's calls",
        over: Over::Calls(&[0, 1, 5, 9]),
        blocks: TEN,
        runs: OUT_OF_ORDER,
        left: Some(TEN),
    },
    Case {
        name: "fifteen out",
        over: Over::Memory,
        blocks: SIXTEEN,
        runs: FIFTEEN,
        left: Some(SIXTEEN),
    },
    Case {
        name: "fifteen out: the store's calls",
        over: Over::Calls(&[0, 1, 2, 3, 4, 5, 6, 7, 8, 9, 10, 11, 12, 13]),
        blocks: SIXTEEN,
        runs: FIFTEEN,
        left: Some(SIXTEEN),
    },
    Case {
        name: "several kept out",
        over: Over::Memory,
        blocks: &[0; 8],
        runs: KEPT_OUT,
        left: Some(&[0, 0, 0, 0, 0, 0x3333, 0, 0]),
    },
    Case {
        name: "several kept out: the store's calls",
        over: Over::Calls(&[5, 5, 7, 1]),
        blocks: &[0; 8],
        runs: KEPT_OUT,
        left: Some(&[0, 0, 0, 0, 0, 0x3333, 0, 0]),
    },
    Case {
        name: "the store's call 1 fails",
        over: Over::Failing(1),
        blocks: &[0; 8],
        runs: &[&[
            (Ask::Online, Reply::Online(0, 0, 8)),
            (Ask::Write(0, 0x44, 1536), Reply::Moved(0x000b, 0)),
            (Ask::Read(0, 512), Reply::Data(0x44, 256, 256)),
        ]],
        left: Some(&[0x4400, 0, 0, 0, 0, 0, 0, 0]),
    },
    Case {
        name: "the store's call 2 fails",
        over: Over::Failing(2),
        blocks: &[0; 8],
        runs: &[&[
            (Ask::Online, Reply::Online(0, 0, 8)),
            (Ask::Write(0, 0x44, 1536), Reply::Moved(0x000b, 512)),
            (Ask::Read(0, 512), Reply::Data(0x44, 512, 0)),
        ]],
        left: Some(&[0x4444, 0x4400, 0, 0, 0, 0, 0, 0]),
    },
    Case {
        name: "the store's call 3 fails",
        over: Over::Failing(3),
        blocks: &[0; 8],
        runs: &[&[
            (Ask::Online, Reply::Online(0, 0, 8)),
            (Ask::Write(0, 0x44, 1536), Reply::Moved(0x000b, 1024)),
            (Ask::Read(0, 512), Reply::Data(0x44, 512, 0)),
        ]],
        left: Some(&[0x4444, 0x4444, 0x4400, 0, 0, 0, 0, 0]),
    },
    Case {
        name: "the store's call 4 fails",
        over: Over::Failing(4),
        blocks: &[0; 8],
        runs: &[&[
            (Ask::Online, Reply::Online(0, 0, 8)),
            (Ask::Write(0, 0x44, 1536), Reply::Moved(0, 1536)),
            (Ask::Read(0, 512), Reply::NoData(0x000b)),
        ]],
        left: Some(&[0x4444, 0x4444, 0x4444, 0, 0, 0, 0, 0]),
    },
    Case {
        name: "the store's call 5 fails",
        over: Over::Failing(5),
        blocks: &[0; 8],
        runs: &[&[
            (Ask::Online, Reply::Online(0, 0, 8)),
            (Ask::Write(0, 0x44, 1536), Reply::Moved(0, 1536)),
            (Ask::Read(0, 512), Reply::Data(0x44, 512, 0)),
        ]],
        left: Some(&[0x4444, 0x4444, 0x4444, 0, 0, 0, 0, 0]),
    },
    Case {
        name: "no call of the store fails",
        over: Over::Failing(0),
        blocks: &[0; 8],
        runs: &[&[
            (Ask::Online, Reply::Online(0, 0, 8)),
            (Ask::Write(0, 0x44, 1536), Reply::Moved(0, 1536)),
            (Ask::Read(0, 512), Reply::Data(0x44, 512, 0)),
        ]],
        left: Some(&[0x4444, 0x4444, 0x4444, 0, 0, 0, 0, 0]),
    },
    Case {
        name: "a failing Access",
        over: Over::Failing(2),
        blocks: &[0x0707; 8],
        runs: &[&[
            (Ask::Online, Reply::Online(0, 0, 8)),
            (Ask::Access(1536), Reply::Moved(0x000b, 512)),
        ]],
        left: Some(&[0x0707; 8]),
    },
    Case {
        name: "a shortened file",
        over: Over::ShortenedFile,
        blocks: &[0x0707; 8],
        runs: &[&[
            (Ask::Online, Reply::Online(0, 0, 8)),
            (Ask::Read(3, 512), Reply::Data(7, 512, 0)),
            (Ask::Read(6, 512), Reply::NoData(0x000b)),
        ]],
        left: Some(&[0x0707; 4]),
    },
];
