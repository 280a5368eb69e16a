// The two packed words.

use lk_word::{
    Fields, Layout, Locked, NodeName, RwFields, pack, pack_rw, packing_is_exact, unpack, unpack_rw,
};

const HELD: Fields = Fields {
    locked: Locked::Held,
    pending: true,
    tail: Some(NodeName { cpu: 5, index: 3 }),
};

const SLOW: Fields = Fields {
    locked: Locked::Slow,
    pending: false,
    tail: Some(NodeName { cpu: 63, index: 1 }),
};

const FAR: Fields = Fields {
    locked: Locked::Slow,
    pending: false,
    tail: Some(NodeName {
        cpu: 1023,
        index: 0,
    }),
};

const READ: RwFields = RwFields {
    readers: 2,
    waiting: true,
    writer: false,
};

// Words of both layouts, written from their tables by hand, with the fields that they have.
const WORDS: [(Layout, u32, Option<Fields>); 9] = [
    (Layout::Narrow, 0x001b_0101, Some(HELD)),
    (Layout::Narrow, 0x0101_0003, Some(SLOW)),
    (Layout::Narrow, 0x200, None),
    (Layout::Narrow, 2, None),
    (Layout::Narrow, 0x1_0000, None),
    (Layout::Wide, 0x3701, Some(HELD)),
    (Layout::Wide, 0x20_0003, Some(FAR)),
    (Layout::Wide, 0x200, None),
    (Layout::Wide, 2, None),
];

#[test]
fn words_unpack_by_their_layout(rt: HostRuntime) {
    for (layout, word, fields) in WORDS {
        let found = unpack(layout, word);
        assert_eq!(rt; found, fields, "at {word}");
        if let Some(found) = found {
            assert_eq!(rt; pack(layout, found), word);
        }
    }
}

#[test]
fn word_of_readers_packs_and_unpacks(rt: HostRuntime) {
    assert!(rt; pack_rw(READ) == 0x500 && unpack_rw(0x500) == Some(READ));
    packing_is_exact();
}
