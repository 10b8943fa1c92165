use calls::fault::IndexFault;
use index::record::Record;
use keys::berth::Berth;
use std::process::Abort;
use tables::item::{Item, ItemState};
use tables::request::Request;

const HERE: Berth = Berth {
    harbour: 0,
    berth: 9,
};

const OLD_ITEM: Item<Berth, u32> = Item {
    state: ItemState::InRing,
    key: HERE,
    value: 5,
    next: 77,
    occupied: true,
};

const OLD_REQUEST: Request<Berth, u32> = Request {
    key: HERE,
    value: 5,
};

// The number of a refusal, or 0.
fn number_of<T: Drop>(answer: Result<T, IndexFault>) -> u8 {
    match answer {
        Ok(_) => 0,
        Err(fault) => fault.number(),
    }
}

#[derive(Clone, Copy)]
struct Making {
    bits: u8,
    heads: usize,
    items: usize,
    requests: usize,
    // no refusal has the number 0, and a row stays a row of a table
    number: u8,
}

fn try_making(rt: &impl Abort, case: Making) {
    let mut heads = [7u32; 512];
    let mut items = [OLD_ITEM; 4097];
    let requests = [OLD_REQUEST; 16];
    assert!(rt; case.heads <= 512 && case.items <= 4097 && case.requests <= 16);
    let mut record = Record::blank();
    let answer = record.make(
        &mut heads[0..case.heads],
        &mut items[0..case.items],
        &requests[0..case.requests],
        case.bits,
    );
    assert_eq!(rt; number_of(answer), case.number);
}

// 8 head bits and 4096 items pass; 9 and 4097 are refused.
#[test]
fn limits_of_making(rt: HostRuntime) {
    let cases = [
        Making {
            bits: 8,
            heads: 256,
            items: 4096,
            requests: 16,
            number: 0,
        },
        Making {
            bits: 0,
            heads: 1,
            items: 1,
            requests: 16,
            number: 0,
        },
        Making {
            bits: 9,
            heads: 512,
            items: 4096,
            requests: 16,
            number: 7,
        },
        Making {
            bits: 9,
            heads: 0,
            items: 0,
            requests: 0,
            number: 7,
        },
        Making {
            bits: 8,
            heads: 256,
            items: 4097,
            requests: 16,
            number: 8,
        },
        Making {
            bits: 8,
            heads: 255,
            items: 4096,
            requests: 16,
            number: 8,
        },
        Making {
            bits: 8,
            heads: 256,
            items: 0,
            requests: 16,
            number: 8,
        },
        Making {
            bits: 8,
            heads: 256,
            items: 4096,
            requests: 15,
            number: 8,
        },
    ];
    for case in &cases {
        try_making(&rt, *case);
    }
}
