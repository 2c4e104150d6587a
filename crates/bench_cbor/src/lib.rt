// What bench/cbor.c and bench/front.c call: the walk over all bytes of a slice, seen as a ring from a place on.
#![tactic(auto)]

use ring::view::View;

// Where the item ends; 0 where it is not whole.
#[unsafe(no_mangle)]
pub extern "C" fn cbor_end(s: &[u8], from: usize) -> usize {
    if s.len() < from {
        return 0;
    }
    let v = View {
        bytes: s,
        from,
        len: s.len(),
    };
    cbor::measure(v).unwrap_or(0)
}

// Its complete heads.
#[unsafe(no_mangle)]
pub extern "C" fn cbor_heads(s: &[u8], from: usize) -> usize {
    if s.len() < from {
        return 0;
    }
    let v = View {
        bytes: s,
        from,
        len: s.len(),
    };
    cbor::resume(v, cbor::begin()).walk.heads
}
