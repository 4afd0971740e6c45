//! What `c/check` cannot call: the laws over the exports, which the library for C does not have.
//! Also which pads are invalid, whether they are used or not.

use crate::format::FontPad;
use crate::laws::{composed, in_turn};
use crate::matrix::*;
use font_types::Pad;

#[test]
fn images_in_both_orders(rt: HostRuntime) {
    // turns by a right angle, and moves by (1, 2)
    let turn = FontMatrix {
        xx: 0,
        yx: 65536,
        xy: -65536,
        yy: 0,
        dx: 65536,
        dy: 131072,
    };
    let stretch = FontMatrix {
        xx: 131072,
        xy: 0,
        ..turn
    };
    let point = FontPoint { x: 3, y: 1 };
    let (once, twice) = (
        composed(turn, stretch, point),
        in_turn(turn, stretch, point),
    );
    assert!(rt; once.x == -65539 && once.y == 196614 && twice.x == once.x && twice.y == once.y);
}

#[test]
fn pads(rt: HostRuntime) {
    for &(fill, align, zeros, is_valid) in &[
        (0, 0, 0, true),
        (0x7F, 2, 1, true),
        (0x80, 2, 1, false),
        (0x80, 2, 0, false),
        (b' ', 3, 1, false),
        (b' ', 255, 0, false),
    ] {
        let pad = FontPad {
            width: 4,
            fill,
            align,
            plus: 0,
            zeros,
        };
        assert!(rt;
            Pad::try_from(pad).is_ok() == is_valid,
            "{fill} {align} {zeros}"
        );
    }
}
