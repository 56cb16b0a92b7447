//! The end that only runs of woven programs have, and the greatest count of tries.

use crate::ground::shows;
use cw_core::SeamId;
use cw_value::{Stop, Values};
use std::mem::forget;

#[test]
fn ends_without_a_place(rt: HostRuntime) {
    let values = Values {
        made: Vec::new(rt.alloc()),
        tried: u32::MAX,
        stop: Stop::Refused(SeamId(65535)),
    };
    shows(
        &rt,
        rt.alloc(),
        "",
        &values,
        "tries 4294967295\nstop refused 65535\n",
    );
    forget(values);
}
