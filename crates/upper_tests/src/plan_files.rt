//! Plan files.
use crate::rows::each;
use rollout::{print_planned, read_planned};
use std::alloc::Global;
use std::test::Fail;

/// Whether what is printed of what is read is this.
fn prints(alloc: Global, text: &str, want: &str) -> bool {
    match read_planned(alloc, text.as_bytes()) {
        Ok(planned) => match print_planned(alloc, &planned) {
            Ok(bytes) => bytes.as_slice() == want.as_bytes(),
            Err(_) => false,
        },
        Err(_) => false,
    }
}

const READ: &str =
    r#"{"alpha":[["blue",0,0],["blue",1,0],["blue",2,0],["red",0,0],["red",1,0],["red",2,0]],"beta":[["blue",0],["green",0],["red",0]],"cost":0,"plan":1,"rule":[["red",2],["blue",2],["red",1],["blue",5]]} -> {"alpha":[["blue",0,0],["blue",1,0],["blue",2,0],["red",0,0],["red",1,0],["red",2,0]],"beta":[["blue",0],["green",0],["red",0]],"cost":0,"plan":1,"rule":[["red",2],["blue",2],["red",1],["blue",5]]}
{"rule": [["a\u00e9", 1]], "cost": 9007199254740991, "beta": [["", -9007199254740991]], "alpha": [], "plan": 1, "side": 0, "more": {}} -> {"alpha":[],"beta":[["",-9007199254740991]],"cost":9007199254740991,"plan":1,"rule":[["aé",1]]}
{"none":["blue","red"],"plan":1,"side":"under"} -> {"none":["blue","red"],"plan":1}
{"none":[],"plan":1} -> {"none":[],"plan":1}
{"none":["green"],"plan":2,"side":"under"} -> {"none":["green"],"plan":2,"side":"under"}"#;

#[test]
fn prints_what_it_read(rt: HostRuntime) -> Result<(), Fail> {
    each(rt.alloc(), READ, prints)
}
