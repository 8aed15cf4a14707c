//! How faults are told.

use crate::{FileFault, Part, Place};
use std::test::Fail;

#[test]
fn causes_and_places_are_printed(rt: HostRuntime) -> Result<(), Fail> {
    let parts = [
        (Part::File, "shape file"),
        (Part::Top, "shape top"),
        (Part::Function, "shape function 31"),
        (Part::Chain, "shape chain 31"),
        (Part::Step, "shape step 31 15"),
        (Part::Rule, "shape rule 31"),
        (Part::Default, "shape default"),
    ];
    for (part, told) in parts {
        let place = Place {
            part,
            item: 31,
            inner: 15,
        };
        let text = format!(in rt.alloc(); "{}", FileFault::Shape { place })?;
        assert_eq!(rt; text.as_str(), told);
    }
    let place = Place::of(Part::Top);
    let causes = [
        (FileFault::Json, "json file"),
        (FileFault::Unknown { place }, "unknown top"),
        (FileFault::Limit { place }, "limit top"),
        (FileFault::Twice { place }, "twice top"),
        (FileFault::Marks { place }, "marks top"),
        (FileFault::Memory, "memory"),
    ];
    for (fault, told) in causes {
        let text = format!(in rt.alloc(); "{fault}")?;
        assert_eq!(rt; text.as_str(), told);
    }
    Ok(())
}
