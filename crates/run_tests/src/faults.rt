// What each fault of a run is as a refusal: cause, layer and place.
use crate::refused::{full, invalid, locked, out_of_turn};
use base::{Cause, Layer};
use run::RunFault;
use std::test::Fail;
use store::fault::StoreFault;

#[test]
fn refusals(rt: HostRuntime) -> Result<(), Fail> {
    let no_part = RunFault::Store {
        fault: StoreFault::NoPart,
        place: 6,
    };
    for (fault, number, cause, place) in [
        (out_of_turn(3), 11, Cause::OutOfTurn, 3),
        (RunFault::Counts { place: 0 }, 13, Cause::WrongCount, 0),
        (RunFault::Mismatch { place: 5 }, 14, Cause::Mismatch, 5),
        (invalid(1), 12, Cause::Invalid, 1),
        (no_part, 13, Cause::WrongCount, 6),
        (locked(4), 14, Cause::Mismatch, 4),
        (full(2), 15, Cause::Full, 2),
    ] {
        let refusal = fault.refusal();
        assert!(rt; refusal.cause == cause);
        assert!(rt; refusal.layer == Layer::Run);
        assert!(rt; refusal.place == place);
        assert!(rt; fault.number() == number);
        assert!(rt; fault.place() == place);
    }
    Ok(())
}
